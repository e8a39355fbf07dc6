//! A check of a closed desk by plain lists, in which no book is.
use dd_book::Limits;
use dd_desk::{Closed, Naming};
use request_tests::book::made::{MadeReply, Shows, Step, plain, plain_call, shown};
use request_tests::book::second::Second;
use std::alloc::{AllocError, Global};
use std::process::Abort;

fn shows<J: Naming>(closed: &Closed<J>, job: u64) -> Option<Shows> {
    match closed.book().state(job) {
        Some(state) => Some(shown(&state)),
        None => None,
    }
}

// What is counted along a journal for what is reserved after it: its finishes, of each job whether a reply has told that it has
// ended, and whether the book was shut.
#[derive(Drop)]
struct Tally {
    finishes: u64,
    told: Vec<bool>,
    // how many of these are not
    untold: u64,
    shut: bool,
}

impl Tally {
    fn note(&mut self, called: Step, reply: MadeReply) -> Result<(), AllocError> {
        match called {
            Step::Finish(_, _, _, _) => self.finishes = self.finishes.wrapping_add(1),
            Step::Shut => self.shut = true,
            _ => {}
        }
        match reply {
            MadeReply::Job(_) => {
                self.told.push(false)?;
                self.untold = self.untold.wrapping_add(1);
            }
            MadeReply::Cancelled(job) => self.tell(job),
            MadeReply::State(_, Shows::Waiting | Shows::Running) => {}
            MadeReply::State(job, _) => self.tell(job),
            _ => {}
        }
        Ok(())
    }

    fn tell(&mut self, job: u64) {
        if let Some(place) = job.checked_sub(1) {
            if let Some(told) = self.told.get_mut(place as usize) {
                if !*told {
                    self.untold = self.untold.wrapping_sub(1);
                }
                *told = true;
            }
        }
    }

    // The events that these jobs need still: a claim and a finish of each part that waits, a finish of each that runs, or of each
    // claim that none answered where these are more, a fetch of each job whose end was not told, and a shut.
    fn reserved(&self, jobs: &mut Second) -> u64 {
        let (waiting, running) = jobs.counts();
        let unanswered = (jobs.given.len() as u64).saturating_sub(self.finishes);
        let shut = if self.shut { 0u64 } else { 1u64 };
        waiting
            .wrapping_mul(2)
            .wrapping_add(running.max(unanswered))
            .wrapping_add(self.untold)
            .wrapping_add(shut)
    }
}

/// Each reply is what a plain list of jobs replies to which the journal is told, and the events of
/// each caller are the receipts of its pass, in order and at their places. At
/// the end each job of the book is as the list has it. After each event there is room for what the jobs of the list need still.
/// The result is how many events are free then, neither made nor needed: before the first event, and after each.
pub fn check<J: Naming>(
    rt: &impl Abort,
    alloc: Global,
    limits: Limits,
    closed: &Closed<J>,
) -> Result<Vec<u64>, AllocError> {
    let mut jobs = Second::new(alloc, limits.open_jobs() as usize, limits.jobs() as usize);
    let mut tally = Tally {
        finishes: 0,
        told: Vec::new(alloc),
        untold: 0,
        shut: false,
    };
    let mut seen = Vec::from_elem(alloc, 0usize, closed.passes().len())?;
    let mut free = Vec::new(alloc);
    // A shut.
    free.push(limits.events().saturating_sub(1))?;
    for (place, event) in closed.journal().iter().enumerate() {
        let called = plain_call(event.call());
        let told = jobs.apply(called)?;
        let caller = event.caller().saturating_sub(1) as usize;
        let at = seen.get_mut(caller).expect(rt, "a pass of this number");
        let pass = closed.passes().get(caller).expect(rt, "a pass");
        let receipt = pass.receipts().get(*at).expect(rt, "a receipt");
        let same = told == plain(event.reply())
            && told == plain(receipt.reply())
            && called == plain_call(receipt.call())
            && place as u64 == receipt.place()
            && pass.number() == event.caller();
        assert!(rt; same, "event {place}");
        *at = at.wrapping_add(1);
        tally.note(called, told)?;
        let used = (place as u64)
            .wrapping_add(1)
            .wrapping_add(tally.reserved(&mut jobs));
        assert!(rt;
            used <= limits.events(),
            "event {place} has no room for what is reserved"
        );
        free.push(limits.events().saturating_sub(used))?;
    }
    for (pass, count) in closed.passes().iter().zip(seen.iter()) {
        assert_eq!(rt; pass.receipts().len(), *count);
    }
    // The job 0 and the one after the last are none.
    for job in 0..(jobs.len() as u64).saturating_add(2) {
        assert!(rt; shows(closed, job) == jobs.shows(job), "job {job}");
    }
    Ok(free)
}
