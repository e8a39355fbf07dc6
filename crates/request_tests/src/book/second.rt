//! A second book: a plain list of jobs, walked along at each call.
use crate::book::made::{Asks, Ends, MadeReply, Shows, Step};
use std::alloc::{AllocError, Global};

#[derive(Clone, Copy, PartialEq, Eq)]
enum Part {
    Waiting,
    /// By this worker under this claim number.
    Running(u64, u64),
    Ended,
}

// Does a part of this strain wait, and has no worker another?
fn is_free(strain: &[Part]) -> bool {
    strain.iter().any(|part| *part == Part::Waiting)
        && !strain
            .iter()
            .any(|part| matches!(*part, Part::Running(_, _)))
}

// A job that has ended has no parts.
#[derive(Drop)]
struct Job {
    owner: u64,
    asks: Asks,
    // How many claims were given before it was submitted.
    claims_before: usize,
    parts: Vec<Part>,
    // How many of them wait, and how many a worker has: counted anew when one changes.
    counts: (u64, u64),
    ended: Option<Shows>,
}

impl Job {
    fn end(&mut self, shows: Shows) -> MadeReply {
        self.parts.clear();
        self.recount();
        self.ended = Some(shows);
        MadeReply::Recorded
    }

    fn shows(&self) -> Shows {
        match self.ended {
            Some(shows) => shows,
            None if self.parts.iter().all(|part| *part == Part::Waiting) => Shows::Waiting,
            None => Shows::Running,
        }
    }

    fn waits(&self) -> bool {
        self.parts.iter().any(|part| *part == Part::Waiting)
    }

    fn recount(&mut self) {
        let parts = self.parts.iter();
        let waiting = parts.filter(|part| **part == Part::Waiting).count();
        let parts = self.parts.iter();
        let running = parts
            .filter(|part| matches!(**part, Part::Running(_, _)))
            .count();
        self.counts = (waiting as u64, running as u64);
    }

    // Does a part wait that learns from none that a worker has? Of a table one of a strain without a worker, of a play any while
    // none of its parts runs.
    fn has_free(&self) -> bool {
        let mut parts = self.parts.iter();
        match self.asks {
            Asks::Play | Asks::Trick => {
                self.waits() && !parts.any(|part| matches!(*part, Part::Running(_, _)))
            }
            Asks::Table => self.parts.chunks(4).any(is_free),
            _ => self.waits(),
        }
    }

    // The part that is claimed next: of a play the last one that waits; of a table the first of a strain without a worker, else
    // the first that waits.
    fn next_part(&self) -> Option<usize> {
        let mut waiting = self.parts.iter();
        match self.asks {
            Asks::Play | Asks::Trick => waiting.rposition(|part| *part == Part::Waiting),
            Asks::Table => match self.parts.chunks(4).position(is_free) {
                Some(strain) => {
                    let ahead = strain * 4;
                    let mut rest = self.parts.iter().skip(ahead);
                    let place = rest.position(|part| *part == Part::Waiting)?;
                    Some(ahead + place)
                }
                None => waiting.position(|part| *part == Part::Waiting),
            },
            _ => waiting.position(|part| *part == Part::Waiting),
        }
    }

    fn set(&mut self, place: usize, state: Part) -> MadeReply {
        if let Some(part) = self.parts.get_mut(place) {
            *part = state;
        }
        self.recount();
        if self.parts.iter().all(|part| *part == Part::Ended) {
            let shows = match self.asks {
                Asks::Play => Shows::PlayDone(9),
                Asks::Trick => Shows::PlayDone(3),
                _ => Shows::TableDone,
            };
            return self.end(shows);
        }
        MadeReply::Recorded
    }
}

/// A claim that was given: to a worker, of a part of an owner's job.
#[derive(Clone, Copy)]
pub struct Given {
    pub worker: u64,
    pub owner: u64,
    pub job: u64,
    pub part: u8,
    pub asks: Asks,
}

#[derive(Drop)]
pub struct Second {
    alloc: Global,
    most_open: usize,
    most_jobs: usize,
    jobs: Vec<Job>,
    /// The claims in the order of their numbers 1, 2, ..
    pub given: Vec<Given>,
    shut: bool,
    // So many jobs, or more, from the first on have ended.
    ended: usize,
}

impl Second {
    pub fn new(alloc: Global, most_open: usize, most_jobs: usize) -> Second {
        Second {
            alloc,
            most_open,
            most_jobs,
            jobs: Vec::new(alloc),
            given: Vec::new(alloc),
            shut: false,
            ended: 0,
        }
    }

    pub fn len(&self) -> usize {
        self.jobs.len()
    }

    /// How many parts of open jobs wait, and how many a worker has.
    pub fn counts(&mut self) -> (u64, u64) {
        self.pass_ended();
        let mut waiting = 0u64;
        let mut running = 0u64;
        for job in self.jobs.iter().skip(self.ended) {
            let (waits, runs) = job.counts;
            waiting = waiting.wrapping_add(waits);
            running = running.wrapping_add(runs);
        }
        (waiting, running)
    }

    // No job that has ended is ever open again.
    fn pass_ended(&mut self) {
        let mut jobs = self.jobs.iter().skip(self.ended);
        let more = jobs.position(|job| job.ended.is_none()).unwrap_or(0);
        self.ended = self.ended.wrapping_add(more);
    }

    /// What the owner of the job of this number is shown.
    pub fn shows(&self, job: u64) -> Option<Shows> {
        let place = job.checked_sub(1)?;
        let found = self.jobs.get(place as usize)?;
        Some(found.shows())
    }

    pub fn apply(&mut self, step: Step) -> Result<MadeReply, AllocError> {
        match step {
            Step::Submit(caller, asks) => self.submit(caller, asks),
            Step::Claim(worker) => self.claim(worker),
            Step::Finish(worker, job, claim, ends) => Ok(self.finish(worker, job, claim, ends)),
            Step::Cancel(caller, job) => Ok(self.cancel(caller, job)),
            Step::Fetch(caller, job) => Ok(match self.own(caller, job) {
                Some(found) => MadeReply::State(job, found.shows()),
                None => MadeReply::Fault(16),
            }),
            Step::Shut => {
                self.shut = true;
                Ok(MadeReply::Shut)
            }
        }
    }

    fn job(&mut self, job: u64) -> Option<&mut Job> {
        let place = job.checked_sub(1)?;
        self.jobs.get_mut(place as usize)
    }

    fn own(&mut self, caller: u64, job: u64) -> Option<&mut Job> {
        let found = self.job(job)?;
        if found.owner == caller {
            Some(found)
        } else {
            None
        }
    }

    fn submit(&mut self, owner: u64, asks: Asks) -> Result<MadeReply, AllocError> {
        let open = self
            .jobs
            .iter()
            .filter(|job| job.owner == owner && job.ended.is_none());
        if self.shut {
            return Ok(MadeReply::Fault(18));
        }
        if self.most_open <= open.count() {
            return Ok(MadeReply::Fault(13));
        }
        if self.most_jobs <= self.jobs.len() {
            return Ok(MadeReply::Fault(14));
        }
        let mut parts = Vec::new(self.alloc);
        let waiting = match asks {
            Asks::Table => 20u64,
            Asks::Play => 8,
            Asks::Trick => 5,
            _ => 1,
        };
        for _ in 0..waiting {
            parts.push(Part::Waiting)?;
        }
        // After the last card the number is known.
        if asks == Asks::Play {
            parts.push(Part::Ended)?;
        }
        let ended = None;
        self.jobs.push(Job {
            owner,
            asks,
            claims_before: self.given.len(),
            parts,
            counts: (waiting, 0),
            ended,
        })?;
        Ok(MadeReply::Job(self.jobs.len() as u64))
    }

    // How many claims ago this owner had its last turn: a claim of a part of its, or where there was none its first submit.
    fn claims_ago(&self, owner: u64) -> usize {
        let claimed = self
            .given
            .iter()
            .rev()
            .position(|given| given.owner == owner);
        let first = self.jobs.iter().find(|job| job.owner == owner);
        match (claimed, first) {
            (Some(ago), _) => ago,
            (None, Some(job)) => self.given.len().saturating_sub(job.claims_before),
            (None, None) => 0,
        }
    }

    // The place of the first job that waits whose owner had its last turn longest ago.
    fn due(&self) -> Option<usize> {
        let mut due = None;
        let mut most = 0;
        for (place, job) in self.jobs.iter().enumerate().skip(self.ended) {
            if job.waits() {
                let ago = self.claims_ago(job.owner);
                if due.is_none() || ago > most {
                    due = Some(place);
                    most = ago;
                }
            }
        }
        due
    }

    // The place of the job that is claimed next: the first of that owner that has a free part, else the first that waits.
    fn next(&self) -> Option<usize> {
        let due = self.due()?;
        let owner = self.jobs.get(due)?.owner;
        let mut jobs = self.jobs.iter().skip(self.ended);
        match jobs.position(|job| job.owner == owner && job.has_free()) {
            Some(place) => Some(self.ended.wrapping_add(place)),
            None => Some(due),
        }
    }

    fn claim(&mut self, worker: u64) -> Result<MadeReply, AllocError> {
        let claim = self.given.len() as u64 + 1;
        let idle = if self.shut {
            MadeReply::Closing
        } else {
            MadeReply::NothingWaits
        };
        self.pass_ended();
        let Some(place) = self.next() else {
            return Ok(idle);
        };
        let Some(found) = self.jobs.get_mut(place) else {
            return Ok(idle);
        };
        let Some(part) = found.next_part() else {
            return Ok(MadeReply::NothingWaits);
        };
        found.set(part, Part::Running(worker, claim));
        let (owner, asks) = (found.owner, found.asks);
        let (job, part) = (place as u64 + 1, part.min(19) as u8);
        self.given.push(Given {
            worker,
            owner,
            job,
            part,
            asks,
        })?;
        Ok(match asks {
            Asks::Table => MadeReply::ClaimedPart(job, part, claim),
            Asks::Target => MadeReply::ClaimedTarget(job, claim),
            Asks::Play | Asks::Trick => MadeReply::ClaimedAfter(job, part, claim),
            _ => MadeReply::Claimed(job, claim),
        })
    }

    fn finish(&mut self, worker: u64, job: u64, claim: u64, ends: Ends) -> MadeReply {
        let Some(found) = self.job(job) else {
            return MadeReply::Stale;
        };
        let running = Part::Running(worker, claim);
        let Some(part) = found.parts.iter().position(|part| *part == running) else {
            return MadeReply::Stale;
        };
        match (found.asks, ends) {
            (_, Ends::Spent) => found.end(Shows::Spent),
            (_, Ends::Stopped) => found.set(part, Part::Waiting),
            (Asks::Ace, Ends::Answer(Asks::Ace)) => found.end(Shows::Done(1)),
            (Asks::Pair, Ends::Answer(Asks::Pair)) => found.end(Shows::Done(2)),
            (Asks::Target, Ends::Answer(Asks::Target)) => found.end(Shows::TargetDone(1)),
            (Asks::Table, Ends::Part(number)) if number as usize == part => {
                found.set(part, Part::Ended)
            }
            (Asks::Play | Asks::Trick, Ends::After(count)) if count as usize == part => {
                found.set(part, Part::Ended)
            }
            _ => MadeReply::Stale,
        }
    }

    fn cancel(&mut self, caller: u64, job: u64) -> MadeReply {
        match self.own(caller, job) {
            None => MadeReply::Fault(16),
            Some(found) if found.ended.is_some() => MadeReply::Fault(17),
            Some(found) => {
                found.end(Shows::Cancelled);
                MadeReply::Cancelled(job)
            }
        }
    }
}
