//! Eight threads at one desk, four of which wait for work: one where each call finds an event, and one where most find none.
ghost use Rattle.std.specs.Prelude.{◌≡◌, map};
ghost use Rattle.once_cell.specs.Once.{cell_name};

use crate::desk::checked::check;
use crate::desk::worked::ask;
use dd_book::{Call, Limits, Outcome, Reply};
use dd_bounds::{Endless, NoTable};
use dd_desk::{Closed, Desk, DeskFault, Naming, Pass, Row};
use dd_request::Request;
use dd_solve::solve;
use request_tests::book::drawn::draw;
use request_tests::book::made::{Asks, Ends, Made, Step, make};
use std::alloc::{AllocError, Global};
use std::marker::Brand;
use std::process::Abort;
use std::sync::Wait;
use std::thread::{Threads, join};

const CALLS: u64 = 2_000;

// A call that was told that the journal is full: after how many of its pass, and how many events it would have taken at most.
#[derive(Clone, Copy)]
struct Full {
    after: usize,
    most: u64,
}

// A pass after some calls, and which of them were refused.
#[derive(Drop)]
struct Visit<J: Naming> {
    pass: Pass<J>,
    refused: u64,
    full: Vec<Full>,
    // memory for a note of one was refused
    is_short: bool,
}

impl<J: Naming> Visit<J> {
    fn new(alloc: Global, pass: Pass<J>) -> Visit<J> {
        Visit {
            pass,
            refused: 0,
            full: Vec::new(alloc),
            is_short: false,
        }
    }

    // What a call was told that would have taken so many events at most.
    fn note(&mut self, said: &Result<Reply, DeskFault>, most: u64) {
        if said.is_err() {
            self.refused = self.refused.wrapping_add(1);
        }
        if matches!(said, Err(DeskFault::JournalFull)) {
            let after = self.pass.receipts().len();
            if self.full.push(Full { after, most }).is_err() {
                self.is_short = true;
            }
        }
    }
}

// Mostly the answer.
fn outcome(seed: &mut u64, request: Request) -> Outcome {
    match draw(seed) % 16 {
        0 => Outcome::Spent,
        1 => Outcome::Stopped,
        _ => match solve(request, &mut NoTable, &mut Endless) {
            Ok(solved) => Outcome::Solved(solved),
            Err(_) => Outcome::Spent,
        },
    }
}

// Claims a part, mostly by waiting for it, and ends it with the next call. What was stopped waits again, and is claimed and
// finished again: it takes two events, any other call one at most.
fn work<J: Naming, R: Wait>(rt: &R, desk: &Desk<J>, made: &Made, mut visit: Visit<J>) -> Visit<J> {
    let mut seed = visit.pass.number();
    let mut claimed = None;
    for _ in 0..CALLS {
        let worker = visit.pass.number();
        let mut most = 1u64;
        let reply = match claimed {
            Some(
                Reply::Claimed {
                    job,
                    claim,
                    request,
                },
            ) => {
                let outcome = outcome(&mut seed, request);
                if matches!(&outcome, Outcome::Stopped) {
                    most = 2;
                }
                desk.finish(rt, &mut visit.pass, job, claim, outcome)
            }
            Some(
                Reply::ClaimedPart {
                    job,
                    part,
                    claim,
                    ..
                },
            ) => {
                let call = made.call(Step::Finish(worker, job, claim, Ends::Part(part)));
                ask(rt, desk, &mut visit.pass, call)
            }
            _ if draw(&mut seed) % 4 == 0 => desk.try_claim(rt, &mut visit.pass),
            _ => desk.claim(rt, &mut visit.pass),
        };
        visit.note(&reply, most);
        claimed = reply.ok();
    }
    visit
}

// Submits, fetches and cancels. A request takes four events, a table 42.
fn order<J: Naming, R: Wait>(rt: &R, desk: &Desk<J>, made: &Made, mut visit: Visit<J>) -> Visit<J> {
    let caller = visit.pass.number();
    let mut seed = caller;
    let mut last = 0u64;
    for _ in 0..CALLS {
        let job = last.saturating_sub(draw(&mut seed) % 4);
        let (step, most) = match draw(&mut seed) % 16 {
            0..4 => (Step::Submit(caller, Asks::Ace), 4u64),
            4 => (Step::Submit(caller, Asks::Pair), 4u64),
            5 => (Step::Submit(caller, Asks::Table), 42u64),
            6 => (Step::Cancel(caller, job), 1u64),
            _ => (Step::Fetch(caller, job), 1u64),
        };
        let reply = ask(rt, desk, &mut visit.pass, made.call(step));
        visit.note(&reply, most);
        if let Ok(Reply::Submitted(number)) = reply {
            last = number;
        }
    }
    visit
}

// No more jobs are taken. The first shut has an event and memory of its own.
fn shut<J: Naming, R: Wait>(rt: &R, desk: &Desk<J>, visit: &mut Visit<J>) {
    let reply = desk.shut(rt, &mut visit.pass);
    visit.note(&reply, 0);
}

type Two<T> = (T, T);

type Four<T> = (Two<T>, Two<T>);

fn work_all<J: Naming + Send + Sync, R: Threads + Wait + Sync>(
    rt: &R,
    desk: &Desk<J>,
    made: &Made,
    visits: Four<Visit<J>>,
) -> Four<Visit<J>> {
    let ((a, b), (c, d)) = visits;
    join(
        rt,
        move || join(
            rt,
            move || work(rt, desk, made, a),
            move || work(rt, desk, made, b),
        ),
        move || join(
            rt,
            move || work(rt, desk, made, c),
            move || work(rt, desk, made, d),
        ),
    )
}

// Then the book is shut.
fn order_all<J: Naming + Send + Sync, R: Threads + Wait + Sync>(
    rt: &R,
    desk: &Desk<J>,
    made: &Made,
    visits: Four<Visit<J>>,
) -> Four<Visit<J>> {
    let ((a, b), (c, d)) = visits;
    let ((mut a, b), (c, d)) = join(
        rt,
        move || join(
            rt,
            move || order(rt, desk, made, a),
            move || order(rt, desk, made, b),
        ),
        move || join(
            rt,
            move || order(rt, desk, made, c),
            move || order(rt, desk, made, d),
        ),
    );
    shut(rt, desk, &mut a);
    ((a, b), (c, d))
}

fn enrol_two<J: Naming, R: Wait + Abort>(rt: &R, alloc: Global, desk: &Desk<J>) -> Two<Visit<J>> {
    let first = desk.enrol(rt).ok().expect(rt, "a pass");
    let second = desk.enrol(rt).ok().expect(rt, "a pass");
    (Visit::new(alloc, first), Visit::new(alloc, second))
}

// The calls of the pass of this number that were told that the journal is full.
#[derive(Drop)]
struct Refused {
    number: u64,
    full: Vec<Full>,
}

// All passes, and what was refused: how many calls, and of each pass those at a full journal.
#[derive(Drop)]
struct Gathered<J: Naming> {
    passes: Vec<Pass<J>>,
    refused: u64,
    full: Vec<Refused>,
}

// An error where memory was refused for a note.
fn gather<J: Naming>(
    alloc: Global,
    four: Four<Visit<J>>,
    others: Four<Visit<J>>,
) -> Result<Gathered<J>, AllocError> {
    let mut passes = Vec::new(alloc);
    let mut full = Vec::new(alloc);
    let mut refused = 0u64;
    let ((a, b), (c, d)) = four;
    let ((e, f), (g, h)) = others;
    for visit in [h, a, g, b, f, c, e, d] {
        if visit.is_short {
            return Err(AllocError);
        }
        refused = refused.wrapping_add(visit.refused);
        full.push(Refused {
            number: visit.pass.number(),
            full: visit.full,
        })?;
        passes.push(visit.pass)?;
    }
    Ok(Gathered {
        passes,
        refused,
        full,
    })
}

// Was some time, between the events of its pass before a call and after it, less free than the call would have taken?
fn had_no_room<J: Naming>(closed: &Closed<J>, free: &[u64], number: u64, call: Full) -> bool {
    let place = number.saturating_sub(1) as usize;
    let Some(pass) = closed.passes().get(place) else {
        return false;
    };
    let before = match call.after.checked_sub(1) {
        Some(last) => match pass.receipts().get(last) {
            Some(receipt) => (receipt.place() as usize).saturating_add(1),
            None => return false,
        },
        None => 0,
    };
    let after = match pass.receipts().get(call.after) {
        Some(receipt) => receipt.place() as usize,
        None => closed.journal().len(),
    };
    match free.get(before..after.saturating_add(1)) {
        Some(between) => between.iter().any(|left| *left < call.most),
        None => false,
    }
}

// Each call that was told that the journal is full found no room, and so many were.
fn check_full<J: Naming>(
    rt: &impl Abort,
    closed: &Closed<J>,
    free: &[u64],
    refused: &Vec<Refused>,
) -> usize {
    let mut count = 0usize;
    for calls in refused {
        let number = calls.number;
        let right = calls
            .full
            .iter()
            .all(|call| had_no_room(closed, free, number, *call));
        assert!(rt; right, "a call of pass {number}");
        count = count.wrapping_add(calls.full.len());
    }
    count
}

// How many calls were told that the journal is full.
fn meet<J: Naming + Send + Sync, R: Threads + Wait + Abort + Sync>(
    rt: &R,
    alloc: Global,
    row: Row,
    limits: Limits,
) -> Result<usize, AllocError>
    requires cells { (map cell_name row.cells.items ≡ J.cells) × (J.all ≡ J.parts) }
    requires limits { row.limits ≡ J.limits }
    requires count { (row.count.name ≡ J.counts) × (row.count.parts ≡ J.parts) }
    requires sum { (row.sum.name ≡ J.places) × (row.sum.parts ≡ J.parts) }
{
    let made = make(alloc)?.expect(rt, "hands in their forms");
    let desk = Desk::<J>::new(row);
    let callers = (enrol_two(rt, alloc, &desk), enrol_two(rt, alloc, &desk));
    let workers = (enrol_two(rt, alloc, &desk), enrol_two(rt, alloc, &desk));
    let (shared, tools) = (&desk, &made);
    let (callers, workers) = join(
        rt,
        move || order_all(rt, shared, tools, callers),
        move || work_all(rt, shared, tools, workers),
    );
    let gathered = gather(alloc, callers, workers)?;
    let Ok(closed) = desk.close(gathered.passes) else {
        return Err(AllocError);
    };
    assert_eq!(rt;
        (closed.journal().len() as u64).wrapping_add(gathered.refused),
        8 * CALLS + 1
    );
    let free = check(rt, alloc, limits, &closed)?;
    Ok(check_full(rt, &closed, free.as_slice(), &gathered.full))
}

fn meet_at_a_row<R: Threads + Wait + Abort + Sync>(
    rt: &R,
    alloc: Global,
    events: u64,
) -> Result<usize, AllocError> {
    let limits = Limits::new(64, 20_000, 8, events).expect(rt, "limits in their ranges");
    let row = Row::new(alloc, limits)?;
    meet::<Brand, R>(rt, alloc, row, limits)
}

#[test]
fn each_of_eight_threads_finds_its_calls_in_one_history(rt: HostRuntime) -> Result<(), AllocError> {
    let _ = meet_at_a_row(&rt, rt.alloc(), 20_000)?;
    Ok(())
}

// Most of the calls find no event.
#[test]
fn threads_find_room_for_each_job_that_was_taken_and_a_full_journal_is_full(
    rt: HostRuntime,
) -> Result<(), AllocError> {
    let full = meet_at_a_row(&rt, rt.alloc(), 2_000)?;
    assert!(rt; full > 10_000, "{full}");
    Ok(())
}
