//! A worker whose job is cancelled while it has a part of it.
ghost use Rattle.std.specs.Prelude.{◌≡◌, map};
ghost use Rattle.once_cell.specs.Once.{cell_name};

use crate::work::lines::{CAUGHT, CAUGHT_ANSWER};
use crate::work::worked::{ask, enrol};
use dd_book::{Call, Limits, Outcome, Reply};
use dd_bounds::NoTable;
use dd_desk::{Desk, Naming, Pass, Receipt, Row};
use dd_work::{Gate, worker};
use std::alloc::{AllocError, Global};
use std::marker::Brand;
use std::process::Abort;
use std::sync::atomic::AtomicBool;
use std::sync::{Mutex, Wait};
use std::time::Clock;

// Nine cards a hand: over no table the search visits more than 40,000 positions.
const LEADS: &str =
    r#"{"do":"solve","deal":"N:T74.JT.8.AKQ AK2.7.T74.T9 QJ63..653.83 98.Q96.AK.J7","trump":0,"first":1,"solutions":3}"#;

// So many are enough for a search that is given up.
const BUDGET: u64 = 10_000;

// The caller cancels job 1 once a worker has claimed it.
#[derive(Drop)]
struct CancelsFirst<'a, J: Naming, R> {
    rt: &'a R,
    desk: &'a Desk<J>,
    caller: &'a Mutex<Pass<J>>,
}

impl<'a, J: Naming, R: Wait> Gate for CancelsFirst<'a, J, R> {
    fn before(&self, job: u64) {
        if job == 1 {
            let mut caller = self.caller.lock(self.rt);
            let _ = self.desk.cancel(self.rt, &mut caller, job);
        }
    }

    fn after(&self, _job: u64) {}
}

// The rounds of the worker at this gate.
fn works<J: Naming, R: Wait + Clock>(
    rt: &R,
    desk: &Desk<J>,
    hand: Pass<J>,
    caller: &Mutex<Pass<J>>,
) -> Pass<J> {
    let gate = CancelsFirst { rt, desk, caller };
    let stop = AtomicBool::new(false);
    worker(rt, desk, &mut NoTable, hand, &gate, Some(BUDGET), &stop)
}

// What a receipt of the worker tells.
fn in_words(receipt: &Receipt) -> &'static str {
    match receipt.reply() {
        Reply::Claimed { .. } => "claims ",
        Reply::Closing => "leaves",
        Reply::Recorded => "answers ",
        Reply::Stale if gives_up(receipt.call()) => "gives up ",
        Reply::Stale => "is late ",
        _ => "is told something else ",
    }
}

// Was the search stopped?
fn gives_up(call: &Call) -> bool {
    match call {
        Call::Finish { outcome, .. } => matches!(outcome, Outcome::Stopped),
        _ => false,
    }
}

// What the worker is told of two jobs, the first of which is cancelled.
fn rounds<J: Naming, R: Wait + Clock + Abort>(
    rt: &R,
    alloc: Global,
    row: Row,
) -> Result<String, AllocError>
    requires cells { (map cell_name row.cells.items ≡ J.cells) × (J.all ≡ J.parts) }
    requires limits { row.limits ≡ J.limits }
    requires count { (row.count.name ≡ J.counts) × (row.count.parts ≡ J.parts) }
    requires sum { (row.sum.name ≡ J.places) × (row.sum.parts ≡ J.parts) }
{
    let desk = Desk::<J>::new(row);
    let mut caller = enrol(rt, &desk);
    let rows = format!(in alloc; "submits {LEADS}\nsubmits {CAUGHT}\nshuts")?;
    for words in rows.lines() {
        let _ = ask(rt, alloc, &desk, &mut caller, words)?;
    }
    let hand = enrol(rt, &desk);
    let caller = Mutex::new(caller);
    let hand = works(rt, &desk, hand, &caller);
    let mut told = String::new(alloc);
    for receipt in hand.receipts() {
        told.push_str(in_words(receipt))?;
    }
    let mut caller = caller.lock(rt);
    let shown = ask(rt, alloc, &desk, &mut caller, "fetches 2")?;
    assert_eq!(rt; shown.as_str(), CAUGHT_ANSWER);
    Ok(told)
}

// The same at a desk of its own.
fn rounds_at_a_row<R: Wait + Clock + Abort>(rt: &R, alloc: Global) -> Result<String, AllocError> {
    let limits = Limits::new(64, 1_000, 8, 1_000).expect(rt, "limits in their ranges");
    let row = Row::new(alloc, limits)?;
    rounds::<Brand, R>(rt, alloc, row)
}

#[test]
fn a_cancelled_search_is_given_up_and_the_worker_goes_on(
    rt: HostRuntime,
) -> Result<(), AllocError> {
    let told = rounds_at_a_row(&rt, rt.alloc())?;
    assert_eq!(rt; told.as_str(), "claims gives up claims answers leaves");
    Ok(())
}

// Whether the part of a claim runs: under its claim, under another, of another job, by another
// pass, and once its job was cancelled. And what a cancel is told that needs no event.
fn looks<J: Naming, R: Wait + Abort>(rt: &R, alloc: Global, row: Row) -> Result<String, AllocError>
    requires cells { (map cell_name row.cells.items ≡ J.cells) × (J.all ≡ J.parts) }
    requires limits { row.limits ≡ J.limits }
    requires count { (row.count.name ≡ J.counts) × (row.count.parts ≡ J.parts) }
    requires sum { (row.sum.name ≡ J.places) × (row.sum.parts ≡ J.parts) }
{
    let desk = Desk::<J>::new(row);
    let mut caller = enrol(rt, &desk);
    let mut hand = enrol(rt, &desk);
    let submits = format!(in alloc; "submits {CAUGHT}")?;
    let _ = ask(rt, alloc, &desk, &mut caller, submits.as_str())?;
    let _ = desk.try_claim(rt, &mut hand);
    let words = looked(rt, &desk, &mut caller, &mut hand);
    joined(alloc, &words, caller.receipts().len())
}

// What each of these is told, one after the other.
fn looked<J: Naming, R: Wait>(
    rt: &R,
    desk: &Desk<J>,
    caller: &mut Pass<J>,
    hand: &mut Pass<J>,
) -> [&'static str; 8] {
    [
        still_runs(rt, desk, hand, 1, 1),
        still_runs(rt, desk, hand, 1, 2),
        still_runs(rt, desk, hand, 2, 1),
        still_runs(rt, desk, caller, 1, 1),
        cancelled(rt, desk, hand, 1),
        cancelled(rt, desk, caller, 1),
        still_runs(rt, desk, hand, 1, 1),
        cancelled(rt, desk, caller, 1),
    ]
}

// These words, and the number.
fn joined(alloc: Global, words: &[&'static str], receipts: usize) -> Result<String, AllocError> {
    let mut told = String::new(alloc);
    for word in words {
        told.push_str(*word)?;
    }
    let count = format!(in alloc; "{receipts}")?;
    told.push_str(count.as_str())?;
    Ok(told)
}

// Whether a part of this pass runs, as far as the desk tells it by what the pass has seen. Who has seen nothing has none.
fn still_runs<J: Naming, R: Wait>(
    rt: &R,
    desk: &Desk<J>,
    pass: &mut Pass<J>,
    job: u64,
    claim: u64,
) -> &'static str {
    if pass.receipts().is_empty() {
        return "no ";
    }
    let mut seen = pass.seen();
    if desk.still_runs(rt, &mut seen, job, claim) {
        "yes "
    } else {
        "no "
    }
}

// What a cancel is told that is made if need be.
fn cancelled<J: Naming, R: Wait>(
    rt: &R,
    desk: &Desk<J>,
    pass: &mut Pass<J>,
    job: u64,
) -> &'static str {
    match desk.cancel_if_open(rt, pass, job) {
        Ok(Some(Reply::Cancelled(_))) => "cancelled ",
        Ok(Some(_)) => "unknown ",
        Ok(None) => "ended ",
        Err(_) => "refused ",
    }
}

// The same at a desk of its own.
fn looks_at_a_row<R: Wait + Abort>(rt: &R, alloc: Global) -> Result<String, AllocError> {
    let limits = Limits::new(64, 1_000, 8, 1_000).expect(rt, "limits in their ranges");
    let row = Row::new(alloc, limits)?;
    looks::<Brand, R>(rt, alloc, row)
}

#[test]
fn a_part_runs_until_its_job_is_cancelled_and_an_ended_job_needs_no_cancel(
    rt: HostRuntime,
) -> Result<(), AllocError> {
    let told = looks_at_a_row(&rt, rt.alloc())?;
    assert_eq!(rt; told.as_str(), "yes no no no unknown cancelled no ended 2");
    Ok(())
}
