//! Worked runs of one caller and one worker at a desk.
ghost use Rattle.std.specs.Prelude.{◌≡◌, map};
ghost use Rattle.once_cell.specs.Once.{cell_name};

use crate::desk::worked::counted;
use crate::work::lines::{call, told};
use dd_book::{Call, Limits};
use dd_bounds::NoTable;
use dd_desk::{Desk, DeskFault, Naming, Pass, Row};
use dd_work::{NoGate, worker};
use std::alloc::{AllocError, Global};
use std::marker::Brand;
use std::process::Abort;
use std::sync::Wait;
use std::sync::atomic::AtomicBool;
use std::time::Clock;

/// The rows are what the caller does, each with what it is told, a row a line; in a row `works` the
/// worker works until it leaves, and tells how many receipts its pass has. The ending says how many
/// events there are, in all and by pass.
#[derive(Drop)]
pub(crate) struct Script {
    pub(crate) limits: Limits,
    pub(crate) budget: Option<u64>,
    pub(crate) stops: bool,
    pub(crate) rows: String,
    pub(crate) ending: String,
}

/// A pass of the desk.
pub(crate) fn enrol<J: Naming, R: Wait + Abort>(rt: &R, desk: &Desk<J>) -> Pass<J> {
    desk.enrol(rt).ok().expect(rt, "a pass")
}

/// What a call of the pass is told.
pub(crate) fn ask<J: Naming, R: Wait + Abort>(
    rt: &R,
    alloc: Global,
    desk: &Desk<J>,
    pass: &mut Pass<J>,
    words: &str,
) -> Result<String, AllocError> {
    let call = call(alloc, pass.number(), words).expect(rt, "a call in words");
    let reply = match call {
        Call::Submit { asked, .. } => desk.submit(rt, pass, asked),
        Call::Cancel { job, .. } => desk.cancel(rt, pass, job),
        Call::Fetch { job, .. } => desk.fetch(rt, pass, job),
        Call::Shut => desk.shut(rt, pass),
        _ => Err(DeskFault::NoPass),
    };
    match reply {
        Ok(reply) => told(alloc, &reply),
        Err(fault) => {
            let number = fault.number();
            format!(in alloc; "refused {number}")
        }
    }
}

// What these words are told, with the worker's pass: the worker works until it leaves, or the caller asks.
fn step<J: Naming, R: Wait + Clock + Abort>(
    rt: &R,
    alloc: Global,
    desk: &Desk<J>,
    caller: &mut Pass<J>,
    hand: Pass<J>,
    words: &str,
    script: &Script,
) -> Result<(Pass<J>, String), AllocError> {
    if words == "works" {
        let stop = AtomicBool::new(script.stops);
        let hand = worker(rt, desk, &mut NoTable, hand, &NoGate, script.budget, &stop);
        let receipts = hand.receipts().len();
        let told = format!(in alloc; "{receipts} receipts")?;
        return Ok((hand, told));
    }
    let told = ask(rt, alloc, desk, caller, words)?;
    Ok((hand, told))
}

// Follows the rows of the script, and gives the worker's pass back.
fn follow_rows<J: Naming, R: Wait + Clock + Abort>(
    rt: &R,
    alloc: Global,
    desk: &Desk<J>,
    caller: &mut Pass<J>,
    mut hand: Pass<J>,
    script: &Script,
) -> Result<Pass<J>, AllocError> {
    for row in script.rows.lines() {
        let mut halves = row.split(" => ");
        let words = halves.next().expect(rt, "a call");
        let wanted = halves.next().expect(rt, "what it is told");
        let (worked, told) = step(rt, alloc, desk, caller, hand, words, script)?;
        hand = worked;
        assert_eq!(rt; told.as_str(), wanted, "{words}");
    }
    Ok(hand)
}

fn run<J: Naming, R: Wait + Clock + Abort>(
    rt: &R,
    alloc: Global,
    row: Row,
    script: &Script,
) -> Result<(), AllocError>
    requires cells { (map cell_name row.cells.items ≡ J.cells) × (J.all ≡ J.parts) }
    requires limits { row.limits ≡ J.limits }
    requires count { (row.count.name ≡ J.counts) × (row.count.parts ≡ J.parts) }
    requires sum { (row.sum.name ≡ J.places) × (row.sum.parts ≡ J.parts) }
{
    let desk = Desk::<J>::new(row);
    let mut caller = enrol(rt, &desk);
    let hand = enrol(rt, &desk);
    let hand = follow_rows(rt, alloc, &desk, &mut caller, hand, script)?;
    let mut passes = Vec::new(alloc);
    passes.push(caller)?;
    passes.push(hand)?;
    let Ok(closed) = desk.close(passes) else {
        return Err(AllocError);
    };
    let counted = counted(alloc, &closed)?;
    assert_eq!(rt; counted.as_str(), script.ending.as_str());
    Ok(())
}

/// The script at a desk of its own.
pub(crate) fn follow<R: Wait + Clock + Abort>(
    rt: &R,
    alloc: Global,
    script: &Script,
) -> Result<(), AllocError> {
    let row = Row::new(alloc, script.limits)?;
    run::<Brand, R>(rt, alloc, row, script)
}
