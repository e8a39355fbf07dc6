//! Worked runs through a desk, in words.
ghost use Rattle.std.specs.Prelude.{◌≡◌, map};
ghost use Rattle.once_cell.specs.Once.{cell_name};

use crate::desk::checked::check;
use dd_book::{Call, Limits, Reply};
use dd_desk::{CloseFault, Closed, Desk, DeskFault, Naming, Pass, Row};
use request_tests::book::words::{call, told};
use std::alloc::{AllocError, Global};
use std::marker::Brand;
use std::process::Abort;
use std::sync::Wait;

/// Hands the call to the desk.
pub fn ask<J: Naming, R: Wait>(
    rt: &R,
    desk: &Desk<J>,
    pass: &mut Pass<J>,
    call: Call,
) -> Result<Reply, DeskFault> {
    match call {
        Call::Submit { asked, .. } => desk.submit(rt, pass, asked),
        Call::Claim { .. } => desk.try_claim(rt, pass),
        Call::Finish {
            job,
            claim,
            outcome,
            ..
        } => desk.finish(rt, pass, job, claim, outcome),
        Call::Cancel { job, .. } => desk.cancel(rt, pass, job),
        Call::Fetch { job, .. } => desk.fetch(rt, pass, job),
        Call::Shut => desk.shut(rt, pass),
    }
}

// A call of a pass, again where memory was refused and may be: then the pass has no receipt more.
fn ask_again<J: Naming, R: Wait + Abort>(
    rt: &R,
    desk: &Desk<J>,
    pass: &mut Pass<J>,
    words: &str,
    refusals: u8,
) -> Result<Reply, DeskFault> {
    let before = pass.receipts().len();
    for _ in 0..refusals {
        let reply = ask_once(rt, desk, pass, words);
        if !matches!(reply, Err(DeskFault::OutOfMemory)) {
            return reply;
        }
        assert_eq!(rt; pass.receipts().len(), before);
    }
    ask_once(rt, desk, pass, words)
}

fn ask_once<J: Naming, R: Wait + Abort>(
    rt: &R,
    desk: &Desk<J>,
    pass: &mut Pass<J>,
    words: &str,
) -> Result<Reply, DeskFault> {
    if words.ends_with("waits") {
        return desk.claim(rt, pass);
    }
    let call = call(words).expect(rt, "a call in words");
    ask(rt, desk, pass, call)
}

/// What a call was told, in words.
pub fn in_words(alloc: Global, said: &Result<Reply, DeskFault>) -> Result<String, AllocError> {
    match said {
        Ok(reply) => told(alloc, reply),
        Err(fault) => {
            let number = fault.number();
            format!(in alloc; "refused {number}")
        }
    }
}

// What these words are told; an enrolment is told the number of its pass, a look how many events are free, and a submit with a
// claim of the last pass what both are told.
fn step<J: Naming, R: Wait + Abort>(
    rt: &R,
    alloc: Global,
    desk: &Desk<J>,
    passes: &mut Vec<Pass<J>>,
    words: &str,
    refusals: u8,
) -> Result<String, AllocError> {
    if words == "enrols" {
        return match desk.enrol(rt) {
            Ok(pass) => {
                let number = pass.number();
                passes.push(pass)?;
                format!(in alloc; "pass {number}")
            }
            Err(fault) => in_words(alloc, &Err(fault)),
        };
    }
    if words == "looks" {
        let free = desk.free(rt);
        return format!(in alloc; "{free} free");
    }
    if let Some(submit) = words.strip_suffix(" and the last claims") {
        return submit_and_claim(rt, alloc, desk, passes, submit);
    }
    let place = place_of(words);
    let pass = passes.get_mut(place).expect(rt, "a pass of this number");
    in_words(alloc, &ask_again(rt, desk, pass, words, refusals))
}

// The place of the pass whose number the words begin with.
fn place_of(words: &str) -> usize {
    let who: usize = match words.split(' ').next() {
        Some(word) => word.parse().unwrap_or(0),
        None => 0,
    };
    who.saturating_sub(1)
}

// What a submit in words is told, and the last pass that claims with it.
fn submit_and_claim<J: Naming, R: Wait + Abort>(
    rt: &R,
    alloc: Global,
    desk: &Desk<J>,
    passes: &mut Vec<Pass<J>>,
    words: &str,
) -> Result<String, AllocError> {
    let mut worker = passes.pop().expect(rt, "a worker");
    let pass = passes
        .get_mut(place_of(words))
        .expect(rt, "a pass of this number");
    let Some(Call::Submit { asked, .. }) = call(words) else {
        panic!(rt; "a submit in words");
    };
    let (said, claim) = desk.submit_and_claim(rt, pass, &mut worker, asked);
    passes.push(worker)?;
    let submitted = in_words(alloc, &said)?;
    let submitted = submitted.as_str();
    match claim {
        Some(reply) => {
            let claimed = told(alloc, &reply)?;
            let claimed = claimed.as_str();
            format!(in alloc; "{submitted}; {claimed}")
        }
        None => format!(in alloc; "{submitted}; no claim"),
    }
}

/// Follows these rows: calls of the passes with what they are told, a row a line. Each call may be refused memory so often.
pub fn follow_rows<J: Naming, R: Wait + Abort>(
    rt: &R,
    alloc: Global,
    desk: &Desk<J>,
    passes: &mut Vec<Pass<J>>,
    rows: &str,
    refusals: u8,
) -> Result<(), AllocError> {
    for row in rows.lines() {
        let mut halves = row.split(": ");
        let words = halves.next().expect(rt, "a call");
        let wanted = halves.next().expect(rt, "what it is told");
        let told = step(rt, alloc, desk, passes, words, refusals)?;
        assert_eq!(rt; told.as_str(), wanted, "{words}");
    }
    Ok(())
}

// Without its passes a desk is not closed: the first of them is missing.
fn close_without<J: Naming>(rt: &impl Abort, alloc: Global, desk: Desk<J>) -> Desk<J>
    requires { J.all ≡ J.parts }
{
    match desk.close(Vec::new(alloc)) {
        Err(CloseFault::Missing(number, desk, passes)) => {
            assert_eq!(rt; (number, passes.len()), (1, 0));
            desk
        }
        _ => panic!(rt; "a pass is missing"),
    }
}

// The desk is closed, again where memory was refused and may be. The passes come the other way round.
fn close<J: Naming>(
    desk: Desk<J>,
    mut passes: Vec<Pass<J>>,
    refusals: u8,
) -> Result<Closed<J>, CloseFault<J>>
    requires { J.all ≡ J.parts }
{
    passes.reverse();
    match desk.close(passes) {
        Err(CloseFault::OutOfMemory(desk, passes)) if refusals > 0 => desk.close(passes),
        closed => closed,
    }
}

/// How many events there are, and how many of them each pass has.
pub fn counted<J: Naming>(alloc: Global, closed: &Closed<J>) -> Result<String, AllocError> {
    let events = closed.journal().len();
    let mut text = format!(in alloc; "{events} events:")?;
    for pass in closed.passes() {
        let receipts = pass.receipts().len();
        let more = format!(in alloc; " {receipts}")?;
        text.push_str(more.as_str())?;
    }
    Ok(text)
}

// The rows are calls with what they are told, a row a line; then the desk is closed, and the ending
// says how many events there are, in all and by pass. Each call may be refused memory so often.
#[derive(Drop)]
struct Script {
    limits: Limits,
    rows: String,
    ending: String,
    refusals: u8,
}

fn run<J: Naming, R: Wait + Abort>(
    rt: &R,
    alloc: Global,
    row: Row,
    script: &Script,
) -> Result<(), AllocError>
    requires cells { (map cell_name row.cells.items ≡ J.cells) × (J.all ≡ J.parts) }
    requires limits { row.limits ≡ J.limits }
    requires count { (row.count.name ≡ J.counts) × (row.count.parts ≡ J.parts) }
    requires sum { (row.sum.name ≡ J.places) × (row.sum.parts ≡ J.parts) }
{
    let desk = Desk::<J>::new(row);
    let mut passes = Vec::new(alloc);
    let refusals = script.refusals;
    follow_rows(
        rt,
        alloc,
        &desk,
        &mut passes,
        script.rows.as_str(),
        refusals,
    )?;
    assert_eq!(rt; desk.given(rt), passes.len() as u64);
    let desk = close_without(rt, alloc, desk);
    let Ok(closed) = close(desk, passes, refusals) else {
        return Err(AllocError);
    };
    let _ = check(rt, alloc, script.limits, &closed)?;
    let counted = counted(alloc, &closed)?;
    assert_eq!(rt; counted.as_str(), script.ending.as_str());
    Ok(())
}

fn run_at_a_row<R: Wait + Abort>(rt: &R, alloc: Global, script: &Script) -> Result<(), AllocError> {
    let row = Row::new(alloc, script.limits)?;
    run::<Brand, R>(rt, alloc, row, script)
}

/// These rows at a desk of its own; each call may be refused memory so often.
pub fn follow_refused<R: Wait + Abort>(
    rt: &R,
    alloc: Global,
    limits: Limits,
    rows: &str,
    ending: &str,
    refusals: u8,
) -> Result<(), AllocError> {
    let script = Script {
        limits,
        rows: String::from_str(alloc, rows)?,
        ending: String::from_str(alloc, ending)?,
        refusals,
    };
    run_at_a_row(rt, alloc, &script)
}

/// These rows at a desk of its own, with memory for each call.
pub fn follow<R: Wait + Abort>(
    rt: &R,
    alloc: Global,
    limits: Limits,
    rows: &str,
    ending: &str,
) -> Result<(), AllocError> {
    follow_refused(rt, alloc, limits, rows, ending, 0)
}
