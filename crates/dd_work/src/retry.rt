//! Calls at the desk that are made again where memory is short.
ghost use Rattle.std.specs.Prelude.{◌≡◌, IfOk, Err, true};
ghost use Rattle.dd_book.specs.declared.call.Call.TheVariants.{Claim, Finish};
ghost use Rattle.dd_desk.specs.declared.fault.DeskFault.TheVariants.{OutOfMemory};
ghost use Rattle.dd_desk.specs.Replies.{EndsWait, IsTold};

use crate::gate::Gate;
use dd_book::{Outcome, Reply};
use dd_desk::{Desk, DeskFault, Naming, Pass};
use std::sync::Wait;
use std::thread;
use std::time::{Clock, Duration};

/// How many milliseconds a worker rests before it asks again.
const REST: u64 = 100;

/// How often it asks again: for some ten seconds.
const MOST_RESTS: u32 = 100;

/// A part to work on, or `Closing`. Where memory is short it rests, holding nothing, and asks again, as long as the gate lets it.
pub(crate) fn claim<J: Naming, G: Gate, R: Wait + Clock>(
    rt: &R,
    desk: &Desk<J>,
    pass: &mut Pass<J>,
    gate: &G,
) -> Result<Reply, DeskFault>
    ensures told { IsTold J.limits pass.old (Claim pass.old.number) result pass.new }
    ensures ends { IfOk result EndsWait }
{
    for _ in 0..MOST_RESTS {
        let told = desk.claim(rt, pass);
        if !is_short(&told) || !rests(rt, gate) {
            return told;
        }
    }
    let told = desk.claim(rt, pass);
    tell_end(gate, &told);
    told
}

/// How the part of a claim of the pass ended, handed in so too.
pub(crate) fn finish<J: Naming, G: Gate, R: Wait + Clock>(
    rt: &R,
    desk: &Desk<J>,
    pass: &mut Pass<J>,
    gate: &G,
    job: u64,
    claim: u64,
    outcome: Outcome,
) -> Result<Reply, DeskFault>
    ensures { IsTold J.limits pass.old (Finish pass.old.number job claim outcome) result pass.new }
{
    for _ in 0..MOST_RESTS {
        let told = desk.finish(rt, pass, job, claim, outcome.copy());
        if !is_short(&told) || !rests(rt, gate) {
            return told;
        }
    }
    let told = desk.finish(rt, pass, job, claim, outcome);
    tell_end(gate, &told);
    told
}

// Did the call find no memory?
fn is_short(told: &Result<Reply, DeskFault>) -> bool
    ensures { result ≡ true → told.now ≡ Err OutOfMemory }
{
    matches!(told, Err(DeskFault::OutOfMemory))
}

// Memory stays out: the gate is told.
fn tell_end<G: Gate>(gate: &G, told: &Result<Reply, DeskFault>) {
    if is_short(told) {
        gate.give_up()
    }
}

// Rests before the next call, if the gate lets it. If not, memory stays out, and the gate is told.
fn rests<G: Gate, R: Clock>(rt: &R, gate: &G) -> bool {
    if !gate.may_rest() {
        gate.give_up();
        return false;
    }
    gate.short();
    thread::sleep(rt, Duration::from_millis(REST));
    true
}
