//! Short jobs, on which the session that takes them works itself: to wake a worker and to be woken by it takes longer than they do.
ghost use Rattle.std.specs.Prelude.{◌≡◌, Some};
ghost use Rattle.dd_server.specs.ShortJobs.{HasClaimed, MayFollow};

use crate::new_pass::NewPass;
use crate::run_state::RunState;
use crate::terms::RunNaming;
use crate::wear::are_half_given;
use crate::worker_gate::WorkerGate;
use dd_book::Reply;
use dd_bounds::NoTable;
use dd_desk::Pass;
use dd_request::Asked;
use dd_work::{Gate, work_on_claimed};
use std::marker::Model;
use std::sync::Wait;
use std::time::Clock;

/// A job is short whose position has at most so many tricks left: its search visits some thousands of positions at the most. While a
/// session works, it reads nothing from its client.
const MOST_TRICKS: u8 = 4;

/// Is it a position with few enough tricks left?
pub(crate) fn is_short(asked: &Asked) -> bool {
    match asked {
        Asked::Solve(request) => request.position().tricks_left() <= MOST_TRICKS,
        Asked::Target(request) => request.position().tricks_left() <= MOST_TRICKS,
        Asked::Table(_) | Asked::Play(_) => false,
    }
}

/// A worker's pass of a session, between two of its rounds.
#[derive(Drop)]
pub(crate) struct ReadyPass<J: RunNaming> {
    pass: Pass<J>,
}

impl<J: RunNaming> Model for ReadyPass<J> {
    ghost use Rattle.dd_desk.specs.Receipts.{PassOf};
    ghost use Rattle.dd_server.specs.ShortJobs.{MayFollow};

    ghost Value = { PassOf };

    ghost view = { λ r. r.pass };

    ghost invariant = { λ r. MayFollow J.terms.budget r.pass };
}

impl<J: RunNaming> ReadyPass<J> {
    // A pass that has told nothing.
    #[tactic(auto, using(crate::proofs::ShortJobs::none_may_follow))]
    fn new(pass: NewPass<J>) -> ReadyPass<J> {
        ReadyPass {
            pass: pass.into_pass(),
        }
    }

    /// The pass within.
    pub(crate) fn into_pass(self) -> Pass<J>
        ensures { MayFollow J.terms.budget result }
    {
        let ReadyPass { pass } = self;
        pass
    }
}

/// The pass by which a session works on short jobs: `None` before the first of them, or where it gets none any more.
#[derive(Drop)]
pub(crate) struct ShortJobs<J: RunNaming> {
    ready: Option<ReadyPass<J>>,
    // No pass was asked for yet.
    is_new: bool,
}

impl<J: RunNaming> ShortJobs<J> {
    /// No pass yet.
    pub(crate) fn new() -> ShortJobs<J> {
        ShortJobs {
            ready: None,
            is_new: true,
        }
    }

    /// The pass, which is out then. At the first job it is a new one, as long as half of those of the run are left: a session that
    /// has none leaves its jobs to the workers.
    pub(crate) fn take<R: Wait>(
        &mut self,
        rt: &R,
        state: &RunState<'_, J>,
    ) -> Option<ReadyPass<J>> {
        if !self.is_new {
            return self.ready.take();
        }
        self.is_new = false;
        new_ready(rt, state)
    }

    /// It is back, if it may still be used.
    pub(crate) fn put_back(&mut self, ready: Option<ReadyPass<J>>) {
        self.ready = ready;
    }

    /// The session has ended.
    pub(crate) fn end<R: Wait>(self, rt: &R, state: &RunState<'_, J>) {
        let ShortJobs { ready, is_new: _ } = self;
        if let Some(ready) = ready {
            give_back(rt, state, ready.into_pass())
        }
    }
}

// A pass that has told nothing, as long as half of those of the run are left.
fn new_ready<J: RunNaming, R: Wait>(rt: &R, state: &RunState<'_, J>) -> Option<ReadyPass<J>> {
    if are_half_given(state.limits, state.desk.given(rt)) {
        return None;
    }
    match state.enrol(rt) {
        Ok(pass) => Some(ReadyPass::new(pass)),
        Err(_) => None,
    }
}

// A pass between two rounds comes back.
#[tactic(auto, using(crate::proofs::ShortJobs::back_between))]
fn give_back<J: RunNaming, R: Wait>(rt: &R, state: &RunState<'_, J>, pass: Pass<J>)
    requires { MayFollow J.terms.budget pass }
{
    state.take_back(rt, pass)
}

/// The rest of a round whose claim may have been made: the pass, if it may be used again. If not, it is back with the run.
#[tactic(auto, using(crate::proofs::ShortJobs::unclaimed))]
pub(crate) fn work<J: RunNaming, R: Wait + Clock + Eprint, G: Gate>(
    rt: &R,
    state: &RunState<'_, J>,
    gate: &G,
    pass: Pass<J>,
    claim: Option<Reply>,
) -> Option<ReadyPass<J>>
    requires { HasClaimed J.limits J.terms.budget claim pass }
{
    match claim {
        None => Some(ReadyPass { pass }),
        Some(claimed) => work_on(rt, state, gate, pass, claimed),
    }
}

// The same where the claim was made. The table that all workers share has nothing of so few tricks.
#[tactic(auto, using(crate::proofs::ShortJobs::round_left))]
fn work_on<J: RunNaming, R: Wait + Clock + Eprint, G: Gate>(
    rt: &R,
    state: &RunState<'_, J>,
    gate: &G,
    mut pass: Pass<J>,
    claimed: Reply,
) -> Option<ReadyPass<J>>
    requires { HasClaimed J.limits J.terms.budget (Some claimed) pass }
{
    let gate = WorkerGate { rt, state, gate };
    let goes_on = work_on_claimed(
        rt,
        &state.desk,
        &mut NoTable,
        &mut pass,
        &gate,
        state.terms.budget,
        state.stop.flag(),
        claimed,
    );
    if goes_on {
        Some(ReadyPass { pass })
    } else {
        state.take_back(rt, pass);
        None
    }
}
