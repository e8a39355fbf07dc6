//! The workers of a run.
ghost use Rattle.dd_work.specs.Rounds.{AreRounds};

use crate::args::ServeFault;
use crate::new_pass::NewPass;
use crate::own_pass::OwnPass;
use crate::run_state::RunState;
use crate::terms::RunNaming;
use crate::worker_gate::WorkerGate;
use dd_bounds::Bounds;
use dd_cache::Cache;
use dd_desk::Pass;
use dd_table::View;
use dd_work::{Gate, worker};
use std::sync::Wait;
use std::thread::{Scope, Threads};
use std::time::Clock;

/// Starts a worker for each that is asked for. Where one can't be had the book is shut, so that those before it leave.
pub(crate) fn start_workers<'s, E, J, R, G>(
    rt: &'s R,
    scope: &Scope<'s, E>,
    state: &'s RunState<'s, J>,
    own: &mut OwnPass<J>,
    gate: &'s G,
) -> Result<(), ServeFault>
where
    J: RunNaming + Send + Sync,
    R: Threads + Wait + Clock + Eprint + Sync,
    G: Gate + Sync,
{
    for _ in 0..state.server.args.workers {
        if let Err(fault) = start_worker(rt, scope, state, own, gate) {
            let _ = own.shut(rt, state);
            return Err(fault);
        }
    }
    Ok(())
}

// One worker, on a thread of its own, with a cache of its own before the table that all share.
fn start_worker<'s, E, J, R, G>(
    rt: &'s R,
    scope: &Scope<'s, E>,
    state: &'s RunState<'s, J>,
    own: &mut OwnPass<J>,
    gate: &'s G,
) -> Result<(), ServeFault>
where
    J: RunNaming + Send + Sync,
    R: Threads + Wait + Clock + Eprint + Sync,
    G: Gate + Sync,
{
    let Ok(cache) = Cache::new(state.server.alloc, state.server.table.view(rt)) else {
        return Err(ServeFault::OutOfMemory);
    };
    let Ok(pass) = state.enrol(rt) else {
        return Err(ServeFault::OutOfMemory);
    };
    if let Err(refused) = scope.spawn(move || work(rt, state, cache, pass, gate)) {
        // After the shut it leaves at once, and its pass comes back.
        let _ = own.shut(rt, state);
        (refused.value)();
        return Err(ServeFault::OutOfMemory);
    }
    Ok(())
}

// The rounds of a worker, until it leaves and its pass comes back.
fn work<J: RunNaming, R: Wait + Clock + Eprint, G: Gate>(
    rt: &R,
    state: &RunState<'_, J>,
    mut cache: Cache<View<'_, R>>,
    pass: NewPass<J>,
    gate: &G,
) {
    let gate = WorkerGate { rt, state, gate };
    let pass = rounds(rt, state, &mut cache, pass, &gate);
    state.take_back(rt, pass)
}

// The same: what the pass gained, within the budget of the run.
#[tactic(auto, using(crate::proofs::Callers::works_alone))]
fn rounds<J: RunNaming, R: Wait + Clock, B: Bounds, G: Gate>(
    rt: &R,
    state: &RunState<'_, J>,
    table: &mut B,
    pass: NewPass<J>,
    gate: &G,
) -> Pass<J>
    ensures { AreRounds J.terms.budget result.number result.receipts }
{
    let budget = state.terms.budget;
    let stop = state.stop.flag();
    worker(rt, &state.desk, table, pass.into_pass(), gate, budget, stop)
}
