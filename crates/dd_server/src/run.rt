//! One run: a desk of its own, its workers and its connections.
ghost use Rattle.std.specs.Prelude.{◌≡◌, map, IfOk};
ghost use Rattle.once_cell.specs.Once.{cell_name};
ghost use Rattle.dd_server.specs.Callers.{AreCallers, ShutsOnce};
ghost use Rattle.dd_server.specs.Histories.{IsHistory};

use crate::accepting::{accept_connections, wait_for_sessions};
use crate::args::ServeFault;
use crate::own_pass::OwnPass;
use crate::returned::Returned;
use crate::roster::{Begun, Opening};
use crate::run_end::{RunEnd, RunLimits};
use crate::run_state::RunState;
use crate::runs::Runs;
use crate::server_state::ServerState;
use crate::stop::RunStop;
use crate::telling::KeepsRuns;
use crate::terms::RunNaming;
use crate::working::start_workers;
use dd_desk::{Closed, Desk, Pass, Row};
use dd_work::Gate;
use std::marker::Brand;
use std::net::TcpStream;
use std::sync::atomic::{AtomicBool, AtomicU64};
use std::sync::{Mutex, Wait};
use std::thread;
use std::thread::{Scope, Threads};
use std::time::Clock;

/// A run from its beginning to its end. Where it ends badly the server is stopped.
pub(crate) fn run<
    L: RunLimits,
    K: KeepsRuns,
    R: Threads + Wait + Clock + Eprint + Sync,
    G: Gate + Sync,
>(rt: &R, server: &ServerState, runs: &Runs<L, K>, begun: Begun, opening: Opening<L>, gate: &G) {
    let (row, stream) = opening.into_parts();
    let end = end_of_run::<Brand, L, K, R, G>(rt, server, runs, begun.number(), row, stream, gate);
    if let Err(fault) = &end {
        server.stop.fail(*fault);
    }
    runs.end(rt, begun, end)
}

// The same at a desk on this row: how it ended.
fn end_of_run<
    J: RunNaming + Send + Sync,
    L: RunLimits,
    K: KeepsRuns,
    R: Threads + Wait + Clock + Eprint + Sync,
    G: Gate + Sync,
>(
    rt: &R,
    server: &ServerState,
    runs: &Runs<L, K>,
    number: u64,
    row: Row,
    stream: Option<TcpStream>,
    gate: &G,
) -> Result<RunEnd<L, K>, ServeFault>
    requires cells { (map cell_name row.cells.items ≡ J.cells) × (J.all ≡ J.parts) }
    requires limits { (row.limits ≡ J.limits) × (J.limits ≡ L.limits) }
    requires terms { J.terms ≡ L.terms }
    requires count { (row.count.name ≡ J.counts) × (row.count.parts ≡ J.parts) }
    requires sum { (row.sum.name ≡ J.places) × (row.sum.parts ≡ J.parts) }
{
    let closed = serve_row::<J, L, K, R, G>(rt, server, runs, number, row, stream, gate)?;
    Ok(RunEnd::of(&closed))
}

// The desk of the run when it is closed, with the passes of the run, of its workers and of its clients.
fn serve_row<
    J: RunNaming + Send + Sync,
    L: RunLimits,
    K: KeepsRuns,
    R: Threads + Wait + Clock + Eprint + Sync,
    G: Gate + Sync,
>(
    rt: &R,
    server: &ServerState,
    runs: &Runs<L, K>,
    number: u64,
    row: Row,
    stream: Option<TcpStream>,
    gate: &G,
) -> Result<Closed<J>, ServeFault>
    requires cells { (map cell_name row.cells.items ≡ J.cells) × (J.all ≡ J.parts) }
    requires limits { (row.limits ≡ J.limits) × (J.limits ≡ L.limits) }
    requires terms { J.terms ≡ L.terms }
    requires count { (row.count.name ≡ J.counts) × (row.count.parts ≡ J.parts) }
    requires sum { (row.sum.name ≡ J.places) × (row.sum.parts ≡ J.parts) }
    ensures history { IfOk result (λ closed.
        IsHistory J.limits closed.history.journal.items closed.passes.items) }
    ensures callers { IfOk result (λ closed.
        AreCallers J.limits J.terms closed.passes.items) }
{
    let state = RunState {
        server,
        number,
        limits: runs.limits(),
        terms: runs.terms(),
        desk: Desk::<J>::new(row),
        returned: Mutex::new(Returned::new(server.alloc)),
        stop: RunStop::new(server.alloc),
        worn: AtomicBool::new(false),
        over: AtomicBool::new(false),
        submits: AtomicU64::new(0),
        sure: AtomicU64::new(0),
        silent: AtomicU64::new(0),
        lacks_memory: AtomicBool::new(false),
    };
    let (own, ended) = keep_open(rt, &state, runs, stream, gate)?;
    let RunState {
        server: _,
        number: _,
        limits: _,
        terms: _,
        desk,
        returned,
        stop: _,
        worn: _,
        over: _,
        submits: _,
        sure: _,
        silent: _,
        lacks_memory,
    } = state;
    let closed = close(desk, returned.into_inner().into_passes(own))?;
    ended?;
    if lacks_memory.into_inner() {
        return Err(ServeFault::OutOfMemory);
    }
    Ok(closed)
}

// The desk is closed, and its passes are compared with its journal.
fn close<J: RunNaming>(desk: Desk<J>, passes: Vec<Pass<J>>) -> Result<Closed<J>, ServeFault>
    requires whole { J.all ≡ J.parts }
    requires callers { AreCallers J.limits J.terms passes.items }
    ensures history { IfOk result (λ closed.
        IsHistory J.limits closed.history.journal.items closed.passes.items) }
    ensures callers { IfOk result (λ closed.
        AreCallers J.limits J.terms closed.passes.items) }
{
    match desk.close(passes) {
        Ok(closed) => Ok(closed),
        Err(_) => Err(ServeFault::OutOfMemory),
    }
}

// Workers and connections, until all have ended: the run's own pass then, and how it ended.
fn keep_open<
    J: RunNaming + Send + Sync,
    L: RunLimits,
    K: KeepsRuns,
    R: Threads + Wait + Clock + Eprint + Sync,
    G: Gate + Sync,
>(
    rt: &R,
    state: &RunState<'_, J>,
    runs: &Runs<L, K>,
    stream: Option<TcpStream>,
    gate: &G,
) -> Result<(Pass<J>, Result<(), ServeFault>), ServeFault>
    ensures { IfOk result (λ kept. ShutsOnce kept.0.receipts) }
{
    // The run's own pass, by which it shuts the book.
    let Ok(pass) = state.enrol(rt) else {
        return Err(ServeFault::OutOfMemory);
    };
    let mut own = OwnPass::new(pass);
    let (own, ended) = thread::scope(
        thread::scope_env(),
        rt,
        move |scope| -> (OwnPass<J>, Result<(), ServeFault>) {
            let ended = serve_clients(rt, scope, state, runs, &mut own, stream, gate);
            (own, ended)
        },
    );
    Ok((own.into_pass(), ended))
}

// Workers, and connections until the run is worn or stopped. Then its book is shut, where no client did that.
fn serve_clients<'s, E, J, L, K, R, G>(
    rt: &'s R,
    scope: &Scope<'s, E>,
    state: &'s RunState<'s, J>,
    runs: &Runs<L, K>,
    own: &mut OwnPass<J>,
    stream: Option<TcpStream>,
    gate: &'s G,
) -> Result<(), ServeFault>
where
    J: RunNaming + Send + Sync,
    L: RunLimits,
    K: KeepsRuns,
    R: Threads + Wait + Clock + Eprint + Sync,
    G: Gate + Sync,
{
    start_workers(rt, scope, state, own, gate)?;
    accept_connections(rt, scope, state, runs, own, stream, gate)?;
    wait_for_sessions(rt, state, runs);
    if !state.stop.is_ended() {
        // The server goes on: who still submits here is to connect anew, and not told that it is closing.
        if !state.server.stop.is_stopped() {
            state.note_over();
        }
        let _ = own.shut(rt, state);
    }
    Ok(())
}
