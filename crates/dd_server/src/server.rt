//! The server over a bound listener: runs that follow one another.
ghost use Rattle.std.specs.Prelude.{◌≡◌, ◌<◌, IsOk, IsTrue};
ghost use Rattle.dd_server.specs.Runs.{TellsEach};
ghost use Rattle.dd_server.specs.ServeArgs.{HasTableSize, terms_by};

use crate::args::{ServeArgs, ServeFault};
use crate::roster::{News, Opening};
use crate::run::run;
use crate::run_end::RunLimits;
use crate::runs::Runs;
use crate::server_state::ServerState;
use crate::telling::{KeepsRuns, TellsRuns};
use crate::terms::Terms;
use dd_book::Limits;
use dd_work::Gate;
use std::alloc::Global;
use std::marker::Brand;
use std::net::TcpListener;
use std::sync::Wait;
use std::thread;
use std::thread::{Scope, Threads};
use std::time::Clock;

/// Serves the connections of the listener until a client stops it, by runs of these limits that follow one another. Each run
/// that has ended is told, by who tells and comes back at the end.
pub fn run_server<
    K: KeepsRuns + Send,
    T: TellsRuns<K> + Drop,
    R: Threads + Wait + Clock + Eprint + Sync,
    G: Gate + Sync,
>(
    rt: &R,
    alloc: Global,
    listener: TcpListener,
    limits: Limits,
    args: ServeArgs,
    gate: &G,
    teller: T,
) -> (T, Result<(), ServeFault>)
    requires passes { args.workers < limits.passes }
    requires table { HasTableSize args }
    ensures { TellsEach limits (terms_by args) T.way (T.state teller) (T.state result.0)
        (IsOk result.1) }
{
    match ServerState::new(alloc, listener, limits, args) {
        Ok(state) => serve_runs::<Brand, K, T, R, G>(rt, &state, gate, teller),
        Err(fault) => (teller, Err(fault)),
    }
}

// The same by runs whose limits and terms have this name.
fn serve_runs<
    L: RunLimits + Send + Sync,
    K: KeepsRuns + Send,
    T: TellsRuns<K> + Drop,
    R: Threads + Wait + Clock + Eprint + Sync,
    G: Gate + Sync,
>(rt: &R, server: &ServerState, gate: &G, teller: T) -> (T, Result<(), ServeFault>)
    requires limits { server.now.limits ≡ L.limits }
    requires terms { terms_by server.now.args ≡ L.terms }
    ensures { TellsEach L.limits L.terms T.way (T.state teller) (T.state result.0) (IsOk result.1) }
{
    let runs = Runs::<L, K>::new(server.alloc, server.limits, Terms::of(&server.args));
    let Ok(row) = runs.row() else {
        return (teller, Err(ServeFault::OutOfMemory));
    };
    let (teller, some) = keep_serving(rt, server, &runs, Opening::new(row, None), gate, teller);
    let ended = match runs.into_fault() {
        Some(fault) => Err(fault),
        None if some => Ok(()),
        None => Err(ServeFault::OutOfMemory),
    };
    (teller, ended)
}

// Runs, until all have ended. Has one?
fn keep_serving<
    L: RunLimits + Send + Sync,
    K: KeepsRuns + Send,
    T: TellsRuns<K> + Drop,
    R: Threads + Wait + Clock + Eprint + Sync,
    G: Gate + Sync,
>(
    rt: &R,
    server: &ServerState,
    runs: &Runs<L, K>,
    first: Opening<L>,
    gate: &G,
    teller: T,
) -> (T, bool)
    ensures { TellsEach L.limits L.terms T.way (T.state teller) (T.state result.0) (IsTrue result.1) }
{
    thread::scope(
        thread::scope_env(),
        rt,
        move |scope| -> (T, bool)
            ensures { TellsEach L.limits L.terms T.way (T.state teller) (T.state result.0)
                (IsTrue result.1) }
        {
            start_run(rt, scope, server, runs, first, gate);
            follow_runs(rt, scope, server, runs, gate, teller)
        },
    )
}

// Begins each run that the one before it opens, and tells each that has ended.
fn follow_runs<'s, E, L, K, T, R, G>(
    rt: &'s R,
    scope: &Scope<'s, E>,
    server: &'s ServerState,
    runs: &'s Runs<L, K>,
    gate: &'s G,
    teller: T,
) -> (T, bool)
where
    L: RunLimits + Send + Sync,
    K: KeepsRuns + Send,
    T: TellsRuns<K> + Drop,
    R: Threads + Wait + Clock + Eprint + Sync,
    G: Gate + Sync,
    ensures { TellsEach L.limits L.terms T.way (T.state teller) (T.state result.0) (IsTrue result.1) }
{
    let mut teller = teller;
    let mut some = false;
    for _ in rt.forever() {
        match runs.next(rt) {
            News::Opens(opening) => start_run(rt, scope, server, runs, opening, gate),
            News::Ended(end) => {
                end.tell_to(&mut teller);
                some = true;
            }
            News::Over => break,
        }
    }
    (teller, some)
}

// A run, on a thread of its own.
fn start_run<'s, E, L, K, R, G>(
    rt: &'s R,
    scope: &Scope<'s, E>,
    server: &'s ServerState,
    runs: &'s Runs<L, K>,
    opening: Opening<L>,
    gate: &'s G,
)
where
    L: RunLimits + Send + Sync,
    K: KeepsRuns + Send,
    R: Threads + Wait + Clock + Eprint + Sync,
    G: Gate + Sync,
{
    let Some(begun) = runs.begin(rt) else {
        server.stop.fail(ServeFault::OutOfMemory);
        return;
    };
    let serve = move || run(rt, server, runs, begun, opening, gate);
    if let Err(refused) = scope.spawn(serve) {
        // No other run begins before this one has ended.
        (refused.value)();
    }
}
