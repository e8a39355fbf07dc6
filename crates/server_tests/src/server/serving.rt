//! A server in a thread of its own.
use dd_book::Limits;
use dd_desk::{Closed, Naming};
use dd_server::{KeepsRuns, ServeArgs, ServeFault, TellsRuns, run_server};
use dd_work::Gate;
use std::alloc::Global;
use std::net::TcpListener;
use std::sync::Wait;
use std::thread::Threads;
use std::time::Clock;

/// What a server is asked for.
#[derive(Clone, Copy)]
pub struct Run {
    /// 1 or 2.
    pub workers: u32,
    /// The most passes of each run, more than there are workers.
    pub passes: u64,
    /// The most events of the journal of each run, at least 1.
    pub events: u64,
    pub budget: Option<u64>,
    pub websocket: bool,
    pub allow_stop: bool,
    pub explain: bool,
    /// For how many milliseconds a client without an open job may be silent.
    pub idle: Option<u64>,
    /// For how many milliseconds a run that is worn waits for its sessions.
    pub grace: u64,
}

/// One worker, lines, and a stop by any client.
pub const LINES: Run = Run {
    workers: 1,
    passes: 8,
    events: 1_048_576,
    budget: None,
    websocket: false,
    allow_stop: true,
    explain: false,
    idle: None,
    grace: 60_000,
};

/// The runs that were told, and the events of all.
#[derive(Debug, Drop, PartialEq, Eq)]
pub struct Told {
    pub runs: u64,
    pub events: u64,
}

/// How many events a run had.
#[derive(Drop)]
pub struct RunEvents {
    events: u64,
}

impl KeepsRuns for RunEvents {
    ghost made_of = { λ _ _. Unit {0} };

    fn of<J: Naming>(closed: &Closed<J>) -> RunEvents {
        RunEvents {
            events: closed.journal().len() as u64,
        }
    }
}

impl TellsRuns<RunEvents> for Told {
    ghost use Rattle.std.specs.Prelude.{◌≡◌};

    ghost State = { Unit {0} };

    ghost state = { λ _. tt {0} };

    ghost way = { λ before _ after. after ≡ before };

    fn tell(&mut self, kept: RunEvents) {
        self.runs = self.runs.saturating_add(1);
        self.events = self.events.saturating_add(kept.events);
    }
}

/// Serves until a client stops the server or no more connections can be accepted: what was told, and why it ended badly. `None`
/// where the run is none that a server may be asked for.
pub fn serve_runs<R: Threads + Wait + Clock + Eprint + Sync, G: Gate + Sync>(
    rt: &R,
    alloc: Global,
    listener: TcpListener,
    run: Run,
    gate: &G,
) -> Option<(Told, Result<(), ServeFault>)> {
    if run.workers > 2 || run.passes <= u64::from(run.workers) {
        return None;
    }
    let limits = Limits::new(4, 4, run.passes, run.events)?;
    let args = ServeArgs {
        workers: run.workers,
        shards: 1,
        entries: 16,
        budget: run.budget,
        websocket: run.websocket,
        allow_stop: run.allow_stop,
        explain: run.explain,
        idle: run.idle,
        grace: run.grace,
    };
    let told = Told { runs: 0, events: 0 };
    Some(run_server::<RunEvents, Told, R, G>(rt, alloc, listener, limits, args, gate, told))
}

/// The same of one run: the number of its events at the end.
pub fn serve<R: Threads + Wait + Clock + Eprint + Sync, G: Gate + Sync>(
    rt: &R,
    alloc: Global,
    listener: TcpListener,
    run: Run,
    gate: &G,
) -> Option<Result<u64, ServeFault>> {
    match serve_runs(rt, alloc, listener, run, gate)? {
        (Told { runs: 1, events }, Ok(())) => Some(Ok(events)),
        (_, Ok(())) => None,
        (_, Err(fault)) => Some(Err(fault)),
    }
}
