//! Connections as they come.
use crate::args::ServeFault;
use crate::connection::serve_connection;
use crate::own_pass::OwnPass;
use crate::roster::Opening;
use crate::run_end::RunLimits;
use crate::run_state::RunState;
use crate::runs::Runs;
use crate::telling::KeepsRuns;
use crate::terms::RunNaming;
use dd_work::Gate;
use std::io::Error;
use std::net::TcpStream;
use std::sync::{Arc, Wait};
use std::thread;
use std::thread::{Scope, Threads};
use std::time::{Clock, Duration};

// The system's numbers of what passes: a connection that its client gave up (ECONNABORTED), and the want of descriptors in the
// process (EMFILE) and in the system (ENFILE), of room for sockets (ENOBUFS) and of memory (ENOMEM).
const PASSING: [i32; 5] = [103, 24, 23, 105, 12];

// How many milliseconds a listener that lacks something rests, and a run that ends until it looks again.
const REST: u64 = 100;

/// Accepts connections, each served on a thread of its own, until the server is stopped, or the run is used up, by whomever, and
/// the next one begins with the connection that came last. An accept that fails shuts the book and stops the server; one that may do better
/// when a session ends is tried again while a session is open.
pub(crate) fn accept_connections<'s, E, J, L, K, R, G>(
    rt: &'s R,
    scope: &Scope<'s, E>,
    state: &'s RunState<'s, J>,
    runs: &Runs<L, K>,
    own: &mut OwnPass<J>,
    first: Option<TcpStream>,
    gate: &'s G,
) -> Result<(), ServeFault>
where
    J: RunNaming + Send + Sync,
    L: RunLimits,
    K: KeepsRuns,
    R: Threads + Wait + Clock + Eprint + Sync,
    G: Gate + Sync,
{
    if let Some(stream) = first {
        start_connection(rt, scope, state, stream, gate);
    }
    let looks = state.looks(rt);
    for stream in state.server.listener.incoming() {
        if state.server.stop.is_stopped() {
            break;
        }
        match stream {
            Ok(stream) if state.is_used_up(&looks) => match hand_over(rt, state, runs, stream) {
                Some(stream) => start_connection(rt, scope, state, stream, gate),
                None => break,
            },
            Ok(stream) => start_connection(rt, scope, state, stream, gate),
            Err(error) if passes(&error) && may_do_better(rt, state, runs) => {
                thread::sleep(rt, Duration::from_millis(REST))
            }
            Err(_) => {
                let ended = own.shut(rt, state);
                state.server.stop.stop(ended);
                return Err(ServeFault::Listen);
            }
        }
    }
    Ok(())
}

// The next run begins with this connection, unless the server was stopped meanwhile. Where there is no room for it in time, or no
// memory for its row, the connection comes back: this run tells it 15.
fn hand_over<J: RunNaming, L: RunLimits, K: KeepsRuns, R: Wait + Clock>(
    rt: &R,
    state: &RunState<'_, J>,
    runs: &Runs<L, K>,
    stream: TcpStream,
) -> Option<TcpStream> {
    let has_room = runs.make_room(rt, state.number);
    if state.server.stop.is_stopped() {
        return None;
    }
    if !has_room {
        return Some(stream);
    }
    let Ok(row) = runs.row() else {
        return Some(stream);
    };
    runs.open_next(rt, Opening::new(row, Some(stream)));
    None
}

/// Waits until no session of the run is open, its time is over, or it is to end at once.
pub(crate) fn wait_for_sessions<J: RunNaming, L: RunLimits, K: KeepsRuns, R: Wait + Clock>(
    rt: &R,
    state: &RunState<'_, J>,
    runs: &Runs<L, K>,
) {
    for _ in 0..state.server.args.grace / REST {
        let is_hurried = state.server.stop.is_stopped() || runs.is_hurried(rt, state.number);
        if is_hurried || !state.stop.streams().lock(rt).is_any_open() {
            return;
        }
        thread::sleep(rt, Duration::from_millis(REST));
    }
}

fn passes(error: &Error) -> bool {
    match error.raw_os_error() {
        Some(code) => PASSING.contains(&code),
        None => false,
    }
}

// May an accept that lacked something find it later? A session may end meanwhile, of this run or of another.
fn may_do_better<J: RunNaming, L: RunLimits, K: KeepsRuns, R: Wait>(
    rt: &R,
    state: &RunState<'_, J>,
    runs: &Runs<L, K>,
) -> bool {
    state.stop.streams().lock(rt).is_any_open() || runs.has_others(rt)
}

// One connection, on a thread of its own. Where memory or a thread can't be had, or a stop came before it, it is closed.
fn start_connection<'s, E, J, R, G>(
    rt: &'s R,
    scope: &Scope<'s, E>,
    state: &'s RunState<'s, J>,
    stream: TcpStream,
    gate: &'s G,
)
where
    J: RunNaming + Send + Sync,
    R: Threads + Wait + Clock + Eprint + Sync,
    G: Gate + Sync,
{
    let Ok(stream) = Arc::new(state.server.alloc, stream) else {
        return;
    };
    let Ok(kept) = Arc::try_clone(&stream) else {
        return;
    };
    let Some(key) = state.stop.streams().lock(rt).insert(kept) else {
        return;
    };
    let serve = move || {
        serve_connection(rt, state, &stream, gate);
        state.stop.streams().lock(rt).remove(key)
    };
    state.note_silent();
    if scope.spawn(serve).is_err() {
        state.note_not_silent();
        state.stop.streams().lock(rt).remove(key);
    }
}
