//! The serving of clients.
ghost use Rattle.std.specs.Prelude.{◌≡◌, ◌<◌, ◌≤◌, ℕ, List, All, IfOk, IsOk, OnOk, OnErr, false, length, string_bytes};
ghost use Rattle.dd_command.specs.CommandLine.{IsEventCount};
ghost use Rattle.dd_program.specs.Endings.{EndsSo, limits_for, listening_text, ServesUntil};
ghost use Rattle.dd_streams.specs.Endings.{state_of, streams, Device, WritesAll, WritesBeginning};
ghost use Rattle.dd_command.specs.declared.command_line.TheConstants.{MOST_WORKERS};
ghost use Rattle.dd_server.specs.ServeArgs.{HasTableSize, terms_by};

use crate::telling::{Telling, serve_told, tell};
use dd_book::Limits;
use dd_limits::{MOST_JOBS, MOST_OPEN_JOBS, MOST_PASSES};
use dd_lines::CountedDevice;
use dd_server::{KeepsRuns, ServeArgs, ServeFault, TellsRuns};
use dd_streams::{Ending, ListenFault, fail};
use std::alloc::{AllocError, Global};
use std::io::Write;
use std::net::{Net, SocketAddr, TcpListener, TcpStream};
use std::sync::Wait;
use std::thread::Threads;
use std::time::Clock;

/// Serves the clients of the address until one of them stops the program, by runs of so many events. It tells on the output where
/// it listens, with the port that it got, and at the end of each run how many events its journal has.
pub(crate) fn serve<
    W: Threads + Wait + Clock + Eprint + Net<Listener = TcpListener, Stream = TcpStream> + Sync,
    O: Write,
    E: Write,
    K: KeepsRuns + Send,
    V: TellsRuns<K>,
>(
    rt: &W,
    alloc: Global,
    listen: &str,
    events: u32,
    args: ServeArgs,
    output: &mut CountedDevice<O>,
    errors: &mut CountedDevice<E>,
    watcher: &mut V,
) -> Ending
    requires events { IsEventCount events }
    requires workers { args.workers ≤ MOST_WORKERS }
    requires table { HasTableSize args }
    ensures { (input : Device) → ServesUntil V.way (V.state watcher.old) (V.state watcher.new)
        (terms_by args) events (streams input (state_of O.contents output.old) (state_of E.contents errors.old))
        (streams input (state_of O.contents output.new) (state_of E.contents errors.new)) result }
{
    let listener = match TcpListener::bind(rt, listen) {
        Ok(listener) => listener,
        Err(error) => return fail(errors, Ending::CannotListen(ListenFault::of(error.kind()))),
    };
    let address = match listener.local_addr() {
        Ok(address) => address,
        Err(error) => return fail(errors, Ending::CannotListen(ListenFault::of(error.kind()))),
    };
    let Ok(listening) = listening_line(alloc, address) else {
        return fail(errors, Ending::OutOfMemory);
    };
    match tell(listening.as_str(), output) {
        Ok(()) => attend::<W, O, E, K, V>(
            rt, alloc, listener, events, args, output, errors, watcher,
        ),
        Err(_) => fail(errors, Ending::WriteFailed),
    }
}

/// Serves the clients of a listener whose address was told.
fn attend<
    W: Threads + Wait + Clock + Eprint + Net<Listener = TcpListener, Stream = TcpStream> + Sync,
    O: Write,
    E: Write,
    K: KeepsRuns + Send,
    V: TellsRuns<K>,
>(
    rt: &W,
    alloc: Global,
    listener: TcpListener,
    events: u32,
    args: ServeArgs,
    output: &mut CountedDevice<O>,
    errors: &mut CountedDevice<E>,
    watcher: &mut V,
) -> Ending
    requires events { IsEventCount events }
    requires workers { args.workers ≤ MOST_WORKERS }
    requires table { HasTableSize args }
    ensures { (input before : Device) (address : List ℕ)
        → WritesAll (listening_text address) before (state_of O.contents output.old)
        → ServesUntil V.way (V.state watcher.old) (V.state watcher.new) (terms_by args) events
        (streams input before (state_of E.contents errors.old))
        (streams input (state_of O.contents output.new) (state_of E.contents errors.new)) result }
{
    let telling = Telling::new(output, watcher);
    let telling = serve_told::<W, O, K, V>(rt, alloc, listener, limits_for(events), args, telling);
    let (served, has_failed) = telling.end();
    end(served, has_failed, errors)
}

/// How the serving ends, which is said where it is a failure.
fn end<E: Write>(
    served: Result<(), ServeFault>,
    has_failed: bool,
    errors: &mut CountedDevice<E>,
) -> Ending
    ensures { EndsSo served has_failed (state_of E.contents errors.old)
        (state_of E.contents errors.new) result }
{
    match served {
        Ok(()) if has_failed => fail(errors, Ending::WriteFailed),
        Ok(()) => Ending::Closed,
        Err(ServeFault::Listen) => fail(errors, Ending::ListenFailed),
        Err(ServeFault::OutOfMemory) => fail(errors, Ending::OutOfMemory),
    }
}

/// The most that the book of a run and its callers may hold, with so many events.
fn limits_for(events: u32) -> Limits
    requires { IsEventCount events }
    ensures { result ≡ limits_for events }
{
    Limits::new(MOST_OPEN_JOBS, MOST_JOBS, MOST_PASSES, u64::from(events)).unwrap()
}

/// The line that tells where the program listens.
fn listening_line(alloc: Global, address: SocketAddr) -> Result<String, AllocError>
    ensures { IfOk result (λ line. (text : _) × (string_bytes line ≡ listening_text text)) }
{
    let text = address.to_string(alloc)?;
    let mut line = String::from_str(alloc, "listening on ")?;
    line.push_str(text.as_str())?;
    line.push_str("\n")?;
    Ok(line)
}
