//! What the program does: from its arguments and its streams to its ending.
ghost use Rattle.std.specs.Prelude.{◌≡◌, ◌≤◌, ◌*◌, IfSome, option_map};
ghost use Rattle.dd_command.specs.CommandLine.{IsIdle};
ghost use Rattle.dd_program.specs.Endings.{Runs};
ghost use Rattle.dd_streams.specs.Endings.{state_of, streams, arguments_of};

use crate::serving::serve;
use dd_command::ArgumentsFault;
use dd_lines::CountedDevice;
use dd_server::{KeepsRuns, ServeArgs, TellsRuns};
use dd_solve::DoubleDummy;
use dd_streams::{Ending, ServeOptions, run_streams};
use std::alloc::Global;
use std::io::{Read, Write};
use std::net::{Net, TcpListener, TcpStream};
use std::sync::Wait;
use std::thread::Threads;
use std::time::Clock;

/// How many milliseconds a run that is worn waits for its sessions: ten minutes.
const GRACE: u64 = 600_000;

/// Does what the arguments ask for: answers the lines of the input on the output, serves the clients of an address, passes a
/// file on with its lines, shows help or the version on the output, or says on the standard error what is wrong with the
/// arguments. Where the standard error is a terminal it shows how far a file has been passed on. Who watches is shown the closed desk
/// of each run of the server, and told of it when its line is told.
pub fn run_program<
    W: Threads + Wait + Clock + Eprint + Net<Listener = TcpListener, Stream = TcpStream> + Sync,
    R: Read,
    O: Write,
    E: Write,
    K: KeepsRuns + Send,
    V: TellsRuns<K>,
>(
    rt: &W,
    alloc: Global,
    arguments: Result<Vec<String>, ArgumentsFault>,
    reader: &mut CountedDevice<R>,
    output: &mut CountedDevice<O>,
    errors: &mut CountedDevice<E>,
    is_terminal: bool,
    watcher: &mut V,
) -> Ending
    ensures { Runs V.way (V.state watcher.old) (V.state watcher.new) (arguments_of arguments) is_terminal
        (streams (state_of R.remaining reader.old) (state_of O.contents output.old)
        (state_of E.contents errors.old))
        (streams (state_of R.remaining reader.new) (state_of O.contents output.new)
        (state_of E.contents errors.new)) result }
{
    match run_streams(
        rt,
        alloc,
        &DoubleDummy,
        arguments,
        reader,
        output,
        errors,
        is_terminal,
    ) {
        Ok(ending) => ending,
        Err(
            ServeOptions {
                listen,
                workers,
                shards,
                entries,
                budget,
                events,
                idle,
                websocket,
                allow_stop,
                explain,
            },
        ) => {
            let args = ServeArgs {
                workers,
                shards,
                entries,
                budget,
                websocket,
                allow_stop,
                explain,
                idle: milliseconds(idle),
                grace: GRACE,
            };
            serve::<W, O, E, K, V>(
                rt,
                alloc,
                listen.as_str(),
                events,
                args,
                output,
                errors,
                watcher,
            )
        }
    }
}

/// So many seconds, a day at most, in milliseconds.
fn milliseconds(seconds: Option<u64>) -> Option<u64>
    requires { IfSome seconds IsIdle }
    ensures { result ≡ option_map (λ s. s * 1000) seconds }
{
    match seconds {
        Some(seconds) => Some(seconds * 1_000),
        None => None,
    }
}
