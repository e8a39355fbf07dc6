//! What the program does on its standard streams: from its arguments to its ending.
ghost use Rattle.std.specs.Prelude.{◌≡◌, ◌≤◌, IfOk, IfErr};
ghost use Rattle.clap.specs.Words.{kind_of};
ghost use Rattle.dd_command.specs.CommandLine.{IsInRange, IsTableSize};
ghost use Rattle.dd_streams.specs.Endings.{state_of, streams, arguments_of, Device, AskFor, EndsWithoutServer, Explains, RunsOnStreams, RunsWithoutServer, ShowsUntil, SolvesUntil};
ghost use Rattle.dd_tool.specs.Served.{IsReplyAs};

use crate::ahead::solve_ahead;
use crate::ending::{Ending, fail, refuse_server};
use crate::filling::{FillArgs, fill};
use crate::options::ServeOptions;
use clap::Error;
use clap::error::ErrorKind;
use dd_bounds::Bounds;
use dd_cache::Cache;
use dd_command::{Args, ArgumentsFault, not_text, read_args};
use dd_lines::{CountedDevice, LineFault, write_whole};
use dd_request::Solver;
use dd_table::SharedTable;
use dd_tool::tell_lines;
use std::alloc::{AllocError, Global};
use std::io::{Read, Write};
use std::sync::Wait;
use std::thread::Threads;

/// The most bytes that one read takes.
const PIECE: usize = 4_096;

/// What the parser of arguments says of an option that there isn't.
const NO_OPTION: &str = "error: unexpected argument '-";

/// What is said of a file that is named in place of being the standard input.
const FILE_OF_PBN: &str =
    "ddserve: files are read from the standard input, as in: ddserve pbn < FILE\n";

/// The same of a file of lines.
const FILE_OF_LINES: &str =
    "ddserve: files are read from the standard input, as in: ddserve solve < FILE\n";

/// Does what the arguments ask for on the three standard streams, with the solver's answers: answers the lines of the input on the output, passes a file on with
/// its lines, shows help or the version on the output, or says on the standard error what is wrong with the arguments. Where the
/// standard error is a terminal it shows how far a file has been passed on. The error is what the arguments ask a server for: nothing
/// was read or written then.
pub fn run_streams<W: Threads + Wait + Sync, S: Solver + Sync, R: Read, O: Write, E: Write>(
    rt: &W,
    alloc: Global,
    solver: &S,
    arguments: Result<Vec<String>, ArgumentsFault>,
    reader: &mut CountedDevice<R>,
    output: &mut CountedDevice<O>,
    errors: &mut CountedDevice<E>,
    is_terminal: bool,
) -> Result<Ending, ServeOptions>
    ensures { RunsOnStreams (arguments_of arguments) is_terminal
        (streams (state_of R.remaining reader.old) (state_of O.contents output.old)
        (state_of E.contents errors.old))
        (streams (state_of R.remaining reader.new) (state_of O.contents output.new)
        (state_of E.contents errors.new)) result }
{
    match args_of(alloc, arguments) {
        Ok(
            Args::Solve {
                budget,
                entries,
                workers: 1,
                explain,
            },
        ) => Ok(solve(
            rt, alloc, solver, budget, explain, entries, reader, output, errors,
        )),
        Ok(
            Args::Solve {
                budget,
                entries,
                workers,
                explain,
            },
        ) => Ok(solve_ahead(
            rt, alloc, solver, workers, budget, explain, entries, reader, output, errors,
        )),
        Ok(
            Args::Serve {
                listen,
                workers,
                shards,
                entries,
                budget,
                events,
                idle,
                websocket,
                allow_stop,
                explain,
            },
        ) => {
            let options = ServeOptions {
                listen,
                workers,
                shards,
                entries,
                budget,
                events,
                idle,
                websocket,
                allow_stop,
                explain,
            };
            Err(options)
        }
        Ok(
            Args::Fill {
                tags,
                budget,
                entries,
                workers,
            },
        ) => {
            let args = FillArgs {
                budget,
                entries,
                workers,
                shows_progress: is_terminal,
            };
            Ok(fill(
                rt,
                alloc,
                solver,
                tags.as_str(),
                args,
                reader,
                output,
                errors,
            ))
        }
        Err(error) => match error.kind() {
            ErrorKind::OutOfMemory => Ok(fail(errors, Ending::OutOfMemory)),
            _ => Ok(show(alloc, &error, output, errors)),
        },
    }
}

/// Does the same where there is no server. Where the arguments ask for one it says on the standard error that this program has none,
/// and ends as at a bad line.
pub fn run_without_server<W: Threads + Wait + Sync, S: Solver + Sync, R: Read, O: Write, E: Write>(
    rt: &W,
    alloc: Global,
    solver: &S,
    arguments: Result<Vec<String>, ArgumentsFault>,
    reader: &mut CountedDevice<R>,
    output: &mut CountedDevice<O>,
    errors: &mut CountedDevice<E>,
    is_terminal: bool,
) -> Ending
    ensures { RunsWithoutServer (arguments_of arguments) is_terminal
        (streams (state_of R.remaining reader.old) (state_of O.contents output.old)
        (state_of E.contents errors.old))
        (streams (state_of R.remaining reader.new) (state_of O.contents output.new)
        (state_of E.contents errors.new)) result }
{
    let run = run_streams(
        rt,
        alloc,
        solver,
        arguments,
        reader,
        output,
        errors,
        is_terminal,
    );
    end_without_server(run, errors)
}

/// How a run ends where there is no server: where it has no ending it is refused.
fn end_without_server<E: Write>(
    run: Result<Ending, ServeOptions>,
    errors: &mut CountedDevice<E>,
) -> Ending
    ensures { EndsWithoutServer run (state_of E.contents errors.old) (state_of E.contents errors.new) result }
{
    match run {
        Ok(ending) => ending,
        Err(_options) => refuse_server(errors),
    }
}

/// What the arguments ask for. The error is a bad line, a call for help or for the version, or lack of memory.
fn args_of(alloc: Global, arguments: Result<Vec<String>, ArgumentsFault>) -> Result<Args, Error>
    ensures asked { IfOk result (AskFor (arguments_of arguments)) }
    ensures in_range { IfOk result IsInRange }
    ensures error { IfErr result (λ error. Explains (arguments_of arguments) (kind_of error)) }
{
    match arguments {
        Ok(arguments) => read_args(alloc, arguments.as_slice()),
        Err(ArgumentsFault::NotText) => Err(not_text(alloc)),
        Err(ArgumentsFault::OutOfMemory) => Err(AllocError.into()),
    }
}

/// Answers the lines of the input, each within the budget, explained or not, over a view of a table of one shard, behind a
/// cache.
fn solve<W: Wait, S: Solver, R: Read, O: Write, E: Write>(
    rt: &W,
    alloc: Global,
    solver: &S,
    budget: Option<u64>,
    explain: bool,
    entries: u32,
    reader: &mut CountedDevice<R>,
    output: &mut CountedDevice<O>,
    errors: &mut CountedDevice<E>,
) -> Ending
    requires { IsTableSize entries }
    ensures { SolvesUntil (IsReplyAs explain budget)
        (streams (state_of R.remaining reader.old) (state_of O.contents output.old)
        (state_of E.contents errors.old))
        (streams (state_of R.remaining reader.new) (state_of O.contents output.new)
        (state_of E.contents errors.new)) result }
{
    let Ok(table) = SharedTable::new(alloc, 1, entries) else {
        return fail(errors, Ending::OutOfMemory);
    };
    let Ok(mut cache) = Cache::new(alloc, table.view(rt)) else {
        return fail(errors, Ending::OutOfMemory);
    };
    solve_over(
        alloc, solver, budget, explain, reader, output, errors, &mut cache,
    )
}

/// Answers the lines of the input over a table, each within the budget, explained or not.
fn solve_over<S: Solver, B: Bounds, R: Read, O: Write, E: Write>(
    alloc: Global,
    solver: &S,
    budget: Option<u64>,
    explain: bool,
    reader: &mut CountedDevice<R>,
    output: &mut CountedDevice<O>,
    errors: &mut CountedDevice<E>,
    table: &mut B,
) -> Ending
    ensures { SolvesUntil (IsReplyAs explain budget)
        (streams (state_of R.remaining reader.old) (state_of O.contents output.old)
        (state_of E.contents errors.old))
        (streams (state_of R.remaining reader.new) (state_of O.contents output.new)
        (state_of E.contents errors.new)) result }
{
    let mut buffer = [0; PIECE];
    match tell_lines(
        alloc,
        reader,
        output,
        solver,
        table,
        budget,
        explain,
        &mut buffer,
    ) {
        Ok(()) => Ending::Answered,
        Err(LineFault::Read) => fail(errors, Ending::ReadFailed),
        Err(LineFault::Write) => fail(errors, Ending::WriteFailed),
    }
}

/// Shows help or the version on the output, and any other error on the standard error.
fn show<O: Write, E: Write>(
    alloc: Global,
    error: &Error,
    output: &mut CountedDevice<O>,
    errors: &mut CountedDevice<E>,
) -> Ending
    ensures { (input : Device) → ShowsUntil (kind_of error.now)
        (streams input (state_of O.contents output.old) (state_of E.contents errors.old))
        (streams input (state_of O.contents output.new) (state_of E.contents errors.new)) result }
{
    let Ok(text) = text_of(alloc, error) else {
        return fail(errors, Ending::OutOfMemory);
    };
    match error.kind() {
        ErrorKind::DisplayHelp | ErrorKind::DisplayVersion => {
            match write_whole(output, text.as_bytes()) {
                Ok(()) => Ending::Shown,
                Err(_) => fail(errors, Ending::WriteFailed),
            }
        }
        _ => {
            // Where the standard error fails too, there is no place left to say so.
            let _ = write_whole(errors, text.as_bytes());
            Ending::BadLine
        }
    }
}

/// What is shown of an error: its text, and a hint where a file seems to be named.
fn text_of(alloc: Global, error: &Error) -> Result<String, AllocError> {
    let mut text = error.to_string(alloc)?;
    let hint = hint_of(error.kind(), text.as_str());
    text.push_str(hint)?;
    Ok(text)
}

/// What is added to an error of this kind and text: how `pbn` and `solve` take a file, where one of them has a word that is no
/// option. The text has the usage of the command.
fn hint_of(kind: ErrorKind, text: &str) -> &'static str {
    if kind != ErrorKind::UnknownArgument || text.starts_with(NO_OPTION) {
        ""
    } else if text.contains(" pbn [OPTIONS]") {
        FILE_OF_PBN
    } else if text.contains(" solve [OPTIONS]") {
        FILE_OF_LINES
    } else {
        ""
    }
}
