//! The filling of files.
ghost use Rattle.std.specs.Prelude.{◌≡◌, ◌≤◌, IfErr, OnOk};
ghost use Rattle.dd_bounds.specs.Spent.{IsSpent};
ghost use Rattle.dd_command.specs.CommandLine.{IsTableSize};
ghost use Rattle.dd_streams.specs.Endings.{ending_of, line_of, state_of, streams, tags_line, EndsFilling, FillsUntil, Writes};

use crate::ahead::{SHARDS, caches};
use crate::ending::{Ending, fail};
use crate::tags::wanted_by;
use dd_bounds::Bounds;
use dd_cache::Cache;
use dd_file::{FileFault, Wanted};
use dd_fill::fill_deals;
use dd_limits::MOST_SHARDS;
use dd_lines::{CountedDevice, write_whole};
use dd_request::Solver;
use dd_table::SharedTable;
use std::alloc::Global;
use std::io::{Read, Write};
use std::sync::Wait;
use std::thread::Threads;

/// The most bytes that one read takes.
const PIECE: usize = 65_536;

/// What is said where a name is no tag's.
const TAGS_LINE: &str =
    "ddserve: --tags takes DoubleDummyTricks, OptimumScore, ParContract and OptimumResultTable, with commas between them\n";

/// How a file is filled.
#[derive(Clone, Copy, Drop)]
pub(crate) struct FillArgs {
    /// The most positions that the search for one result visits.
    pub(crate) budget: Option<u64>,
    /// The room of a shard of the table.
    pub(crate) entries: u32,
    /// How many search.
    pub(crate) workers: u32,
    /// Is it shown on the standard error how far the file has been passed on?
    pub(crate) shows_progress: bool,
}

/// Passes the input on to the output with the lines that its games lack, of those that are named. The results of its deals are
/// searched for within the budget, over a view of a table of one shard, behind a cache. With more workers as many threads beside
/// this one search ahead, over a table that they share, each behind a cache of its own.
pub(crate) fn fill<W: Threads + Wait + Sync, S: Solver + Sync, R: Read, O: Write, E: Write>(
    rt: &W,
    alloc: Global,
    solver: &S,
    tags: &str,
    args: FillArgs,
    reader: &mut CountedDevice<R>,
    output: &mut CountedDevice<O>,
    errors: &mut CountedDevice<E>,
) -> Ending
    requires { IsTableSize args.entries }
    ensures { FillsUntil tags.now args.budget args.shows_progress
        (streams (state_of R.remaining reader.old) (state_of O.contents output.old)
        (state_of E.contents errors.old))
        (streams (state_of R.remaining reader.new) (state_of O.contents output.new)
        (state_of E.contents errors.new)) result }
{
    match wanted_by(tags.as_bytes()) {
        Some(wanted) => fill_wanted(rt, alloc, solver, wanted, args, reader, output, errors),
        None => refuse_tags(errors),
    }
}

/// Says that a name is no tag's.
fn refuse_tags<E: Write>(errors: &mut CountedDevice<E>) -> Ending
    ensures ending { result ≡ Ending.BadLine }
    ensures says { Writes tags_line (state_of E.contents errors.old) (state_of E.contents errors.new) }
{
    // Where it fails there is no place left to say so.
    let _ = write_whole(errors, TAGS_LINE.as_bytes());
    Ending::BadLine
}

/// The same with these tags.
fn fill_wanted<W: Threads + Wait + Sync, S: Solver + Sync, R: Read, O: Write, E: Write>(
    rt: &W,
    alloc: Global,
    solver: &S,
    wanted: Wanted,
    args: FillArgs,
    reader: &mut CountedDevice<R>,
    output: &mut CountedDevice<O>,
    errors: &mut CountedDevice<E>,
) -> Ending
    requires { IsTableSize args.entries }
    ensures { EndsFilling (IsSpent args.budget) wanted args.shows_progress
        (streams (state_of R.remaining reader.old) (state_of O.contents output.old)
        (state_of E.contents errors.old))
        (streams (state_of R.remaining reader.new) (state_of O.contents output.new)
        (state_of E.contents errors.new)) result }
{
    let (shards, ahead) = shards_and_threads(args.workers);
    let Ok(table) = SharedTable::new(alloc, shards, args.entries) else {
        return fail(errors, Ending::OutOfMemory);
    };
    let Ok(mut cache) = Cache::new(alloc, table.view(rt)) else {
        return fail(errors, Ending::OutOfMemory);
    };
    let Ok(mut others) = caches(rt, alloc, &table, ahead) else {
        return fail(errors, Ending::OutOfMemory);
    };
    fill_over(
        rt,
        alloc,
        solver,
        wanted,
        args,
        reader,
        output,
        errors,
        &mut cache,
        others.as_mut_slice(),
    )
}

/// The shards of the table, and how many threads search ahead: a worker that is alone searches without them.
fn shards_and_threads(workers: u32) -> (u32, u32)
    ensures { (1 ≤ result.0) × (result.0 ≤ MOST_SHARDS) }
{
    match workers {
        1 => (1, 0),
        _ => (SHARDS, workers),
    }
}

/// The same over a table, with a thread for each of the others.
fn fill_over<
    W: Threads + Wait + Sync,
    S: Solver + Sync,
    B: Bounds,
    H: Bounds + Send,
    R: Read,
    O: Write,
    E: Write,
>(
    rt: &W,
    alloc: Global,
    solver: &S,
    wanted: Wanted,
    args: FillArgs,
    reader: &mut CountedDevice<R>,
    output: &mut CountedDevice<O>,
    errors: &mut CountedDevice<E>,
    table: &mut B,
    others: &mut [H],
) -> Ending
    ensures { EndsFilling (IsSpent args.budget) wanted args.shows_progress
        (streams (state_of R.remaining reader.old) (state_of O.contents output.old)
        (state_of E.contents errors.old))
        (streams (state_of R.remaining reader.new) (state_of O.contents output.new)
        (state_of E.contents errors.new)) result }
{
    let mut buffer = [0; PIECE];
    let filled = fill_deals(
        rt,
        alloc,
        wanted,
        reader,
        output,
        errors,
        args.shows_progress,
        solver,
        table,
        others,
        args.budget,
        &mut buffer,
    );
    end(filled, errors)
}

/// How the filling ends, which is said where it is a failure.
fn end<E: Write>(filled: Result<(), FileFault>, errors: &mut CountedDevice<E>) -> Ending
    ensures ending { result ≡ ending_of filled }
    ensures silent { OnOk filled (state_of E.contents errors.new ≡ state_of E.contents errors.old) }
    ensures says { IfErr filled (λ _. Writes (line_of result)
        (state_of E.contents errors.old) (state_of E.contents errors.new)) }
{
    match filled {
        Ok(()) => Ending::Filled,
        Err(FileFault::Read) => fail(errors, Ending::ReadFailed),
        Err(FileFault::Write) => fail(errors, Ending::WriteFailed),
        Err(FileFault::Memory) => fail(errors, Ending::OutOfMemory),
    }
}
