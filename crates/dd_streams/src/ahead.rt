//! Lines that several threads answer.
ghost use Rattle.std.specs.Prelude.{◌≡◌, ◌≤◌};
ghost use Rattle.dd_command.specs.CommandLine.{IsTableSize};
ghost use Rattle.dd_streams.specs.Endings.{state_of, streams, SolvesUntil};
ghost use Rattle.dd_tool.specs.Served.{IsReplyAs};

use crate::ending::{Ending, fail};
use dd_bounds::Bounds;
use dd_cache::Cache;
use dd_lines::{CountedDevice, LineFault};
use dd_request::Solver;
use dd_table::{SharedTable, View};
use dd_tool::tell_lines_on;
use std::alloc::{AllocError, Global};
use std::io::{Read, Write};
use std::sync::Wait;
use std::thread::Threads;

/// The most bytes that one read takes, of which the threads answer the lines: some five hundred deals.
const PIECE: usize = 65_536;

/// The shards of the table that several threads share.
pub(crate) const SHARDS: u32 = 16;

/// Answers the lines of the input, each within the budget, explained or not, by so many threads beside this one, which reads,
/// writes and mostly waits, over a table that they share, each behind a cache of its own.
pub(crate) fn solve_ahead<W: Threads + Wait + Sync, S: Solver + Sync, R: Read, O: Write, E: Write>(
    rt: &W,
    alloc: Global,
    solver: &S,
    workers: u32,
    budget: Option<u64>,
    explain: bool,
    entries: u32,
    reader: &mut CountedDevice<R>,
    output: &mut CountedDevice<O>,
    errors: &mut CountedDevice<E>,
) -> Ending
    requires { IsTableSize entries }
    ensures { SolvesUntil (IsReplyAs explain budget)
        (streams (state_of R.remaining reader.old) (state_of O.contents output.old)
        (state_of E.contents errors.old))
        (streams (state_of R.remaining reader.new) (state_of O.contents output.new)
        (state_of E.contents errors.new)) result }
{
    let Ok(table) = SharedTable::new(alloc, SHARDS, entries) else {
        return fail(errors, Ending::OutOfMemory);
    };
    let Ok(mut cache) = Cache::new(alloc, table.view(rt)) else {
        return fail(errors, Ending::OutOfMemory);
    };
    let Ok(mut others) = caches(rt, alloc, &table, workers) else {
        return fail(errors, Ending::OutOfMemory);
    };
    solve_on(
        rt,
        alloc,
        solver,
        budget,
        explain,
        reader,
        output,
        errors,
        &mut cache,
        others.as_mut_slice(),
    )
}

/// So many caches that have learned nothing, each before a view of the table. The error says that memory ran out.
pub(crate) fn caches<'a, W: Wait>(
    rt: &'a W,
    alloc: Global,
    table: &'a SharedTable,
    count: u32,
) -> Result<Vec<Cache<View<'a, W>>>, AllocError> {
    let mut caches = Vec::with_capacity(alloc, count as usize)?;
    for _ in 0..count {
        caches.push(Cache::new(alloc, table.view(rt))?)?;
    }
    Ok(caches)
}

/// Answers the lines of the input over a table, each within the budget, explained or not, with a thread for each of the
/// others.
fn solve_on<
    W: Threads + Wait + Sync,
    S: Solver + Sync,
    B: Bounds,
    H: Bounds + Send,
    R: Read,
    O: Write,
    E: Write,
>(
    rt: &W,
    alloc: Global,
    solver: &S,
    budget: Option<u64>,
    explain: bool,
    reader: &mut CountedDevice<R>,
    output: &mut CountedDevice<O>,
    errors: &mut CountedDevice<E>,
    table: &mut B,
    others: &mut [H],
) -> Ending
    ensures { SolvesUntil (IsReplyAs explain budget)
        (streams (state_of R.remaining reader.old) (state_of O.contents output.old)
        (state_of E.contents errors.old))
        (streams (state_of R.remaining reader.new) (state_of O.contents output.new)
        (state_of E.contents errors.new)) result }
{
    let mut buffer = [0; PIECE];
    match tell_lines_on(
        rt,
        alloc,
        reader,
        output,
        solver,
        table,
        others,
        budget,
        explain,
        &mut buffer,
    ) {
        Ok(()) => Ending::Answered,
        Err(LineFault::Read) => fail(errors, Ending::ReadFailed),
        Err(LineFault::Write) => fail(errors, Ending::WriteFailed),
    }
}
