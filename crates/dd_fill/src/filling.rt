//! A file in, the file with the results of its deals out.
ghost use Rattle.std.specs.Prelude.{◌≡◌, ◌<◌, length};
ghost use Rattle.dd_fill.specs.Ahead.{FillsFile, FillsSaying};
ghost use Rattle.dd_fill.specs.Said.{sink_of};
ghost use Rattle.dd_fill.specs.Served.{Fills};
ghost use Rattle.dd_bounds.specs.Spent.{IsSpent};

use crate::analyst::DealAnalyst;
use crate::limit::{Limit, LimitName};
use crate::pool::{Pool, search_ahead};
use crate::progress::clear_progress;
use dd_bounds::Bounds;
use dd_file::{FileFault, Wanted, fill_file};
use dd_lines::CountedDevice;
use dd_request::Solver;
use std::alloc::Global;
use std::io::{Read, Write};
use std::marker::Brand;
use std::sync::Wait;
use std::thread::{Threads, for_each_mut, join_mut};

/// Passes a file on, with those lines that its games lack of the ones that are wanted. The solver is asked for the results of its
/// deals, over the table. The budget is the most positions that the search for one result visits, and `None` lets each search go
/// on to its end. For each of the tables in `others` a thread of its own searches ahead over it, and has ended when this returns;
/// where there are none no thread is made. Of each game that still lacks a tag which is wanted a line on `errors` says why, and
/// where that is a terminal its last line may show how far it is.
#[tactic(auto, unfolding(crate::specs::Ahead::FillsFile))]
pub fn fill_deals<
    W: Threads + Wait + Sync,
    R: Read,
    O: Write,
    E: Write,
    S: Solver + Sync,
    B: Bounds,
    H: Bounds + Send,
>(
    rt: &W,
    alloc: Global,
    wanted: Wanted,
    reader: &mut CountedDevice<R>,
    writer: &mut CountedDevice<O>,
    errors: &mut CountedDevice<E>,
    shows_progress: bool,
    solver: &S,
    table: &mut B,
    others: &mut [H],
    budget: Option<u64>,
    buffer: &mut [u8],
) -> Result<(), FileFault>
    requires { 0 < length buffer.old }
    // All was read, and what was written is the file with its lines, by the results of its deals, of which none were given up
    // where a budget of just this number was not spent; or a beginning of that, where a call failed or memory ran out.
    // Of each game that lacks a tag which is wanted a line was said, and else nothing but how far it is, where that is shown.
    ensures { Fills R.remaining O.contents (IsSpent budget) wanted shows_progress
        reader.old reader.new writer.old writer.new
        (sink_of E.contents errors.old) (sink_of E.contents errors.new) result }
{
    if others.is_empty() {
        fill_by(
            rt,
            alloc,
            wanted,
            reader,
            writer,
            errors,
            shows_progress,
            None,
            solver,
            table,
            budget,
            buffer,
        )
    } else {
        fill_with_help(
            rt,
            alloc,
            wanted,
            reader,
            writer,
            errors,
            shows_progress,
            solver,
            table,
            others,
            budget,
            buffer,
        )
    }
}

// The same with a thread for each of the others, by a word that its proof need not open.
fn fill_with_help<
    W: Threads + Wait + Sync,
    R: Read,
    O: Write,
    E: Write,
    S: Solver + Sync,
    B: Bounds,
    H: Bounds + Send,
>(
    rt: &W,
    alloc: Global,
    wanted: Wanted,
    reader: &mut CountedDevice<R>,
    writer: &mut CountedDevice<O>,
    errors: &mut CountedDevice<E>,
    shows_progress: bool,
    solver: &S,
    table: &mut B,
    others: &mut [H],
    budget: Option<u64>,
    buffer: &mut [u8],
) -> Result<(), FileFault>
    requires { 0 < length buffer.old }
    ensures { FillsFile R.remaining O.contents (IsSpent budget) wanted shows_progress
        reader.old reader.new writer.old writer.new
        (sink_of E.contents errors.old) (sink_of E.contents errors.new) result }
{
    let pool = Pool::new(alloc, budget);
    let (_, result) = join_mut(
        rt,
        // Where no thread can be had, this comes last, and leaves at once.
        &mut || help(rt, &pool, solver, others),
        &mut || -> Result<(), FileFault> {
            let result = fill_by(
                rt,
                alloc,
                wanted,
                reader,
                writer,
                errors,
                shows_progress,
                Some(&pool),
                solver,
                table,
                budget,
                buffer,
            );
            pool.close(rt);
            result
        },
    );
    result
}

// Searches ahead over each of these tables, in a thread of its own where one can be had.
fn help<W: Threads + Wait + Sync, S: Solver + Sync, H: Bounds + Send>(
    rt: &W,
    pool: &Pool,
    solver: &S,
    others: &mut [H],
) {
    let count = others.len();
    if count > 0 {
        for_each_mut(
            rt,
            others,
            count,
            &|_, other| search_ahead(rt, pool, solver, other),
        );
    }
}

// The same with the help of all that search ahead for the pool, if there is one.
#[tactic(auto, unfolding(crate::specs::Ahead::FillsFile))]
fn fill_by<W: Wait, R: Read, O: Write, E: Write, S: Solver, B: Bounds>(
    rt: &W,
    alloc: Global,
    wanted: Wanted,
    reader: &mut CountedDevice<R>,
    writer: &mut CountedDevice<O>,
    errors: &mut CountedDevice<E>,
    shows_progress: bool,
    pool: Option<&Pool>,
    solver: &S,
    table: &mut B,
    budget: Option<u64>,
    buffer: &mut [u8],
) -> Result<(), FileFault>
    requires { 0 < length buffer.old }
    ensures { FillsFile R.remaining O.contents (IsSpent budget) wanted shows_progress
        reader.old reader.new writer.old writer.new
        (sink_of E.contents errors.old) (sink_of E.contents errors.new) result }
{
    fill_within::<Brand, W, R, O, E, S, B>(
        rt,
        alloc,
        wanted,
        reader,
        writer,
        errors,
        shows_progress,
        pool,
        solver,
        table,
        budget,
        buffer,
    )
}

// The same, each search within a limit that has a name.
fn fill_within<N: LimitName, W: Wait, R: Read, O: Write, E: Write, S: Solver, B: Bounds>(
    rt: &W,
    alloc: Global,
    wanted: Wanted,
    reader: &mut CountedDevice<R>,
    writer: &mut CountedDevice<O>,
    errors: &mut CountedDevice<E>,
    shows_progress: bool,
    pool: Option<&Pool>,
    solver: &S,
    table: &mut B,
    budget: Option<u64>,
    buffer: &mut [u8],
) -> Result<(), FileFault>
    requires buffer { 0 < length buffer.old }
    requires named { budget ≡ N.positions }
    ensures { Fills R.remaining O.contents (IsSpent budget) wanted shows_progress
        reader.old reader.new writer.old writer.new
        (sink_of E.contents errors.old) (sink_of E.contents errors.new) result }
{
    let filled = fill_saying(
        rt,
        alloc,
        wanted,
        reader,
        writer,
        errors,
        shows_progress,
        pool,
        solver,
        table,
        Limit::<N>::new(budget),
        buffer,
    );
    clear_progress(shows_progress, errors);
    filled
}

// The same, where the last line of a terminal may be left.
fn fill_saying<W: Wait, R: Read, O: Write, E: Write, S: Solver, B: Bounds, N: LimitName>(
    rt: &W,
    alloc: Global,
    wanted: Wanted,
    reader: &mut CountedDevice<R>,
    writer: &mut CountedDevice<O>,
    errors: &mut CountedDevice<E>,
    shows_progress: bool,
    pool: Option<&Pool>,
    solver: &S,
    table: &mut B,
    limit: Limit<N>,
    buffer: &mut [u8],
) -> Result<(), FileFault>
    requires { 0 < length buffer.old }
    ensures { FillsSaying R.remaining O.contents (IsSpent N.positions) wanted shows_progress
        reader.old reader.new writer.old writer.new
        (sink_of E.contents errors.old) (sink_of E.contents errors.new) result }
{
    let mut analyst = DealAnalyst::new(rt, &pool, solver, table, errors, shows_progress, &limit);
    fill_by_analyst(alloc, wanted, reader, writer, &mut analyst, buffer)
}

// The same by an analyst, which keeps its references.
fn fill_by_analyst<
    'r,
    'p,
    't,
    'e,
    W: Wait,
    R: Read,
    O: Write,
    E: Write,
    S: Solver,
    B: Bounds,
    N: LimitName,
>(
    alloc: Global,
    wanted: Wanted,
    reader: &mut CountedDevice<R>,
    writer: &mut CountedDevice<O>,
    analyst: &mut DealAnalyst<'r, 'p, 't, 'e, W, S, B, E, N>,
    buffer: &mut [u8],
) -> Result<(), FileFault>
    requires { 0 < length buffer.old }
    ensures same_table { analyst.new.table.ghost_name ≡ analyst.old.table.ghost_name }
    ensures same_reference { analyst.new.errors.ghost_name ≡ analyst.old.errors.ghost_name }
    ensures fills { FillsSaying R.remaining O.contents (IsSpent N.positions) wanted analyst.old.shows_progress
        reader.old reader.new writer.old writer.new
        (sink_of E.contents analyst.old.errors.now) (sink_of E.contents analyst.new.errors.now) result }
{
    fill_file(alloc, wanted, reader, writer, analyst, buffer)
}
