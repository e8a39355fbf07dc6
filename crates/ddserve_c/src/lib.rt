//! The line tool for callers in C: a solver is opened, answers lines, and is closed. Many solvers may answer at once, none of them
//! shared.
#![tactic(auto)]

ghost use Rattle.std.specs.Prelude.{◌≡◌, true, false};
ghost use Rattle.ddserve_c.specs.Calls.{AnswersLine};

mod answering;
mod box_parts;
mod held_cache;
mod solver;
mod solver_cache;

use answering::{NOT_OPEN, answer_line};
use solver::Solver;
use solver_cache::SolverCache;
use std::alloc::Global;

/// Opens a solver. Is there memory for it? One that is open is closed before.
#[unsafe(no_mangle)]
pub extern "C" fn ddserve_c_open(alloc: Global, solver: &mut Solver) -> bool
    ensures { solver.new.is_open ≡ result }
{
    drop(solver.take(alloc));
    let Ok(cache) = SolverCache::new(alloc) else {
        return false;
    };
    let Ok(cache) = Box::new(alloc, cache) else {
        return false;
    };
    solver.put(alloc, cache);
    true
}

/// Answers a line without a line feed: writes its reply into the buffer, as a text that ends with NUL, and returns its length.
/// Or it returns one of the numbers below 0, and the buffer is as it was. A solver that is open stays open.
#[unsafe(no_mangle)]
pub extern "C" fn ddserve_c_line(
    alloc: Global,
    solver: &mut Solver,
    line: &[u8],
    buffer: &mut [u8],
) -> i64
    ensures kept { solver.new.is_open ≡ solver.old.is_open }
    ensures answered { solver.old.is_open ≡ true →
        AnswersLine line.now buffer.old buffer.new result }
    ensures closed { solver.old.is_open ≡ false →
        (result ≡ NOT_OPEN) × (buffer.new ≡ buffer.old) }
{
    let Some(mut cache) = solver.take(alloc) else {
        return NOT_OPEN;
    };
    let result = answer_line(alloc, &mut cache, line, buffer);
    solver.put(alloc, cache);
    result
}

/// Closes a solver and frees its memory. One that is not open stays so.
#[unsafe(no_mangle)]
pub extern "C" fn ddserve_c_close(alloc: Global, solver: &mut Solver)
    ensures { solver.new.is_open ≡ false }
{
    drop(solver.take(alloc));
}
