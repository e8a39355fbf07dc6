//! The reply to a line, by a solver.
ghost use Rattle.std.specs.Prelude.{◌≤◌};
ghost use Rattle.arrayvec.specs.ArrayString.{array_string_len};
ghost use Rattle.dd_bounds.specs.Spent.{IsSpent};
ghost use Rattle.dd_wire.specs.Explained.{IsExplained};
ghost use Rattle.dd_wire.specs.LineReplies.{IsReply};

use crate::searcher::Searcher;
use dd_bounds::Bounds;
use dd_lines::{LONGEST_REPLY, ReplyText};
use dd_request::Solver;
use dd_wire::put_reply;
use std::alloc::Global;

/// The reply to a line of any length, without a line feed at its end.
///
/// The budget is the most positions that the search for the answer visits, for a table the search for each of its
/// twenty results, and for a play the search for each number; `None` lets it go on to its end. A line whose search spends
/// it is told so in place of an answer.
pub fn reply_to_line<S: Solver, B: Bounds>(
    alloc: Global,
    line: &[u8],
    solver: &S,
    table: &mut B,
    budget: Option<u64>,
) -> ReplyText
    ensures text { IsReply (IsSpent budget) line.now result.bytes }
    ensures bound { array_string_len result ≤ LONGEST_REPLY }
{
    let mut reply = ReplyText::new();
    put_reply_to_line(&mut reply, alloc, line, solver, table, budget);
    reply
}

/// The same reply in place of another text.
pub fn put_reply_to_line<S: Solver, B: Bounds>(
    reply: &mut ReplyText,
    alloc: Global,
    line: &[u8],
    solver: &S,
    table: &mut B,
    budget: Option<u64>,
)
    ensures text { IsReply (IsSpent budget) line.now reply.new.bytes }
    ensures bound { array_string_len reply.new ≤ LONGEST_REPLY }
{
    let mut searcher = Searcher::new(solver, table, budget);
    put_reply(reply, alloc, line, &mut searcher);
}

/// The reply to a line of any length, without a line feed at its end, as `reply_to_line` has it, but that the line may have
/// an id, which the reply tells again, and that a fault has its field and words beside its number.
pub fn explained_reply<S: Solver, B: Bounds>(
    alloc: Global,
    line: &[u8],
    solver: &S,
    table: &mut B,
    budget: Option<u64>,
) -> ReplyText
    ensures text { IsExplained (IsSpent budget) line.now result.bytes }
    ensures bound { array_string_len result ≤ LONGEST_REPLY }
{
    let mut searcher = Searcher::new(solver, table, budget);
    dd_wire::explained_reply(alloc, line, &mut searcher)
}
