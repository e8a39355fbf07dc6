//! What lines of the usual forms ask.
ghost use Rattle.std.specs.Prelude.{◌≡◌, ◌<◌, ◌≤◌, ℕ, List, Result, length, map, true, Some, None, IfSome, IsSome};
ghost use Rattle.dd_lines.specs.Line.{longest_line};
ghost use Rattle.dd_request.specs.Questions.{Question};
ghost use Rattle.dd_wire.specs.Lines.{Means, MeansMembers};
ghost use Rattle.dd_wire.specs.Reading.{ArePlayed, fields_of as solve_of, played_in};
ghost use Rattle.dd_wire.specs.Requests.{MeansFields, are_cards, asked_as, pair_of_card, wait_at};
ghost use Rattle.dd_wire.specs.UsualLines.{AsksCards, AsksPar, IsSolve, first_of, members_of, rows_list, row_list, cards_or_none, wait_of};

use crate::fault::Fault;
use crate::line_asked::LineAsked;
use crate::on_trick::OnTrick;
use crate::par_reader::{FirstCode, Given, ParFields, par_asked};
use crate::request_reader::{SolveFields, request_of};
use crate::target_reader::{TargetFields, target_asked};
use crate::usual_reader::{Fields, Row, Rows, Task, absent, usual_fields};
use crate::wish::LONGEST_WAIT;
use dd_request::Asked;
use std::str::from_utf8;

/// What a line of a usual form asks, or its first fault; None where it is of another form.
pub(crate) fn usual_asked(line: &[u8]) -> Option<Result<LineAsked, Fault>>
    ensures text { IfSome result (λ _. 0 < length line.now) }
    ensures means { IfSome result (λ meaning. length line.now ≤ longest_line → Means line.now meaning) }
{
    let fields = usual_fields(line)?;
    from_utf8(line).ok()?;
    asked_of(fields)
}

// What they ask where they are those of one form, and no others.
fn asked_of(fields: Fields<'_>) -> Option<Result<LineAsked, Fault>>
    ensures { IfSome result (λ meaning. IsSome (wait_at (members_of fields.entry))
        × MeansMembers (members_of fields.entry) meaning) }
{
    match fields.task? {
        Task::Par => Some(par_asked(fields_of_par(&fields)?)),
        Task::Solve => Some(cards_asked(position_asked(fields)?)),
        Task::Fetch => None,
    }
}

// The question of cards, as the line tool has it.
fn cards_asked(asked: Result<Asked, Fault>) -> Result<LineAsked, Fault>
    ensures { result ≡ asked_as LineAsked.Cards asked }
{
    Ok(LineAsked::Cards(asked?))
}

// ---- Par of given results.

/// The fields of a request for par of given results, where they are there and no others are.
pub(crate) fn fields_of_par<'a>(fields: &Fields<'a>) -> Option<ParFields<'a>>
    requires { fields.now.task ≡ Some Task.Par }
    ensures { IfSome result (AsksPar (members_of fields.now)) }
{
    absent(&fields.deal)?;
    absent(&fields.first)?;
    absent(&fields.job)?;
    absent(&fields.played)?;
    absent(&fields.solutions)?;
    absent(&fields.target)?;
    absent(&fields.trump)?;
    absent(&fields.wait)?;
    let first = first_code(fields.dealer, fields.side)?;
    let rows = fields.table?;
    let vulnerable = fields.vulnerable?;
    Some(ParFields {
        given: Given::Results(lists_of(&rows)),
        first,
        vulnerable,
    })
}

// Who calls first, where just one of the two stands there.
fn first_code(dealer: Option<u64>, side: Option<u64>) -> Option<FirstCode>
    ensures { result ≡ first_of dealer side }
{
    match (dealer, side) {
        (Some(code), None) => Some(FirstCode::Dealer(code)),
        (None, Some(code)) => Some(FirstCode::Side(code)),
        _ => None,
    }
}

fn lists_of(rows: &Rows) -> [[u64; 4]; 5]
    ensures { result ≡ rows_list rows.now }
{
    [
        list_of(&rows.spades),
        list_of(&rows.hearts),
        list_of(&rows.diamonds),
        list_of(&rows.clubs),
        list_of(&rows.notrump),
    ]
}

fn list_of(row: &Row) -> [u64; 4]
    ensures { result ≡ row_list row.now }
{
    [row.north, row.east, row.south, row.west]
}

// ---- Cards of a position.

/// What is asked of the cards of a position, with a target or without, or the first fault; None where a field is missing or
/// another one is there.
pub(crate) fn position_asked(fields: Fields<'_>) -> Option<Result<Asked, Fault>>
    requires { fields.task ≡ Some Task.Solve }
    ensures { IfSome result (AsksCards (members_of fields.entry) (wait_of fields.entry.wait)) }
{
    let target = fields.target;
    let solve = fields_of_solve(fields)?;
    match target {
        None => Some(solve_asked(&solve)),
        Some(target) => Some(target_asked(&TargetFields { solve, target })),
    }
}

fn fields_of_solve(fields: Fields<'_>) -> Option<SolveFields<'_>>
    requires { fields.task ≡ Some Task.Solve }
    ensures { IfSome result (IsSolve (members_of fields.entry) fields.entry.target
        (wait_of fields.entry.wait)) }
{
    absent(&fields.dealer)?;
    absent(&fields.job)?;
    absent(&fields.side)?;
    absent(&fields.table)?;
    absent(&fields.vulnerable)?;
    let deal = fields.deal?;
    let trump = fields.trump?;
    let first = fields.first?;
    let solutions = fields.solutions?;
    let trick = trick_of(fields.played);
    Some(SolveFields {
        deal,
        trump,
        first,
        played: Some(trick.cards),
        solutions,
    })
}

// The cards on the trick, which may be left out.
fn trick_of(found: Option<OnTrick>) -> OnTrick
    ensures items { result.cards.items ≡ cards_or_none found }
    ensures valid { are_cards (map pair_of_card result.cards.items) ≡ true }
{
    match found {
        Some(trick) => trick,
        None => OnTrick::none(),
    }
}

// What the fields ask, or their first fault.
fn solve_asked(fields: &SolveFields<'_>) -> Result<Asked, Fault>
    ensures { (pairs : List (ℕ × ℕ)) → ArePlayed (played_in fields.now) pairs →
        (asked : Result Question Fault) × MeansFields (solve_of fields.now pairs) asked
        × (result ≡ asked_as Asked.Solve asked) }
{
    let request = request_of(fields)?;
    Ok(Asked::Solve(request))
}

/// How long the reply may wait, which may be left out.
pub(crate) fn wait_of(wait: Option<u64>) -> u64
    ensures { result ≡ wait_of wait }
{
    match wait {
        None => 0,
        Some(count) => count.min(LONGEST_WAIT),
    }
}
