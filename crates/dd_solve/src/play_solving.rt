//! The numbers of a play's trace, from the last one back.
ghost use Rattle.std.specs.Prelude.{◌≡◌, ◌+◌, ◌<◌, ◌≤◌, IfOk, IfNone, IfSome, IsOk, None, OnOk, length};
ghost use Rattle.dd_bounds.specs.Budgets.{EndsAs, IsEndless};
ghost use Rattle.dd_bounds.specs.Spent.{IsSpent, IsTicked};
ghost use Rattle.dd_cards.specs.Sides.{is_side, side_of};
ghost use Rattle.dd_play.specs.Board.{IsBoard, mover, tricks_left};
ghost use Rattle.dd_play.specs.Won.{won};
ghost use Rattle.dd_request.specs.Plays.{play_trace, position_tricks, tricks_after};

use arrayvec::ArrayVec;
use dd_bounds::{Bounds, Budget, Endless, Halt, Meter};
use dd_cards::Side;
use dd_play::Position;
use dd_request::{PlayPart, PlayRequest, SolvedPlay, Trace};
use dd_search::{value, value_at_least};

/// Finds the trace of a play. It goes from the last card back, so that each search finds what the one before it learned. The
/// budget is the most positions that the search for one number visits, and `None` lets each search go on to its end. `None`
/// where a search spent its budget. It takes no memory.
pub fn solve_play<B: Bounds>(
    request: PlayRequest,
    table: &mut B,
    budget: Option<u64>,
) -> Option<SolvedPlay>
    ensures solved { IfSome result (λ solved. solved ≡ play_trace request) }
    ensures ticked { IfSome result (λ _. IsTicked budget) }
    ensures spent { IfNone result (IsSpent budget) }
{
    let mut count = request.cards().len();
    let mut tricks = number_within(&request, count, None, table, budget)?;
    let mut trace = ArrayVec::new();
    trace.push(tricks);
    'cards: while count > 0 {
        count -= 1;
        tricks = number_within(&request, count, Some(tricks), table, budget)?;
        trace.insert(0, tricks);
    }
    Some(SolvedPlay::of(request, Trace::of(trace)))
}

/// Finds the tricks that this side takes from a position of a play on. It takes no memory. An error says why the search ended
/// without a result; what was noted by then holds.
pub fn solve_play_part<B: Bounds, M: Meter>(
    position: Position,
    side: Side,
    table: &mut B,
    meter: &mut M,
) -> Result<PlayPart, Halt>
    ensures solved { IfOk result (λ solved. solved ≡ position_tricks position side) }
    ensures ticked { OnOk result (M.ticked meter.old meter.new) }
    ensures ends { EndsAs (M.says meter.new) result }
    ensures limit { M.limit meter.new ≡ M.limit meter.old }
    // It has a result where the meter can say nothing else than to go on.
    ensures answers { IsEndless M.says → IsOk result }
{
    let value = value(&position, table, meter)?;
    let tricks = tricks_of_side(&position, side, value);
    Ok(PlayPart::of(position, side, tricks))
}

// The tricks that this side takes from the position on, where the side to play takes so many.
fn tricks_of_side(position: &Position, side: Side, value: u8) -> u8
    requires { value ≡ won (side_of (mover position.now)) position.now }
    ensures tricks { result ≡ won side position.now }
    ensures bound { result ≤ tricks_left position.now }
{
    if plays(position, side) {
        value
    } else {
        position.tricks_left() - value
    }
}

// Is this side to play?
fn plays(position: &Position, side: Side) -> bool
    ensures turn { result ≡ is_side side (mover position.now) }
    ensures board { IsBoard position.now }
{
    position.mover().side() == side
}

// A number of the trace. `None` where the search spent its budget.
fn number_within<B: Bounds>(
    request: &PlayRequest,
    count: usize,
    next: Option<u8>,
    table: &mut B,
    budget: Option<u64>,
) -> Option<u8>
    requires count { count ≤ length request.now.cards }
    requires next { IfSome next (λ next. (count < length request.now.cards)
        × (next ≡ tricks_after request.now (count
        + 1))) }
    ensures number { IfSome result (λ tricks. tricks ≡ tricks_after request.now count) }
    ensures ticked { next ≡ None → IfSome result (λ _. IsTicked budget) }
    ensures spent { IfNone result (IsSpent budget) }
{
    let found = match budget {
        Some(limit) => number_after(request, count, next, table, &mut Budget::new(limit)),
        None => number_after(request, count, next, table, &mut Endless),
    };
    match (found, budget) {
        (Ok(tricks), _) => Some(tricks),
        (Err(_), Some(_)) => None,
        (Err(_), None) => unreachable!(),
    }
}

// The number of the trace after the first `count` cards, where `next` is the number after one card more, if it is known. A
// card does no better for its side than the best one, so then one question upwards mostly settles it, and where there was
// no choice none is needed.
fn number_after<B: Bounds, M: Meter>(
    request: &PlayRequest,
    count: usize,
    next: Option<u8>,
    table: &mut B,
    meter: &mut M,
) -> Result<u8, Halt>
    requires count { count ≤ length request.now.cards }
    requires next { IfSome next (λ next. (count < length request.now.cards)
        × (next ≡ tricks_after request.now (count
        + 1))) }
    ensures number { IfOk result (λ tricks. tricks ≡ tricks_after request.now count) }
    ensures bound { IfOk result (λ tricks. tricks ≤ 13) }
    ensures ticked { next ≡ None → OnOk result (M.ticked meter.old meter.new) }
    ensures ends { EndsAs (M.says meter.new) result }
    ensures limit { M.limit meter.new ≡ M.limit meter.old }
    ensures answers { IsEndless M.says → IsOk result }
{
    let (position, won) = request.after(count);
    let left = position.tricks_left();
    let declarer_plays = request.declarer_plays(&position);
    let value = match next {
        None => value(&position, table, meter)?,
        Some(next) => {
            if position.choices().len() == 1 {
                return Ok(next);
            }
            let rest = next - won;
            let least = if declarer_plays { rest } else { left - rest };
            value_at_least(&position, least, table, meter)?
        }
    };
    let to_come = if declarer_plays { value } else { left - value };
    Ok(won + to_come)
}
