//! The value at the start of a trick, with the depths that it rests on.
ghost use Rattle.std.specs.Prelude.{◌≡◌, ◌≤◌, IfOk, OnOk, IsOk};
ghost use Rattle.dd_cards.specs.declared.suit.Suit.{Suit as SuitOf};
ghost use Rattle.dd_play.specs.Board.{Board, IsBoard};
ghost use Rattle.dd_play.specs.Covers.{count_of};
ghost use Rattle.dd_play.specs.Value.{leaders_tricks};
ghost use Rattle.dd_rank.specs.Depths.{all_cards, depth_in, Covers};
ghost use Rattle.dd_bounds.specs.Budgets.{EndsAs, IsEndless};

use crate::position_value::north_souths_tricks;
use dd_bounds::{Bounds, Halt, Meter};
use dd_order::{Order, guess};
use dd_play::TrickStart;
use dd_rank::Depths;

/// The tricks, 0 to 13, that the leader's side takes from here on when both sides play as well as can be, and depths such
/// that each position that this one covers at them has the same value. Errors as at `score`.
pub fn start_value<B: Bounds, M: Meter>(
    start: &TrickStart,
    table: &mut B,
    meter: &mut M,
) -> Result<(u8, Depths), Halt>
    ensures value { IfOk result (λ found. found.0 ≡ leaders_tricks start.now) }
    ensures depths { IfOk result (λ found. (q : Board) → IsBoard q
        → Covers start.now (depth_in found.1) q → leaders_tricks q ≡ leaders_tricks start.now) }
    ensures within { IfOk result (λ found. (u : SuitOf)
        → depth_in found.1 u ≤ count_of u (all_cards start.now)) }
    ensures ticked { OnOk result (M.ticked meter.old meter.new) }
    ensures ends { EndsAs (M.says meter.new) result }
    ensures limit { M.limit meter.new ≡ M.limit meter.old }
    // It has an answer where the meter can say nothing else than to go on.
    ensures answers { IsEndless M.says → IsOk result }
{
    start_value_in_order(start, guess(start.position()), Order::Best, table, meter)
}

/// The same, the first question being whether North and South take `first_guess` of the tricks: it takes the fewer questions
/// the nearer that is to what they do.
pub fn start_value_from_guess<B: Bounds, M: Meter>(
    start: &TrickStart,
    first_guess: u8,
    table: &mut B,
    meter: &mut M,
) -> Result<(u8, Depths), Halt>
    ensures value { IfOk result (λ found. found.0 ≡ leaders_tricks start.now) }
    ensures depths { IfOk result (λ found. (q : Board) → IsBoard q
        → Covers start.now (depth_in found.1) q → leaders_tricks q ≡ leaders_tricks start.now) }
    ensures within { IfOk result (λ found. (u : SuitOf)
        → depth_in found.1 u ≤ count_of u (all_cards start.now)) }
    ensures ticked { OnOk result (M.ticked meter.old meter.new) }
    ensures ends { EndsAs (M.says meter.new) result }
    ensures limit { M.limit meter.new ≡ M.limit meter.old }
    // It has an answer where the meter can say nothing else than to go on.
    ensures answers { IsEndless M.says → IsOk result }
{
    start_value_in_order(start, first_guess, Order::Best, table, meter)
}

/// The same, where the first of the best cards is to be found next, by a question of each card as they are listed: it tries
/// them in that order itself, and so leaves little to these questions. Errors as at `score`.
pub fn start_value_for_first<B: Bounds, M: Meter>(
    start: &TrickStart,
    table: &mut B,
    meter: &mut M,
) -> Result<(u8, Depths), Halt>
    ensures value { IfOk result (λ found. found.0 ≡ leaders_tricks start.now) }
    ensures depths { IfOk result (λ found. (q : Board) → IsBoard q
        → Covers start.now (depth_in found.1) q → leaders_tricks q ≡ leaders_tricks start.now) }
    ensures within { IfOk result (λ found. (u : SuitOf)
        → depth_in found.1 u ≤ count_of u (all_cards start.now)) }
    ensures ticked { OnOk result (M.ticked meter.old meter.new) }
    ensures ends { EndsAs (M.says meter.new) result }
    ensures limit { M.limit meter.new ≡ M.limit meter.old }
    // It has an answer where the meter can say nothing else than to go on.
    ensures answers { IsEndless M.says → IsOk result }
{
    start_value_in_order(start, guess(start.position()), Order::Listed, table, meter)
}

// The value of a start, whose own cards are tried in this order, from this guess on.
fn start_value_in_order<B: Bounds, M: Meter>(
    start: &TrickStart,
    first_guess: u8,
    order: Order,
    table: &mut B,
    meter: &mut M,
) -> Result<(u8, Depths), Halt>
    ensures value { IfOk result (λ found. found.0 ≡ leaders_tricks start.now) }
    ensures depths { IfOk result (λ found. (q : Board) → IsBoard q
        → Covers start.now (depth_in found.1) q → leaders_tricks q ≡ leaders_tricks start.now) }
    ensures within { IfOk result (λ found. (u : SuitOf)
        → depth_in found.1 u ≤ count_of u (all_cards start.now)) }
    ensures ticked { OnOk result (M.ticked meter.old meter.new) }
    ensures ends { EndsAs (M.says meter.new) result }
    ensures limit { M.limit meter.new ≡ M.limit meter.old }
    // It has an answer where the meter can say nothing else than to go on.
    ensures answers { IsEndless M.says → IsOk result }
{
    let position = start.position();
    let found = north_souths_tricks(position, first_guess, order, table, meter)?;
    let depths = Depths::of_cards(start, found.cards);
    if position.first().is_north_south() {
        Ok((found.tricks, depths))
    } else {
        Ok((position.tricks_left() - found.tricks, depths))
    }
}
