//! The value of a position.
ghost use Rattle.std.specs.Prelude.{◌≡◌, ◌-◌, ◌<◌, ◌≤◌, true, false, IfOk, OnOk, IsOk};
ghost use Rattle.dd_cards.specs.Sides.{side_of};
ghost use Rattle.dd_play.specs.Board.{mover, tricks_left};
ghost use Rattle.dd_play.specs.Reach.{reach, TakesBy};
ghost use Rattle.dd_play.specs.Won.{won};
ghost use Rattle.dd_bounds.specs.Budgets.{EndsAs, IsEndless};

use crate::claim::Claim;
use crate::cutoffs::window;
use crate::ticking::go_on;
use crate::zero_window::zero_window_in_order;
use dd_bounds::{Bounds, Halt, Meter};
use dd_cards::Side;
use dd_order::{Order, guess};
use dd_play::Position;

/// The tricks, 0 to 13, that the mover's side takes from here on, the current trick included, when both sides play as
/// well as can be: the greatest score of its cards. Errors as at `score`.
pub fn value<B: Bounds, M: Meter>(
    position: &Position,
    table: &mut B,
    meter: &mut M,
) -> Result<u8, Halt>
    ensures value { IfOk result
        (λ tricks. tricks ≡ won (side_of (mover position.now)) position.now) }
    ensures bound { IfOk result (λ tricks. tricks ≤ 13) }
    ensures ticked { OnOk result (M.ticked meter.old meter.new) }
    ensures ends { EndsAs (M.says meter.new) result }
    ensures limit { M.limit meter.new ≡ M.limit meter.old }
    // It has an answer where the meter can say nothing else than to go on.
    ensures answers { IsEndless M.says → IsOk result }
{
    value_from_guess(position, guess(position), table, meter)
}

/// The same, the first question being whether North and South take `first_guess` of the tricks: it takes the fewer questions the
/// nearer that is to what they do.
pub fn value_from_guess<B: Bounds, M: Meter>(
    position: &Position,
    first_guess: u8,
    table: &mut B,
    meter: &mut M,
) -> Result<u8, Halt>
    ensures value { IfOk result
        (λ tricks. tricks ≡ won (side_of (mover position.now)) position.now) }
    ensures bound { IfOk result (λ tricks. tricks ≤ 13) }
    ensures ticked { OnOk result (M.ticked meter.old meter.new) }
    ensures ends { EndsAs (M.says meter.new) result }
    ensures limit { M.limit meter.new ≡ M.limit meter.old }
    ensures answers { IsEndless M.says → IsOk result }
{
    let found = north_souths_tricks(position, first_guess, Order::Best, table, meter)?;
    if position.mover().is_north_south() {
        Ok(found.tricks)
    } else {
        Ok(position.tricks_left() - found.tricks)
    }
}

/// The tricks that North and South take from here on, no more and no less, and the cards that both rest on. It ticks first,
/// and asks first whether they take `first_guess` tricks. The cards of the position itself are tried in this order.
pub(crate) fn north_souths_tricks<B: Bounds, M: Meter>(
    position: &Position,
    first_guess: u8,
    order: Order,
    table: &mut B,
    meter: &mut M,
) -> Result<Claim, Halt>
    ensures theirs { IfOk result
        (λ found. TakesBy (reach found.cards) Side.NorthSouth position.now found.tricks) }
    ensures others { IfOk result
        (λ found. TakesBy (reach found.cards) Side.EastWest position.now
        (tricks_left position.now - found.tricks)) }
    ensures within { IfOk result (λ found. found.tricks ≤ tricks_left position.now) }
    ensures ticked { OnOk result (M.ticked meter.old meter.new) }
    ensures ends { EndsAs (M.says meter.new) result }
    ensures limit { M.limit meter.new ≡ M.limit meter.old }
{
    go_on(meter)?;
    table.begin(position);
    let left = position.tricks_left();
    let window = window(position, table);
    let mut ours = window.0;
    let mut theirs = window.1;
    let mut need = first_guess;
    'window: while ours.tricks + theirs.tricks < left {
        need = next_question(need, ours.tricks, left - theirs.tricks);
        let answer = zero_window_in_order(position, order, need, table, meter)?;
        if answer.is_yes() {
            ours = Claim {
                tricks: need,
                cards: answer.cards(),
            };
        } else {
            theirs = Claim {
                tricks: left + 1 - need,
                cards: answer.cards(),
            };
        }
    }
    Ok(Claim {
        tricks: ours.tricks,
        cards: ours.cards.union(theirs.cards),
    })
}

// The number of tricks to ask for where North and South take `lo` to `hi`: from the last one a step towards the open end.
fn next_question(last: u8, lo: u8, hi: u8) -> u8
    requires { lo < hi }
    ensures { (lo < result) × (result ≤ hi) }
{
    last.max(lo + 1).min(hi)
}
