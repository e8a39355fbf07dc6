//! The value of a position of which some tricks are known.
ghost use Rattle.std.specs.Prelude.{◌≡◌, ◌≤◌, IfOk, IsOk, nat_le};
ghost use Rattle.dd_cards.specs.Sides.{side_of};
ghost use Rattle.dd_play.specs.Board.{mover};
ghost use Rattle.dd_play.specs.Won.{won};
ghost use Rattle.dd_bounds.specs.Budgets.{EndsAs, IsEndless};

use crate::zero_window::{answer_by_counting, zero_window};
use dd_bounds::{Bounds, Halt, Meter};
use dd_play::Position;

/// The tricks, 0 to 13, that the mover's side takes from here on, the current trick included, when both sides play as
/// well as can be, where at least `least` are known: by questions from there up. Errors as at `score`.
pub fn value_at_least<B: Bounds, M: Meter>(
    position: &Position,
    least: u8,
    table: &mut B,
    meter: &mut M,
) -> Result<u8, Halt>
    requires { least ≤ won (side_of (mover position.now)) position.now }
    ensures value { IfOk result
        (λ tricks. tricks ≡ won (side_of (mover position.now)) position.now) }
    ensures bound { IfOk result (λ tricks. tricks ≤ 13) }
    ensures ends { EndsAs (M.says meter.new) result }
    ensures limit { M.limit meter.new ≡ M.limit meter.old }
    // It has an answer where the meter can say nothing else than to go on.
    ensures answers { IsEndless M.says → IsOk result }
{
    table.begin(position);
    let left = position.tricks_left();
    let mut tricks = least;
    'tricks: while tricks < left {
        let more = takes(position, tricks + 1, table, meter)?;
        if !more {
            return Ok(tricks);
        }
        tricks += 1;
    }
    Ok(tricks)
}

// Does the mover's side take at least `tricks` from here on?
fn takes<B: Bounds, M: Meter>(
    position: &Position,
    tricks: u8,
    table: &mut B,
    meter: &mut M,
) -> Result<bool, Halt>
    ensures answer { IfOk result
        (λ yes. yes ≡ nat_le tricks (won (side_of (mover position.now)) position.now)) }
    ensures ends { EndsAs (M.says meter.new) result }
    ensures limit { M.limit meter.new ≡ M.limit meter.old }
{
    let north_south = position.mover().is_north_south();
    // East and West take so many where North and South do not take one more than the rest.
    let need = if north_south {
        tricks
    } else {
        (position.tricks_left() + 1).saturating_sub(tricks)
    };
    let yes = match answer_by_counting(position, need) {
        Some(yes) => yes,
        None => zero_window(position, need, table, meter)?.is_yes(),
    };
    Ok(yes == north_south)
}
