//! Whether a card wins so many tricks.
ghost use Rattle.std.specs.Prelude.{◌≡◌, true, IfOk, IsOk, nat_le};
ghost use Rattle.dd_cards.specs.Cards.{has_card};
ghost use Rattle.dd_play.specs.Play.{legal};
ghost use Rattle.dd_play.specs.Value.{score};
ghost use Rattle.dd_bounds.specs.Budgets.{EndsAs, IsEndless};

use crate::zero_window::{answer_by_counting, trick_of, zero_window};
use dd_bounds::{Bounds, Halt, Meter};
use dd_cards::Card;
use dd_play::Position;

/// Is the score of this legal card at least `tricks`? It is one question of the position after the card, and none where
/// counting settles it, as 0 tricks or more than are left. Errors as at `score`.
pub fn reaches<B: Bounds, M: Meter>(
    position: &Position,
    card: Card,
    tricks: u8,
    table: &mut B,
    meter: &mut M,
) -> Result<bool, Halt>
    requires { has_card (legal position.now) card ≡ true }
    ensures answer { IfOk result (λ yes. yes ≡ nat_le tricks (score position.now card)) }
    ensures ends { EndsAs (M.says meter.new) result }
    ensures limit { M.limit meter.new ≡ M.limit meter.old }
    // It has an answer where the meter can say nothing else than to go on.
    ensures answers { IsEndless M.says → IsOk result }
{
    table.begin(position);
    let north_south = position.mover().is_north_south();
    // East and West take so many where North and South do not take one more than the rest.
    let need = if north_south {
        tricks
    } else {
        (position.tricks_left() + 1).saturating_sub(tricks)
    };
    let (next, winner) = position.play(card);
    let rest = need.saturating_sub(trick_of(winner));
    let yes = match answer_by_counting(&next, rest) {
        Some(yes) => yes,
        None => zero_window(&next, rest, table, meter)?.is_yes(),
    };
    Ok(yes == north_south)
}
