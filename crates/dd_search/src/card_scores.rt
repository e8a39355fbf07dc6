//! The score of a card.
ghost use Rattle.std.specs.Prelude.{◌≡◌, ◌≤◌, true, IfOk, OnOk, IsOk};
ghost use Rattle.dd_cards.specs.Cards.{has_card};
ghost use Rattle.dd_play.specs.Play.{legal};
ghost use Rattle.dd_play.specs.Value.{score};
ghost use Rattle.dd_bounds.specs.Budgets.{EndsAs, IsEndless};

use crate::card_reaches::reaches;
use crate::position_value::north_souths_tricks;
use crate::zero_window::trick_of;
use dd_bounds::{Bounds, Halt, Meter};
use dd_cards::Card;
use dd_order::{Order, guess};
use dd_play::Position;

/// The tricks, 0 to 13, that the mover's side takes from here on, the current trick included, when it plays this legal
/// card and both sides then play as well as can be (DDS: the score of a card). An error says why the search ended
/// without an answer; what was noted by then holds.
pub fn score<B: Bounds, M: Meter>(
    position: &Position,
    card: Card,
    table: &mut B,
    meter: &mut M,
) -> Result<u8, Halt>
    requires { has_card (legal position.now) card ≡ true }
    ensures value { IfOk result (λ tricks. tricks ≡ score position.now card) }
    ensures bound { IfOk result (λ tricks. tricks ≤ 13) }
    ensures ticked { OnOk result (M.ticked meter.old meter.new) }
    ensures ends { EndsAs (M.says meter.new) result }
    ensures limit { M.limit meter.new ≡ M.limit meter.old }
    // It has an answer where the meter can say nothing else than to go on.
    ensures answers { IsEndless M.says → IsOk result }
{
    let (next, winner) = position.play(card);
    let found = north_souths_tricks(&next, guess(&next), Order::Best, table, meter)?;
    let tricks = found.tricks + trick_of(winner);
    if position.mover().is_north_south() {
        Ok(tricks)
    } else {
        Ok(position.tricks_left() - tricks)
    }
}

/// The score of a legal card that scores at most `most`, by questions from there down. Errors as at `score`.
pub fn score_up_to<B: Bounds, M: Meter>(
    position: &Position,
    card: Card,
    most: u8,
    table: &mut B,
    meter: &mut M,
) -> Result<u8, Halt>
    requires legal { has_card (legal position.now) card ≡ true }
    requires most { score position.now card ≤ most }
    ensures value { IfOk result (λ tricks. tricks ≡ score position.now card) }
    ensures ends { EndsAs (M.says meter.new) result }
    ensures limit { M.limit meter.new ≡ M.limit meter.old }
{
    let mut tricks = most;
    'tricks: while tricks > 0 {
        if reaches(position, card, tricks, table, meter)? {
            break;
        }
        tricks -= 1;
    }
    Ok(tricks)
}
