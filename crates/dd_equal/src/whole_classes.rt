//! Whole classes of equal cards among the cards that a claim rests on.
ghost use Rattle.std.specs.Prelude.{◌≡◌, true, length};
ghost use Rattle.dd_cards.specs.PlayingCard.{PlayingCard};
ghost use Rattle.dd_cards.specs.Cards.{has_card};
ghost use Rattle.dd_play.specs.Reach.{reach};
ghost use Rattle.dd_equal.specs.EqualCards.{IsWhole};

use crate::highest::others_at;
use dd_cards::Hand;
use dd_play::Position;

/// These cards, and the lower cards of each class that they reach in part: what a claim rests on where each class of the mover
/// had to be met. So many cards are known to lie on the trick.
#[inline]
pub fn whole_at(position: &Position, played: u8, reached: Hand) -> Hand
    requires { length position.now.trick ≡ played }
    ensures more { (c : PlayingCard) → has_card reached c ≡ true → has_card result c ≡ true }
    ensures whole { IsWhole (reach result) position.now }
{
    let others = others_at(position, played);
    // A card below one that is reached is of its class where no card of another hand or the trick lies between, nor is itself
    // the one that is reached.
    let lower = position
        .choices_at(played)
        .headed(reached.difference(others), others);
    reached.union(lower)
}
