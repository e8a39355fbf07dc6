//! The highest card of each class of equal cards, for one that needs no more of it.
ghost use Rattle.std.specs.Prelude.{◌≡◌, length};
ghost use Rattle.dd_cards.specs.PlayingCard.{PlayingCard};
ghost use Rattle.dd_cards.specs.Cards.{has_card};
ghost use Rattle.dd_equal.specs.EqualCards.{other_cards, tops};

use dd_cards::Hand;
use dd_play::Position;

/// The highest card of each class of the cards that may be played, where so many cards are known to lie on the trick.
#[inline(always)]
pub fn tops_at(position: &Position, played: u8) -> Hand
    requires { length position.now.trick ≡ played }
    ensures { result ≡ tops position.now }
{
    position
        .choices_at(played)
        .heads(others_at(position, played))
}

/// The cards in the other hands and on the trick, where so many are known to lie on it.
// All that are in play but the mover's: the trick's own cards are looked at nowhere.
#[inline(always)]
pub(crate) fn others_at(position: &Position, played: u8) -> Hand
    requires { length position.now.trick ≡ played }
    ensures { (c : PlayingCard) → has_card result c ≡ has_card (other_cards position.now) c }
{
    let own = position.hands().hand(position.mover_at(played));
    position.in_play().difference(own)
}
