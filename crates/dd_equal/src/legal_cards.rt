//! The legal cards of a position as a list.
ghost use Rattle.std.specs.Prelude.{◌≡◌, ◌≤◌, length};
ghost use Rattle.dd_play.specs.Board.{IsBoard};
ghost use Rattle.dd_play.specs.Play.{legal};

use arrayvec::ArrayVec;
use dd_cards::Card;
use dd_play::Position;

/// The cards that may be played: spades, hearts, diamonds, clubs, and in a suit from the highest down.
pub fn legal(position: &Position) -> ArrayVec<Card, 13>
    ensures cards { result.items ≡ legal position.now }
    ensures bound { length result.items ≤ 13 }
    ensures board { IsBoard position.now }
{
    let mut cards = ArrayVec::new();
    let mut rest = position.choices();
    'cards: while let Some(card) = rest.pop_first() {
        cards.push(card);
    }
    cards
}
