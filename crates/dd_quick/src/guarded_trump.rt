//! A guarded trump. The highest trump left is in the hand before the seat's, the second highest is the seat's, and it has another
//! trump. It plays after that hand, unless it leads: to the highest trump it plays another card, and its own is the highest then;
//! else its own wins the trick where it may play it, and where it has to follow a side suit it keeps all its trumps. So an
//! opponent of the leader takes a trick, whoever leads later on.
ghost use Rattle.std.specs.Prelude.{◌≡◌, [], IfSome};
ghost use Rattle.dd_cards.specs.Sides.{side_of, other_side};
ghost use Rattle.dd_play.specs.Reach.{reach, TakesBy};
ghost use Rattle.dd_quick.specs.SecondHand.{Opposes};

use crate::joint_trumps::with_trump;
use dd_cards::{Hand, Seat, Strain};
use dd_play::Position;

/// The second highest trump left, on which it rests that the opponent of the leader takes a trick, where it has it guarded.
pub(crate) fn guarded_trump(position: &Position, seat: Seat) -> Option<Hand>
    requires start { position.now.trick ≡ [] }
    requires opposes { Opposes position.now seat }
    ensures { IfSome result
        (λ cards. TakesBy (reach cards) (other_side (side_of position.now.first)) position.now 1) }
{
    let Strain::Trump(trump) = position.strain() else {
        return None;
    };
    let left = seat.left();
    let partner = seat.partner();
    let before = seat.right();
    let hands = position.hands();
    let own = hands.holding(seat, trump);
    let best = own.highest()?;
    let over = hands.holding(before, trump).above(best).len();
    let next = hands.holding(left, trump).above(best).len();
    let others = hands.holding(partner, trump).above(best).len();
    if own.len() < 2 {
        return None;
    }
    if over != 1 {
        return None;
    }
    if next != 0 {
        return None;
    }
    if others != 0 {
        return None;
    }
    Some(with_trump(Hand::new(), trump, best))
}
