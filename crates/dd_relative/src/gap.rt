//! A gap in a suit, over which the cards below it move up by one rank.
ghost use Rattle.std.specs.Prelude.{◌≡◌, false};
ghost use Rattle.dd_cards.specs.Cards.{has_card};
ghost use Rattle.dd_cards.specs.Hands.{dealt, hand_of};
ghost use Rattle.dd_cards.specs.declared.seat.Seat.{Seat as SeatOf};
ghost use Rattle.dd_relative.specs.Gaps.{moved_hands, moved_up, raised};

use dd_cards::{Hand, Place};

/// These cards, of which none stands at the gap, with those below it moved up.
// A bit that is added to itself goes up by one place.
#[inline(always)]
pub(crate) fn moved_up(cards: Hand, gap: Place) -> Hand
    requires { has_card cards gap ≡ false }
    ensures { result ≡ moved_up gap cards }
{
    let mask = cards.mask();
    let below = gap.places_below();
    Hand::of_mask(mask + (mask & below))
}

/// The hands, in none of which a card stands at the gap, with the cards below it moved up.
#[inline(always)]
pub(crate) fn one_closed(
    north: Hand,
    east: Hand,
    south: Hand,
    west: Hand,
    gap: Place,
) -> (Hand, Hand, Hand, Hand)
    requires { (x : SeatOf) → has_card (hand_of (dealt north east south west) x) gap ≡ false }
    ensures { dealt result.0 result.1 result.2 result.3
        ≡ moved_hands gap (dealt north east south west) }
{
    (
        moved_up(north, gap),
        moved_up(east, gap),
        moved_up(south, gap),
        moved_up(west, gap),
    )
}

/// Where a card stands when those below the gap in its suit have moved up.
#[inline(always)]
pub(crate) fn raised(card: Place, gap: Place) -> Place
    ensures { result ≡ raised gap card }
{
    let is_below = (gap.places_below() >> card.number()) & 1;
    card.higher_by(is_below as u8)
}
