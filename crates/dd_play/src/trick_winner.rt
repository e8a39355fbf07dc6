ghost use Rattle.std.specs.Prelude.{◌≡◌, ◌∷◌, [], ◌<◌, ◌≤◌};
ghost use Rattle.dd_cards.specs.Ranks.{IsRank};
ghost use Rattle.dd_play.specs.Tricks.{winner_of};
ghost use Rattle.dd_play.specs.Strength.{strength, place_of_greatest};

use crate::turn::seat_after;
use dd_cards::{Card, Seat, Strain, Suit};

/// The seat that wins a full trick, in the order of play from the card that `first` led (Laws 44E and 44F).
/// Of two like cards, which no pack has, the earlier counts as the higher.
// Twice the same code: whether there are trumps is asked once a trick, and not of each card.
pub fn winner(trick: &[Card; 4], first: Seat, strain: Strain) -> Seat
    ensures { result ≡ winner_of trick.now first strain }
{
    match strain {
        Strain::Trump(trump) => winner_at(trick, first, Strain::Trump(trump)),
        Strain::Notrump => winner_at(trick, first, Strain::Notrump),
    }
}

// The same at this strain.
#[inline(always)]
fn winner_at(trick: &[Card; 4], first: Seat, strain: Strain) -> Seat
    ensures { result ≡ winner_of trick.now first strain }
{
    let [a, b, c, d] = *trick;
    let led = a.suit;
    let place = strongest_place(
        strength(strain, led, a),
        strength(strain, led, b),
        strength(strain, led, c),
        strength(strain, led, d),
    );
    seat_after(first, place)
}

// A trump is stronger than every other card, and a card of the suit led than one of a third suit.
fn strength(strain: Strain, led: Suit, card: Card) -> u8
    ensures value { result ≡ strength strain led card }
    ensures rank { IsRank card.rank }
{
    let rank = card.rank.code();
    match strain {
        Strain::Trump(suit) if suit == card.suit => 20 + rank,
        _ => { if led == card.suit { rank } else { 0 } }
    }
}

// The place of the greatest of four strengths, the first of equals.
fn strongest_place(a: u8, b: u8, c: u8, d: u8) -> u8
    ensures value { result ≡ place_of_greatest (a ∷ b ∷ c ∷ d ∷ []) }
    ensures bound { result < 4 }
{
    let (left, left_place) = if a < b { (b, 1) } else { (a, 0) };
    let (right, right_place) = if c < d { (d, 3) } else { (c, 2) };
    if left < right {
        right_place
    } else {
        left_place
    }
}
