//! The card that wins a full trick, by the places of its cards.
ghost use Rattle.std.specs.Prelude.{◌≡◌, ◌≤◌, ◌∷◌, [], filter, slice_index_or};
ghost use Rattle.std.specs.List.{position_or_len};
ghost use Rattle.dd_cards.specs.declared.seat.Seat.TheVariants.{North};
ghost use Rattle.dd_cards.specs.Seats.{seat_code};
ghost use Rattle.dd_cards.specs.Cards.{is_of, same_card, with_card};
ghost use Rattle.dd_play.specs.Tricks.{is_trump, or_else, winner_of};

use dd_cards::{Hand, Place, Seat, Strain};

/// The seat that wins a full trick, to which North led the first card.
#[inline(always)]
pub(crate) fn winner(
    first: Place,
    second: Place,
    third: Place,
    fourth: Place,
    strain: Strain,
) -> Seat
    ensures { result ≡ winner_of (first ∷ second ∷ third ∷ fourth ∷ []) North strain }
{
    winner_with_card(first, second, third, fourth, strain).0
}

/// The same, and its card.
// The highest bit of the cards that decide is the winner's: no card is measured against another.
#[inline(always)]
pub(crate) fn winner_with_card(
    first: Place,
    second: Place,
    third: Place,
    fourth: Place,
    strain: Strain,
) -> (Seat, Place)
    ensures seat { result.0 ≡ winner_of (first ∷ second ∷ third ∷ fourth ∷ []) North strain }
    ensures card { result.1
        ≡ slice_index_or (first ∷ second ∷ third ∷ fourth ∷ []) (seat_code result.0) fourth }
{
    // The proof reads here that these are cards of the pack.
    let _numbers = [
        first.number(),
        second.number(),
        third.number(),
        fourth.number(),
    ];
    let trick = four_cards(first, second, third, fourth);
    let mut best = deciding(trick, first, strain);
    match best.take_first() {
        None => unreachable!(),
        Some(won) => (
            Seat::North.after(place_among(won, first, second, third)),
            won,
        ),
    }
}

/// Four cards as a set.
#[inline(always)]
pub(crate) fn four_cards(first: Place, second: Place, third: Place, fourth: Place) -> Hand
    ensures { result ≡ with_card (with_card (with_card (with_card [] first) second) third) fourth }
{
    Hand::new()
        .with_place(first)
        .with_place(second)
        .with_place(third)
        .with_place(fourth)
}

// The cards that decide a trick of these cards: the trumps if there are any, else those of the suit led.
#[inline(always)]
fn deciding(trick: Hand, led: Place, strain: Strain) -> Hand
    ensures { result ≡ or_else (filter (is_trump strain) trick) (filter (is_of led.suit) trick) }
{
    let followed = trick.of_suit_at(led);
    match strain {
        Strain::Notrump => followed,
        Strain::Trump(trump) => {
            let trumps = trick.of_suit(trump);
            if trumps.is_empty() { followed } else { trumps }
        }
    }
}

// The place of a card on a trick of which these are the first three: one more for each place that it comes after.
#[inline(always)]
fn place_among(card: Place, first: Place, second: Place, third: Place) -> u8
    ensures value { result ≡ position_or_len (same_card card) (first ∷ second ∷ third ∷ []) }
    ensures bound { result ≤ 3 }
{
    let number = card.number();
    let after_first = number != first.number();
    let after_second = after_first & (number != second.number());
    let after_third = after_second & (number != third.number());
    after_first as u8 + after_second as u8 + after_third as u8
}
