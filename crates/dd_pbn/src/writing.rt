ghost use Rattle.std.specs.Prelude.{◌≡◌, ◌++◌, IfOk, OnOk, string_bytes};
ghost use Rattle.dd_pbn.specs.Deals.{text_of_deal, hand_text, suit_text};

use crate::letters::letter_of;
use dd_cards::{Hand, Hands, Seat, Suit};
use std::alloc::{AllocError, Global};

// `N:`, 52 ranks, twelve points and three spaces.
const LONGEST: usize = 69;

/// The written form of a deal: `N:`, and the hands of North, East, South and West with one space between each two. A
/// hand is its spades, hearts, diamonds and clubs with a point between each two, ranks falling, in upper case (PBN 2.1,
/// tag Deal). `read_deal` reads it back. An error means that memory ran out.
pub fn write_deal(alloc: Global, hands: &Hands) -> Result<String, AllocError>
    ensures { IfOk result (λ text. string_bytes text ≡ text_of_deal hands.now) }
{
    let mut text = String::with_capacity(alloc, LONGEST)?;
    text.push_str("N:")?;
    push_hand(&mut text, hands.hand(Seat::North))?;
    text.push(' ')?;
    push_hand(&mut text, hands.hand(Seat::East))?;
    text.push(' ')?;
    push_hand(&mut text, hands.hand(Seat::South))?;
    text.push(' ')?;
    push_hand(&mut text, hands.hand(Seat::West))?;
    Ok(text)
}

// Four suits with a point between each two.
fn push_hand(text: &mut String, hand: Hand) -> Result<(), AllocError>
    ensures { OnOk result (string_bytes text.new ≡ string_bytes text.old ++ hand_text hand) }
{
    push_suit(text, hand, Suit::Spades)?;
    text.push('.')?;
    push_suit(text, hand, Suit::Hearts)?;
    text.push('.')?;
    push_suit(text, hand, Suit::Diamonds)?;
    text.push('.')?;
    push_suit(text, hand, Suit::Clubs)
}

// The letters of the hand's cards of this suit, ranks falling.
fn push_suit(text: &mut String, hand: Hand, suit: Suit) -> Result<(), AllocError>
    ensures { OnOk result (string_bytes text.new ≡ string_bytes text.old ++ suit_text hand suit) }
{
    let mut cards = hand.of_suit(suit);
    while let Some(card) = cards.pop_first() {
        text.push(letter_of(card.rank))?;
    }
    Ok(())
}
