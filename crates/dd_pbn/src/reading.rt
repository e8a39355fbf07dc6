ghost use Rattle.std.specs.Prelude.{◌≡◌, ◌↔◌, List, Ok, Err, IfOk, if◌then◌else◌};
ghost use Rattle.dd_cards.specs.PlayingCard.{PlayingCard};
ghost use Rattle.dd_cards.specs.Hands.{FourHands, AreHands};
ghost use Rattle.dd_pbn.specs.Deals.{DealText, DealFault, TagText, TagFault};
ghost use Rattle.dd_pbn.specs.Values.{begins_tag};
ghost use Rattle.dd_pbn.specs.Reading.{Gives, after_blanks, gap_at, byte_at, letter_at, name_at, seat_at, suit_at, next_suit, hand_at, next_hand, hands_at, value_at, value_of, quoted_at, tag_of};

use crate::fault::PbnFault;
use crate::hands_so_far::{HandsSoFar, outcome};
use crate::letters::{is_blank, rank_of, seat_of};
use dd_cards::{Card, Hands, Seat, Suit};

/// The hands that the value of a tag Deal spells (PBN 2.1, tag Deal): blanks, one of W, N, E, S, a colon, blanks, four
/// hands with one or more blanks between each two, and blanks. The first hand is that of the letter's seat, the others
/// follow clockwise. A hand is its spades, hearts, diamonds and clubs with a point between each two, or a dash; a suit
/// is zero or more of A K Q J T 9 8 7 6 5 4 3 2 in any order. Letters count in either case, and a hand may have any
/// number of cards. It takes no memory.
///
/// `Grammar` where the text has not this form, else `Absent` where a hand is a dash, else `Twice` where a card stands
/// twice, in one hand or in two.
pub fn read_deal(text: &[u8]) -> Result<Hands, PbnFault>
    ensures read { IfOk result (λ deal. DealText text.now deal) }
    ensures hands { IfOk result (λ deal. AreHands deal) }
    ensures only { (deal : FourHands) → AreHands deal → DealText text.now deal →
        result ≡ Ok deal }
    ensures fault { (fault : PbnFault) → (result ≡ Err fault) ↔ DealFault text.now fault }
{
    outcome(seen_in_value(text))
}

/// The hands that a tag Deal spells: blanks, `[`, blanks, `Deal` with letters in either case, blanks, `"`, a value as
/// `read_deal` reads it, `"`, blanks, `]`, blanks. It takes no memory, and its faults are those of `read_deal`.
pub fn read_tag(text: &[u8]) -> Result<Hands, PbnFault>
    ensures read { IfOk result (λ deal. TagText text.now deal) }
    ensures hands { IfOk result (λ deal. AreHands deal) }
    ensures only { (deal : FourHands) → AreHands deal → TagText text.now deal →
        result ≡ Ok deal }
    ensures fault { (fault : PbnFault) → (result ≡ Err fault) ↔ TagFault text.now fault }
{
    outcome(seen_in_tag(text))
}

/// Whether a text is to be read as a tag, and else as a value: `[` is its first byte that is no blank.
pub fn begins_tag(text: &[u8]) -> bool
    ensures { result ≡ begins_tag text.now }
{
    after_byte(b'[', after_blanks(text)).is_some()
}

// ---- Each reader answers the text after what it read, or None where the text has not the form. Its contract names the
// function on lists that does the same.

// A value and nothing after it.
#[tactic(auto, unfolding(crate::specs::Reading::value_of, crate::specs::Reading::at_end))]
fn seen_in_value(text: &[u8]) -> Option<HandsSoFar>
    ensures { result ≡ value_of text.now }
{
    let (seen, rest) = read_value(text)?;
    if rest.is_empty() { Some(seen) } else { None }
}

// A tag and nothing after it.
#[tactic(auto, unfolding(crate::specs::Reading::tag_of, crate::specs::Reading::at_end))]
fn seen_in_tag(text: &[u8]) -> Option<HandsSoFar>
    ensures { result ≡ tag_of text.now }
{
    let rest = after_byte(b'[', after_blanks(text))?;
    let rest = after_name(after_blanks(rest))?;
    let (seen, rest) = read_quoted(after_blanks(rest))?;
    let rest = after_byte(b']', after_blanks(rest))?;
    if after_blanks(rest).is_empty() {
        Some(seen)
    } else {
        None
    }
}

// A value in quotes.
#[tactic(auto, unfolding(crate::specs::Reading::quoted_at))]
fn read_quoted(text: &[u8]) -> Option<(HandsSoFar, &[u8])>
    ensures { Gives (λ read. (read.0, read.1.now)) result (quoted_at text.now) }
{
    let rest = after_byte(b'"', text)?;
    let (seen, rest) = read_value(rest)?;
    let rest = after_byte(b'"', rest)?;
    Some((seen, rest))
}

// A value, from its first blanks to its last.
#[tactic(auto, unfolding(crate::specs::Reading::value_at))]
fn read_value(text: &[u8]) -> Option<(HandsSoFar, &[u8])>
    ensures { Gives (λ read. (read.0, read.1.now)) result (value_at text.now) }
{
    let (first, rest) = read_seat(after_blanks(text))?;
    let rest = after_byte(b':', rest)?;
    let (seen, rest) = read_hands(first, after_blanks(rest))?;
    Some((seen, after_blanks(rest)))
}

// Four hands, from this seat clockwise.
#[tactic(auto, unfolding(crate::specs::Reading::hands_at))]
fn read_hands(first: Seat, text: &[u8]) -> Option<(HandsSoFar, &[u8])>
    ensures { Gives (λ read. (read.0, read.1.now)) result (hands_at first text.now) }
{
    let mut seen = HandsSoFar::new();
    let rest = read_hand(&mut seen, first, text)?;
    let rest = read_next_hand(&mut seen, first.next(), rest)?;
    let rest = read_next_hand(&mut seen, first.next().next(), rest)?;
    let rest = read_next_hand(&mut seen, first.next().next().next(), rest)?;
    Some((seen, rest))
}

// The letter of a seat.
#[tactic(auto, unfolding(crate::specs::Reading::seat_at))]
fn read_seat(text: &[u8]) -> Option<(Seat, &[u8])>
    ensures { Gives (λ read. (read.0, read.1.now)) result (seat_at text.now) }
{
    match text {
        [letter, rest @ ..] => Some((seat_of(*letter)?, rest)),
        [] => None,
    }
}

// One or more blanks, and a hand.
#[tactic(auto, unfolding(crate::specs::Reading::next_hand))]
fn read_next_hand<'a>(seen: &mut HandsSoFar, seat: Seat, text: &'a [u8]) -> Option<&'a [u8]>
    ensures { Gives (λ rest. (seen.new, rest.now)) result (next_hand seat (seen.old, text.now)) }
{
    let rest = after_gap(text)?;
    read_hand(seen, seat, rest)
}

// A hand: four suits with a point between each two, or a dash.
#[tactic(auto, unfolding(crate::specs::Reading::hand_at))]
fn read_hand<'a>(seen: &mut HandsSoFar, seat: Seat, text: &'a [u8]) -> Option<&'a [u8]>
    ensures { Gives (λ rest. (seen.new, rest.now)) result (hand_at seat seen.old text.now) }
{
    if let Some(rest) = after_byte(b'-', text) {
        seen.absent = true;
        return Some(rest);
    }
    let rest = read_suit(seen, seat, Suit::Spades, text);
    let rest = read_next_suit(seen, seat, Suit::Hearts, rest)?;
    let rest = read_next_suit(seen, seat, Suit::Diamonds, rest)?;
    read_next_suit(seen, seat, Suit::Clubs, rest)
}

// A point, and a suit.
#[tactic(auto, unfolding(crate::specs::Reading::next_suit))]
fn read_next_suit<'a>(
    seen: &mut HandsSoFar,
    seat: Seat,
    suit: Suit,
    text: &'a [u8],
) -> Option<&'a [u8]>
    ensures { Gives (λ rest. (seen.new, rest.now))
        result (next_suit seat suit (seen.old, text.now)) }
{
    let rest = after_byte(b'.', text)?;
    Some(read_suit(seen, seat, suit, rest))
}

// The ranks of a suit, up to the first byte that is none.
fn read_suit<'a>(seen: &mut HandsSoFar, seat: Seat, suit: Suit, text: &'a [u8]) -> &'a [u8]
    ensures { suit_at seat suit seen.old text.now ≡ (seen.new, result.now) }
{
    let mut rest = text;
    while let [letter, tail @ ..] = rest {
        let Some(rank) = rank_of(*letter) else {
            return rest;
        };
        seen.note(seat, Card { suit, rank });
        rest = tail;
    }
    rest
}

// The text after the name Deal.
#[tactic(auto, unfolding(crate::specs::Reading::name_at))]
fn after_name(text: &[u8]) -> Option<&[u8]>
    ensures { Gives (λ rest. rest.now) result (name_at text.now) }
{
    let rest = after_letter(b'D', text)?;
    let rest = after_letter(b'E', rest)?;
    let rest = after_letter(b'A', rest)?;
    after_letter(b'L', rest)
}

// The text after this letter, in either case.
#[tactic(auto, unfolding(crate::specs::Reading::letter_at))]
fn after_letter(letter: u8, text: &[u8]) -> Option<&[u8]>
    ensures { Gives (λ rest. rest.now) result (letter_at letter text.now) }
{
    match text {
        [first, rest @ ..] if first.to_ascii_uppercase() == letter => Some(rest),
        _ => None,
    }
}

// The text after this byte.
#[tactic(auto, unfolding(crate::specs::Reading::byte_at))]
fn after_byte(byte: u8, text: &[u8]) -> Option<&[u8]>
    ensures { Gives (λ rest. rest.now) result (byte_at byte text.now) }
{
    match text {
        [first, rest @ ..] if *first == byte => Some(rest),
        _ => None,
    }
}

// The text after one or more blanks.
#[tactic(auto, unfolding(crate::specs::Reading::gap_at))]
fn after_gap(text: &[u8]) -> Option<&[u8]>
    ensures { Gives (λ rest. rest.now) result (gap_at text.now) }
{
    match text {
        [first, rest @ ..] if is_blank(*first) => Some(after_blanks(rest)),
        _ => None,
    }
}

// The text after its blanks.
fn after_blanks(text: &[u8]) -> &[u8]
    ensures { result.now ≡ after_blanks text.now }
{
    let mut rest = text;
    while let [first, tail @ ..] = rest {
        if !is_blank(*first) {
            break;
        }
        rest = tail;
    }
    rest
}
