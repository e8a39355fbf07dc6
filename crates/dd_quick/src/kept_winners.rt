//! Kept winners. Where no hand has a trump an opponent keeps some of its winners until it comes in, one at least of each suit
//! that it heads, and cashes them then. Until then each trick of the leader's side is in a suit that this opponent does not
//! head, and makes the longer of that side's two holdings shorter. So where these rounds, with the winners that are kept, are no
//! more than the tricks left, the opponent always has another card to throw; and where its partner comes in first, that is a
//! trick more.
ghost use Rattle.std.specs.Prelude.{◌≡◌, ◌<◌, ◌≤◌, ◌+◌, [], true, false};
ghost use Rattle.dd_cards.specs.PlayingCard.{PlayingCard};
ghost use Rattle.dd_cards.specs.Cards.{has_card};
ghost use Rattle.dd_cards.specs.Sides.{side_of, other_side};
ghost use Rattle.dd_play.specs.Reach.{reach, TakesBy};
ghost use Rattle.dd_quick.specs.QuickTricks.{RestsOnRun, first_kept, free_rounds, kept_winners};
ghost use Rattle.dd_quick.specs.QuickTricks.{longer, of_all, run};
ghost use Rattle.dd_quick.specs.SecondHand.{Opposes};

use crate::crossing::has_trumps;
use crate::sharing::{Offer, Offers, share_out};
use crate::winners::{length, run, with_highest};
use dd_cards::{Hand, Seat, Suit};
use dd_play::Position;

// Of a suit: all winners of the seat, one where the leader's side can lead to it, and how often that side leads where it has none.
#[derive(Clone, Copy)]
struct Kept {
    all: u8,
    first: u8,
    rounds: u8,
}

/// How many winners the seat keeps until it comes in.
#[tactic(auto, unfolding(crate::specs::QuickTricks::kept_winners))]
pub(crate) fn kept_winners(position: &Position, seat: Seat) -> u8
    ensures kept { result ≡ kept_winners position.now seat }
    ensures bound { result ≤ 13 }
{
    if has_trumps(position) {
        return 0;
    }
    let spades = by_suit(position, seat, Suit::Spades);
    let hearts = by_suit(position, seat, Suit::Hearts);
    let diamonds = by_suit(position, seat, Suit::Diamonds);
    let clubs = by_suit(position, seat, Suit::Clubs);
    let first = spades.first + hearts.first + diamonds.first + clubs.first;
    let rounds = spades.rounds + hearts.rounds + diamonds.rounds + clubs.rounds;
    let tricks = position.tricks_left();
    if tricks < first + rounds {
        return 0;
    }
    (spades.all + hearts.all + diamonds.all + clubs.all).min(tricks - rounds)
}

/// Does the seat keep so many winners until it comes in? Most often it has too few of them, which is asked first.
pub(crate) fn keeps(position: &Position, seat: Seat, need: u8) -> bool
    ensures yes { result ≡ true → need ≤ kept_winners position.now seat }
    ensures no { 1 ≤ need → result ≡ false → kept_winners position.now seat < need }
{
    if has_trumps(position) {
        return false;
    }
    if all_winners(position, seat) < need {
        return false;
    }
    need <= kept_winners(position, seat)
}

// How many winners the seat has.
fn all_winners(position: &Position, seat: Seat) -> u8
    ensures { result ≡ of_all (run position.now seat) }
{
    length_of(position, seat, Suit::Spades)
        + length_of(position, seat, Suit::Hearts)
        + length_of(position, seat, Suit::Diamonds)
        + length_of(position, seat, Suit::Clubs)
}

// How many winners of the suit the seat has.
#[inline]
fn length_of(position: &Position, seat: Seat, suit: Suit) -> u8
    ensures run { result ≡ run position.now seat suit }
    ensures bound { result ≤ 13 }
{
    run(position, seat, suit).len()
}

// The longer holding of the leader's side in the suit.
fn longer(position: &Position, suit: Suit) -> u8
    ensures longer { result ≡ longer position.now suit }
    ensures bound { result ≤ 13 }
{
    let leader = position.first();
    length(position, leader, suit).max(length(position, leader.partner(), suit))
}

// What is counted of a suit.
fn by_suit(position: &Position, seat: Seat, suit: Suit) -> Kept
    ensures all { result.all ≡ run position.now seat suit }
    ensures first { result.first ≡ first_kept position.now seat suit }
    ensures rounds { result.rounds ≡ free_rounds position.now seat suit }
    ensures bound { (result.all ≤ 13) × (result.first ≤ 1) × (result.rounds ≤ 13) }
    ensures part { result.first ≤ result.all }
{
    let all = length_of(position, seat, suit);
    let longer = longer(position, suit);
    Kept {
        all,
        first: all.min(longer).min(1),
        rounds: if 0 < all { 0 } else { longer },
    }
}

/// The winners of the opponent on which it rests that it keeps so many: one of each suit that it heads, and as many more as are
/// needed.
pub(crate) fn kept_cards(position: &Position, seat: Seat, need: u8) -> Hand
    requires start { position.now.trick ≡ [] }
    requires opposes { Opposes position.now seat }
    requires few { need ≤ kept_winners position.now seat }
    ensures { TakesBy (reach result) (other_side (side_of position.now.first)) position.now need }
{
    let spades = by_suit(position, seat, Suit::Spades);
    let hearts = by_suit(position, seat, Suit::Hearts);
    let diamonds = by_suit(position, seat, Suit::Diamonds);
    let clubs = by_suit(position, seat, Suit::Clubs);
    let first = spades.first + hearts.first + diamonds.first + clubs.first;
    let offers = Offers {
        spades: others_of(spades),
        hearts: others_of(hearts),
        diamonds: others_of(diamonds),
        clubs: others_of(clubs),
    };
    let more = share_out(offers, need.max(first) - first);
    let cards = Hand::new();
    let cards = with_winners(
        position,
        cards,
        seat,
        Suit::Spades,
        spades.first + more.spades,
    );
    let cards = with_winners(
        position,
        cards,
        seat,
        Suit::Hearts,
        hearts.first + more.hearts,
    );
    let cards = with_winners(
        position,
        cards,
        seat,
        Suit::Diamonds,
        diamonds.first + more.diamonds,
    );
    with_winners(position, cards, seat, Suit::Clubs, clubs.first + more.clubs)
}

// The winners of the suit beside the first.
#[inline]
fn others_of(kept: Kept) -> Offer
    requires { kept.first ≤ kept.all }
    ensures { result.tricks + kept.first ≡ kept.all }
{
    Offer {
        tricks: kept.all - kept.first,
        first: false,
    }
}

// These cards and so many of the seat's winners in the suit.
fn with_winners(position: &Position, cards: Hand, seat: Seat, suit: Suit, count: u8) -> Hand
    ensures more { (c : PlayingCard) → has_card cards c ≡ true → has_card result c ≡ true }
    ensures rests { RestsOnRun position.now seat suit result count }
{
    with_highest(cards, suit, run(position, seat, suit), count)
}
