//! A trick under way, from a start of a trick by relative ranks.
ghost use Rattle.std.specs.Prelude.{◌≡◌, ◌⊎◌, ◌+◌, ◌<◌, true, filter, length, slice_set};
ghost use Rattle.dd_cards.specs.Cards.{has_card, is_of};
ghost use Rattle.dd_cards.specs.Hands.{dealt};
ghost use Rattle.dd_play.specs.Board.{cards_at, mover};
ghost use Rattle.dd_play.specs.Tricks.{or_else};
ghost use Rattle.dd_play.specs.Play.{legal, after};
ghost use Rattle.dd_cards.specs.PlayingCard.{PlayingCard};
ghost use Rattle.dd_play.specs.Reach.{reach};
ghost use Rattle.dd_play.specs.Simulations.{IsLegal};
ghost use Rattle.dd_equal.specs.EqualCards.{IsWhole, are_equal, tops};
ghost use Rattle.dd_rank.specs.Alike.{AreAlike};
ghost use Rattle.dd_relative.specs.Turned.{from_seat};
ghost use Rattle.dd_relative.specs.WinningRanks.{AreBefore};

use crate::relative_start::{RelativeStart, closed_over, pack};
use crate::runs::run_heads;
use crate::winning_ranks::{WinningRanks, before_trick};
use dd_cards::{Card, Hand, Place, Seat, Suit};
use dd_play::winner;
use std::marker::Model;

/// A trick under way that North led to, with the ranks relative to the cards left before it.
// The hands stay as they were before the trick.
#[derive(Drop)]
pub struct RelativeTrick {
    start: RelativeStart,
    trick: [Card; 3],
    played: u8,
}

impl Model for RelativeTrick {
    ghost use Rattle.std.specs.Prelude.{take, length, ◌≡◌, ◌≤◌};
    ghost use Rattle.dd_play.specs.Board.{Board};
    ghost use Rattle.dd_relative.specs.UnderWay.{under_way, IsUnderWay};

    ghost Value = { Board };

    ghost view = { λ t. under_way t.start (take t.played t.trick) };

    ghost invariant = { λ t. (t.played ≤ 3) × (length t.trick ≡ 3)
        × IsUnderWay t.start (take t.played t.trick) };
}

impl RelativeTrick {
    /// The trick that begins there, with no card on it.
    #[inline(always)]
    pub fn of(start: &RelativeStart) -> RelativeTrick
        ensures same { result ≡ start.now }
        ensures empty { length result.trick ≡ 0 }
    {
        let filler = Card::default();
        RelativeTrick {
            start: start.copy(),
            trick: [filler, filler, filler],
            played: 0,
        }
    }

    /// The cards that may be played, where so many cards are known to lie on the trick.
    #[inline(always)]
    pub fn choices_at(&self, played: u8) -> Hand
        requires { length self.now.trick ≡ played }
        ensures { result ≡ legal self.now }
    {
        let hand = self.hand_at(played);
        if played == 0 {
            return hand;
        }
        let _start = self.start.leader();
        let led = self.trick[0];
        following(hand, led.suit)
    }

    /// Of the cards that may be played the highest of each class of equal cards, where so many cards are known to lie on the trick.
    // All cards from the highest of a suit down to the lowest left are in hands or on the trick: so the cards of a class follow one another.
    #[inline(always)]
    pub fn tops_at(&self, played: u8) -> Hand
        requires { length self.now.trick ≡ played }
        ensures { result ≡ tops self.now }
    {
        let _start = self.start.leader();
        run_heads(self.choices_at(played))
    }

    /// The trick with this legal card on it, where fewer than three are known to lie there.
    #[inline(always)]
    pub fn play_at(&self, played: u8, card: Card) -> RelativeTrick
        requires turn { length self.now.trick ≡ played }
        requires open { played < 3 }
        requires card { has_card (legal self.now) card ≡ true }
        ensures next { result ≡ after self.now card }
        ensures longer { length result.trick ≡ played + 1 }
    {
        RelativeTrick {
            start: self.start.copy(),
            trick: with_place(self.trick, played, card),
            played: played + 1,
        }
    }

    /// The start of the next trick by relative ranks, where this legal card completes the trick, and the seat that won it, which is
    /// North there.
    #[inline(always)]
    pub fn next_start(&self, card: Card) -> (RelativeStart, Seat)
        requires turn { length self.now.trick ≡ 3 }
        requires card { has_card (legal self.now) card ≡ true }
        ensures alike { AreAlike (after self.now card) result.0 }
        ensures winner { result.1 ≡ (after self.now card).first }
    {
        let [first, second, third] = self.trick;
        let strain = self.start.strain();
        let seat = winner(&[first, second, third, card], Seat::North, strain);
        let (leader_left, second_left, third_left, fourth_left) = turned(
            self.start.leader().without(first),
            self.start.second().without(second),
            self.start.third().without(third),
            self.start.fourth().without(card),
            seat,
        );
        let next = closed_over(
            leader_left,
            second_left,
            third_left,
            fourth_left,
            strain,
            Place::of(first),
            Place::of(second),
            Place::of(third),
            Place::of(card),
        );
        (next, seat)
    }

    /// The winning ranks of the next start, as they stand among the cards that this legal card leaves in the hands, where it
    /// completes the trick.
    #[inline(always)]
    pub fn ranks_before(&self, card: Card, later: &WinningRanks) -> WinningRanks
        requires turn { length self.now.trick ≡ 3 }
        requires card { has_card (legal self.now) card ≡ true }
        ensures { AreBefore (after self.now card) later.now result }
    {
        let _start = self.start.leader();
        let [first, second, third] = self.trick;
        before_trick(
            later,
            Place::of(first),
            Place::of(second),
            Place::of(third),
            Place::of(card),
        )
    }

    /// These winning ranks and the lower cards of each class that they reach in part: what an answer rests on where each class of the
    /// mover had to be met. So many cards are known to lie on the trick.
    #[inline(always)]
    pub fn whole_at(&self, played: u8, ranks: &WinningRanks) -> WinningRanks
        requires { length self.now.trick ≡ played }
        ensures more { (c : PlayingCard) → has_card ranks.now c ≡ true → has_card result c ≡ true }
        ensures only { (c : PlayingCard) → has_card result c ≡ true → (has_card ranks.now c ≡ true)
            ⊎ ((t : PlayingCard) × (has_card ranks.now t ≡ true) × IsLegal self.now t × IsLegal self.now c
            × (are_equal self.now t c ≡ true)) }
        ensures whole { IsWhole (reach result) self.now }
    {
        let _start = self.start.leader();
        let own = self.hand_at(played);
        let others = pack().difference(own);
        let top = ranks.cards();
        // The proof reads here that these are cards of the pack.
        let _spades = top.holding(Suit::Spades);
        let reached = top.difference(others);
        let lower = self.choices_at(played).headed(reached, others);
        ranks.with(lower)
    }

    // The hand of the mover, which is as it was before the trick.
    #[inline(always)]
    fn hand_at(&self, played: u8) -> Hand
        requires { length self.now.trick ≡ played }
        ensures { result ≡ cards_at self.now (mover self.now) }
    {
        if played == 0 {
            self.start.leader()
        } else if played == 1 {
            self.start.second()
        } else if played == 2 {
            self.start.third()
        } else {
            self.start.fourth()
        }
    }
}

// Of these cards those of the suit led, or all where there are none.
#[inline(always)]
fn following(hand: Hand, led: Suit) -> Hand
    ensures { result ≡ or_else (filter (is_of led) hand) hand }
{
    let same = hand.of_suit(led);
    if same.is_empty() { hand } else { same }
}

// The hands from a seat on.
#[inline(always)]
fn turned(north: Hand, east: Hand, south: Hand, west: Hand, seat: Seat) -> (Hand, Hand, Hand, Hand)
    ensures { dealt result.0 result.1 result.2 result.3 ≡ from_seat (dealt north east south west) seat }
{
    match seat {
        Seat::North => (north, east, south, west),
        Seat::East => (east, south, west, north),
        Seat::South => (south, west, north, east),
        Seat::West => (west, north, east, south),
    }
}

// The three places with the card at this one.
#[inline(always)]
fn with_place(trick: [Card; 3], place: u8, card: Card) -> [Card; 3]
    requires { place < 3 }
    ensures { result ≡ slice_set trick place card }
{
    let [first, second, third] = trick;
    [
        if place == 0 { card } else { first },
        if place == 1 { card } else { second },
        if place == 2 { card } else { third },
    ]
}
