//! A trick under way, from a start of a trick by relative ranks, of cards known by their places.
ghost use Rattle.std.specs.Prelude.{◌≡◌, ◌⊎◌, ◌+◌, ◌<◌, ◌≤◌, ◌∷◌, [], Bool, true, filter, length, slice_set, slice_index_or, if◌then◌else◌};
ghost use Rattle.dd_cards.specs.PlayingCard.{PlayingCard};
ghost use Rattle.dd_cards.specs.Cards.{has_card, is_of};
ghost use Rattle.dd_cards.specs.Hands.{dealt};
ghost use Rattle.dd_play.specs.Board.{IsBoard, cards_at, cards_left, mover, tricks_left};
ghost use Rattle.dd_play.specs.Covers.{IsSettled};
ghost use Rattle.dd_play.specs.Play.{legal, after, trick_with};
ghost use Rattle.dd_play.specs.Reach.{reach};
ghost use Rattle.dd_play.specs.Simulations.{IsLegal};
ghost use Rattle.dd_play.specs.Tricks.{or_else, winner_of};
ghost use Rattle.dd_equal.specs.EqualCards.{IsWhole, are_equal, tops};
ghost use Rattle.dd_rank.specs.Alike.{AreAlike};
ghost use Rattle.dd_relative.specs.Relative.{IsRelative};
ghost use Rattle.dd_relative.specs.Turned.{from_seat};
ghost use Rattle.dd_relative.specs.WinningRanks.{AreBefore};

use crate::coming_start::ComingStart;
use crate::known_start::KnownStart;
use crate::relative_start::{closed_over, pack};
use crate::runs::{have_none_below, run_heads};
use crate::winning_card::{four_cards, winner, winner_with_card};
use crate::winning_ranks::{WinningRanks, before_trick};
use dd_cards::{Card, Hand, Place, Seat, Suit};
use dd_play::TrickStart;
use std::marker::Model;

/// A trick under way that North led to, with the ranks relative to the cards left before it, of cards known by their places.
// It refers to its start: nothing is copied or cleared when a card is played. The hands stay as they were before the trick.
#[derive(Drop)]
pub struct PlacedTrick<'a> {
    start: &'a KnownStart,
    trick: [Place; 3],
    played: u8,
}

impl<'a> Model for PlacedTrick<'a> {
    ghost use Rattle.std.specs.Prelude.{take, length, ◌≡◌, ◌≤◌};
    ghost use Rattle.dd_play.specs.Board.{Board};
    ghost use Rattle.dd_relative.specs.UnderWay.{under_way, IsUnderWay};

    ghost Value = { Board };

    ghost view = { λ t. under_way t.start.now (take t.played t.trick) };

    ghost invariant = { λ t. (t.played ≤ 3) × (length t.trick ≡ 3)
        × IsUnderWay t.start.now (take t.played t.trick) };
}

impl<'a> PlacedTrick<'a> {
    /// The trick that begins there, with no card on it.
    #[inline(always)]
    pub fn led(start: &'a KnownStart) -> PlacedTrick<'a>
        ensures same { result ≡ start.now }
        ensures empty { length result.trick ≡ 0 }
    {
        // The proof reads here that it is a start by relative ranks.
        let _start = start.start();
        let filler = Place::of(Card::default());
        PlacedTrick {
            start,
            trick: [filler, filler, filler],
            played: 0,
        }
    }

    /// An equal one.
    // Of one that no reference leads to the compiler keeps what it made of the cards, where it would read them again after a call.
    #[inline(always)]
    pub fn copy(&self) -> PlacedTrick<'a>
        ensures same { result ≡ self.now }
    {
        PlacedTrick {
            start: self.start,
            trick: self.trick,
            played: self.played,
        }
    }

    /// The start of the trick. It serves the order of the cards.
    #[inline(always)]
    pub fn start(&self) -> &KnownStart {
        self.start
    }

    /// The start of the trick, where no card is known to lie on it.
    #[inline(always)]
    pub fn at_lead(&self) -> &TrickStart
        requires { length self.now.trick ≡ 0 }
        ensures same { result.now ≡ self.now }
        ensures board { IsBoard self.now }
    {
        self.start.start().as_trick_start()
    }

    /// The seat to play, where so many cards are known to lie on the trick.
    #[inline(always)]
    pub fn mover_at(&self, played: u8) -> Seat
        requires { length self.now.trick ≡ played }
        ensures seat { result ≡ mover self.now }
        ensures board { IsBoard self.now }
    {
        let _start = self.start.start();
        // The proof reads here that no more than three cards lie on the trick.
        let _played = self.played;
        Seat::North.after(played)
    }

    /// The card at this place of the trick. It serves the order of the cards.
    #[inline(always)]
    pub fn card_at(&self, place: u8) -> Place
        requires { place ≤ 2 }
    {
        let trick = self.trick;
        trick[place as usize]
    }

    /// The cards before the trick of the hand so many places after the leader's. They serve the order of the cards.
    #[inline(always)]
    pub fn hand_of(&self, places: u8) -> Hand
        requires { places ≤ 3 }
    {
        self.start.hand(places)
    }

    /// The cards that may be played, where so many cards are known to lie on the trick.
    #[inline(always)]
    pub fn choices_at(&self, played: u8) -> Hand
        requires { length self.now.trick ≡ played }
        ensures { result ≡ legal self.now }
    {
        let hand = self.hand_at(played);
        if played == 0 {
            return hand;
        }
        let _start = self.start.start();
        let trick = self.trick;
        let led = trick[0];
        following(hand, led)
    }

    /// Of the cards that may be played, which are known, the highest of each class of equal cards, where so many cards are known to
    /// lie on the trick.
    // All cards from the highest of a suit down to the lowest left are in hands or on the trick: so the cards of a class follow one another.
    #[inline(always)]
    pub fn tops_of(&self, played: u8, choices: Hand) -> Hand
        requires turn { length self.now.trick ≡ played }
        requires choices { choices ≡ legal self.now }
        ensures { result ≡ tops self.now }
    {
        let _start = self.start.start();
        // The proof reads here that a card is played to a board.
        let _played = self.played;
        run_heads(choices)
    }

    /// These winning ranks and the lower cards of each class that they reach in part: what an answer rests on where each class of the
    /// mover had to be met. So many cards are known to lie on the trick.
    #[inline]
    pub fn whole_at(&self, played: u8, ranks: &WinningRanks) -> WinningRanks
        requires { length self.now.trick ≡ played }
        ensures more { (c : PlayingCard) → has_card ranks.now c ≡ true → has_card result c ≡ true }
        ensures only { (c : PlayingCard) → has_card result c ≡ true → (has_card ranks.now c ≡ true)
            ⊎ ((t : PlayingCard) × (has_card ranks.now t ≡ true) × IsLegal self.now t × IsLegal self.now c
            × (are_equal self.now t c ≡ true)) }
        ensures whole { IsWhole (reach result) self.now }
    {
        let _start = self.start.start();
        let own = self.hand_at(played);
        let others = pack().difference(own);
        let top = ranks.cards();
        // The proof reads here that these are cards of the pack.
        let _spades = top.holding(Suit::Spades);
        let reached = top.difference(others);
        // Mostly no class is reached in part.
        if have_none_below(reached, own) {
            return ranks.copy();
        }
        let lower = self.choices_at(played).headed(reached, others);
        ranks.with(lower)
    }

    /// The trick with this legal card on it, where fewer than three are known to lie there.
    #[inline(always)]
    pub fn play_at(&self, played: u8, card: Place) -> PlacedTrick<'a>
        requires turn { length self.now.trick ≡ played }
        requires open { played < 3 }
        requires card { has_card (legal self.now) card ≡ true }
        ensures next { result ≡ after self.now card }
        ensures longer { length result.trick ≡ played + 1 }
        ensures board { IsBoard self.now }
    {
        let _start = self.start.start();
        PlacedTrick {
            start: self.start,
            trick: with_place(self.trick, played, card),
            played: played + 1,
        }
    }

    /// The seat that wins the trick, where this legal card completes it.
    #[inline]
    pub fn winner_with(&self, card: Place) -> Seat
        requires turn { length self.now.trick ≡ 3 }
        requires card { has_card (legal self.now) card ≡ true }
        ensures wins { result ≡ winner_of (trick_with self.now card) self.now.first self.now.strain }
        ensures first { result ≡ (after self.now card).first }
        ensures board { IsBoard self.now }
    {
        let trick = self.trick;
        let [first, second, third] = trick;
        winner(first, second, third, card, self.start.strain())
    }

    /// The card that wins the trick and all higher ones of its suit, if another card of its suit lies there; else none. Where this
    /// legal card completes the trick, which `winner` wins.
    #[inline]
    pub fn contested(&self, card: Place, winner: Seat) -> WinningRanks
        requires turn { length self.now.trick ≡ 3 }
        requires card { has_card (legal self.now) card ≡ true }
        requires winner { winner ≡ (after self.now card).first }
        ensures { (top : PlayingCard → Bool) → ((c : PlayingCard) → has_card result c ≡ true → top c
            ≡ true) → IsSettled top self.now card }
    {
        let _start = self.start.start();
        let trick = self.trick;
        let [first, second, third] = trick;
        let won = one_of_four(winner.code(), first, second, third, card);
        let others = four_cards(first, second, third, card)
            .of_suit_at(won)
            .without_place(won);
        if others.is_empty() {
            WinningRanks::new()
        } else {
            WinningRanks::down_to_place(won)
        }
    }

    /// What `winner_with` and `contested` tell, where this legal card completes the trick.
    #[inline]
    pub fn outcome(&self, card: Place) -> (Seat, WinningRanks)
        requires turn { length self.now.trick ≡ 3 }
        requires card { has_card (legal self.now) card ≡ true }
        ensures wins { result.0 ≡ winner_of (trick_with self.now card) self.now.first self.now.strain }
        ensures first { result.0 ≡ (after self.now card).first }
        ensures contested { (top : PlayingCard → Bool)
            → ((c : PlayingCard) → has_card result.1 c ≡ true → top c
            ≡ true) → IsSettled top self.now card }
        ensures board { IsBoard self.now }
    {
        let trick = self.trick;
        let [first, second, third] = trick;
        let (winner, won) = winner_with_card(first, second, third, card, self.start.strain());
        let others = four_cards(first, second, third, card)
            .of_suit_at(won)
            .without_place(won);
        if others.is_empty() {
            (winner, WinningRanks::new())
        } else {
            (winner, WinningRanks::down_to_place(won))
        }
    }

    /// The start of the next trick by relative ranks, where this legal card completes the trick, which `winner` wins, who is North
    /// there.
    #[inline]
    pub fn next_start(&self, card: Place, winner: Seat) -> ComingStart
        requires turn { length self.now.trick ≡ 3 }
        requires card { has_card (legal self.now) card ≡ true }
        requires winner { winner ≡ (after self.now card).first }
        ensures alike { AreAlike (after self.now card) result }
        ensures relative { IsRelative result }
        ensures tricks { tricks_left result ≡ tricks_left (after self.now card) }
        ensures cards { cards_left result ≡ cards_left (after self.now card) }
    {
        let trick = self.trick;
        let [first, second, third] = trick;
        let (leader_left, second_left, third_left, fourth_left) = turned(
            self.start.hand(0).without_place(first),
            self.start.hand(1).without_place(second),
            self.start.hand(2).without_place(third),
            self.start.hand(3).without_place(card),
            winner,
        );
        let strain = self.start.strain();
        let next = closed_over(
            leader_left,
            second_left,
            third_left,
            fourth_left,
            strain,
            first,
            second,
            third,
            card,
        );
        ComingStart::new(next, winner)
    }

    /// The tricks left when this legal card completes the trick.
    #[inline(always)]
    pub fn tricks_left_with(&self, card: Place) -> u8
        requires turn { length self.now.trick ≡ 3 }
        requires card { has_card (legal self.now) card ≡ true }
        ensures tricks { result ≡ tricks_left (after self.now card) }
        ensures bound { result ≤ 13 }
    {
        // The proof reads here that the hands of a board are as long as each other.
        let _played = self.played;
        self.start.hand(3).without_place(card).len()
    }

    /// The winning ranks of the next start, as they stand among the cards that this legal card leaves in the hands, where it
    /// completes the trick.
    #[inline]
    pub fn ranks_before(&self, card: Place, later: &WinningRanks) -> WinningRanks
        requires turn { length self.now.trick ≡ 3 }
        requires card { has_card (legal self.now) card ≡ true }
        ensures { AreBefore (after self.now card) later.now result }
    {
        let _start = self.start.start();
        let trick = self.trick;
        let [first, second, third] = trick;
        before_trick(later, first, second, third, card)
    }

    // The hand of the mover, which is as it was before the trick.
    #[inline(always)]
    fn hand_at(&self, played: u8) -> Hand
        requires { length self.now.trick ≡ played }
        ensures { result ≡ cards_at self.now (mover self.now) }
    {
        // The proof reads here that no more than three cards lie on the trick.
        let _played = self.played;
        self.start.hand(played)
    }
}

// Of these cards those of the suit led, or all where there are none.
#[inline(always)]
fn following(hand: Hand, led: Place) -> Hand
    ensures { result ≡ or_else (filter (is_of led.suit) hand) hand }
{
    let same = hand.of_suit_at(led);
    if same.is_empty() { hand } else { same }
}

// The hands from a seat on.
// By choice: a branch to one of four places would seldom be foreseen.
#[inline(always)]
fn turned(north: Hand, east: Hand, south: Hand, west: Hand, seat: Seat) -> (Hand, Hand, Hand, Hand)
    ensures { dealt result.0 result.1 result.2 result.3 ≡ from_seat (dealt north east south west) seat }
{
    let code = seat.code();
    let is_far = code > 1;
    let first = chosen(is_far, south, north);
    let second = chosen(is_far, west, east);
    let third = chosen(is_far, north, south);
    let fourth = chosen(is_far, east, west);
    let is_odd = code % 2 == 1;
    (
        chosen(is_odd, second, first),
        chosen(is_odd, third, second),
        chosen(is_odd, fourth, third),
        chosen(is_odd, first, fourth),
    )
}

// One of two hands.
#[inline(always)]
fn chosen(wanted: bool, hand: Hand, other: Hand) -> Hand
    ensures { result ≡ (if wanted then hand else other) }
{
    if wanted { hand } else { other }
}

// The three places with the card at this one.
#[inline(always)]
fn with_place(trick: [Place; 3], place: u8, card: Place) -> [Place; 3]
    requires { place < 3 }
    ensures { result ≡ slice_set trick place card }
{
    let [first, second, third] = trick;
    [
        if place == 0 { card } else { first },
        if place == 1 { card } else { second },
        if place == 2 { card } else { third },
    ]
}

// The card at this place of four: two choices, and no branch to one of four places.
#[inline(always)]
fn one_of_four(place: u8, a: Place, b: Place, c: Place, d: Place) -> Place
    requires { place < 4 }
    ensures { result ≡ slice_index_or (a ∷ b ∷ c ∷ d ∷ []) place d }
{
    let is_even = place % 2 == 0;
    let early = if is_even { a } else { b };
    let late = if is_even { c } else { d };
    if place < 2 { early } else { late }
}
