ghost use Rattle.std.specs.Prelude.{◌≡◌, ◌+◌, ◌<◌, ◌≤◌, ◌↔◌, ℕ, Bool, true, false, IsTrue, IsOk, IfOk, IfSome, Some, None, Err, [], ◌∷◌, nat_lt, length, take, slice_set, slice_index_or, if◌then◌else◌};
ghost use Rattle.std.specs.Bool.{OnTrue, OnFalse};
ghost use Rattle.dd_cards.specs.declared.seat.Seat.TheVariants.{North};
ghost use Rattle.dd_cards.specs.PlayingCard.{PlayingCard};
ghost use Rattle.dd_cards.specs.Cards.{has_card, is_of};
ghost use Rattle.dd_cards.specs.Ranks.{IsRank};
ghost use Rattle.dd_cards.specs.Seats.{seat_after};
ghost use Rattle.dd_cards.specs.Hands.{dealt, hand_of, times, AreHands};
ghost use Rattle.dd_cards.specs.Same.{same_cards};
ghost use Rattle.dd_play.specs.Board.{board_of, IsBoard, mover, tricks_left, times_in};
ghost use Rattle.dd_play.specs.InPlay.{is_in_hands, is_in_play};
ghost use Rattle.dd_play.specs.Tricks.{winner_of};
ghost use Rattle.dd_play.specs.Play.{legal, completes, trick_with, after, hands_after};
ghost use Rattle.dd_play.specs.Covers.{IsSettled, count_of};
ghost use Rattle.dd_play.specs.Same.{same-board, same-board-partial, same_board};

use crate::play_fault::PlayFault;
use crate::trick_winner::winner;
use crate::turn::seat_after;
use dd_cards::{Card, Hand, Hands, Seat, Strain, Suit};
use std::marker::Model;

/// A legal state of play: four hands, the strain, the seat that leads, and up to three cards on the trick.
#[derive(Drop)]
pub struct Position {
    hands: Hands,
    // the cards in the hands and on the trick, which are the same while it lasts
    in_play: Hand,
    strain: Strain,
    first: Seat,
    trick: [Card; 3],
    played: u8,
}

impl Model for Position {
    ghost use Rattle.std.specs.Prelude.{take, length, ◌≡◌, ◌≤◌};
    ghost use Rattle.dd_cards.specs.PlayingCard.{PlayingCard};
    ghost use Rattle.dd_cards.specs.Cards.{has_card};
    ghost use Rattle.dd_play.specs.Board.{Board, board_of, IsBoard};
    ghost use Rattle.dd_play.specs.InPlay.{is_in_play};

    ghost Value = { Board };

    ghost view = { λ p. board_of p.hands p.strain p.first (take p.played p.trick) };

    ghost invariant = { λ p. (p.played ≤ 3) × (length p.trick ≡ 3)
        × IsBoard (board_of p.hands p.strain p.first (take p.played p.trick))
        × ((c : PlayingCard) → has_card p.in_play c
        ≡ is_in_play (board_of p.hands p.strain p.first (take p.played p.trick)) c) };
}

impl Position {
    ghost use Rattle.dd_play.specs.Positions.{CanPlay, IsFirstFault};

    /// The position of these hands, with the cards of `trick` played in order, the first of them by `first`, who leads
    /// where there is none. Refused, in this order: more than three cards on the trick (`Played`), a card that stands
    /// twice (`Twice`), numbers of cards that do not fit (`Uneven`), a hand to play without a card (`Empty`).
    pub fn new(
        hands: Hands,
        strain: Strain,
        first: Seat,
        trick: &[Card],
    ) -> Result<Position, PlayFault>
        ensures legal { IsOk result ↔ CanPlay (board_of hands strain first trick.now) }
        ensures board { IfOk result (λ p. p ≡ board_of hands strain first trick.now) }
        ensures faults { (fault : PlayFault) →
            (result ≡ Err fault) ↔ IsFirstFault fault (board_of hands strain first trick.now) }
    {
        if trick.len() > 3 {
            return Err(PlayFault::Played);
        }
        let played = trick.len() as u8;
        let left = hands.hand(seat_after(first, played)).len();
        if stands_twice(&hands, trick) {
            return Err(PlayFault::Twice);
        }
        if !is_even(&hands, first, played, left) {
            return Err(PlayFault::Uneven);
        }
        if left == 0 {
            return Err(PlayFault::Empty);
        }
        let places = three_places(trick);
        let in_play = in_hands(&hands).union(of_trick(places, played));
        Ok(Position {
            hands,
            in_play,
            strain,
            first,
            trick: places,
            played,
        })
    }

    // The start of a trick that North leads to, of these hands from North on.
    #[inline(always)]
    pub(crate) fn led_by_north(
        north: Hand,
        east: Hand,
        south: Hand,
        west: Hand,
        strain: Strain,
    ) -> Position
        requires { IsBoard (board_of (dealt north east south west) strain North []) }
        ensures { result ≡ board_of (dealt north east south west) strain North [] }
    {
        let north_east = north.union(east);
        let south_west = south.union(west);
        let in_play = north_east.union(south_west);
        Position {
            hands: Hands::of_four(north, east, south, west),
            in_play,
            strain,
            first: Seat::North,
            trick: [Card::default(); 3],
            played: 0,
        }
    }

    /// An equal position.
    pub fn copy(&self) -> Position
        ensures same { result ≡ self.now }
        ensures board { IsBoard self.now }
    {
        Position {
            hands: self.hands.copy(),
            in_play: self.in_play,
            strain: self.strain,
            first: self.first,
            trick: self.trick,
            played: self.played,
        }
    }

    /// The same start of a trick, where this seat leads.
    #[inline]
    pub fn led_by(&self, leader: Seat) -> Position
        requires start { self.now.trick ≡ [] }
        ensures led { result ≡ board_of self.now.hands self.now.strain leader [] }
        ensures board { IsBoard self.now }
    {
        Position {
            hands: self.hands.copy(),
            in_play: self.in_play,
            strain: self.strain,
            first: leader,
            trick: self.trick,
            played: 0,
        }
    }

    pub fn hands(&self) -> &Hands
        ensures hands { result.now ≡ self.now.hands }
        ensures board { IsBoard self.now }
    {
        &self.hands
    }

    pub fn strain(&self) -> Strain
        ensures { result ≡ self.now.strain }
    {
        self.strain
    }

    /// The seat that leads, or led, to the current trick.
    pub fn first(&self) -> Seat
        ensures { result ≡ self.now.first }
    {
        self.first
    }

    /// The cards on the current trick, in the order of play.
    pub fn trick(&self) -> &[Card]
        ensures cards { result.now ≡ self.now.trick }
        ensures bound { length result.now ≤ 3 }
        ensures board { IsBoard self.now }
    {
        &self.trick[..self.played as usize]
    }

    /// The cards in the hands and on the trick, as a set.
    #[inline(always)]
    pub fn in_play(&self) -> Hand
        ensures cards { (c : PlayingCard) → has_card result c ≡ is_in_play self.now c }
        ensures board { IsBoard self.now }
    {
        self.in_play
    }

    /// The seat to play.
    pub fn mover(&self) -> Seat
        ensures seat { result ≡ mover self.now }
        ensures board { IsBoard self.now }
    {
        self.mover_at(self.played)
    }

    /// The same, where so many cards are known to lie on the trick. Where the number is a constant no code looks at how many do: so
    /// with each call that is told it.
    #[inline(always)]
    pub fn mover_at(&self, played: u8) -> Seat
        requires { length self.now.trick ≡ played }
        ensures seat { result ≡ mover self.now }
        ensures board { IsBoard self.now }
    {
        seat_after(self.first, played)
    }

    /// The tricks left, the current one included: 0 to 13.
    pub fn tricks_left(&self) -> u8
        ensures tricks { result ≡ tricks_left self.now }
        ensures bound { result ≤ 13 }
        ensures board { IsBoard self.now }
    {
        self.hands.len(self.mover())
    }

    /// The cards that may be played, as a set.
    pub fn choices(&self) -> Hand
        ensures cards { result ≡ legal self.now }
        ensures bound { length result ≤ 13 }
        ensures board { IsBoard self.now }
    {
        self.choices_at(self.played)
    }

    /// The same, where so many cards are known to lie on the trick.
    #[inline(always)]
    pub fn choices_at(&self, played: u8) -> Hand
        requires { length self.now.trick ≡ played }
        ensures cards { result ≡ legal self.now }
        ensures bound { length result ≤ 13 }
        ensures board { IsBoard self.now }
    {
        let hand = self.hands.hand(self.mover_at(played));
        if played == 0 {
            return hand;
        }
        let led = self.trick[0];
        let same = hand.of_suit(led.suit);
        if same.is_empty() { hand } else { same }
    }

    /// May the seat to play choose this card?
    pub fn is_legal(&self, card: Card) -> bool
        ensures { result ≡ has_card (legal self.now) card }
    {
        let mover = self.mover();
        if !self.hands.has(mover, card) {
            return false;
        }
        if self.played == 0 {
            return true;
        }
        let led = self.trick[0];
        led.suit == card.suit || self.hands.hand(mover).of_suit(led.suit).is_empty()
    }

    /// The position after this legal card, and the winner of the trick where the card completes it.
    #[inline(always)]
    pub fn play(&self, card: Card) -> (Position, Option<Seat>)
        requires { has_card (legal self.now) card ≡ true }
        ensures next { result.0 ≡ after self.now card }
        ensures wins { result.1 ≡ (if completes self.now
            then Some (winner_of (trick_with self.now card) self.now.first self.now.strain) else
            None) }
        ensures board { IsBoard self.now }
        ensures legal { IsBoard result.0 }
    {
        self.play_at(self.played, card)
    }

    /// The same, where so many cards are known to lie on the trick.
    #[inline(always)]
    pub fn play_at(&self, played: u8, card: Card) -> (Position, Option<Seat>)
        requires turn { length self.now.trick ≡ played }
        requires card { has_card (legal self.now) card ≡ true }
        ensures next { result.0 ≡ after self.now card }
        ensures wins { result.1 ≡ (if completes self.now
            then Some (winner_of (trick_with self.now card) self.now.first self.now.strain) else
            None) }
        ensures board { IsBoard self.now }
        ensures legal { IsBoard result.0 }
    {
        let hands = self.hands_without(card);
        if played == 3 {
            let trick = [self.trick[0], self.trick[1], self.trick[2], card];
            let seat = winner(&trick, self.first, self.strain);
            let in_play = in_hands(&hands);
            let next = Position {
                hands,
                in_play,
                strain: self.strain,
                first: seat,
                trick: self.trick,
                played: 0,
            };
            (next, Some(seat))
        } else {
            let next = Position {
                hands,
                in_play: self.in_play,
                strain: self.strain,
                first: self.first,
                trick: with_place(self.trick, played, card),
                played: played + 1,
            };
            (next, None)
        }
    }

    /// Of a trick that this legal card completes, won by `winner`: the card that wins it, if another card of its suit lies
    /// there. Then the winner rests on that card, and else on none.
    #[inline(always)]
    pub fn contested_winner(&self, card: Card, winner: Option<Seat>) -> Option<Card>
        requires legal { has_card (legal self.now) card ≡ true }
        requires winner { winner ≡ (if completes self.now
            then Some (winner_of (trick_with self.now card) self.now.first self.now.strain) else
            None) }
        ensures { (top : PlayingCard → Bool) → IfSome result (λ won. top won ≡ true)
            → IsSettled top self.now card }
    {
        let Some(seat) = winner else {
            return None;
        };
        let [a, b, c] = self.trick;
        let place = (seat.code() + 4 - self.first.code()) % 4;
        let won = one_of_four(place, a, b, c, card);
        if count_of(won.suit, a, b, c, card) > 1 {
            Some(won)
        } else {
            None
        }
    }

    // The hands when the mover has played this card. No other hand has it.
    #[inline]
    fn hands_without(&self, card: Card) -> Hands
        requires { has_card (legal self.now) card ≡ true }
        ensures hands { result ≡ hands_after self.now card }
        ensures board { IsBoard self.now }
    {
        self.hands.without(card)
    }
}

impl PartialEq for Position {
    ghost eq = { same_board };

    ghost laws = { same-board-partial };

    fn eq(&self, other: &Position) -> bool {
        self.hands == other.hands
            && self.strain.code() == other.strain.code()
            && self.first.code() == other.first.code()
            && is_same_trick(self.trick(), other.trick())
    }
}

impl Eq for Position {
    ghost laws = { same-board };
}

// Are the cards of both tricks the same, in the same order?
fn is_same_trick(trick: &[Card], other: &[Card]) -> bool
    ensures { result ≡ same_cards trick.now other.now }
{
    trick == other
}

// The cards in the four hands, as a set.
#[inline(always)]
fn in_hands(hands: &Hands) -> Hand
    ensures { (c : PlayingCard) → has_card result c ≡ is_in_hands hands.now c }
{
    let north_east = hands.hand(Seat::North).union(hands.hand(Seat::East));
    let south_west = hands.hand(Seat::South).union(hands.hand(Seat::West));
    north_east.union(south_west)
}

// The cards of a trick, as a set: so many of these.
// Without a branch on how many there are: each place has some card.
fn of_trick(places: [Card; 3], played: u8) -> Hand
    requires places { length places ≡ 3 }
    requires few { played ≤ 3 }
    ensures { (c : PlayingCard) → has_card result c ≡ has_card (take played places) c }
{
    let [first, second, third] = places;
    Hand::new()
        .with_if(first, played > 0)
        .with_if(second, played > 1)
        .with_if(third, played > 2)
}

// The card at this place of four: two choices, and no branch to one of four places.
#[inline(always)]
fn one_of_four(place: u8, a: Card, b: Card, c: Card, d: Card) -> Card
    requires { place < 4 }
    ensures { result ≡ slice_index_or (a ∷ b ∷ c ∷ d ∷ []) place d }
{
    let is_even = place % 2 == 0;
    let early = if is_even { a } else { b };
    let late = if is_even { c } else { d };
    if place < 2 { early } else { late }
}

// How many of four cards are of this suit.
#[inline(always)]
fn count_of(suit: Suit, a: Card, b: Card, c: Card, d: Card) -> u8
    ensures { result ≡ count_of suit (a ∷ b ∷ c ∷ d ∷ []) }
{
    one_of(suit, a) + one_of(suit, b) + one_of(suit, c) + one_of(suit, d)
}

// 1 for a card of this suit.
#[inline(always)]
fn one_of(suit: Suit, card: Card) -> u8
    ensures value { result ≡ (if is_of suit card then 1 else 0) }
    ensures bound { result ≤ 1 }
{
    if card.suit == suit { 1 } else { 0 }
}

// The three places with the card at this one, by choice and not by address: a place that was written would be read again
// before its write is done. One choice a place, and no branch to one of three.
#[inline]
fn with_place(trick: [Card; 3], place: u8, card: Card) -> [Card; 3]
    requires { place < 3 }
    ensures { result ≡ slice_set trick place card }
{
    let [first, second, third] = trick;
    [
        if place == 0 { card } else { first },
        if place == 1 { card } else { second },
        if place == 2 { card } else { third },
    ]
}

// Does a card stand twice among the hands and the trick?
fn stands_twice(hands: &Hands, trick: &[Card]) -> bool
    requires { AreHands hands.now }
    ensures twice { OnTrue result (¬ ((c : PlayingCard)
        → times_in hands.now c + times trick.now c ≤ 1)) }
    ensures once { OnFalse result ((c : PlayingCard)
        → times_in hands.now c + times trick.now c ≤ 1) }
    ensures real { OnFalse result ((c : PlayingCard) → has_card trick.now c ≡ true
        → IsRank c.rank) }
{
    let mut seen = hands.copy();
    for card in trick {
        let card = *card;
        let _rank = card.rank.code();
        if !seen.insert(Seat::North, card) {
            return true;
        }
    }
    false
}

// Does the hand of each seat that has played to the trick have one card fewer than `left`, and each other hand `left`?
fn is_even(hands: &Hands, first: Seat, played: u8, left: u8) -> bool
    requires { AreHands hands.now }
    ensures { IsTrue result ↔ ((k : ℕ) → k < 4 →
        length (hand_of hands.now (seat_after first k)) + (if nat_lt k played then 1 else 0)
        ≡ left) }
{
    for k in 0..4 {
        let has_played = if k < played { 1 } else { 0 };
        if hands.len(seat_after(first, k)) + has_played != left {
            return false;
        }
    }
    true
}

// The cards of a trick in an array, which is filled up with any card.
fn three_places(trick: &[Card]) -> [Card; 3]
    requires { length trick.now ≤ 3 }
    ensures cards { take (length trick.now) result ≡ trick.now }
    ensures length { length result ≡ 3 }
{
    let filler = Card::default();
    match trick {
        [] => [filler, filler, filler],
        [a] => [*a, filler, filler],
        [a, b] => [*a, *b, filler],
        [a, b, c] => [*a, *b, *c],
        _ => unreachable!(),
    }
}
