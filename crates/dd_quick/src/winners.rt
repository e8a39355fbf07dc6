//! The cards that others can't beat, and a claim that rests on the highest of them.
ghost use Rattle.std.specs.Prelude.{◌≡◌, ◌≤◌, ◌&&◌, ◌||◌, ℕ, [], true, MatchOption, length, map, filter, min, nat_lt, slice_get};
ghost use mathlib.Core.Bool.{not};
ghost use Rattle.dd_cards.specs.declared.seat.Seat.{Seat as SeatOf};
ghost use Rattle.dd_cards.specs.declared.suit.Suit.{Suit as SuitOf};
ghost use Rattle.dd_cards.specs.PlayingCard.{PlayingCard};
ghost use Rattle.dd_cards.specs.Cards.{is_of, card_of, has_card};
ghost use Rattle.dd_cards.specs.Ranks.{all_ranks, has_rank};
ghost use Rattle.dd_play.specs.Board.{Board, IsBoard, cards_at};
ghost use Rattle.dd_cards.specs.Seats.{seat_after};
ghost use Rattle.dd_quick.specs.QuickTricks.{is_ahead, is_winner, is_unbeaten, is_next};
ghost use Rattle.dd_quick.specs.QuickTricks.{length_at, trumps_at};
ghost use Rattle.dd_quick.specs.Seen.{IsSeen, AreRanks};

use dd_cards::{Card, Hand, Holding, Seat, Strain, Suit};
use dd_play::Position;

/// The cards of the four hands, clockwise from the leader's, and how many trumps, 0 to 13, each opponent has.
#[derive(Drop)]
pub(crate) struct Seen {
    pub(crate) own: Hand,
    pub(crate) left: Hand,
    pub(crate) partner: Hand,
    pub(crate) right: Hand,
    pub(crate) left_trumps: u8,
    pub(crate) right_trumps: u8,
}

/// The ranks of a suit in the four hands, clockwise from a seat's own.
#[derive(Drop)]
pub(crate) struct Ranks {
    pub(crate) own: Holding,
    pub(crate) left: Holding,
    pub(crate) partner: Holding,
    pub(crate) right: Holding,
}

/// The hands as the leader sees them: turned once for a question, and not anew for each of its suits.
#[inline(always)]
pub(crate) fn seen_by_leader(position: &Position) -> Seen
    ensures { IsSeen position.now result.own result.left result.partner result.right
        result.left_trumps result.right_trumps }
{
    let leader = position.first();
    let hands = position.hands();
    let left = hands.hand(leader.left());
    let right = hands.hand(leader.right());
    Seen {
        own: hands.hand(leader),
        left,
        partner: hands.hand(leader.partner()),
        right,
        left_trumps: trumps_in(position.strain(), left),
        right_trumps: trumps_in(position.strain(), right),
    }
}

// How many trumps are among the cards.
#[inline(always)]
fn trumps_in(strain: Strain, cards: Hand) -> u8
    ensures { (p : Board) (seat : SeatOf) → cards ≡ cards_at p seat
        → result ≡ trumps_at strain p seat }
{
    match strain {
        Strain::Trump(trump) => cards.holding(trump).len(),
        Strain::Notrump => 0,
    }
}

/// Their ranks of the suit.
#[inline(always)]
pub(crate) fn ranks_of(seen: &Seen, suit: Suit) -> Ranks
    ensures { (p : Board) → IsSeen p seen.now.own seen.now.left seen.now.partner seen.now.right
        seen.now.left_trumps seen.now.right_trumps
        → AreRanks p p.first suit result.own result.left result.partner result.right }
{
    Ranks {
        own: seen.own.holding(suit),
        left: seen.left.holding(suit),
        partner: seen.partner.holding(suit),
        right: seen.right.holding(suit),
    }
}

/// The ranks of the suit as this seat sees them.
pub(crate) fn ranks_at(position: &Position, seat: Seat, suit: Suit) -> Ranks
    ensures { AreRanks position.now seat suit result.own result.left result.partner result.right }
{
    let hands = position.hands();
    Ranks {
        own: hands.holding(seat, suit),
        left: hands.holding(seat.left(), suit),
        partner: hands.holding(seat.partner(), suit),
        right: hands.holding(seat.right(), suit),
    }
}

/// The highest remaining cards of the suit that the seat holds without a gap.
pub(crate) fn run(position: &Position, seat: Seat, suit: Suit) -> Holding
    ensures cards { map (card_of suit) result ≡ filter
        (λ c. is_of suit c && is_winner position.now seat c) (cards_at position.now seat) }
    ensures board { IsBoard position.now }
{
    own_run(&ranks_at(position, seat, suit))
}

/// The cards of the suit that the leader's partner holds next below the leader's run.
pub(crate) fn next_run(position: &Position, suit: Suit) -> Holding
    ensures cards { map (card_of suit) result ≡ filter
        (λ c. is_of suit c && is_next position.now c)
        (cards_at position.now (seat_after position.now.first 2)) }
    ensures board { IsBoard position.now }
{
    partners_run(&ranks_at(position, position.first(), suit))
}

/// Of its own ranks those of the highest remaining cards without a gap.
#[inline(always)]
pub(crate) fn own_run(ranks: &Ranks) -> Holding
    ensures { (p : Board) (seat : SeatOf) (suit : SuitOf)
        → AreRanks p seat suit ranks.now.own ranks.now.left ranks.now.partner ranks.now.right
        → map (card_of suit) result ≡ filter (λ c. is_of suit c && is_winner p seat c)
        (cards_at p seat) }
{
    let theirs = ranks.left.union(ranks.partner);
    above_all(ranks.own, theirs.union(ranks.right))
}

/// Of its own ranks those below them.
#[inline(always)]
fn below_run(ranks: &Ranks) -> Holding
    ensures { (p : Board) (seat : SeatOf) (suit : SuitOf)
        → AreRanks p seat suit ranks.now.own ranks.now.left ranks.now.partner ranks.now.right
        → map (card_of suit) result ≡ filter (λ c. is_of suit c && not (is_winner p seat c))
        (cards_at p seat) }
{
    let theirs = ranks.left.union(ranks.partner);
    below_highest(ranks.own, theirs.union(ranks.right))
}

/// Of the partner's ranks those that only the seat's run is above.
#[inline(always)]
pub(crate) fn partners_run(ranks: &Ranks) -> Holding
    ensures { (p : Board) (suit : SuitOf)
        → AreRanks p p.first suit ranks.now.own ranks.now.left ranks.now.partner ranks.now.right
        → map (card_of suit) result ≡ filter (λ c. is_of suit c && is_next p c)
        (cards_at p (seat_after p.first 2)) }
{
    let low = below_run(ranks);
    above_all(partners_unbeaten(ranks), low)
}

/// Of its own ranks those that no opponent can beat.
#[inline(always)]
pub(crate) fn own_unbeaten(ranks: &Ranks) -> Holding
    ensures { (p : Board) (seat : SeatOf) (suit : SuitOf)
        → AreRanks p seat suit ranks.now.own ranks.now.left ranks.now.partner ranks.now.right
        → map (card_of suit) result ≡ filter (λ c. is_of suit c && is_unbeaten p seat c)
        (cards_at p seat) }
{
    above_all(ranks.own, ranks.left.union(ranks.right))
}

/// Of the left opponent's ranks those that the right one can't beat.
#[inline(always)]
pub(crate) fn left_ahead(ranks: &Ranks) -> Holding
    ensures { (p : Board) (suit : SuitOf)
        → AreRanks p p.first suit ranks.now.own ranks.now.left ranks.now.partner ranks.now.right
        → map (card_of suit) result ≡ filter
        (λ c. is_of suit c && is_ahead p (seat_after p.first 1) c)
        (cards_at p (seat_after p.first 1)) }
{
    above_all(ranks.left, ranks.right)
}

/// Of the right opponent's ranks those that the left one can't beat.
#[inline(always)]
pub(crate) fn right_ahead(ranks: &Ranks) -> Holding
    ensures { (p : Board) (suit : SuitOf)
        → AreRanks p p.first suit ranks.now.own ranks.now.left ranks.now.partner ranks.now.right
        → map (card_of suit) result ≡ filter
        (λ c. is_of suit c && is_ahead p (seat_after p.first 3) c)
        (cards_at p (seat_after p.first 3)) }
{
    above_all(ranks.right, ranks.left)
}

/// Of the partner's ranks those that no opponent can beat.
#[inline(always)]
pub(crate) fn partners_unbeaten(ranks: &Ranks) -> Holding
    ensures { (p : Board) (suit : SuitOf)
        → AreRanks p p.first suit ranks.now.own ranks.now.left ranks.now.partner ranks.now.right
        → map (card_of suit) result ≡ filter
        (λ c. is_of suit c && is_unbeaten p (seat_after p.first 2) c)
        (cards_at p (seat_after p.first 2)) }
{
    above_all(ranks.partner, ranks.right.union(ranks.left))
}

/// The ranks above all of these others.
#[inline]
pub(crate) fn above_all(own: Holding, others: Holding) -> Holding
    ensures { MatchOption (slice_get others 0) (result ≡ own)
        (λ r. result ≡ filter (λ q. nat_lt r q) own) }
{
    match others.highest() {
        Some(highest) => own.above(highest),
        None => own,
    }
}

/// The ranks below the highest of these others.
#[inline]
pub(crate) fn below_highest(own: Holding, others: Holding) -> Holding
    ensures { MatchOption (slice_get others 0) (result ≡ [])
        (λ r. result ≡ filter (λ q. nat_lt q r) own) }
{
    match others.highest() {
        Some(highest) => own.below(highest),
        None => Holding::new(),
    }
}

/// How many cards of the suit the seat holds.
#[inline(always)]
pub(crate) fn length(position: &Position, seat: Seat, suit: Suit) -> u8
    ensures length { result ≡ length_at position.now seat suit }
    ensures bound { result ≤ 13 }
{
    position.hands().holding(seat, suit).len()
}

/// How many trumps the seat holds.
pub(crate) fn trumps(position: &Position, seat: Seat) -> u8
    ensures trumps { result ≡ trumps_at position.now.strain position.now seat }
    ensures bound { result ≤ 13 }
{
    match position.strain() {
        Strain::Trump(trump) => length(position, seat, trump),
        Strain::Notrump => 0,
    }
}

/// These cards and the highest ones of the suit, so many of these ranks.
pub(crate) fn with_highest(cards: Hand, suit: Suit, ranks: Holding, count: u8) -> Hand
    ensures more { (c : PlayingCard) → has_card cards c ≡ true → has_card result c ≡ true }
    ensures most { min count (length ranks)
        ≤ length (filter (λ q. has_card result (card_of suit q)) ranks) }
{
    // The proof reads here that the cards are cards of the pack.
    let _ = cards.holding(suit);
    let mut cards = cards;
    let mut rest = ranks;
    for _ in 0..count {
        if let Some(rank) = rest.pop_highest() {
            // The proof reads here that it is the rank of a card of the pack.
            let _ = rank.code();
            cards = cards.with(Card { suit, rank });
        }
    }
    cards
}
