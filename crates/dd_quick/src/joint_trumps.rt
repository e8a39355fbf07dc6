//! Joint trumps. Of the trumps of some rank or higher those of a side's two hands take a trick each, as long as one of the
//! hands has a trump for each, but for as many tricks as the opponents have such trumps: a trick that none of these trumps wins
//! need cost the side none of them, and one that such a trump wins costs it one of them, two only where neither hand has
//! another card to play; and where it is an opponent's, that one is gone. The leader's side keeps its trumps while it cashes
//! side suits, so both numbers add up. Trumps that the leader draws first would not: two of them may fall on one trick.
ghost use Rattle.std.specs.Prelude.{◌≡◌, ◌≤◌, ◌+◌, ◌-◌, ◌||◌, ℕ, true, false, IfSome, IsSome, MatchOption, filter, length, min, nat_le};
ghost use Rattle.dd_cards.specs.PlayingCard.{PlayingCard};
ghost use Rattle.dd_cards.specs.Cards.{card_of, has_card};
ghost use Rattle.dd_cards.specs.Ranks.{all_ranks, has_rank};
ghost use Rattle.dd_cards.specs.Seats.{seat_after};
ghost use Rattle.dd_play.specs.Board.{IsBoard, cards_at};
ghost use Rattle.dd_quick.specs.Seen.{IsRanks};
ghost use Rattle.dd_quick.specs.QuickTricks.{RestsOnTrumps, from_rank, greatest, joint_trumps, longer_of};

use crate::winners::{above_all, below_highest, length};
use dd_cards::{Card, Hand, Holding, Rank, Seat, Strain, Suit};
use dd_play::Position;

/// How many tricks, 0 to 13, the joint trumps of the seat and its partner take.
pub(crate) fn joint_trumps(position: &Position, seat: Seat) -> u8
    ensures tricks { result ≡ joint_trumps position.now.strain position.now seat }
    ensures bound { result ≤ 13 }
{
    let Strain::Trump(trump) = position.strain() else {
        return 0;
    };
    let left = seat.left();
    let ours = of_side(position, seat, trump);
    let theirs = of_side(position, left, trump);
    most_taken(ours, theirs, longer(position, seat, trump))
}

/// These cards and the lowest of the highest joint trumps on which so many tricks rest: none where no opponent has a trump.
pub(crate) fn with_trumps(position: &Position, seat: Seat, cards: Hand, tricks: u8) -> Hand
    ensures more { (c : PlayingCard) → has_card cards c ≡ true → has_card result c ≡ true }
    ensures trumps { tricks ≤ joint_trumps position.now.strain position.now seat
        → RestsOnTrumps position.now.strain position.now seat result tricks }
{
    let Strain::Trump(trump) = position.strain() else {
        return cards;
    };
    let left = seat.left();
    let right = seat.right();
    if tricks == 0 || length(position, left, trump) == 0 && length(position, right, trump) == 0 {
        return cards;
    }
    let ours = of_side(position, seat, trump);
    let theirs = of_side(position, left, trump);
    match lowest(ours, theirs, longer(position, seat, trump), tricks) {
        Some(rank) => with_trump(cards, trump, rank),
        None => cards,
    }
}

/// The same where the joint trumps take so many tricks, and none where they don't.
pub(crate) fn with_joint_trumps(
    position: &Position,
    seat: Seat,
    cards: Hand,
    tricks: u8,
) -> Option<Hand>
    ensures found { tricks ≤ joint_trumps position.now.strain position.now seat → IsSome result }
    ensures few { IfSome result (λ h. tricks ≤ joint_trumps position.now.strain position.now seat) }
    ensures more { IfSome result (λ h. (c : PlayingCard) → has_card cards c ≡ true
        → has_card h c ≡ true) }
    ensures trumps { IfSome result
        (λ h. RestsOnTrumps position.now.strain position.now seat h tricks) }
{
    if tricks == 0 {
        return Some(cards);
    }
    let Strain::Trump(trump) = position.strain() else {
        return None;
    };
    let left = seat.left();
    let right = seat.right();
    let ours = of_side(position, seat, trump);
    let theirs = of_side(position, left, trump);
    let longer = longer(position, seat, trump);
    let rank = lowest(ours, theirs, longer, tricks)?;
    if length(position, right, trump) == 0 && length(position, left, trump) == 0 {
        return Some(cards);
    }
    Some(with_trump(cards, trump, rank))
}

/// These cards and the trump of the rank.
pub(crate) fn with_trump(cards: Hand, trump: Suit, rank: Rank) -> Hand
    ensures more { (c : PlayingCard) → has_card cards c ≡ true → has_card result c ≡ true }
    ensures there { has_card result (card_of trump rank) ≡ true }
{
    // The proof reads here that these are cards of the pack.
    let _ = cards.holding(trump);
    let _ = rank.code();
    cards.with(Card { suit: trump, rank })
}

// The ranks of the suit that the seat and its partner hold.
fn of_side(position: &Position, seat: Seat, suit: Suit) -> Holding
    ensures from { (rank : ℕ) → length (filter (nat_le rank) result)
        ≡ from_rank position.now seat suit rank
        + from_rank position.now (seat_after seat 2) suit rank }
    ensures real { (rank : ℕ) → has_rank result rank ≡ true → has_rank all_ranks rank ≡ true }
    ensures ranks { IsRanks result }
    ensures held { (rank : ℕ) → has_rank result rank ≡ true
        → (has_card (cards_at position.now seat) (card_of suit rank)
        || has_card (cards_at position.now (seat_after seat 2)) (card_of suit rank)) ≡ true }
    ensures board { IsBoard position.now }
{
    let partner = seat.partner();
    let hands = position.hands();
    hands
        .holding(seat, suit)
        .union(hands.holding(partner, suit))
}

// The longer holding of the seat and its partner in the suit.
fn longer(position: &Position, seat: Seat, suit: Suit) -> u8
    ensures longer { result ≡ longer_of position.now seat suit }
    ensures bound { result ≤ 13 }
{
    let partner = seat.partner();
    length(position, seat, suit).max(length(position, partner, suit))
}

// Of these ranks, how many are not below this one.
#[inline]
fn from(ranks: Holding, rank: Rank) -> u8
    ensures from { result ≡ length (filter (nat_le rank) ranks) }
    ensures bound { result ≤ 13 }
{
    ranks.len() - ranks.below(rank).len()
}

// What a side's trumps of this rank or higher take, where its longer hand has so many.
#[inline]
fn taken(ours: Holding, theirs: Holding, longer: u8, rank: Rank) -> u8
    ensures { result ≡ min (length (filter (nat_le rank) ours)) longer
        - length (filter (nat_le rank) theirs) }
{
    from(ours, rank)
        .min(longer)
        .saturating_sub(from(theirs, rank))
}

// The most that the trumps of one of its ranks or higher take.
// A round for each sequence, since of one the lowest takes most, and none where what the opponents have above it leaves no more.
fn most_taken(ours: Holding, theirs: Holding, longer: u8) -> u8
    requires ours { IsRanks ours }
    requires theirs { IsRanks theirs }
    requires apart { (q : ℕ) → has_rank ours q ≡ true → has_rank theirs q ≡ false }
    ensures most { result ≡ greatest (λ rank. min (length (filter (nat_le rank) ours)) longer
        - length (filter (nat_le rank) theirs)) ours }
{
    let mut rest = ours;
    let mut most = 0;
    while let Some(rank) = rest.highest() {
        let over = from(theirs, rank);
        if longer <= most + over {
            return most;
        }
        let lower = theirs.below(rank);
        let held = above_all(ours, lower).len().min(longer);
        most = most.max(held.saturating_sub(over));
        rest = below_highest(rest, lower);
    }
    most
}

// The highest of its ranks from which on trumps take so many tricks.
fn lowest(ours: Holding, theirs: Holding, longer: u8, tricks: u8) -> Option<Rank>
    ensures { MatchOption result
        (tricks ≤ greatest (λ rank. min (length (filter (nat_le rank) ours)) longer
        - length (filter (nat_le rank) theirs)) ours → tricks ≡ 0)
        (λ rank. tricks ≤ min (length (filter (nat_le rank) ours)) longer
        - length (filter (nat_le rank) theirs)) }
{
    let mut rest = ours;
    while let Some(rank) = rest.pop_highest() {
        if tricks <= taken(ours, theirs, longer, rank) {
            return Some(rank);
        }
    }
    None
}
