//! What an answer rests on, and which cards it answers for.
ghost use Rattle.std.specs.Prelude.{◌≡◌, ◌<◌, ◌⊎◌, Bool, true, false, length, Some, None, if◌then◌else◌};
ghost use Rattle.dd_cards.specs.PlayingCard.{PlayingCard};
ghost use Rattle.dd_cards.specs.Cards.{has_card};
ghost use Rattle.dd_play.specs.Tricks.{winner_of};
ghost use Rattle.dd_play.specs.Play.{legal, completes, trick_with};
ghost use Rattle.dd_play.specs.Covers.{IsSettled};
ghost use Rattle.dd_play.specs.Reach.{reach};

use dd_cards::{Card, Hand, Rank, Seat};
use dd_play::Position;

/// The winner of a trick that this legal card completes, if another card of its suit lies there, as a set.
#[inline(always)]
pub(crate) fn contested(position: &Position, card: Card, winner: Option<Seat>) -> Hand
    requires legal { has_card (legal position.now) card ≡ true }
    requires winner { winner ≡ (if completes position.now
        then Some (winner_of (trick_with position.now card) position.now.first position.now.strain)
        else None) }
    ensures { (top : PlayingCard → Bool) → ((c : PlayingCard) → has_card result c ≡ true
        → top c ≡ true) → IsSettled top position.now card }
{
    match position.contested_winner(card, winner) {
        Some(won) => {
            let _rank = won.rank.code();
            Hand::new().with(won)
        }
        None => Hand::new(),
    }
}

/// The cards that a claim about a legal card rests on: those that the claim after it rests on, and the contested winner of a trick
/// that it completes.
#[inline(always)]
pub(crate) fn settled_by(position: &Position, card: Card, contested: Hand, cards: Hand) -> Hand
    requires { (top : PlayingCard → Bool) → ((c : PlayingCard) → has_card contested c ≡ true
        → top c ≡ true) → IsSettled top position.now card }
    ensures more { (c : PlayingCard) → has_card cards c ≡ true → has_card result c ≡ true }
    ensures settled { IsSettled (reach result) position.now card }
{
    cards.union(contested)
}

/// Of the cards still to try those that the failure of this one says nothing of: not the card itself, and where it is lower
/// than all of its suit that its failure rests on, none of the suit that is lower than these.
#[inline]
pub(crate) fn still_untried(untried: Hand, card: Card, cards: Hand) -> Hand
    requires { has_card untried card ≡ true }
    ensures fewer { length result < length untried }
    ensures among { (c : PlayingCard) → has_card result c ≡ true → has_card untried c ≡ true }
    ensures told { (c : PlayingCard) → has_card untried c ≡ true → (has_card result c ≡ true)
        ⊎ ((c ≡ card) ⊎ ((c.suit ≡ card.suit) × (reach cards c ≡ false)
        × (reach cards card ≡ false))) }
{
    let suit = card.suit;
    let least = card.rank.code();
    // All are found, and then one is chosen: a branch would seldom be foreseen.
    let others = untried.without(card);
    let other_suits = untried.without_suit(suit);
    match cards.holding(suit).next_from(Rank::of(2)) {
        None => other_suits,
        Some(floor) => {
            let lowest = floor.code();
            let higher = untried.without_below(suit, floor);
            if least < lowest { higher } else { others }
        }
    }
}
