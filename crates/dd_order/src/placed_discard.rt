//! What cards are worth to a hand that has none of the suit led, in a trick by relative ranks: what `discard.rt` tells, by masks of hands.

use crate::discard::{
    DiscardWorth, Discarding, FOURTH_HAND, LAST_ON_PARTNERS_TRICK, ON_PARTNERS_TRICK, SECOND_HAND,
    THIRD_HAND,
};
use crate::placed_follow::{above_highest, bit_of, trumps_beside};
use crate::placed_view::BestCard;
use crate::turn::Turn;
use dd_cards::{Hand, Place, Strain};
use dd_relative::PlacedTrick;

/// What the cards of the mover are worth, whose turn it is after the lead.
// For each turn a function of its own: with their code in each walk of a hand these would grow too large to be copied.
#[inline(always)]
pub(crate) fn discarding(trick: &PlacedTrick<'_>, turn: Turn) -> Discarding {
    match turn {
        Turn::First | Turn::Second => second(trick),
        Turn::Third => third(trick),
        Turn::Fourth => fourth(trick),
    }
}

// In one suit the greater mask has the higher card.
#[inline(never)]
fn second(trick: &PlacedTrick<'_>) -> Discarding {
    let led = trick.card_at(0);
    let trumps = trumps_beside(trick, led);
    let next = trick.hand_of(2);
    let last = trick.hand_of(3);
    let nexts = next.of_suit_at(led).mask();
    let partners = last.of_suit_at(led).mask();
    let ruffs = trumps_if_void(next, nexts, trumps);
    let may_ruff = trumps_if_void(last, partners, trumps) != 0;
    let wins = may_ruff | (partners > nexts.max(bit_of(led)));
    let worth = if (ruffs == 0) & wins {
        ON_PARTNERS_TRICK
    } else {
        SECOND_HAND
    };
    of_hand(trick, trumps, u64::MAX, ruffs, worth)
}

#[inline(never)]
fn third(trick: &PlacedTrick<'_>) -> Discarding {
    let led = trick.card_at(0);
    let trumps = trumps_beside(trick, led);
    let best = BestCard::of(trick, Turn::Third);
    let place = best.place;
    let partners = best.partners;
    let next = trick.hand_of(3);
    let nexts = next.of_suit_at(led).mask();
    let ruffs = trumps_if_void(next, nexts, trumps);
    let worth = if partners & (ruffs == 0) & (bit_of(place) > nexts) {
        ON_PARTNERS_TRICK
    } else {
        THIRD_HAND
    };
    of_hand(trick, trumps, above_ruff(place, led), ruffs, worth)
}

#[inline(never)]
fn fourth(trick: &PlacedTrick<'_>) -> Discarding {
    let led = trick.card_at(0);
    let trumps = trumps_beside(trick, led);
    let best = BestCard::of(trick, Turn::Fourth);
    let place = best.place;
    let worth = if best.partners {
        LAST_ON_PARTNERS_TRICK
    } else {
        FOURTH_HAND
    };
    of_hand(trick, trumps, above_ruff(place, led), 0, worth)
}

// By the bits of the trump suit, by those of trumps that beat what lies on the trick, and by the trumps with which the next hand can ruff.
#[inline(always)]
fn of_hand(
    trick: &PlacedTrick<'_>,
    trumps: u64,
    beat: u64,
    ruffs: u64,
    worth: DiscardWorth,
) -> Discarding {
    let hold = above_highest(u64::MAX, ruffs);
    let has_trumps = trick.start().start().strain() != Strain::Notrump;
    Discarding::by_bits(trumps, beat, hold, worth, has_trumps)
}

// The bits above the best card on the trick, where it is a ruff, and else all.
#[inline(always)]
fn above_ruff(best: Place, led: Place) -> u64 {
    if best.follows(led) {
        u64::MAX
    } else {
        u64::MAX << best.number() << 1
    }
}

// The trumps of a hand with these cards of the suit led, where these are none.
#[inline(always)]
fn trumps_if_void(hand: Hand, led: u64, trumps: u64) -> u64 {
    if led == 0 { hand.mask() & trumps } else { 0 }
}
