//! Which card of the suit led looks best to a hand that follows: the groups of `follow.rt`, as masks of hands.
ghost use Rattle.std.specs.Prelude.{◌≡◌, [], MatchOption, true};
ghost use Rattle.dd_cards.specs.Cards.{has_card};

use crate::placed_view::BestCard;
use crate::suit_lanes::at;
use crate::turn::Turn;
use dd_cards::{Hand, Place, Strain};
use dd_relative::PlacedTrick;

/// The groups of the cards that a hand has of the suit led. What is in none comes last.
#[derive(Clone, Copy)]
pub(crate) struct PlacedFollowing {
    first: u64,
    second: u64,
    third: u64,
    // whether of the second group the highest card comes first
    is_high: bool,
}

impl PlacedFollowing {
    /// The groups of a hand that doesn't follow.
    #[inline(always)]
    pub(crate) fn nothing() -> PlacedFollowing {
        first_of_all(0)
    }

    /// The groups of these cards of the suit led.
    #[inline(always)]
    pub(crate) fn of(trick: &PlacedTrick<'_>, turn: Turn, own: Hand) -> PlacedFollowing {
        match turn {
            Turn::First | Turn::Second => second(trick, own.mask()),
            Turn::Third => third(trick, own.mask()),
            Turn::Fourth => fourth(trick, own.mask()),
        }
    }

    /// The best of the cards that were not tried yet, which are all of the suit led.
    #[inline(always)]
    pub(crate) fn best(&self, untried: Hand) -> Option<Place>
        ensures { MatchOption result (untried ≡ []) (λ card. has_card untried card ≡ true) }
    {
        let first = untried.among(self.first);
        if !first.is_empty() {
            return first.lowest_place();
        }
        let second = untried.among(self.second);
        if !second.is_empty() {
            return if self.is_high {
                second.highest_place()
            } else {
                second.lowest_place()
            };
        }
        let third = untried.among(self.third);
        if third.is_empty() {
            untried.lowest_place()
        } else {
            third.lowest_place()
        }
    }
}

// This group first, and then the others.
#[inline(always)]
fn first_of_all(first: u64) -> PlacedFollowing {
    PlacedFollowing {
        first,
        second: 0,
        third: 0,
        is_high: false,
    }
}

// Second hand: what wins for good; where partner ruffs then the lowest; else what makes just one of the side's two hands be
// ahead, then what makes both or none; last what the next hand beats whatever it plays.
#[inline]
fn second(trick: &PlacedTrick<'_>, own: u64) -> PlacedFollowing {
    let led = trick.card_at(0);
    let trumps = trumps_beside(trick, led);
    let next = trick.hand_of(2);
    let last = trick.hand_of(3);
    let nexts = next.of_suit_at(led).mask();
    let partners = last.of_suit_at(led).mask();
    let best = bit_of(led);
    let beats = above_lowest(own, best);
    let partner_beats = above_lowest(partners, best) != 0;
    if nexts == 0 && next.mask() & trumps != 0 {
        return first_of_all(if partner_beats { 0 } else { beats });
    }
    // In one suit the greater mask has the higher card.
    if partner_beats && partners > nexts {
        return first_of_all(0);
    }
    let first = above_highest(beats, nexts);
    if partners == 0 && last.mask() & trumps != 0 {
        return first_of_all(first);
    }
    let covers = above_lowest(beats, nexts);
    let under = own & best.wrapping_sub(1);
    let (second, third) = if partner_beats {
        (under, covers)
    } else {
        (covers, under)
    };
    PlacedFollowing {
        first,
        second,
        third,
        is_high: false,
    }
}

// Third hand: what wins for good; third hand high where the next hand's cheapest winner is not enough; then what is ahead.
#[inline]
fn third(trick: &PlacedTrick<'_>, own: u64) -> PlacedFollowing {
    let led = trick.card_at(0);
    let trumps = trumps_beside(trick, led);
    let best = BestCard::of(trick, Turn::Third);
    let next = trick.hand_of(3);
    let nexts = next.of_suit_at(led).mask();
    let beats = winners(own, led, best.place);
    let ahead = if best.partners { 0 } else { beats };
    if nexts == 0 && next.mask() & trumps != 0 {
        return first_of_all(ahead);
    }
    let covers = above_lowest(nexts, bit_of(best.place));
    if best.partners && covers == 0 {
        return first_of_all(0);
    }
    PlacedFollowing {
        first: above_highest(beats, nexts),
        second: above_lowest(beats, covers),
        third: ahead,
        is_high: true,
    }
}

// Fourth hand: the cheapest winner, where partner doesn't win.
#[inline]
fn fourth(trick: &PlacedTrick<'_>, own: u64) -> PlacedFollowing {
    let best = BestCard::of(trick, Turn::Fourth);
    let wins = winners(own, trick.card_at(0), best.place);
    first_of_all(if best.partners { 0 } else { wins })
}

// Those of these cards of the suit led that beat the best card on the trick: none where that is a ruff.
#[inline(always)]
fn winners(own: u64, led: Place, best: Place) -> u64 {
    let beats = above_lowest(own, bit_of(best));
    if best.follows(led) { beats } else { 0 }
}

/// The bits of the trumps, where another suit was led.
#[inline(always)]
pub(crate) fn trumps_beside(trick: &PlacedTrick<'_>, led: Place) -> u64 {
    match trick.start().start().strain() {
        Strain::Trump(trump) if trump != led.suit() => at(trump, 0xFFFF),
        _ => 0,
    }
}

/// The card's bit.
#[inline(always)]
pub(crate) fn bit_of(place: Place) -> u64 {
    1 << place.number()
}

/// Those of these cards of a suit that are above all of the others.
#[inline(always)]
pub(crate) fn above_highest(cards: u64, others: u64) -> u64 {
    // The lowest bit is no card's: where there are no others, all are above it.
    cards & !u64::MAX.wrapping_shr((others | 1).leading_zeros())
}

// Those of these cards of a suit that are above one of the others.
#[inline(always)]
fn above_lowest(cards: u64, others: u64) -> u64 {
    // The bits above the lowest of the others, and none where there are no others.
    cards & !(others ^ others.wrapping_sub(1))
}
