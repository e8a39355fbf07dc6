//! Which card of the suit led looks best to a hand that follows: what second, third and fourth hand would play. The cards
//! fall into groups, the best first, and in a group the lower card comes first where nothing else is said.
ghost use Rattle.std.specs.Prelude.{◌≡◌, true, IfSome};
ghost use Rattle.dd_cards.specs.Ranks.{has_rank};
ghost use Rattle.dd_cards.specs.Cards.{has_card};

use crate::holdings::{code_of_highest, lowest};
use crate::trick_view::TrickView;
use crate::turn::Turn;
use dd_cards::{Card, Hand, Holding, Rank, Suit};

/// The groups of the cards that a hand has of the suit led. What is in none comes last.
#[derive(Clone, Copy)]
pub(crate) struct Following {
    led: Suit,
    first: Holding,
    second: Holding,
    third: Holding,
    // whether of the second group the highest card comes first
    is_high: bool,
}

impl Following {
    /// The groups of a hand that doesn't follow.
    #[inline]
    pub(crate) fn nothing() -> Following {
        first_of_all(Suit::Spades, Holding::new())
    }

    /// The groups of these cards of the suit led.
    #[inline(always)]
    pub(crate) fn of(own: Holding, view: &TrickView) -> Following {
        match view.turn {
            Turn::First | Turn::Second => second(own, view),
            Turn::Third => third(own, view),
            Turn::Fourth => fourth(own, view),
        }
    }

    /// The best of the cards that were not tried yet.
    #[inline(always)]
    pub(crate) fn best(&self, untried: Hand) -> Option<Card>
        ensures { IfSome result (λ card. has_card untried card ≡ true) }
    {
        let rank = self.best_rank(untried.holding(self.led))?;
        Some(Card {
            suit: self.led,
            rank,
        })
    }

    #[inline]
    fn best_rank(&self, ranks: Holding) -> Option<Rank>
        ensures { IfSome result (λ rank. has_rank ranks rank ≡ true) }
    {
        let first = ranks.intersection(self.first);
        if !first.is_empty() {
            return lowest(first);
        }
        let second = ranks.intersection(self.second);
        if !second.is_empty() {
            return if self.is_high {
                second.highest()
            } else {
                lowest(second)
            };
        }
        let third = ranks.intersection(self.third);
        if third.is_empty() {
            lowest(ranks)
        } else {
            lowest(third)
        }
    }
}

// This group first, and then the others.
#[inline]
fn first_of_all(led: Suit, first: Holding) -> Following {
    let none = Holding::new();
    Following {
        led,
        first,
        second: none,
        third: none,
        is_high: false,
    }
}

// Second hand: what wins for good; where partner ruffs then the lowest; else what makes just one of the side's two hands be
// ahead, then what makes both or none; last what the next hand beats whatever it plays.
fn second(own: Holding, view: &TrickView) -> Following {
    let led = view.led;
    let none = Holding::new();
    let beats = own.above(view.best);
    let partners = code_of_highest(view.last.suit);
    let partner_beats = partners > view.best.code();
    if view.next.trump > 0 {
        let ahead = if partner_beats { none } else { beats };
        return first_of_all(led, ahead);
    }
    if partner_beats && partners > code_of_highest(view.next.suit) {
        return first_of_all(led, none);
    }
    let first = above_highest(beats, view.next.suit);
    if view.last.trump > 0 {
        return first_of_all(led, first);
    }
    let covers = above_lowest(beats, view.next.suit);
    let under = own.below(view.best);
    let (second, third) = if partner_beats {
        (under, covers)
    } else {
        (covers, under)
    };
    Following {
        led,
        first,
        second,
        third,
        is_high: false,
    }
}

// Third hand: what wins for good; third hand high where the next hand's cheapest winner is not enough; then what is ahead.
fn third(own: Holding, view: &TrickView) -> Following {
    let led = view.led;
    let none = Holding::new();
    let beats = if view.ruffed {
        none
    } else {
        own.above(view.best)
    };
    let ahead = if view.partners { none } else { beats };
    if view.next.trump > 0 {
        return first_of_all(led, ahead);
    }
    if view.partners && view.best.code() > code_of_highest(view.next.suit) {
        return first_of_all(led, none);
    }
    Following {
        led,
        first: above_highest(beats, view.next.suit),
        second: above_lowest(beats, view.next.suit.above(view.best)),
        third: ahead,
        is_high: true,
    }
}

// Fourth hand: the cheapest winner, where partner doesn't win.
#[inline]
fn fourth(own: Holding, view: &TrickView) -> Following {
    let wins = if view.partners || view.ruffed {
        Holding::new()
    } else {
        own.above(view.best)
    };
    first_of_all(view.led, wins)
}

// Those of these ranks that are above all of the others.
#[inline]
fn above_highest(ranks: Holding, others: Holding) -> Holding {
    match others.highest() {
        Some(rank) => ranks.above(rank),
        None => ranks,
    }
}

// Those of these ranks that are above one of the others.
#[inline]
fn above_lowest(ranks: Holding, others: Holding) -> Holding {
    match lowest(others) {
        Some(rank) => ranks.above(rank),
        None => others,
    }
}
