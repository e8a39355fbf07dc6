//! Whom to ask, before a lead is tried, whether its winners settle it: an opponent of the leader that has the highest card left of
//! the suit, once for each suit, and of side suits once for each opponent.
ghost use Rattle.std.specs.Prelude.{IfSome};
ghost use Rattle.dd_quick.specs.SecondHand.{Opposes};

use crate::quick_limit::may_have_quick_tricks;
use dd_cards::{Card, Hand, Place, Seat, Strain, Suit};
use dd_order::Turn;
use dd_order::suit_lanes::LOWEST;
use dd_play::Position;
use dd_rank::{OwnerStrings, TwoHighest};
use dd_relative::PlacedTrick;

// In what is told of a suit by its two highest cards: the highest card is an opponent's, and it is one of the last two hands'.
const OPPONENTS: u8 = 2;

const LAST_TWO: u8 = 8;

/// Whom it serves to ask at a start of a trick. Any answer is right: no contract rests on who was asked.
#[derive(Drop)]
pub(crate) struct SecondHands {
    // none where no card is led
    tops: Option<TwoHighest>,
    // the lengths of all hands at this start
    lengths: u64,
    // the leads of suits of which nobody was asked yet; by relative ranks of those alone that an opponent heads
    unasked: Hand,
    // which opponents were asked of a side suit in vain: they have too few winners for any
    left_fails: bool,
    right_fails: bool,
}

impl SecondHands {
    /// At the start with these strings, where these cards may be led.
    #[inline(always)]
    pub(crate) fn of(strings: Option<&OwnerStrings>, choices: Hand) -> SecondHands {
        let (tops, lengths) = match strings {
            Some(strings) => (Some(strings.two_highest()), strings.shape().lengths()),
            None => (None, 0),
        };
        SecondHands {
            tops,
            lengths,
            unasked: choices,
            left_fails: false,
            right_fails: false,
        }
    }

    /// The same, and the leads of suits that the leader's side heads are known to have nobody to ask.
    #[inline(always)]
    pub(crate) fn of_headed(strings: Option<&OwnerStrings>, choices: Hand) -> SecondHands {
        let mut seconds = SecondHands::of(strings, choices);
        let headed = match seconds.tops {
            Some(tops) => headed_by_opponents(tops),
            None => 0,
        };
        seconds.unasked = choices.among(headed);
        seconds
    }

    /// May there be an opponent to ask before this card is led?
    // By relative ranks there is mostly none, which one bit tells.
    #[inline(always)]
    pub(crate) fn may_ask(&self, card: Place) -> bool {
        self.unasked.has_place(card)
    }

    /// The opponent to ask before this card is led.
    #[inline]
    pub(crate) fn to_ask(&mut self, position: &Position, card: Card) -> Option<Seat>
        ensures { IfSome result (λ seat. Opposes position.now seat) }
    {
        let suit = card.suit;
        let tops = self.tops?.of_suit(suit);
        if !self.unasked.has(card) {
            return None;
        }
        self.unasked = self.unasked.without_suit(suit);
        let leader = position.first();
        if tops & OPPONENTS == 0 || ruffs(position, leader.partner(), suit) {
            return None;
        }
        let right = tops & LAST_TWO != 0;
        let fails = if right {
            self.right_fails
        } else {
            self.left_fails
        };
        if fails && position.strain() != Strain::Trump(suit) {
            return None;
        }
        if right {
            Some(leader.right())
        } else {
            Some(leader.left())
        }
    }

    /// May this opponent have so many quick tricks with the lead, where so many tricks are left?
    #[inline]
    pub(crate) fn may_take(&self, position: &Position, seat: Seat, left: u8, need: u8) -> bool {
        let Some(tops) = self.tops else {
            return true;
        };
        let places = if seat == position.first().left() {
            1
        } else {
            3
        };
        may_have_quick_tricks(self.lengths, tops, position.strain(), places, left, need)
    }

    /// It was asked in vain of a lead of this suit.
    #[inline]
    pub(crate) fn was_in_vain(&mut self, position: &Position, seat: Seat, suit: Suit) {
        if position.strain() == Strain::Trump(suit) {
            return;
        }
        if seat == position.first().left() {
            self.left_fails = true;
        } else {
            self.right_fails = true;
        }
    }
}

/// Whom to ask before one of these cards is led, and nobody where another hand plays.
#[inline]
pub(crate) fn seconds(trick: &PlacedTrick<'_>, turn: Turn, tops: Hand) -> SecondHands {
    match turn {
        Turn::First => SecondHands::of_headed(Some(trick.start().strings()), tops),
        Turn::Second | Turn::Third | Turn::Fourth => SecondHands::of_headed(None, tops),
    }
}

// The cards of the suits of which an opponent has the highest card: of two cards' owners the second bit is set.
#[inline(always)]
fn headed_by_opponents(tops: TwoHighest) -> u64 {
    ((tops.of_suits() >> 1) & LOWEST).wrapping_mul(0xFFFF)
}

// Can the hand ruff a lead of the suit?
#[inline]
fn ruffs(position: &Position, seat: Seat, suit: Suit) -> bool {
    let hands = position.hands();
    match position.strain() {
        Strain::Trump(trump) if trump != suit => {
            hands.holding(seat, suit).is_empty() && !hands.holding(seat, trump).is_empty()
        }
        _ => false,
    }
}
