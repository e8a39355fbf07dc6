//! Which card looks best to a hand that has none of the suit led: a ruff or a discard. Each suit is rather tried once before
//! one is tried again, and of a suit the lower card comes first.
ghost use Rattle.std.specs.Prelude.{◌≡◌, true};
ghost use Rattle.dd_cards.specs.PlayingCard.{PlayingCard};
ghost use Rattle.dd_cards.specs.Cards.{has_card};

use crate::holdings::code_of_highest;
use crate::suit_lanes::{LOWEST, at, greatest, nonempty, place, where_held};
use crate::trick_view::TrickView;
use crate::turn::Turn;
use dd_cards::Hand;

/// What the cards of a hand are worth that has none of the suit led.
#[derive(Clone, Copy)]
pub(crate) struct Discarding {
    // the bits of the trump suit, where it can ruff; of trumps those that beat what lies on the trick, and those that the next hand can't
    // ruff higher: other suits' bits are no matter
    trumps: u64,
    beat: u64,
    hold: u64,
    worth: DiscardWorth,
    // what four cards of a suit make each card of it worth more: a long suit can spare one
    four_to_spare: u8,
}

/// What a card is worth, by hand.
#[derive(Clone, Copy)]
pub(crate) struct DiscardWorth {
    discard: u8,
    // a trump that wins, and that the next hand can't beat
    holds: u8,
    // a trump that the next hand may beat
    may_hold: u8,
    // a trump that is below a ruff that lies
    useless: u8,
}

/// Partner wins, and a card that serves nowhere goes; a trump would take partner's trick.
pub(crate) const ON_PARTNERS_TRICK: DiscardWorth = DiscardWorth {
    discard: 100,
    holds: 50,
    may_hold: 50,
    useless: 50,
};
/// Second hand: partner does not win the trick by itself. Where the next hand can ruff higher partner is still to play.
pub(crate) const SECOND_HAND: DiscardWorth = DiscardWorth {
    discard: 35,
    holds: 90,
    may_hold: 55,
    useless: 55,
};
// Third hand: a ruff that the next hand can beat costs it a high trump.
pub(crate) const THIRD_HAND: DiscardWorth = DiscardWorth {
    discard: 55,
    holds: 110,
    may_hold: 80,
    useless: 25,
};
// Fourth hand: the trick is lost; a ruff would win it.
pub(crate) const FOURTH_HAND: DiscardWorth = DiscardWorth {
    discard: 54,
    holds: 100,
    may_hold: 100,
    useless: 20,
};
// Fourth hand: partner has won, and trumps are kept.
pub(crate) const LAST_ON_PARTNERS_TRICK: DiscardWorth = DiscardWorth {
    discard: 84,
    holds: 54,
    may_hold: 54,
    useless: 20,
};

// The lowest seven bits of each suit.
const LOWEST_SEVEN: u64 = 0x007F_007F_007F_007F;

// What the first card of a suit weighs more.
const FIRST_OF_ITS_SUIT: u64 = 55;

// Where there are trumps a long side suit spares cards sooner.
const FOUR_TO_SPARE_AT_NOTRUMP: u8 = 11;

const FOUR_TO_SPARE_WITH_TRUMPS: u8 = 19;

impl Discarding {
    /// What cards are worth to a hand that doesn't discard.
    #[inline]
    pub(crate) fn nothing() -> Discarding {
        Discarding {
            trumps: 0,
            beat: 0,
            hold: 0,
            worth: SECOND_HAND,
            four_to_spare: 0,
        }
    }

    /// What the cards of a hand are worth that has none of the suit led, by the bits of the trump suit, where it can ruff, by those of trumps
    /// that beat what lies on the trick, and of those that the next hand can't ruff higher; and whether there is a trump suit.
    #[inline(always)]
    pub(crate) fn by_bits(
        trumps: u64,
        beat: u64,
        hold: u64,
        worth: DiscardWorth,
        has_trumps: bool,
    ) -> Discarding {
        Discarding {
            trumps,
            beat,
            hold,
            worth,
            four_to_spare: if has_trumps {
                FOUR_TO_SPARE_WITH_TRUMPS
            } else {
                FOUR_TO_SPARE_AT_NOTRUMP
            },
        }
    }

    /// What the mover's cards are worth, of which none is of the suit led.
    pub(crate) fn of(view: &TrickView) -> Discarding {
        let best = view.best.code();
        let nexts = code_of_highest(view.next.suit);
        let worth = match view.turn {
            Turn::First | Turn::Second => {
                let partners = code_of_highest(view.last.suit);
                let wins = view.last.trump > 0 || partners > best.max(nexts);
                if view.next.trump == 0 && wins {
                    ON_PARTNERS_TRICK
                } else {
                    SECOND_HAND
                }
            }
            Turn::Third if view.partners && view.next.trump == 0 && best > nexts => {
                ON_PARTNERS_TRICK
            }
            Turn::Third => THIRD_HAND,
            Turn::Fourth if view.partners => LAST_ON_PARTNERS_TRICK,
            Turn::Fourth => FOURTH_HAND,
        };
        let (trumps, from) = match view.trump {
            Some(trump) => (at(trump, 0xFFFF), place(trump)),
            None => (0, 0),
        };
        let beat = above(from, if view.ruffed { best } else { 0 });
        let hold = above(from, view.next.trump);
        Discarding::by_bits(trumps, beat, hold, worth, view.has_trumps)
    }

    /// Of the choices of a hand with these lengths that were not tried yet those of one suit of which the lowest is the best choice.
    // Four suits are weighed side by side, without a branch: which of them has a card to try would hardly be foreseen.
    // A function of its own: with its code in each walk of a hand these would grow too large to be copied.
    #[inline(never)]
    pub(crate) fn best(&self, lengths: u64, choices: Hand, untried: Hand) -> Hand
        ensures { (c : PlayingCard) → has_card result c ≡ true → has_card untried c ≡ true }
    {
        let (ruffs, worth) = self.ruffs(untried.mask());
        let more = (worth as u64).wrapping_sub(self.worth.discard as u64);
        let weights = self
            .discards(lengths, choices, untried)
            .wrapping_add((self.trumps & LOWEST).wrapping_mul(more));
        let suit = greatest(where_held(weights, untried));
        untried.among(suit & (ruffs | !self.trumps))
    }

    // What a discard of each suit is worth.
    #[inline]
    fn discards(&self, lengths: u64, choices: Hand, untried: Hand) -> u64 {
        let tried = nonempty(choices.mask() ^ untried.mask());
        let spare = lengths.wrapping_mul(self.four_to_spare as u64);
        LOWEST
            .wrapping_mul(self.worth.discard as u64)
            .wrapping_add((LOWEST ^ tried).wrapping_mul(FIRST_OF_ITS_SUIT))
            .wrapping_add((spare >> 2) & LOWEST_SEVEN)
    }

    // Of the trumps among these cards those that are worth most, and what each of them is worth.
    #[inline]
    fn ruffs(&self, cards: u64) -> (u64, u8) {
        let ruffs = cards & self.trumps;
        let beats = ruffs & self.beat;
        let holds = beats & self.hold;
        if holds != 0 {
            (holds, self.worth.holds)
        } else if beats != 0 {
            (beats, self.worth.may_hold)
        } else {
            (ruffs, self.worth.useless)
        }
    }
}

// The bits above that of the card of this code in the suit that begins there; for 0 those of all its cards.
#[inline]
fn above(from: u8, code: u8) -> u64 {
    u64::MAX.wrapping_shl(from.wrapping_add(code).wrapping_add(1) as u32)
}
