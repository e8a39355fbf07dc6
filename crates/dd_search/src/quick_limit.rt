//! Whether a side may have so many quick tricks, by the lengths of all hands and by whose the two highest cards of each suit are. To tell
//! costs less than half of counting them, and where it may not, nothing is counted. No answer rests on it: where it told of too few, more
//! cards would be tried.

use dd_cards::{Strain, Suit};
use dd_order::suit_lanes::{LOWEST, LOWEST_FOUR, at, nonzero, place, several, sum, where_set};
use dd_rank::{Shape, TwoHighest};

// The lengths of two hands that are partners, and the lowest bit of each.
const BOTH: u64 = 0x0F0F_0F0F_0F0F_0F0F;

const LOWEST_OF_BOTH: u64 = 0x0101_0101_0101_0101;

// What a hand that has the lead, or is to have it, sees of the suits.
#[derive(Clone, Copy)]
struct SuitsSeen {
    // how many cards the hand has of each, and its partner
    own: u64,
    partner: u64,
    // those of which an opponent has two cards or more
    long: u64,
    // whose the two highest cards are, four bits a suit, of which the lowest two are set where an opponent has the second highest and
    // the highest, the next two where the partner has it or the hand after it
    owners: u64,
    // those beside trumps of which the side has the highest card, and which no opponent ruffs at once
    heads: u64,
}

/// May the hand so many places, 0 to 3, after the leader's have so many quick tricks, where it has the lead and so many tricks are left?
#[inline(always)]
pub(crate) fn may_have_quick_tricks(
    lengths: u64,
    tops: TwoHighest,
    strain: Strain,
    places: u8,
    left: u8,
    need: u8,
) -> bool {
    let seen = SuitsSeen::of(lengths, tops, strain, places);
    let (trumps, kept, partners) = match strain {
        Strain::Trump(trump) => {
            let own = length(seen.own, trump);
            let partners = length(seen.partner, trump);
            let longer = own.max(partners);
            (
                joint_trumps(longer, length(seen.owners, trump)),
                longer,
                partners,
            )
        }
        Strain::Notrump => (0, 0, 0),
    };
    let cashed = seen.cashed().min(left.saturating_sub(partners));
    let sure = cashed.wrapping_add(trumps);
    if need <= sure {
        return true;
    }
    let most = left.saturating_sub(cashed.wrapping_add(kept));
    need <= sure.wrapping_add(seen.crossed().min(most))
}

/// May the opponents of the leader have so many quick tricks? Where a hand has a trump: no more than one of them has trumps, less those
/// that higher trumps of the leader's side take. Where none has: no more than one of them has winners, or one trick.
#[inline]
pub(crate) fn others_may_have(shape: Shape, tops: TwoHighest, need: u8) -> bool {
    match shape.strain() {
        Strain::Trump(trump) if (shape.lengths() >> place(trump)) & 0xFFFF != 0 => {
            let lengths = shape.lengths() >> place(trump);
            let longer = length(lengths >> 4, Suit::Clubs).max(length(lengths >> 12, Suit::Clubs));
            need <= joint_trumps(longer, !tops.of_suit(trump))
        }
        strain => {
            need <= 1
                || need <= SuitsSeen::of(shape.lengths(), tops, strain, 1).kept()
                || need <= SuitsSeen::of(shape.lengths(), tops, strain, 3).kept()
        }
    }
}

// No more joint trumps than this a side has, by how many the longer of its two hands has and by whose the two highest are: of the lowest
// two bits the second is set where the other side has the highest, the first where it has the next. One fewer for each that the
// other side has, but for the side's own highest.
// By numbers: which case it is would seldom be foreseen.
#[inline]
fn joint_trumps(longer: u8, owners: u8) -> u8 {
    let first = (owners >> 1) & 1;
    let next = owners & 1;
    let over = first.wrapping_add(next);
    longer
        .saturating_sub(over)
        .max((first ^ 1) & next & nonzero_bit(longer))
}

// 1 for a number above 0.
#[inline]
fn nonzero_bit(number: u8) -> u8 {
    if number == 0 { 0 } else { 1 }
}

/// Has a hand a trump?
#[inline]
pub(crate) fn has_trumps(shape: Shape) -> bool {
    match shape.strain() {
        Strain::Trump(trump) => (shape.lengths() >> place(trump)) & 0xFFFF != 0,
        Strain::Notrump => false,
    }
}

impl SuitsSeen {
    #[inline(always)]
    fn of(lengths: u64, tops: TwoHighest, strain: Strain, places: u8) -> SuitsSeen {
        let opponents = lengths >> (4 - 4 * (places % 2));
        let owners = owners_seen_from(tops, places);
        let side = match strain {
            Strain::Trump(trump) => LOWEST & !at(trump, 1) & !ruffed(opponents, trump),
            Strain::Notrump => LOWEST,
        };
        SuitsSeen {
            own: (lengths >> (4 * (places % 4))) & LOWEST_FOUR,
            partner: (lengths >> (4 * ((places ^ 2) % 4))) & LOWEST_FOUR,
            long: several((opponents | opponents >> 8) & LOWEST_FOUR),
            owners,
            heads: side & !(owners >> 1),
        }
    }

    // No more than this the hand cashes: all its cards of a suit where it has the two highest or the others have one each, and else
    // one.
    #[inline(always)]
    fn cashed(self) -> u8 {
        self.from_heads(!(self.long | several(self.partner)))
    }

    // No more winners than this the hand has: all its cards of a suit where it has the two highest, and else one.
    #[inline(always)]
    fn kept(self) -> u8 {
        self.from_heads(0)
    }

    // Of the suits that the hand heads all its cards where it has the two highest or it is said so, and else one.
    #[inline(always)]
    fn from_heads(self, all_count: u64) -> u8 {
        let heads = self.heads & !(self.owners >> 3);
        let all = heads & (!self.owners & !(self.owners >> 2) | all_count);
        sum(where_set(self.own, all) | (heads ^ all))
    }

    // No more than this its partner takes besides: no card that falls under the hand's highest.
    #[inline(always)]
    fn crossed(self) -> u8 {
        let heads = self.heads & !(self.owners >> 3);
        let partners = self.heads & self.owners >> 3;
        let alone = !(self.long | several(self.own));
        let next = heads & (!self.owners | alone);
        let all = partners & (!self.owners & self.owners >> 2 | alone);
        let entries = (next & several(self.own) & several(self.partner))
            | (partners & nonzero(self.own));
        if entries == 0 {
            return 0;
        }
        let rest = self.partner.wrapping_sub(nonzero(self.partner));
        sum(where_set(rest, next) | where_set(self.partner, all) | (partners ^ all))
    }
}

// The suits of which one of the opponents has none, where it has trumps: by the lengths of both, four bits each, eight apart.
#[inline(always)]
fn ruffed(opponents: u64, trump: Suit) -> u64 {
    let held = ((opponents & BOTH).wrapping_add(BOTH) >> 4) & LOWEST_OF_BOTH;
    let with_trumps = (held >> place(trump)) & 0x0101;
    let ruffing = (held ^ LOWEST_OF_BOTH) & with_trumps.wrapping_mul(LOWEST);
    (ruffing | ruffing >> 8) & LOWEST
}

// How many cards of the suit are among these.
#[inline]
fn length(lengths: u64, suit: Suit) -> u8 {
    ((lengths >> place(suit)) & 15) as u8
}

// The owners as the hand sees them that is so many places after the leader's.
#[inline]
fn owners_seen_from(tops: TwoHighest, places: u8) -> u64 {
    let odd = if places % 2 == 1 { LOWEST * 3 } else { 0 };
    let far = if places >= 2 { LOWEST * 12 } else { 0 };
    tops.of_suits() ^ odd ^ far
}
