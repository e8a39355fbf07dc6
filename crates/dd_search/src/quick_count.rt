//! Quick tricks of a hand by relative ranks, counted by masks and by the lengths of all hands' suits. No answer rests on a count: `dd_quick`
//! makes sure of what is claimed. A suit that the hand's side doesn't head costs nothing.

use dd_cards::{Hand, Seat, Strain, Suit};
use dd_order::suit_lanes::{LOWEST, LOWEST_FOUR, at, place, sum, where_set};
use dd_quick::Shares;
use dd_relative::RelativeStart;

// The bit of each suit's ace.
const ACES: u64 = 0x4000_4000_4000_4000;

// All bits of a length: more than any.
const ANY: u32 = 15;

// All lengths but the lowest of each suit, and all but the highest.
const UPPER_THREE: u64 = 0xFFF0_FFF0_FFF0_FFF0;

const LOWER_THREE: u64 = 0x0FFF_0FFF_0FFF_0FFF;

/// What a hand that has the lead, or is to have it, sees of its side and of the lengths.
#[derive(Clone, Copy)]
pub(crate) struct QuickView {
    own: u64,
    partner: u64,
    // four bits a hand, its own the lowest, and sixteen a suit
    lengths: u64,
    // the aces of the side suits
    aces: u64,
    // more than any length for an opponent that has no trump: it ruffs no lead
    left_free: u32,
    right_free: u32,
    // the side's trumps in sixteen bits, how many of them the partner has, and the longer of the two hands
    trumps: u32,
    partners: u8,
    longer: u8,
    // the tricks left
    left: u8,
}

/// What a hand cashes in the side suits.
#[derive(Clone, Copy)]
pub(crate) struct CashCount {
    // sixteen bits a suit: the tricks in the lowest four, and above them the number of cards on which they rest
    suits: u64,
    // in all side suits
    side: u8,
    // the joint trumps besides
    trumps: u8,
}

impl QuickView {
    /// What the leader sees, where all hands have these lengths.
    #[inline(always)]
    pub(crate) fn of_leader(start: &RelativeStart, lengths: u64) -> QuickView {
        QuickView::of(start, start.leader(), start.third(), lengths)
    }

    /// What an opponent of the leader sees.
    #[inline(always)]
    pub(crate) fn of_opponent(start: &RelativeStart, lengths: u64, seat: Seat) -> QuickView {
        let second = start.second();
        let fourth = start.fourth();
        if seat == Seat::East {
            let turned = (lengths >> 4) & LOWER_THREE | (lengths & LOWEST_FOUR) << 12;
            QuickView::of(start, second, fourth, turned)
        } else {
            let turned = (lengths << 4) & UPPER_THREE | (lengths >> 12) & LOWEST_FOUR;
            QuickView::of(start, fourth, second, turned)
        }
    }

    #[inline(always)]
    fn of(start: &RelativeStart, own: Hand, partner: Hand, lengths: u64) -> QuickView {
        let own = own.mask();
        let partner = partner.mask();
        let left = start.tricks_left();
        match start.strain() {
            Strain::Notrump => QuickView {
                own,
                partner,
                lengths,
                aces: ACES,
                left_free: ANY,
                right_free: ANY,
                trumps: 0,
                partners: 0,
                longer: 0,
                left,
            },
            Strain::Trump(trump) => {
                let held = lengths >> place(trump);
                let partners = ((held >> 8) & 15) as u8;
                let longer = partners.max((held & 15) as u8);
                QuickView {
                    own,
                    partner,
                    lengths,
                    aces: ACES & !at(trump, 0xFFFF),
                    left_free: if held & 0xF0 == 0 { ANY } else { 0 },
                    right_free: if held & 0xF000 == 0 { ANY } else { 0 },
                    trumps: (((own | partner) >> place(trump)) & 0xFFFF) as u32,
                    partners,
                    longer,
                    left,
                }
            }
        }
    }

    /// What the hand cashes: of each side suit that it heads its highest cards without a gap, or all of a long suit, as far as no opponent
    /// ruffs; and the joint trumps. None where the side has not so many tricks in all.
    #[inline(always)]
    pub(crate) fn cashed(&self, need: u8) -> Option<CashCount> {
        let most = self.most();
        if need > most.wrapping_add(self.longer) {
            return None;
        }
        let trumps = joint_trumps(self.trumps, self.longer);
        if need > most.wrapping_add(trumps) {
            return None;
        }
        let suits = cashed_suits(
            self.own,
            self.lengths,
            self.aces,
            self.left_free,
            self.right_free,
        );
        let left = self.left.saturating_sub(self.partners);
        Some(CashCount {
            suits,
            side: sum(suits & LOWEST_FOUR).min(left),
            trumps,
        })
    }

    // No more than this the side takes in side suits: of each that it heads the highest cards of both hands without a gap, or where no
    // opponent has more of it the longer hand's, as far as no opponent ruffs.
    #[inline(always)]
    fn most(&self) -> u8 {
        let ours = self.own | self.partner;
        let mut all = 0u32;
        let mut headed = ours & self.aces;
        for _ in 0..4 {
            if headed == 0 {
                break;
            }
            let lane = lane_of(headed);
            headed &= headed.wrapping_sub(1);
            let suit = LengthsOfSuit::at(self.lengths, lane);
            let run = run_of(ours, lane, 0);
            let longer = suit.own.max(suit.partner);
            let tricks = if suit.left.max(suit.right) <= run {
                longer
            } else {
                longer.min(run)
            };
            all = all.wrapping_add(suit.unruffed(tricks, self.left_free, self.right_free));
        }
        (all & 63) as u8
    }

    /// Where the hand takes so many with its partner, to whom it crosses: all that it cashes of each suit, and how many of its partner's
    /// tricks each suit gives, those first in which it can cross.
    #[inline(always)]
    pub(crate) fn crossed(&self, cashed: CashCount, need: u8) -> Option<(Shares, Shares)> {
        let more = need
            .saturating_sub(cashed.side)
            .saturating_sub(cashed.trumps);
        let left = self
            .left
            .saturating_sub(cashed.side.wrapping_add(self.longer));
        if more > left {
            return None;
        }
        let (suits, entries) = partners_suits(
            self.own,
            self.partner,
            self.lengths,
            self.aces,
            self.left_free,
            self.right_free,
        );
        if entries == 0 || more > sum(suits) {
            return None;
        }
        let first = where_set(suits, entries);
        let told = shares_in_order(cashed.suits & LOWEST_FOUR, u8::MAX);
        Some((told, in_two_orders(first, suits ^ first, more)))
    }

    /// May it take so many by its highest trumps and in side suits?
    #[inline(always)]
    pub(crate) fn may_draw(&self, trump: Suit, need: u8) -> bool {
        let run = (run_of(self.own, place(trump) as u32, 0) & 15) as u8;
        run > 0 && (need <= run || need <= run.wrapping_add(self.most()))
    }
}

// Of each side suit, sixteen bits, the tricks that a hand cashes, and from the fifth bit on the number of cards on which they rest.
// It takes numbers and no view, which would be written to memory for it.
#[inline(always)]
fn cashed_suits(own: u64, lengths: u64, aces: u64, left_free: u32, right_free: u32) -> u64 {
    let mut suits = 0u64;
    let mut headed = own & aces;
    for _ in 0..4 {
        if headed == 0 {
            break;
        }
        let lane = lane_of(headed);
        headed &= headed.wrapping_sub(1);
        let suit = LengthsOfSuit::at(lengths, lane);
        let run = run_of(own, lane, 0);
        let longest = suit.left.max(suit.right).max(suit.partner);
        let all = if longest <= run { suit.own } else { run };
        let tricks = suit.unruffed(all, left_free, right_free);
        suits |= ((tricks | longest.min(run) << 4) as u64).wrapping_shl(lane);
    }
    suits
}

// Of each side suit, sixteen bits, the tricks that the partner cashes where the hand crosses to it: the cards next below the hand's run, or
// all of a long suit, as far as no opponent ruffs. And the lowest bit of the suits in which the hand can cross.
#[inline(never)]
fn partners_suits(
    own: u64,
    partner: u64,
    lengths: u64,
    aces: u64,
    left_free: u32,
    right_free: u32,
) -> (u64, u64) {
    let mut suits = 0u64;
    let mut entries = 0u64;
    let mut headed = (own | partner) & aces;
    for _ in 0..4 {
        if headed == 0 {
            break;
        }
        let lane = lane_of(headed);
        headed &= headed.wrapping_sub(1);
        let suit = LengthsOfSuit::at(lengths, lane);
        let run = run_of(own, lane, 0);
        let spare = suit.partner.saturating_sub(run);
        let next = run_of(partner, lane, run);
        let longest = suit.left.max(suit.right).max(suit.own);
        let taken = if longest <= run.wrapping_add(next) {
            spare
        } else {
            spare.min(next)
        };
        let leads = suit.unruffed(run.wrapping_add(taken), left_free, right_free);
        let tricks = leads.saturating_sub(run);
        suits |= (tricks as u64).wrapping_shl(lane);
        if tricks > 0 && run < suit.own {
            entries |= 1u64.wrapping_shl(lane);
        }
    }
    (suits, entries)
}

/// The lengths of a suit.
#[derive(Clone, Copy)]
pub(crate) struct LengthsOfSuit {
    pub(crate) own: u32,
    pub(crate) left: u32,
    pub(crate) partner: u32,
    pub(crate) right: u32,
}

impl LengthsOfSuit {
    /// Those of the suit in this lane.
    #[inline(always)]
    pub(crate) fn at(lengths: u64, lane: u32) -> LengthsOfSuit {
        let suit = (lengths.wrapping_shr(lane) & 0xFFFF) as u32;
        LengthsOfSuit {
            own: suit & 15,
            left: (suit >> 4) & 15,
            partner: (suit >> 8) & 15,
            right: suit >> 12,
        }
    }

    // Of so many leads of the suit those that no opponent ruffs: one with trumps follows to as many as it has cards.
    #[inline(always)]
    fn unruffed(self, leads: u32, left_free: u32, right_free: u32) -> u32 {
        leads
            .min(self.left | left_free)
            .min(self.right | right_free)
    }
}

impl CashCount {
    /// Are they so many tricks without the partner's?
    #[inline(always)]
    pub(crate) fn takes(self, need: u8) -> bool {
        need <= self.side.wrapping_add(self.trumps)
    }

    /// Does the hand cash the suit?
    #[inline(always)]
    pub(crate) fn has(self, suit: Suit) -> bool {
        self.side > 0 && (self.suits >> place(suit)) & 15 != 0
    }

    /// How many of its tricks each suit gives where the side is to take so many, the rest by joint trumps. Long suits are asked first, since
    /// fewer cards settle more, and then the suits in their order.
    #[inline(always)]
    pub(crate) fn shares(self, need: u8) -> Shares {
        shared_out(self.suits, need.min(self.side))
    }

    /// The same, of which this suit gives one.
    #[inline(always)]
    pub(crate) fn shares_from(self, suit: Suit, need: u8) -> Shares {
        let others = need.min(self.side).saturating_sub(1);
        let mut shares = shared_out(self.suits.wrapping_sub(at(suit, 1)), others);
        match suit {
            Suit::Spades => shares.spades = shares.spades.wrapping_add(1),
            Suit::Hearts => shares.hearts = shares.hearts.wrapping_add(1),
            Suit::Diamonds => shares.diamonds = shares.diamonds.wrapping_add(1),
            Suit::Clubs => shares.clubs = shares.clubs.wrapping_add(1),
        }
        shares
    }
}

// So many of the tricks of the suits.
#[inline(always)]
fn shared_out(suits: u64, need: u8) -> Shares {
    let tricks = suits & LOWEST_FOUR;
    let depths = (suits >> 4) & LOWEST_FOUR;
    // the fifth bit stays where the tricks are no more than the cards
    let short = (depths.wrapping_add(LOWEST << 4).wrapping_sub(tricks) >> 4) & LOWEST;
    let long = where_set(tricks, LOWEST ^ short);
    if long == 0 {
        return shares_in_order(tricks, need);
    }
    in_two_orders(long, tricks ^ long, need)
}

// So many of these numbers, and then of the others.
#[inline(always)]
fn in_two_orders(numbers: u64, others: u64, need: u8) -> Shares {
    let first = shares_in_order(numbers, need);
    let majors = first.spades.wrapping_add(first.hearts);
    let minors = first.diamonds.wrapping_add(first.clubs);
    let left = need.saturating_sub(majors.wrapping_add(minors));
    let other = shares_in_order(others, left);
    Shares {
        spades: first.spades.wrapping_add(other.spades),
        hearts: first.hearts.wrapping_add(other.hearts),
        diamonds: first.diamonds.wrapping_add(other.diamonds),
        clubs: first.clubs.wrapping_add(other.clubs),
    }
}

// So many of these numbers, of the spades first.
#[inline(always)]
fn shares_in_order(numbers: u64, need: u8) -> Shares {
    let spades = number_at(numbers, 48).min(need);
    let left = need.wrapping_sub(spades);
    let hearts = number_at(numbers, 32).min(left);
    let left = left.wrapping_sub(hearts);
    let diamonds = number_at(numbers, 16).min(left);
    let left = left.wrapping_sub(diamonds);
    Shares {
        spades,
        hearts,
        diamonds,
        clubs: number_at(numbers, 0).min(left),
    }
}

// The four bits that begin there.
#[inline(always)]
fn number_at(numbers: u64, lane: u32) -> u8 {
    (numbers.wrapping_shr(lane) & 15) as u8
}

// The joint trumps of a side that has these, and in one of its hands so many. All others are the other side's.
// A round for each sequence, of which the lowest card takes most.
#[inline(always)]
fn joint_trumps(ours: u32, longer: u8) -> u8 {
    let longer = longer as u32;
    // the ace in the highest bit
    let mut rest = ours << 17;
    let mut held = 0u32;
    let mut over = 0u32;
    let mut most = 0u32;
    for _ in 0..7 {
        let gap = rest.leading_zeros();
        over = over.wrapping_add(gap);
        if longer <= most.wrapping_add(over) {
            break;
        }
        rest = rest.wrapping_shl(gap);
        let run = (!rest).leading_zeros();
        held = held.wrapping_add(run);
        most = most.max(held.min(longer).saturating_sub(over));
        rest = rest.wrapping_shl(run);
    }
    (most & 15) as u8
}

/// By how many places the suit of the lowest of these aces is above the lowest suit.
#[inline(always)]
pub(crate) fn lane_of(aces: u64) -> u32 {
    aces.trailing_zeros() & 48
}

/// How many cards of the suit in this lane are held from the ace on down without a gap, but for so many that come first.
#[inline(always)]
pub(crate) fn run_of(cards: u64, lane: u32, first: u32) -> u32 {
    let from_top = cards.wrapping_shl(49u32.wrapping_sub(lane).wrapping_add(first));
    (!from_top).leading_zeros()
}
