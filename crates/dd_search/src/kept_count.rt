//! What the opponents of the leader take where no hand has a trump, by relative ranks: one later trick, or what one of them keeps until it comes
//! in. It is counted by masks and lengths, as in `quick_count.rt`, and no answer rests on it: `dd_quick` makes sure of what is claimed.

use crate::quick_count::{LengthsOfSuit, lane_of, run_of};
use dd_order::suit_lanes::{LOWEST, LOWEST_FOUR, nonzero, sum, where_set};
use dd_relative::RelativeStart;

// The bit of each suit's ace.
const ACES: u64 = 0x4000_4000_4000_4000;

/// Do they take so many tricks so, where all hands have these lengths?
pub(crate) fn others_keep(start: &RelativeStart, lengths: u64, need: u8) -> bool {
    let left = start.second().mask();
    let right = start.fourth().mask();
    let tricks = start.tricks_left() as u32;
    let longer = longer_of(lengths & LOWEST_FOUR, (lengths >> 8) & LOWEST_FOUR);
    (need <= 1 && take_later(start, lengths, tricks))
        || keeps(left, longer, need as u32, tricks)
        || keeps(right, longer, need as u32, tricks)
}

// Of each suit the longer of two lengths.
#[inline(always)]
fn longer_of(one: u64, other: u64) -> u64 {
    // the fifth bit stays where the first is no shorter
    let first = (one.wrapping_add(LOWEST << 4).wrapping_sub(other) >> 4) & LOWEST;
    where_set(one, first) | where_set(other, LOWEST ^ first)
}

// Does the hand with these cards keep so many winners, where so many tricks are left and the longer holdings of the leader's side are these?
#[inline(always)]
fn keeps(cards: u64, longer: u64, need: u32, tricks: u32) -> bool {
    let heads = cards & ACES;
    let mut all = 0u32;
    let mut rest = heads;
    for _ in 0..4 {
        if rest == 0 {
            break;
        }
        let lane = lane_of(rest);
        rest &= rest.wrapping_sub(1);
        all = all.wrapping_add(run_of(cards, lane, 0));
    }
    if all < need {
        return false;
    }
    let headed = heads >> 14;
    let rounds = sum(where_set(longer, LOWEST ^ headed)) as u32;
    let first = (nonzero(longer) & headed).count_ones();
    first.wrapping_add(rounds) <= tricks && need <= tricks.wrapping_sub(rounds)
}

// Has the leader's side fewer rounds than tricks are left, before an honour wins that an opponent guards?
#[inline(always)]
fn take_later(start: &RelativeStart, lengths: u64, tricks: u32) -> bool {
    let own = start.leader().mask();
    let left = start.second().mask();
    let partner = start.third().mask();
    let right = start.fourth().mask();
    let mut rounds = 0u32;
    let mut by_left = 0u32;
    let mut by_right = 0u32;
    for lane in [0u32, 16, 32, 48] {
        let suit = LengthsOfSuit::at(lengths, lane);
        let longer = suit.own.max(suit.partner);
        let tops = run_of(own | partner, lane, 0);
        // the place of the opponents' highest card, and the bits of the cards above it
        let place = lane.wrapping_add(14).wrapping_sub(tops);
        let above = 0x7FFFu64.wrapping_shl(lane) & (u64::MAX << 1).wrapping_shl(place);
        let owns_tops = (own & above).count_ones();
        let partners_tops = tops.wrapping_sub(owns_tops);
        let left_guards = left.wrapping_shr(place) & 1 == 1
            && tops < suit.left
            && (partners_tops == 0 || partners_tops == suit.partner);
        let right_guards = right.wrapping_shr(place) & 1 == 1
            && tops < suit.right
            && (owns_tops == 0 || owns_tops == suit.own);
        if tops < longer && left_guards {
            rounds = rounds.wrapping_add(tops);
            by_left = by_left.wrapping_add(1);
        } else if tops < longer && right_guards {
            rounds = rounds.wrapping_add(tops);
            by_right = by_right.wrapping_add(1);
        } else {
            rounds = rounds.wrapping_add(longer);
        }
        if rounds >= tricks {
            return false;
        }
    }
    rounds.wrapping_add(by_left.max(by_right)) <= tricks
}
