//! The highest bid of the other side that betters a side's contracts. A contract that stands lower is bettered, and no other.
ghost use Rattle.std.specs.Prelude.{◌≡◌, ◌≤◌};
ghost use Rattle.dd_score.specs.Bids.{bid_of};
ghost use Rattle.dd_score.specs.Heights.{height, bettering_height, bettering_at, bettering_in_level, highest_bettering};
ghost use Rattle.dd_score.specs.Values.{is_as_good};
ghost use Rattle.dd_cards.specs.Sides.{other_side};

use crate::bid::Bid;
use crate::order::Order;
use crate::par_list::{Sought, seats_of};
use crate::worths::Worths;
use dd_cards::{Seat, Side, Strain, Suit};

/// How high it stands; 0 where no bid betters a contract of the side.
// From the highest bid down: it is seldom a low one. In place, so that the side is a constant there.
#[inline(always)]
pub(crate) fn highest_bettering(worths: &Worths, sought: Sought, side: Side) -> u8
    ensures { result ≡ highest_bettering worths.now.tricks worths.now.vulnerable sought.order
        sought.score side 35 }
{
    for above in 0..7 {
        let found = bettering_in_level(worths, sought, side, 7 - above);
        if found > 0 {
            return found;
        }
    }
    0
}

// The same among the bids of a level.
#[inline(always)]
#[tactic(auto, unfolding(crate::specs::Heights::bettering_in_level))]
fn bettering_in_level(worths: &Worths, sought: Sought, side: Side, level: u8) -> u8
    requires { (1 ≤ level) × (level ≤ 7) }
    ensures { result ≡ bettering_in_level worths.now.tricks worths.now.vulnerable sought.order
        sought.score side level }
{
    let notrump = bettering_at(worths, sought, side, level, Strain::Notrump);
    if notrump > 0 {
        return notrump;
    }
    let spades = bettering_at(worths, sought, side, level, Strain::Trump(Suit::Spades));
    if spades > 0 {
        return spades;
    }
    let hearts = bettering_at(worths, sought, side, level, Strain::Trump(Suit::Hearts));
    if hearts > 0 {
        return hearts;
    }
    let diamonds = bettering_at(worths, sought, side, level, Strain::Trump(Suit::Diamonds));
    if diamonds > 0 {
        return diamonds;
    }
    bettering_at(worths, sought, side, level, Strain::Trump(Suit::Clubs))
}

// The same of a bid by both opponents.
#[inline(always)]
#[tactic(auto, unfolding(crate::specs::Heights::bettering_at))]
fn bettering_at(worths: &Worths, sought: Sought, side: Side, level: u8, strain: Strain) -> u8
    requires { (1 ≤ level) × (level ≤ 7) }
    ensures { result ≡ bettering_at worths.now.tricks worths.now.vulnerable sought.order
        sought.score side (bid_of level strain) }
{
    let (one, partner) = seats_of(other_side(side));
    let by_one = bettering_height(worths, sought, side, level, strain, one);
    let by_partner = bettering_height(worths, sought, side, level, strain, partner);
    if by_one < by_partner {
        by_partner
    } else {
        by_one
    }
}

// The same of a bid by one of them.
#[inline(always)]
fn bettering_height(
    worths: &Worths,
    sought: Sought,
    side: Side,
    level: u8,
    strain: Strain,
    opponent: Seat,
) -> u8
    requires { (1 ≤ level) × (level ≤ 7) }
    ensures { result ≡ bettering_height worths.now.tricks worths.now.vulnerable sought.order
        sought.score side (bid_of level strain) opponent }
{
    if is_as_good(side, sought.score, worths.at(level, strain, opponent)) {
        0
    } else {
        height(sought.order, level, strain, opponent)
    }
}

/// How high a bid stands.
pub(crate) fn height(order: Order, level: u8, strain: Strain, seat: Seat) -> u8
    requires { (1 ≤ level) × (level ≤ 7) }
    ensures { result ≡ height order (bid_of level strain) seat }
{
    4 * Bid::new(level, strain).number() + (3 - order.place(seat))
}

// Is a score at least as good for the side as par?
#[inline(always)]
fn is_as_good(side: Side, par: i16, score: i16) -> bool
    ensures { result ≡ is_as_good side par score }
{
    match side {
        Side::NorthSouth => par <= score,
        Side::EastWest => score <= par,
    }
}

// The opponents.
#[inline(always)]
fn other_side(side: Side) -> Side
    ensures { result ≡ other_side side }
{
    match side {
        Side::NorthSouth => Side::EastWest,
        Side::EastWest => Side::NorthSouth,
    }
}
