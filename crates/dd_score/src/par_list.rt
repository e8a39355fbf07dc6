ghost use Rattle.std.specs.Prelude.{◌≡◌, ◌+◌, ◌*◌, ◌<◌, ◌≤◌};
ghost use Rattle.arrayvec.specs.ArrayVec.{array_vec_len};
ghost use Rattle.dd_score.specs.Bids.{bid_of};
ghost use Rattle.dd_score.specs.Heights.{highest_bettering};
ghost use Rattle.dd_score.specs.ParContracts.{is_par_contract, listed, listed_by, all_at, least_of, with_contract, strain_coded, par_contracts, one_of, partner_of};
ghost use Rattle.dd_cards.specs.Sides.{side_of};

use crate::highest_bettering::{height, highest_bettering};
use crate::order::Order;
use crate::par_contract::{Declarers, ParContract};
use crate::worths::Worths;
use arrayvec::ArrayVec;
use dd_cards::{Seat, Side, Strain, Suit};

// What par contracts are to reach, and for whom.
#[derive(Clone, Copy)]
pub(crate) struct Sought {
    pub order: Order,
    pub score: i16,
}

// The list of par contracts.
pub(crate) fn par_list(worths: &Worths, sought: Sought) -> ArrayVec<ParContract, 10>
    ensures { result.items ≡ par_contracts worths.now.tricks worths.now.vulnerable sought.order sought.score }
{
    let over_theirs = highest_bettering(worths, sought, Side::NorthSouth);
    let over_others = highest_bettering(worths, sought, Side::EastWest);
    let mut contracts = ArrayVec::new();
    for code in 0..5 {
        let strain = strain_of_code(code);
        let theirs = least(worths, sought, strain, Side::NorthSouth, over_theirs);
        add(&mut contracts, theirs);
        let others = least(worths, sought, strain, Side::EastWest, over_others);
        add(&mut contracts, others);
    }
    contracts
}

// The strain of a code, 0 to 4.
fn strain_of_code(code: u8) -> Strain
    requires { code < 5 }
    ensures { result ≡ strain_coded code }
{
    match code {
        0 => Strain::Trump(Suit::Spades),
        1 => Strain::Trump(Suit::Hearts),
        2 => Strain::Trump(Suit::Diamonds),
        3 => Strain::Trump(Suit::Clubs),
        _ => Strain::Notrump,
    }
}

// Puts a contract, where there is one, at the list's end.
fn add(contracts: &mut ArrayVec<ParContract, 10>, more: Option<ParContract>)
    requires { array_vec_len contracts.old < 10 }
    ensures items { contracts.new.items ≡ with_contract contracts.old.items more }
    ensures len { array_vec_len contracts.new ≤ array_vec_len contracts.old + 1 }
{
    if let Some(contract) = more {
        contracts.push(contract);
    }
}

// Of a side's par contracts in a strain those of the least level, as one.
fn least(
    worths: &Worths,
    sought: Sought,
    strain: Strain,
    side: Side,
    highest: u8,
) -> Option<ParContract>
    requires { highest ≡ highest_bettering worths.now.tricks worths.now.vulnerable sought.order
        sought.score side 35 }
    ensures { result ≡ least_of worths.now.tricks worths.now.vulnerable
        sought.order sought.score strain side }
{
    for level in 1..8 {
        let found = at_level(worths, sought, strain, side, level, highest);
        if found.is_some() {
            return found;
        }
    }
    None
}

// A side's par contracts of this level and strain, as one.
#[tactic(auto, unfolding(crate::specs::ParContracts::all_at))]
fn at_level(
    worths: &Worths,
    sought: Sought,
    strain: Strain,
    side: Side,
    level: u8,
    highest: u8,
) -> Option<ParContract>
    requires level { (1 ≤ level) × (level ≤ 7) }
    requires highest { highest ≡ highest_bettering worths.now.tricks worths.now.vulnerable
        sought.order sought.score side 35 }
    ensures { result ≡ all_at worths.now.tricks worths.now.vulnerable sought.order sought.score side strain
        level }
{
    let (one, partner) = seats_of(side);
    let by_one = is_par_contract(worths, sought, level, strain, one, highest);
    let by_partner = is_par_contract(worths, sought, level, strain, partner, highest);
    listed_by(worths, side, level, strain, by_one, by_partner)
}

// Of a side's two seats those that have a par contract, as one listed contract.
fn listed_by(
    worths: &Worths,
    side: Side,
    level: u8,
    strain: Strain,
    by_one: bool,
    by_partner: bool,
) -> Option<ParContract>
    ensures { result ≡ listed_by worths.now.tricks side level strain by_one by_partner }
{
    let (one, partner) = seats_of(side);
    match (by_one, by_partner) {
        (true, true) => Some(listed(worths, level, strain, one, Declarers::Both(side))),
        (true, false) => Some(listed(worths, level, strain, one, Declarers::One(one))),
        (false, true) => Some(listed(worths, level, strain, partner, Declarers::One(partner))),
        (false, false) => None,
    }
}

// The two seats of a side.
#[inline(always)]
pub(crate) fn seats_of(side: Side) -> (Seat, Seat)
    ensures one { result.0 ≡ one_of side }
    ensures partner { result.1 ≡ partner_of side }
{
    match side {
        Side::NorthSouth => (Seat::North, Seat::South),
        Side::EastWest => (Seat::East, Seat::West),
    }
}

// A contract as it is listed.
fn listed(
    worths: &Worths,
    level: u8,
    strain: Strain,
    declarer: Seat,
    declarers: Declarers,
) -> ParContract
    ensures { result ≡ listed worths.now.tricks level strain declarer declarers }
{
    ParContract {
        level,
        strain,
        tricks: worths.tricks(strain, declarer),
        declarers,
    }
}

// Is it a par contract: worth the score of par, and no bid of the other side betters it? `highest`: how high the highest bid
// stands that betters a contract of the side.
#[tactic(auto, unfolding(crate::specs::ParContracts::is_par_contract))]
#[inline(always)]
fn is_par_contract(
    worths: &Worths,
    sought: Sought,
    level: u8,
    strain: Strain,
    seat: Seat,
    highest: u8,
) -> bool
    requires level { (1 ≤ level) × (level ≤ 7) }
    requires highest { highest ≡ highest_bettering worths.now.tricks worths.now.vulnerable
        sought.order sought.score (side_of seat) 35 }
    ensures { result ≡ is_par_contract worths.now.tricks worths.now.vulnerable sought.order
        sought.score (bid_of level strain) seat }
{
    worths.at(level, strain, seat) == sought.score
        && !(height(sought.order, level, strain, seat) < highest)
}
