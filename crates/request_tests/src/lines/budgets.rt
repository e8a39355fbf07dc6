//! Lines whose budget just suffices, or lacks one position.
use super::runs::run_within;
use crate::devices::Pieces;
use crate::searched::{
    EIGHT_CARDS, EIGHT_CARDS_PLAY, EIGHT_CARDS_TABLE, EIGHT_CARDS_TARGET, NINE_CARDS,
};
use dd_bounds::{Budget, NoTable};
use dd_cards::Seat;
use dd_request::{Asked, PARTS, TableRequest};
use dd_search::{value, value_from_guess};
use dd_solve::{solve, solve_target};
use dd_wire::{LineAsked, read_request};
use std::alloc::Global;

// How many positions the search for the line visits, over no table, where these are more than `least` and no more than `most`; of a
// play the search for its last number.
fn positions(alloc: Global, line: &str, least: u64, most: u64) -> Option<u64> {
    let LineAsked::Cards(asked) = read_request(alloc, line.as_bytes()).ok()? else {
        return None;
    };
    let mut budget = Budget::new(most);
    let found = match asked {
        Asked::Solve(request) => solve(request, &mut NoTable, &mut budget).is_ok(),
        Asked::Target(request) => solve_target(request, &mut NoTable, &mut budget).is_ok(),
        Asked::Play(request) => {
            let (last, _) = request.after(request.cards().len());
            value(&last, &mut NoTable, &mut budget).is_ok()
        }
        Asked::Table(_) => false,
    };
    Some(budget.ticks()).filter(|count| found && *count > least)
}

// Is the line spent within this budget?
fn is_spent(alloc: Global, line: &[u8], budget: u64) -> bool {
    let run = run_within(
        alloc,
        Pieces::of(line),
        usize::MAX,
        usize::MAX,
        Some(budget),
    );
    run.written.as_slice() == b"{\"state\":\"spent\"}\n".as_slice()
}

// Is it spent where one position is lacking, and there alone?
fn needs(alloc: Global, line: &str, count: u64) -> bool {
    is_spent(alloc, line.as_bytes(), count.saturating_sub(1))
        && !is_spent(alloc, line.as_bytes(), count)
}

#[test]
fn a_budget_suffices_or_lacks_one_position(rt: HostRuntime) {
    let alloc = rt.alloc();
    let mut found = false;
    for line in EIGHT_CARDS.lines() {
        if let Some(count) = positions(alloc, line, 1_000, 20_000) {
            found = needs(alloc, line, count);
            break;
        }
    }
    assert!(rt; found);
}

#[test]
fn a_large_budget_suffices_or_lacks_one_position(rt: HostRuntime) {
    let alloc = rt.alloc();
    let count = positions(alloc, NINE_CARDS, 30_000, 1_000_000);
    let count = count.expect(&rt, "over 30,000 positions");
    assert!(rt; needs(alloc, NINE_CARDS, count));
}

#[test]
fn a_budget_of_a_target_or_a_play_suffices_or_lacks_one_position(rt: HostRuntime) {
    let alloc = rt.alloc();
    for line in [EIGHT_CARDS_TARGET, EIGHT_CARDS_PLAY] {
        let count = positions(alloc, line, 100, 100_000).expect(&rt, "over 100 positions");
        assert!(rt; needs(alloc, line, count), "{line}");
    }
}

#[test]
fn the_budget_of_a_table_is_its_own_number(rt: HostRuntime) {
    let alloc = rt.alloc();
    let line = EIGHT_CARDS_TABLE.as_bytes();
    assert!(rt; is_spent(alloc, line, 20) && !is_spent(alloc, line, 1_000_000));
}

// The tricks of a part of the table, and how many positions its search visits, over no table, where North and South are thought to
// take some `first_guess` tricks.
fn searched(request: &TableRequest, part: u8, first_guess: Option<u8>) -> Option<(u8, u64)> {
    if part >= PARTS {
        return None;
    }
    let position = request.opening(part);
    let mut budget = Budget::new(5_000_000);
    let leaders = match first_guess {
        Some(first_guess) => value_from_guess(&position, first_guess, &mut NoTable, &mut budget),
        None => value(&position, &mut NoTable, &mut budget),
    };
    let declarers = position.tricks_left().checked_sub(leaders.ok()?)?;
    Some((declarers, budget.ticks()))
}

// How many positions the longest search for a result of this strain visits. The line tool asks West's first, and then begins near
// the result before: East's, North's, South's.
fn positions_of_strain(request: &TableRequest, strain: u8) -> Option<u64> {
    let part = strain.checked_mul(4)?;
    let all = request.hands().len(Seat::North);
    let (west, first) = searched(request, part.checked_add(3)?, None)?;
    let (east, second) = searched(request, part.checked_add(1)?, all.checked_sub(west))?;
    let (north, third) = searched(request, part, all.checked_sub(east))?;
    let (_, last) = searched(request, part.checked_add(2)?, Some(north))?;
    Some(first.max(second).max(third).max(last))
}

// And the longest of all twenty, where that is over 1,000.
fn positions_of_table(alloc: Global, line: &[u8]) -> Option<u64> {
    let Ok(LineAsked::Cards(Asked::Table(request))) = read_request(alloc, line) else {
        return None;
    };
    let mut most = 0u64;
    for strain in 0..5u8 {
        most = most.max(positions_of_strain(&request, strain)?);
    }
    Some(most).filter(|count| *count > 1_000)
}

#[test]
fn a_budget_of_a_table_suffices_or_lacks_one_position(rt: HostRuntime) {
    let alloc = rt.alloc();
    let line = EIGHT_CARDS_TABLE;
    let count = positions_of_table(alloc, line.as_bytes()).expect(&rt, "over 1,000 positions");
    assert!(rt; needs(alloc, line, count));
}
