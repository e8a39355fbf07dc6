//! Budgets of a worker: one just suffices, and one fewer does not.
ghost use Rattle.std.specs.Prelude.{◌≡◌, map};
ghost use Rattle.once_cell.specs.Once.{cell_name};

use crate::work::worked::{ask, enrol};
use dd_book::Limits;
use dd_bounds::{Budget, NoTable};
use dd_desk::{Desk, Naming, Row};
use dd_request::{Asked, PARTS, PlayRequest, Request, TableRequest, TargetRequest};
use dd_solve::{solve, solve_part, solve_play_part, solve_target};
use dd_wire::{LineAsked, read_request};
use dd_work::{NoGate, worker};
use request_tests::searched::{
    EIGHT_CARDS_PLAY, EIGHT_CARDS_TABLE, EIGHT_CARDS_TARGET, NINE_CARDS,
};
use std::alloc::{AllocError, Global};
use std::marker::Brand;
use std::process::Abort;
use std::sync::Wait;
use std::sync::atomic::AtomicBool;
use std::time::Clock;

// The most positions that one search is given here.
const MOST: u64 = 5_000_000;

// How many positions the search for all leads visits, over no table.
fn positions_of_leads(request: Request) -> Option<u64> {
    let mut budget = Budget::new(MOST);
    solve(request, &mut NoTable, &mut budget).ok()?;
    Some(budget.ticks())
}

// How many the search for all cards that reach the target visits.
fn positions_of_target(request: TargetRequest) -> Option<u64> {
    let mut budget = Budget::new(MOST);
    solve_target(request, &mut NoTable, &mut budget).ok()?;
    Some(budget.ticks())
}

// How many the longest search for one of the twenty results visits.
fn positions_of_table(request: &TableRequest) -> Option<u64> {
    let mut most = 0u64;
    for part in 0..PARTS {
        let mut budget = Budget::new(MOST);
        solve_part(request, part, &mut NoTable, &mut budget).ok()?;
        most = most.max(budget.ticks());
    }
    Some(most)
}

// How many the longest search for one of the play's numbers visits.
fn positions_of_play(request: &PlayRequest) -> Option<u64> {
    let mut most = 0u64;
    for count in 0..=request.cards().len() {
        let (position, _) = request.after(count);
        let mut budget = Budget::new(MOST);
        solve_play_part(position, request.declarers(), &mut NoTable, &mut budget).ok()?;
        most = most.max(budget.ticks());
    }
    Some(most)
}

// The least budget within which a worker answers the line, where that is over `least`.
fn least_budget(alloc: Global, line: &str, least: u64) -> Option<u64> {
    let count = match read_request(alloc, line.as_bytes()).ok()? {
        LineAsked::Cards(Asked::Solve(request)) => positions_of_leads(request)?,
        LineAsked::Cards(Asked::Target(request)) => positions_of_target(request)?,
        LineAsked::Cards(Asked::Table(request)) => positions_of_table(&request)?,
        LineAsked::Cards(Asked::Play(request)) => positions_of_play(&request)?,
        _ => return None,
    };
    Some(count).filter(|count| *count > least)
}

// The state of the line's job once a worker with this budget has left.
fn state_at_a_row<J: Naming, R: Wait + Clock + Abort>(
    rt: &R,
    alloc: Global,
    row: Row,
    submits: &String,
    budget: u64,
) -> Result<String, AllocError>
    requires cells { (map cell_name row.cells.items ≡ J.cells) × (J.all ≡ J.parts) }
    requires limits { row.limits ≡ J.limits }
    requires count { (row.count.name ≡ J.counts) × (row.count.parts ≡ J.parts) }
    requires sum { (row.sum.name ≡ J.places) × (row.sum.parts ≡ J.parts) }
{
    let desk = Desk::<J>::new(row);
    let mut caller = enrol(rt, &desk);
    let hand = enrol(rt, &desk);
    let _ = ask(rt, alloc, &desk, &mut caller, submits.as_str())?;
    let _ = ask(rt, alloc, &desk, &mut caller, "shuts")?;
    let stop = AtomicBool::new(false);
    let _ = worker(rt, &desk, &mut NoTable, hand, &NoGate, Some(budget), &stop);
    ask(rt, alloc, &desk, &mut caller, "fetches 1")
}

// The same at a desk of its own.
fn state_of<R: Wait + Clock + Abort>(
    rt: &R,
    alloc: Global,
    submits: &String,
    budget: u64,
) -> Result<String, AllocError> {
    let limits = Limits::new(64, 1_000, 8, 1_000).expect(rt, "limits in their ranges");
    let row = Row::new(alloc, limits)?;
    state_at_a_row::<Brand, R>(rt, alloc, row, submits, budget)
}

// Is the line's job spent?
fn is_spent<R: Wait + Clock + Abort>(
    rt: &R,
    alloc: Global,
    line: &str,
    budget: u64,
) -> Result<bool, AllocError> {
    let submits = format!(in alloc; "submits {line}")?;
    let state = state_of(rt, alloc, &submits, budget)?;
    Ok(state.as_str() == "spent")
}

#[test]
fn budgets_of_each_kind_suffice_or_lack_one_position(rt: HostRuntime) -> Result<(), AllocError> {
    let alloc = rt.alloc();
    for (line, least) in [
        (NINE_CARDS, 30_000),
        (EIGHT_CARDS_TABLE, 1_000),
        (EIGHT_CARDS_TARGET, 100),
        (EIGHT_CARDS_PLAY, 100),
    ] {
        let count = least_budget(alloc, line, least).expect(&rt, "so many positions");
        let suffices = !is_spent(&rt, alloc, line, count)?;
        let lacks_one = is_spent(&rt, alloc, line, count.saturating_sub(1))?;
        assert!(rt; suffices && lacks_one, "{line}");
    }
    Ok(())
}
