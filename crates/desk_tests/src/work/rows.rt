//! Worked rows of one worker.
use crate::work::lines::{
    CAUGHT, CAUGHT_ANSWER, LAST, LAST_ANSWER, PLAYED, PLAYED_ANSWER, RUFFED, RUFFED_ANSWER, SUITS,
    SUITS_ANSWER,
};
use crate::work::worked::{Script, follow};
use dd_book::Limits;
use dd_bounds::{Budget, NoTable};
use dd_request::Asked;
use dd_solve::solve;
use dd_wire::{LineAsked, read_request, write_answer};
use request_tests::searched::EIGHT_CARDS;
use std::alloc::{AllocError, Global};
use std::process::Abort;

// A script with so many events and this budget.
fn script(
    rt: &impl Abort,
    events: u64,
    budget: Option<u64>,
    rows: String,
    ending: String,
) -> Script {
    let limits = Limits::new(64, 1_000, 8, events).expect(rt, "limits in their ranges");
    Script {
        limits,
        budget,
        stops: false,
        rows,
        ending,
    }
}

fn text(alloc: Global, words: &str) -> Result<String, AllocError> {
    String::from_str(alloc, words)
}

#[test]
fn a_worker_answers_what_waits_and_leaves_after_a_shut(rt: HostRuntime) -> Result<(), AllocError> {
    let alloc = rt.alloc();
    for budget in [None, Some(1_000u64)] {
        let rows = format!(in alloc;
            "submits {CAUGHT} => job 1\nsubmits {RUFFED} => job 2\nshuts => shut\nworks => 5 receipts\n\
             fetches 1 => {CAUGHT_ANSWER}\nfetches 2 => {RUFFED_ANSWER}"
        )?;
        let ending = text(alloc, "10 events: 5 5")?;
        follow(&rt, alloc, &script(&rt, 1_000, budget, rows, ending))?;
    }
    Ok(())
}

#[test]
fn a_worker_answers_one_job_and_leaves_after_a_shut(rt: HostRuntime) -> Result<(), AllocError> {
    let alloc = rt.alloc();
    let rows = format!(in alloc;
        "submits {CAUGHT} => job 1\nshuts => shut\nworks => 3 receipts\nfetches 1 => {CAUGHT_ANSWER}"
    )?;
    let ending = text(alloc, "6 events: 3 3")?;
    follow(&rt, alloc, &script(&rt, 1_000, None, rows, ending))
}

#[test]
fn a_budget_is_for_each_claim(rt: HostRuntime) -> Result<(), AllocError> {
    let alloc = rt.alloc();
    let rows = format!(in alloc;
        "submits {LAST} => job 1\nsubmits {LAST} => job 2\nshuts => shut\nworks => 5 receipts\n\
         fetches 1 => {LAST_ANSWER}\nfetches 2 => {LAST_ANSWER}"
    )?;
    let ending = text(alloc, "10 events: 5 5")?;
    follow(&rt, alloc, &script(&rt, 1_000, Some(1), rows, ending))
}

#[test]
fn a_search_whose_budget_is_spent_ends_its_job(rt: HostRuntime) -> Result<(), AllocError> {
    let alloc = rt.alloc();
    let rows = format!(in alloc;
        "submits {LAST} => job 1\nshuts => shut\nworks => 3 receipts\nfetches 1 => spent"
    )?;
    let ending = text(alloc, "6 events: 3 3")?;
    follow(&rt, alloc, &script(&rt, 1_000, Some(0), rows, ending))
}

#[test]
fn a_worker_takes_the_parts_of_a_table(rt: HostRuntime) -> Result<(), AllocError> {
    let alloc = rt.alloc();
    let rows = format!(in alloc;
        "submits {SUITS} => job 1\nshuts => shut\nworks => 41 receipts\nfetches 1 => {SUITS_ANSWER}"
    )?;
    let ending = text(alloc, "44 events: 3 41")?;
    follow(&rt, alloc, &script(&rt, 1_000, None, rows, ending))
}

#[test]
fn a_worker_takes_the_parts_of_a_play(rt: HostRuntime) -> Result<(), AllocError> {
    let alloc = rt.alloc();
    let rows = format!(in alloc;
        "submits {PLAYED} => job 1\nshuts => shut\nworks => 11 receipts\nfetches 1 => {PLAYED_ANSWER}"
    )?;
    let ending = text(alloc, "14 events: 3 11")?;
    follow(&rt, alloc, &script(&rt, 1_000, None, rows, ending))
}

// After its finish no event is free for a claim and no job is open; the fetch and the shut have theirs.
#[test]
fn a_worker_leaves_where_no_event_is_free_and_no_job_open(
    rt: HostRuntime,
) -> Result<(), AllocError> {
    let alloc = rt.alloc();
    let rows = format!(in alloc;
        "works => 0 receipts\nsubmits {LAST} => refused 15\nshuts => shut\nworks => 0 receipts"
    )?;
    let ending = text(alloc, "1 events: 1 0")?;
    follow(&rt, alloc, &script(&rt, 1, None, rows, ending))?;
    let rows = format!(in alloc;
        "submits {LAST} => job 1\nfetches 1 => refused 15\nworks => 2 receipts\nfetches 1 => {LAST_ANSWER}\n\
         fetches 1 => refused 15\nshuts => shut\nworks => 2 receipts"
    )?;
    let ending = text(alloc, "5 events: 3 2")?;
    follow(&rt, alloc, &script(&rt, 5, None, rows, ending))
}

// To wait again a part would need a claim and a finish more. It runs on, as its worker left, and its job can be cancelled.
#[test]
fn a_worker_that_is_stopped_where_no_event_is_free_leaves_with_its_part(
    rt: HostRuntime,
) -> Result<(), AllocError> {
    let alloc = rt.alloc();
    let rows = format!(in alloc;
        "submits {CAUGHT} => job 1\nworks => 1 receipts\nfetches 1 => refused 15\ncancels 1 => cancelled 1\n\
         fetches 1 => refused 15\nshuts => shut"
    )?;
    let ending = text(alloc, "4 events: 3 1")?;
    let mut stopped = script(&rt, 5, Some(1_000), rows, ending);
    stopped.stops = true;
    follow(&rt, alloc, &stopped)
}

#[test]
fn a_worker_that_is_stopped_gives_its_job_back(rt: HostRuntime) -> Result<(), AllocError> {
    let alloc = rt.alloc();
    let rows = format!(in alloc;
        "submits {CAUGHT} => job 1\nworks => 2 receipts\nfetches 1 => waiting"
    )?;
    let ending = text(alloc, "4 events: 2 2")?;
    let mut stopped = script(&rt, 1_000, Some(1_000), rows, ending);
    stopped.stops = true;
    follow(&rt, alloc, &stopped)
}

// How many positions the search for the line takes, over no table, where these are more than 1,000 and no more than 20,000,
// and its answer.
fn needed(alloc: Global, line: &str) -> Option<(u64, String)> {
    let Ok(LineAsked::Cards(Asked::Solve(request))) = read_request(alloc, line.as_bytes()) else {
        return None;
    };
    let mut budget = Budget::new(20_000);
    let solved = solve(request, &mut NoTable, &mut budget).ok()?;
    let answer = text(alloc, write_answer(solved.answer()).as_str()).ok()?;
    if budget.ticks() > 1_000 {
        Some((budget.ticks(), answer))
    } else {
        None
    }
}

#[test]
fn a_budget_suffices_or_lacks_one_position(rt: HostRuntime) -> Result<(), AllocError> {
    let alloc = rt.alloc();
    for line in EIGHT_CARDS.lines() {
        if let Some((count, answer)) = needed(alloc, line) {
            let most = [(count, answer.as_str()), (count.saturating_sub(1), "spent")];
            for (budget, shown) in most {
                let rows = format!(in alloc;
                    "submits {line} => job 1\nshuts => shut\nworks => 3 receipts\nfetches 1 => {shown}"
                )?;
                let ending = text(alloc, "6 events: 3 3")?;
                follow(&rt, alloc, &script(&rt, 1_000, Some(budget), rows, ending))?;
            }
            return Ok(());
        }
    }
    panic!(rt; "none of these needs over 1,000 positions")
}
