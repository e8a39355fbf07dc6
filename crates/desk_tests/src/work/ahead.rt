//! What a worker searches ahead, and leaves in the table.
ghost use Rattle.std.specs.Prelude.{◌≡◌, map};
ghost use Rattle.once_cell.specs.Once.{cell_name};

use crate::work::worked::{ask, enrol};
use dd_book::Limits;
use dd_bounds::Budget;
use dd_desk::{Desk, Naming, Row};
use dd_request::{Asked, PARTS, TableRequest};
use dd_solve::solve_part;
use dd_table::SharedTable;
use dd_wire::{LineAsked, read_request};
use dd_work::{Gate, worker};
use request_tests::searched::EIGHT_CARDS_TABLE;
use std::alloc::{AllocError, Global};
use std::marker::Brand;
use std::process::Abort;
use std::sync::Wait;
use std::sync::atomic::{AtomicBool, Ordering};
use std::time::Clock;

// Once the first part is handed in, every search stops.
#[derive(Drop)]
struct StopsAfterOne<'a> {
    stop: &'a AtomicBool,
}

impl<'a> Gate for StopsAfterOne<'a> {
    fn before(&self, _job: u64) {}

    fn after(&self, _job: u64) {
        self.stop.store(true, Ordering::SeqCst);
    }
}

// The request of the line.
fn request(alloc: Global) -> Option<TableRequest> {
    match read_request(alloc, EIGHT_CARDS_TABLE.as_bytes()).ok()? {
        LineAsked::Cards(Asked::Table(request)) => Some(request),
        _ => None,
    }
}

// Of each result of the table, whether a search of one position tells it.
fn known<R: Wait + Abort>(
    rt: &R,
    alloc: Global,
    table: &SharedTable,
) -> Result<String, AllocError> {
    let request = request(alloc).expect(rt, "a table");
    let mut told = String::new(alloc);
    for part in 0..PARTS {
        let found = solve_part(&request, part, &mut table.view(rt), &mut Budget::new(1));
        told.push_str(if found.is_ok() { "k" } else { "-" })?;
    }
    Ok(told)
}

// Two callers submit the table so often in all.
fn submit_often<J: Naming, R: Wait + Abort>(
    rt: &R,
    alloc: Global,
    desk: &Desk<J>,
    jobs: u64,
) -> Result<(), AllocError> {
    let (mut caller, mut other) = (enrol(rt, desk), enrol(rt, desk));
    let submits = format!(in alloc; "submits {EIGHT_CARDS_TABLE}")?;
    for job in 0..jobs {
        let pass = if job < 60 { &mut caller } else { &mut other };
        let told = ask(rt, alloc, desk, pass, submits.as_str())?;
        assert!(rt; told.as_str().starts_with("job "));
    }
    Ok(())
}

// What the table knows once a worker has handed in the first part of so many tables.
fn known_after_one<J: Naming, R: Wait + Clock + Abort>(
    rt: &R,
    alloc: Global,
    row: Row,
    budget: Option<u64>,
    jobs: u64,
) -> Result<String, AllocError>
    requires cells { (map cell_name row.cells.items ≡ J.cells) × (J.all ≡ J.parts) }
    requires limits { row.limits ≡ J.limits }
    requires count { (row.count.name ≡ J.counts) × (row.count.parts ≡ J.parts) }
    requires sum { (row.sum.name ≡ J.places) × (row.sum.parts ≡ J.parts) }
{
    let desk = Desk::<J>::new(row);
    let hand = enrol(rt, &desk);
    submit_often(rt, alloc, &desk, jobs)?;
    let table = SharedTable::new(alloc, 16, 4_096)?;
    let nothing = known(rt, alloc, &table)?;
    assert!(rt; nothing.as_str() == "--------------------");
    let stop = AtomicBool::new(false);
    let gate = StopsAfterOne { stop: &stop };
    let _ = worker(rt, &desk, &mut table.view(rt), hand, &gate, budget, &stop);
    known(rt, alloc, &table)
}

// The same at a desk of its own.
fn known_at_a_row<R: Wait + Clock + Abort>(
    rt: &R,
    alloc: Global,
    budget: Option<u64>,
    jobs: u64,
) -> Result<String, AllocError> {
    let limits = Limits::new(64, 1_000, 8, 10_000).expect(rt, "limits in their ranges");
    let row = Row::new(alloc, limits)?;
    known_after_one::<Brand, R>(rt, alloc, row, budget, jobs)
}

#[test]
fn the_other_parts_of_a_strain_are_searched_before_the_first_is_handed_in(
    rt: HostRuntime,
) -> Result<(), AllocError> {
    let told = known_at_a_row(&rt, rt.alloc(), None, 64)?;
    assert!(rt; told.as_str() == "kkkk----------------");
    let told = known_at_a_row(&rt, rt.alloc(), Some(1_000_000), 1)?;
    assert!(rt; told.as_str() == "kkkk----------------");
    Ok(())
}

#[test]
fn below_a_million_positions_nothing_is_searched_ahead(rt: HostRuntime) -> Result<(), AllocError> {
    let told = known_at_a_row(&rt, rt.alloc(), Some(999_999), 1)?;
    assert!(rt; told.as_str() == "k-------------------");
    Ok(())
}

#[test]
fn while_many_jobs_are_open_nothing_is_searched_ahead(rt: HostRuntime) -> Result<(), AllocError> {
    let told = known_at_a_row(&rt, rt.alloc(), None, 65)?;
    assert!(rt; told.as_str() == "k-------------------");
    Ok(())
}
