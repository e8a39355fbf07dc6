//! A worker whose call finds no memory.
ghost use Rattle.std.specs.Prelude.{◌≡◌, map};
ghost use Rattle.once_cell.specs.Once.{cell_name};

use crate::work::lines::CAUGHT;
use crate::work::worked::{ask, enrol};
use dd_book::Limits;
use dd_bounds::NoTable;
use dd_desk::{Desk, Naming, Row};
use dd_work::{Gate, worker};
use std::alloc::{AllocError, Global};
use std::marker::Brand;
use std::process::Abort;
use std::sync::Wait;
use std::sync::atomic::{AtomicBool, AtomicU64, Ordering};
use std::time::Clock;

// Counts how often the worker rested, and whether it gave up.
#[derive(Drop)]
struct Counts {
    may_rest: bool,
    rests: AtomicU64,
    ends: AtomicU64,
}

impl Gate for Counts {
    fn before(&self, _job: u64) {}

    fn after(&self, _job: u64) {}

    fn may_rest(&self) -> bool {
        self.may_rest
    }

    fn short(&self) {
        self.rests.fetch_add(1, Ordering::SeqCst);
    }

    fn give_up(&self) {
        self.ends.fetch_add(1, Ordering::SeqCst);
    }
}

// How many receipts a worker has that left, how often it rested, and how often it gave up.
#[derive(Debug, Drop, PartialEq, Eq)]
struct Worked {
    receipts: usize,
    rests: u64,
    ends: u64,
}

// The worker has one job to answer, and then to leave.
fn works<J: Naming, R: Wait + Clock + Abort>(
    rt: &R,
    alloc: Global,
    row: Row,
    may_rest: bool,
) -> Result<Worked, AllocError>
    requires cells { (map cell_name row.cells.items ≡ J.cells) × (J.all ≡ J.parts) }
    requires limits { row.limits ≡ J.limits }
    requires count { (row.count.name ≡ J.counts) × (row.count.parts ≡ J.parts) }
    requires sum { (row.sum.name ≡ J.places) × (row.sum.parts ≡ J.parts) }
{
    let desk = Desk::<J>::new(row);
    let mut caller = enrol(rt, &desk);
    let hand = enrol(rt, &desk);
    let submits = format!(in alloc; "submits {CAUGHT}")?;
    let _ = ask(rt, alloc, &desk, &mut caller, submits.as_str())?;
    let _ = ask(rt, alloc, &desk, &mut caller, "shuts")?;
    let gate = Counts {
        may_rest,
        rests: AtomicU64::new(0),
        ends: AtomicU64::new(0),
    };
    let stop = AtomicBool::new(false);
    let hand = worker(rt, &desk, &mut NoTable, hand, &gate, None, &stop);
    Ok(Worked {
        receipts: hand.receipts().len(),
        rests: gate.rests.load(Ordering::SeqCst),
        ends: gate.ends.load(Ordering::SeqCst),
    })
}

// The same at a desk of its own.
fn works_at_a_row<R: Wait + Clock + Abort>(
    rt: &R,
    alloc: Global,
    may_rest: bool,
) -> Result<Worked, AllocError> {
    let limits = Limits::new(64, 1_000, 8, 1_000).expect(rt, "limits in their ranges");
    let row = Row::new(alloc, limits)?;
    works::<Brand, R>(rt, alloc, row, may_rest)
}

// `rt try --test --fail-alloc N` refuses the Nth growth; `rt test` refuses none, and `cases/server/hostile.sh memory` those of the
// built program, for ten seconds and for good. With N from 29 to 36 it is one of the worker's three calls: a claim, its finish and
// the last claim.
#[test]
fn a_worker_that_finds_no_memory_rests_and_goes_on(rt: HostRuntime) -> Result<(), AllocError> {
    let worked = works_at_a_row(&rt, rt.alloc(), true)?;
    assert_eq!(rt; (worked.receipts, worked.ends), (3, 0));
    assert!(rt; worked.rests <= 1);
    Ok(())
}

#[test]
fn a_worker_that_may_not_rest_leaves_where_it_finds_no_memory(
    rt: HostRuntime,
) -> Result<(), AllocError> {
    let worked = works_at_a_row(&rt, rt.alloc(), false)?;
    assert_eq!(rt; worked.rests, 0);
    let wanted = if worked.receipts == 3 { 0u64 } else { 1 };
    assert_eq!(rt; worked.ends, wanted);
    Ok(())
}
