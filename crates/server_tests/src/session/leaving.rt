//! A session that ends cancels its own open jobs, and no other's.
ghost use Rattle.std.specs.Prelude.{◌≡◌, map};
ghost use Rattle.once_cell.specs.Once.{cell_name};

use crate::session::served::{Client, serve_port};
use crate::session::worked::client;
use dd_book::{Call, JobState, Limits, Reply};
use dd_desk::{Desk, Naming, Pass, Receipt, Row};
use dd_session::DeskPort;
use dd_wire::{LineAsked, read_request};
use std::alloc::Global;
use std::marker::Brand;
use std::sync::Wait;
use std::sync::atomic::AtomicBool;
use std::test::Fail;
use std::time::Clock;

const TABLE: &[u8] = br#"{"do":"table","deal":"N:A... K... Q... J..."}"#;

// Four jobs of the session, of which one is cancelled, and a cancel of the other's.
const LINES: &[u8] = br#"{"do":"table","deal":"N:A... K... Q... J..."}
{"do":"table","deal":"N:A... K... Q... J..."}
{"do":"cancel","job":3}
{"do":"cancel","job":1}
{"do":"table","deal":"N:A... K... Q... J..."}
{"do":"table","deal":"N:A... K... Q... J..."}
"#;

// A job of a pass that has no session.
fn submit<J: Naming, R: Wait>(rt: &R, alloc: Global, desk: &Desk<J>, pass: &mut Pass<J>) {
    if let Ok(LineAsked::Cards(asked)) = read_request(alloc, TABLE) {
        let _ = desk.submit(rt, pass, asked);
    }
}

// The job that a receipt tells of as cancelled, or 0.
fn cancelled(receipt: &Receipt) -> u64 {
    match (receipt.call(), receipt.reply()) {
        (Call::Cancel { .. }, Reply::Cancelled(job)) => *job,
        _ => 0,
    }
}

// Which jobs the session has cancelled, in order, by the numbers of its receipts' jobs; and whether the
// other's job waits still.
fn left<J: Naming, R: Wait + Clock>(
    rt: &R,
    alloc: Global,
    row: Row,
    client: &Client,
) -> Option<(Vec<u64>, bool)>
    requires cells { (map cell_name row.cells.items ≡ J.cells) × (J.all ≡ J.parts) }
    requires limits { row.limits ≡ J.limits }
    requires count { (row.count.name ≡ J.counts) × (row.count.parts ≡ J.parts) }
    requires sum { (row.sum.name ≡ J.places) × (row.sum.parts ≡ J.parts) }
{
    let desk = Desk::<J>::new(row);
    let mut other = desk.enrol(rt).ok()?;
    submit(rt, alloc, &desk, &mut other);
    let pass = desk.enrol(rt).ok()?;
    let stop = AtomicBool::new(false);
    let mut port = DeskPort::new(rt, &desk, pass, 4, &stop);
    let _ = serve_port(alloc, client, &mut port);
    let pass = port.into_pass();
    let mut jobs = Vec::new(alloc);
    for receipt in pass.receipts() {
        jobs.push(cancelled(receipt)).ok()?;
    }
    let waits = matches!(
        desk.fetch(rt, &mut other, 1),
        Ok(Reply::State(_, JobState::Waiting))
    );
    Some((jobs, waits))
}

// The same at a desk of its own.
fn left_at_a_row<R: Wait + Clock>(
    rt: &R,
    alloc: Global,
    client: &Client,
) -> Option<(Vec<u64>, bool)> {
    let limits = Limits::new(64, 1_000, 2, 1_000)?;
    let row = Row::new(alloc, limits).ok()?;
    left::<Brand, R>(rt, alloc, row, client)
}

// `rt try --test --fail-alloc N` refuses the Nth growth; `rt test` refuses none. With N from 96 to 103 it is one of a cancel at the
// end, which is made again.
#[test]
fn a_session_that_ends_cancels_its_open_jobs_and_no_others(rt: HostRuntime) -> Result<(), Fail> {
    let client = client(rt.alloc(), LINES)?;
    let (jobs, waits) = left_at_a_row(&rt, rt.alloc(), &client).expect(&rt, "memory");
    // Six lines, and then what is open.
    assert!(rt; jobs.as_slice() == [0, 0, 3, 0, 0, 0, 2, 4, 5].as_slice() && waits);
    Ok(())
}

#[test]
fn so_does_one_whose_connection_fails(rt: HostRuntime) -> Result<(), Fail> {
    let mut client = client(rt.alloc(), LINES)?;
    client.room = 0;
    let (jobs, waits) = left_at_a_row(&rt, rt.alloc(), &client).expect(&rt, "memory");
    assert!(rt; jobs.as_slice() == [0, 2].as_slice() && waits);
    Ok(())
}
