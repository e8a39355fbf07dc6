//! Who waits at a desk without a free event.
ghost use Rattle.std.specs.Prelude.{◌≡◌, map};
ghost use Rattle.once_cell.specs.Once.{cell_name};

use crate::desk::checked::check;
use crate::desk::worked::{counted, follow_rows, in_words};
use dd_book::{Limits, Reply};
use dd_desk::{Desk, DeskFault, Naming, Pass, Row};
use std::alloc::{AllocError, Global};
use std::marker::Brand;
use std::process::Abort;
use std::sync::Wait;
use std::thread;
use std::thread::{Threads, join};
use std::time::{Clock, Duration};

// How many milliseconds who waits has to come to its wait.
const COMES: u64 = 50;

// What the last pass waits for.
#[derive(Clone, Copy, Debug, PartialEq, Eq)]
enum Wants {
    // a part to work on
    Part,
    // the end of job 1
    End,
}

// The rows before the last pass waits, and those while it does; what it is told, and how many events there are then.
#[derive(Drop)]
struct Script {
    limits: Limits,
    wants: Wants,
    before: String,
    during: &'static str,
    told: &'static str,
    ending: &'static str,
}

// A pass after its call, and what it was told.
#[derive(Drop)]
struct Waited<J: Naming> {
    pass: Pass<J>,
    said: Result<Reply, DeskFault>,
}

fn waits<J: Naming, R: Wait>(rt: &R, desk: &Desk<J>, mut pass: Pass<J>, wants: Wants) -> Waited<J> {
    let said = match wants {
        Wants::Part => desk.claim(rt, &mut pass),
        Wants::End => desk.fetch_ended(rt, &mut pass, 1),
    };
    Waited { pass, said }
}

// The passes after these rows, which follow when who waits has come to its wait.
fn others<J: Naming, R: Wait + Clock + Abort>(
    rt: &R,
    alloc: Global,
    desk: &Desk<J>,
    mut passes: Vec<Pass<J>>,
    rows: &str,
) -> Result<Vec<Pass<J>>, AllocError> {
    thread::sleep(rt, Duration::from_millis(COMES));
    follow_rows(rt, alloc, desk, &mut passes, rows, 0)?;
    Ok(passes)
}

fn meet<J: Naming + Send + Sync, R: Threads + Wait + Clock + Abort + Sync>(
    rt: &R,
    alloc: Global,
    row: Row,
    script: &Script,
) -> Result<(), AllocError>
    requires cells { (map cell_name row.cells.items ≡ J.cells) × (J.all ≡ J.parts) }
    requires limits { row.limits ≡ J.limits }
    requires count { (row.count.name ≡ J.counts) × (row.count.parts ≡ J.parts) }
    requires sum { (row.sum.name ≡ J.places) × (row.sum.parts ≡ J.parts) }
{
    let desk = Desk::<J>::new(row);
    let mut passes = Vec::new(alloc);
    follow_rows(rt, alloc, &desk, &mut passes, script.before.as_str(), 0)?;
    let last = passes.pop().expect(rt, "a pass");
    let (shared, wants, rows) = (&desk, script.wants, script.during);
    let (waited, passes) = join(
        rt,
        move || waits(rt, shared, last, wants),
        move || others(rt, alloc, shared, passes, rows),
    );
    let told = in_words(alloc, &waited.said)?;
    assert_eq!(rt; told.as_str(), script.told);
    let mut passes = passes?;
    passes.push(waited.pass)?;
    let Ok(closed) = desk.close(passes) else {
        return Err(AllocError);
    };
    let _ = check(rt, alloc, script.limits, &closed)?;
    let counted = counted(alloc, &closed)?;
    assert_eq!(rt; counted.as_str(), script.ending);
    Ok(())
}

fn meet_at_a_row<R: Threads + Wait + Clock + Abort + Sync>(
    rt: &R,
    alloc: Global,
    script: &Script,
) -> Result<(), AllocError> {
    let row = Row::new(alloc, script.limits)?;
    meet::<Brand, R>(rt, alloc, row, script)
}

fn few(rt: &impl Abort, events: u64) -> Limits {
    Limits::new(64, 1_000, 8, events).expect(rt, "limits in their ranges")
}

#[test]
fn a_fetch_waits_for_the_end_where_no_event_is_free(rt: HostRuntime) -> Result<(), AllocError> {
    let before = "enrols: pass 1
enrols: pass 2
2 submits A: job 1
1 fetches 1: refused 15";
    let script = Script {
        limits: few(&rt, 5),
        wants: Wants::End,
        before: String::from_str(rt.alloc(), before)?,
        during: "1 claims: job 1 claim 1\n1 finishes 1 1 A: recorded\n1 fetches 1: refused 15",
        told: "done with 1",
        ending: "4 events: 2 2",
    };
    meet_at_a_row(&rt, rt.alloc(), &script)
}

// All parts of a play run. Finishes of other claims have taken each event that was free, so that finishes are kept for the eight
// parts alone; with the cancel four of these are free.
fn whole_play(alloc: Global) -> Result<String, AllocError> {
    let mut rows = String::from_str(
        alloc,
        "enrols: pass 1\nenrols: pass 2\nenrols: pass 3\n1 submits P: job 1",
    )?;
    for place in 0..8u8 {
        let (count, claim) = (7u8.saturating_sub(place), place.saturating_add(1));
        let row = format!(in alloc; "\n2 claims: job 1 after {count} claim {claim}")?;
        rows.push_str(row.as_str())?;
    }
    rows.push_str("\n2 finishes 1 9 spent: stale\n2 finishes 1 9 spent: stale")?;
    rows.push_str("\n2 finishes 1 9 spent: stale\n2 finishes 1 9 spent: stale")?;
    rows.push_str("\n1 fetches 1: refused 15")?;
    Ok(rows)
}

// Who left as long as no event is free would not be there for the next job.
#[test]
fn a_worker_stays_while_a_job_is_open_where_no_event_is_free(
    rt: HostRuntime,
) -> Result<(), AllocError> {
    let script = Script {
        limits: few(&rt, 23),
        wants: Wants::Part,
        before: whole_play(rt.alloc())?,
        during: "1 cancels 1: cancelled 1\n1 submits A: job 2\n1 fetches 2: refused 15",
        told: "job 2 claim 9",
        ending: "16 events: 3 12 1",
    };
    meet_at_a_row(&rt, rt.alloc(), &script)
}

// The first part of a table is claimed with its submit, and the others wake who waits for one.
#[test]
fn a_worker_is_woken_by_the_parts_that_are_left(rt: HostRuntime) -> Result<(), AllocError> {
    let script = Script {
        limits: few(&rt, 1_000),
        wants: Wants::Part,
        before: String::from_str(rt.alloc(), "enrols: pass 1\nenrols: pass 2\nenrols: pass 3")?,
        during: "1 submits T and the last claims: job 1; job 1 part 0 claim 1",
        told: "job 1 part 4 claim 2",
        ending: "3 events: 1 1 1",
    };
    meet_at_a_row(&rt, rt.alloc(), &script)
}

// What a fetch is told that waits a millisecond, and whether its time was over: before its job has ended, and then.
fn in_time<J: Naming, R: Wait + Clock + Abort>(
    rt: &R,
    alloc: Global,
    row: Row,
) -> Result<String, AllocError>
    requires cells { (map cell_name row.cells.items ≡ J.cells) × (J.all ≡ J.parts) }
    requires limits { row.limits ≡ J.limits }
    requires count { (row.count.name ≡ J.counts) × (row.count.parts ≡ J.parts) }
    requires sum { (row.sum.name ≡ J.places) × (row.sum.parts ≡ J.parts) }
{
    let desk = Desk::<J>::new(row);
    let mut passes = Vec::new(alloc);
    let mut shown = String::new(alloc);
    for rows in [
        "enrols: pass 1\nenrols: pass 2\n1 submits A: job 1",
        "2 claims: job 1 claim 1\n2 finishes 1 1 A: recorded",
        "2 fetches 1: refused 15",
    ] {
        follow_rows(rt, alloc, &desk, &mut passes, rows, 0)?;
        let pass = passes.get_mut(0).expect(rt, "a pass");
        let (said, is_over) = desk.fetch_within(rt, pass, 1, Duration::from_millis(1));
        let told = in_words(alloc, &said)?;
        let told = told.as_str();
        let more = format!(in alloc; "{told}, {is_over}\n")?;
        shown.push_str(more.as_str())?;
    }
    Ok(shown)
}

fn in_time_at_a_row<R: Wait + Clock + Abort>(rt: &R, alloc: Global) -> Result<String, AllocError> {
    let row = Row::new(alloc, few(rt, 5))?;
    in_time::<Brand, R>(rt, alloc, row)
}

#[test]
fn a_fetch_is_refused_when_its_time_is_over_and_told_the_end_once(
    rt: HostRuntime,
) -> Result<(), AllocError> {
    let shown = in_time_at_a_row(&rt, rt.alloc())?;
    assert_eq!(rt;
        shown.as_str(),
        "refused 15, true\ndone with 1, false\nrefused 15, false\n"
    );
    Ok(())
}
