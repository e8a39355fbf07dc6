//! Worked counts of the parts that wait and run.
use crate::book::counted::Counted;
use crate::book::words::call;
use dd_book::Limits;
use std::alloc::{AllocError, Global};
use std::process::Abort;

// The rows are calls with the counts after them, a row a line.
fn follow(rt: &impl Abort, alloc: Global, limits: Limits, rows: &str) -> Result<(), AllocError> {
    let mut counted = Counted::new(alloc, limits);
    for row in rows.lines() {
        let mut halves = row.split(": ");
        let words = halves.next().expect(rt, "a call");
        let wanted = halves.next().expect(rt, "counts");
        let call = call(words).expect(rt, "a call in words");
        counted = counted.after(&call)?;
        let (waiting, running) = counted.counts();
        let told = format!(in alloc; "{waiting} wait, {running} run")?;
        assert_eq!(rt; told.as_str(), wanted, "{words}");
    }
    Ok(())
}

#[test]
fn each_call_is_counted(rt: HostRuntime) -> Result<(), AllocError> {
    let rows = "9 claims: 0 wait, 0 run
1 submits A: 1 wait, 0 run
1 submits T: 21 wait, 0 run
2 submits P: 29 wait, 0 run
2 submits Q: 34 wait, 0 run
2 submits W: 35 wait, 0 run
3 submits G: 36 wait, 0 run
9 claims: 35 wait, 1 run
9 finishes 1 1 B: 35 wait, 1 run
8 finishes 1 1 A: 35 wait, 1 run
9 finishes 1 1 stopped: 36 wait, 0 run
9 claims: 35 wait, 1 run
9 claims: 34 wait, 2 run
9 finishes 3 2 P6: 34 wait, 2 run
9 finishes 3 2 P7: 34 wait, 1 run
9 finishes 6 3 G: 34 wait, 0 run
2 cancels 2: 34 wait, 0 run
1 cancels 2: 14 wait, 0 run
1 cancels 2: 14 wait, 0 run
1 fetches 1: 14 wait, 0 run
9 claims: 13 wait, 1 run
9 finishes 1 4 spent: 13 wait, 0 run
9 claims: 12 wait, 1 run
9 claims: 11 wait, 2 run
2 cancels 3: 5 wait, 1 run
9 finishes 3 5 P6: 5 wait, 1 run
9 finishes 4 6 spent: 1 wait, 0 run
0 shuts: 1 wait, 0 run
1 submits A: 1 wait, 0 run
9 claims: 0 wait, 1 run
9 finishes 5 7 W0: 0 wait, 0 run
9 claims: 0 wait, 0 run";
    let limits = Limits::new(64, 1_000, 1, 1).expect(&rt, "limits in their ranges");
    follow(&rt, rt.alloc(), limits, rows)
}

#[test]
fn a_submit_past_a_limit_adds_no_part(rt: HostRuntime) -> Result<(), AllocError> {
    let rows = "1 submits T: 20 wait, 0 run
1 submits A: 20 wait, 0 run
2 submits A: 21 wait, 0 run
3 submits A: 21 wait, 0 run";
    let limits = Limits::new(1, 2, 1, 1).expect(&rt, "limits in their ranges");
    follow(&rt, rt.alloc(), limits, rows)
}

#[test]
fn a_table_that_is_done_has_no_part_left(rt: HostRuntime) -> Result<(), AllocError> {
    let alloc = rt.alloc();
    let mut rows = String::from_str(alloc, "1 submits T: 20 wait, 0 run")?;
    for part in 0..20u8 {
        let claim = part + 1;
        let letter = (b'a' + part) as char;
        let left = 19 - part;
        let claimed = format!(in alloc; "\n9 claims: {left} wait, 1 run")?;
        rows.push_str(claimed.as_str())?;
        let ended = format!(in alloc; "\n9 finishes 1 {claim} {letter}: {left} wait, 0 run")?;
        rows.push_str(ended.as_str())?;
    }
    let limits = Limits::new(64, 1_000, 1, 1).expect(&rt, "limits in their ranges");
    follow(&rt, alloc, limits, rows.as_str())
}
