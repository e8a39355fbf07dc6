//! Worked rows through a desk.
use crate::desk::worked::{follow, follow_refused};
use dd_book::Limits;
use std::alloc::{AllocError, Global};
use std::process::Abort;

fn limits(rt: &impl Abort, open_jobs: u64, jobs: u64, passes: u64, events: u64) -> Limits {
    Limits::new(open_jobs, jobs, passes, events).expect(rt, "limits in their ranges")
}

fn ample(rt: &impl Abort) -> Limits {
    limits(rt, 64, 1_000, 8, 1_000)
}

#[test]
fn a_cancelled_claim_is_stale_and_another_caller_has_no_such_job(
    rt: HostRuntime,
) -> Result<(), AllocError> {
    let rows = "enrols: pass 1
enrols: pass 2
1 submits A: job 1
1 submits A: job 2
2 claims: job 1 claim 1
1 cancels 1: cancelled 1
2 finishes 1 1 A: stale
2 claims: job 2 claim 2
2 finishes 2 2 A: recorded
1 fetches 2: done with 1
1 fetches 1: cancelled
1 cancels 2: fault 17";
    follow(&rt, rt.alloc(), ample(&rt), rows, "10 events: 6 4")?;
    let more = format!(in rt.alloc(); "{rows}\nenrols: pass 3\n3 fetches 2: fault 16")?;
    follow(
        &rt,
        rt.alloc(),
        ample(&rt),
        more.as_str(),
        "11 events: 6 4 1",
    )
}

#[test]
fn limits_and_a_shut_refuse_in_their_order(rt: HostRuntime) -> Result<(), AllocError> {
    let rows = "enrols: pass 1
enrols: pass 2
enrols: pass 3
1 submits A: job 1
1 submits A: fault 13
2 submits A: job 2
3 submits A: fault 14
2 submits A: fault 13
1 shuts: shut
3 submits A: fault 18
3 claims: job 1 claim 1";
    let limits = limits(&rt, 1, 2, 3, 1_000);
    follow(&rt, rt.alloc(), limits, rows, "8 events: 3 2 3")
}

#[test]
fn a_stopped_job_waits_again_before_the_others(rt: HostRuntime) -> Result<(), AllocError> {
    let rows = "enrols: pass 1
enrols: pass 2
enrols: pass 3
1 submits A: job 1
1 submits A: job 2
2 claims: job 1 claim 1
2 finishes 1 1 stopped: recorded
1 fetches 1: waiting
3 claims: job 1 claim 2
2 finishes 1 1 A: stale
3 finishes 1 2 spent: recorded
1 fetches 1: spent";
    follow(&rt, rt.alloc(), ample(&rt), rows, "9 events: 4 3 2")
}

#[test]
fn a_finish_of_another_pass_claim_or_request_is_stale(rt: HostRuntime) -> Result<(), AllocError> {
    let rows = "enrols: pass 1
enrols: pass 2
enrols: pass 3
1 submits A: job 1
1 cancels 1: cancelled 1
2 claims: nothing waits
1 submits A: job 2
2 claims: job 2 claim 1
3 finishes 2 1 A: stale
2 finishes 2 1 B: stale
2 finishes 2 1 stopped: recorded
2 claims: job 2 claim 2
2 finishes 2 1 A: stale
1 fetches 2: running
2 finishes 2 2 A: recorded
1 fetches 2: done with 1";
    follow(&rt, rt.alloc(), ample(&rt), rows, "13 events: 5 7 1")
}

#[test]
fn a_claim_that_waits_ends_with_a_job_or_when_the_book_was_shut(
    rt: HostRuntime,
) -> Result<(), AllocError> {
    let rows = "enrols: pass 1
enrols: pass 2
1 submits B: job 1
1 shuts: shut
2 waits: job 1 claim 1
2 finishes 1 1 B: recorded
2 waits: closing
1 fetches 1: done with 2";
    follow(&rt, rt.alloc(), ample(&rt), rows, "6 events: 3 3")
}

// A journal of one event has it for a shut; of five, four are the request's.
#[test]
fn a_full_journal_refuses_each_call(rt: HostRuntime) -> Result<(), AllocError> {
    let alloc = rt.alloc();
    let one = "enrols: pass 1
enrols: pass 2
1 submits A: refused 15
2 claims: refused 15
2 waits: refused 15
2 finishes 1 1 A: refused 15
1 cancels 1: refused 15
1 fetches 1: refused 15
1 shuts: shut
1 shuts: refused 15
2 waits: refused 15";
    follow(
        &rt,
        alloc,
        limits(&rt, 64, 1_000, 8, 1),
        one,
        "1 events: 1 0",
    )?;
    let five = "enrols: pass 1
enrols: pass 2
1 submits A: job 1
1 submits A: refused 15
1 fetches 1: refused 15
2 claims: job 1 claim 1
2 claims: refused 15
1 fetches 1: refused 15
2 finishes 1 1 stopped: refused 15
2 finishes 1 1 A: recorded
2 finishes 1 1 A: refused 15
2 claims: refused 15
2 waits: refused 15
1 cancels 1: refused 15
1 fetches 1: done with 1
1 fetches 1: refused 15
1 shuts: shut
1 shuts: refused 15
2 claims: refused 15
2 waits: refused 15";
    follow(
        &rt,
        alloc,
        limits(&rt, 64, 1_000, 8, 5),
        five,
        "5 events: 3 2",
    )
}

#[test]
fn no_more_passes_are_given_than_there_may_be(rt: HostRuntime) -> Result<(), AllocError> {
    let rows = "enrols: pass 1
enrols: refused 14
1 submits A: job 1
enrols: refused 14";
    let limits = limits(&rt, 64, 1_000, 1, 1_000);
    follow(&rt, rt.alloc(), limits, rows, "1 events: 1")
}

#[test]
fn a_full_table_is_claimed_part_by_part_and_cancelled_whole(
    rt: HostRuntime,
) -> Result<(), AllocError> {
    let rows = "enrols: pass 1
enrols: pass 2
enrols: pass 3
1 submits S: job 1
1 submits A: job 2
2 claims: job 1 part 0 claim 1
3 claims: job 1 part 4 claim 2
2 finishes 1 1 stopped: recorded
2 claims: job 1 part 0 claim 3
1 fetches 1: running
1 cancels 1: cancelled 1
3 finishes 1 2 S: stale
3 claims: job 2 claim 4";
    follow(&rt, rt.alloc(), ample(&rt), rows, "10 events: 4 3 3")
}

#[test]
fn two_workers_end_a_table(rt: HostRuntime) -> Result<(), AllocError> {
    let alloc = rt.alloc();
    let mut rows = String::from_str(alloc, "enrols: pass 1\nenrols: pass 2\nenrols: pass 3")?;
    rows.push_str("\n1 submits T: job 1")?;
    for part in 0..20u8 {
        let worker = part % 2 + 2;
        let claim = part + 1;
        let letter = (b'a' + part) as char;
        let row = format!(in alloc;
            "\n{worker} waits: job 1 part {part} claim {claim}\n{worker} finishes 1 {claim} {letter}: recorded"
        )?;
        rows.push_str(row.as_str())?;
    }
    rows.push_str("\n1 fetches 1: done with 1\n2 claims: nothing waits")?;
    follow(&rt, alloc, ample(&rt), rows.as_str(), "43 events: 2 21 20")
}

#[test]
fn a_call_that_was_refused_memory_succeeds_when_it_comes_again(
    rt: HostRuntime,
) -> Result<(), AllocError> {
    let rows = "enrols: pass 1
enrols: pass 2
1 submits A: job 1
1 submits T: job 2
2 waits: job 1 claim 1
2 finishes 1 1 stopped: recorded
2 waits: job 1 claim 2
2 finishes 1 2 A: recorded
1 fetches 1: done with 1
1 cancels 2: cancelled 2
2 claims: nothing waits
1 shuts: shut
2 waits: closing";
    follow_refused(&rt, rt.alloc(), ample(&rt), rows, "11 events: 5 6", 1)
}
