//! Submits with a claim by a worker's pass, under one lock.
use crate::desk::worked::follow;
use dd_book::Limits;
use std::alloc::AllocError;
use std::process::Abort;

fn limits(rt: &impl Abort, open_jobs: u64, events: u64) -> Limits {
    Limits::new(open_jobs, 1_000, 8, events).expect(rt, "limits in their ranges")
}

// A claim is made where nothing waits, whatever runs, and gets the job's own first part; where a part waits it is left to who claims
// next.
#[test]
fn a_job_is_claimed_with_its_submit_where_nothing_waits(rt: HostRuntime) -> Result<(), AllocError> {
    let rows = "enrols: pass 1
enrols: pass 2
enrols: pass 3
1 submits A and the last claims: job 1; job 1 claim 1
3 finishes 1 1 A: recorded
1 fetches 1: done with 1
1 submits B: job 2
1 submits A and the last claims: job 3; no claim
2 claims: job 2 claim 2
2 claims: job 3 claim 3
2 submits G and the last claims: job 4; job 4 target claim 4
3 finishes 4 4 G: recorded
2 finishes 3 3 A: recorded
1 submits T and the last claims: job 5; job 5 part 0 claim 5
1 submits A and the last claims: job 6; no claim
2 claims: job 5 part 4 claim 6";
    follow(
        &rt,
        rt.alloc(),
        limits(&rt, 64, 1_000),
        rows,
        "16 events: 6 5 5",
    )
}

// Where the submit is refused, by the book or by the journal, there is no job to claim; and none after a shut.
#[test]
fn a_submit_that_is_refused_claims_nothing(rt: HostRuntime) -> Result<(), AllocError> {
    let rows = "enrols: pass 1
enrols: pass 2
1 submits A and the last claims: job 1; job 1 claim 1
1 submits A and the last claims: fault 13; no claim
1 shuts: shut
1 submits A and the last claims: fault 18; no claim
2 claims: closing";
    follow(
        &rt,
        rt.alloc(),
        limits(&rt, 1, 1_000),
        rows,
        "6 events: 4 2",
    )?;
    let full = "enrols: pass 1
enrols: pass 2
1 submits A and the last claims: job 1; job 1 claim 1
1 submits A and the last claims: refused 15; no claim
2 finishes 1 1 A: recorded
1 fetches 1: done with 1";
    follow(&rt, rt.alloc(), limits(&rt, 64, 5), full, "4 events: 2 2")
}
