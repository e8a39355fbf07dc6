//! Worked runs, by single calls and as lists.
use crate::book::words::{call, told};
use dd_book::{Book, Limits, run_calls};
use std::alloc::{AllocError, Global};
use std::process::Abort;

// The rows are calls with their replies, a row a line: one by one, and then as one list.
fn follow(rt: &impl Abort, alloc: Global, limits: Limits, rows: &str) -> Result<(), AllocError> {
    let mut book = Book::new(alloc, limits);
    let mut calls = Vec::new(alloc);
    for row in rows.lines() {
        let mut halves = row.split(": ");
        let words = halves.next().expect(rt, "a call");
        let wanted = halves.next().expect(rt, "a reply");
        let call = call(words).expect(rt, "a call in words");
        calls.push(call.copy())?;
        assert!(rt; book.claims() < 1_000);
        let reply = match book.apply(call) {
            Ok(reply) => told(alloc, &reply)?,
            Err(_) => return Err(AllocError),
        };
        assert_eq!(rt; reply.as_str(), wanted, "{words}");
    }
    assert!(rt; calls.len() < 1_000);
    let Ok((_, replies)) = run_calls(alloc, Book::new(alloc, limits), calls.as_slice()) else {
        return Err(AllocError);
    };
    for (row, reply) in rows.lines().zip(replies.iter()) {
        let reply = told(alloc, reply)?;
        assert!(rt; row.ends_with(reply.as_str()), "{row}");
    }
    Ok(())
}

fn ample(rt: &impl Abort) -> Limits {
    Limits::new(64, 1_000, 1, 1).expect(rt, "limits in their ranges")
}

#[test]
fn a_cancelled_claim_is_stale_and_the_next_job_is_done(rt: HostRuntime) -> Result<(), AllocError> {
    let rows = "1 submits A: job 1
1 submits B: job 2
9 claims: job 1 claim 1
1 cancels 1: cancelled 1
9 finishes 1 1 A: stale
9 claims: job 2 claim 2
9 finishes 2 2 A: stale
9 finishes 2 2 B: recorded
1 fetches 2: done with 2
1 fetches 1: cancelled
1 cancels 2: fault 17
2 fetches 2: fault 16
2 cancels 1: fault 16
1 fetches 0: fault 16
1 fetches 3: fault 16
9 claims: nothing waits";
    follow(&rt, rt.alloc(), ample(&rt), rows)
}

#[test]
fn two_jobs_of_one_request_are_told_apart(rt: HostRuntime) -> Result<(), AllocError> {
    let rows = "1 submits A: job 1
1 submits A: job 2
9 claims: job 1 claim 1
1 cancels 1: cancelled 1
9 finishes 1 1 A: stale
9 claims: job 2 claim 2
9 finishes 2 2 A: recorded
1 fetches 2: done with 1
1 fetches 1: cancelled
1 cancels 2: fault 17
2 fetches 2: fault 16";
    follow(&rt, rt.alloc(), ample(&rt), rows)
}

#[test]
fn limits_and_a_shut_refuse_in_their_order(rt: HostRuntime) -> Result<(), AllocError> {
    let rows = "1 submits A: job 1
1 submits A: fault 13
2 submits A: job 2
3 submits A: fault 14
2 submits A: fault 13
0 shuts: shut
3 submits A: fault 18
9 claims: job 1 claim 1
9 claims: job 2 claim 2
9 claims: closing
0 shuts: shut";
    let limits = Limits::new(1, 2, 1, 1).expect(&rt, "limits in their ranges");
    follow(&rt, rt.alloc(), limits, rows)
}

#[test]
fn a_stopped_job_waits_before_the_others_of_its_owner_under_a_new_claim(
    rt: HostRuntime,
) -> Result<(), AllocError> {
    let rows = "1 submits A: job 1
1 submits B: job 2
9 claims: job 1 claim 1
9 finishes 1 1 stopped: recorded
1 fetches 1: waiting
9 claims: job 1 claim 2
9 finishes 1 1 A: stale
8 finishes 1 2 A: stale
9 finishes 1 2 spent: recorded
1 fetches 1: spent
9 finishes 1 2 spent: stale";
    follow(&rt, rt.alloc(), ample(&rt), rows)
}

#[test]
fn three_owners_are_claimed_for_in_turn(rt: HostRuntime) -> Result<(), AllocError> {
    let rows = "1 submits A: job 1
1 submits A: job 2
2 submits A: job 3
3 submits B: job 4
3 submits B: job 5
9 claims: job 1 claim 1
9 claims: job 3 claim 2
9 claims: job 4 claim 3
9 claims: job 2 claim 4
2 submits A: job 6
9 claims: job 6 claim 5
9 claims: job 5 claim 6
9 claims: nothing waits
9 finishes 2 4 stopped: recorded
9 finishes 6 5 A: recorded
3 submits A: job 7
2 submits A: job 8
4 submits A: job 9
9 claims: job 2 claim 7
9 claims: job 8 claim 8
9 claims: job 7 claim 9
9 claims: job 9 claim 10
9 claims: nothing waits";
    follow(&rt, rt.alloc(), ample(&rt), rows)
}

#[test]
fn newcomers_come_after_those_who_waited_already(rt: HostRuntime) -> Result<(), AllocError> {
    let rows = "1 submits A: job 1
9 claims: job 1 claim 1
1 submits T: job 2
2 submits A: job 3
3 submits A: job 4
9 claims: job 2 part 0 claim 2
4 submits A: job 5
9 claims: job 3 claim 3
9 claims: job 4 claim 4
5 submits A: job 6
9 claims: job 2 part 4 claim 5
9 claims: job 5 claim 6
9 claims: job 6 claim 7
6 submits A: job 7
9 claims: job 2 part 8 claim 8
9 claims: job 7 claim 9";
    follow(&rt, rt.alloc(), ample(&rt), rows)
}

#[test]
fn who_never_had_a_turn_stands_where_it_asked_first(rt: HostRuntime) -> Result<(), AllocError> {
    let rows = "1 submits T: job 1
2 submits A: job 2
2 submits A: job 3
9 claims: job 1 part 0 claim 1
2 cancels 2: cancelled 2
2 cancels 3: cancelled 3
3 submits A: job 4
9 claims: job 1 part 4 claim 2
2 submits B: job 5
9 claims: job 5 claim 3
9 claims: job 4 claim 4";
    follow(&rt, rt.alloc(), ample(&rt), rows)
}

#[test]
fn an_owner_of_64_tables_and_one_of_a_job_are_claimed_for_in_turn(
    rt: HostRuntime,
) -> Result<(), AllocError> {
    let alloc = rt.alloc();
    let mut rows = String::from_str(alloc, "2 submits A: job 1")?;
    for table in 2..66u8 {
        let row = format!(in alloc; "\n1 submits T: job {table}")?;
        rows.push_str(row.as_str())?;
    }
    let claims = "
9 claims: job 1 claim 1
9 claims: job 2 part 0 claim 2
2 submits B: job 66
9 claims: job 66 claim 3
9 claims: job 2 part 4 claim 4
9 claims: job 2 part 8 claim 5
2 submits A: job 67
9 claims: job 67 claim 6
9 claims: job 2 part 12 claim 7";
    rows.push_str(claims)?;
    follow(&rt, alloc, ample(&rt), rows.as_str())
}

#[test]
fn a_table_is_claimed_part_by_part_and_cancelled_whole(rt: HostRuntime) -> Result<(), AllocError> {
    let rows = "1 submits T: job 1
1 submits A: job 2
8 claims: job 1 part 0 claim 1
9 claims: job 1 part 4 claim 2
8 finishes 1 1 stopped: recorded
8 claims: job 1 part 0 claim 3
1 fetches 1: running
8 finishes 1 3 b: stale
1 cancels 1: cancelled 1
9 finishes 1 2 b: stale
9 claims: job 2 claim 4";
    follow(&rt, rt.alloc(), ample(&rt), rows)
}

#[test]
fn a_strain_is_left_to_its_worker_while_another_waits(rt: HostRuntime) -> Result<(), AllocError> {
    let rows = "1 submits T: job 1
1 claims: job 1 part 0 claim 1
2 claims: job 1 part 4 claim 2
3 claims: job 1 part 8 claim 3
2 finishes 1 2 e: recorded
2 claims: job 1 part 5 claim 4
4 claims: job 1 part 12 claim 5
1 finishes 1 1 a: recorded
3 finishes 1 3 i: recorded
3 claims: job 1 part 1 claim 6
1 claims: job 1 part 9 claim 7
5 claims: job 1 part 16 claim 8
6 claims: job 1 part 2 claim 9
7 claims: job 1 part 3 claim 10
8 claims: job 1 part 6 claim 11
5 finishes 1 8 stopped: recorded
8 claims: job 1 part 16 claim 12";
    follow(&rt, rt.alloc(), ample(&rt), rows)
}

#[test]
fn a_strain_is_split_only_where_no_job_of_the_owner_has_a_free_one(
    rt: HostRuntime,
) -> Result<(), AllocError> {
    let rows = "1 submits T: job 1
1 submits T: job 2
1 claims: job 1 part 0 claim 1
2 claims: job 1 part 4 claim 2
3 claims: job 1 part 8 claim 3
4 claims: job 1 part 12 claim 4
5 claims: job 1 part 16 claim 5
6 claims: job 2 part 0 claim 6
1 finishes 1 1 a: recorded
1 claims: job 1 part 1 claim 7
7 claims: job 2 part 4 claim 8
2 submits B: job 3
8 claims: job 2 part 8 claim 9
8 claims: job 3 claim 10
9 claims: job 2 part 12 claim 11
10 claims: job 2 part 16 claim 12
11 claims: job 1 part 2 claim 13";
    follow(&rt, rt.alloc(), ample(&rt), rows)
}

#[test]
fn a_play_is_left_to_its_worker_while_another_waits(rt: HostRuntime) -> Result<(), AllocError> {
    let rows = "1 submits Q: job 1
1 submits Q: job 2
1 submits B: job 3
7 claims: job 1 after 4 claim 1
8 claims: job 2 after 4 claim 2
7 finishes 1 1 Q4: recorded
7 claims: job 1 after 3 claim 3
9 claims: job 3 claim 4
6 claims: job 1 after 2 claim 5";
    follow(&rt, rt.alloc(), ample(&rt), rows)
}

#[test]
fn a_target_is_one_part_and_ends_with_its_own_answer(rt: HostRuntime) -> Result<(), AllocError> {
    let rows = "1 submits G: job 1
1 submits U: job 2
1 submits V: job 3
1 submits B: job 4
1 fetches 1: waiting
9 claims: job 1 target claim 1
1 fetches 1: running
9 finishes 1 1 B: stale
9 finishes 1 1 U: stale
9 finishes 1 1 stopped: recorded
1 fetches 1: waiting
9 claims: job 1 target claim 2
9 finishes 1 2 G: recorded
1 fetches 1: reached 1
2 fetches 1: fault 16
1 cancels 1: fault 17
9 claims: job 2 target claim 3
9 finishes 2 3 V: stale
9 finishes 2 3 U: recorded
1 fetches 2: reached 2
9 claims: job 3 target claim 4
9 finishes 3 4 spent: recorded
1 fetches 3: spent
9 claims: job 4 claim 5
9 finishes 4 5 G: stale
9 finishes 4 5 B: recorded
1 fetches 4: done with 2
9 claims: nothing waits";
    follow(&rt, rt.alloc(), ample(&rt), rows)
}

#[test]
fn a_play_is_done_when_each_of_its_numbers_is_there(rt: HostRuntime) -> Result<(), AllocError> {
    let rows = "1 submits Q: job 1
1 fetches 1: waiting
8 claims: job 1 after 4 claim 1
9 claims: job 1 after 3 claim 2
1 fetches 1: running
8 finishes 1 1 Q3: stale
8 finishes 1 1 A: stale
8 finishes 1 1 b: stale
8 finishes 1 1 W0: stale
8 finishes 1 1 stopped: recorded
8 claims: job 1 after 4 claim 3
9 finishes 1 2 Q4: stale
9 finishes 1 2 Q2: stale
9 finishes 1 2 Q3: recorded
9 claims: job 1 after 2 claim 4
8 claims: job 1 after 1 claim 5
9 finishes 1 4 Q2: recorded
9 claims: job 1 after 0 claim 6
9 finishes 1 6 Q1: stale
9 finishes 1 6 W0: stale
9 finishes 1 6 Q0: recorded
8 finishes 1 3 Q4: recorded
1 fetches 1: running
8 finishes 1 5 Q1: recorded
1 fetches 1: traced 00011
2 fetches 1: fault 16
1 cancels 1: fault 17
8 finishes 1 5 Q1: stale
1 submits A: job 2
9 claims: job 2 claim 7
9 finishes 2 7 Q0: stale";
    follow(&rt, rt.alloc(), ample(&rt), rows)
}

#[test]
fn a_play_of_all_cards_starts_with_its_last_number(rt: HostRuntime) -> Result<(), AllocError> {
    let rows = "1 submits P: job 1
1 fetches 1: running
9 claims: job 1 after 7 claim 1
9 claims: job 1 after 6 claim 2
9 claims: job 1 after 5 claim 3
9 claims: job 1 after 4 claim 4
9 claims: job 1 after 3 claim 5
9 claims: job 1 after 2 claim 6
9 claims: job 1 after 1 claim 7
9 claims: job 1 after 0 claim 8
1 submits W: job 2
1 fetches 2: waiting
9 claims: job 2 after 0 claim 9
9 claims: nothing waits
9 finishes 2 9 W0: recorded
1 fetches 2: traced 0
9 finishes 1 8 Q0: recorded
9 finishes 1 7 P1: recorded
9 finishes 1 6 P2: recorded
9 finishes 1 5 P3: recorded
9 finishes 1 4 P4: recorded
9 finishes 1 3 P5: recorded
9 finishes 1 2 P6: recorded
9 finishes 1 1 P8: stale
1 fetches 1: running
9 finishes 1 1 P7: recorded
1 fetches 1: traced 000000000
1 submits P: job 3
1 submits P: job 4
9 claims: job 3 after 7 claim 10
9 finishes 3 10 spent: recorded
1 fetches 3: spent
9 claims: job 4 after 7 claim 11
1 cancels 4: cancelled 4
9 finishes 4 11 P7: stale
9 claims: nothing waits";
    follow(&rt, rt.alloc(), ample(&rt), rows)
}

#[test]
fn a_full_table_is_claimed_so_too(rt: HostRuntime) -> Result<(), AllocError> {
    let rows = "1 submits S: job 1
1 submits A: job 2
8 claims: job 1 part 0 claim 1
9 claims: job 1 part 4 claim 2
8 finishes 1 1 stopped: recorded
8 claims: job 1 part 0 claim 3
1 fetches 1: running
1 cancels 1: cancelled 1
9 finishes 1 2 S: stale
9 claims: job 2 claim 4";
    follow(&rt, rt.alloc(), ample(&rt), rows)
}

#[test]
fn a_table_is_done_with_its_twentieth_part(rt: HostRuntime) -> Result<(), AllocError> {
    let alloc = rt.alloc();
    let mut rows = String::from_str(alloc, "1 submits T: job 1")?;
    for part in 0..20u8 {
        let claim = part + 1;
        let letter = (b'a' + part) as char;
        write_row(&mut rows, alloc, part, claim, letter)?;
    }
    rows.push_str("\n1 fetches 1: done with 1\n9 claims: nothing waits")?;
    follow(&rt, alloc, ample(&rt), rows.as_str())
}

// A claim and the finish of a part; before each claim the job is not done.
fn write_row(
    rows: &mut String,
    alloc: Global,
    part: u8,
    claim: u8,
    letter: char,
) -> Result<(), AllocError> {
    let shown = if part == 0 { "waiting" } else { "running" };
    let claimed = format!(in alloc;
        "\n1 fetches 1: {shown}\n9 claims: job 1 part {part} claim {claim}"
    )?;
    rows.push_str(claimed.as_str())?;
    let finished = format!(in alloc; "\n9 finishes 1 {claim} {letter}: recorded")?;
    rows.push_str(finished.as_str())
}
