//! Worked rows at desks whose journals have no event to spare. An event is kept for a shut; of a job for its submit, a claim and a
//! finish of each of its parts, and the fetch that tells its end: 4 for a request, 42 for a table, 18 for the play P, whose last
//! number is known, and 12 for the play Q, which leaves a trick.
use crate::desk::worked::follow;
use dd_book::Limits;
use std::alloc::{AllocError, Global};
use std::process::Abort;

fn few(rt: &impl Abort, events: u64) -> Limits {
    Limits::new(64, 1_000, 8, events).expect(rt, "limits in their ranges")
}

// W is a play of no card: of its one number.
#[test]
fn four_events_are_too_few_for_a_request_and_a_shut(rt: HostRuntime) -> Result<(), AllocError> {
    let rows = "enrols: pass 1
enrols: pass 2
1 submits A: refused 15
1 submits G: refused 15
1 submits W: refused 15
2 claims: nothing waits
1 fetches 1: fault 16
1 cancels 1: fault 16
1 fetches 1: refused 15
2 waits: refused 15
1 shuts: shut";
    follow(&rt, rt.alloc(), few(&rt, 4), rows, "4 events: 3 1")
}

// Each caller's four are its own: none takes another's.
#[test]
fn each_caller_is_told_the_end_of_its_job_once(rt: HostRuntime) -> Result<(), AllocError> {
    let rows = "enrols: pass 1
enrols: pass 2
enrols: pass 3
1 submits A: job 1
2 submits A: job 2
1 submits A: refused 15
3 claims: job 1 claim 1
3 finishes 1 1 A: recorded
3 claims: job 2 claim 2
2 fetches 1: refused 15
1 fetches 1: done with 1
1 fetches 1: refused 15
2 cancels 2: cancelled 2
2 fetches 2: refused 15
3 finishes 2 2 A: stale
3 claims: refused 15
3 shuts: shut";
    follow(&rt, rt.alloc(), few(&rt, 9), rows, "9 events: 2 2 5")
}

#[test]
fn forty_two_events_are_too_few_for_a_table_and_a_shut(rt: HostRuntime) -> Result<(), AllocError> {
    for events in [41, 42] {
        let rows = "enrols: pass 1
1 submits T: refused 15
1 submits A: job 1
1 cancels 1: cancelled 1
1 shuts: shut";
        follow(&rt, rt.alloc(), few(&rt, events), rows, "3 events: 3")?;
    }
    Ok(())
}

// The rows of a worker that does all parts of a table, the second pass, while a stranger, the third, finds no event at any time.
fn whole_table(alloc: Global) -> Result<String, AllocError> {
    let mut rows = String::new(alloc);
    for part in 0..20u8 {
        let claim = part + 1;
        let letter = (b'a' + part) as char;
        let row = format!(in alloc;
            "\n2 claims: job 1 part {part} claim {claim}\n3 fetches 1: refused 15\n2 finishes 1 {claim} {letter}: recorded\n3 submits A: refused 15"
        )?;
        rows.push_str(row.as_str())?;
    }
    Ok(rows)
}

#[test]
fn a_table_that_is_taken_ends_and_is_told_whatever_others_ask(
    rt: HostRuntime,
) -> Result<(), AllocError> {
    let alloc = rt.alloc();
    let parts = whole_table(alloc)?;
    let parts = parts.as_str();
    let rows = format!(in alloc;
        "enrols: pass 1\nenrols: pass 2\nenrols: pass 3\n1 submits T: job 1\n3 fetches 1: refused 15{parts}\n\
         1 fetches 1: done with 1\n1 fetches 1: refused 15\n1 shuts: shut\n3 shuts: refused 15"
    )?;
    follow(&rt, alloc, few(&rt, 43), rows.as_str(), "43 events: 3 40 0")
}

// The rows of a worker that does the parts of the play of this name, the last number first: of so many.
fn whole_play(alloc: Global, name: &str, numbers: u8) -> Result<String, AllocError> {
    let mut rows = String::new(alloc);
    for place in 0..numbers {
        let count = numbers.saturating_sub(place).saturating_sub(1);
        let claim = place.saturating_add(1);
        let row = format!(in alloc;
            "\n2 claims: job 1 after {count} claim {claim}\n1 fetches 1: refused 15\n2 finishes 1 {claim} {name}{count}: recorded"
        )?;
        rows.push_str(row.as_str())?;
    }
    Ok(rows)
}

#[test]
fn a_play_takes_two_events_for_each_number_that_is_searched_and_two_more(
    rt: HostRuntime,
) -> Result<(), AllocError> {
    let alloc = rt.alloc();
    for (name, numbers, events, traced, ending) in [
        ("P", 8u8, 19u64, "000000000", "19 events: 3 16"),
        ("Q", 5u8, 13u64, "00011", "13 events: 3 10"),
    ] {
        let too_few = format!(in alloc;
            "enrols: pass 1\n1 submits {name}: refused 15\n1 shuts: shut"
        )?;
        follow(
            &rt,
            alloc,
            few(&rt, events.saturating_sub(1)),
            too_few.as_str(),
            "1 events: 1",
        )?;
        let parts = whole_play(alloc, name, numbers)?;
        let parts = parts.as_str();
        let rows = format!(in alloc;
            "enrols: pass 1\nenrols: pass 2\n1 submits {name}: job 1{parts}\n1 fetches 1: traced {traced}\n\
             1 fetches 1: refused 15\n1 shuts: shut"
        )?;
        follow(&rt, alloc, few(&rt, events), rows.as_str(), ending)?;
    }
    Ok(())
}

// The cancel takes the event of the fetch, and the finish of the part that ran is stale. A third finds no event between.
#[test]
fn a_job_that_runs_is_cancelled_where_no_event_is_free(rt: HostRuntime) -> Result<(), AllocError> {
    let rows = "enrols: pass 1
enrols: pass 2
enrols: pass 3
1 submits A: job 1
2 claims: job 1 claim 1
1 fetches 1: refused 15
3 cancels 1: refused 15
1 cancels 1: cancelled 1
1 fetches 1: refused 15
1 cancels 1: refused 15
3 submits A: refused 15
2 finishes 1 1 A: stale
2 finishes 1 1 A: refused 15
1 shuts: shut";
    follow(&rt, rt.alloc(), few(&rt, 5), rows, "5 events: 3 2 0")
}

// Its claim and its finish are free then.
#[test]
fn a_job_that_waits_is_cancelled_where_no_event_is_free(rt: HostRuntime) -> Result<(), AllocError> {
    let rows = "enrols: pass 1
enrols: pass 2
1 submits A: job 1
1 fetches 1: refused 15
1 cancels 1: cancelled 1
1 fetches 1: cancelled
2 claims: nothing waits
1 fetches 1: refused 15
1 shuts: shut";
    follow(&rt, rt.alloc(), few(&rt, 5), rows, "5 events: 4 1")
}

// When the table is cancelled, four events are made and three are kept: the finishes of two parts, and the shut. A table takes 42
// more: with 48 there is one too few, also when the finishes were made, which take what was kept for them.
#[test]
fn a_table_that_is_cancelled_while_two_parts_run_keeps_their_finishes(
    rt: HostRuntime,
) -> Result<(), AllocError> {
    let alloc = rt.alloc();
    let begin = "enrols: pass 1
enrols: pass 2
enrols: pass 3
1 submits T: job 1
2 claims: job 1 part 0 claim 1
3 claims: job 1 part 4 claim 2
1 cancels 1: cancelled 1";
    let too_few = format!(in alloc;
        "{begin}\n1 submits T: refused 15\n2 finishes 1 1 a: stale\n1 submits T: refused 15\n3 finishes 1 2 e: stale\n\
         1 submits T: refused 15\n1 fetches 1: cancelled\n1 shuts: shut"
    )?;
    follow(
        &rt,
        alloc,
        few(&rt, 48),
        too_few.as_str(),
        "8 events: 4 2 2",
    )?;
    let enough = format!(in alloc;
        "{begin}\n1 submits T: job 2\n1 fetches 1: refused 15\n2 finishes 1 1 a: stale\n3 finishes 1 2 e: stale\n\
         3 finishes 1 2 e: refused 15\n2 claims: job 2 part 0 claim 3\n1 cancels 2: cancelled 2\n1 shuts: shut"
    )?;
    follow(
        &rt,
        alloc,
        few(&rt, 49),
        enough.as_str(),
        "10 events: 5 3 2",
    )
}

// When the budget of a part ran out, four events are made and three are kept: the other part's finish, the fetch, and the shut.
#[test]
fn a_table_whose_budget_ran_out_keeps_its_fetch_and_the_other_finish(
    rt: HostRuntime,
) -> Result<(), AllocError> {
    let alloc = rt.alloc();
    let begin = "enrols: pass 1
enrols: pass 2
enrols: pass 3
1 submits T: job 1
2 claims: job 1 part 0 claim 1
3 claims: job 1 part 4 claim 2
2 finishes 1 1 spent: recorded";
    let too_few = format!(in alloc;
        "{begin}\n1 submits T: refused 15\n3 finishes 1 2 e: stale\n1 submits T: refused 15\n1 fetches 1: spent\n\
         1 submits T: refused 15\n1 fetches 1: spent\n1 shuts: shut"
    )?;
    follow(
        &rt,
        alloc,
        few(&rt, 48),
        too_few.as_str(),
        "8 events: 4 2 2",
    )?;
    let enough = format!(in alloc;
        "{begin}\n1 submits T: job 2\n1 fetches 2: refused 15\n3 finishes 1 2 e: stale\n3 finishes 1 2 e: refused 15\n\
         1 fetches 1: spent\n1 fetches 1: refused 15\n1 cancels 2: cancelled 2\n1 fetches 2: cancelled\n1 shuts: shut"
    )?;
    follow(
        &rt,
        alloc,
        few(&rt, 49),
        enough.as_str(),
        "10 events: 6 2 2",
    )
}

// What was stopped waits again, and needs a claim and a finish more.
#[test]
fn a_part_that_was_stopped_takes_two_events(rt: HostRuntime) -> Result<(), AllocError> {
    let alloc = rt.alloc();
    let begin = "enrols: pass 1
enrols: pass 2
1 submits A: job 1
2 claims: job 1 claim 1";
    let too_few = format!(in alloc;
        "{begin}\n2 finishes 1 1 stopped: refused 15\n2 finishes 1 1 A: recorded\n1 fetches 1: done with 1\n1 shuts: shut"
    )?;
    follow(&rt, alloc, few(&rt, 6), too_few.as_str(), "5 events: 3 2")?;
    let enough = format!(in alloc;
        "{begin}\n2 finishes 1 1 stopped: recorded\n1 fetches 1: refused 15\n2 claims: job 1 claim 2\n\
         2 finishes 1 2 stopped: refused 15\n2 finishes 1 2 A: recorded\n1 fetches 1: done with 1\n1 shuts: shut"
    )?;
    follow(&rt, alloc, few(&rt, 7), enough.as_str(), "7 events: 3 4")
}

// A second shut takes an event as any other call does.
#[test]
fn the_first_shut_has_an_event_and_the_next_one_has_none(
    rt: HostRuntime,
) -> Result<(), AllocError> {
    let rows = "enrols: pass 1
enrols: pass 2
1 submits A: job 1
2 shuts: shut
1 shuts: refused 15
1 submits A: refused 15
2 waits: job 1 claim 1
2 finishes 1 1 A: recorded
2 waits: refused 15
1 fetches 1: done with 1";
    follow(&rt, rt.alloc(), few(&rt, 5), rows, "5 events: 2 3")
}

// Of ten events one is kept for a shut. A request takes one and keeps three: its claim, its finish and its fetch. A part that was
// stopped keeps two again, which its cancel gives back.
#[test]
fn free_are_the_events_that_are_neither_made_nor_kept(rt: HostRuntime) -> Result<(), AllocError> {
    let rows = "looks: 9 free
enrols: pass 1
enrols: pass 2
looks: 9 free
1 submits A: job 1
looks: 5 free
1 submits T: refused 15
looks: 5 free
2 claims: job 1 claim 1
looks: 5 free
1 fetches 1: running
looks: 4 free
2 finishes 1 1 stopped: recorded
looks: 2 free
1 cancels 1: cancelled 1
looks: 4 free
2 shuts: shut
looks: 4 free
1 submits A: fault 18
looks: 3 free";
    follow(&rt, rt.alloc(), few(&rt, 10), rows, "7 events: 4 3")
}
