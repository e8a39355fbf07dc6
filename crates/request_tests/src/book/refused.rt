//! Calls whose growth is refused, for a run in which each allocation fails in turn.
use crate::book::made::{Asks, Ends, Made, MadeReply, Shows, Step, make, plain, shown};
use dd_book::{Book, Limits, OutOfMemory};
use std::alloc::AllocError;
use std::process::Abort;

// What is seen of a book: claims, whether it is idle, and the states of the first three jobs.
#[derive(Clone, Copy, Debug, PartialEq, Eq)]
struct Observed {
    claims: u64,
    idle: bool,
    first: Option<Shows>,
    second: Option<Shows>,
    third: Option<Shows>,
}

fn state(book: &Book, job: u64) -> Option<Shows> {
    match book.state(job) {
        Some(state) => Some(shown(&state)),
        None => None,
    }
}

fn look(book: &Book) -> Observed {
    Observed {
        claims: book.claims(),
        idle: book.idle(),
        first: state(book, 1),
        second: state(book, 2),
        third: state(book, 3),
    }
}

// The call, again where its growth was refused: then the book is as it was before.
fn follow(rt: &impl Abort, book: &mut Book, made: &Made, step: Step, wanted: MadeReply) {
    let before = look(book);
    assert!(rt; book.claims() < 1_000);
    let reply = match book.apply(made.call(step)) {
        Ok(reply) => reply,
        Err(OutOfMemory(call)) => {
            assert_eq!(rt; look(book), before);
            assert!(rt; book.claims() < 1_000);
            let Ok(reply) = book.apply(call) else {
                panic!(rt; "a growth is refused once");
            };
            reply
        }
    };
    assert_eq!(rt; plain(&reply), wanted);
}

#[test]
fn a_refused_growth_leaves_the_book(rt: HostRuntime) -> Result<(), AllocError> {
    let alloc = rt.alloc();
    // At most two open jobs: one that a refused submit left behind would be the third.
    let limits = Limits::new(2, 3, 1, 1).expect(&rt, "limits in their ranges");
    let made = make(alloc)?.expect(&rt, "hands in their forms");
    let mut book = Book::new(alloc, limits);
    let rows = [
        (Step::Submit(1, Asks::Ace), MadeReply::Job(1)),
        (Step::Submit(1, Asks::Table), MadeReply::Job(2)),
        (Step::Submit(1, Asks::Ace), MadeReply::Fault(13)),
        (Step::Submit(2, Asks::Pair), MadeReply::Job(3)),
        (Step::Submit(3, Asks::Pair), MadeReply::Fault(14)),
        (Step::Claim(9), MadeReply::Claimed(1, 1)),
        (Step::Finish(9, 1, 1, Ends::Stopped), MadeReply::Recorded),
        (Step::Fetch(1, 1), MadeReply::State(1, Shows::Waiting)),
        (Step::Claim(9), MadeReply::Claimed(3, 2)),
        (Step::Claim(9), MadeReply::Claimed(1, 3)),
        (Step::Claim(9), MadeReply::ClaimedPart(2, 0, 4)),
        (Step::Cancel(1, 2), MadeReply::Cancelled(2)),
        (Step::Finish(9, 1, 3, Ends::Stopped), MadeReply::Recorded),
        (Step::Finish(9, 3, 2, Ends::Stopped), MadeReply::Recorded),
        (Step::Claim(9), MadeReply::Claimed(3, 5)),
        (Step::Claim(9), MadeReply::Claimed(1, 6)),
        (Step::Claim(9), MadeReply::NothingWaits),
    ];
    for (step, wanted) in rows.iter() {
        follow(&rt, &mut book, &made, *step, *wanted);
    }
    Ok(())
}

// Each of sixty jobs is claimed before the next is submitted, so that what waits has to grow when all of them are stopped.
#[test]
fn a_refused_growth_leaves_a_stopped_job_running(rt: HostRuntime) -> Result<(), AllocError> {
    let alloc = rt.alloc();
    let limits = Limits::new(2, 100, 1, 1).expect(&rt, "limits in their ranges");
    let made = make(alloc)?.expect(&rt, "hands in their forms");
    let mut book = Book::new(alloc, limits);
    for job in 1..61u64 {
        follow(
            &rt,
            &mut book,
            &made,
            Step::Submit(job, Asks::Ace),
            MadeReply::Job(job),
        );
        follow(
            &rt,
            &mut book,
            &made,
            Step::Claim(9),
            MadeReply::Claimed(job, job),
        );
    }
    for job in 1..61u64 {
        let stopped = Step::Finish(9, job, job, Ends::Stopped);
        follow(
            &rt,
            &mut book,
            &made,
            Step::Fetch(job, job),
            MadeReply::State(job, Shows::Running),
        );
        follow(&rt, &mut book, &made, stopped, MadeReply::Recorded);
        follow(
            &rt,
            &mut book,
            &made,
            Step::Fetch(job, job),
            MadeReply::State(job, Shows::Waiting),
        );
    }
    Ok(())
}
