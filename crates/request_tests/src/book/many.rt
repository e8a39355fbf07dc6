//! Many jobs of many callers.
use crate::book::made::{Asks, Made, MadeReply, Step, make, plain};
use dd_book::{Book, Limits};
use std::alloc::AllocError;

// Is the submit of this caller told this?
fn tells(book: &mut Book, made: &Made, caller: u64, wanted: MadeReply) -> bool {
    if book.claims() > 0 {
        return false;
    }
    match book.apply(made.call(Step::Submit(caller, Asks::Ace))) {
        Ok(reply) => plain(&reply) == wanted,
        Err(_) => false,
    }
}

#[test]
fn a_caller_has_64_open_jobs_and_a_book_3000_of_all(rt: HostRuntime) -> Result<(), AllocError> {
    let alloc = rt.alloc();
    let limits = Limits::new(64, 3_000, 1, 1).expect(&rt, "limits in their ranges");
    let made = make(alloc)?.expect(&rt, "hands in their forms");
    let mut book = Book::new(alloc, limits);
    let mut told = true;
    for place in 0..3_000u64 {
        told = told && tells(&mut book, &made, place / 64, MadeReply::Job(place + 1));
    }
    told = told && tells(&mut book, &made, 45, MadeReply::Fault(13));
    told = told && tells(&mut book, &made, 99, MadeReply::Fault(14));
    assert!(rt; told);
    Ok(())
}
