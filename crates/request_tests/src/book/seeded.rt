//! 100,000 calls from a fixed seed, through the book and through a second one.
use crate::book::counted::Counted;
use crate::book::drawn::draw;
use crate::book::made::{Asks, Ends, Made, MadeReply, Shows, Step, make, plain};
use crate::book::second::Second;
use dd_book::{Book, Call, Limits, run_calls};
use std::alloc::{AllocError, Global};
use std::process::Abort;

const CALLS_A_BATCH: u64 = 500;

const BATCHES: u64 = 200;

const BATCHES_COUNTED: u64 = 40;

// A book has eight batches.
const BATCHES_A_BOOK: u64 = 8;

// One of the last sixteen jobs, or the number after them.
fn recent(seed: &mut u64, second: &Second) -> u64 {
    let count = (second.len() as u64).saturating_add(1);
    count.saturating_sub(draw(seed) % 17)
}

fn asks(seed: &mut u64) -> Asks {
    match draw(seed) % 6 {
        0 => Asks::Table,
        1 => Asks::Pair,
        2 => Asks::Target,
        3 => Asks::Play,
        _ => Asks::Ace,
    }
}

// Mostly the outcome of what was claimed.
fn ends(seed: &mut u64, claimed: Asks, part: u8) -> Ends {
    match draw(seed) % 256 {
        0 => Ends::Spent,
        1..13 => Ends::Stopped,
        13..16 => Ends::Answer(Asks::Ace),
        16..19 => Ends::Answer(Asks::Pair),
        19..22 => Ends::Part(0),
        22..25 => Ends::Part(19),
        25..28 => Ends::Answer(Asks::Target),
        28..31 => Ends::After(0),
        31..34 => Ends::After(part.saturating_add(1) % 9),
        _ if claimed == Asks::Table => Ends::Part(part),
        _ if claimed == Asks::Play => Ends::After(part),
        _ => Ends::Answer(claimed),
    }
}

// Mostly of one of the last eight claims, as it was given.
fn finish(seed: &mut u64, second: &Second) -> Step {
    let claim = (second.given.len() as u64).saturating_sub(draw(seed) % 8);
    let place = claim.saturating_sub(1) as usize;
    let Some(given) = second.given.get(place) else {
        return Step::Finish(1, 1, 1, Ends::Spent);
    };
    let ends = ends(seed, given.asks, given.part);
    match draw(seed) % 32 {
        0 => Step::Finish(given.worker % 3 + 1, given.job, claim, ends),
        1 => Step::Finish(given.worker, given.job, claim.saturating_sub(1), ends),
        2 => Step::Finish(given.worker, given.job.saturating_sub(1), claim, ends),
        _ => Step::Finish(given.worker, given.job, claim, ends),
    }
}

// One of three callers, or now and then one that asks for the first time, for one card: of tables few would be done then.
fn step(seed: &mut u64, second: &Second) -> Step {
    let who = draw(seed) % 3 + 1;
    let newcomer = (second.len() as u64).saturating_add(4);
    match draw(seed) % 4096 {
        0 => Step::Shut,
        1..6 => Step::Submit(newcomer, Asks::Ace),
        6..512 => Step::Submit(who, asks(seed)),
        512..1536 => Step::Claim(who),
        1536..3328 => finish(seed, second),
        3328..3392 => Step::Cancel(who, recent(seed, second)),
        _ => Step::Fetch(who, recent(seed, second)),
    }
}

// The calls of a batch, what the second book says to each, and how many of its parts wait and run then.
#[derive(Drop)]
struct Batch {
    calls: Vec<Call>,
    wanted: Vec<MadeReply>,
    counts: Vec<(u64, u64)>,
}

fn next_batch(
    alloc: Global,
    seed: &mut u64,
    second: &mut Second,
    made: &Made,
) -> Result<Batch, AllocError> {
    let mut calls = Vec::new(alloc);
    let mut wanted = Vec::new(alloc);
    let mut counts = Vec::new(alloc);
    for _ in 0..CALLS_A_BATCH {
        let step = step(seed, second);
        calls.push(made.call(step))?;
        wanted.push(second.apply(step)?)?;
        counts.push(second.counts())?;
    }
    Ok(Batch {
        calls,
        wanted,
        counts,
    })
}

// The book after the batch, and how many replies showed a table that is done, and a play.
fn run_batch(
    rt: &impl Abort,
    alloc: Global,
    book: Book,
    batch: &Batch,
) -> Result<(Book, u64, u64), AllocError> {
    assert!(rt; book.claims() < 1_000_000);
    assert!(rt; batch.calls.len() < 1_000);
    let Ok((book, replies)) = run_calls(alloc, book, batch.calls.as_slice()) else {
        return Err(AllocError);
    };
    assert_eq!(rt; replies.len(), batch.wanted.len());
    let mut tables = 0u64;
    let mut plays = 0u64;
    for (reply, wanted) in replies.iter().zip(batch.wanted.iter()) {
        assert_eq!(rt; plain(reply), *wanted);
        if let MadeReply::State(_, Shows::TableDone) = wanted {
            tables = tables.wrapping_add(1);
        }
        if let MadeReply::State(_, Shows::PlayDone(_)) = wanted {
            plays = plays.wrapping_add(1);
        }
    }
    Ok((book, tables, plays))
}

#[test]
fn a_plain_list_gives_the_same_replies(rt: HostRuntime) -> Result<(), AllocError> {
    let alloc = rt.alloc();
    let limits = Limits::new(3, 400, 1, 1).expect(&rt, "limits in their ranges");
    let made = make(alloc)?.expect(&rt, "hands in their forms");
    let mut seed = 20_261_123;
    let mut book = Book::new(alloc, limits);
    let mut second = Second::new(alloc, 3, 400);
    let mut tables = 0u64;
    let mut plays = 0u64;
    for number in 0..BATCHES {
        if number % BATCHES_A_BOOK == 0 {
            book = Book::new(alloc, limits);
            second = Second::new(alloc, 3, 400);
        }
        let batch = next_batch(alloc, &mut seed, &mut second, &made)?;
        let (after, tables_shown, plays_shown) = run_batch(&rt, alloc, book, &batch)?;
        book = after;
        tables = tables.wrapping_add(tables_shown);
        plays = plays.wrapping_add(plays_shown);
    }
    assert!(&rt; tables > 4, "{tables}");
    assert!(&rt; plays > 4, "{plays}");
    Ok(())
}

// The book after the batch.
fn count_batch(rt: &impl Abort, counted: Counted, batch: &Batch) -> Result<Counted, AllocError> {
    let mut counted = counted;
    for (call, counts) in batch.calls.iter().zip(batch.counts.iter()) {
        counted = counted.after(call)?;
        assert_eq!(rt; counted.counts(), *counts);
    }
    Ok(counted)
}

#[test]
fn a_plain_list_has_the_same_counts(rt: HostRuntime) -> Result<(), AllocError> {
    let alloc = rt.alloc();
    let limits = Limits::new(3, 400, 1, 1).expect(&rt, "limits in their ranges");
    let made = make(alloc)?.expect(&rt, "hands in their forms");
    let mut seed = 20_261_128;
    let mut counted = Counted::new(alloc, limits);
    let mut second = Second::new(alloc, 3, 400);
    for number in 0..BATCHES_COUNTED {
        if number % BATCHES_A_BOOK == 0 {
            counted = Counted::new(alloc, limits);
            second = Second::new(alloc, 3, 400);
        }
        let batch = next_batch(alloc, &mut seed, &mut second, &made)?;
        counted = count_batch(&rt, counted, &batch)?;
    }
    Ok(())
}
