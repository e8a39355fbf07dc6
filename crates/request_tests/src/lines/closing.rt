//! How threads that answer ahead for a pool of a caller's own are ended: by `Pool::close`, whatever was told over the pool.
use super::ahead::drawn;
use super::pools::{help, told_over};
use super::runs::run;
use crate::devices::{Pieces, Taker};
use dd_bounds::NoTable;
use dd_tool::Pool;
use std::alloc::{AllocError, Global};
use std::process::Abort;
use std::sync::Wait;
use std::test::Fail;
use std::thread::{Threads, join};

const ROUNDS: u64 = 20;

/// What is told over a pool before it is closed.
#[derive(Clone, Copy, Debug)]
enum Telling {
    Nothing,
    /// A stream to its end.
    Stream,
    /// A stream whose output fails after the first replies.
    Beginning,
}

// What of the lines is told over the pool where the output has room for so many bytes.
fn told<W: Wait>(rt: &W, alloc: Global, pool: &Pool, lines: &[u8], room: usize) -> Vec<u8> {
    let taker = Taker {
        taken: Vec::new(alloc),
        most: usize::MAX,
        room,
    };
    told_over(rt, alloc, pool, &mut NoTable, lines, taker).taken
}

fn tell_and_close<W: Wait>(
    rt: &W,
    alloc: Global,
    pool: &Pool,
    lines: &[u8],
    telling: Telling,
) -> Vec<u8> {
    let written = match telling {
        Telling::Nothing => Vec::new(alloc),
        Telling::Stream => told(rt, alloc, pool, lines, usize::MAX),
        Telling::Beginning => told(rt, alloc, pool, lines, 100),
    };
    pool.close(rt);
    written
}

// So many tables.
fn tables(alloc: Global, count: usize) -> Result<Vec<NoTable>, AllocError> {
    let mut tables = Vec::new(alloc);
    for _ in 0..count {
        tables.push(NoTable)?;
    }
    Ok(tables)
}

// Joins the threads of a pool that is closed after this was told over it. Then are all lines of a stream over it told as by one thread, by
// who tells alone, and do threads that come now leave?
fn is_ended<W: Threads + Wait + Sync>(
    rt: &W,
    alloc: Global,
    seed: u64,
    threads: usize,
    telling: Telling,
) -> Result<bool, AllocError> {
    let lines = drawn(alloc, seed)?;
    let wanted = run(alloc, Pieces::of(&lines), usize::MAX, usize::MAX).written;
    let pool = Pool::new(alloc, None);
    let mut tables = tables(alloc, threads)?;
    let (_, before) = join(
        rt,
        || help(rt, &pool, &mut tables),
        || tell_and_close(rt, alloc, &pool, &lines, telling),
    );
    help(rt, &pool, &mut tables);
    let after = told(rt, alloc, &pool, &lines, usize::MAX);
    let is_before_right = match telling {
        Telling::Nothing => before.is_empty(),
        Telling::Stream => before.as_slice() == wanted.as_slice(),
        Telling::Beginning => before.len() == 100 && wanted.starts_with(&before),
    };
    Ok(is_before_right && after.as_slice() == wanted.as_slice())
}

// With one, two and three threads.
fn ends<R: AllocGlobal + Threads + Wait + Sync + Abort>(
    rt: &R,
    telling: Telling,
) -> Result<(), Fail> {
    for seed in 0..ROUNDS {
        for threads in 1..4usize {
            assert!(rt;
                is_ended(rt, rt.alloc(), seed, threads, telling)?,
                "round {seed}, {threads} threads"
            );
        }
    }
    Ok(())
}

#[test]
fn threads_of_a_pool_that_nothing_was_told_over_are_joined(rt: HostRuntime) -> Result<(), Fail> {
    ends(&rt, Telling::Nothing)
}

#[test]
fn threads_of_a_pool_that_a_stream_was_told_over_are_joined(rt: HostRuntime) -> Result<(), Fail> {
    ends(&rt, Telling::Stream)
}

#[test]
fn threads_of_a_pool_that_a_failed_stream_left_are_joined(rt: HostRuntime) -> Result<(), Fail> {
    ends(&rt, Telling::Beginning)
}
