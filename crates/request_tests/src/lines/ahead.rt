//! Lines that threads answer ahead are told as one thread tells them, however the threads take turns.
use super::held::{EndsWhileSearching, HoldsSearch, Signs, held};
use super::pools::told_over;
use super::runs::{Outcome, run};
use super::served::good;
use crate::book::drawn::draw;
use crate::devices::{Pieces, Taker};
use dd_bounds::{Bounds, NoTable};
use dd_lines::CountedDevice;
use dd_solve::DoubleDummy;
use dd_tool::{Pool, solve_lines_on};
use std::alloc::{AllocError, Global};
use std::io::Write;
use std::sync::Wait;
use std::test::Fail;
use std::thread::Threads;
use std::time::Clock;

const STREAMS: u64 = 100;

/// The lines of a stream.
const LINES: u64 = 40;

/// Streams that end early.
const CUT_STREAMS: u64 = 30;

const LONG_STREAMS: u64 = 3;

/// The lines of a long stream.
const LONG: u64 = 1_000;

/// Lines of one piece, more than are answered ahead.
const MANY: u64 = 3_000;

/// Eight cards a hand, with diamonds as trumps: 2,404 positions over no table.
pub fn searched() -> &'static [u8] {
    br#"{"do":"solve","deal":"N:T65.J.54.T9 Q9.K52.93.6 K.Q76.AJ2.8 A.4.T8.7532","trump":2,"first":2,"solutions":3}"#
}

/// Short lines, empty ones and a few that are too long, in an order that the seed draws, with one long search among them. In every
/// second stream the last line has no end.
pub fn drawn(alloc: Global, seed: u64) -> Result<Vec<u8>, AllocError> {
    let mut seed = seed;
    let mut lines = Vec::new(alloc);
    let place = draw(&mut seed) % LINES;
    for number in 0..LINES {
        if number == place {
            lines.extend_from_slice(searched())?;
        } else {
            push_drawn(&mut lines, draw(&mut seed) % 32)?;
        }
        lines.push(b'\n')?;
    }
    if seed % 2 == 0 {
        lines.extend_from_slice(good())?;
    }
    Ok(lines)
}

fn push_drawn(lines: &mut Vec<u8>, kind: u64) -> Result<(), AllocError> {
    match kind {
        0..8 => Ok(()),
        8..12 => lines.extend_from_slice(b"{}"),
        12 => push_times(lines, b'{', 4_096),
        13 => push_times(lines, b'{', 9_000),
        _ => lines.extend_from_slice(good()),
    }
}

// Lines with replies of many kinds, and a search as each 250th, the first one too.
fn drawn_long(alloc: Global, seed: u64) -> Result<Vec<u8>, AllocError> {
    let mut seed = seed;
    let mut lines = Vec::new(alloc);
    for number in 0..LONG {
        if number % 250 == 0 {
            lines.extend_from_slice(searched())?;
        } else {
            push_told_apart(&mut lines, draw(&mut seed))?;
        }
        lines.push(b'\n')?;
    }
    Ok(lines)
}

// Three in four ask for par of drawn results.
fn push_told_apart(lines: &mut Vec<u8>, drawn: u64) -> Result<(), AllocError> {
    if drawn % 4 == 0 {
        return push_drawn(lines, drawn / 4 % 12);
    }
    lines.extend_from_slice(
        br#"{"do":"par","table":[[5,8,5,8],[6,6,6,6],[5,7,5,7],[7,5,7,5],[6,6,6,"#,
    )?;
    lines.push(digit(drawn / 4))?;
    lines.extend_from_slice(br#"]],"dealer":0,"vulnerable":"#)?;
    lines.push(digit(drawn / 64))?;
    lines.push(b'}')?;
    Ok(())
}

// The last digit of a number.
fn digit(number: u64) -> u8 {
    b'0'.wrapping_add((number % 10) as u8)
}

// A third of these lines are `{}`, the others empty.
fn many_short(alloc: Global) -> Result<Vec<u8>, AllocError> {
    let mut lines = Vec::new(alloc);
    for number in 0..MANY {
        if number % 3 == 0 {
            lines.extend_from_slice(b"{}")?;
        }
        lines.push(b'\n')?;
    }
    lines.extend_from_slice(good())?;
    Ok(lines)
}

fn push_times(lines: &mut Vec<u8>, byte: u8, times: usize) -> Result<(), AllocError> {
    for _ in 0..times {
        lines.push(byte)?;
    }
    Ok(())
}

// An output with room for so many bytes.
fn taker(alloc: Global, room: usize) -> Taker {
    Taker {
        taken: Vec::new(alloc),
        most: usize::MAX,
        room,
    }
}

// Whether a stream ends well that is told with the help of these threads, and its output.
fn told_by<W: Threads + Wait + Sync, O: Write + Drop, H: Bounds + Send>(
    rt: &W,
    alloc: Global,
    pieces: Pieces<'_>,
    output: O,
    others: &mut [H],
) -> (bool, O) {
    let mut reader = CountedDevice::new(pieces);
    let mut writer = CountedDevice::new(output);
    let mut buffer = [0; 65_536];
    let result = solve_lines_on(
        rt,
        alloc,
        &mut reader,
        &mut writer,
        &DoubleDummy,
        &mut NoTable,
        others,
        None,
        &mut buffer,
    );
    (result.is_ok(), writer.into_inner())
}

// Is this told of these lines with the help of so many threads, where a read gives so many bytes at most?
fn is_told_by<W: Threads + Wait + Sync>(
    rt: &W,
    alloc: Global,
    lines: &[u8],
    most: usize,
    others: &mut [NoTable],
    wanted: &[u8],
) -> bool {
    let pieces = Pieces {
        bytes: lines,
        most,
        calls: usize::MAX,
    };
    let (is_whole, output) = told_by(rt, alloc, pieces, taker(alloc, usize::MAX), others);
    is_whole && output.taken.as_slice() == wanted
}

// Are these lines told as by one thread, with the help of one, two and three others?
fn is_told_alike<W: Threads + Wait + Sync>(
    rt: &W,
    alloc: Global,
    lines: &[u8],
    most: usize,
) -> bool {
    let alone = run(alloc, Pieces::of(lines), usize::MAX, usize::MAX);
    let wanted = alone.written.as_slice();
    let mut others = [NoTable; 3];
    alone.result.is_ok()
        && is_told_by(rt, alloc, lines, most, &mut others[..1], wanted)
        && is_told_by(rt, alloc, lines, most, &mut others[..2], wanted)
        && is_told_by(rt, alloc, lines, most, &mut others, wanted)
}

#[test]
fn many_streams_are_told_as_by_one_thread(rt: HostRuntime) -> Result<(), Fail> {
    for number in 0..STREAMS {
        let lines = drawn(rt.alloc(), number)?;
        let mut seed = number;
        let most = if number % 4 == 0 {
            usize::MAX
        } else {
            1 + draw(&mut seed) as usize % 500
        };
        assert!(rt;
            is_told_alike(&rt, rt.alloc(), &lines, most),
            "stream {number}"
        );
    }
    Ok(())
}

#[test]
fn long_streams_are_told_as_by_one_thread(rt: HostRuntime) -> Result<(), Fail> {
    for number in 0..LONG_STREAMS {
        let lines = drawn_long(rt.alloc(), number)?;
        assert!(rt;
            is_told_alike(&rt, rt.alloc(), &lines, usize::MAX),
            "stream {number}"
        );
    }
    Ok(())
}

#[test]
fn more_lines_of_a_piece_than_are_answered_ahead_are_told_too(rt: HostRuntime) -> Result<(), Fail> {
    let lines = many_short(rt.alloc())?;
    for _ in 0..10 {
        assert!(rt; is_told_alike(&rt, rt.alloc(), &lines, usize::MAX));
    }
    Ok(())
}

// Short lines, then three searches, then short lines again; and how many bytes stand before the searches.
fn with_searches(alloc: Global, seed: &mut u64) -> Result<(Vec<u8>, usize), AllocError> {
    let mut lines = Vec::new(alloc);
    for _ in 0..=draw(seed) % 20 {
        push_drawn(&mut lines, draw(seed) % 32)?;
        lines.push(b'\n')?;
    }
    let before = lines.len();
    for _ in 0..3 {
        lines.extend_from_slice(held())?;
        lines.push(b'\n')?;
    }
    for _ in 0..10 {
        push_drawn(&mut lines, draw(seed) % 32)?;
        lines.push(b'\n')?;
    }
    Ok((lines, before))
}

// What one thread tells of the lines that end in the first so many bytes.
fn told_before(alloc: Global, lines: &[u8], count: usize) -> Vec<u8> {
    let head = lines.get(..count.min(lines.len())).unwrap_or_default();
    let mut end = 0usize;
    for (place, byte) in head.iter().enumerate() {
        if *byte == b'\n' {
            end = place.saturating_add(1);
        }
    }
    let ended = head.get(..end).unwrap_or_default();
    run(alloc, Pieces::of(ended), usize::MAX, usize::MAX).written
}

// Does a stream end where its output has taken so many bytes, while each of so many threads is at a search?
fn ends_by_output<W: Threads + Wait + Clock + Sync>(
    rt: &W,
    alloc: Global,
    lines: &[u8],
    room: usize,
    threads: u64,
    wanted: &[u8],
) -> Result<bool, AllocError> {
    let signs = Signs::new(threads);
    let mut others = Vec::new(alloc);
    for _ in 0..threads {
        others.push(HoldsSearch::new(rt, &signs))?;
    }
    let output = EndsWhileSearching {
        rt,
        signs: &signs,
        taker: taker(alloc, room),
    };
    let (is_whole, output) = told_by(rt, alloc, Pieces::of(lines), output, &mut others);
    let written = output.taker.taken;
    let searching = !signs.is_late();
    Ok(searching && !is_whole && written.len() == room && wanted.starts_with(&written))
}

// Does a stream end where its input has given so many pieces of 200 bytes? All lines that ended in them are told, and threads wait for
// others.
fn ends_by_input<W: Threads + Wait + Sync>(
    rt: &W,
    alloc: Global,
    lines: &[u8],
    calls: usize,
    others: &mut [NoTable],
    wanted: &[u8],
) -> bool {
    let pieces = Pieces {
        bytes: lines,
        most: 200,
        calls,
    };
    let (is_whole, output) = told_by(rt, alloc, pieces, taker(alloc, usize::MAX), others);
    let written = output.taken;
    let least = told_before(alloc, lines, calls.saturating_mul(200));
    !is_whole && written.starts_with(&least) && wanted.starts_with(&written)
}

// The output ends before the reply of the first of three searches, once each thread is held in one of them.
#[test]
fn many_streams_end_by_their_output_while_threads_search(rt: HostRuntime) -> Result<(), Fail> {
    for number in 0..CUT_STREAMS {
        let mut seed = number;
        let (lines, before) = with_searches(rt.alloc(), &mut seed)?;
        let alone = run(rt.alloc(), Pieces::of(&lines), usize::MAX, usize::MAX);
        let wanted = alone.written.as_slice();
        let told = told_before(rt.alloc(), &lines, before).len();
        let room = draw(&mut seed) as usize % told.max(1);
        for threads in 1..4 {
            assert!(rt;
                ends_by_output(&rt, rt.alloc(), &lines, room, threads, wanted)?,
                "stream {number}, {threads} threads"
            );
        }
    }
    Ok(())
}

#[test]
fn many_streams_end_by_their_input(rt: HostRuntime) -> Result<(), Fail> {
    for number in 0..CUT_STREAMS {
        let mut seed = number;
        let lines = drawn(rt.alloc(), number)?;
        let alone = run(rt.alloc(), Pieces::of(&lines), usize::MAX, usize::MAX);
        let wanted = alone.written.as_slice();
        let calls = draw(&mut seed) as usize % (lines.len() / 200).saturating_add(1);
        let mut others = [NoTable; 3];
        for count in 1..4usize {
            assert!(rt;
                ends_by_input(&rt, rt.alloc(), &lines, calls, &mut others[..count], wanted),
                "stream {number}, {count} threads"
            );
        }
    }
    Ok(())
}

// Lines of a stream whose output failed are still in the pool when the next stream comes. No thread answers ahead here.
#[test]
fn a_pool_that_a_failed_stream_left_serves_the_next(rt: HostRuntime) -> Result<(), Fail> {
    let pool = Pool::new(rt.alloc(), None);
    for number in 0..8 {
        let lines = drawn(rt.alloc(), number)?;
        let alone: Outcome = run(rt.alloc(), Pieces::of(&lines), usize::MAX, usize::MAX);
        let failing = taker(rt.alloc(), 100);
        let cut = told_over(&rt, rt.alloc(), &pool, &mut NoTable, &lines, failing).taken;
        assert!(rt; alone.written.as_slice().starts_with(&cut) && cut.len() == 100);
        let taking = taker(rt.alloc(), usize::MAX);
        let whole = told_over(&rt, rt.alloc(), &pool, &mut NoTable, &lines, taking).taken;
        assert!(rt; whole.as_slice() == alone.written.as_slice());
    }
    Ok(())
}
