//! A pool that more than one stream uses, with threads at work of which one is held in a search: who tells waits for no more than the line
//! that is the first of the pool.
use super::ahead::{drawn, searched};
use super::held::{CountsLooks, HoldsSearch, Sign, Signs, TakesTurns, Turn, held};
use super::runs::run;
use crate::devices::{Pieces, Taker};
use dd_bounds::{Bounds, NoTable};
use dd_lines::CountedDevice;
use dd_solve::DoubleDummy;
use dd_tool::{Pool, answer_ahead, solve_lines_ahead};
use std::alloc::{AllocError, Global};
use std::io::Write;
use std::sync::Wait;
use std::test::Fail;
use std::thread::{Threads, for_each_mut, join};
use std::time::Clock;

const ROUNDS: u64 = 10;

/// The most lines that are answered ahead.
const MOST_AHEAD: usize = 2_048;

/// The first reply is taken once a thread is held.
const AFTER_SEARCHING: Turn = Turn {
    gives: None,
    waits_for: Some(Sign::Searching),
};

/// The second one once the other stream has come to a reply.
const AFTER_OTHER: Turn = Turn {
    gives: Some(Sign::Second),
    waits_for: Some(Sign::LetGo),
};

/// This reply lets the search go on.
const LETS_GO: Turn = Turn {
    gives: Some(Sign::LetGo),
    waits_for: None,
};

/// This one does nothing of that.
const PLAIN: Turn = Turn {
    gives: None,
    waits_for: None,
};

// Three short lines, a search that is held, and drawn lines.
fn first_lines(alloc: Global, seed: u64) -> Result<Vec<u8>, AllocError> {
    let mut lines = Vec::new(alloc);
    lines.extend_from_slice(b"{}\n[1]\n[2]\n")?;
    lines.extend_from_slice(held())?;
    lines.push(b'\n')?;
    lines.extend_from_slice(&drawn(alloc, seed)?)?;
    Ok(lines)
}

// A short line, and drawn ones.
fn second_lines(alloc: Global, seed: u64) -> Result<Vec<u8>, AllocError> {
    let mut lines = Vec::new(alloc);
    lines.extend_from_slice(b"[3]\n")?;
    lines.extend_from_slice(&drawn(alloc, seed.wrapping_add(ROUNDS))?)?;
    Ok(lines)
}

// An output that has room for so many bytes.
fn output<'a, W>(
    rt: &'a W,
    alloc: Global,
    signs: &'a Signs,
    turns: &'a [Turn],
    room: usize,
) -> TakesTurns<'a, W> {
    TakesTurns {
        rt,
        signs,
        turns,
        taker: Taker {
            taken: Vec::new(alloc),
            most: usize::MAX,
            room,
        },
    }
}

/// What a stream over this pool writes.
pub fn told_over<W: Wait, B: Bounds, O: Write + Drop>(
    rt: &W,
    alloc: Global,
    pool: &Pool,
    table: &mut B,
    lines: &[u8],
    output: O,
) -> O {
    let mut reader = CountedDevice::new(Pieces::of(lines));
    let mut writer = CountedDevice::new(output);
    let mut buffer = [0; 16_384];
    let _result = solve_lines_ahead(
        rt,
        alloc,
        &mut reader,
        &mut writer,
        pool,
        &DoubleDummy,
        table,
        None,
        &mut buffer,
    );
    writer.into_inner()
}

/// Answers ahead over each of these tables, in a thread of its own.
pub fn help<W: Threads + Wait + Sync, H: Bounds + Send>(rt: &W, pool: &Pool, tables: &mut [H]) {
    let count = tables.len();
    if count > 0 {
        for_each_mut(
            rt,
            tables,
            count,
            &|_, table| { answer_ahead(rt, pool, &DoubleDummy, table) },
        );
    }
}

// What two streams write, the second of which comes after the first has failed at its second reply.
fn tell_in_turn<W: Wait + Clock>(
    rt: &W,
    alloc: Global,
    pool: &Pool,
    signs: &Signs,
    first: &[u8],
    second: &[u8],
) -> (Vec<u8>, Vec<u8>) {
    let room = b"{\"fault\":3}\n".len();
    let failing = output(rt, alloc, signs, &[AFTER_SEARCHING], room);
    let cut = told_over(rt, alloc, pool, &mut NoTable, first, failing);
    let letting = output(rt, alloc, signs, &[LETS_GO], usize::MAX);
    let told = told_over(rt, alloc, pool, &mut NoTable, second, letting);
    pool.close(rt);
    (cut.taker.taken, told.taker.taken)
}

// The second one, which begins once the first has come to its second reply.
fn tell_second<W: Wait + Clock>(
    rt: &W,
    alloc: Global,
    pool: &Pool,
    signs: &Signs,
    lines: &[u8],
) -> Vec<u8> {
    signs.wait_for(rt, Sign::Second);
    let letting = output(rt, alloc, signs, &[LETS_GO], usize::MAX);
    told_over(rt, alloc, pool, &mut NoTable, lines, letting)
        .taker
        .taken
}

// The first one, whose second reply is taken once the second stream has come to one.
fn tell_first<W: Wait + Clock>(
    rt: &W,
    alloc: Global,
    pool: &Pool,
    signs: &Signs,
    lines: &[u8],
) -> Vec<u8> {
    let staying = output(
        rt,
        alloc,
        signs,
        &[AFTER_SEARCHING, AFTER_OTHER],
        usize::MAX,
    );
    told_over(rt, alloc, pool, &mut NoTable, lines, staying)
        .taker
        .taken
}

// What two streams write that are told at once.
fn tell_at_once<W: Threads + Wait + Clock + Sync>(
    rt: &W,
    alloc: Global,
    pool: &Pool,
    signs: &Signs,
    first: &[u8],
    second: &[u8],
) -> (Vec<u8>, Vec<u8>) {
    let told = join(
        rt,
        || tell_first(rt, alloc, pool, signs, first),
        || tell_second(rt, alloc, pool, signs, second),
    );
    pool.close(rt);
    told
}

// What two streams over this pool write, one after the other or at once.
fn tell_two<W: Threads + Wait + Clock + Sync>(
    rt: &W,
    alloc: Global,
    pool: &Pool,
    signs: &Signs,
    first: &[u8],
    second: &[u8],
    at_once: bool,
) -> (Vec<u8>, Vec<u8>) {
    if at_once {
        tell_at_once(rt, alloc, pool, signs, first, second)
    } else {
        tell_in_turn(rt, alloc, pool, signs, first, second)
    }
}

// The same over one pool, while threads answer ahead over these tables.
fn tell_both<W: Threads + Wait + Clock + Sync>(
    rt: &W,
    alloc: Global,
    signs: &Signs,
    tables: &mut [HoldsSearch<'_, W>],
    first: &[u8],
    second: &[u8],
    at_once: bool,
) -> (Vec<u8>, Vec<u8>) {
    let pool = Pool::new(alloc, None);
    let (_, told) = join(
        rt,
        || help(rt, &pool, tables),
        || tell_two(rt, alloc, &pool, signs, first, second, at_once),
    );
    told
}

// Does the second stream come to its first reply while a thread is held in a search, and is all told as by one thread?
fn is_second_told<W: Threads + Wait + Clock + Sync>(
    rt: &W,
    alloc: Global,
    seed: u64,
    threads: usize,
    at_once: bool,
) -> Result<bool, AllocError> {
    let first = first_lines(alloc, seed)?;
    let second = second_lines(alloc, seed)?;
    let signs = Signs::new(1);
    let mut tables = Vec::new(alloc);
    for _ in 0..threads {
        tables.push(HoldsSearch::new(rt, &signs))?;
    }
    let (head, told) = tell_both(rt, alloc, &signs, &mut tables, &first, &second, at_once);
    let first_wanted = run(alloc, Pieces::of(&first), usize::MAX, usize::MAX).written;
    let second_wanted = run(alloc, Pieces::of(&second), usize::MAX, usize::MAX).written;
    let is_first_right = if at_once {
        head.as_slice() == first_wanted.as_slice()
    } else {
        head.as_slice() == b"{\"fault\":3}\n".as_slice()
    };
    Ok(!signs.is_late() && is_first_right && told.as_slice() == second_wanted.as_slice())
}

#[test]
fn a_stream_after_a_failed_one_is_told_while_a_thread_is_held_in_its_search(
    rt: HostRuntime,
) -> Result<(), Fail> {
    for seed in 0..ROUNDS {
        for threads in 1..4usize {
            assert!(rt;
                is_second_told(&rt, rt.alloc(), seed, threads, false)?,
                "round {seed}, {threads} threads"
            );
        }
    }
    Ok(())
}

#[test]
fn a_second_stream_is_told_while_the_first_one_stays_at_a_reply(
    rt: HostRuntime,
) -> Result<(), Fail> {
    for seed in 0..ROUNDS {
        for threads in 1..4usize {
            assert!(rt;
                is_second_told(&rt, rt.alloc(), seed, threads, true)?,
                "round {seed}, {threads} threads"
            );
        }
    }
    Ok(())
}

// What is told of a stream over a pool with threads, and the looks of who tells. Its output has these turns.
fn tell_beside<W: Threads + Wait + Clock + Sync>(
    rt: &W,
    alloc: Global,
    signs: &Signs,
    tables: &mut [HoldsSearch<'_, W>],
    lines: &[u8],
    turns: &[Turn],
) -> (Vec<u8>, u64) {
    let pool = Pool::new(alloc, None);
    let (_, told) = join(
        rt,
        || help(rt, &pool, tables),
        || tell_and_close(rt, alloc, &pool, signs, lines, turns),
    );
    told
}

fn tell_and_close<W: Wait + Clock>(
    rt: &W,
    alloc: Global,
    pool: &Pool,
    signs: &Signs,
    lines: &[u8],
    turns: &[Turn],
) -> (Vec<u8>, u64) {
    let mut table = CountsLooks { looks: 0 };
    let taking = output(rt, alloc, signs, turns, usize::MAX);
    let told = told_over(rt, alloc, pool, &mut table, lines, taking);
    pool.close(rt);
    (told.taker.taken, table.looks)
}

// A short line, three searches that differ in spaces, and one that is held.
fn searches(alloc: Global) -> Result<Vec<u8>, AllocError> {
    let mut lines = Vec::new(alloc);
    lines.extend_from_slice(b"{}\n")?;
    for number in 0..3 {
        lines.extend_from_slice(searched())?;
        for _ in 0..number {
            lines.push(b' ')?;
        }
        lines.push(b'\n')?;
    }
    lines.extend_from_slice(held())?;
    lines.push(b'\n')?;
    Ok(lines)
}

// The thread is held when the first reply is taken: it has answered the three searches then.
#[test]
fn answers_that_are_ready_are_told_without_a_search_by_who_tells(
    rt: HostRuntime,
) -> Result<(), Fail> {
    let lines = searches(rt.alloc())?;
    let alone = run(rt.alloc(), Pieces::of(&lines), usize::MAX, usize::MAX);
    let turns = [AFTER_SEARCHING, PLAIN, PLAIN, LETS_GO];
    for _ in 0..ROUNDS {
        let signs = Signs::new(1);
        let mut tables = [HoldsSearch::new(&rt, &signs)];
        let (told, looks) = tell_beside(&rt, rt.alloc(), &signs, &mut tables, &lines, &turns);
        assert!(rt; !signs.is_late() && told.as_slice() == alone.written.as_slice());
        assert_eq!(rt; looks, 0);
    }
    Ok(())
}

// As many lines as are answered ahead: short ones, and a search that is held.
fn filling(alloc: Global) -> Result<Vec<u8>, AllocError> {
    let mut lines = Vec::new(alloc);
    lines.extend_from_slice(b"{}\n")?;
    for _ in 2..MOST_AHEAD {
        lines.extend_from_slice(b"[1]\n")?;
    }
    lines.extend_from_slice(held())?;
    lines.push(b'\n')?;
    Ok(lines)
}

// A short line and a search, for which there is room beside all of those but the first two; then a search without room, and short lines.
fn overflowing(alloc: Global) -> Result<Vec<u8>, AllocError> {
    let mut lines = Vec::new(alloc);
    lines.extend_from_slice(b"[1]\n")?;
    lines.extend_from_slice(searched())?;
    lines.push(b'\n')?;
    lines.extend_from_slice(without_room())?;
    lines.push(b'\n')?;
    for _ in 3..MOST_AHEAD {
        lines.extend_from_slice(b"[1]\n")?;
    }
    Ok(lines)
}

// As `searched`, with spades as trumps.
fn without_room() -> &'static [u8] {
    br#"{"do":"solve","deal":"N:T65.J.54.T9 Q9.K52.93.6 K.Q76.AJ2.8 A.4.T8.7532","trump":0,"first":2,"solutions":3}"#
}

// The code of the strain of the last search of a thread beside a failed stream and another one; and what that one writes.
fn last_searched<W: Threads + Wait + Clock + Sync>(
    rt: &W,
    alloc: Global,
    signs: &Signs,
    first: &[u8],
    second: &[u8],
) -> (Option<u8>, Vec<u8>) {
    let mut tables = [HoldsSearch::new(rt, signs)];
    let (_, told) = tell_both(rt, alloc, signs, &mut tables, first, second, false);
    let last = match tables[0].last() {
        Some(strain) => Some(strain.code()),
        None => None,
    };
    (last, told)
}

// The first stream leaves all lines but two, most of them with their answers; the thread is at the last one. The second stream takes so
// many answers that it comes to the search with room, and by then the thread has taken all that it takes.
#[test]
fn lines_that_wait_to_be_told_take_room_with_their_answers(rt: HostRuntime) -> Result<(), Fail> {
    let alloc = rt.alloc();
    let (first, second) = (filling(alloc)?, overflowing(alloc)?);
    let alone = run(alloc, Pieces::of(&second), usize::MAX, usize::MAX);
    for _ in 0..5 {
        let signs = Signs::new(1);
        let (last, told) = last_searched(&rt, alloc, &signs, &first, &second);
        assert!(rt; !signs.is_late() && told.as_slice() == alone.written.as_slice());
        // That of the search with room, in diamonds.
        assert_eq!(rt; last, Some(2));
    }
    Ok(())
}
