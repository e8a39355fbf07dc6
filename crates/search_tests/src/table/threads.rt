//! Threads over one table.
use crate::table::front::{Watched, offered};
use crate::table::positions::{
    BEHIND, BEHIND_ANSWER, CAUGHT, CAUGHT_ANSWER, TURNED, answers, bounds_told, start,
};
use dd_cards::Seat;
use dd_play::TrickStart;
use dd_table::{SharedTable, front_slot};
use std::alloc::AllocError;
use std::sync::Wait;
use std::thread::{Threads, join};

const ROUNDS: u8 = 50;

// Solves a deal over the table again and again, and counts the answers that read so.
fn solve_often<R: Wait>(rt: &R, table: &SharedTable, deal: &str, want: &str) -> u8 {
    let mut right = 0u8;
    for _ in 0..ROUNDS {
        if answers(&mut table.view(rt), deal, Seat::North, want) {
            right = right.saturating_add(1);
        }
    }
    right
}

fn solve_both<R: Threads + Wait + Sync>(rt: &R, table: &SharedTable) -> (u8, u8) {
    join(
        rt,
        || solve_often(rt, table, CAUGHT, CAUGHT_ANSWER),
        || solve_often(rt, table, BEHIND, BEHIND_ANSWER),
    )
}

#[test]
fn two_threads_solve_over_one_table(rt: HostRuntime) -> Result<(), AllocError> {
    let table = SharedTable::new(rt.alloc(), 1, 1)?;
    assert!(rt; solve_both(&rt, &table) == (ROUNDS, ROUNDS));
    let mut view = table.view(&rt);
    let found = [
        bounds_told(&mut view, &start(&rt, CAUGHT, Seat::North)),
        bounds_told(&mut view, &start(&rt, BEHIND, Seat::North)),
    ];
    assert!(rt;
        found == [Some((2, 2)), Some((1, 1))],
        "what both noted is there"
    );
    Ok(())
}

const TURNS: u32 = 1_000_000;

// Reads a cell by one note until something is told, and tells that and what a read by the same note tells after it.
fn wait_for(table: &SharedTable, start: &TrickStart) -> Option<(u8, Option<u8>)> {
    let mut watched = Watched::new(table, front_slot(start))?;
    for _ in 0..TURNS {
        if let Some(value) = watched.get(start) {
            return Some((value, watched.get(start)));
        }
    }
    None
}

#[test]
fn a_thread_gets_what_another_offers(rt: HostRuntime) -> Result<(), AllocError> {
    let table = SharedTable::new(rt.alloc(), 1, 1)?;
    let caught = start(&rt, CAUGHT, Seat::North);
    let turned = start(&rt, TURNED, Seat::East);
    let (seen, taken) = join(
        &rt,
        || wait_for(&table, &turned),
        || offered(&table, &caught).is_ok_and(|taken| taken),
    );
    assert!(rt; taken);
    let both = Some((2, Some(2)));
    assert!(rt; seen == both || seen.is_none());
    assert!(rt; wait_for(&table, &turned) == both);
    Ok(())
}
