//! What a table keeps of a solved position, and of whom it tells it.
use crate::table::positions::{
    ACE, ALIKE, BEHIND, CAUGHT, CAUGHT_ANSWER, LOWER, TURNED, answers, bounds_told, start,
};
use dd_bounds::{Bounds, Endless, NoTable};
use dd_cards::{Seat, Suit};
use dd_play::{Interval, TrickStart};
use dd_rank::OwnerStrings;
use dd_search::start_value;
use dd_table::SharedTable;
use std::alloc::AllocError;
use std::process::Abort;
use std::sync::Wait;

// A table of so many shards over which the king that is caught was solved.
fn table_after_caught<R: Abort + AllocGlobal + Wait>(
    rt: &R,
    shards: u8,
) -> Result<SharedTable, AllocError> {
    let table = SharedTable::new(rt.alloc(), shards.max(1) as u32, 64)?;
    let caught = start(rt, CAUGHT, Seat::North);
    let before = bounds_told(&mut table.view(rt), &caught);
    assert!(rt;
        (before, table.len(rt)) == (None, 0),
        "it has learned nothing"
    );
    assert!(rt; answers(&mut table.view(rt), CAUGHT, Seat::North, CAUGHT_ANSWER));
    Ok(table)
}

#[test]
fn a_solved_position_is_told_of_those_that_it_covers(rt: HostRuntime) -> Result<(), AllocError> {
    for shards in [1, 16, 255] {
        let table = table_after_caught(&rt, shards)?;
        let mut view = table.view(&rt);
        let found = [
            bounds_told(&mut view, &start(&rt, CAUGHT, Seat::North)),
            bounds_told(&mut view, &start(&rt, ALIKE, Seat::North)),
            bounds_told(&mut view, &start(&rt, LOWER, Seat::North)),
            bounds_told(&mut view, &start(&rt, TURNED, Seat::East)),
            // The king behind ace and queen is not caught.
            bounds_told(&mut view, &start(&rt, BEHIND, Seat::North)),
        ];
        let two = Some((2, 2));
        assert!(rt; found == [two, two, two, two, None], "{shards} shards");
    }
    Ok(())
}

#[test]
fn answers_over_a_table_that_knows_the_position_are_the_same(
    rt: HostRuntime,
) -> Result<(), AllocError> {
    let table = table_after_caught(&rt, 16)?;
    let mut view = table.view(&rt);
    let alike = r#"{"cards":[{"equals":16,"rank":6,"score":2,"suit":0}]}"#;
    let lower =
        r#"{"cards":[{"equals":0,"rank":6,"score":2,"suit":0},{"equals":0,"rank":2,"score":2,"suit":0}]}"#;
    let found = [
        answers(&mut view, ALIKE, Seat::North, alike),
        answers(&mut view, LOWER, Seat::North, lower),
        answers(&mut view, TURNED, Seat::East, CAUGHT_ANSWER),
    ];
    assert!(rt; found == [true; 3]);
    Ok(())
}

#[test]
fn a_note_of_what_was_told_adds_no_shape(rt: HostRuntime) -> Result<(), AllocError> {
    let table = table_after_caught(&rt, 16)?;
    let shapes = table.len(&rt);
    assert!(rt; 1 <= shapes);
    let mut view = table.view(&rt);
    let alike = start(&rt, ALIKE, Seat::North);
    let (interval, depths) = view.look(&alike).expect(&rt, "it is covered");
    assert!(rt;
        depths.of(Suit::Spades) == 3,
        "it rests on ace, king and queen"
    );
    view.note(&alike, depths, interval);
    assert!(rt; table.len(&rt) == shapes);
    Ok(())
}

// Tells the table no more than that the value is not above what it is, or also that it is not below.
fn tell<B: Bounds>(table: &mut B, start: &TrickStart, exactly: bool) -> Option<u8> {
    let (tricks, depths) = start_value(start, &mut NoTable, &mut Endless).ok()?;
    let lo = if exactly { tricks } else { 0 };
    table.note(start, depths, Interval { lo, hi: tricks });
    Some(tricks)
}

#[test]
fn a_value_that_the_shard_forgot_is_told_by_the_front(rt: HostRuntime) -> Result<(), AllocError> {
    let table = SharedTable::new(rt.alloc(), 1, 1)?;
    let mut view = table.view(&rt);
    let caught = start(&rt, CAUGHT, Seat::North);
    assert!(rt; tell(&mut view, &caught, true) == Some(2));
    assert!(rt; tell(&mut view, &start(&rt, ACE, Seat::North), true) == Some(1));
    assert!(rt; table.len(&rt) == 1, "the shape of the ace is there alone");
    assert!(rt; table.look(&rt, &caught).is_none(), "the shard forgot it");
    let (interval, depths) = view.look(&caught).expect(&rt, "the front has it");
    assert!(rt;
        (interval.lo, interval.hi, depths.of(Suit::Spades)) == (2, 2, 8),
        "at the depths of all cards"
    );
    let found = [
        bounds_told(&mut view, &start(&rt, ALIKE, Seat::North)),
        bounds_told(&mut view, &start(&rt, TURNED, Seat::East)),
        // The front has values of alike positions alone.
        bounds_told(&mut view, &start(&rt, LOWER, Seat::North)),
    ];
    assert!(rt; found == [Some((2, 2)), Some((2, 2)), None]);
    Ok(())
}

#[test]
fn bounds_that_are_no_value_do_not_reach_the_front(rt: HostRuntime) -> Result<(), AllocError> {
    let table = SharedTable::new(rt.alloc(), 1, 1)?;
    let mut view = table.view(&rt);
    let behind = start(&rt, BEHIND, Seat::North);
    assert!(rt; tell(&mut view, &behind, false) == Some(1));
    assert!(rt;
        bounds_told(&mut view, &behind) == Some((0, 1)),
        "by the shard"
    );
    assert!(rt; tell(&mut view, &start(&rt, ACE, Seat::North), true) == Some(1));
    assert!(rt; bounds_told(&mut view, &behind) == None);
    Ok(())
}

// The same as a search does it, which knows the strings: that the value is not above what it is.
fn tell_in_a_search<B: Bounds>(table: &mut B, start: &TrickStart) -> Option<u8> {
    let (tricks, depths) = start_value(start, &mut NoTable, &mut Endless).ok()?;
    let strings = OwnerStrings::of(start);
    table.note_by(start, &strings, depths, Interval { lo: 0, hi: tricks });
    Some(tricks)
}

// What a search is told of the question whether two tricks are taken.
fn told_in_a_search<B: Bounds>(table: &mut B, start: &TrickStart) -> Option<(u8, u8)> {
    let (interval, _) = table.settle(start, &OwnerStrings::of(start), 2)?;
    Some((interval.lo, interval.hi))
}

#[test]
fn a_search_is_told_what_another_one_told(rt: HostRuntime) -> Result<(), AllocError> {
    let table = SharedTable::new(rt.alloc(), 1, 64)?;
    let mut view = table.view(&rt);
    let behind = start(&rt, BEHIND, Seat::North);
    assert!(rt; told_in_a_search(&mut view, &behind) == None);
    assert!(rt; tell_in_a_search(&mut view, &behind) == Some(1));
    assert!(rt; told_in_a_search(&mut view, &behind) == Some((0, 1)));
    Ok(())
}
