//! The front by itself: what is offered and what is got.
ghost use Rattle.dd_table.specs.Front.{IsNoteOf};

use crate::table::positions::{ALIKE, BEHIND, CAUGHT, LOWER, TURNED, start};
use dd_bounds::{Endless, NoTable};
use dd_cards::Seat;
use dd_play::TrickStart;
use dd_search::start_value;
use dd_table::{FrontNote, SharedTable, front_slot};
use std::alloc::AllocError;

// What a new note is told of a position.
fn got(table: &SharedTable, start: &TrickStart) -> Option<u8> {
    let mut note = table.front_note(front_slot(start));
    table.front_get(&mut note, start)
}

// Offers the value of a position by a new note, and tells whether the cell took it.
pub(crate) fn offered(table: &SharedTable, start: &TrickStart) -> Result<bool, AllocError> {
    let Ok((value, _)) = start_value(start, &mut NoTable, &mut Endless) else {
        return Ok(false);
    };
    let mut note = table.front_note(front_slot(start));
    table.front_offer(&mut note, start, value)
}

#[test]
fn alike_positions_share_a_cell_that_is_set_once(rt: HostRuntime) -> Result<(), AllocError> {
    let table = SharedTable::new(rt.alloc(), 16, 64)?;
    let caught = start(&rt, CAUGHT, Seat::North);
    let turned = start(&rt, TURNED, Seat::East);
    let alike = start(&rt, ALIKE, Seat::North);
    let slots = [front_slot(&caught), front_slot(&turned), front_slot(&alike)];
    assert!(rt; slots == [front_slot(&caught); 3]);
    assert!(rt; (got(&table, &caught), got(&table, &turned)) == (None, None));
    assert!(rt; offered(&table, &caught)? == true, "the cell was empty");
    let values = [
        got(&table, &turned),
        got(&table, &alike),
        got(&table, &caught),
    ];
    assert!(rt; values == [Some(2); 3], "by new notes");
    assert!(rt; offered(&table, &turned)? == false, "the cell is set");
    Ok(())
}

#[test]
fn a_cell_tells_nothing_of_positions_that_are_not_alike(rt: HostRuntime) -> Result<(), AllocError> {
    let table = SharedTable::new(rt.alloc(), 1, 1)?;
    let caught = start(&rt, CAUGHT, Seat::North);
    assert!(rt; offered(&table, &caught)? == true);
    let mut note = table.front_note(front_slot(&caught));
    let found = [
        table.front_get(&mut note, &start(&rt, BEHIND, Seat::North)),
        table.front_get(&mut note, &start(&rt, LOWER, Seat::North)),
        table.front_get(&mut note, &caught),
    ];
    assert!(rt; found == [None, None, Some(2)]);
    let entry = table.front_held(&mut note).expect(&rt, "it is set");
    assert!(rt;
        (
            entry.value(),
            entry.value_of(&start(&rt, BEHIND, Seat::North))
        ) == (2, None)
    );
    assert!(rt; front_slot(entry.start()) == front_slot(&caught));
    Ok(())
}

// A table with what was seen of one of its cells: both can be kept together.
#[derive(Drop)]
pub(crate) struct Watched<'a> {
    table: &'a SharedTable,
    note: FrontNote,
    ghost of: { IsNoteOf table.now note },
}

impl<'a> Watched<'a> {
    pub(crate) fn new(table: &'a SharedTable, slot: u16) -> Option<Watched<'a>> {
        if slot < dd_table::FRONT_CELLS {
            Some(Watched {
                table,
                note: table.front_note(slot),
            })
        } else {
            None
        }
    }

    pub(crate) fn get(&mut self, start: &TrickStart) -> Option<u8> {
        let Watched { table, note } = self;
        table.front_get(note, start)
    }
}

#[test]
fn a_note_that_is_kept_sees_what_is_set_later(rt: HostRuntime) -> Result<(), AllocError> {
    let table = SharedTable::new(rt.alloc(), 1, 1)?;
    let caught = start(&rt, CAUGHT, Seat::North);
    let mut watched = Watched::new(&table, front_slot(&caught)).expect(&rt, "a slot");
    assert!(rt; watched.get(&caught) == None);
    assert!(rt; offered(&table, &caught)? == true);
    let alike = start(&rt, ALIKE, Seat::North);
    let found = [watched.get(&caught), watched.get(&alike)];
    assert!(rt; found == [Some(2); 2]);
    assert!(rt; Watched::new(&table, 4096).is_none());
    Ok(())
}

#[test]
fn an_offer_that_finds_no_memory_leaves_the_cell(rt: HostRuntime) -> Result<(), AllocError> {
    let Ok(table) = SharedTable::new(rt.alloc(), 1, 1) else {
        return Ok(());
    };
    let caught = start(&rt, CAUGHT, Seat::North);
    if offered(&table, &caught).is_err() {
        assert!(rt; got(&table, &caught) == None, "nothing was set");
        assert!(rt;
            offered(&table, &caught).ok() == Some(true),
            "it is still empty"
        );
    }
    assert!(rt; got(&table, &caught) == Some(2));
    Ok(())
}
