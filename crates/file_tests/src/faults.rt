//! What is written of a file and said of its games where a device fails.
use super::devices::{Broken, Pieces, Taker};
use dd_bounds::NoTable;
use dd_cache::Cache;
use dd_file::{FileFault, Wanted};
use dd_fill::fill_deals;
use dd_lines::CountedDevice;
use dd_solve::DoubleDummy;
use std::alloc::{AllocError, Global};
use std::io::Read;
use std::sync::Wait;
use std::test::Fail;
use std::thread::Threads;

// The file has more bytes than are ever held.
const GAMES: u64 = 40_000;

// The most bytes of a file that are held.
const MOST_HELD: usize = 327_680;

// The bytes that one read takes.
const PIECE: usize = 4_096;

// The first so many games of a file, none of which has a deal.
fn games(alloc: Global, count: u64) -> Result<Vec<u8>, AllocError> {
    let mut file = Vec::new(alloc);
    for number in 0..count {
        file.extend_from_slice(format!(in alloc; "[Board \"{number}\"]\n\n")?.as_bytes())?;
    }
    Ok(file)
}

// What is said of them.
fn notes(alloc: Global, count: u64) -> Result<Vec<u8>, AllocError> {
    let mut notes = Vec::new(alloc);
    for number in 0..count {
        let game = number.saturating_add(1);
        let note = format!(in alloc; "ddserve: game {game} (board {number}): no deal\n")?;
        notes.extend_from_slice(note.as_bytes())?;
    }
    Ok(notes)
}

// How many games of these end in this text: each before an empty line.
fn ended(text: &[u8]) -> u64 {
    let mut count = 0u64;
    let mut last = 0;
    for byte in text {
        if *byte == b'\n' && last == b'\n' {
            count = count.saturating_add(1);
        }
        last = *byte;
    }
    count
}

// What a run ended with, what it wrote, and what it said.
#[derive(Drop)]
struct Outcome {
    result: Result<(), FileFault>,
    file: Vec<u8>,
    notes: Vec<u8>,
}

// The outcome for what is read, where the output takes so many bytes.
fn fill<W: Threads + Wait + Sync, R: Read + Drop>(
    rt: &W,
    alloc: Global,
    reader: R,
    room: usize,
) -> Result<Outcome, AllocError> {
    let mut cache = Cache::new(alloc, NoTable)?;
    let mut others: [NoTable; 0] = [];
    let mut reader = CountedDevice::new(reader);
    let mut writer = CountedDevice::new(Taker::of_room(alloc, room));
    let mut errors = CountedDevice::new(Taker::new(alloc));
    let mut buffer = [0; PIECE];
    let result = fill_deals(
        rt,
        alloc,
        Wanted::ALL,
        &mut reader,
        &mut writer,
        &mut errors,
        false,
        &DoubleDummy,
        &mut cache,
        &mut others,
        None,
        &mut buffer,
    );
    Ok(Outcome {
        result,
        file: writer.into_inner().taken,
        notes: errors.into_inner().taken,
    })
}

// All but the bytes that are held came out, and of each game that ended there its note.
#[test]
fn before_a_failed_read_games_are_passed_on_with_their_notes(rt: HostRuntime) -> Result<(), Fail> {
    let alloc = rt.alloc();
    let file = games(alloc, GAMES)?;
    let pieces = Pieces {
        bytes: file.as_slice(),
        most: PIECE,
    };
    let outcome = fill(&rt, alloc, Broken { pieces }, usize::MAX)?;
    let written = outcome.file.as_slice();
    assert!(rt; outcome.result == Err(FileFault::Read));
    assert!(rt; file.as_slice().starts_with(written));
    assert!(rt; file.len().saturating_sub(written.len()) <= MOST_HELD);
    assert!(rt; outcome.notes.as_slice() == notes(alloc, ended(written))?.as_slice());
    Ok(())
}

// Of each game that was written, and perhaps of more, its note; but not of all, where the first write fails.
#[test]
fn where_a_write_fails_the_games_that_were_written_have_their_notes(
    rt: HostRuntime,
) -> Result<(), Fail> {
    let alloc = rt.alloc();
    let file = games(alloc, GAMES)?;
    let all = notes(alloc, GAMES)?;
    for (room, is_first) in [(0usize, true), (100_000, true), (600_000, false)] {
        let pieces = Pieces {
            bytes: file.as_slice(),
            most: PIECE,
        };
        let outcome = fill(&rt, alloc, pieces, room)?;
        let written = outcome.file.as_slice();
        let said = outcome.notes.as_slice();
        assert!(rt; outcome.result == Err(FileFault::Write), "{room}");
        assert!(rt;
            written.len() == room && file.as_slice().starts_with(written),
            "{room}"
        );
        assert!(rt;
            said.starts_with(notes(alloc, ended(written))?.as_slice()),
            "{room}"
        );
        assert!(rt;
            !said.is_empty() && all.as_slice().starts_with(said),
            "{room}"
        );
        assert!(rt; !is_first || said.len() < all.len(), "{room}");
    }
    Ok(())
}
