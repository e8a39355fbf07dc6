//! The jobs that are timed: each makes its input, hands it to the line tool or to the filling of files as the program does, and
//! keeps what comes out.
use crate::boards::{record, tagged};
use crate::draws::Draws;
use crate::lines::{leads, plays, short, strong};
use dd_cache::Cache;
use dd_file::Wanted;
use dd_fill::fill_deals;
use dd_lines::CountedDevice;
use dd_solve::DoubleDummy;
use dd_table::{SharedTable, View};
use dd_tool::tell_lines;
use std::alloc::{AllocError, Global};
use std::sync::Wait;
use std::thread::Threads;

/// The room of the table: the program's default.
const ENTRIES: u32 = 4_096;

/// The bytes of a read of lines, and of one of a file: the program's.
const LINES_PIECE: usize = 4_096;

const FILE_PIECE: usize = 65_536;

/// What a job gives.
#[derive(Drop)]
pub(crate) enum Outcome {
    Written(Vec<u8>),
    /// There is no job of this name.
    Unknown,
    /// A call failed, or memory ran out.
    Failed,
}

/// Does the job of this name, on so many deals, lines or boards drawn from the seed.
pub(crate) fn done<W: Threads + Wait + Sync>(
    rt: &W,
    alloc: Global,
    name: &str,
    count: u32,
    seed: u32,
) -> Outcome {
    let mut draws = Draws::new(seed);
    match name {
        "leads" => answered(rt, alloc, leads(alloc, count, &mut draws)),
        "strong" => answered(rt, alloc, strong(alloc, count, &mut draws)),
        "plays" => answered(rt, alloc, plays(alloc, count, &mut draws)),
        "short" => answered(rt, alloc, short(alloc, count, &mut draws)),
        "record" => filled(rt, alloc, record(alloc, count, &mut draws)),
        "tagged" => filled(rt, alloc, tagged(alloc, count, &mut draws)),
        _ => Outcome::Unknown,
    }
}

// The replies to these lines.
fn answered<W: Wait>(rt: &W, alloc: Global, lines: Result<Vec<u8>, AllocError>) -> Outcome {
    let (Ok(lines), Ok(table)) = (lines, SharedTable::new(alloc, 1, ENTRIES)) else {
        return Outcome::Failed;
    };
    let Ok(mut cache) = Cache::new(alloc, table.view(rt)) else {
        return Outcome::Failed;
    };
    let mut reader = CountedDevice::new(lines.as_slice());
    let mut writer = CountedDevice::new(Vec::new(alloc));
    let mut buffer = [0; LINES_PIECE];
    match tell_lines(
        alloc,
        &mut reader,
        &mut writer,
        &DoubleDummy,
        &mut cache,
        None,
        false,
        &mut buffer,
    ) {
        Ok(()) => Outcome::Written(writer.into_inner()),
        Err(_) => Outcome::Failed,
    }
}

// What comes out for this file.
fn filled<W: Threads + Wait + Sync>(
    rt: &W,
    alloc: Global,
    file: Result<Vec<u8>, AllocError>,
) -> Outcome {
    let (Ok(file), Ok(table)) = (file, SharedTable::new(alloc, 1, ENTRIES)) else {
        return Outcome::Failed;
    };
    let Ok(mut cache) = Cache::new(alloc, table.view(rt)) else {
        return Outcome::Failed;
    };
    let mut others: Vec<Cache<View<'_, W>>> = Vec::new(alloc);
    let mut reader = CountedDevice::new(file.as_slice());
    let mut writer = CountedDevice::new(Vec::new(alloc));
    let mut errors = CountedDevice::new(Vec::new(alloc));
    let mut buffer = [0; FILE_PIECE];
    match fill_deals(
        rt,
        alloc,
        Wanted::ALL,
        &mut reader,
        &mut writer,
        &mut errors,
        false,
        &DoubleDummy,
        &mut cache,
        others.as_mut_slice(),
        None,
        &mut buffer,
    ) {
        Ok(()) => Outcome::Written(writer.into_inner()),
        Err(_) => Outcome::Failed,
    }
}
