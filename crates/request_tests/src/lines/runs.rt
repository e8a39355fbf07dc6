//! A run over devices of memory.
use crate::devices::{Pieces, Taker};
use dd_bounds::NoTable;
use dd_lines::{CountedDevice, LineFault};
use dd_solve::DoubleDummy;
use dd_tool::solve_lines;
use std::alloc::Global;

/// How a run over these devices ended, the failed calls of its reader and of its writer, how many bytes were not read,
/// and what was written.
#[derive(Drop)]
pub struct Outcome {
    pub result: Result<(), LineFault>,
    pub failed_reads: u64,
    pub failed_writes: u64,
    pub unread: usize,
    pub written: Vec<u8>,
}

/// A run without a budget.
pub fn run(alloc: Global, pieces: Pieces<'_>, most: usize, room: usize) -> Outcome {
    run_within(alloc, pieces, most, room, None)
}

pub fn run_within(
    alloc: Global,
    pieces: Pieces<'_>,
    most: usize,
    room: usize,
    budget: Option<u64>,
) -> Outcome {
    let mut reader = CountedDevice::new(pieces);
    let mut writer = CountedDevice::new(Taker {
        taken: Vec::new(alloc),
        most,
        room,
    });
    let mut buffer = [0; 4_096];
    let result = solve_lines(
        alloc,
        &mut reader,
        &mut writer,
        &DoubleDummy,
        &mut NoTable,
        budget,
        &mut buffer,
    );
    Outcome {
        result,
        failed_reads: reader.failures(),
        failed_writes: writer.failures(),
        unread: reader.into_inner().bytes.len(),
        written: writer.into_inner().taken,
    }
}
