//! A reader and a writer of memory.
use std::alloc::Global;
use std::io;
use std::io::{Error, ErrorKind, Read, Write};

/// Gives its bytes in pieces.
#[derive(Drop)]
pub struct Pieces<'a> {
    pub bytes: &'a [u8],
    pub most: usize,
}

impl Read for Pieces<'_> {
    fn read(&mut self, buf: &mut [u8]) -> io::Result<usize> {
        let count = self.most.min(buf.len()).min(self.bytes.len());
        let (piece, rest) = self.bytes.split_at(count);
        buf[..count].copy_from_slice(piece);
        self.bytes = rest;
        Ok(count)
    }
}

/// Gives its bytes in pieces, and then fails.
#[derive(Drop)]
pub struct Broken<'a> {
    pub pieces: Pieces<'a>,
}

impl Read for Broken<'_> {
    fn read(&mut self, buf: &mut [u8]) -> io::Result<usize> {
        if self.pieces.bytes.is_empty() {
            return Err(Error::from(ErrorKind::ConnectionReset));
        }
        self.pieces.read(buf)
    }
}

/// Takes bytes, and fails once it has no more room.
#[derive(Drop)]
pub struct Taker {
    pub taken: Vec<u8>,
    pub room: usize,
}

impl Taker {
    /// Takes all bytes.
    pub fn new(alloc: Global) -> Taker {
        Taker::of_room(alloc, usize::MAX)
    }

    /// Takes so many bytes.
    pub fn of_room(alloc: Global, room: usize) -> Taker {
        Taker {
            taken: Vec::new(alloc),
            room,
        }
    }
}

impl Write for Taker {
    fn write(&mut self, buf: &[u8]) -> io::Result<usize> {
        if self.room == 0 {
            return Err(Error::from(ErrorKind::BrokenPipe));
        }
        let count = buf.len().min(self.room);
        self.taken.extend_from_slice(&buf[..count])?;
        self.room -= count;
        Ok(count)
    }

    fn flush(&mut self) -> io::Result<()> {
        Ok(())
    }
}
