//! A reader and a writer of memory, which give and take little and fail in time.
use std::io;
use std::io::{Error, ErrorKind, Read, Write};

/// Gives its bytes in pieces, and fails once it has had its calls.
#[derive(Drop)]
pub struct Pieces<'a> {
    pub bytes: &'a [u8],
    pub most: usize,
    pub calls: usize,
}

impl<'a> Pieces<'a> {
    /// All bytes in one piece, and no failure.
    pub fn of(bytes: &'a [u8]) -> Pieces<'a> {
        Pieces {
            bytes,
            most: usize::MAX,
            calls: usize::MAX,
        }
    }
}

impl Read for Pieces<'_> {
    fn read(&mut self, buf: &mut [u8]) -> io::Result<usize> {
        if self.calls == 0 {
            return Err(Error::from(ErrorKind::Interrupted));
        }
        self.calls -= 1;
        let count = self.most.min(buf.len()).min(self.bytes.len());
        let (piece, rest) = self.bytes.split_at(count);
        buf[..count].copy_from_slice(piece);
        self.bytes = rest;
        Ok(count)
    }
}

/// Takes bytes up to `most` a call, and fails once it has taken `room` of them.
#[derive(Drop)]
pub struct Taker {
    pub taken: Vec<u8>,
    pub most: usize,
    pub room: usize,
}

impl Write for Taker {
    fn write(&mut self, buf: &[u8]) -> io::Result<usize> {
        if self.room == 0 {
            return Err(Error::from(ErrorKind::Interrupted));
        }
        let count = self.most.min(buf.len()).min(self.room);
        self.taken.extend_from_slice(&buf[..count])?;
        self.room -= count;
        Ok(count)
    }

    fn flush(&mut self) -> io::Result<()> {
        Ok(())
    }
}
