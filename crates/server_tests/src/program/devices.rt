//! Devices of memory, and a run over them.
use dd_command::ArgumentsFault;
use dd_lines::CountedDevice;
use dd_program::{Unwatched, run_program};
use dd_streams::Ending;
use std::alloc::{AllocError, Global};
use std::io;
use std::io::{Error, ErrorKind, Read, Write};
use std::net::{Net, TcpListener, TcpStream};
use std::sync::Wait;
use std::thread::Threads;
use std::time::Clock;

/// Gives its bytes, and fails once it has had its calls.
#[derive(Drop)]
struct Source<'a> {
    bytes: &'a [u8],
    calls: usize,
}

impl Read for Source<'_> {
    fn read(&mut self, buf: &mut [u8]) -> io::Result<usize> {
        if self.calls == 0 {
            return Err(Error::from(ErrorKind::Interrupted));
        }
        self.calls -= 1;
        let count = buf.len().min(self.bytes.len());
        let (piece, rest) = self.bytes.split_at(count);
        buf[..count].copy_from_slice(piece);
        self.bytes = rest;
        Ok(count)
    }
}

/// Takes bytes, and fails once it has no more room.
#[derive(Drop)]
struct Sink {
    taken: Vec<u8>,
    room: usize,
}

impl Write for Sink {
    fn write(&mut self, buf: &[u8]) -> io::Result<usize> {
        if self.room == 0 {
            return Err(Error::from(ErrorKind::BrokenPipe));
        }
        let count = buf.len().min(self.room);
        self.taken.extend_from_slice(&buf[..count])?;
        self.room -= count;
        Ok(count)
    }

    fn flush(&mut self) -> io::Result<()> {
        Ok(())
    }
}

/// What the devices of a run can do: the calls that the input answers, and the bytes that output and error take.
#[derive(Clone, Copy)]
pub struct Devices {
    pub calls: usize,
    pub output: usize,
    pub errors: usize,
}

/// Devices that never fail.
pub const SOUND: Devices = Devices {
    calls: usize::MAX,
    output: usize::MAX,
    errors: usize::MAX,
};

/// How a run ended, the bytes that it left unread, and what it wrote.
#[derive(Drop)]
pub struct Outcome {
    pub ending: Ending,
    pub unread: usize,
    pub output: Vec<u8>,
    pub errors: Vec<u8>,
}

/// Words that stand in a line with one space between each two.
pub fn words_in(alloc: Global, line: &str) -> Result<Vec<String>, AllocError> {
    let mut words = Vec::new(alloc);
    for word in line.split(' ') {
        words.push(String::from_str(alloc, word)?)?;
    }
    Ok(words)
}

/// A run of these words over this input.
pub fn run_over<
    W: Threads + Wait + Clock + Eprint + Net<Listener = TcpListener, Stream = TcpStream> + Sync,
>(
    rt: &W,
    alloc: Global,
    words: Result<Vec<String>, ArgumentsFault>,
    input: &str,
    devices: Devices,
) -> Outcome {
    let mut reader = CountedDevice::new(Source {
        bytes: input.as_bytes(),
        calls: devices.calls,
    });
    let mut output = CountedDevice::new(Sink {
        taken: Vec::new(alloc),
        room: devices.output,
    });
    let mut errors = CountedDevice::new(Sink {
        taken: Vec::new(alloc),
        room: devices.errors,
    });
    let ending = run_program::<_, _, _, _, Unwatched, Unwatched>(
        rt,
        alloc,
        words,
        &mut reader,
        &mut output,
        &mut errors,
        false,
        &mut Unwatched,
    );
    Outcome {
        ending,
        unread: reader.into_inner().bytes.len(),
        output: output.into_inner().taken,
        errors: errors.into_inner().taken,
    }
}

/// A run of the words of this line over this input.
pub fn run_line<
    W: Threads + Wait + Clock + Eprint + Net<Listener = TcpListener, Stream = TcpStream> + Sync,
>(rt: &W, alloc: Global, line: &str, input: &str, devices: Devices) -> Result<Outcome, AllocError> {
    let words = words_in(alloc, line)?;
    Ok(run_over(rt, alloc, Ok(words), input, devices))
}
