//! What a connection of lines begins with: a request of HTTP or a handshake of TLS ends it, so that no page of the web is a client.
ghost use Rattle.std.specs.Prelude.{◌≡◌, false, take, IfOk, Ok, nat_eq};
ghost use Rattle.std.specs.Io.{ReadsAtMost};
ghost use Rattle.std.specs.List.{list_any, starts_with};
ghost use Rattle.dd_server.specs.Opening.{begins_handshake, begins_request, is_other_protocol, may_begin_request};

use std::io;
use std::io::Read;

/// The methods of HTTP, each with the space after it (RFC 9110, section 9.3, and RFC 5789).
const METHODS: [&[u8]; 9] = [
    b"GET ",
    b"HEAD ",
    b"POST ",
    b"PUT ",
    b"DELETE ",
    b"CONNECT ",
    b"OPTIONS ",
    b"TRACE ",
    b"PATCH ",
];

/// The type of a record of TLS that is part of a handshake (RFC 8446, section 5.1).
const HANDSHAKE: u8 = 22;

/// How far a stream of lines is.
#[derive(Clone, Copy, PartialEq, Eq)]
enum Stage {
    /// Nothing was read.
    New,
    /// It is of no other protocol.
    Lines,
    /// It ended before its first line, or it is a request of HTTP or a handshake of TLS.
    Ended,
}

/// A stream of lines, which ends where it begins with a request of HTTP or a handshake of TLS.
#[derive(Drop)]
pub(crate) struct LineStream<R> {
    reader: R,
    stage: Stage,
}

impl<R> LineStream<R> {
    /// A stream before its first read.
    pub(crate) fn new(reader: R) -> LineStream<R>
        ensures { result.stage ≡ Stage.New }
    {
        LineStream {
            reader,
            stage: Stage::New,
        }
    }
}

impl<R: Read> Read for LineStream<R> {
    fn read(&mut self, buf: &mut [u8]) -> io::Result<usize>
        ensures bound { ReadsAtMost result buf.new }
        ensures first { self.old.stage ≡ Stage.New → IfOk result (λ count.
            is_other_protocol (take count buf.new) ≡ false) }
        ensures ended { self.old.stage ≡ Stage.Ended → result ≡ Ok 0 }
    {
        match self.stage {
            Stage::New => {
                let count = read_first(&mut self.reader, buf)?;
                self.stage = if count == 0 {
                    Stage::Ended
                } else {
                    Stage::Lines
                };
                Ok(count)
            }
            Stage::Lines => self.reader.read(buf),
            Stage::Ended => Ok(0),
        }
    }
}

/// Does a stream that begins with these bytes begin with a request of HTTP?
fn begins_request(bytes: &[u8]) -> bool
    ensures { result ≡ begins_request bytes.now }
{
    begins_with_one(bytes, METHODS.as_slice())
}

// Is one of them a beginning of the bytes?
fn begins_with_one(bytes: &[u8], methods: &[&[u8]]) -> bool
    ensures { result ≡ list_any (λ m. starts_with nat_eq bytes.now m.now) methods.now }
{
    methods.iter().any(|method| bytes.starts_with(method))
}

/// May more bytes still make it one?
fn may_begin_request(bytes: &[u8]) -> bool
    ensures { result ≡ may_begin_request bytes.now }
{
    begin_one(bytes, METHODS.as_slice())
}

// Are the bytes a beginning of one of them?
fn begin_one(bytes: &[u8], methods: &[&[u8]]) -> bool
    ensures { result ≡ list_any (λ m. starts_with nat_eq m.now bytes.now) methods.now }
{
    methods.iter().any(|method| method.starts_with(bytes))
}

/// Does it begin with a handshake of TLS? A line within it may be chosen by who it is meant for.
fn begins_handshake(bytes: &[u8]) -> bool
    ensures { result ≡ begins_handshake bytes.now }
{
    match bytes {
        [first, ..] => *first == HANDSHAKE,
        [] => false,
    }
}

/// Is it of another protocol?
fn is_other_protocol(bytes: &[u8]) -> bool
    ensures { result ≡ is_other_protocol bytes.now }
{
    begins_request(bytes) || begins_handshake(bytes)
}

/// The first read of a stream of lines. It goes on until the bytes show whether a request of HTTP or a handshake of TLS begins:
/// that is as an empty stream.
fn read_first<R: Read>(reader: &mut R, buf: &mut [u8]) -> io::Result<usize>
    ensures bound { ReadsAtMost result buf.new }
    ensures lines { IfOk result (λ count. is_other_protocol (take count buf.new) ≡ false) }
{
    let mut count = 0;
    for _ in 0..buf.len() {
        let more = reader.read(&mut buf[count..])?;
        count += more;
        let first = &buf[..count];
        if is_other_protocol(first) {
            return Ok(0);
        }
        if more == 0 || !may_begin_request(first) {
            break;
        }
    }
    Ok(count)
}
