//! A client, by lines or by messages of a WebSocket as RFC 6455 has them, with masks of zeros.
use std::alloc::Global;
use std::io;
use std::io::{BufRead, BufReader, Read, Write};
use std::net::TcpStream;

/// The most fetches of a job.
pub const MOST_FETCHES: u32 = 500_000;

// The most lines of the server's part of the handshake.
const MOST_HEADERS: u32 = 32;

const HANDSHAKE: &[u8] =
    b"GET / HTTP/1.1\r\nHost: a\r\nUpgrade: websocket\r\nConnection: Upgrade\r\n\
Sec-WebSocket-Key: dGhlIHNhbXBsZSBub25jZQ==\r\nSec-WebSocket-Version: 13\r\n\r\n";

/// How a client and the server talk.
#[derive(Clone, Copy)]
pub enum Way {
    Lines,
    Messages,
}

/// A client that sends a request only when the one before it was replied to.
#[derive(Drop)]
pub struct Client<'a> {
    alloc: Global,
    way: Way,
    stream: &'a TcpStream,
    reader: BufReader<&'a TcpStream>,
}

/// The last reply to a fetch that was sent again and again.
#[derive(Drop)]
pub struct Fetched {
    pub reply: String,
    pub fetches: u32,
}

impl<'a> Client<'a> {
    /// A client of this stream. By messages it shakes hands first.
    pub fn new(alloc: Global, way: Way, stream: &'a TcpStream) -> io::Result<Client<'a>> {
        stream.set_nodelay(true)?;
        let mut reader = BufReader::new(alloc, stream)?;
        if matches!(way, Way::Messages) {
            shake_hands(alloc, stream, &mut reader)?;
        }
        Ok(Client {
            alloc,
            way,
            stream,
            reader,
        })
    }

    /// The reply to a request of at most 125 bytes.
    pub fn ask(&mut self, request: &str) -> io::Result<String> {
        match self.way {
            Way::Lines => self.ask_by_line(request),
            Way::Messages => self.ask_by_message(request),
        }
    }

    /// Sends this fetch until the job no longer waits or runs.
    pub fn fetch(&mut self, request: &str) -> io::Result<Fetched> {
        let mut reply = String::new(self.alloc);
        let mut fetches = 0;
        for turn in 1..=MOST_FETCHES {
            reply = self.ask(request)?;
            fetches = turn;
            if !is_open(reply.as_str()) {
                break;
            }
        }
        Ok(Fetched { reply, fetches })
    }

    fn ask_by_line(&mut self, request: &str) -> io::Result<String> {
        self.stream.write_all(request.as_bytes())?;
        self.stream.write_all(b"\n")?;
        self.hear()
    }

    /// The next line that the server sends.
    pub fn hear(&mut self) -> io::Result<String> {
        let mut line = String::new(self.alloc);
        self.reader.read_line(&mut line)?;
        Ok(String::from_str(self.alloc, line.as_str().trim_end())?)
    }

    // One frame there, and one back, whose length has three bytes where it is over 125.
    fn ask_by_message(&mut self, request: &str) -> io::Result<String> {
        let length = (request.len() & 0x7f) as u8;
        self.stream.write_all(&[0x81, 0x80 | length, 0, 0, 0, 0])?;
        self.stream.write_all(request.as_bytes())?;
        let mut head = [0; 2];
        self.reader.read_exact(&mut head)?;
        let mut length = u64::from(head[1]);
        if length == 126 {
            let mut long = [0; 2];
            self.reader.read_exact(&mut long)?;
            length = u64::from(u16::from_be_bytes(long));
        }
        let mut reply = String::new(self.alloc);
        let mut text = self.reader.by_ref().take(length);
        text.read_to_string(&mut reply)?;
        Ok(reply)
    }
}

// Does the reply say that the job waits or runs?
fn is_open(reply: &str) -> bool {
    reply.ends_with("\"state\":\"waiting\"}") || reply.ends_with("\"state\":\"running\"}")
}

// The server's part is read to its empty line.
fn shake_hands(
    alloc: Global,
    mut stream: &TcpStream,
    reader: &mut BufReader<&TcpStream>,
) -> io::Result<()> {
    stream.write_all(HANDSHAKE)?;
    for _ in 0..MOST_HEADERS {
        let mut line = String::new(alloc);
        reader.read_line(&mut line)?;
        if line.as_str() == "\r\n" {
            break;
        }
    }
    Ok(())
}
