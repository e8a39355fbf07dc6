//! What a client is told at the end of its connection over a WebSocket.
use crate::reply_stream::ReplyStream;
use crate::stop::RunStop;
use dd_lines::{CountedDevice, write_whole};
use dd_session::{HandshakeAnswer, SocketEnd};
use std::io;
use std::io::Read;
use std::net::{Shutdown, TcpStream};
use std::time::{Clock, Duration, Instant};

// For how many seconds a client may read what it was told last.
const PARTING: u64 = 2;

// The bytes that are read at once, and how often, at most: 16 MiB.
const PIECE: usize = 4_096;

const MOST_READS: u32 = 4_096;

/// Answers a handshake that failed, and lets a client read what it was told last.
pub(crate) fn part<R: Clock>(rt: &R, stream: &TcpStream, stop: &RunStop, end: SocketEnd) {
    match end {
        SocketEnd::Handshake(HandshakeAnswer::Nothing) => {}
        SocketEnd::Handshake(answer) => {
            let mut writer = CountedDevice::new(ReplyStream::new(rt, stream, stop));
            let _ = write_whole(&mut writer, answer.text().as_bytes());
            let _ = linger(rt, stream);
        }
        SocketEnd::Broken => {
            let _ = linger(rt, stream);
        }
        SocketEnd::Read | SocketEnd::Write | SocketEnd::OutOfMemory => {}
    }
}

// Reads on for a while. A connection that is closed before all was read is reset, and then the client may miss what it was
// told last.
fn linger<R: Clock>(rt: &R, mut stream: &TcpStream) -> io::Result<()> {
    stream.shutdown(Shutdown::Write)?;
    let began = Instant::now(rt)?;
    let mut piece = [0; PIECE];
    for _ in 0..MOST_READS {
        let waited = Instant::now(rt)?.saturating_duration_since(began);
        let left = Duration::from_secs(PARTING).saturating_sub(waited);
        if left.is_zero() {
            break;
        }
        stream.set_read_timeout(Some(left))?;
        if stream.read(&mut piece)? == 0 {
            break;
        }
    }
    Ok(())
}
