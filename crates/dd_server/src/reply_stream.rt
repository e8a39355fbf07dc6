//! A connection's stream, as its replies are written to it.
ghost use Rattle.std.specs.Prelude.{◌≡◌, ◌≤◌, IfOk, IfSome, length};
ghost use Rattle.std.specs.Duration.{as_nanos};
ghost use Rattle.dd_server.specs.ReplyWaits.{held, left_after};

use crate::stop::RunStop;
use std::io;
use std::io::{Error, ErrorKind, Write};
use std::net::TcpStream;
use std::time::{Clock, Duration, Instant};

/// For how many seconds one call waits for its client, at most.
pub(crate) const CALL_WAIT: u64 = 2;

/// For how many seconds a reply may wait for its client in all.
const REPLY_WAIT: u64 = 60;

/// For how many seconds all replies after a stop may.
const LAST_WAIT: u64 = 10;

/// The most calls of one write that wait in vain.
const MOST_CALLS: u32 = 64;

/// A stream whose client has some time for each reply, however little it takes of it at once.
#[derive(Drop)]
pub(crate) struct ReplyStream<'a, R> {
    rt: &'a R,
    stream: &'a TcpStream,
    stop: &'a RunStop,
    // How long the reply that is written may still wait.
    left: Duration,
}

impl<'a, R> ReplyStream<'a, R> {
    pub(crate) fn new(rt: &'a R, stream: &'a TcpStream, stop: &'a RunStop) -> ReplyStream<'a, R> {
        ReplyStream {
            rt,
            stream,
            stop,
            left: Duration::from_secs(REPLY_WAIT),
        }
    }
}

impl<R: Clock> ReplyStream<'_, R> {
    // One call, whose wait is counted. `None` where the client took nothing and has time left.
    fn send(&mut self, buf: &[u8]) -> io::Result<Option<usize>>
        ensures { IfOk result (λ sent. IfSome sent (λ count. count ≤ length buf.now)) }
    {
        let mut stream = self.stream;
        let began = Instant::now(self.rt)?;
        let sent = stream.write(buf);
        let waited = Instant::now(self.rt)?.saturating_duration_since(began);
        let is_out = matches!(sent, Ok(count) if count == buf.len());
        self.left = left_after(self.stop.is_ended(), is_out, self.left, waited);
        match sent {
            Ok(count) if is_out || !self.left.is_zero() => Ok(Some(count)),
            Err(error) if error.kind() != ErrorKind::WouldBlock => Err(error),
            Err(_) if !self.left.is_zero() => Ok(None),
            _ => Err(Error::from(ErrorKind::TimedOut)),
        }
    }
}

impl<R: Clock> Write for ReplyStream<'_, R> {
    // A write whose time ran out is no `WouldBlock`: after one, a WebSocket reads on, and a client that sends pings and reads
    // nothing would never be cut off.
    fn write(&mut self, buf: &[u8]) -> io::Result<usize> {
        for _ in 0..MOST_CALLS {
            if let Some(count) = self.send(buf)? {
                return Ok(count);
            }
        }
        Err(Error::from(ErrorKind::TimedOut))
    }

    fn flush(&mut self) -> io::Result<()> {
        Ok(())
    }
}

/// What there is of a wait in a run that is stopped or not.
fn held(is_stopped: bool, left: Duration) -> Duration
    ensures { as_nanos result ≡ held is_stopped (as_nanos left) }
{
    let last = Duration::from_secs(LAST_WAIT);
    if is_stopped && left > last {
        last
    } else {
        left
    }
}

/// What is left of a wait after a call that waited so long, which sent the reply to its end or not. A reply that is out leaves
/// the next one the whole wait, but after a stop.
fn left_after(is_stopped: bool, is_out: bool, left: Duration, waited: Duration) -> Duration
    ensures { as_nanos result ≡ left_after is_stopped is_out (as_nanos left) (as_nanos waited) }
{
    if is_out && !is_stopped {
        Duration::from_secs(REPLY_WAIT)
    } else {
        held(is_stopped, left).saturating_sub(waited)
    }
}
