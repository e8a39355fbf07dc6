//! A connection's stream, as its session over a WebSocket sees it.
use crate::reply_stream::ReplyStream;
use crate::run_state::RunState;
use crate::session_stream::SessionStream;
use crate::terms::RunNaming;
use std::cell::Cell;
use std::io;
use std::io::{Error, ErrorKind, Read, Write};
use std::net::TcpStream;
use std::sync::Wait;
use std::time::{Clock, Duration, Instant};

/// For how many seconds a client may shake hands.
const HANDSHAKE_WAIT: u64 = 10;

/// A stream whose client has some time to shake hands, and for each reply.
#[derive(Drop)]
pub(crate) struct SocketStream<'a, J: RunNaming, R> {
    rt: &'a R,
    stream: &'a TcpStream,
    reads: SessionStream<'a, J, R>,
    replies: ReplyStream<'a, R>,
    // How long the handshake may still wait for the client. `None` once it was answered.
    left: Option<Duration>,
}

impl<'a, J: RunNaming, R> SocketStream<'a, J, R> {
    pub(crate) fn new(
        rt: &'a R,
        state: &'a RunState<'a, J>,
        stream: &'a TcpStream,
        caller: &'a Cell<Option<u64>>,
    ) -> SocketStream<'a, J, R> {
        SocketStream {
            rt,
            stream,
            reads: SessionStream::new(rt, state, stream, caller),
            replies: ReplyStream::new(rt, stream, &state.stop),
            left: Some(Duration::from_secs(HANDSHAKE_WAIT)),
        }
    }
}

impl<J: RunNaming, R: Wait + Clock> Read for SocketStream<'_, J, R> {
    fn read(&mut self, buf: &mut [u8]) -> io::Result<usize> {
        let Some(left) = self.left else {
            return self.reads.read(buf);
        };
        if left.is_zero() {
            return Err(Error::from(ErrorKind::TimedOut));
        }
        self.stream.set_read_timeout(Some(left))?;
        let began = Instant::now(self.rt)?;
        let count = self.reads.read(buf)?;
        let waited = Instant::now(self.rt)?.saturating_duration_since(began);
        self.left = Some(left.saturating_sub(waited));
        Ok(count)
    }
}

impl<J: RunNaming, R: Wait + Clock> Write for SocketStream<'_, J, R> {
    // What is written first answers the handshake.
    fn write(&mut self, buf: &[u8]) -> io::Result<usize> {
        if self.left.take().is_some() {
            self.reads.limit_reads()?;
        }
        self.replies.write(buf)
    }

    fn flush(&mut self) -> io::Result<()> {
        self.replies.flush()
    }
}
