//! A connection's stream, as its session sees it.
ghost use Rattle.std.specs.Prelude.{◌≡◌, ◌+◌, false, MatchOption, MatchResult};
ghost use Rattle.std.specs.Io.{ReadsAtMost};

use crate::looks::Looks;
use crate::run_state::RunState;
use crate::terms::RunNaming;
use std::cell::Cell;
use std::io;
use std::io::{Error, ErrorKind, Read};
use std::net::TcpStream;
use std::sync::Wait;
use std::time::Duration;

// The most bytes that are read after a stop, more than Linux keeps for a stream: what was received before the stop is
// answered, and a client that goes on sending holds nothing up.
const READ_AFTER_STOP: usize = 16_777_216;

/// A stream that ends soon after its run, whatever its client still sends, and where its client is idle: it sends nothing and has
/// no open job.
#[derive(Drop)]
pub(crate) struct SessionStream<'a, J: RunNaming, R> {
    rt: &'a R,
    state: &'a RunState<'a, J>,
    stream: &'a TcpStream,
    // The number of the session's pass, once it has one.
    caller: &'a Cell<Option<u64>>,
    // The bytes that may be read after a stop.
    left: usize,
}

impl<'a, J: RunNaming, R> SessionStream<'a, J, R> {
    pub(crate) fn new(
        rt: &'a R,
        state: &'a RunState<'a, J>,
        stream: &'a TcpStream,
        caller: &'a Cell<Option<u64>>,
    ) -> SessionStream<'a, J, R> {
        SessionStream {
            rt,
            state,
            stream,
            caller,
            left: READ_AFTER_STOP,
        }
    }

    /// Each read waits so long for its client as a session may be silent.
    pub(crate) fn limit_reads(&self) -> io::Result<()> {
        let most = self.state.server.args.idle.map(Duration::from_millis);
        self.stream.set_read_timeout(most)
    }

    // One read, which gives `WouldBlock` where nothing came for so long as a session may be silent.
    fn read_once(&mut self, buf: &mut [u8]) -> io::Result<usize>
        ensures bound { ReadsAtMost result buf.new }
    {
        let mut stream = self.stream;
        if !self.state.stop.is_ended() {
            return stream.read(buf);
        }
        read_last(&mut stream, buf, &mut self.left)
    }
}

impl<J: RunNaming, R: Wait> SessionStream<'_, J, R> {
    // May the session be silent still?
    fn has_open_job(&self) -> bool {
        is_open(&self.state.looks(self.rt), self.caller.get())
    }
}

impl<J: RunNaming, R: Wait> Read for SessionStream<'_, J, R> {
    fn read(&mut self, buf: &mut [u8]) -> io::Result<usize> {
        for _ in 0..u64::MAX {
            match self.read_once(buf) {
                // A read with a limit ends so where the process was stopped and goes on.
                Err(error) if error.kind() == ErrorKind::Interrupted => {}
                Err(error) if error.kind() == ErrorKind::WouldBlock => {
                    if !self.has_open_job() {
                        break;
                    }
                }
                read => return read,
            }
        }
        Err(Error::from(ErrorKind::TimedOut))
    }
}

// Has this caller an open job? Who has no pass has none.
fn is_open<D: Looks>(looks: &D, caller: Option<u64>) -> bool
    ensures { MatchOption caller (result ≡ false) (λ number. D.saw_open looks.now number result) }
{
    match caller {
        Some(number) => looks.has_open(number),
        None => false,
    }
}

// A read after a stop: what it takes is taken off what is left.
fn read_last<S: Read>(stream: &mut S, buf: &mut [u8], left: &mut usize) -> io::Result<usize>
    ensures bound { ReadsAtMost result buf.new }
    ensures left { MatchResult result (λ count. left.new + count ≡ left.old)
        (λ _. left.new ≡ left.old) }
{
    let most = buf.len().min(*left);
    let count = stream.read(&mut buf[..most])?;
    *left -= count;
    Ok(count)
}
