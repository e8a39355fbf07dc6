//! How a run is ended, and how the server is stopped.
ghost use Rattle.std.specs.Prelude.{◌≡◌, Err};

use crate::args::ServeFault;
use crate::open_streams::OpenStreams;
use crate::stop_flag::{FlagIsSet, StopFlag};
use dd_book::Reply;
use dd_desk::DeskFault;
use std::alloc::Global;
use std::io;
use std::net::{Shutdown, TcpListener, TcpStream};
use std::os::fd::OwnedFd;
use std::sync::atomic::AtomicBool;
use std::sync::{Mutex, Wait};

/// Ends what the threads of a run wait for: a search by the flag, each session's read by shutting its stream. None of it needs
/// a descriptor, which may all be in use.
#[derive(Drop)]
pub(crate) struct RunStop {
    flag: StopFlag,
    streams: Mutex<OpenStreams>,
}

impl RunStop {
    /// Nothing is ended yet.
    pub(crate) fn new(alloc: Global) -> RunStop {
        RunStop {
            flag: StopFlag::new(),
            streams: Mutex::new(OpenStreams::new(alloc)),
        }
    }

    /// Ends the run, once its book was asked to shut: it said this, and not that it found no memory.
    pub(crate) fn end<R: Wait>(&self, rt: &R, _said: &Result<Reply, DeskFault>) -> FlagIsSet
        requires { _said.now ≡ Err DeskFault.OutOfMemory → ⊥ }
    {
        let is_set = self.flag.set();
        self.streams.lock(rt).stop(is_set);
        is_set
    }

    /// Whether the run is ended.
    pub(crate) fn is_ended(&self) -> bool {
        self.flag.is_set()
    }

    /// The flag that ends a search.
    pub(crate) fn flag(&self) -> &AtomicBool {
        self.flag.flag()
    }

    /// The streams of the connections that are served.
    pub(crate) fn streams(&self) -> &Mutex<OpenStreams> {
        &self.streams
    }
}

/// Ends what the server waits for: the accept, by shutting the listener. That needs no descriptor either.
#[derive(Drop)]
pub(crate) struct Stop {
    flag: StopFlag,
    // A second handle of the listener, as a stream, which alone can be shut.
    listener: TcpStream,
}

impl Stop {
    /// Nothing is stopped yet.
    pub(crate) fn new(listener: &TcpListener) -> io::Result<Stop> {
        Ok(Stop {
            flag: StopFlag::new(),
            listener: TcpStream::from(OwnedFd::from(listener.try_clone()?)),
        })
    }

    /// Stops the server, once one of its runs was ended. The others see it and end too.
    pub(crate) fn stop(&self, _ended: FlagIsSet) {
        let is_set = self.flag.set();
        self.shut_listener(is_set);
    }

    /// Stops the server, since it can't go on.
    pub(crate) fn fail(&self, _fault: ServeFault) {
        let is_set = self.flag.set();
        self.shut_listener(is_set);
    }

    // Wakes the accept.
    fn shut_listener(&self, _is_set: FlagIsSet) {
        // A listener that is shut already stays so.
        let _ = self.listener.shutdown(Shutdown::Both);
    }

    /// Whether the server is stopped.
    pub(crate) fn is_stopped(&self) -> bool {
        self.flag.is_set()
    }
}
