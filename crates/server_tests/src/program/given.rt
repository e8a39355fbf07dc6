//! A runtime that gives a listener of the test's to whoever binds one.
use std::fmt::Display;
use std::io;
use std::net::{Net, SocketAddr, TcpListener, TcpStream};
use std::sync::Wait;
use std::thread::Threads;
use std::time::{Clock, Duration};

/// The runtime, with the listener of which each bind gets a handle, whatever the address. So a test can shut the listener of a
/// program that no client may stop.
#[derive(Drop)]
pub struct Given<'a, R> {
    pub rt: &'a R,
    pub listener: &'a TcpListener,
}

impl<R: Wait> Wait for Given<'_, R> {}

impl<R: Threads> Threads for Given<'_, R> {}

impl<R: Eprint> Eprint for Given<'_, R> {
    fn eprint<D: Display + Drop>(&self, value: D) -> io::Result<()> {
        self.rt.eprint(value)
    }

    fn eprintln<D: Display + Drop>(&self, value: D) -> io::Result<()> {
        self.rt.eprintln(value)
    }
}

impl<R: Clock> Clock for Given<'_, R> {
    fn monotonic(&self) -> io::Result<Duration> {
        self.rt.monotonic()
    }

    fn since_1970(&self) -> io::Result<Duration> {
        self.rt.since_1970()
    }

    fn sleep(&self, duration: Duration) {
        self.rt.sleep(duration)
    }
}

impl<R: Net<Listener = TcpListener, Stream = TcpStream>> Net for Given<'_, R> {
    type Stream = TcpStream;

    type Listener = TcpListener;

    fn bind(&self, _addr: SocketAddr) -> io::Result<TcpListener> {
        self.listener.try_clone()
    }

    fn connect(&self, addr: SocketAddr) -> io::Result<TcpStream> {
        self.rt.connect(addr)
    }
}
