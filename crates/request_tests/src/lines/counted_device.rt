use dd_lines::CountedDevice;
use std::io;
use std::io::{Error, ErrorKind, Read, Write};

/// Answers the number of its calls, and takes nothing at all.
#[derive(Drop)]
struct Calls {
    calls: usize,
}

impl Read for Calls {
    fn read(&mut self, buf: &mut [u8]) -> io::Result<usize> {
        self.calls = self.calls.saturating_add(1);
        Ok(self.calls.min(buf.len()))
    }
}

impl Write for Calls {
    fn write(&mut self, _buf: &[u8]) -> io::Result<usize> {
        self.calls = self.calls.saturating_add(1);
        Ok(0)
    }

    fn flush(&mut self) -> io::Result<()> {
        Err(Error::from(ErrorKind::BrokenPipe))
    }
}

#[test]
fn calls_of_a_device_that_works_do_not_fail(rt: HostRuntime) {
    let mut counted = CountedDevice::new(Calls { calls: 0 });
    let counts = [
        counted.read(&mut [0; 8]).ok(),
        counted.read(&mut [0; 8]).ok(),
        counted.write(b"").ok(),
    ];
    assert_eq!(rt; counts, [Some(1), Some(2), Some(0)]);
    assert_eq!(rt; (counted.failures(), counted.into_inner().calls), (0, 3));
}

#[test]
fn a_write_that_takes_nothing_of_something_and_an_error_are_failures(rt: HostRuntime) {
    let mut counted = CountedDevice::new(Calls { calls: 0 });
    let taken = counted.write(b"a").map_err(|error| error.kind());
    assert_eq!(rt; (taken, counted.failures()), (Err(ErrorKind::WriteZero), 1));
    let flushed = counted.flush().map_err(|error| error.kind());
    assert_eq!(rt;
        (flushed, counted.failures()),
        (Err(ErrorKind::BrokenPipe), 2)
    );
}
