//! How a run of the program ends.
ghost use Rattle.std.specs.Prelude.{◌≡◌};
ghost use Rattle.std.specs.Process.{exit_status};
ghost use Rattle.dd_streams.specs.Endings.{line_of, no_server_line, state_of, status_of, Writes};

use crate::listen_fault::ListenFault;
use dd_lines::{CountedDevice, write_whole};
use std::io::Write;
use std::process::ExitCode;

/// What is said where a program without a server is asked for one.
const NO_SERVER: &str =
    "ddserve: this program has no server; ./ddserve serve starts the one that has\n";

/// How a run ended.
#[derive(Clone, Copy, Debug, PartialEq, Eq)]
pub enum Ending {
    /// Each line of the input was answered.
    Answered,
    /// Help or the version was asked for, and shown.
    Shown,
    /// Clients were served until one of them stopped the program.
    Closed,
    /// The file was passed on with its lines.
    Filled,
    /// The arguments ask for nothing that the program does.
    BadLine,
    /// A read of the input failed.
    ReadFailed,
    /// A write of the output failed.
    WriteFailed,
    /// The address can't be listened at.
    CannotListen(ListenFault),
    /// No more connections could be accepted.
    ListenFailed,
    /// Memory ran out outside a line, or a worker's thread could not be had.
    OutOfMemory,
}

impl Ending {
    /// The line that the standard error gets of it, with its line feed. Nothing is said of an ending that is no failure,
    /// nor here of a bad line, which the reader of the arguments explains.
    pub fn line(self) -> &'static str
        ensures { result.now ≡ line_of self }
    {
        match self {
            Ending::ReadFailed => "ddserve: read failed\n",
            Ending::WriteFailed => "ddserve: write failed\n",
            Ending::CannotListen(fault) => fault.line(),
            Ending::ListenFailed => "ddserve: listen failed\n",
            Ending::OutOfMemory => "ddserve: out of memory\n",
            Ending::Answered | Ending::Shown | Ending::Closed | Ending::Filled | Ending::BadLine =>
                "",
        }
    }

    /// 0 where what the arguments ask for was done, 1 after a fault of a device or of the listener or lack of memory, 2 at
    /// a bad line.
    pub fn status(self) -> u8
        ensures { result ≡ status_of self }
    {
        match self {
            Ending::Answered | Ending::Shown | Ending::Closed | Ending::Filled => 0,
            Ending::ReadFailed
            | Ending::WriteFailed
            | Ending::CannotListen(_)
            | Ending::ListenFailed
            | Ending::OutOfMemory => 1,
            Ending::BadLine => 2,
        }
    }

    /// The same as the program's exit code.
    pub fn exit_code(self) -> ExitCode
        ensures { exit_status result ≡ status_of self }
    {
        ExitCode::from(self.status())
    }
}

/// Says on the standard error why the program ends before its work is done, and ends so.
pub fn fail<E: Write>(errors: &mut CountedDevice<E>, ending: Ending) -> Ending
    ensures ending { result ≡ ending }
    ensures says { Writes (line_of ending)
        (state_of E.contents errors.old) (state_of E.contents errors.new) }
{
    // Where it fails too, there is no place left to say so.
    let _ = write_whole(errors, ending.line().as_bytes());
    ending
}

/// Says on the standard error that this program has no server, where its arguments ask for one.
pub(crate) fn refuse_server<E: Write>(errors: &mut CountedDevice<E>) -> Ending
    ensures ending { result ≡ Ending.BadLine }
    ensures says { Writes no_server_line (state_of E.contents errors.old) (state_of E.contents errors.new) }
{
    // Where it fails there is no place left to say so.
    let _ = write_whole(errors, NO_SERVER.as_bytes());
    Ending::BadLine
}
