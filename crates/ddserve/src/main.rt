//! The line tool: `ddserve solve` answers the request lines of the standard input on the standard output; and the server:
//! `ddserve serve` answers the clients of an address.
//!
//! It ends with status 0 at the end of the input, after a client's stop and after help, 1 where a device or the listener
//! failed or memory ran out outside a line, and 2 at a bad line of arguments.
#![tactic(auto)]

use dd_command::given_arguments;
use dd_lines::CountedDevice;
use dd_program::{Unwatched, run_program};
use std::io;
use std::io::IsTerminal;
use std::process::ExitCode;

fn main(rt: HostRuntime) -> ExitCode {
    let mut input = CountedDevice::new(rt.reader());
    let mut output = CountedDevice::new(io::writer(&rt));
    let mut errors = CountedDevice::new(rt.stderr());
    let is_terminal = rt.stderr().is_terminal();
    let arguments = given_arguments(&rt);
    run_program::<_, _, _, _, Unwatched, Unwatched>(
        &rt,
        rt.alloc(),
        arguments,
        &mut input,
        &mut output,
        &mut errors,
        is_terminal,
        &mut Unwatched,
    )
    .exit_code()
}
