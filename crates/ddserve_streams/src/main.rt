//! `ddserve` without its server: `solve` answers the request lines of the standard input on the standard output, and `pbn` passes a
//! file on with its lines. It stands on less than `ddserve` does, so that it is proved and built sooner.
//!
//! It ends with status 0 at the end of the input and after help, 1 where a device failed or memory ran out outside a line, and 2 at
//! a bad line of arguments, and where these ask for a server.
#![tactic(auto)]

use dd_command::given_arguments;
use dd_lines::CountedDevice;
use dd_solve::DoubleDummy;
use dd_streams::run_without_server;
use std::io;
use std::io::IsTerminal;
use std::process::ExitCode;

fn main(rt: HostRuntime) -> ExitCode {
    let mut input = CountedDevice::new(rt.reader());
    let mut output = CountedDevice::new(io::writer(&rt));
    let mut errors = CountedDevice::new(rt.stderr());
    let is_terminal = rt.stderr().is_terminal();
    let arguments = given_arguments(&rt);
    run_without_server(
        &rt,
        rt.alloc(),
        &DoubleDummy,
        arguments,
        &mut input,
        &mut output,
        &mut errors,
        is_terminal,
    )
    .exit_code()
}
