//! Tests of sessions, the server and the program, by their public surfaces.
#![tactic(auto)]

#[cfg(test)]
mod program;
#[cfg(test)]
mod server;
#[cfg(test)]
mod session;
