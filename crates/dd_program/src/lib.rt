//! What the program does: from the arguments of its command line and its streams to its ending.
#![tactic(auto)]

mod run;
mod serving;
mod telling;
mod watching;

pub use run::run_program;
pub use watching::Unwatched;
