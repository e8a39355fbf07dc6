//! The server: runs that follow one another, each with connections and workers on threads of their own, over one desk.
#![tactic(auto)]

mod accepting;
mod args;
mod connection;
mod looks;
mod new_pass;
mod open_streams;
mod opening;
mod own_pass;
mod parting;
mod reply_stream;
mod returned;
mod roster;
mod run;
mod run_end;
mod run_port;
mod run_state;
mod runs;
mod server;
mod server_state;
mod session_stream;
mod short_jobs;
mod socket_stream;
mod stop;
mod stop_flag;
mod telling;
mod terms;
mod wear;
mod worker_gate;
mod working;

pub use args::{ServeArgs, ServeFault};
pub use server::run_server;
pub use telling::{KeepsRuns, TellsRuns};
pub use terms::Terms;
