//! What the program does on its three standard streams: it answers lines, passes files on, and shows help.
#![tactic(auto)]

mod ahead;
mod ending;
mod filling;
mod listen_fault;
mod options;
mod run;
mod tags;

pub use ending::{Ending, fail};
pub use listen_fault::ListenFault;
pub use options::ServeOptions;
pub use run::{run_streams, run_without_server};
