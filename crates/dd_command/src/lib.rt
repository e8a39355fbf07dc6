//! The program's command line: its arguments, what they ask for, and its help.
#![tactic(auto)]

mod command_line;
mod examples;
mod help;
mod jobs_help;

pub use command_line::{
    Args, ArgumentsFault, LEAST_EVENTS, MOST_WORKERS, VERSION, given_arguments, not_text, read_args,
};
