//! What holds of every run of many threads over a book, a journal and a table, whatever the order of their steps.
#![tactic(auto)]

mod law;

pub use law::{runs_law, steps_may_come, world_law};
