//! How much is held at most, by tables, job books and their callers.
#![tactic(auto)]

mod limits;

pub use limits::{MOST_EVENTS, MOST_JOBS, MOST_OPEN_JOBS, MOST_PASSES, MOST_SHAPES, MOST_SHARDS};
