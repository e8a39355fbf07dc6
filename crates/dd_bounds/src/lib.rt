//! What a search is given: a table that tells it bounds of positions, and a meter that says how long it may go on.
#![tactic(auto)]

mod meter;
mod table;

pub use meter::{Budget, Endless, Halt, Meter, Tick};
pub use table::{Bounds, LeadHistory, NoTable, ProbeHint};
