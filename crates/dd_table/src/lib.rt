//! A table of bounds that threads share: shards behind locks, and exact values in cells that are set once and read without
//! waiting.
#![tactic(auto)]

mod entry;
mod front;
mod laws;
mod note;
mod shared_table;
mod view;

pub use entry::FrontEntry;
pub use front::front_slot;
pub use laws::alike_positions_meet;
pub use note::FrontNote;
pub use shared_table::{FRONT_CELLS, SharedTable};
pub use view::View;
