//! The answers to what may be asked of a position, of hands or of a play, by the search.
#![tactic(auto)]

mod double_dummy;
mod play_solving;
mod scored_list;
mod solving;
mod table_part;
mod table_solving;
mod target_solving;

pub use double_dummy::DoubleDummy;
pub use play_solving::{solve_play, solve_play_part};
pub use solving::solve;
pub use table_part::{solve_part, solve_part_from_guess};
pub use table_solving::{solve_strain, solve_table};
pub use target_solving::solve_target;
