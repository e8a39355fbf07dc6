//! What was learned of the values of positions, by shapes, the last used first, in bounded memory.
#![tactic(auto)]

mod shard;
mod slot;

pub use shard::Shard;
