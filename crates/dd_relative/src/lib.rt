//! Positions by relative ranks: the leader is North, and of each suit the cards left are the highest.
#![tactic(auto)]

mod coming_start;
mod gap;
mod known_start;
mod laws;
mod placed_trick;
mod relative_start;
mod relative_trick;
mod runs;
mod winning_card;
mod winning_ranks;

pub use coming_start::ComingStart;
pub use known_start::KnownStart;
pub use laws::{claims_before, covered_starts, one_relative_start};
pub use placed_trick::PlacedTrick;
pub use relative_start::RelativeStart;
pub use relative_trick::RelativeTrick;
pub use winning_ranks::WinningRanks;
