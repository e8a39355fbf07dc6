//! Positions and legal play (Laws of Duplicate Bridge 2017, Laws 44 and 45).
#![tactic(auto)]

mod interval;
mod laws;
mod play_fault;
mod position;
mod trick_start;
mod trick_winner;
mod turn;

pub use interval::Interval;
pub use laws::{
    claims, claims_by_high_cards, play_keeps_positions, value_by_play, value_within_tricks,
    winner_by_strength, worked_deals,
};
pub use play_fault::PlayFault;
pub use position::Position;
pub use trick_start::TrickStart;
pub use trick_winner::winner;
