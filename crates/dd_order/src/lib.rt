//! Which card of a position is tried first, and how many tricks are guessed. It bears on the time alone: what is chosen is one of the cards
//! that are left.
#![tactic(auto)]

mod discard;
mod first_guess;
mod follow;
mod holdings;
mod lead;
mod lead_view;
mod lead_weights;
mod order;
mod placed_discard;
mod placed_follow;
mod placed_order;
mod placed_view;
pub mod suit_lanes;
mod trick_view;
mod turn;

pub use first_guess::guess;
pub use lead::Leading;
pub use order::{MovePicker, Order, weigh_next};
pub use placed_order::{Phase, PlacedPicker, follows, go_on, lead_history, note_lead};
pub use turn::Turn;
