//! The cards of bridge and sets of them: suits, ranks, cards, seats, sides, strains, holdings and hands.
//!
//! Codes are those of the DDS library's manual. Nothing here takes memory.
#![tactic(auto)]

mod card;
mod hand;
mod hands;
mod holding;
mod place;
mod rank;
mod seat;
mod side;
mod strain;
mod suit;

pub use card::Card;
pub use hand::Hand;
pub use hands::Hands;
pub use holding::Holding;
pub use place::Place;
pub use rank::Rank;
pub use seat::Seat;
pub use side::Side;
pub use strain::Strain;
pub use suit::Suit;
