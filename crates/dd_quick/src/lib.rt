//! Quick tricks: bounds of a position's value without search. It takes no memory.
#![tactic(auto)]

mod crossing;
mod guarded_trump;
mod joint_trumps;
mod kept_winners;
mod later_trick;
mod long_suit;
mod quick_tricks;
mod second_hand;
mod sharing;
mod told_shares;
mod winners;

pub use quick_tricks::{against_leader, bounds, for_leader};
pub use second_hand::for_second_hand;
pub use sharing::Shares;
pub use told_shares::{
    for_leader_across, for_leader_by, for_second_hand_across, for_second_hand_by,
};
