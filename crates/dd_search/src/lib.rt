//! How many tricks a card wins when both sides play as well as can be. It takes no memory of its own.
#![tactic(auto)]

mod card_reaches;
mod card_scores;
mod claim;
mod cutoffs;
mod halt_word;
mod kept_count;
mod known_tricks;
mod laws;
mod placed_untried;
mod position_value;
mod quick_count;
mod quick_limit;
mod rank_verdict;
mod relative_cutoffs;
mod relative_root;
mod relative_window;
mod second_hands;
mod start;
mod ticking;
mod verdict;
mod winning_ranks;
mod zero_window;

pub use card_reaches::reaches;
pub use card_scores::{score, score_up_to};
pub use known_tricks::value_at_least;
pub use laws::value_is_the_greatest_score;
pub use position_value::{value, value_from_guess};
pub use start::{start_value, start_value_for_first, start_value_from_guess};
