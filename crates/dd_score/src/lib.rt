//! Duplicate scores of contracts (Laws of Duplicate Bridge 2017, Law 77) and par: what both sides can make sure of in an
//! auction (Laws 17 to 22) in which all twenty double dummy results are seen.
//!
//! Codes are those of the DDS library's manual. Nothing here takes memory.
#![tactic(auto)]

mod bid;
mod contract_score;
mod contract_worth;
mod doubling;
mod highest_bettering;
mod laws;
mod order;
mod par_contract;
mod par_list;
mod par_of_results;
mod par_score;
mod point_table;
mod results;
mod vulnerable;
mod worths;

pub use bid::Bid;
pub use contract_score::points;
pub use contract_worth::worth;
pub use doubling::Doubling;
pub use laws::an_auction_has_one_value;
pub use order::Order;
pub use par_contract::{Declarers, ParContract};
pub use par_of_results::{ParResult, par};
pub use results::Results;
pub use vulnerable::Vulnerable;
