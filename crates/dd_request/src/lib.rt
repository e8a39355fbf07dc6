//! What may be asked of a position, of hands or of a play, and what it is answered with: the classes of cards with their scores, those
//! that reach a target, the twenty results, and the tricks after each card. Nothing is solved here: a request with its answer holds by
//! its type what exhaustive play gives, and who makes one shows that. Who answers is a `Solver`.
#![tactic(auto)]

mod answer;
mod asked;
mod card_fault;
pub mod fault_numbers;
mod play_request;
mod request;
mod solved;
mod solved_part;
mod solved_play;
mod solved_table;
mod solved_target;
mod solver;
mod table_request;
mod target_request;

pub use answer::{Answer, MOST_CLASSES, Scored};
pub use asked::Asked;
pub use card_fault::CardFault;
pub use play_request::{MOST_CARDS, PlayRequest};
pub use request::Request;
pub use solved::Solved;
pub use solved_part::SolvedPart;
pub use solved_play::{MOST_NUMBERS, PlayPart, SolvedPlay, Trace};
pub use solved_table::{RESULTS, Results, SolvedTable};
pub use solved_target::SolvedTarget;
pub use solver::Solver;
pub use table_request::{PARTS, TableRequest};
pub use target_request::{GREATEST_TARGET, TargetRequest};
