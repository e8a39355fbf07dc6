//! Requests as lines of JSON, and the replies that tell their answers.
#![tactic(auto)]

mod explained;
mod explained_want;
mod fault;
mod fault_field;
mod fault_words;
mod finder;
mod health;
mod id;
mod laws;
mod line_asked;
mod line_reply;
mod on_trick;
mod par_reader;
mod par_reply;
mod par_request;
mod play_reader;
mod play_reply;
mod reply;
mod request_reader;
mod session_asked;
mod target_reader;
mod usual_asked;
mod usual_reader;
mod usual_want;
mod want;
mod want_reader;
mod wish;

pub use explained::explained_reply;
pub use explained_want::{NamedAsked, read_explained};
pub use fault::Fault;
pub use fault_words::{words_of, write_explained};
pub use finder::Finder;
pub use health::{Health, write_health};
pub use id::{IdText, named_reply};
pub use laws::{
    one_explained_want, one_meaning, one_want, worked_explained_wants, worked_lines, worked_wants,
};
pub use line_asked::LineAsked;
pub use line_reply::{LONGEST_ANSWER, put_reply};
pub use par_reply::write_par;
pub use par_request::{Conditions, ParOfDeal, ParOfResults};
pub use play_reply::{TRACE_ROOM, push_trace, write_trace};
pub use reply::{
    CARDS_ROOM, JOB_ROOM, TABLE_ROOM, push_cards, push_job, push_table, write_answer, write_fault,
    write_numbered_fault, write_spent, write_table,
};
pub use request_reader::read_request;
pub use session_asked::SessionAsked;
pub use want::Want;
pub use want_reader::read_want;
pub use wish::{LONGEST_WAIT, Wish};
