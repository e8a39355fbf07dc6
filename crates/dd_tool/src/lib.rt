//! The line tool: each line of a stream is answered by itself, by one thread or by many, and the replies keep their order.
#![tactic(auto)]

mod answered;
mod laws;
mod line_queue;
mod line_reply;
mod pool;
mod searcher;
mod solver;
mod workers;

pub use laws::{a_reply_is_one_line, one_output, one_reply};
pub use line_reply::{explained_reply, put_reply_to_line, reply_to_line};
pub use pool::{Pool, answer_ahead};
pub use solver::{solve_lines, tell_lines};
pub use workers::{solve_lines_ahead, solve_lines_on, tell_lines_ahead, tell_lines_on};
