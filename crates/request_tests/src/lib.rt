//! Tests of requests, replies, lines and the job book, by their public surfaces, and what the tests of the crates above use
//! of them: devices of memory, rows, lines that take a search, and calls and replies in words and as plain values.
#![tactic(auto)]

pub mod book;
pub mod devices;
#[cfg(test)]
mod lines;
#[cfg(test)]
mod reply;
pub mod rows;
pub mod searched;
