//! Tests of the desk.
mod at_once;
mod checked;
mod reserved;
mod rows;
mod threads;
mod waits;
pub mod worked;
