//! Tests of the table that threads share.
mod front;
mod kept;
mod positions;
mod threads;
mod view;
