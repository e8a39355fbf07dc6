//! The server, with a client of the same process.
pub mod client;
mod clients;
mod descriptors;
mod gate;
mod health;
mod idle;
mod pages;
mod pieces;
mod rows;
mod runs;
pub mod serving;
mod short;
mod waits;
