//! Tests of sessions.
mod explained;
mod faults;
mod leaving;
mod lines;
mod messages;
mod replies;
mod served;
mod sockets;
mod waits;
mod words;
mod worked;
