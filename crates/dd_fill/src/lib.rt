//! Files of PBN with the results of their deals, which are searched for.
#![tactic(auto)]

mod analyst;
mod answered;
mod deal;
mod filling;
mod limit;
mod note;
mod pool;
mod progress;
mod solving;
mod strain_queue;

pub use filling::fill_deals;
