//! What one thread learned lately: bounds by shape and first owners, in memory that is taken at the start.
#![tactic(auto)]

mod cache;
mod page;
mod settling_lead;
mod stored_bounds;

pub use cache::Cache;
