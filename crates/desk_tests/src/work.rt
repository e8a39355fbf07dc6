//! Tests of the workers.
mod ahead;
mod budgets;
mod cancelled;
mod gate;
mod lines;
mod rows;
mod short;
mod worked;
