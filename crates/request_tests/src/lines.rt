//! Lines through `solve_lines`, over devices of memory that give and take little and fail in time, and with threads beside it.
mod ahead;
mod budgets;
mod closing;
mod counted_device;
mod cut;
mod faults;
mod held;
mod ids;
mod pools;
mod runs;
mod served;
mod tables;
