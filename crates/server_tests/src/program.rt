//! Tests of the program, by the words of its command line and its streams.
mod ahead;
mod asking;
mod budgets;
mod devices;
mod files;
mod given;
mod idle;
mod leave;
mod limits;
mod runs;
mod served;
mod words;
