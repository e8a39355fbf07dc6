use crate::want::Want;

/// The longest wait, in milliseconds.
pub const LONGEST_WAIT: u64 = 60_000;

/// What a line of a session wants of the job book, and how long the reply may wait for the end of the job.
#[derive(Drop)]
pub struct Wish {
    /// What is wanted.
    pub want: Want,
    /// The wait in milliseconds, 0 to 60,000. Only a job that is submitted or fetched has an end that a wait is for.
    pub wait: u64,
}
