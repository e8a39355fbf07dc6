/// How far a journal is, and how much of the book is open.
#[derive(Clone, Copy, Debug, PartialEq, Eq)]
pub struct Tally {
    /// How many events the journal still has room for.
    pub events_left: u64,
    /// How many jobs are open, of all callers.
    pub open_jobs: u64,
}
