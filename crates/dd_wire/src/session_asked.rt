use crate::par_request::ParOfResults;
use crate::wish::Wish;

/// What a line of a session asks.
#[derive(Drop)]
pub enum SessionAsked {
    /// A call of the job book, and how long its reply may wait.
    Book(Wish),
    /// Par of twenty results, which is no job.
    Par(ParOfResults),
    /// How the run is, which is no job either.
    Health,
}
