//! How sessions answer.

/// How a session answers.
#[derive(Clone, Copy, Debug, PartialEq, Eq)]
pub struct Manner {
    /// A client may stop the server. Else a stop is no more known than any other word.
    pub allow_stop: bool,
    /// A line may have an id, which its reply tells again, and a fault has its field and words beside its number.
    pub explain: bool,
}
