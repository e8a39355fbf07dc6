//! What a server is asked for.

/// What the arguments of `serve` ask for, each number in the range that they have.
#[derive(Debug, Drop, PartialEq, Eq)]
pub struct ServeOptions {
    /// The address as it was given.
    pub listen: String,
    /// The threads that search, 1 to 64.
    pub workers: u32,
    /// The shards of the transposition table, 1 to 256.
    pub shards: u32,
    /// The entries of each shard, 1 to `MOST_SHAPES`.
    pub entries: u32,
    /// The most positions that the search may visit for each job or part of one, 1 to 1,000,000,000,000. `None` is no limit.
    pub budget: Option<u64>,
    /// The most events of each run, 1,024 to 1,048,576.
    pub events: u32,
    /// For how many seconds a connection without an open job may be silent, 1 to 86,400. `None` is no limit.
    pub idle: Option<u64>,
    /// Each connection is a WebSocket.
    pub websocket: bool,
    /// A client may stop the program.
    pub allow_stop: bool,
    /// A line may have an id, which its reply tells again, and a fault has its field and words.
    pub explain: bool,
}
