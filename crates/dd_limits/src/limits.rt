//! The limits, each a number.

/// The most shapes that a shard of a table may have room for.
pub const MOST_SHAPES: u32 = 65_536;

/// The most shards that a table may have.
pub const MOST_SHARDS: u32 = 256;

/// The most open jobs of a caller.
pub const MOST_OPEN_JOBS: u64 = 64;

/// The most jobs of a book.
pub const MOST_JOBS: u64 = 1_048_576;

/// The most passes of a desk.
pub const MOST_PASSES: u64 = 65_536;

/// The most events of a journal.
pub const MOST_EVENTS: u64 = 1_048_576;
