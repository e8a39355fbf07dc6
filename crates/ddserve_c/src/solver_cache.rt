//! What a solver keeps between its lines.
ghost use Rattle.std.specs.Prelude.{◌≡◌, ◌≤◌};
ghost use Rattle.arrayvec.specs.ArrayString.{array_string_len};
ghost use Rattle.dd_wire.specs.LineReplies.{IsReply};

use dd_bounds::NoTable;
use dd_cache::Cache;
use dd_lines::{LONGEST_REPLY, ReplyText};
use dd_solve::DoubleDummy;
use dd_tool::reply_to_line;
use std::alloc::{AllocError, Global};

/// What was learned from the lines before. No reply depends on it.
#[derive(Drop)]
pub struct SolverCache {
    cache: Cache<NoTable>,
}

impl SolverCache {
    /// Nothing was learned. All its memory is taken here.
    pub(crate) fn new(alloc: Global) -> Result<SolverCache, AllocError> {
        let cache = Cache::new(alloc, NoTable)?;
        Ok(SolverCache { cache })
    }

    /// The reply to a line without a line feed.
    pub(crate) fn reply_to(&mut self, alloc: Global, line: &[u8]) -> ReplyText
        ensures text { IsReply ⊥ line.now result.bytes }
        ensures bound { array_string_len result ≤ LONGEST_REPLY }
    {
        reply_to_line(alloc, line, &DoubleDummy, &mut self.cache, None)
    }
}
