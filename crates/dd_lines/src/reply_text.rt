//! The text of a reply.
use arrayvec::ArrayString;

/// The most bytes of a reply without its line feed.
pub const LONGEST_REPLY: usize = 1_024;

/// The most bytes of a reply with its line feed.
const LONGEST_REPLY_LINE: usize = LONGEST_REPLY + 1;

/// The text of a reply, with room for its line feed.
pub type ReplyText = ArrayString<LONGEST_REPLY_LINE>;
