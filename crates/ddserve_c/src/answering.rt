//! The reply to one line, in a buffer.
ghost use Rattle.std.specs.Prelude.{◌≡◌, ◌<◌, ◌+◌, ◌∷◌, ◌++◌, length, drop};
ghost use Rattle.ddserve_c.specs.Calls.{AnswersLine};

use crate::solver_cache::SolverCache;
use std::alloc::Global;

/// What a call for a line answers in place of the reply's length: the solver is not open; the reply and its NUL have more bytes
/// than the buffer; the line has a line feed.
pub(crate) const NOT_OPEN: i64 = -1;

pub(crate) const NO_ROOM: i64 = -2;

pub(crate) const NO_LINE: i64 = -3;

const LINE_FEED: u8 = b'\n';

/// Answers a line: its reply as a text that ends with NUL.
pub(crate) fn answer_line(
    alloc: Global,
    cache: &mut SolverCache,
    line: &[u8],
    buffer: &mut [u8],
) -> i64
    ensures { AnswersLine line.now buffer.old buffer.new result }
{
    if line.contains(&LINE_FEED) {
        return NO_LINE;
    }
    let reply = cache.reply_to(alloc, line);
    let text = reply.as_str().as_bytes();
    if text.len() >= buffer.len() {
        return NO_ROOM;
    }
    put_text(text, buffer);
    text.len() as i64
}

/// The buffer begins with the text and a NUL.
fn put_text(text: &[u8], buffer: &mut [u8])
    requires { length text.now < length buffer.old }
    ensures { buffer.new ≡ text.now ++ 0 ∷ drop (length text.now + 1) buffer.old }
{
    buffer[..text.len()].copy_from_slice(text);
    buffer[text.len()] = 0;
}
