//! The text of the reply to a line that asks for a play.
ghost use Rattle.std.specs.Prelude.{◌≡◌, ◌+◌, ◌≤◌, ◌++◌};
ghost use Rattle.arrayvec.specs.ArrayString.{array_string_len};
ghost use Rattle.dd_wire.specs.PlayReplies.{trace_member, trace_text};

use crate::line_reply::LONGEST_ANSWER;
use crate::reply::push_number;
use dd_lines::{LONGEST_REPLY, ReplyText};
use dd_request::Trace;

/// The most bytes that `push_trace` appends.
pub const TRACE_ROOM: usize = 329;

/// The reply to a request for a play: `{"tricks":[a,b,..]}`, as `push_trace` has the tricks.
pub fn write_trace(trace: &Trace) -> ReplyText
    ensures text { result.bytes ≡ trace_text trace.now }
    ensures bound { array_string_len result ≤ LONGEST_ANSWER }
{
    let mut text = ReplyText::new();
    put_trace(&mut text, trace);
    text
}

/// The same reply in place of another text.
pub(crate) fn put_trace(text: &mut ReplyText, trace: &Trace)
    ensures text { text.new.bytes ≡ trace_text trace.now }
    ensures bound { array_string_len text.new ≤ LONGEST_ANSWER }
{
    text.clear();
    text.push_str("{");
    push_trace(text, trace);
    text.push_str("}");
}

/// Appends the member `"tricks":[a,b,..]`: the tricks of declarer's side before the first card and after each one.
pub fn push_trace(text: &mut ReplyText, trace: &Trace)
    requires room { array_string_len text.old + TRACE_ROOM ≤ LONGEST_REPLY }
    ensures bytes { text.new.bytes ≡ text.old.bytes ++ trace_member trace.now }
    ensures bound { array_string_len text.new ≤ array_string_len text.old + TRACE_ROOM }
{
    text.push_str("\"tricks\":[");
    for (place, tricks) in trace.as_slice().iter().enumerate() {
        if place > 0 {
            text.push_str(",");
        }
        push_number(text, *tricks as u16);
    }
    text.push_str("]");
}
