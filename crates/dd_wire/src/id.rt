//! The id of a request, which its reply tells again.
ghost use Rattle.std.specs.Prelude.{◌≡◌, ◌≤◌, ℕ, List, ◌++◌, codes, decimal, option_map, take};
ghost use Rattle.std.specs.List.{list_all};
ghost use Rattle.arrayvec.specs.ArrayString.{array_string_len};
ghost use Rattle.serde_json.specs.View.{view};
ghost use Rattle.dd_wire.specs.Ids.{id_text, is_plain, is_plain_byte, named, plain_id, with_id};

use crate::line_reply::LONGEST_ANSWER;
use arrayvec::ArrayString;
use dd_lines::{LONGEST_REPLY, ReplyText};
use itoa::Buffer;
use serde_json::Value;

/// The most bytes of an id that is a text, and of the name of a field.
pub const LONGEST_PLAIN: usize = 64;

/// The most bytes of an id in a reply: such a text in quotes.
pub const LONGEST_ID: usize = LONGEST_PLAIN + 2;

/// An id as a reply tells it.
pub type IdText = ArrayString<LONGEST_ID>;

/// The id that a value is, if it is one: a whole number, or a short plain text.
pub(crate) fn id_text(value: &Value) -> Option<IdText>
    ensures { option_map (λ id. id.bytes) result ≡ id_text (view value.now) }
{
    match value.as_u64() {
        Some(number) => Some(number_id(number)),
        None => plain_id(value.as_str()?),
    }
}

// The number in decimal.
fn number_id(number: u64) -> IdText
    ensures { result.bytes ≡ decimal number }
{
    let mut id = IdText::new();
    let mut buffer = Buffer::new();
    id.push_str(buffer.format(number));
    id
}

// The text in quotes, if it is short and plain.
fn plain_id(text: &str) -> Option<IdText>
    ensures { option_map (λ id. id.bytes) result ≡ plain_id text.now }
{
    if !is_plain(text) {
        return None;
    }
    let mut id = IdText::new();
    id.push_str("\"");
    id.push_str(text);
    id.push_str("\"");
    Some(id)
}

/// Is the text short, and does it stand in JSON as it is?
pub(crate) fn is_plain(text: &str) -> bool
    ensures { result ≡ is_plain text.now }
{
    text.len() <= LONGEST_PLAIN && has_plain_bytes(text.as_bytes())
}

// Does each byte stand in JSON as it is?
fn has_plain_bytes(bytes: &[u8]) -> bool
    ensures { result ≡ list_all is_plain_byte bytes.now }
{
    bytes.iter().all(|byte| is_plain_byte(*byte))
}

// No control character, no quote and no backslash.
fn is_plain_byte(byte: u8) -> bool
    ensures { result ≡ is_plain_byte byte }
{
    byte >= 32 && byte != b'"' && byte != b'\\'
}

/// The reply with the id as its first member, where there is one.
pub fn named_reply(id: Option<IdText>, reply: ReplyText) -> ReplyText
    requires opens { take 2 reply.bytes ≡ codes "{\"" }
    requires room { array_string_len reply ≤ LONGEST_ANSWER }
    ensures text { result.bytes ≡ named (option_map (λ i. i.bytes) id) reply.bytes }
    ensures bound { array_string_len result ≤ LONGEST_REPLY }
{
    match id {
        Some(id) => with_id(&id, &reply),
        None => reply,
    }
}

/// The reply with the id as its first member.
pub(crate) fn with_id(id: &IdText, reply: &ReplyText) -> ReplyText
    requires opens { (rest : List ℕ) × (reply.now.bytes ≡ codes "{\"" ++ rest) }
    requires room { array_string_len reply.now ≤ LONGEST_ANSWER }
    ensures text { result.bytes ≡ with_id id.now.bytes reply.now.bytes }
    ensures bound { array_string_len result ≤ LONGEST_REPLY }
{
    let mut text = ReplyText::new();
    text.push_str("{\"id\":");
    text.push_str(id.as_str());
    text.push_str(",");
    text.push_str(&reply.as_str()[1..]);
    text
}
