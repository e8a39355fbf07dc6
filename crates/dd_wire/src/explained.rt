//! The reply to a line whose id is told again, and whose fault says why.
ghost use Rattle.std.specs.Prelude.{◌≡◌, ◌≤◌, IfSome, length, option_map};
ghost use Rattle.arrayvec.specs.ArrayString.{array_string_len};
ghost use Rattle.serde_json.specs.View.{members_view};
ghost use Rattle.dd_wire.specs.Explained.{IsBareReply, IsExplained, IsObjectReply, IsUnreadReply, MeansBare};
ghost use Rattle.dd_wire.specs.FaultWords.{fault_told};
ghost use Rattle.dd_wire.specs.Reading.{IsUnread};

use crate::fault::Fault;
use crate::fault_field::field_of;
use crate::fault_words::{words_of, words_of_line, write_explained};
use crate::finder::Finder;
use crate::id::{LONGEST_PLAIN, id_text, with_id};
use crate::line_asked::LineAsked;
use crate::line_reply::{LONGEST_ANSWER, asked_reply};
use crate::request_reader::{line_asked_by, read_object, wait_at};
use dd_lines::{LONGEST_LINE, LONGEST_REPLY, ReplyText};
use serde_json::{Map, Value};
use std::alloc::Global;

/// The reply to a line of any length, without a line feed at its end, as `put_reply` puts it, but that the line may have
/// an id, which the reply tells again, and that a fault has its field and words beside its number.
pub fn explained_reply<F: Finder>(alloc: Global, line: &[u8], finder: &mut F) -> ReplyText
    ensures text { IsExplained (F.gave_up finder.old) line.now result.bytes }
    ensures bound { array_string_len result ≤ LONGEST_REPLY }
{
    if line.len() > LONGEST_LINE {
        return told(Fault::LineTooLong, None);
    }
    match read_object(alloc, line) {
        Ok(object) => object_reply(object, finder),
        Err(fault) => unread_reply(line, fault),
    }
}

// The reply to a line that gave no object, for this fault.
#[tactic(auto, unfolding(crate::specs::Explained::IsUnreadReply))]
pub(crate) fn unread_reply(line: &[u8], fault: Fault) -> ReplyText
    requires { IsUnread line.now fault }
    ensures text { IsUnreadReply line.now result.bytes }
    ensures bound { array_string_len result ≤ LONGEST_REPLY }
{
    match fault {
        Fault::OutOfMemory => told(Fault::OutOfMemory, None),
        _ => write_explained(Fault::NotAnObject.number(), None, words_of_line(line)),
    }
}

// The fault with its field and words.
pub(crate) fn told(fault: Fault, field: Option<&str>) -> ReplyText
    requires { IfSome field (λ f. length f.now ≤ LONGEST_PLAIN) }
    ensures text { result.bytes ≡ fault_told fault (option_map (λ f. f.now) field.entry) }
    ensures bound { array_string_len result ≤ LONGEST_ANSWER }
{
    write_explained(fault.number(), field, words_of(fault))
}

// The reply to members, which may have an id.
fn object_reply<F: Finder>(mut object: Map<String, Value>, finder: &mut F) -> ReplyText
    ensures text { IsObjectReply (F.gave_up finder.old) (members_view object.entries) result.bytes }
    ensures bound { array_string_len result ≤ LONGEST_REPLY }
{
    match object.remove("id") {
        None => bare_reply(&object, finder),
        Some(value) => match id_text(&value) {
            None => told(Fault::WrongField, Some("id")),
            Some(id) => with_id(&id, &bare_reply(&object, finder)),
        },
    }
}

// The reply to members without an id.
fn bare_reply<F: Finder>(object: &Map<String, Value>, finder: &mut F) -> ReplyText
    ensures text { IsBareReply (F.gave_up finder.old) (members_view object.now.entries) result.bytes }
    ensures bound { array_string_len result ≤ LONGEST_ANSWER }
{
    match bare_asked(object) {
        Ok(asked) => asked_reply(asked, finder),
        Err(fault) => told(fault, field_of(object, fault)),
    }
}

// What the members ask, or their first fault.
fn bare_asked(object: &Map<String, Value>) -> Result<LineAsked, Fault>
    ensures { MeansBare (members_view object.now.entries) result }
{
    wait_at(object).ok_or(Fault::WrongField)?;
    line_asked_by(object)
}
