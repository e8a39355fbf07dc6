//! What a line of a session wants, where an id is told again and a fault says why.
ghost use Rattle.std.specs.Prelude.{◌≡◌, ◌≤◌, Ok, Err, IfOk, IfErr, option_map};
ghost use Rattle.arrayvec.specs.ArrayString.{array_string_len};
ghost use Rattle.serde_json.specs.View.{members_view};
ghost use Rattle.dd_wire.specs.declared.fault.Fault.{Fault};
ghost use Rattle.dd_wire.specs.ExplainedWants.{MeansBareWant, MeansExplained, MeansNamed, TellsFault, id_in, id_of, named_field};
ghost use Rattle.dd_wire.specs.FaultFields.{want_field};
ghost use Rattle.dd_wire.specs.FaultWords.{fault_told};
ghost use Rattle.dd_wire.specs.Ids.{named};

use crate::explained::{told, unread_reply};
use crate::fault::Fault;
use crate::fault_field::want_field;
use crate::id::{IdText, id_text, named_reply};
use crate::request_reader::{read_object, wait_at};
use crate::session_asked::SessionAsked;
use crate::want_reader::wanted_by;
use dd_lines::{LONGEST_LINE, LONGEST_REPLY, ReplyText};
use serde_json::{Map, Value};
use std::alloc::Global;

/// What a line of a session asks, and the id that its reply tells again.
#[derive(Drop)]
pub struct NamedAsked {
    /// The id, if the line has one.
    pub id: Option<IdText>,
    /// What is asked.
    pub asked: SessionAsked,
}

/// What a line of a session asks, as `read_want` has it, but that the line may have an id; or the reply that tells its
/// first fault with its field and words, and its id again.
pub fn read_explained(alloc: Global, line: &[u8], allow_stop: bool) -> Result<NamedAsked, ReplyText>
    ensures ok { IfOk result (λ want. MeansExplained allow_stop line.now (Ok want.asked)
        × (option_map (λ i. i.bytes) want.id ≡ id_of line.now)) }
    ensures err { IfErr result (λ text. TellsFault allow_stop line.now text.bytes) }
    ensures bound { IfErr result (λ text. array_string_len text ≤ LONGEST_REPLY) }
{
    if line.len() > LONGEST_LINE {
        return Err(told(Fault::LineTooLong, None));
    }
    match read_object(alloc, line) {
        Ok(object) => named_asked(object, allow_stop),
        Err(fault) => Err(unread_reply(line, fault)),
    }
}

// What members ask, which may have an id, or the reply that tells their first fault.
fn named_asked(mut object: Map<String, Value>, allow_stop: bool) -> Result<NamedAsked, ReplyText>
    ensures ok { IfOk result (λ want. MeansNamed allow_stop (members_view object.entries) (Ok want.asked)
        × (option_map (λ i. i.bytes) want.id ≡ id_in (members_view object.entries))) }
    ensures err { IfErr result (λ text. (fault : Fault)
        × MeansNamed allow_stop (members_view object.entries) (Err fault)
        × (text.bytes ≡ named (id_in (members_view object.entries))
        (fault_told fault (named_field allow_stop (members_view object.entries) fault)))) }
    ensures bound { IfErr result (λ text. array_string_len text ≤ LONGEST_REPLY) }
{
    match object.remove("id") {
        None => bare_asked(&object, allow_stop, None),
        Some(value) => match id_text(&value) {
            None => Err(told(Fault::WrongField, Some("id"))),
            Some(id) => bare_asked(&object, allow_stop, Some(id)),
        },
    }
}

// What members without an id ask, or the reply that tells their first fault, with this id.
fn bare_asked(
    object: &Map<String, Value>,
    allow_stop: bool,
    id: Option<IdText>,
) -> Result<NamedAsked, ReplyText>
    ensures ok { IfOk result (λ want.
        MeansBareWant allow_stop (members_view object.now.entries) (Ok want.asked)
        × (option_map (λ i. i.bytes) want.id ≡ option_map (λ i. i.bytes) id)) }
    ensures err { IfErr result (λ text. (fault : Fault)
        × MeansBareWant allow_stop (members_view object.now.entries) (Err fault)
        × (text.bytes ≡ named (option_map (λ i. i.bytes) id)
        (fault_told fault (want_field allow_stop (members_view object.now.entries) fault)))) }
    ensures bound { IfErr result (λ text. array_string_len text ≤ LONGEST_REPLY) }
{
    match bare_wanted(object, allow_stop) {
        Ok(asked) => Ok(NamedAsked { id, asked }),
        Err(fault) => Err(named_reply(id, told(fault, want_field(object, allow_stop, fault)))),
    }
}

// What members without an id mean.
fn bare_wanted(object: &Map<String, Value>, allow_stop: bool) -> Result<SessionAsked, Fault>
    ensures { MeansBareWant allow_stop (members_view object.now.entries) result }
{
    let wait = wait_at(object).ok_or(Fault::WrongField)?;
    wanted_by(object, allow_stop, wait)
}
