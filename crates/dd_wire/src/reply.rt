//! The texts of replies: JSON without spaces, keys in the order of their bytes.
ghost use Rattle.std.specs.Prelude.{◌≡◌, ◌+◌, ◌≤◌, ◌++◌, decimal, length};
ghost use Rattle.arrayvec.specs.ArrayString.{array_string_len};
ghost use Rattle.dd_wire.specs.Replies.{class_text, cards_member, answer_text, list_text, table_member, table_text, job_member, numbered_fault_text, fault_text, spent_text};

use crate::fault::Fault;
use crate::line_reply::LONGEST_ANSWER;
use dd_lines::{LONGEST_REPLY, ReplyText};
use dd_request::{Answer, Results, Scored};
use itoa::Buffer;

// The strains, and the seats that may declare.
const STRAINS: usize = 5;

const SEATS: usize = 4;

/// The most bytes that `push_cards` appends.
pub const CARDS_ROOM: usize = 751;

/// The most bytes that `push_table` appends.
pub const TABLE_ROOM: usize = 145;

/// The most bytes that `push_job` appends.
pub const JOB_ROOM: usize = 26;

/// The reply to a request that has no answer: `{"fault":n}`.
pub fn write_fault(fault: Fault) -> ReplyText
    ensures text { result.bytes ≡ fault_text fault }
    ensures bound { array_string_len result ≤ LONGEST_REPLY }
{
    write_numbered_fault(fault.number())
}

/// The same reply in place of another text.
pub(crate) fn put_fault(text: &mut ReplyText, fault: Fault)
    ensures text { text.new.bytes ≡ fault_text fault }
    ensures bound { array_string_len text.new ≤ LONGEST_REPLY }
{
    put_numbered_fault(text, fault.number());
}

/// The reply that tells the fault of this number: `{"fault":n}`.
pub fn write_numbered_fault(number: u8) -> ReplyText
    ensures text { result.bytes ≡ numbered_fault_text number }
    ensures bound { array_string_len result ≤ LONGEST_ANSWER }
{
    let mut text = ReplyText::new();
    put_numbered_fault(&mut text, number);
    text
}

// The same reply in place of another text.
fn put_numbered_fault(text: &mut ReplyText, number: u8)
    ensures text { text.new.bytes ≡ numbered_fault_text number }
    ensures bound { array_string_len text.new ≤ LONGEST_ANSWER }
{
    text.clear();
    text.push_str("{\"fault\":");
    push_number(text, number as u16);
    text.push_str("}");
}

/// The reply to a request whose budget was spent before there was an answer: `{"state":"spent"}`.
pub fn write_spent() -> ReplyText
    ensures text { result.bytes ≡ spent_text }
    ensures bound { array_string_len result ≤ LONGEST_ANSWER }
{
    let mut text = ReplyText::new();
    put_spent(&mut text);
    text
}

/// The same reply in place of another text.
pub(crate) fn put_spent(text: &mut ReplyText)
    ensures text { text.new.bytes ≡ spent_text }
    ensures bound { array_string_len text.new ≤ LONGEST_ANSWER }
{
    text.clear();
    text.push_str("{\"state\":\"spent\"}");
}

/// The reply to a request that has an answer: `{"cards":[C,C,..]}`, as `push_cards` has the cards.
pub fn write_answer(answer: &Answer) -> ReplyText
    ensures text { result.bytes ≡ answer_text answer.now }
    ensures bound { array_string_len result ≤ LONGEST_ANSWER }
{
    let mut text = ReplyText::new();
    put_answer(&mut text, answer);
    text
}

/// The same reply in place of another text.
pub(crate) fn put_answer(text: &mut ReplyText, answer: &Answer)
    ensures text { text.new.bytes ≡ answer_text answer.now }
    ensures bound { array_string_len text.new ≤ LONGEST_ANSWER }
{
    text.clear();
    text.push_str("{");
    push_cards(text, answer);
    text.push_str("}");
}

/// The reply to a request for a table that has its results: `{"table":[[a,b,c,d],..]}`, as `push_table` has the table.
pub fn write_table(results: &Results) -> ReplyText
    ensures text { result.bytes ≡ table_text results.now }
    ensures bound { array_string_len result ≤ LONGEST_ANSWER }
{
    let mut text = ReplyText::new();
    put_table(&mut text, results);
    text
}

/// The same reply in place of another text.
pub(crate) fn put_table(text: &mut ReplyText, results: &Results)
    ensures text { text.new.bytes ≡ table_text results.now }
    ensures bound { array_string_len text.new ≤ LONGEST_ANSWER }
{
    text.clear();
    text.push_str("{");
    push_table(text, results);
    text.push_str("}");
}

/// Appends the member `"cards":[C,C,..]`, each class C as `{"equals":mask,"rank":rank,"score":tricks,"suit":suit}`, in
/// the order of the answer.
pub fn push_cards(text: &mut ReplyText, answer: &Answer)
    requires room { array_string_len text.old + CARDS_ROOM ≤ LONGEST_REPLY }
    ensures bytes { text.new.bytes ≡ text.old.bytes ++ cards_member answer.now }
    ensures bound { array_string_len text.new ≤ array_string_len text.old + CARDS_ROOM }
{
    text.push_str("\"cards\":[");
    for (place, scored) in answer.as_slice().iter().enumerate() {
        if place > 0 {
            text.push_str(",");
        }
        push_class(text, scored);
    }
    text.push_str("]");
}

/// Appends the member `"table":[[a,b,c,d],..]`, a list of four numbers for each strain (spades, hearts, diamonds, clubs,
/// notrump), by declarer (North, East, South, West).
pub fn push_table(text: &mut ReplyText, results: &Results)
    requires room { array_string_len text.old + TABLE_ROOM ≤ LONGEST_REPLY }
    ensures bytes { text.new.bytes ≡ text.old.bytes ++ table_member results.now }
    ensures bound { array_string_len text.new ≤ array_string_len text.old + TABLE_ROOM }
{
    text.push_str("\"table\":[");
    for strain in 0..STRAINS {
        if strain > 0 {
            text.push_str(",");
        }
        let tricks = results.as_slice();
        push_list(text, &tricks[SEATS * strain..SEATS * strain + SEATS]);
    }
    text.push_str("]");
}

/// Appends the member `"job":j`.
pub fn push_job(text: &mut ReplyText, job: u64)
    requires room { array_string_len text.old + JOB_ROOM ≤ LONGEST_REPLY }
    ensures bytes { text.new.bytes ≡ text.old.bytes ++ job_member job }
    ensures bound { array_string_len text.new ≤ array_string_len text.old + JOB_ROOM }
{
    let mut buffer = Buffer::new();
    text.push_str("\"job\":");
    text.push_str(buffer.format(job));
}

// Appends a list of four numbers.
fn push_list(text: &mut ReplyText, numbers: &[u8])
    requires room { array_string_len text.old + 26 ≤ LONGEST_REPLY }
    requires four { length numbers.now ≡ SEATS }
    ensures bytes { text.new.bytes ≡ text.old.bytes ++ list_text numbers.now }
    ensures bound { array_string_len text.new ≤ array_string_len text.old + 26 }
{
    text.push_str("[");
    for (place, number) in numbers.iter().enumerate() {
        if place > 0 {
            text.push_str(",");
        }
        push_number(text, *number as u16);
    }
    text.push_str("]");
}

// Appends the text of a class.
fn push_class(text: &mut ReplyText, scored: &Scored)
    requires { array_string_len text.old + 56 ≤ LONGEST_REPLY }
    ensures bytes { text.new.bytes ≡ text.old.bytes ++ class_text scored.now }
    ensures bound { array_string_len text.new ≤ array_string_len text.old + 56 }
{
    let top = scored.class.top;
    text.push_str("{\"equals\":");
    push_number(text, scored.class.equals);
    text.push_str(",\"rank\":");
    push_number(text, top.rank.code() as u16);
    text.push_str(",\"score\":");
    push_number(text, scored.score as u16);
    text.push_str(",\"suit\":");
    push_number(text, top.suit.code() as u16);
    text.push_str("}");
}

// Appends a number in decimal.
pub(crate) fn push_number(text: &mut ReplyText, number: u16)
    requires { array_string_len text.old + 5 ≤ LONGEST_REPLY }
    ensures bytes { text.new.bytes ≡ text.old.bytes ++ decimal number }
    ensures bound { array_string_len text.new ≤ array_string_len text.old + 5 }
{
    let mut buffer = Buffer::new();
    text.push_str(buffer.format(number));
}
