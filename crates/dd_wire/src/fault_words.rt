//! A fault with words: `{"fault":n,"field":"f","text":"t"}`.
ghost use Rattle.std.specs.Prelude.{◌≡◌, ◌+◌, ◌≤◌, ◌++◌, IfSome, length, option_map};
ghost use Rattle.std.specs.List.{list_all};
ghost use Rattle.arrayvec.specs.ArrayString.{array_string_len};
ghost use Rattle.dd_wire.specs.FaultWords.{explained_text, field_member, has_mark, is_blank, is_blank_line, words_of, words_of_line};

use crate::fault::Fault;
use crate::id::LONGEST_PLAIN;
use crate::line_reply::LONGEST_ANSWER;
use crate::reply::push_number;
use dd_lines::{LONGEST_REPLY, ReplyText};

/// The most bytes of the words of a fault.
pub const LONGEST_WORDS: usize = 128;

/// The byte-order mark of UTF-8.
const MARK: [u8; 3] = [239, 187, 191];

/// The reply that tells the fault of this number, its field if there is one, and its words.
pub fn write_explained(number: u8, field: Option<&str>, words: &str) -> ReplyText
    requires field { IfSome field (λ f. length f.now ≤ LONGEST_PLAIN) }
    requires words { length words.now ≤ LONGEST_WORDS }
    ensures text { result.bytes ≡ explained_text number (option_map (λ f. f.now) field.entry) words.now }
    ensures bound { array_string_len result ≤ LONGEST_ANSWER }
{
    let mut text = ReplyText::new();
    text.push_str("{\"fault\":");
    push_number(&mut text, number as u16);
    push_field(&mut text, field);
    text.push_str(",\"text\":\"");
    text.push_str(words);
    text.push_str("\"}");
    text
}

// Appends the field, where there is one.
fn push_field(text: &mut ReplyText, field: Option<&str>)
    requires field { IfSome field (λ f. length f.now ≤ LONGEST_PLAIN) }
    requires room { array_string_len text.old + 80 ≤ LONGEST_REPLY }
    ensures bytes { text.new.bytes ≡ text.old.bytes ++ field_member (option_map (λ f. f.now) field.entry) }
    ensures bound { array_string_len text.new ≤ array_string_len text.old + 80 }
{
    if let Some(field) = field {
        text.push_str(",\"field\":\"");
        text.push_str(field);
        text.push_str("\"");
    }
}

/// What is said of a fault.
#[tactic(auto, unfolding(crate::specs::FaultWords::words_of))]
pub fn words_of(fault: Fault) -> &'static str
    ensures text { result.now ≡ words_of fault }
    ensures bound { length result.now ≤ LONGEST_WORDS }
{
    match fault {
        Fault::LineTooLong => "the line is over 4096 bytes",
        Fault::NotAnObject => "the line is no JSON object",
        Fault::WrongField => "a field is missing, unknown or of the wrong kind",
        Fault::DealText => "the text of the deal has not the form of a deal",
        Fault::HandLeftOut => "a hand of the deal is left out",
        Fault::CardTwice => "a card stands twice",
        Fault::UnevenHands => {
            "the hands have not equally many cards, or one fewer where they have played to the trick"
        }
        Fault::NoCard => "there is no card to play",
        Fault::WrongTrump => "trump is not 0 to 4",
        Fault::WrongFirst => "first is not 0 to 3",
        Fault::WrongPlayed => "there are too many cards, or one of them is no card",
        Fault::WrongSolutions => "solutions is not 1 to 3, or not 1 or 2 beside a target",
        Fault::WrongTarget => "target is over 13",
        Fault::WrongOrder => "dealer is not 0 to 3, or side not 0 or 1",
        Fault::WrongVulnerable => "vulnerable is not 0 to 3",
        Fault::WrongResult => "a result is over 13",
        Fault::NotThirteen => "the hands are not of thirteen cards",
        Fault::AfterLast => "a card comes after the last",
        Fault::NotInHand => "a card is not in the hand that is to play it",
        Fault::Revoke => "a card is not of the suit led, which the hand has",
        Fault::OutOfMemory => "memory ran out, and nothing was changed",
    }
}

/// What is said of a line that is no object.
#[tactic(auto, unfolding(crate::specs::FaultWords::words_of_line))]
pub(crate) fn words_of_line(line: &[u8]) -> &'static str
    ensures text { result.now ≡ words_of_line line.now }
    ensures bound { length result.now ≤ LONGEST_WORDS }
{
    if is_blank_line(line) {
        "the line is blank"
    } else if has_mark(line) {
        "the line begins with a byte-order mark, which is to be left out"
    } else {
        words_of(Fault::NotAnObject)
    }
}

// Does nothing but blanks stand in the line?
fn is_blank_line(line: &[u8]) -> bool
    ensures { result ≡ is_blank_line line.now }
{
    line.iter().all(|byte| is_blank(*byte))
}

// A blank, a tab or a carriage return.
fn is_blank(byte: u8) -> bool
    ensures { result ≡ is_blank byte }
{
    byte == b' ' || byte == b'\t' || byte == b'\r'
}

// Does the line begin with a byte-order mark?
fn has_mark(line: &[u8]) -> bool
    ensures { result ≡ has_mark line.now }
{
    line.starts_with(&MARK)
}
