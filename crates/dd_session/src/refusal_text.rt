//! The texts of refusals, of the book and of the desk.
ghost use Rattle.std.specs.Prelude.{◌≡◌, ◌≤◌, length, option_map, take, codes};
ghost use Rattle.arrayvec.specs.ArrayString.{array_string_len};
ghost use Rattle.dd_session.specs.RefusalTexts.{desk_words, refusal_field, refusal_text, refusal_words, refused_text};
ghost use Rattle.dd_wire.specs.declared.fault_words.TheConstants.{LONGEST_WORDS};
ghost use Rattle.dd_wire.specs.declared.line_reply.TheConstants.{LONGEST_ANSWER};

use dd_book::Refusal;
use dd_desk::DeskFault;
use dd_lines::ReplyText;
use dd_wire::{Fault, words_of, write_explained, write_numbered_fault};

/// The text of a refusal of the book: its number, and where it is explained its field and words.
pub(crate) fn write_refused(refusal: Refusal, explain: bool) -> ReplyText
    ensures text { result.bytes ≡ refused_text explain refusal }
    ensures bound { array_string_len result ≤ LONGEST_ANSWER }
    ensures opens { take 2 result.bytes ≡ codes "{\"" }
{
    if explain {
        write_explained(
            refusal.number(),
            field_of(refusal),
            words_of_refusal(refusal),
        )
    } else {
        write_numbered_fault(refusal.number())
    }
}

// The field that the refusal tells of, if there is one.
fn field_of(refusal: Refusal) -> Option<&'static str>
    ensures field { option_map (λ f. f.now) result ≡ refusal_field refusal }
{
    match refusal {
        Refusal::UnknownJob => Some("job"),
        Refusal::OpenJobs | Refusal::BookFull | Refusal::JobEnded | Refusal::ShuttingDown => None,
    }
}

// What is said of it.
fn words_of_refusal(refusal: Refusal) -> &'static str
    ensures text { result.now ≡ refusal_words refusal }
    ensures bound { length result.now ≤ LONGEST_WORDS }
{
    match refusal {
        Refusal::OpenJobs => "this connection has as many open jobs as it may have",
        Refusal::BookFull => "the list of the run's jobs is full",
        Refusal::UnknownJob => "this connection has no job of that number",
        Refusal::JobEnded => "the job has ended, and there is nothing to cancel",
        Refusal::ShuttingDown => "the server is closing and takes no more jobs",
    }
}

/// The reply where a desk refuses: `{"fault":n}`, with 14, 15 or 19, and where it is explained with its words. It takes no
/// memory.
pub fn write_refusal(fault: DeskFault, explain: bool) -> ReplyText
    ensures text { result.bytes ≡ refusal_text explain fault }
    ensures bound { array_string_len result ≤ LONGEST_ANSWER }
    ensures opens { take 2 result.bytes ≡ codes "{\"" }
{
    if explain {
        write_explained(fault.number(), None, words_of_desk(fault))
    } else {
        write_numbered_fault(fault.number())
    }
}

// What is said of a fault of the desk.
fn words_of_desk(fault: DeskFault) -> &'static str
    ensures text { result.now ≡ desk_words fault }
    ensures bound { length result.now ≤ LONGEST_WORDS }
{
    match fault {
        DeskFault::NoPass => "the run has as many connections as it may have",
        DeskFault::JournalFull =>
            "the run of this connection is used up, and the next one serves who connects anew",
        DeskFault::OutOfMemory => words_of(Fault::OutOfMemory),
    }
}
