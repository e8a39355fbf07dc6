//! Calls as lines of words, and replies as texts.
use dd_book::{Call, JobState, Reply};
use dd_wire::{LineAsked, read_request, write_answer, write_table, write_trace};
use std::alloc::{AllocError, Global};

/// A king that is caught before ace and queen: North's side takes two tricks.
pub(crate) const CAUGHT: &str =
    r#"{"do":"solve","deal":"N:32... K4... AQ... 65...","trump":4,"first":0,"solutions":3}"#;

pub(crate) const CAUGHT_ANSWER: &str = r#"{"cards":[{"equals":4,"rank":3,"score":2,"suit":0}]}"#;

/// A king behind ace and queen: North's side takes one trick.
pub(crate) const BEHIND: &str =
    r#"{"do":"solve","deal":"N:32... 65... AQ... K4...","trump":4,"first":0,"solutions":3}"#;

pub(crate) const BEHIND_ANSWER: &str = r#"{"cards":[{"equals":4,"rank":3,"score":1,"suit":0}]}"#;

/// Three cards are on the trick, and the ace is left: one position to search.
pub(crate) const LAST: &str =
    r#"{"do":"solve","deal":"N:A... ... ... ...","trump":4,"first":1,"solutions":3,"played":[[0,13],[0,12],[0,11]]}"#;

pub(crate) const LAST_ANSWER: &str = r#"{"cards":[{"equals":0,"rank":14,"score":1,"suit":0}]}"#;

/// The ace of spades is ruffed.
pub(crate) const RUFFED: &str =
    r#"{"do":"solve","deal":"N:A... .2.. 2... 3...","trump":1,"first":0,"solutions":3}"#;

pub(crate) const RUFFED_ANSWER: &str = r#"{"cards":[{"equals":0,"rank":14,"score":0,"suit":0}]}"#;

/// A suit each, and the twenty results.
pub(crate) const SUITS: &str =
    r#"{"do":"table","deal":"N:AKQJT98765432... .AKQJT98765432.. ..AKQJT98765432. ...AKQJT98765432"}"#;

pub(crate) const SUITS_ANSWER: &str =
    r#"{"table":[[13,0,13,0],[0,13,0,13],[13,0,13,0],[0,13,0,13],[0,0,0,0]]}"#;

/// Four cards of a play, of which the third costs a trick.
pub(crate) const PLAYED: &str =
    r#"{"do":"play","deal":"N:32... K4... AQ... 65...","trump":4,"first":0,"cards":[[0,2],[0,4],[0,14],[0,5]]}"#;

pub(crate) const PLAYED_ANSWER: &str = r#"{"tricks":[0,0,0,1,1]}"#;

/// The call of a caller that these words name: a verb, and a request line or a number.
pub(crate) fn call(alloc: Global, caller: u64, words: &str) -> Option<Call> {
    if words == "shuts" {
        return Some(Call::Shut);
    }
    let (verb, rest) = words.split_once(' ')?;
    if verb == "submits" {
        let LineAsked::Cards(asked) = read_request(alloc, rest.as_bytes()).ok()? else {
            return None;
        };
        return Some(Call::Submit { caller, asked });
    }
    let job: u64 = rest.parse().ok()?;
    match verb {
        "fetches" => Some(Call::Fetch { caller, job }),
        "cancels" => Some(Call::Cancel { caller, job }),
        _ => None,
    }
}

/// What a fetch shows: the text of an answer, a table or a trace, or else a word.
pub(crate) fn shown(alloc: Global, state: &JobState) -> Result<String, AllocError> {
    match state {
        JobState::Done(solved) => String::from_str(alloc, write_answer(solved.answer()).as_str()),
        JobState::TargetDone(solved) => {
            String::from_str(alloc, write_answer(solved.answer()).as_str())
        }
        JobState::TableDone(table) => {
            String::from_str(alloc, write_table(table.results()).as_str())
        }
        JobState::PlayDone(trace) => String::from_str(alloc, write_trace(trace).as_str()),
        JobState::Waiting => String::from_str(alloc, "waiting"),
        JobState::Running => String::from_str(alloc, "running"),
        JobState::Cancelled => String::from_str(alloc, "cancelled"),
        JobState::Spent => String::from_str(alloc, "spent"),
    }
}

/// A reply in words.
pub(crate) fn told(alloc: Global, reply: &Reply) -> Result<String, AllocError> {
    match reply {
        Reply::Submitted(job) => format!(in alloc; "job {job}"),
        Reply::State(_, state) => shown(alloc, state),
        Reply::Shut => String::from_str(alloc, "shut"),
        Reply::Cancelled(job) => format!(in alloc; "cancelled {job}"),
        _ => String::from_str(alloc, "another reply"),
    }
}
