//! What follows a line, in words.
use dd_request::Asked;
use dd_session::{Manner, Step};
use dd_wire::{Want, Wish};
use std::alloc::{AllocError, Global};

/// A manner that explains nothing, with leave to stop or without.
pub fn plainly(allow_stop: bool) -> Manner {
    Manner {
        allow_stop,
        explain: false,
    }
}

/// A step in a word: what is wanted, with the job that it names and the wait where there is one, or the text that is said.
pub fn plain(alloc: Global, step: &Step) -> Result<String, AllocError> {
    match step {
        Step::Say(text) => String::from_str(alloc, text.as_str()),
        Step::Ask(wish, _) => wished(alloc, wish),
        Step::Look(_) => String::from_str(alloc, "health"),
    }
}

// A wish in a word.
fn wished(alloc: Global, wish: &Wish) -> Result<String, AllocError> {
    let wait = wish.wait;
    let want = wanted(alloc, &wish.want)?;
    if wait == 0 {
        return Ok(want);
    }
    format!(in alloc; "{want} within {wait}")
}

// A want in a word.
fn wanted(alloc: Global, want: &Want) -> Result<String, AllocError> {
    match want {
        Want::Submit(Asked::Solve(_)) => String::from_str(alloc, "solve"),
        Want::Submit(Asked::Table(_)) => String::from_str(alloc, "table"),
        Want::Submit(Asked::Target(_)) => String::from_str(alloc, "target"),
        Want::Submit(Asked::Play(_)) => String::from_str(alloc, "play"),
        Want::Cancel(job) => format!(in alloc; "cancel {job}"),
        Want::Fetch(job) => format!(in alloc; "fetch {job}"),
        Want::Stop => String::from_str(alloc, "stop"),
    }
}
