//! Calls and replies in words, as the rows of worked runs have them.
ghost use Rattle.std.specs.Prelude.{◌<◌};

use crate::book::made::hands;
use arrayvec::ArrayVec;
use dd_book::{Call, JobState, Outcome, Reply};
use dd_bounds::{Endless, NoTable};
use dd_cards::{Card, Hands, Rank, Seat, Strain, Suit};
use dd_play::Position;
use dd_request::{Asked, PlayRequest, Request, TableRequest, TargetRequest, Trace};
use dd_solve::{solve, solve_part, solve_play_part, solve_target};
use std::alloc::{AllocError, Global};

// A suit each: North's spades, East's hearts, South's diamonds, West's clubs.
fn whole_suits() -> Option<Hands> {
    let mut hands = Hands::new();
    for place in 0..52u8 {
        let seat = Seat::from_code(place % 4)?;
        let suit = Suit::from_code(place % 4)?;
        let rank = Rank::from_code(place / 4 + 2)?;
        hands.insert(seat, Card { suit, rank });
    }
    Some(hands)
}

// A: North's ace, with the king, queen and jack; B: two cards each; T: the table of the hands of A;
// S: the table of a suit each; G: the cards of B that win a trick, U: those that win two, V: the first of these; P: a play of all
// cards of B, Q: another one of four cards, W: one of no card of A.
fn asked(name: &str) -> Option<Asked> {
    if name == "T" {
        let hands = hands(&[14, 13, 12, 11], 1)?;
        return Some(Asked::Table(TableRequest::new(hands).ok()?));
    }
    if name == "S" {
        return Some(Asked::Table(TableRequest::new(whole_suits()?).ok()?));
    }
    if let Some(cards) = cards_of(name) {
        return Some(Asked::Play(play_of(name, cards)?));
    }
    let hands = if name == "A" {
        hands(&[14, 13, 12, 11], 1)?
    } else {
        hands(&[3, 2, 13, 4, 14, 12, 6, 5], 2)?
    };
    let position = Position::new(hands, Strain::Notrump, Seat::North, &[]).ok()?;
    match name {
        "G" => Some(Asked::Target(TargetRequest::new(position, 1, 2)?)),
        "U" => Some(Asked::Target(TargetRequest::new(position, 2, 2)?)),
        "V" => Some(Asked::Target(TargetRequest::new(position, 2, 1)?)),
        _ => Some(Asked::Solve(Request::new(position, 3)?)),
    }
}

// The ranks of the spades that are played, if it is the name of a play.
fn cards_of(name: &str) -> Option<&'static [u8]> {
    match name {
        "P" => Some(&[3, 4, 12, 5, 14, 6, 2, 13]),
        "Q" => Some(&[2, 4, 14, 5]),
        "W" => Some(&[]),
        _ => None,
    }
}

// North leads at notrump.
fn play_of(name: &str, ranks: &[u8]) -> Option<PlayRequest> {
    let hands = if name == "W" {
        hands(&[14, 13, 12, 11], 1)?
    } else {
        hands(&[3, 2, 13, 4, 14, 12, 6, 5], 2)?
    };
    let opening = Position::new(hands, Strain::Notrump, Seat::North, &[]).ok()?;
    let mut cards = ArrayVec::<Card, 8>::new();
    for rank in ranks {
        let rank = Rank::from_code(*rank)?;
        let suit = Suit::Spades;
        let _fits = cards.try_push(Card { suit, rank });
    }
    PlayRequest::new(opening, cards.as_slice()).ok()
}

// What declarer's side takes from the position after so many cards of a play on.
fn part_of_play(name: &str, count: u8) -> Option<Outcome> {
    let request = play_of(name, cards_of(name)?)?;
    if count as usize > request.cards().len() {
        return None;
    }
    let (position, _) = request.after(count as usize);
    let side = request.declarers();
    let solved = solve_play_part(position, side, &mut NoTable, &mut Endless).ok()?;
    Some(Outcome::PlayPart(solved))
}

// The outcome of this name: the answer to A or B, to G, U or V, the result of a part of T by its letter (a for
// 0), the result of the second part of S by its own, that of a play by its letter and how many cards were
// played, spent or stopped.
fn outcome(name: &str) -> Option<Outcome> {
    if name == "spent" {
        return Some(Outcome::Spent);
    }
    if name == "stopped" {
        return Some(Outcome::Stopped);
    }
    if name == "S" {
        return part_of("S", 1);
    }
    for play in ["P", "Q", "W"] {
        if let Some(count) = name.strip_prefix(play) {
            return part_of_play(play, count.parse().ok()?);
        }
    }
    if let Some(part) = name.as_bytes().first() {
        if (97..117).contains(part) {
            return part_of("T", *part - 97);
        }
    }
    match asked(name)? {
        Asked::Solve(request) => {
            let solved = solve(request, &mut NoTable, &mut Endless).ok()?;
            Some(Outcome::Solved(solved))
        }
        Asked::Target(request) => {
            let solved = solve_target(request, &mut NoTable, &mut Endless).ok()?;
            Some(Outcome::Target(solved))
        }
        Asked::Table(_) | Asked::Play(_) => None,
    }
}

// The result of a part of the table of this name.
fn part_of(name: &str, part: u8) -> Option<Outcome>
    requires { part < 20 }
{
    let Asked::Table(request) = asked(name)? else {
        return None;
    };
    let solved = solve_part(&request, part, &mut NoTable, &mut Endless).ok()?;
    Some(Outcome::Part(solved))
}

fn number(word: Option<&str>) -> u64 {
    match word {
        Some(word) => word.parse().unwrap_or(0),
        None => 0,
    }
}

/// The call that these words name, the caller or worker first.
pub fn call(words: &str) -> Option<Call> {
    let mut words = words.split(' ');
    let who = number(words.next());
    let verb = words.next()?;
    if verb == "submits" {
        let asked = asked(words.next()?)?;
        return Some(Call::Submit { caller: who, asked });
    }
    if verb == "claims" {
        return Some(Call::Claim { worker: who });
    }
    if verb == "shuts" {
        return Some(Call::Shut);
    }
    let job = number(words.next());
    if verb == "cancels" {
        return Some(Call::Cancel { caller: who, job });
    }
    if verb == "fetches" {
        return Some(Call::Fetch { caller: who, job });
    }
    let claim = number(words.next());
    let outcome = outcome(words.next()?)?;
    Some(Call::Finish {
        worker: who,
        job,
        claim,
        outcome,
    })
}

// The numbers of a trace, one after the other.
fn traced(alloc: Global, trace: &Trace) -> Result<String, AllocError> {
    let mut text = String::from_str(alloc, "traced ")?;
    for tricks in trace.as_slice() {
        let number = format!(in alloc; "{tricks}")?;
        text.push_str(number.as_str())?;
    }
    Ok(text)
}

// What a fetch shows, in a word; of an answer the first score, of a table the ace's tricks at
// spades, of a play its numbers.
fn shown(alloc: Global, state: &JobState) -> Result<String, AllocError> {
    match state {
        JobState::Waiting => String::from_str(alloc, "waiting"),
        JobState::Running => String::from_str(alloc, "running"),
        JobState::Done(solved) => match solved.answer().as_slice().first() {
            Some(best) => {
                let score = best.score;
                format!(in alloc; "done with {score}")
            }
            None => String::from_str(alloc, "done without a card"),
        },
        JobState::TargetDone(solved) => match solved.answer().as_slice().first() {
            Some(first) => {
                let target = first.score;
                format!(in alloc; "reached {target}")
            }
            None => String::from_str(alloc, "reached by none"),
        },
        JobState::TableDone(table) => match table.results().as_slice().first() {
            Some(tricks) => format!(in alloc; "done with {tricks}"),
            None => String::from_str(alloc, "done without a result"),
        },
        JobState::PlayDone(trace) => traced(alloc, trace),
        JobState::Cancelled => String::from_str(alloc, "cancelled"),
        JobState::Spent => String::from_str(alloc, "spent"),
    }
}

/// A reply in words.
pub fn told(alloc: Global, reply: &Reply) -> Result<String, AllocError> {
    match reply {
        Reply::Submitted(job) => format!(in alloc; "job {job}"),
        Reply::Claimed { job, claim, .. } => format!(in alloc; "job {job} claim {claim}"),
        Reply::ClaimedTarget { job, claim, .. } => format!(in alloc;
            "job {job} target claim {claim}"
        ),
        Reply::ClaimedPart {
            job,
            part,
            claim,
            ..
        } => format!(in alloc; "job {job} part {part} claim {claim}"),
        Reply::ClaimedPlayPart {
            job,
            part,
            claim,
            ..
        } => format!(in alloc; "job {job} after {part} claim {claim}"),
        Reply::NothingWaits => String::from_str(alloc, "nothing waits"),
        Reply::Closing => String::from_str(alloc, "closing"),
        Reply::Recorded => String::from_str(alloc, "recorded"),
        Reply::Stale => String::from_str(alloc, "stale"),
        Reply::Cancelled(job) => format!(in alloc; "cancelled {job}"),
        Reply::State(_, state) => shown(alloc, state),
        Reply::Shut => String::from_str(alloc, "shut"),
        Reply::Fault(refusal) => {
            let number = refusal.number();
            format!(in alloc; "fault {number}")
        }
    }
}
