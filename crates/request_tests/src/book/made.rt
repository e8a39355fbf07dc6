//! Requests with a card or two in each hand, their answers, and replies as plain values.
use arrayvec::ArrayVec;
use dd_book::{Call, JobState, Outcome, Reply};
use dd_bounds::{Endless, NoTable};
use dd_cards::{Card, Hands, Rank, Seat, Strain, Suit};
use dd_play::Position;
use dd_request::{
    Asked, PlayPart, PlayRequest, Request, Solved, SolvedPart, SolvedTarget, TableRequest,
    TargetRequest,
};
use dd_solve::{solve, solve_part, solve_play_part, solve_target};
use std::alloc::{AllocError, Global};

/// What is asked.
#[derive(Clone, Copy, Debug, PartialEq, Eq)]
pub enum Asks {
    /// North's ace of spades, with the others' king, queen and jack.
    Ace,
    /// Two spades a hand: North's 3 and 2 win one trick with none of them.
    Pair,
    /// The table of the hands of `Ace`.
    Table,
    /// The cards of `Pair` that win one trick.
    Target,
    /// A play of all the cards of `Pair`.
    Play,
    /// A play of four of them, which leave a trick.
    Trick,
}

/// How a part ends.
#[derive(Clone, Copy, Debug, PartialEq, Eq)]
pub enum Ends {
    Answer(Asks),
    Part(u8),
    /// The tricks of declarer's side after so many cards of `Play`.
    After(u8),
    Spent,
    Stopped,
}

/// A call of the book: who calls, then the job, the claim and the outcome where there are any.
#[derive(Clone, Copy, Debug, PartialEq, Eq)]
pub enum Step {
    Submit(u64, Asks),
    Claim(u64),
    Finish(u64, u64, u64, Ends),
    Cancel(u64, u64),
    Fetch(u64, u64),
    Shut,
}

/// What a fetch shows; of an answer the first score.
#[derive(Clone, Copy, Debug, PartialEq, Eq)]
pub enum Shows {
    Waiting,
    Running,
    Done(u8),
    TableDone,
    TargetDone(u8),
    /// With so many numbers that are 0.
    PlayDone(usize),
    Cancelled,
    Spent,
}

/// A reply; of a refusal its number.
#[derive(Clone, Copy, Debug, PartialEq, Eq)]
pub enum MadeReply {
    Job(u64),
    Claimed(u64, u64),
    ClaimedPart(u64, u8, u64),
    ClaimedTarget(u64, u64),
    ClaimedAfter(u64, u8, u64),
    NothingWaits,
    Closing,
    Recorded,
    Stale,
    Cancelled(u64),
    State(u64, Shows),
    Shut,
    Fault(u8),
}

/// The requests and their answers, made once.
#[derive(Drop)]
pub struct Made {
    ace: Solved,
    pair: Solved,
    target: SolvedTarget,
    table: TableRequest,
    parts: Vec<SolvedPart>,
    play: PlayRequest,
    trick: PlayRequest,
    numbers: Vec<PlayPart>,
}

/// Hands of spades, so many each: North's, then the others' clockwise.
pub(super) fn hands(ranks: &[u8], each: usize) -> Option<Hands> {
    let mut hands = Hands::new();
    for (place, rank) in ranks.iter().enumerate() {
        let seat = Seat::from_code((place / each.max(1) % 4) as u8)?;
        let rank = Rank::from_code(*rank)?;
        let suit = Suit::Spades;
        hands.insert(seat, Card { suit, rank });
    }
    Some(hands)
}

fn solved(ranks: &[u8], each: usize) -> Option<Solved> {
    let hands = hands(ranks, each)?;
    let position = Position::new(hands, Strain::Notrump, Seat::North, &[]).ok()?;
    let request = Request::new(position, 3)?;
    solve(request, &mut NoTable, &mut Endless).ok()
}

// The cards of these hands that win one trick.
fn reaching(ranks: &[u8], each: usize) -> Option<SolvedTarget> {
    let hands = hands(ranks, each)?;
    let position = Position::new(hands, Strain::Notrump, Seat::North, &[]).ok()?;
    let request = TargetRequest::new(position, 1, 2)?;
    solve_target(request, &mut NoTable, &mut Endless).ok()
}

// The twenty parts in their order.
fn parts(alloc: Global, table: &TableRequest) -> Result<Vec<SolvedPart>, AllocError> {
    let mut parts = Vec::new(alloc);
    for part in 0..20u8 {
        if let Ok(solved) = solve_part(table, part, &mut NoTable, &mut Endless) {
            parts.push(solved)?;
        }
    }
    Ok(parts)
}

// A play of these cards.
fn play(ranks: &[u8]) -> Option<PlayRequest> {
    let hands = hands(&[3, 2, 13, 4, 14, 12, 6, 5], 2)?;
    let opening = Position::new(hands, Strain::Notrump, Seat::North, &[]).ok()?;
    let mut cards = ArrayVec::<Card, 8>::new();
    for rank in ranks {
        let rank = Rank::from_code(*rank)?;
        let suit = Suit::Spades;
        let _fits = cards.try_push(Card { suit, rank });
    }
    PlayRequest::new(opening, cards.as_slice()).ok()
}

// What declarer's side takes from each position of the play on.
fn numbers(alloc: Global, play: &PlayRequest) -> Result<Vec<PlayPart>, AllocError> {
    let mut numbers = Vec::new(alloc);
    for count in 0..=play.cards().len() {
        let (position, _) = play.after(count);
        let side = play.declarers();
        if let Ok(solved) = solve_play_part(position, side, &mut NoTable, &mut Endless) {
            numbers.push(solved)?;
        }
    }
    Ok(numbers)
}

/// `None` where there is no such hand.
pub fn make(alloc: Global) -> Result<Option<Made>, AllocError> {
    let cards = [14, 13, 12, 11];
    let Some(ace) = solved(&cards, 1) else {
        return Ok(None);
    };
    let Some(pair) = solved(&[3, 2, 13, 4, 14, 12, 6, 5], 2) else {
        return Ok(None);
    };
    let Some(target) = reaching(&[3, 2, 13, 4, 14, 12, 6, 5], 2) else {
        return Ok(None);
    };
    let Some(hands) = hands(&cards, 1) else {
        return Ok(None);
    };
    let Ok(table) = TableRequest::new(hands) else {
        return Ok(None);
    };
    let parts = parts(alloc, &table)?;
    // North leads the three, and East's king is caught.
    let Some(whole) = play(&[3, 4, 12, 5, 14, 6, 2, 13]) else {
        return Ok(None);
    };
    // South plays the ace on East's four, where the queen would do.
    let Some(trick) = play(&[2, 4, 14, 5]) else {
        return Ok(None);
    };
    let numbers = numbers(alloc, &whole)?;
    Ok(Some(Made {
        ace,
        pair,
        target,
        table,
        parts,
        play: whole,
        trick,
        numbers,
    }))
}

impl Made {
    fn asked(&self, asks: Asks) -> Asked {
        match asks {
            Asks::Ace => Asked::Solve(self.ace.request().copy()),
            Asks::Pair => Asked::Solve(self.pair.request().copy()),
            Asks::Table => Asked::Table(self.table.copy()),
            Asks::Target => Asked::Target(self.target.request().copy()),
            Asks::Play => Asked::Play(self.play.copy()),
            Asks::Trick => Asked::Play(self.trick.copy()),
        }
    }

    // The outcome of something that there is no answer to is that it was stopped.
    fn outcome(&self, ends: Ends) -> Outcome {
        match ends {
            Ends::Answer(Asks::Ace) => Outcome::Solved(self.ace.copy()),
            Ends::Answer(Asks::Pair) => Outcome::Solved(self.pair.copy()),
            Ends::Answer(Asks::Target) => Outcome::Target(self.target.copy()),
            Ends::Part(part) => match self.parts.get(part as usize) {
                Some(solved) => Outcome::Part(solved.copy()),
                None => Outcome::Stopped,
            },
            Ends::After(count) => match self.numbers.get(count as usize) {
                Some(solved) => Outcome::PlayPart(solved.copy()),
                None => Outcome::Stopped,
            },
            Ends::Spent => Outcome::Spent,
            _ => Outcome::Stopped,
        }
    }

    /// The call of the book.
    pub fn call(&self, step: Step) -> Call {
        match step {
            Step::Submit(caller, asks) => Call::Submit {
                caller,
                asked: self.asked(asks),
            },
            Step::Claim(worker) => Call::Claim { worker },
            Step::Finish(worker, job, claim, ends) => Call::Finish {
                worker,
                job,
                claim,
                outcome: self.outcome(ends),
            },
            Step::Cancel(caller, job) => Call::Cancel { caller, job },
            Step::Fetch(caller, job) => Call::Fetch { caller, job },
            Step::Shut => Call::Shut,
        }
    }
}

// A request to solve, told by its number of tricks.
fn asks_of(request: &Request) -> Asks {
    if request.position().tricks_left() == 1 {
        Asks::Ace
    } else {
        Asks::Pair
    }
}

// A play, told by its number of cards.
fn asks_of_play(request: &PlayRequest) -> Asks {
    if request.cards().len() == 8 {
        Asks::Play
    } else {
        Asks::Trick
    }
}

// How many cards of the play led to this position.
fn played(position: &Position) -> u8 {
    8u8.saturating_sub(position.tricks_left().saturating_mul(4))
        .saturating_add(position.trick().len() as u8)
}

fn plain_outcome(outcome: &Outcome) -> Ends {
    match outcome {
        Outcome::Solved(solved) => Ends::Answer(asks_of(solved.request())),
        Outcome::Part(solved) => Ends::Part(solved.part()),
        Outcome::Target(_) => Ends::Answer(Asks::Target),
        Outcome::PlayPart(solved) => Ends::After(played(solved.position())),
        Outcome::Spent => Ends::Spent,
        Outcome::Stopped => Ends::Stopped,
    }
}

/// A call as a plain value.
pub fn plain_call(call: &Call) -> Step {
    match call {
        Call::Submit { caller, asked } => match asked {
            Asked::Solve(request) => Step::Submit(*caller, asks_of(request)),
            Asked::Table(_) => Step::Submit(*caller, Asks::Table),
            Asked::Target(_) => Step::Submit(*caller, Asks::Target),
            Asked::Play(request) => Step::Submit(*caller, asks_of_play(request)),
        },
        Call::Claim { worker } => Step::Claim(*worker),
        Call::Finish {
            worker,
            job,
            claim,
            outcome,
        } => Step::Finish(*worker, *job, *claim, plain_outcome(outcome)),
        Call::Cancel { caller, job } => Step::Cancel(*caller, *job),
        Call::Fetch { caller, job } => Step::Fetch(*caller, *job),
        Call::Shut => Step::Shut,
    }
}

/// What a fetch shows, as a plain value.
pub fn shown(state: &JobState) -> Shows {
    match state {
        JobState::Waiting => Shows::Waiting,
        JobState::Running => Shows::Running,
        JobState::Done(solved) => match solved.answer().as_slice().first() {
            Some(best) => Shows::Done(best.score),
            None => Shows::Done(99),
        },
        JobState::TableDone(_) => Shows::TableDone,
        JobState::TargetDone(solved) => match solved.answer().as_slice().first() {
            Some(first) => Shows::TargetDone(first.score),
            None => Shows::TargetDone(99),
        },
        JobState::PlayDone(trace) => {
            Shows::PlayDone(trace.as_slice().iter().filter(|n| **n == 0).count())
        }
        JobState::Cancelled => Shows::Cancelled,
        JobState::Spent => Shows::Spent,
    }
}

/// A reply as a plain value.
pub fn plain(reply: &Reply) -> MadeReply {
    match reply {
        Reply::Submitted(job) => MadeReply::Job(*job),
        Reply::Claimed { job, claim, .. } => MadeReply::Claimed(*job, *claim),
        Reply::ClaimedTarget { job, claim, .. } => MadeReply::ClaimedTarget(*job, *claim),
        Reply::ClaimedPart {
            job,
            part,
            claim,
            ..
        } => MadeReply::ClaimedPart(*job, *part, *claim),
        Reply::ClaimedPlayPart {
            job,
            part,
            claim,
            ..
        } => MadeReply::ClaimedAfter(*job, *part, *claim),
        Reply::NothingWaits => MadeReply::NothingWaits,
        Reply::Closing => MadeReply::Closing,
        Reply::Recorded => MadeReply::Recorded,
        Reply::Stale => MadeReply::Stale,
        Reply::Cancelled(job) => MadeReply::Cancelled(*job),
        Reply::State(job, state) => MadeReply::State(*job, shown(state)),
        Reply::Shut => MadeReply::Shut,
        Reply::Fault(refusal) => MadeReply::Fault(refusal.number()),
    }
}
