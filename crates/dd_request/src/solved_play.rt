//! Plays with the tricks that declarer's side takes before the first card and after each one.
ghost use Rattle.std.specs.Prelude.{◌≡◌, ◌<◌, ◌≤◌, ◌++◌, ◌∷◌, [], length};
ghost use Rattle.dd_play.specs.Board.{tricks_left};
ghost use Rattle.dd_play.specs.Won.{won};
ghost use Rattle.dd_request.specs.Plays.{play_trace, position_tricks, trace as trace_of};

use crate::play_request::PlayRequest;
use arrayvec::ArrayVec;
use dd_cards::Side;
use dd_play::Position;
use std::marker::Model;

/// The most numbers of a trace.
pub const MOST_NUMBERS: usize = 53;

/// Tricks, 0 to 13 each, of declarer's side: before the first card, and after each one.
#[derive(Drop)]
pub struct Trace {
    tricks: ArrayVec<u8, MOST_NUMBERS>,
}

impl Model for Trace {
    ghost use Rattle.std.specs.Prelude.{List, ℕ};

    ghost Value = { List ℕ };

    ghost view = { λ t. t.tricks.items };
}

impl Trace {
    /// A trace without numbers. It takes no memory.
    pub fn new() -> Trace
        ensures { result ≡ [] }
    {
        Trace {
            tricks: ArrayVec::new(),
        }
    }

    /// One number more at the end.
    pub fn push(&mut self, tricks: u8)
        requires { length self.old < MOST_NUMBERS }
        ensures { self.new ≡ self.old ++ tricks ∷ [] }
    {
        self.tricks.push(tricks);
    }

    /// A trace of these numbers, in their order.
    pub fn of(tricks: ArrayVec<u8, MOST_NUMBERS>) -> Trace
        ensures { result ≡ tricks.items }
    {
        Trace { tricks }
    }

    /// The numbers, in their order.
    pub fn as_slice(&self) -> &[u8]
        ensures tricks { result.now ≡ self.now }
        ensures most { length result.now ≤ MOST_NUMBERS }
    {
        self.tricks.as_slice()
    }

    /// The same trace. It takes no memory.
    pub fn copy(&self) -> Trace
        ensures { result ≡ self.now }
    {
        Trace {
            tricks: ArrayVec::try_from(self.tricks.as_slice()).unwrap_or_default(),
        }
    }
}

/// A play with its trace.
#[derive(Drop)]
pub struct SolvedPlay {
    request: PlayRequest,
    trace: Trace,
}

impl Model for SolvedPlay {
    ghost use Rattle.std.specs.Prelude.{◌≡◌};
    ghost use Rattle.dd_request.specs.Plays.{PlayTrace, trace as trace_of};

    ghost Value = { PlayTrace };

    ghost view = { λ s. record { play = s.request; tricks = s.trace } };

    ghost invariant = { λ s. s.trace ≡ trace_of s.request };
}

impl SolvedPlay {
    /// A play with what is its trace.
    pub fn of(request: PlayRequest, trace: Trace) -> SolvedPlay
        requires { trace ≡ trace_of request }
        ensures { result ≡ record { play = request; tricks = trace } }
    {
        SolvedPlay { request, trace }
    }

    /// What was asked.
    pub fn request(&self) -> &PlayRequest
        ensures { result.now ≡ self.now.play }
    {
        &self.request
    }

    /// The tricks of declarer's side before the first card and after each one.
    pub fn trace(&self) -> &Trace
        ensures value { result.now ≡ self.now.tricks }
        ensures solved { self.now ≡ play_trace self.now.play }
    {
        &self.trace
    }

    /// The same play with the same trace. It takes no memory.
    pub fn copy(&self) -> SolvedPlay
        ensures { result ≡ self.now }
    {
        SolvedPlay {
            request: self.request.copy(),
            trace: self.trace.copy(),
        }
    }
}

/// A position of a play with the tricks that a side, which is declarer's, takes from it on.
#[derive(Drop)]
pub struct PlayPart {
    position: Position,
    side: Side,
    tricks: u8,
}

impl Model for PlayPart {
    ghost use Rattle.std.specs.Prelude.{◌≡◌, ◌≤◌};
    ghost use Rattle.dd_play.specs.Board.{tricks_left};
    ghost use Rattle.dd_play.specs.Won.{won};
    ghost use Rattle.dd_request.specs.Plays.{PositionTricks};

    ghost Value = { PositionTricks };

    ghost view = { λ s. record { board = s.position; side = s.side; tricks = s.tricks } };

    ghost invariant = { λ s. (s.tricks ≤ tricks_left s.position) ×
        (s.tricks ≡ won s.side s.position) };
}

impl PlayPart {
    /// A position with what this side takes from it on.
    pub fn of(position: Position, side: Side, tricks: u8) -> PlayPart
        requires bound { tricks ≤ tricks_left position }
        requires tricks { tricks ≡ won side position }
        ensures { result ≡ record { board = position; side = side; tricks = tricks } }
    {
        PlayPart {
            position,
            side,
            tricks,
        }
    }

    /// The position.
    pub fn position(&self) -> &Position
        ensures { result.now ≡ self.now.board }
    {
        &self.position
    }

    /// Whose tricks they are.
    pub fn side(&self) -> Side
        ensures { result ≡ self.now.side }
    {
        self.side
    }

    /// The tricks that the side takes from the position on.
    pub fn tricks(&self) -> u8
        ensures value { result ≡ self.now.tricks }
        ensures bound { result ≤ tricks_left self.now.board }
        ensures solved { self.now ≡ position_tricks self.now.board self.now.side }
    {
        self.tricks
    }

    /// The same position with the same tricks. It takes no memory.
    pub fn copy(&self) -> PlayPart
        ensures { result ≡ self.now }
    {
        PlayPart {
            position: self.position.copy(),
            side: self.side,
            tricks: self.tricks,
        }
    }
}
