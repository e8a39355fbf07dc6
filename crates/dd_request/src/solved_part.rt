//! The parts of a table with their results.
ghost use Rattle.std.specs.Prelude.{◌≡◌, ◌<◌, ◌≤◌, ◌↔◌, ◌&&◌, ◌==◌, IsTrue};
ghost use Rattle.dd_cards.specs.Same.{same_hands};
ghost use Rattle.dd_request.specs.Results.{contract_of, part_result, tricks_of};

use crate::table_request::{PARTS, TableRequest};
use std::marker::Model;

/// A part of a table with its result.
#[derive(Drop)]
pub struct SolvedPart {
    request: TableRequest,
    part: u8,
    tricks: u8,
}

impl Model for SolvedPart {
    ghost use Rattle.std.specs.Prelude.{◌≡◌, ◌<◌, ◌≤◌};
    ghost use Rattle.dd_request.specs.Results.{PartResult, tricks_of, contract_of};

    ghost Value = { PartResult };

    ghost view = { λ s. record { hands = s.request; part = s.part; tricks = s.tricks } };

    ghost invariant = { λ s. (s.part < 20) × (s.tricks ≤ 13) ×
        (s.tricks ≡ tricks_of s.request (contract_of s.part)) };
}

impl SolvedPart {
    /// A part, 0 to 19, of a request with what its result is.
    pub fn of(request: TableRequest, part: u8, tricks: u8) -> SolvedPart
        requires part { part < PARTS }
        requires bound { tricks ≤ 13 }
        requires tricks { tricks ≡ tricks_of request (contract_of part) }
        ensures { result ≡ record { hands = request; part = part; tricks = tricks } }
    {
        SolvedPart {
            request,
            part,
            tricks,
        }
    }

    /// The request whose part it is.
    pub fn request(&self) -> &TableRequest
        ensures { result.now ≡ self.now.hands }
    {
        &self.request
    }

    /// The number of the part, 0 to 19: four times the strain's code and the declarer's.
    pub fn part(&self) -> u8
        ensures value { result ≡ self.now.part }
        ensures bound { result < PARTS }
    {
        self.part
    }

    /// The tricks, 0 to 13, of the declarer's side.
    pub fn tricks(&self) -> u8
        ensures value { result ≡ self.now.tricks }
        ensures bound { result ≤ 13 }
        ensures solved { self.now ≡ part_result self.now.hands self.now.part }
    {
        self.tricks
    }

    /// Is it this part of the request?
    pub fn is_part_of(&self, request: &TableRequest, part: usize) -> bool
        ensures test { result ≡ (same_hands request.now self.now.hands && (self.now.part == part)) }
        ensures is { IsTrue result ↔ (self.now ≡ part_result request.now part) }
    {
        *request == self.request && self.part as usize == part
    }

    /// The same part with the same result. It takes no memory.
    pub fn copy(&self) -> SolvedPart
        ensures { result ≡ self.now }
    {
        SolvedPart {
            request: self.request.copy(),
            part: self.part,
            tricks: self.tricks,
        }
    }
}
