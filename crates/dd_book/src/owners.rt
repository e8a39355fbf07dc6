//! The owners of jobs: whose turn it is.
ghost use Rattle.std.specs.Prelude.{◌≡◌, ◌<◌, ◌≤◌, ◌++◌, ◌∷◌, [], ℕ, List, Option, None, Some, true, false, OnOk, OnErr, length, max, slice_get, slice_set};
ghost use Rattle.std.specs.List.{position};
ghost use Rattle.std.specs.Option.{ForSome};
ghost use Rattle.dd_book.specs.Jobs.{JobOf, first_turn, has_waiting, is_due};
ghost use Rattle.dd_book.specs.Indexes.{AreOwners, IsKnown, count_of};
ghost use Rattle.dd_book.specs.Tournaments.{with_key};
ghost use Rattle.dd_book.specs.Waiting.{IsFirstPlace, IsNextPlace, has_place};

use crate::counts::{Counts, count, is_known, know, raise};
use crate::tournament::Tournament;
use crate::waiting::{Waiting, first_of, keep, next_of, put, take};
use std::alloc::{AllocError, Global};
use std::collections::{BTreeMap, BTreeSet};

/// What is kept of the owners of jobs.
#[derive(Drop)]
pub(crate) struct Owners {
    // The places of the jobs that wait.
    waiting: Waiting,
    // When each owner had its last turn.
    last_turns: Counts,
    // The same at the first place of each owner that waits.
    turns: Tournament,
}

impl Owners {
    /// No owners. It takes no memory.
    pub(crate) fn new(alloc: Global) -> Owners
        ensures { AreOwners [] result.waiting result.last_turns result.turns }
    {
        Owners {
            waiting: BTreeSet::new(alloc),
            last_turns: BTreeMap::new(alloc),
            turns: Tournament::new(alloc),
        }
    }

    /// The place of the first job that is due.
    pub(crate) fn next(&self) -> Option<usize>
        ensures { (jobs : List JobOf)
            → AreOwners jobs self.now.waiting self.now.last_turns self.now.turns
            → result ≡ position (is_due jobs) jobs }
    {
        match self.turns.first() {
            Some((_, place)) => Some(place),
            None => None,
        }
    }

    /// The first place of this owner's jobs that wait, from this one on.
    pub(crate) fn next_of(&self, owner: u64, from: usize) -> Option<usize>
        ensures { IsNextPlace self.now.waiting owner from result }
    {
        next_of(&self.waiting, owner, from)
    }

    /// Where a new job of this owner's puts it in the order, after so many claims.
    pub(crate) fn first_turn(&self, owner: u64, claims: u64) -> u64
        ensures { (jobs : List JobOf)
            → AreOwners jobs self.now.waiting self.now.last_turns self.now.turns
            → result ≡ first_turn owner jobs claims }
    {
        if is_known(&self.last_turns, owner) {
            0
        } else {
            claims
        }
    }

    /// Keeps room for a job at the end. No job changes here.
    pub(crate) fn make_room(&mut self, place: usize) -> Result<(), AllocError>
        requires { place ≤ length self.old.turns }
        ensures kept { (jobs : List JobOf)
            → AreOwners jobs self.old.waiting self.old.last_turns self.old.turns
            → AreOwners jobs self.new.waiting self.new.last_turns self.new.turns }
        ensures room { OnOk result (place < length self.new.turns) }
    {
        if self.turns.len() <= place {
            self.turns.grow()?;
        }
        Ok(())
    }

    /// A new job of this owner stands at the end, after so many claims, and waits. Where memory runs out no job changes.
    pub(crate) fn add(&mut self, owner: u64, place: usize, claims: u64) -> Result<(), AllocError>
        requires { (jobs : List JobOf) × (place < length self.old.turns)
            × AreOwners jobs self.old.waiting self.old.last_turns self.old.turns }
        ensures pushed { OnOk result ((jobs : List JobOf) (job : JobOf) → place ≡ length jobs
            → job.owner ≡ owner → job.last_turn ≡ first_turn owner jobs claims → has_waiting job ≡ true
            → AreOwners jobs self.old.waiting self.old.last_turns self.old.turns
            → AreOwners (jobs ++ job ∷ []) self.new.waiting self.new.last_turns self.new.turns) }
        ensures err { OnErr result ((jobs : List JobOf) → place ≡ length jobs
            → AreOwners jobs self.old.waiting self.old.last_turns self.old.turns
            → AreOwners jobs self.new.waiting self.new.last_turns self.new.turns) }
    {
        let before = first_of(&self.waiting, owner);
        put(&mut self.waiting, owner, place)?;
        if let Err(short) = know(&mut self.last_turns, owner, claims) {
            take(&mut self.waiting, owner, place);
            return Err(short);
        }
        self.reseat(owner, before);
        Ok(())
    }

    /// The job at a place of this owner waits, which did not.
    pub(crate) fn wait(&mut self, owner: u64, place: usize) -> Result<(), AllocError>
        requires { (jobs : List JobOf) × (place < length self.old.turns)
            × AreOwners jobs self.old.waiting self.old.last_turns self.old.turns }
        ensures changed { OnOk result ((jobs : List JobOf) (was job : JobOf)
            → slice_get jobs place ≡ Some was → was.owner ≡ owner → job.owner ≡ owner
            → job.last_turn ≡ was.last_turn → has_waiting job ≡ true
            → AreOwners jobs self.old.waiting self.old.last_turns self.old.turns
            → AreOwners (slice_set jobs place job) self.new.waiting self.new.last_turns self.new.turns) }
        ensures err { OnErr result ((jobs : List JobOf)
            → AreOwners jobs self.old.waiting self.old.last_turns self.old.turns
            → AreOwners jobs self.new.waiting self.new.last_turns self.new.turns) }
    {
        let before = first_of(&self.waiting, owner);
        put(&mut self.waiting, owner, place)?;
        self.reseat(owner, before);
        Ok(())
    }

    /// The job at a place of this owner does not wait any more. It takes no memory.
    pub(crate) fn end(&mut self, owner: u64, place: usize)
        requires { (jobs : List JobOf)
            × AreOwners jobs self.old.waiting self.old.last_turns self.old.turns }
        ensures { (jobs : List JobOf) (was job : JobOf)
            → slice_get jobs place ≡ Some was → was.owner ≡ owner → job.owner ≡ owner
            → job.last_turn ≡ was.last_turn → has_waiting job ≡ false
            → AreOwners jobs self.old.waiting self.old.last_turns self.old.turns
            → AreOwners (slice_set jobs place job) self.new.waiting self.new.last_turns self.new.turns }
    {
        let before = first_of(&self.waiting, owner);
        take(&mut self.waiting, owner, place);
        self.reseat(owner, before);
    }

    /// A part of the job at a place of this owner is claimed. It takes no memory.
    pub(crate) fn claim(&mut self, owner: u64, place: usize, claim: u64, waits: bool)
        requires kept { (jobs : List JobOf)
            × AreOwners jobs self.old.waiting self.old.last_turns self.old.turns }
        requires known { IsKnown self.old.last_turns owner }
        requires waited { has_place self.old.waiting owner place ≡ true }
        ensures { (jobs : List JobOf) (was job : JobOf)
            → slice_get jobs place ≡ Some was → was.owner ≡ owner → job.owner ≡ owner
            → job.last_turn ≡ max was.last_turn claim → has_waiting job ≡ waits
            → AreOwners jobs self.old.waiting self.old.last_turns self.old.turns
            → AreOwners (slice_set jobs place job) self.new.waiting self.new.last_turns self.new.turns }
    {
        let before = first_of(&self.waiting, owner);
        keep(&mut self.waiting, owner, place, waits);
        raise(&mut self.last_turns, owner, claim);
        self.reseat(owner, before);
    }

    // The last turn of the owner goes from the place that was its first to the one that is.
    fn reseat(&mut self, owner: u64, before: Option<usize>)
        requires was { ForSome before (λ place. place < length self.old.turns) }
        requires is { (place : ℕ) → has_place self.old.waiting owner place ≡ true
            → place < length self.old.turns }
        ensures waiting { self.new.waiting ≡ self.old.waiting }
        ensures last_turns { self.new.last_turns ≡ self.old.last_turns }
        ensures turns { (now : Option ℕ)
            × (self.new.turns ≡ with_key (with_key self.old.turns before None) now
            (Some (count_of self.old.last_turns owner)))
            × IsFirstPlace self.old.waiting owner now }
    {
        self.turns.put(before, None);
        let now = first_of(&self.waiting, owner);
        let last = count(&self.last_turns, owner);
        self.turns.put(now, Some(last));
    }
}
