//! A tournament of keys in places.
ghost use Rattle.std.specs.Prelude.{◌≡◌, ◌<◌, ◌≤◌, ◌+◌, ◌*◌, ◌^◌, ◌++◌, ◌∷◌, [], ℕ, None, Some, OnOk, OnErr, MatchOption, MatchResult, length, slice_set};
ghost use Rattle.dd_book.specs.Tournaments.{IsFirstKey, IsWon, comes_before, earlier, key_at, own_entry, with_key};
ghost use Rattle.std.specs.Option.{ForSome};

use std::alloc::{AllocError, Global};
use std::marker::Model;

// A key with its place.
type Entry = (u64, usize);

/// Keys by their places, some of which have none. The first of all is known, and a change is made
/// along one path.
#[derive(Drop)]
pub(crate) struct Tournament {
    keys: Vec<Option<u64>>,
    // For each place the first entry of it and all places below it. Below a place are twice the
    // place and one, and twice the place and two.
    winners: Vec<Option<Entry>>,
}

impl Model for Tournament {
    ghost use Rattle.std.specs.Prelude.{ℕ, List, Option};
    ghost use Rattle.dd_book.specs.Tournaments.{IsTournament};

    ghost Value = { List (Option ℕ) };

    ghost view = { λ t. t.keys.items };

    ghost invariant = { λ t. IsTournament t.keys.items t.winners.items };
}

impl Tournament {
    /// No places. It takes no memory.
    pub(crate) fn new(alloc: Global) -> Tournament
        ensures { result ≡ [] }
    {
        Tournament {
            keys: Vec::new(alloc),
            winners: Vec::new(alloc),
        }
    }

    /// How many places there are.
    pub(crate) fn len(&self) -> usize
        ensures { result ≡ length self.now }
    {
        self.keys.len()
    }

    /// One more place, without a key.
    pub(crate) fn grow(&mut self) -> Result<(), AllocError>
        ensures { MatchResult result (λ _. self.new ≡ self.old ++ None ∷ []) (λ _. self.new ≡ self.old) }
    {
        self.keys.reserve(1)?;
        self.winners.reserve(1)?;
        self.keys.push_reserved(None);
        self.winners.push_reserved(None);
        Ok(())
    }

    /// Puts this key, or none, at a place, if there is a place.
    pub(crate) fn put(&mut self, place: Option<usize>, key: Option<u64>)
        requires { ForSome place (λ p. p < length self.old) }
        ensures { self.new ≡ with_key self.old place key }
    {
        if let Some(place) = place {
            self.set(place, key);
        }
    }

    // Puts this key, or none, at a place.
    fn set(&mut self, place: usize, key: Option<u64>)
        requires { place < length self.old }
        ensures { self.new ≡ slice_set self.old place key }
    {
        self.keys[place] = key;
        replay(&self.keys, &mut self.winners, place);
    }

    /// The first of all keys, with its place.
    pub(crate) fn first(&self) -> Option<Entry>
        ensures { MatchOption result ((place : ℕ) → key_at self.now place ≡ None)
            (λ entry. IsFirstKey self.now entry.0 entry.1) }
    {
        let _ = &self.keys;
        winner(&self.winners, 0)
    }
}

// The winner at a place, none past the end.
fn winner(winners: &[Option<Entry>], place: usize) -> Option<Entry>
    ensures { result ≡ key_at winners.now place }
{
    match winners.get(place) {
        Some(winner) => *winner,
        None => None,
    }
}

// The entry of a place.
fn own_entry(keys: &[Option<u64>], place: usize) -> Option<Entry>
    requires { place < length keys.now }
    ensures { result ≡ own_entry keys.now place }
{
    match keys[place] {
        Some(key) => Some((key, place)),
        None => None,
    }
}

// Of two entries the one that comes first.
fn earlier(a: Option<Entry>, b: Option<Entry>) -> Option<Entry>
    ensures { result ≡ earlier a b }
{
    match (a, b) {
        (Some(x), Some(y)) => if comes_before(y, x) { b } else { a },
        (Some(_), None) => a,
        (None, _) => b,
    }
}

// Does the first entry come before the second?
fn comes_before(one: Entry, other: Entry) -> bool
    ensures { result ≡ comes_before one other }
{
    one.0 < other.0 || (one.0 == other.0 && one.1 < other.1)
}

// Makes the winner at a place right, where all others are, and those that rest on it.
fn replay(keys: &[Option<u64>], winners: &mut [Option<Entry>], place: usize)
    requires within { (place < length keys.now) × (length winners.old ≡ length keys.now) }
    requires small { length keys.now < 2 ^ 60 }
    requires others { (i : ℕ) → (i ≡ place → ⊥) → IsWon keys.now winners.old i }
    ensures won { (i : ℕ) → IsWon keys.now winners.new i }
{
    let below = earlier(
        winner(winners, 2 * place + 1),
        winner(winners, 2 * place + 2),
    );
    winners[place] = earlier(own_entry(keys, place), below);
    if place > 0 {
        replay(keys, winners, (place - 1) / 2);
    }
}
