//! The pairs of a shape.
ghost use Rattle.std.specs.Prelude.{◌≡◌, ◌≤◌, [], ◌∷◌, ◌++◌, List, length, Option, Some, MatchOption, Contains, option_map};
ghost use Rattle.dd_play.specs.Board.{Board, IsBoard};
ghost use Rattle.dd_play.specs.Intervals.{Holds};
ghost use Rattle.dd_play.specs.Value.{leaders_tricks};
ghost use Rattle.dd_rank.specs.Strings.{strings_of, shape_in, shape_of};
ghost use Rattle.dd_rank.specs.Cover.{IsSameCover};
ghost use Rattle.dd_shard.specs.Entries.{Pair, cover_of, IsCoverOf, NoneCovers, Tells, PutsFirst};
ghost use Rattle.dd_shard.specs.Slots.{pair_of, told_of, known_pairs, HaveShape};
ghost use Rattle.dd_shard.specs.declared.slot.Bounded.{Bounded as BoundedOf};

use arrayvec::ArrayVec;
use dd_play::Interval;
use dd_rank::{Cover, Depths, OwnerStrings};
use std::marker::Model;

/// The most pairs that a shape may have.
pub const MOST_PAIRS: usize = 8;

// A cover, and bounds of the value of each position that it covers.
#[derive(Drop)]
pub struct Bounded {
    pub cover: Cover,
    pub bounds: Interval,
}

// The pairs of a shape, seen newest first.
#[derive(Drop)]
pub struct Slot {
    // The oldest first, so that a new pair goes to the end. Each place has a pair; only the unused ones are blank.
    pairs: ArrayVec<Option<Bounded>, MOST_PAIRS>,
}

impl Model for Slot {
    ghost use Rattle.std.specs.Prelude.{List, reverse};
    ghost use Rattle.dd_shard.specs.Entries.{Pair};
    ghost use Rattle.dd_shard.specs.Slots.{known_pairs, AllKnown};

    ghost Value = { List Pair };

    ghost view = { λ s. reverse (known_pairs s.pairs.items) };

    ghost invariant = { λ s. AllKnown s.pairs.items };
}

impl Slot {
    // No pair.
    pub fn new() -> Slot
        ensures { result ≡ [] }
    {
        Slot {
            pairs: ArrayVec::new(),
        }
    }

    // The bounds of the first pair that covers the position with these owners, and its depths; nothing where no pair does.
    pub fn look(&self, strings: &OwnerStrings) -> Option<(Interval, Depths)>
        requires { HaveShape (shape_in strings.now) self.now }
        ensures { (q : Board) → IsBoard q → q.trick ≡ [] → strings.now ≡ strings_of q
            → Tells q self.now (option_map told_of result) }
    {
        let pair = covering_pair(&self.pairs, strings)?;
        Some((pair.bounds, pair.cover.depths()))
    }

    // Puts a pair first. One with the same cover goes, and its bounds hold as well; else the oldest of too many goes.
    pub fn note(&mut self, cover: Cover, bounds: Interval)
        requires shape { HaveShape (shape_of cover.board) self.old }
        requires known { (x : Pair) → Contains self.old x → IsSameCover (cover_of x) cover
            → (x.lo ≤ leaders_tricks cover.board) × (leaders_tricks cover.board ≤ x.hi) }
        requires holds { Holds bounds (leaders_tricks cover.board) }
        ensures { PutsFirst (pair_of cover bounds) self.old self.new }
    {
        let bounds = match place_of(&self.pairs, &cover) {
            Some(place) => match self.pairs.remove(place) {
                Some(pair) => match pair.bounds.meet(bounds) {
                    Some(both) => both,
                    None => unreachable!(),
                },
                None => unreachable!(),
            },
            None => {
                if self.pairs.is_full() {
                    self.pairs.remove(0);
                }
                bounds
            }
        };
        self.pairs.push(Some(Bounded { cover, bounds }));
    }

    // The first pair, and nothing where there is none.
    pub fn newest(&self) -> Option<&Bounded>
        ensures { MatchOption result (self.now ≡ [])
            (λ x. (rest : List Pair) × (self.now ≡ pair_of x.now.cover x.now.bounds ∷ rest)) }
    {
        self.pairs.last()?.as_ref()
    }
}

// The last of these pairs that covers the position with these owners.
fn covering_pair<'a>(pairs: &'a [Option<Bounded>], strings: &OwnerStrings) -> Option<&'a Bounded>
    requires { HaveShape (shape_in strings.now) (known_pairs pairs.now) }
    ensures { (q : Board) → IsBoard q → q.trick ≡ [] → strings.now ≡ strings_of q
        → MatchOption result (NoneCovers q (known_pairs pairs.now))
        (λ x. (front : List (Option BoundedOf)) × (back : List (Option BoundedOf))
        × (pairs.now ≡ front ++ Some x.now ∷ back) × NoneCovers q (known_pairs back)
        × IsCoverOf (pair_of x.now.cover x.now.bounds) q) }
{
    for place in (0..pairs.len()).rev() {
        if let Some(pair) = &pairs[place] {
            if pair.cover.covers(strings) {
                return Some(pair);
            }
        }
    }
    None
}

// The place of the last of these pairs that has the same cover.
fn place_of(pairs: &[Option<Bounded>], cover: &Cover) -> Option<usize>
    requires { HaveShape (shape_of cover.now.board) (known_pairs pairs.now) }
    ensures { MatchOption result ((y : Pair) → Contains (known_pairs pairs.now) y
        → ¬ IsSameCover (cover_of y) cover.now)
        (λ place. (front : List (Option BoundedOf)) × (x : BoundedOf)
        × (back : List (Option BoundedOf))
        × (pairs.now ≡ front ++ Some x ∷ back) × (length front ≡ place)
        × ((y : Pair) → Contains (known_pairs back) y → ¬ IsSameCover (cover_of y) cover.now)
        × IsSameCover x.cover cover.now) }
{
    for place in (0..pairs.len()).rev() {
        if let Some(pair) = &pairs[place] {
            if pair.cover.is_same(cover) {
                return Some(place);
            }
        }
    }
    None
}
