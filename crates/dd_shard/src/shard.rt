//! The shard.
ghost use Rattle.std.specs.Prelude.{◌≡◌, ◌≤◌, List, [], ◌∷◌, length, slice_get, Some, IfSome, MatchOption, IfOk, IsOk, OnOk, OnErr, Contains, option_map};
ghost use Rattle.dd_cards.specs.declared.suit.Suit.{Suit};
ghost use Rattle.dd_play.specs.Board.{Board, IsBoard};
ghost use Rattle.dd_play.specs.Covers.{count_of};
ghost use Rattle.dd_play.specs.Value.{leaders_tricks};
ghost use Rattle.dd_play.specs.Intervals.{Holds};
ghost use Rattle.dd_rank.specs.Depths.{depth_in, all_cards, Covers};
ghost use Rattle.dd_rank.specs.Strings.{shape_of, strings_of};
ghost use Rattle.dd_shard.specs.Entries.{Pair, Entry, IsAbsent, AreEntries, Looks, Notes};
ghost use Rattle.dd_shard.specs.Slots.{told_of};

use crate::slot::Slot;
use dd_limits::MOST_SHAPES;
use dd_play::{Interval, TrickStart};
use dd_rank::{Cover, Depths, OwnerStrings, Shape};
use lru::LruCache;
use std::alloc::{AllocError, Global};
use std::marker::Model;
use std::num::NonZeroUsize;

/// Bounds of the values of positions, by shapes: the last used first, and at most a fixed number of them. A shape has one
/// to eight pairs, each a cover with bounds of the value of each position that it covers, the newest first.
#[derive(Drop)]
pub struct Shard {
    cache: LruCache<Shape, Slot>,
}

impl Model for Shard {
    ghost use Rattle.dd_shard.specs.Entries.{Entries};

    ghost Value = { Entries };

    ghost use Rattle.dd_shard.specs.Kept.{entries_of, IsKept};

    ghost view = { λ s. entries_of s.cache };

    ghost invariant = { λ s. IsKept s.cache };
}

impl Shard {
    /// A shard that remembers nothing and has room for this number of shapes, 1 to `MOST_SHAPES`. It takes memory for
    /// a shape when it comes. The error says that memory ran out.
    pub fn new(alloc: Global, entries: u32) -> Result<Shard, AllocError>
        requires { (1 ≤ entries) × (entries ≤ MOST_SHAPES) }
        ensures { IfOk result (λ shard. (shard.list ≡ []) × (shard.limit ≡ entries)) }
    {
        let limit = match NonZeroUsize::new(entries as usize) {
            Some(limit) => limit,
            None => unreachable!(),
        };
        let cache = LruCache::sparse(alloc, limit)?;
        Ok(Shard { cache })
    }

    /// Bounds of the value of each position that this one covers at the depths that come with them: those of the newest
    /// pair of its shape that covers this position. Nothing where none does. A look is a use of the shape.
    pub fn look(&mut self, position: &TrickStart) -> Option<(Interval, Depths)>
        ensures looks { Looks position.now (option_map told_of result) self.old self.new }
        ensures holds { IfSome result (λ told. (q : Board) → IsBoard q
            → Covers position.now (depth_in told.1) q → Holds told.0 (leaders_tricks q)) }
        ensures within { IfSome result (λ told. (u : Suit)
            → depth_in told.1 u ≤ count_of u (all_cards position.now)) }
    {
        self.look_by(position, &OwnerStrings::of(position))
    }

    /// The same, where the position's strings are known.
    pub fn look_by(
        &mut self,
        position: &TrickStart,
        strings: &OwnerStrings,
    ) -> Option<(Interval, Depths)>
        requires { strings.now ≡ strings_of position.now }
        ensures looks { Looks position.now (option_map told_of result) self.old self.new }
        ensures holds { IfSome result (λ told. (q : Board) → IsBoard q
            → Covers position.now (depth_in told.1) q → Holds told.0 (leaders_tricks q)) }
        ensures within { IfSome result (λ told. (u : Suit)
            → depth_in told.1 u ≤ count_of u (all_cards position.now)) }
    {
        // The proof reads here that the position is a legal one.
        let _ = position.position();
        self.cache.get(&strings.shape())?.look(strings)
    }

    /// Remembers bounds of the value of each position that this one covers at these depths, beside what is known of its
    /// shape. The error says that memory ran out; it never comes where the shape is known already.
    pub fn note(
        &mut self,
        position: &TrickStart,
        depths: Depths,
        interval: Interval,
    ) -> Result<(), AllocError>
        requires within { (u : Suit) → depth_in depths u ≤ count_of u (all_cards position.now) }
        requires holds { (q : Board) → IsBoard q → Covers position.now (depth_in depths) q
            → Holds interval (leaders_tricks q) }
        ensures ok { OnOk result
            (Notes position.now (told_of (interval, depths)) self.old self.new) }
        ensures err { OnErr result ((self.new ≡ self.old)
            × IsAbsent (shape_of position.now) self.old.list) }
        ensures succeeds { (e : Entry) → Contains self.old.list e → e.shape ≡ shape_of position.now
            → IsOk result }
    {
        self.note_by(position, &OwnerStrings::of(position), depths, interval)
    }

    /// The same, where the position's strings are known.
    pub fn note_by(
        &mut self,
        position: &TrickStart,
        strings: &OwnerStrings,
        depths: Depths,
        interval: Interval,
    ) -> Result<(), AllocError>
        requires strings { strings.now ≡ strings_of position.now }
        requires within { (u : Suit) → depth_in depths u ≤ count_of u (all_cards position.now) }
        requires holds { (q : Board) → IsBoard q → Covers position.now (depth_in depths) q
            → Holds interval (leaders_tricks q) }
        ensures ok { OnOk result
            (Notes position.now (told_of (interval, depths)) self.old self.new) }
        ensures err { OnErr result ((self.new ≡ self.old)
            × IsAbsent (shape_of position.now) self.old.list) }
        ensures succeeds { (e : Entry) → Contains self.old.list e → e.shape ≡ shape_of position.now
            → IsOk result }
    {
        // The proof reads here that the position is a legal one.
        let _ = position.position();
        let cover = Cover::new(position, depths, strings);
        let slot = self.cache.get_or_insert_mut(strings.shape(), Slot::new)?;
        slot.note(cover, interval);
        Ok(())
    }

    /// The number of shapes.
    pub fn len(&self) -> u32
        ensures len { result ≡ length self.now.list }
        ensures bound { result ≤ self.now.limit }
        ensures entries { AreEntries self.now }
    {
        self.cache.len() as u32
    }

    /// The number of shapes that there may be.
    pub fn limit(&self) -> u32
        ensures limit { result ≡ self.now.limit }
        ensures bound { (1 ≤ result) × (result ≤ MOST_SHAPES) }
    {
        self.cache.cap().get() as u32
    }

    /// The newest pair of the shape at this place, 0 for the last used: its position, depths and bounds. It is no use of
    /// the shape.
    pub fn entry(&self, place: u32) -> Option<(&TrickStart, Depths, Interval)>
        ensures { MatchOption result (length self.now.list ≤ place) (λ found. (e : Entry)
            × (x : Pair) × (rest : List Pair)
            × (slice_get self.now.list place ≡ Some e) × (e.pairs ≡ x ∷ rest)
            × (found.0.now ≡ x.board) × (found.1 ≡ x.depths) × (found.2.lo ≡ x.lo)
            × (found.2.hi ≡ x.hi)) }
    {
        let (_, slot) = self.cache.iter().nth(place as usize)?;
        let newest = slot.newest()?;
        Some((newest.cover.start(), newest.cover.depths(), newest.bounds))
    }
}
