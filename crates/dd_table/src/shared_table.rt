//! The table.
ghost use Rattle.std.specs.Prelude.{◌≡◌, ◌<◌, ◌≤◌, IfOk, IfSome, vec_len};
ghost use Rattle.dd_cards.specs.declared.suit.Suit.{Suit};
ghost use Rattle.dd_play.specs.Board.{Board, IsBoard};
ghost use Rattle.dd_play.specs.Covers.{count_of};
ghost use Rattle.dd_play.specs.Intervals.{Holds};
ghost use Rattle.dd_play.specs.Value.{leaders_tricks};
ghost use Rattle.dd_rank.specs.Depths.{all_cards, depth_in, Covers};
ghost use Rattle.dd_rank.specs.Strings.{strings_of};
ghost use Rattle.dd_table.specs.Places.{shard_of};

use crate::entry::FrontEntry;
use dd_limits::{MOST_SHAPES, MOST_SHARDS};
use dd_play::{Interval, TrickStart};
use dd_rank::{Depths, OwnerStrings, Shape};
use dd_shard::Shard;
use once_cell::race::OnceBox;
use std::alloc::{AllocError, Global};
use std::marker::Model;
use std::sync::{Mutex, Wait};

/// The cells of a table's front.
pub const FRONT_CELLS: u16 = 4096;

/// A table of bounds that threads share: shards, each behind a lock of its own, and a front of exact values that is read
/// without waiting. Contracts see the names of the front's cells.
#[derive(Drop)]
pub struct SharedTable {
    pub(crate) shards: Vec<Mutex<Shard>>,
    pub(crate) front: Vec<OnceBox<FrontEntry>>,
    pub(crate) alloc: Global,
}

impl Model for SharedTable {
    ghost use Rattle.std.specs.Prelude.{◌≡◌, ◌<◌, ◌≤◌, ℕ, List, map, vec_len};
    ghost use Rattle.once_cell.specs.Once.{cell_name};

    ghost Value = { List ℕ };

    ghost view = { λ t. map cell_name t.front.items };

    ghost invariant = { λ t. (0 < vec_len t.shards) × (vec_len t.shards ≤ 256)
        × (vec_len t.front ≡ 4096) };
}

impl SharedTable {
    /// A table that has learned nothing, of 1 to 256 shards, each with room for 1 to 65,536 shapes. The error says that
    /// memory ran out.
    pub fn new(alloc: Global, shards: u32, entries: u32) -> Result<SharedTable, AllocError>
        requires shards { (1 ≤ shards) × (shards ≤ MOST_SHARDS) }
        requires entries { (1 ≤ entries) × (entries ≤ MOST_SHAPES) }
    {
        Ok(SharedTable {
            shards: empty_shards(alloc, shards, entries)?,
            front: empty_cells(alloc)?,
            alloc,
        })
    }

    // The lock of the shard of this shape.
    fn shard(&self, shape: Shape) -> &Mutex<Shard> {
        &self.shards[shard_of(self.shards.len(), shape)]
    }

    /// What the shard of the position tells of it, under one lock: bounds of the value of each position that this one covers
    /// at the depths that come with them, and nothing where it knows none.
    pub fn look<R: Wait>(&self, rt: &R, start: &TrickStart) -> Option<(Interval, Depths)>
        ensures holds { IfSome result (λ told. (q : Board) → IsBoard q
            → Covers start.now (depth_in told.1) q → Holds told.0 (leaders_tricks q)) }
        ensures within { IfSome result (λ told. (u : Suit)
            → depth_in told.1 u ≤ count_of u (all_cards start.now)) }
    {
        self.look_by(rt, start, &OwnerStrings::of(start))
    }

    // The same, where the strings of the position are known.
    pub(crate) fn look_by<R: Wait>(
        &self,
        rt: &R,
        start: &TrickStart,
        strings: &OwnerStrings,
    ) -> Option<(Interval, Depths)>
        requires { strings.now ≡ strings_of start.now }
        ensures holds { IfSome result (λ told. (q : Board) → IsBoard q
            → Covers start.now (depth_in told.1) q → Holds told.0 (leaders_tricks q)) }
        ensures within { IfSome result (λ told. (u : Suit)
            → depth_in told.1 u ≤ count_of u (all_cards start.now)) }
    {
        self.shard(strings.shape()).lock(rt).look_by(start, strings)
    }

    // The same without waiting: nothing too where another thread holds the shard.
    pub(crate) fn try_look_by(
        &self,
        start: &TrickStart,
        strings: &OwnerStrings,
    ) -> Option<(Interval, Depths)>
        requires { strings.now ≡ strings_of start.now }
        ensures holds { IfSome result (λ told. (q : Board) → IsBoard q
            → Covers start.now (depth_in told.1) q → Holds told.0 (leaders_tricks q)) }
        ensures within { IfSome result (λ told. (u : Suit)
            → depth_in told.1 u ≤ count_of u (all_cards start.now)) }
    {
        self.shard(strings.shape())
            .try_lock()?
            .look_by(start, strings)
    }

    // Tells the shard of the position with these strings, under one lock, bounds of the value of each position that this
    // one covers at these depths. Where there is no memory for them nothing is kept.
    pub(crate) fn note_by<R: Wait>(
        &self,
        rt: &R,
        start: &TrickStart,
        strings: &OwnerStrings,
        depths: Depths,
        interval: Interval,
    )
        requires strings { strings.now ≡ strings_of start.now }
        requires within { (u : Suit) → depth_in depths u ≤ count_of u (all_cards start.now) }
        requires holds { (q : Board) → IsBoard q → Covers start.now (depth_in depths) q
            → Holds interval (leaders_tricks q) }
    {
        let mut shard = self.shard(strings.shape()).lock(rt);
        keep(&mut shard, start, strings, depths, interval);
    }

    // The same without waiting: nothing is kept either where another thread holds the shard.
    pub(crate) fn try_note_by(
        &self,
        start: &TrickStart,
        strings: &OwnerStrings,
        depths: Depths,
        interval: Interval,
    )
        requires strings { strings.now ≡ strings_of start.now }
        requires within { (u : Suit) → depth_in depths u ≤ count_of u (all_cards start.now) }
        requires holds { (q : Board) → IsBoard q → Covers start.now (depth_in depths) q
            → Holds interval (leaders_tricks q) }
    {
        if let Some(mut shard) = self.shard(strings.shape()).try_lock() {
            keep(&mut shard, start, strings, depths, interval);
        }
    }

    /// The number of shapes in all shards, added up one shard after the other: while others note it may be no moment's.
    pub fn len<R: Wait>(&self, rt: &R) -> u64 {
        let mut sum = 0;
        for shard in &self.shards {
            sum += len_of(&shard.lock(rt)) as u64;
        }
        sum
    }
}

// Tells the shard.
fn keep(
    shard: &mut Shard,
    start: &TrickStart,
    strings: &OwnerStrings,
    depths: Depths,
    interval: Interval,
)
    requires strings { strings.now ≡ strings_of start.now }
    requires within { (u : Suit) → depth_in depths u ≤ count_of u (all_cards start.now) }
    requires holds { (q : Board) → IsBoard q → Covers start.now (depth_in depths) q
        → Holds interval (leaders_tricks q) }
{
    // Bounds more that find no memory are bounds less to look at, and no fault.
    let _ = shard.note_by(start, strings, depths, interval);
}

// The place of the shard for a shape, among so many.
#[tactic(auto, unfolding(crate::specs::Places::shard_of))]
fn shard_of(count: usize, shape: Shape) -> usize
    requires { 0 < count }
    ensures place { result ≡ shard_of count shape }
    ensures bound { result < count }
{
    ((shape.hash_code() >> 32) % count as u64) as usize
}

// So many shards that have learned nothing.
fn empty_shards(alloc: Global, count: u32, entries: u32) -> Result<Vec<Mutex<Shard>>, AllocError>
    requires { (1 ≤ entries) × (entries ≤ MOST_SHAPES) }
    ensures { IfOk result (λ shards. vec_len shards ≡ count) }
{
    let mut shards = Vec::with_capacity(alloc, count as usize)?;
    for _ in 0..count {
        shards.push(Mutex::new(Shard::new(alloc, entries)?))?;
    }
    Ok(shards)
}

// The cells of a front, all empty.
fn empty_cells(alloc: Global) -> Result<Vec<OnceBox<FrontEntry>>, AllocError>
    ensures { IfOk result (λ cells. vec_len cells ≡ FRONT_CELLS) }
{
    let mut cells = Vec::with_capacity(alloc, FRONT_CELLS as usize)?;
    for _ in 0..FRONT_CELLS {
        cells.push(OnceBox::new(alloc))?;
    }
    Ok(cells)
}

// The number of shapes of a shard.
fn len_of(shard: &Shard) -> u32
    ensures { result ≤ MOST_SHAPES }
{
    // The proof reads here how many there may be.
    let _most = shard.limit();
    shard.len()
}
