//! A table as a search sees it.
ghost use Rattle.std.specs.Prelude.{◌≡◌, ◌≤◌, IfSome};
ghost use Rattle.dd_cards.specs.declared.suit.Suit.{Suit};
ghost use Rattle.dd_play.specs.Board.{Board, IsBoard};
ghost use Rattle.dd_play.specs.Covers.{count_of};
ghost use Rattle.dd_play.specs.Intervals.{Holds};
ghost use Rattle.dd_play.specs.Value.{leaders_tricks};
ghost use Rattle.dd_rank.specs.Depths.{all_cards, depth_in, Covers};
ghost use Rattle.dd_rank.specs.Strings.{strings_of};

use crate::front::slot_by;
use crate::shared_table::SharedTable;
use dd_bounds::Bounds;
use dd_play::{Interval, TrickStart};
use dd_rank::{Depths, OwnerStrings, covered_positions};
use std::sync::Wait;

/// A table that threads share, as the search of one of them sees it.
#[derive(Drop)]
pub struct View<'a, R> {
    table: &'a SharedTable,
    rt: &'a R,
}

impl SharedTable {
    /// The table as a search of this thread sees it.
    pub fn view<'a, R>(&'a self, rt: &'a R) -> View<'a, R> {
        View { table: self, rt }
    }

    // What the front tells of a position with these strings: its value, at the depths of all cards.
    fn exact(&self, start: &TrickStart, strings: &OwnerStrings) -> Option<(Interval, Depths)>
        requires { strings.now ≡ strings_of start.now }
        ensures exact { IfSome result (λ told. told.0.lo ≡ told.0.hi) }
        ensures holds { IfSome result (λ told. (q : Board) → IsBoard q
            → Covers start.now (depth_in told.1) q → Holds told.0 (leaders_tricks q)) }
        ensures within { IfSome result (λ told. (u : Suit)
            → depth_in told.1 u ≤ count_of u (all_cards start.now)) }
    {
        // The proof reads here that it is a legal state of play.
        let _ = start.position();
        let mut note = self.front_note(slot_by(strings));
        let value = self.front_held(&mut note)?.value_by(start, strings)?;
        let interval = Interval {
            lo: value,
            hi: value,
        };
        Some((interval, Depths::full(start)))
    }

    // Offers what these bounds say of a position with these strings to its cell, where they are a value and the cell is empty.
    fn offer_exact(&self, start: &TrickStart, strings: &OwnerStrings, interval: Interval)
        requires strings { strings.now ≡ strings_of start.now }
        requires holds { Holds interval (leaders_tricks start.now) }
    {
        if interval.lo == interval.hi {
            self.offer(start, strings, interval.lo);
        }
    }

    // Offers the value of a position with these strings to its cell, where that is empty.
    fn offer(&self, start: &TrickStart, strings: &OwnerStrings, value: u8)
        requires strings { strings.now ≡ strings_of start.now }
        requires value { value ≡ leaders_tricks start.now }
    {
        let mut note = self.front_note(slot_by(strings));
        if self.front_held(&mut note).is_none() {
            // A value that finds no memory is not kept.
            let _ = self.offer_by(&mut note, start, strings, value);
        }
    }
}

impl<'a, R: Wait> Bounds for View<'a, R> {
    ghost use Rattle.dd_play.specs.Board.{Board, IsBoard};
    ghost use Rattle.dd_play.specs.Intervals.{Holds};
    ghost use Rattle.dd_play.specs.Value.{leaders_tricks};
    ghost use Rattle.dd_rank.specs.Depths.{depth_in, Covers};

    // What it tells holds. What the table still has depends on what all threads told it since.
    ghost tells = { λ view p depths interval. (q : Board) → IsBoard q
        → Covers p (depth_in depths) q → Holds interval (leaders_tricks q) };

    ghost holds = { λ view p depths interval q told. told q };

    /// Entries are of all alike starts.
    fn takes_relative_starts(&self) -> bool {
        true
    }

    /// What the shard of the position tells, and where that is nothing, its value if the front has it.
    fn look(&mut self, start: &TrickStart) -> Option<(Interval, Depths)> {
        let strings = OwnerStrings::of(start);
        match self.table.look_by(self.rt, start, &strings) {
            Some(told) => Some(told),
            None => self.table.exact(start, &strings),
        }
    }

    /// The same, where what the shard tells has to settle the question: else the front is asked, whose values always do. It waits for
    /// no lock, so that a search, which asks at each start, has nothing in it that may wait.
    fn settle(
        &mut self,
        start: &TrickStart,
        strings: &OwnerStrings,
        need: u8,
    ) -> Option<(Interval, Depths)> {
        match self.table.try_look_by(start, strings) {
            Some(told) if need <= told.0.lo || told.0.hi < need => Some(told),
            _ => self.table.exact(start, strings),
        }
    }

    /// Tells the shard of the position, and offers a value to the front. It waits for the shard: what a whole search found is kept.
    fn note(&mut self, start: &TrickStart, depths: Depths, interval: Interval) {
        // The proof reads here that a position covers itself.
        let _ = start.position();
        covered_positions();
        let strings = OwnerStrings::of(start);
        self.table
            .note_by(self.rt, start, &strings, depths, interval);
        self.table.offer_exact(start, &strings, interval);
    }

    /// The same without waiting: where another thread holds the shard this is not told.
    fn note_by(
        &mut self,
        start: &TrickStart,
        strings: &OwnerStrings,
        depths: Depths,
        interval: Interval,
    ) {
        // The proof reads here that a position covers itself.
        let _ = start.position();
        covered_positions();
        self.table.try_note_by(start, strings, depths, interval);
        self.table.offer_exact(start, strings, interval);
    }
}
