//! A table of one thread before another.
ghost use Rattle.std.specs.Prelude.{◌≡◌, ◌<◌, ◌≤◌, ◌⊎◌, IfSome};
ghost use Rattle.dd_cards.specs.declared.suit.Suit.{Suit as SuitOf};
ghost use Rattle.dd_play.specs.Board.{Board, IsBoard};
ghost use Rattle.dd_play.specs.Covers.{count_of};
ghost use Rattle.dd_play.specs.Value.{leaders_tricks};
ghost use Rattle.dd_play.specs.Intervals.{Holds};
ghost use Rattle.dd_rank.specs.Depths.{all_cards, depth_in, Covers};
ghost use Rattle.dd_rank.specs.FirstOwners.{AreFirst};
ghost use Rattle.dd_rank.specs.Strings.{shape_in, strings_of};
ghost use Rattle.dd_cache.specs.StoredBounds.{StoredBoundsOf, IsSound};

use crate::page::Page;
use crate::settling_lead::{MOST_DEALS, SettlingLead};
use crate::stored_bounds::StoredBounds;
use dd_bounds::{Bounds, LeadHistory, ProbeHint};
use dd_cards::{Seat, Suit};
use dd_play::{Interval, Position, TrickStart};
use dd_rank::{Depths, FirstOwners, OwnerStrings, Shape, alike_strings, covered_positions};
use std::alloc::{AllocError, Global};

// The pages that there may be, and the places at which they are found: powers of two.
const PAGES: u32 = 0x1_0000;

const PLACES: usize = 0x1_0000;

// From so many tricks on the table behind takes part in a search: to ask and tell it of all took longer on the deals tried.
const WORTH_SHARING: u8 = 10;

// With so many tricks left a value is kept: what one trick gives is played in less time than a table takes.
const WORTH_KEEPING: u8 = 2;

// A leader with 0 to 13 tricks left.
const LEADERS: usize = 56;

// So many pages at most are looked at in one place.
const MOST_PAGES: usize = 64;

/// What a thread learned lately, before the table behind it. Its pages are a ring: the newest takes the place of the oldest.
#[derive(Drop)]
pub struct Cache<B> {
    behind: B,
    // by place the number of its newest page
    newest: Vec<u32>,
    // by place in the ring
    pages: Vec<Page>,
    // the number of the next page; the first one has the number PAGES
    next: u32,
    // the lead that settled the start of which bounds are noted next: it goes onto a page of the shape
    settled: SettlingLead,
    // leads that settled starts of a trick lately, by place of their outlines, and by leader and number of tricks
    of_outlines: Vec<SettlingLead>,
    of_leaders: [SettlingLead; LEADERS],
    // the number of the deal of which the last search is, from 1 on
    generation: u8,
    // the most of this deal of which a search was
    deal: Deal,
}

// What tells deals apart: the strain and two hands of it.
#[derive(Clone, Copy)]
struct Deal {
    strain: u8,
    north: u64,
    east: u64,
}

impl<B: Drop> Cache<B> {
    /// A cache that has learned nothing, before this table. All its memory is taken here. The error says that there is
    /// none.
    pub fn new(alloc: Global, behind: B) -> Result<Cache<B>, AllocError> {
        let pages = Vec::with_capacity(alloc, PAGES as usize)?;
        let newest = vec![in alloc; 0; PLACES]?;
        let of_outlines = vec![in alloc; SettlingLead::none(); PLACES]?;
        Ok(Cache {
            behind,
            newest,
            pages,
            next: PAGES,
            settled: SettlingLead::none(),
            of_outlines,
            of_leaders: [SettlingLead::none(); LEADERS],
            generation: 1,
            deal: Deal {
                strain: 0,
                north: 0,
                east: 0,
            },
        })
    }
}

impl<B> Cache<B> {
    /// The table behind.
    pub fn behind(&mut self) -> &mut B {
        &mut self.behind
    }

    // A search of another deal begins. Its pages go to the places of the first ones again, so that few places stay in the
    // processor's caches. Those of the deal before serve it no more: by numbers a ring further on they count as overwritten.
    fn begin_deal(&mut self) {
        let over = self.next % PAGES;
        self.next = self.next.wrapping_add(2 * PAGES - over);
        self.forget_leads();
    }

    // Leads of the deals before are known no more: by a new number, and where there is none left by clearing all places.
    fn forget_leads(&mut self) {
        if self.generation < MOST_DEALS {
            self.generation += 1;
        } else {
            self.generation = 1;
            self.of_outlines.fill(SettlingLead::none());
            self.of_leaders = [SettlingLead::none(); LEADERS];
        }
    }

    // Where the page of this number stands, if it is not yet overwritten.
    #[inline]
    fn ring_place(&self, number: u32) -> Option<usize> {
        if self.next.wrapping_sub(number) <= PAGES {
            Some((number % PAGES) as usize)
        } else {
            None
        }
    }

    // Is the page of this number one of the shape?
    #[inline]
    fn has_shape(&self, number: u32, shape: Shape) -> bool {
        match self.pages.get((number % PAGES) as usize) {
            Some(page) => page.shape() == shape,
            None => false,
        }
    }

    // The number of the newest page of the shape's place.
    #[inline]
    fn newest_of(&self, shape: Shape) -> u32 {
        match self.newest.get(place(shape.hash_code())) {
            Some(newest) => *newest,
            None => 0,
        }
    }

    // The lead that last settled a start of the shape, as far as its place's newest page knows: the look before has read it.
    #[inline]
    fn lead_of_shape(&self, shape: Shape) -> Option<Suit> {
        let at = self.ring_place(self.newest_of(shape))?;
        let page = self.pages.get(at)?;
        if page.shape() == shape {
            page.lead().in_deal(self.generation)
        } else {
            None
        }
    }

    // The lead that last settled a start of an outline with this number.
    #[inline]
    fn lead_of_outline(&self, number: u64) -> Option<Suit> {
        let lead = *self.of_outlines.get(place(number))?;
        lead.in_deal(self.generation)
    }

    // What settles the question of the position with these strings.
    fn own(&self, strings: &OwnerStrings, first: ProbeHint, need: u8) -> Option<(Interval, Depths)>
        ensures told { IfSome result (λ told. (t : StoredBoundsOf) × IsSound (shape_in strings.now) t
            × AreFirst t.firsts strings.now × (t.firsts.depths ≡ told.1) × (t.interval ≡ told.0)) }
        ensures settles { IfSome result (λ told. (need ≤ told.0.lo) ⊎ (told.0.hi < need)) }
    {
        // The proof reads here what it means that shapes are compared.
        alike_strings();
        let shape = strings.shape();
        let highest = strings.four_highest();
        let mut place = first;
        for _ in 0..MOST_PAGES {
            let at = self.ring_place(place.number)?;
            let page = self.pages.get(at)?;
            if place.has_shape && page.shape() == shape {
                if let Some(told) = page.settle(highest, strings, need) {
                    return Some((told.interval, told.firsts.depths()));
                }
            }
            place = ProbeHint {
                number: page.before(),
                has_shape: true,
            };
        }
        None
    }
}

impl<B> Cache<B> {
    // Keeps bounds of each position that the one with these strings covers at these depths.
    fn learn(
        &mut self,
        start: &TrickStart,
        strings: &OwnerStrings,
        depths: Depths,
        interval: Interval,
    )
        requires strings { strings.now ≡ strings_of start.now }
        requires within { (u : SuitOf) → depth_in depths u ≤ count_of u (all_cards start.now) }
        requires holds { (q : Board) → IsBoard q → Covers start.now (depth_in depths) q
            → Holds interval (leaders_tricks q) }
    {
        // The proof reads here that it is a start of a trick, and what a position covers.
        let _ = start.position();
        covered_positions();
        let firsts = FirstOwners::of(strings, depths);
        self.keep(strings.shape(), StoredBounds { firsts, interval });
    }

    // Keeps bounds of a shape: on the newest page of the shape, or on a new page. So with the lead that settled the start.
    fn keep(&mut self, shape: Shape, new: StoredBounds)
        requires { IsSound shape new }
    {
        let mut lead = self.settled;
        self.settled = SettlingLead::none();
        let Some(newest) = self.newest.get_mut(place(shape.hash_code())) else {
            return;
        };
        let number = *newest;
        let at = (number % PAGES) as usize;
        let new = match self.pages.get_mut(at) {
            Some(page) if self.next.wrapping_sub(number) <= PAGES && page.shape() == shape => {
                page.remember(lead);
                lead = page.lead();
                match page.keep(new) {
                    Ok(()) => return,
                    Err(new) => new,
                }
            }
            _ => new,
        };
        *newest = self.next;
        self.add(Page::new(shape, number, lead, new));
    }

    // Puts a page into the ring: in the place of the oldest, where it is full.
    fn add(&mut self, page: Page) {
        let at = (self.next % PAGES) as usize;
        self.next = self.next.wrapping_add(1);
        match self.pages.get_mut(at) {
            Some(oldest) => *oldest = page,
            None => {
                let _ = self.pages.push(page);
            }
        }
    }
}

impl<B: Bounds> Bounds for Cache<B> {
    // What it tells holds. What it still has depends on what came since.
    ghost tells = { λ cache p depths interval. (q : Board) → IsBoard q
        → Covers p (depth_in depths) q → Holds interval (leaders_tricks q) };

    ghost holds = { λ cache p depths interval q told. told q };

    /// Its own bounds are of all alike starts, so it may where the table behind may.
    #[inline]
    fn takes_relative_starts(&self) -> bool {
        self.behind.takes_relative_starts()
    }

    /// Forgets leads and pages where the position is of another deal than the last one: neither later nor earlier in its play, from
    /// whose end a trace goes back.
    fn begin(&mut self, position: &Position) {
        let deal = Deal::of(position);
        if deal.is_later_in(&self.deal) {
            return;
        }
        if !self.deal.is_later_in(&deal) {
            self.begin_deal();
        }
        self.deal = deal;
    }

    fn look(&mut self, start: &TrickStart) -> Option<(Interval, Depths)> {
        if !is_worth_keeping(start) {
            return None;
        }
        self.behind.look(start)
    }

    fn settle(
        &mut self,
        start: &TrickStart,
        strings: &OwnerStrings,
        need: u8,
    ) -> Option<(Interval, Depths)> {
        let hint = self.probe_ahead(strings.shape());
        self.settle_at(start, strings, hint, need)
    }

    /// Reads what of the newest page of the shape's place a look reads first.
    #[inline]
    fn probe_hint(&self, shape: Shape) -> ProbeHint {
        let number = self.newest_of(shape);
        ProbeHint {
            number,
            has_shape: self.has_shape(number, shape),
        }
    }

    /// Reads the number of the newest page of the shape's place. The page itself is left to the look: a branch on what stands there
    /// would wait for memory.
    #[inline]
    fn probe_ahead(&self, shape: Shape) -> ProbeHint {
        ProbeHint {
            number: self.newest_of(shape),
            has_shape: true,
        }
    }

    fn settle_at(
        &mut self,
        start: &TrickStart,
        strings: &OwnerStrings,
        hint: ProbeHint,
        need: u8,
    ) -> Option<(Interval, Depths)> {
        // The proof reads here that it is a start of a trick, and what a position covers.
        let _ = start.position();
        covered_positions();
        match self.own(strings, hint, need) {
            Some(told) => Some(told),
            None => {
                if !is_worth_sharing(start) {
                    return None;
                }
                self.behind.settle(start, strings, need)
            }
        }
    }

    /// Keeps it, and tells the table behind of it where it is a value: that of a whole search is worth it at any number of
    /// tricks but one.
    fn note(&mut self, start: &TrickStart, depths: Depths, interval: Interval) {
        if !is_worth_keeping(start) {
            return;
        }
        let strings = OwnerStrings::of(start);
        self.learn(start, &strings, depths, interval);
        if interval.lo == interval.hi || is_worth_sharing(start) {
            self.behind.note(start, depths, interval);
        }
    }

    fn lead_history(&self, start: &Position, strings: &OwnerStrings) -> LeadHistory {
        self.lead_history_of(start, start.first(), strings)
    }

    fn note_lead(&mut self, start: &Position, strings: &OwnerStrings, lead: Suit) {
        self.note_lead_of(start, start.first(), strings, lead);
    }

    fn lead_history_of(
        &self,
        start: &Position,
        leader: Seat,
        strings: &OwnerStrings,
    ) -> LeadHistory {
        LeadHistory {
            of_shape: self.lead_of_shape(strings.shape()),
            of_outline: self.lead_of_outline(strings.outline_number()),
            of_leader: self.of_leaders[leader_place(start, leader)].in_deal(self.generation),
        }
    }

    fn note_lead_of(&mut self, start: &Position, leader: Seat, strings: &OwnerStrings, lead: Suit) {
        let new = SettlingLead::new(self.generation, lead);
        self.settled = new;
        if let Some(old) = self.of_outlines.get_mut(place(strings.outline_number())) {
            *old = new;
        }
        self.of_leaders[leader_place(start, leader)] = new;
    }

    fn note_by(
        &mut self,
        start: &TrickStart,
        strings: &OwnerStrings,
        depths: Depths,
        interval: Interval,
    ) {
        self.learn(start, strings, depths, interval);
        if is_worth_sharing(start) {
            self.behind.note_by(start, strings, depths, interval);
        }
    }
}

// Where the lead of this leader in the deal stands, with so many tricks left.
#[inline]
fn leader_place(start: &Position, leader: Seat) -> usize
    ensures { result < 56 }
{
    4 * start.tricks_left() as usize + leader.code() as usize
}

// Is a value of this position kept?
#[inline]
fn is_worth_keeping(start: &TrickStart) -> bool {
    start.position().tricks_left() >= WORTH_KEEPING
}

// Does the table behind take part in a search of this position?
#[inline]
fn is_worth_sharing(start: &TrickStart) -> bool {
    start.position().tricks_left() >= WORTH_SHARING
}

impl Deal {
    fn of(position: &Position) -> Deal {
        let hands = position.hands();
        Deal {
            strain: position.strain().code(),
            north: hands.hand(Seat::North).mask(),
            east: hands.hand(Seat::East).mask(),
        }
    }

    // Is it what is left of the other deal, or all of it?
    fn is_later_in(&self, other: &Deal) -> bool {
        self.strain == other.strain
            && self.north & !other.north == 0
            && self.east & !other.east == 0
    }
}

// Where the pages of a shape with this hash are found.
#[inline]
fn place(hash: u64) -> usize {
    (hash >> 48) as usize
}
