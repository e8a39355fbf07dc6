//! A few bounds of one shape, and what is seen of them before they are read.
ghost use Rattle.std.specs.Prelude.{◌≡◌, ◌<◌, ◌≤◌, ◌⊎◌, [], ◌∷◌, IfSome, IfErr, OnOk, OnErr, length};
ghost use Rattle.dd_rank.specs.FirstOwners.{AreFirst};
ghost use Rattle.dd_cache.specs.StoredBounds.{StoredBoundsOf, IsSound, Keeps, StandsNeedless};

use crate::settling_lead::SettlingLead;
use crate::stored_bounds::StoredBounds;
use dd_cards::Strain;
use dd_rank::{FirstFour, FirstFours, FourHighest, OwnerStrings, Shape};
use std::marker::Model;

// The bounds that stand together.
const BOUNDS_OF_A_PAGE: usize = 8;

/// Bounds of one shape.
// What a look reads first are the sixty-four bytes before the bounds.
#[derive(Drop)]
pub(crate) struct Page {
    lengths: u64,
    // what is seen at once of its bounds, by their places
    seen: FirstFours,
    // the number of the page that was the newest of its place before
    before: u32,
    strain: Strain,
    count: u8,
    // that which last settled a start of the shape
    lead: SettlingLead,
    // As many as are counted, from the first place on. The places that are free have copies of the first one that the page had.
    told: [StoredBounds; BOUNDS_OF_A_PAGE],
}

impl Model for Page {
    ghost use Rattle.std.specs.Prelude.{◌≡◌, ◌≤◌, length, take};
    ghost use Rattle.dd_cache.specs.StoredBounds.{PageOf, AreSound};

    ghost Value = { PageOf };

    ghost view = { λ p. record {
      shape = record { strain = p.strain; lengths = p.lengths };
      told = take p.count p.told;
    } };

    ghost invariant = { λ p. (length p.told ≡ 8) × (p.count ≤ 8) × AreSound (record {
      shape = record { strain = p.strain; lengths = p.lengths };
      told = p.told;
    }) };
}

impl Page {
    /// A page with one entry, before which that of this number was the newest of its place.
    pub(crate) fn new(shape: Shape, before: u32, lead: SettlingLead, first: StoredBounds) -> Page
        requires { IsSound shape first }
        ensures shape { result.shape ≡ shape }
        ensures told { result.told ≡ first ∷ [] }
    {
        let mut seen = FirstFours::default();
        seen.put(0, first.firsts.first_four());
        let told = [
            first.copy(),
            first.copy(),
            first.copy(),
            first.copy(),
            first.copy(),
            first.copy(),
            first.copy(),
            first,
        ];
        Page {
            lengths: shape.lengths(),
            seen,
            before,
            strain: shape.strain(),
            count: 1,
            lead,
            told,
        }
    }

    /// The shape of its positions.
    #[inline]
    pub(crate) fn shape(&self) -> Shape
        ensures { result ≡ self.now.shape }
    {
        Shape::of_lengths(self.strain, self.lengths)
    }

    /// The number of the page before.
    #[inline]
    pub(crate) fn before(&self) -> u32 {
        self.before
    }

    /// The lead that last settled a start of the shape.
    #[inline]
    pub(crate) fn lead(&self) -> SettlingLead {
        self.lead
    }

    /// This lead, if it is one, settled a start of the shape.
    #[inline]
    pub(crate) fn remember(&mut self, lead: SettlingLead)
        ensures { self.new ≡ self.old }
    {
        if lead.is_some() {
            self.lead = lead;
        }
    }

    /// The first of its bounds that hold of the position with these strings, whose highest owners are these, which is of the shape,
    /// and settle the question.
    #[inline]
    pub(crate) fn settle(
        &self,
        highest: FourHighest,
        strings: &OwnerStrings,
        need: u8,
    ) -> Option<&StoredBounds>
        ensures sound { IfSome result (λ told. IsSound self.now.shape told.now) }
        ensures firsts { IfSome result (λ told. AreFirst told.now.firsts strings.now) }
        ensures settles { IfSome result (λ told. (need ≤ told.now.interval.lo)
            ⊎ (told.now.interval.hi < need)) }
    {
        let mut places = self.seen.may_be_in(highest);
        for _ in 0..BOUNDS_OF_A_PAGE {
            if places == 0 {
                return None;
            }
            let told = self.told.get(places.trailing_zeros() as usize)?;
            if told.answers(strings, need) {
                return Some(told);
            }
            places &= places - 1;
        }
        None
    }

    /// Keeps bounds of its shape, in the place of some that they make needless or beside the others; gives them back where there
    /// is no room.
    pub(crate) fn keep(&mut self, new: StoredBounds) -> Result<(), StoredBounds>
        requires { IsSound self.old.shape new }
        ensures shape { self.new.shape ≡ self.old.shape }
        ensures ok { OnOk result (Keeps self.old.told self.new.told new) }
        ensures err { OnErr result (self.new ≡ self.old) }
        ensures room { OnErr result (length self.old.told ≡ BOUNDS_OF_A_PAGE) }
        ensures back { IfErr result (λ told. told ≡ new) }
    {
        let first = new.firsts.first_four();
        if let Some(place) = self.needless(&new, first) {
            self.told[place] = new;
            self.seen.put(place, first);
            return Ok(());
        }
        let place = self.count as usize;
        if place >= BOUNDS_OF_A_PAGE {
            return Err(new);
        }
        self.told[place] = new;
        self.seen.put(place, first);
        self.count += 1;
        Ok(())
    }

    // The place of the first of its bounds that these make needless.
    fn needless(&self, new: &StoredBounds, first: FirstFour) -> Option<usize>
        ensures { IfSome result (StandsNeedless new.now self.now.told) }
    {
        let mut places = self.seen.may_begin_as(first);
        for _ in 0..BOUNDS_OF_A_PAGE {
            if places == 0 {
                return None;
            }
            let place = places.trailing_zeros() as usize;
            // Behind those that are counted all places are free.
            if place >= self.count as usize {
                return None;
            }
            if new.replaces(&self.told[place]) {
                return Some(place);
            }
            places &= places - 1;
        }
        None
    }
}
