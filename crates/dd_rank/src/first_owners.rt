//! Of each suit's owners the first so many: what a position has in common with those that it covers.
ghost use Rattle.std.specs.Prelude.{◌≡◌, ◌↔◌, ◌≤◌, ◌%◌, ◌^◌, IsTrue};
ghost use Rattle.dd_cards.specs.declared.suit.Suit.{Suit as SuitOf};
ghost use Rattle.dd_rank.specs.Depths.{depth_in};
ghost use Rattle.dd_rank.specs.FirstOwners.{AreFirst, IsBeginning, first_in};
ghost use Rattle.dd_rank.specs.Strings.{string_in};

use crate::depths::Depths;
use crate::lanes::OwnerPlanes;
use crate::owner_strings::OwnerStrings;
use std::marker::Model;

/// The owners of the highest cards of each suit, so many as its depth says.
#[derive(Debug, Drop)]
pub struct FirstOwners {
    depths: Depths,
    // the owners in the bits in which so many cards stand
    places: OwnerPlanes,
}

impl Model for FirstOwners {
    ghost use Rattle.dd_cards.specs.declared.suit.Suit.TheVariants.{Spades, Hearts, Diamonds, Clubs};
    ghost use Rattle.dd_cards.specs.Ranks.{all_ranks};
    ghost use Rattle.dd_rank.specs.DepthMasks.{tops_of};
    ghost use Rattle.dd_rank.specs.FirstOwners.{AreUnder, Firsts};
    ghost use Rattle.dd_rank.specs.Lanes.{lane, places_of};

    ghost Value = { Firsts };

    ghost view = { λ f. record {
      depths = f.depths;
      spades = places_of (lane f.places.odd Spades) (lane f.places.far Spades) all_ranks;
      hearts = places_of (lane f.places.odd Hearts) (lane f.places.far Hearts) all_ranks;
      diamonds = places_of (lane f.places.odd Diamonds) (lane f.places.far Diamonds) all_ranks;
      clubs = places_of (lane f.places.odd Clubs) (lane f.places.far Clubs) all_ranks;
    } };

    ghost invariant = { λ f. AreUnder f.depths (tops_of f.depths) f.places.odd f.places.far };
}

impl Default for FirstOwners {
    /// None of any suit.
    fn default() -> FirstOwners {
        FirstOwners {
            depths: Depths::default(),
            places: OwnerPlanes { odd: 0, far: 0 },
        }
    }
}

impl FirstOwners {
    /// The first owners of a position with these strings; no depth is above 13.
    #[inline]
    pub fn of(strings: &OwnerStrings, depths: Depths) -> FirstOwners
        requires { (u : SuitOf) → depth_in depths u ≤ 13 }
        ensures depths { result.depths ≡ depths }
        ensures owners { (u : SuitOf) → first_in result u
            ≡ string_in strings.now u % 4 ^ depth_in depths u }
    {
        let mask = depths.tops();
        FirstOwners {
            depths,
            places: strings.places.under(mask),
        }
    }

    /// Are these the first owners of the position with these strings?
    #[inline]
    pub fn are_in(&self, strings: &OwnerStrings) -> bool
        ensures { IsTrue result ↔ AreFirst self.now strings.now }
    {
        let mask = self.depths.tops();
        strings.places.under(mask).are(self.places)
    }

    /// Has each position with the other's first owners these too: are these no more, and the beginning of those?
    #[inline]
    pub fn include(&self, other: &FirstOwners) -> bool
        ensures { IsTrue result ↔ IsBeginning self.now other.now }
    {
        let mask = self.depths.tops();
        other.places.under(mask).are(self.places) && self.depths.are_within(other.depths)
    }

    /// How many owners there are of each suit.
    #[inline]
    pub fn depths(&self) -> Depths
        ensures { result ≡ self.now.depths }
    {
        self.depths
    }

    /// Equal ones.
    #[inline]
    pub fn copy(&self) -> FirstOwners
        ensures { result ≡ self.now }
    {
        FirstOwners {
            depths: self.depths,
            places: self.places,
        }
    }

    // The bits in which they stand, and the owners in them.
    #[inline]
    pub(crate) fn bits(&self) -> (u64, OwnerPlanes) {
        (self.depths.tops(), self.places)
    }
}
