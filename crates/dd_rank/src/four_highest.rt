//! What is seen at once of owners, as by a signature, but of the four highest cards of each suit. No answer rests on it.

use crate::first_owners::FirstOwners;
use crate::owner_strings::OwnerStrings;
use crate::signature::{TOGETHER, gathered};
use std::simd::cmp::SimdPartialEq;
use std::simd::u16x8;

// The four lowest bits of each suit's sixteen.
const FOUR_LOWEST: u64 = 0x000F_000F_000F_000F;

// Of each suit's four cards the two highest.
const TWO_OF_FOUR: u16 = 0xCCCC;

/// The owners of the four highest cards of each suit of a start of a trick.
// Four bits a suit, the spades' on top: where the second or fourth hand has the card, and where the third or fourth has it.
#[derive(Clone, Copy, Debug)]
pub struct FourHighest {
    odd: u16,
    far: u16,
}

/// The same of first owners, as far as there are so many.
#[derive(Clone, Copy, Debug)]
pub struct FirstFour {
    odd: u16,
    far: u16,
    mask: u16,
}

/// The four highest of eight first owners, which are compared at once.
#[derive(Clone, Copy, Debug)]
pub struct FirstFours {
    odd: [u16; TOGETHER],
    far: [u16; TOGETHER],
    masks: [u16; TOGETHER],
}

impl Default for FirstFours {
    /// None: each place has owners of the two highest cards that hardly a position has.
    fn default() -> FirstFours {
        FirstFours {
            odd: [TWO_OF_FOUR; TOGETHER],
            far: [TWO_OF_FOUR; TOGETHER],
            masks: [TWO_OF_FOUR; TOGETHER],
        }
    }
}

impl OwnerStrings {
    /// The owners of the four highest cards of each suit.
    #[inline]
    pub fn four_highest(&self) -> FourHighest {
        FourHighest {
            odd: four_of_each(self.places.odd),
            far: four_of_each(self.places.far),
        }
    }
}

impl FirstOwners {
    /// The first four owners of each suit, as far as there are so many.
    #[inline]
    pub fn first_four(&self) -> FirstFour {
        let (mask, places) = self.bits();
        FirstFour {
            odd: four_of_each(places.odd),
            far: four_of_each(places.far),
            mask: four_of_each(mask),
        }
    }
}

impl FirstFours {
    /// Puts one at this place, 0 to 7; a greater one is taken modulo 8.
    #[inline]
    pub fn put(&mut self, place: usize, first: FirstFour) {
        self.odd[place % TOGETHER] = first.odd;
        self.far[place % TOGETHER] = first.far;
        self.masks[place % TOGETHER] = first.mask;
    }

    /// The places of those that may begin as this one does and go on, by the two highest: bit n for place n.
    #[inline]
    pub fn may_begin_as(&self, first: FirstFour) -> u64 {
        let masks = u16x8::from_array(self.masks);
        let mask = u16x8::splat(first.mask & TWO_OF_FOUR);
        let differing = (u16x8::from_array(self.odd) ^ u16x8::splat(first.odd))
            | (u16x8::from_array(self.far) ^ u16x8::splat(first.far));
        let missing = (masks & mask) ^ mask;
        let seen = (differing & mask) | missing;
        seen.simd_eq(u16x8::splat(0)).to_bitmask()
    }

    /// The places of those that may be of the position, by what is seen of both: bit n for place n.
    #[inline]
    pub fn may_be_in(&self, position: FourHighest) -> u64 {
        let differing = (u16x8::from_array(self.odd) ^ u16x8::splat(position.odd))
            | (u16x8::from_array(self.far) ^ u16x8::splat(position.far));
        let seen = differing & u16x8::from_array(self.masks);
        seen.simd_eq(u16x8::splat(0)).to_bitmask()
    }
}

// Of each suit's bits those of the four highest cards, side by side.
#[inline]
fn four_of_each(places: u64) -> u16 {
    gathered(places >> 11 & FOUR_LOWEST)
}
