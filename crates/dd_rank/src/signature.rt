//! What is seen at once of owners: those of the two highest cards of each suit. It tells soon that others differ, and no
//! more: no answer rests on it.
ghost use Rattle.std.specs.Prelude.{◌≤◌};

use crate::first_owners::FirstOwners;
use crate::lanes::OwnerPlanes;
use crate::owner_strings::OwnerStrings;
use dd_cards::Suit;
use std::simd::cmp::SimdPartialEq;
use std::simd::u16x8;

/// The owners of the two highest cards of each suit of a start of a trick.
// Four bits a suit, the spades' on top, and in them the two bits of the second and fourth hand the lowest.
#[derive(Clone, Copy, Debug)]
pub struct Signature {
    owners: u16,
}

/// The same of first owners, as far as there are so many.
#[derive(Clone, Copy, Debug)]
pub struct FirstSignature {
    owners: u16,
    mask: u16,
}

/// The two lowest bits of each suit's sixteen.
pub(crate) const TWO_LOWEST: u64 = 0x0003_0003_0003_0003;

// The product with it has the four lowest bits of each suit's sixteen in its upper sixteen, side by side.
const GATHER: u64 = 0x0001_0010_0100_1000;

/// How many signatures stand together.
pub(crate) const TOGETHER: usize = 8;

/// Eight signatures of first owners, which are compared at once.
#[derive(Clone, Copy, Debug)]
pub struct FirstSignatures {
    owners: [u16; TOGETHER],
    masks: [u16; TOGETHER],
}

impl Default for FirstSignatures {
    /// None: each place has owners that hardly a position has.
    fn default() -> FirstSignatures {
        FirstSignatures {
            owners: [u16::MAX; TOGETHER],
            masks: [u16::MAX; TOGETHER],
        }
    }
}

/// Who holds the two highest cards of each suit of a start of a trick.
// Sixteen bits a suit, the spades' on top, and in them the two bits of the second and fourth hand the lowest.
#[derive(Clone, Copy, Debug)]
pub struct TwoHighest {
    owners: u64,
}

impl TwoHighest {
    /// Who holds the two highest cards of this suit, as a number: of the lowest two bits the second is set where the second or the
    /// fourth hand has the highest card, the first where one of them has the next; so are the two above for the third and the
    /// fourth hand. The hands are counted from the leader's, and where a card is missing no bit is set.
    #[inline]
    pub fn of_suit(self, suit: Suit) -> u8
        ensures { result ≤ 15 }
    {
        ((self.owners >> (48 - 16 * suit.code())) % 16) as u8
    }

    /// The same of all suits: sixteen bits for each, the spades' on top.
    #[inline]
    pub fn of_suits(self) -> u64 {
        self.owners
    }
}

impl OwnerStrings {
    /// Who holds the two highest cards of each suit.
    #[inline]
    pub fn two_highest(&self) -> TwoHighest {
        TwoHighest {
            owners: two_highest(self.places),
        }
    }

    /// The owners of the two highest cards of each suit.
    #[inline]
    pub fn signature(&self) -> Signature {
        Signature {
            owners: top_two(self.places),
        }
    }
}

impl FirstOwners {
    /// The first two owners of each suit, as far as there are so many.
    #[inline]
    pub fn signature(&self) -> FirstSignature {
        let (mask, places) = self.bits();
        FirstSignature {
            owners: top_two(places),
            mask: top_two(OwnerPlanes {
                odd: mask,
                far: mask,
            }),
        }
    }
}

impl FirstSignatures {
    /// Puts one at this place, 0 to 7; a greater one is taken modulo 8.
    #[inline]
    pub fn put(&mut self, place: usize, signature: FirstSignature) {
        self.owners[place % TOGETHER] = signature.owners;
        self.masks[place % TOGETHER] = signature.mask;
    }

    /// The places of those that may begin as this one does and go on: bit n for place n.
    #[inline]
    pub fn may_begin_as(&self, first: FirstSignature) -> u64 {
        let masks = u16x8::from_array(self.masks);
        let mask = u16x8::splat(first.mask);
        let differing = u16x8::from_array(self.owners) ^ u16x8::splat(first.owners);
        let missing = (masks & mask) ^ mask;
        let seen = (differing & mask) | missing;
        seen.simd_eq(u16x8::splat(0)).to_bitmask()
    }

    /// The places of those that may be of the position, by what is seen of both: bit n for place n.
    #[inline]
    pub fn may_be_in(&self, position: Signature) -> u64 {
        let differing = u16x8::from_array(self.owners) ^ u16x8::splat(position.owners);
        let seen = differing & u16x8::from_array(self.masks);
        seen.simd_eq(u16x8::splat(0)).to_bitmask()
    }
}

// The owners of the two highest cards of each suit, sixteen bits a suit.
#[inline]
fn two_highest(places: OwnerPlanes) -> u64 {
    let odd = places.odd >> 13 & TWO_LOWEST;
    let far = places.far >> 11 & TWO_LOWEST << 2;
    odd | far
}

/// The same, four bits a suit.
#[inline]
pub(crate) fn top_two(places: OwnerPlanes) -> u16 {
    gathered(two_highest(places))
}

/// The four lowest bits of each suit's sixteen, side by side: brought together by the product.
#[inline]
pub(crate) fn gathered(owners: u64) -> u16 {
    (owners.wrapping_mul(GATHER) >> 48) as u16
}
