//! Four suits at once: sixteen bits for each, the spades' on top, and in them bit r for the rank r.
ghost use Rattle.std.specs.Prelude.{◌≡◌, ℕ, ◌+◌, ◌*◌, ◌/◌, ◌%◌, ◌^◌, ◌<◌, ◌&&◌, filter, map, [], ◌∷◌, bit_and, nat_eq};
ghost use Rattle.std.specs.Int.{bit_at};
ghost use Rattle.dd_cards.specs.declared.suit.Suit.{Suit as SuitOf};
ghost use Rattle.dd_cards.specs.declared.suit.Suit.TheVariants.{Spades, Hearts, Diamonds, Clubs};
ghost use Rattle.dd_cards.specs.Masks.{IsMask};
ghost use Rattle.dd_cards.specs.Ranks.{all_ranks};
ghost use Rattle.dd_rank.specs.Lanes.{highest_in, is_clear, lane, places_of, suit_counts};

use dd_cards::Suit;
use std::simd::{u64x2, u64x4};

// The lowest bit of each suit.
const LOWEST: u64 = 0x0001_0001_0001_0001;

// The bits of the ranks in each suit.
const RANKS: u64 = 0x7FFC_7FFC_7FFC_7FFC;

// The product with it has the two lowest bits of each suit's sixteen in its upper sixteen, side by side.
const GATHER: u64 = 0x0001_0004_0010_0040;

// Of seven bits the highest as the lowest of two, the next as the lowest of the next two, and so on.
static SPREAD: [u16; 128] = [
    0x0000, 0x1000, 0x0400, 0x1400, 0x0100, 0x1100, 0x0500, 0x1500, 0x0040, 0x1040, 0x0440, 0x1440,
    0x0140, 0x1140, 0x0540, 0x1540, 0x0010, 0x1010, 0x0410, 0x1410, 0x0110, 0x1110, 0x0510, 0x1510,
    0x0050, 0x1050, 0x0450, 0x1450, 0x0150, 0x1150, 0x0550, 0x1550, 0x0004, 0x1004, 0x0404, 0x1404,
    0x0104, 0x1104, 0x0504, 0x1504, 0x0044, 0x1044, 0x0444, 0x1444, 0x0144, 0x1144, 0x0544, 0x1544,
    0x0014, 0x1014, 0x0414, 0x1414, 0x0114, 0x1114, 0x0514, 0x1514, 0x0054, 0x1054, 0x0454, 0x1454,
    0x0154, 0x1154, 0x0554, 0x1554, 0x0001, 0x1001, 0x0401, 0x1401, 0x0101, 0x1101, 0x0501, 0x1501,
    0x0041, 0x1041, 0x0441, 0x1441, 0x0141, 0x1141, 0x0541, 0x1541, 0x0011, 0x1011, 0x0411, 0x1411,
    0x0111, 0x1111, 0x0511, 0x1511, 0x0051, 0x1051, 0x0451, 0x1451, 0x0151, 0x1151, 0x0551, 0x1551,
    0x0005, 0x1005, 0x0405, 0x1405, 0x0105, 0x1105, 0x0505, 0x1505, 0x0045, 0x1045, 0x0445, 0x1445,
    0x0145, 0x1145, 0x0545, 0x1545, 0x0015, 0x1015, 0x0415, 0x1415, 0x0115, 0x1115, 0x0515, 0x1515,
    0x0055, 0x1055, 0x0455, 0x1455, 0x0155, 0x1155, 0x0555, 0x1555,
];

/// The cards of the second and fourth hand, and those of the third and fourth, in each suit moved up so that the cards
/// left of the suit have no gaps between them.
#[derive(Clone, Copy, Debug)]
pub(crate) struct OwnerPlanes {
    pub(crate) odd: u64,
    pub(crate) far: u64,
}

impl OwnerPlanes {
    /// These cards without the gaps of those that are gone.
    // From the three up, since the two has none below it: where a card is gone, all below it move up by one. Four suits at once,
    // without a branch.
    #[inline]
    pub(crate) fn close_up(odd: u64, far: u64, gone: u64) -> OwnerPlanes
        requires odd { (u : SuitOf) → IsMask (lane odd u) }
        requires far { (u : SuitOf) → IsMask (lane far u) }
        requires apart { (u : SuitOf) (r : ℕ) → r < 16 → bit_at (lane gone u) r ≡ 1
            → (bit_at (lane odd u) r ≡ 0) × (bit_at (lane far u) r ≡ 0) }
        ensures { (u : SuitOf) → places_of (lane result.odd u) (lane result.far u) all_ranks
            ≡ places_of (lane odd u) (lane far u) (filter (is_clear (lane gone u)) all_ranks) }
    {
        let lowest = u64x2::splat(LOWEST);
        // Two numbers that differ outside the ranks: of equal ones a compiler makes one, and each step would bring it over to the pair.
        let both_gone = u64x2::from_array([gone, gone & RANKS]);
        let mut places = u64x2::from_array([odd, far]);
        for rank in 3..15u64 {
            let places_up = u64x2::splat(rank);
            let gaps = (both_gone >> places_up) & lowest;
            let below = (gaps << places_up) - gaps;
            places += places & below;
        }
        let [odd, far] = places.to_array();
        OwnerPlanes { odd, far }
    }

    /// What of them stands under a mask.
    #[inline]
    pub(crate) fn under(self, mask: u64) -> OwnerPlanes
        ensures odd { result.odd ≡ bit_and self.odd mask }
        ensures far { result.far ≡ bit_and self.far mask }
    {
        OwnerPlanes {
            odd: self.odd & mask,
            far: self.far & mask,
        }
    }

    /// Are they the same?
    #[inline]
    pub(crate) fn are(self, others: OwnerPlanes) -> bool
        ensures { result ≡ (nat_eq self.odd others.odd && nat_eq self.far others.far) }
    {
        // Both are asked: a branch would cost more.
        (self.odd == others.odd) & (self.far == others.far)
    }

    /// Who holds the highest card of each suit: two bits each, the spades' on top.
    #[inline]
    pub(crate) fn highest(self) -> u64
        ensures { result
            ≡ (highest_in self.odd self.far Spades * 4 + highest_in self.odd self.far Hearts) * 16
            + (highest_in self.odd self.far Diamonds * 4 + highest_in self.odd self.far Clubs) }
    {
        let odd = self.odd >> 14 & LOWEST;
        let far = self.far >> 14 & LOWEST;
        (odd + 2 * far).wrapping_mul(GATHER) >> 48
    }

    /// The owners of a suit: two bits for each card, the highest card's the lowest.
    #[inline]
    pub(crate) fn owners(self, suit: Suit) -> u32
        ensures { result ≡ places_of (lane self.odd suit) (lane self.far suit) all_ranks }
    {
        let shift = 48 - 16 * suit.code();
        spread(self.odd >> shift) + 2 * spread(self.far >> shift)
    }
}

/// The number of cards of each suit in each of four masks: sixteen bits each, the spades' on top.
// Bits are added two by two, then these sums, and so on, all of them at once.
#[inline]
pub(crate) fn suit_lengths(one: u64, two: u64, three: u64, four: u64) -> [u64; 4]
    ensures { result ≡ suit_counts one ∷ suit_counts two ∷ suit_counts three ∷ suit_counts four ∷ [] }
{
    let masks = u64x4::from_array([one, two, three, four]);
    let fields = u64x4::splat(0x5555_5555_5555_5555);
    let twos = (masks & fields) + ((masks >> u64x4::splat(1)) & fields);
    let fields = u64x4::splat(0x3333_3333_3333_3333);
    let fours = (twos & fields) + ((twos >> u64x4::splat(2)) & fields);
    let fields = u64x4::splat(0x0F0F_0F0F_0F0F_0F0F);
    let eights = (fours & fields) + ((fours >> u64x4::splat(4)) & fields);
    let fields = u64x4::splat(0x00FF_00FF_00FF_00FF);
    let suits = (eights & fields) + ((eights >> u64x4::splat(8)) & fields);
    suits.to_array()
}

// Of bits 14 to 2 the highest as the lowest of two, the next as the lowest of the next two, and so on.
#[inline]
fn spread(bits: u64) -> u32
    ensures value { result ≡ places_of bits 0 all_ranks }
    ensures bound { result < 2 ^ 26 }
{
    let upper = SPREAD[(bits >> 8 & 0x7F) as usize] as u32;
    let lower = SPREAD[2 * (bits >> 2 & 0x3F) as usize] as u32;
    upper + lower * 0x4000
}
