//! Four suits side by side in a word: sixteen bits for each, the spades' on top.
ghost use Rattle.std.specs.Prelude.{◌≤◌};

use dd_cards::{Hand, Suit};

/// The lowest bit of each suit.
pub const LOWEST: u64 = 0x0001_0001_0001_0001;

/// The lowest four bits of each suit.
pub const LOWEST_FOUR: u64 = 0x000F_000F_000F_000F;

/// By how many places the suit's bits are above the lowest.
#[inline]
pub fn place(suit: Suit) -> u8
    ensures { result ≤ 48 }
{
    48 - 16 * suit.code()
}

/// This number in the suit's bits.
#[inline]
pub fn at(suit: Suit, number: u64) -> u64 {
    number << place(suit)
}

/// Is the lowest bit of the suit set?
#[inline]
pub fn has_lowest(bits: u64, suit: Suit) -> bool {
    (bits >> place(suit)) & 1 == 1
}

/// The lowest bit of each suit whose number, 0 to 15, is not zero.
#[inline]
pub fn nonzero(numbers: u64) -> u64 {
    (numbers.wrapping_add(LOWEST_FOUR) >> 4) & LOWEST
}

/// The lowest bit of each suit whose number, 0 to 15, is two or more.
#[inline]
pub fn several(numbers: u64) -> u64 {
    nonzero((numbers >> 1) & LOWEST_FOUR)
}

/// These numbers, 0 to 15, where the lowest bit of the suit is set.
#[inline]
pub fn where_set(numbers: u64, bits: u64) -> u64 {
    numbers & bits.wrapping_mul(15)
}

/// The sum of the four suits' numbers, which are small.
#[inline]
pub fn sum(numbers: u64) -> u8 {
    ((numbers.wrapping_mul(LOWEST) >> 48) & 0xFF) as u8
}

/// The lowest bit of each suit of which there is a card among these.
#[inline]
pub fn nonempty(cards: u64) -> u64 {
    (cards.wrapping_add(0x7FFF_7FFF_7FFF_7FFF) >> 15) & LOWEST
}

/// These numbers of the suits of which there is a card, and 0 of the others.
#[inline]
pub fn where_held(numbers: u64, cards: Hand) -> u64 {
    numbers & nonempty(cards.mask()).wrapping_mul(0xFFFF)
}

/// The number of cards of each suit.
// Bits are added two by two, then these sums, and so on, all of them at once.
#[inline]
pub fn lengths(cards: u64) -> u64 {
    let twos = cards.wrapping_sub((cards >> 1) & 0x5555_5555_5555_5555);
    let fours = (twos & 0x3333_3333_3333_3333).wrapping_add((twos >> 2) & 0x3333_3333_3333_3333);
    let eights = fours.wrapping_add(fours >> 4) & 0x0F0F_0F0F_0F0F_0F0F;
    eights.wrapping_add(eights >> 8) & LOWEST_FOUR
}

/// The bits of the suit of the greatest number, the first of equals.
#[inline]
pub fn greatest(numbers: u64) -> u64 {
    let spades = numbers >> 48;
    let hearts = (numbers >> 32) & 0xFFFF;
    let diamonds = (numbers >> 16) & 0xFFFF;
    let clubs = numbers & 0xFFFF;
    let (major, high) = if hearts > spades {
        (0xFFFF_0000_0000, hearts)
    } else {
        (0xFFFF_0000_0000_0000, spades)
    };
    let (minor, low) = if clubs > diamonds {
        (0xFFFF, clubs)
    } else {
        (0xFFFF_0000, diamonds)
    };
    if low > high { minor } else { major }
}
