ghost use Rattle.std.specs.Prelude.{◌≡◌, ◌<◌, ◌||◌, ◌==◌};
ghost use Rattle.dd_pbn.specs.Letters.{letter_of, rank_of, is_blank};
ghost use Rattle.dd_pbn.specs.Reading.{seat_of};

use dd_cards::{Rank, Seat};

// The rank that a byte stands for, in either case.
#[tactic(auto, unfolding(crate::specs::Letters::rank_of, dd_cards::specs::Ranks::all_ranks, dd_cards::specs::Ranks::lowest_ranks))]
pub(crate) fn rank_of(byte: u8) -> Option<Rank>
    ensures { result ≡ rank_of byte }
{
    match byte.to_ascii_uppercase() {
        digit @ b'2'..=b'9' => Some(Rank::of(digit - b'0')),
        b'T' => Some(Rank::of(10)),
        b'J' => Some(Rank::of(11)),
        b'Q' => Some(Rank::of(12)),
        b'K' => Some(Rank::of(13)),
        b'A' => Some(Rank::of(14)),
        _ => None,
    }
}

// The upper-case letter of a rank.
pub(crate) fn letter_of(rank: Rank) -> char
    ensures value { result ≡ letter_of rank }
    ensures ascii { result < 128 }
{
    match rank.code() {
        10 => 'T',
        11 => 'J',
        12 => 'Q',
        13 => 'K',
        14 => 'A',
        digit => (b'0' + digit) as char,
    }
}

// The seat that a byte stands for, in either case.
#[tactic(auto, unfolding(crate::specs::Reading::seat_of))]
pub(crate) fn seat_of(letter: u8) -> Option<Seat>
    ensures { result ≡ seat_of letter }
{
    match letter.to_ascii_uppercase() {
        b'N' => Some(Seat::North),
        b'E' => Some(Seat::East),
        b'S' => Some(Seat::South),
        b'W' => Some(Seat::West),
        _ => None,
    }
}

// Is it a space or a tab?
pub(crate) fn is_blank(byte: u8) -> bool
    ensures { result ≡ is_blank byte }
{
    byte == b' ' || byte == b'\t'
}
