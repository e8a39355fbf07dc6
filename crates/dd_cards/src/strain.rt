ghost use Rattle.std.specs.Prelude.{◌≡◌, ◌≤◌, ◌↔◌, IsSome, IfSome};
ghost use Rattle.dd_cards.specs.Strains.{strain_code};

use crate::suit::Suit;

/// What the contract is in: a trump suit, or notrump.
#[derive(Clone, Copy, Debug, PartialEq, Eq, Hash)]
pub enum Strain {
    Trump(Suit),
    Notrump,
}

impl Strain {
    /// The suit's code where there are trumps, and 4 at notrump (DDS `trump`).
    pub fn code(self) -> u8
        ensures value { result ≡ strain_code self }
        ensures bound { result ≤ 4 }
    {
        match self {
            Strain::Trump(suit) => suit.code(),
            Strain::Notrump => 4,
        }
    }

    /// The strain of a DDS code, 0 to 4.
    pub fn from_code(code: u8) -> Option<Strain>
        ensures valid { IsSome result ↔ (code ≤ 4) }
        ensures value { IfSome result (λ strain. strain_code strain ≡ code) }
    {
        match code {
            4 => Some(Strain::Notrump),
            _ => match Suit::from_code(code) {
                Some(suit) => Some(Strain::Trump(suit)),
                None => None,
            },
        }
    }
}
