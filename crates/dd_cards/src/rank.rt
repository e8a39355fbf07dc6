ghost use Rattle.std.specs.Prelude.{◌≡◌, ℕ, ◌<◌, ◌≤◌, ◌↔◌, IsSome, IfSome};

use std::marker::Model;

/// A rank by its number: 2 to 10, jack 11, queen 12, king 13, ace 14 (Laws of Duplicate Bridge 2017, Law 1).
#[derive(Clone, Copy, Debug, PartialEq, Eq)]
pub struct Rank {
    code: u8,
}

impl Model for Rank {
    ghost Value = { ℕ };

    ghost view = { λ r. r.code };

    ghost invariant = { λ r. (2 ≤ r.code) × (r.code ≤ 14) };

    ghost inverse = { λ n. record { code = n } };
}

impl Rank {
    /// The rank of a DDS code, 2 to 14.
    pub fn from_code(code: u8) -> Option<Rank>
        ensures valid { IsSome result ↔ ((2 ≤ code) × (code ≤ 14)) }
        ensures value { IfSome result (λ r. r ≡ code) }
    {
        if 2 <= code && code <= 14 {
            Some(Rank { code })
        } else {
            None
        }
    }

    /// The rank of a code that is known to be one.
    pub fn of(code: u8) -> Rank
        requires { (2 ≤ code) × (code ≤ 14) }
        ensures { result ≡ code }
    {
        Rank { code }
    }

    /// The DDS code of the rank, 2 to 14, the ace being 14.
    pub fn code(self) -> u8
        ensures value { result ≡ self }
        ensures low { 2 ≤ result }
        ensures high { result ≤ 14 }
    {
        self.code
    }
}
