ghost use Rattle.std.specs.Prelude.{◌≡◌, ◌<◌, ◌↔◌, IsSome, IfSome};
ghost use Rattle.dd_score.specs.Vulnerability.{vulnerable_code, is_vulnerable};

use dd_cards::Side;

/// Which sides are vulnerable on a board (Laws of Duplicate Bridge 2017, Law 2).
#[derive(Clone, Copy, Debug, PartialEq, Eq)]
pub enum Vulnerable {
    Neither,
    Both,
    NorthSouth,
    EastWest,
}

impl Vulnerable {
    /// The sides of a DDS code: 0 neither, 1 both, 2 North and South, 3 East and West. No other byte stands for one.
    pub fn from_code(code: u8) -> Option<Vulnerable>
        ensures valid { IsSome result ↔ (code < 4) }
        ensures value { IfSome result (λ v. vulnerable_code v ≡ code) }
    {
        match code {
            0 => Some(Vulnerable::Neither),
            1 => Some(Vulnerable::Both),
            2 => Some(Vulnerable::NorthSouth),
            3 => Some(Vulnerable::EastWest),
            _ => None,
        }
    }

    /// Is this side vulnerable?
    pub fn has(self, side: Side) -> bool
        ensures { result ≡ is_vulnerable self side }
    {
        match (self, side) {
            (Vulnerable::Neither, _) => false,
            (Vulnerable::Both, _) => true,
            (Vulnerable::NorthSouth, Side::NorthSouth) => true,
            (Vulnerable::NorthSouth, Side::EastWest) => false,
            (Vulnerable::EastWest, Side::NorthSouth) => false,
            (Vulnerable::EastWest, Side::EastWest) => true,
        }
    }
}
