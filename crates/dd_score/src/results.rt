ghost use Rattle.std.specs.Prelude.{◌≡◌, ◌≤◌, ◌↔◌, IsSome, IfSome, nat_le};
ghost use Rattle.dd_score.specs.Tables.{tricks_of, IsTable};
ghost use Rattle.std.specs.List.{list_all};

use dd_cards::{Seat, Strain};
use std::marker::Model;

/// The twenty double dummy results of a deal: the tricks that each declarer takes in each strain, 0 to 13. Seen as five
/// lists of four: strains by code, spades, hearts, diamonds, clubs, notrump, and in each North, East, South, West.
#[derive(Drop)]
pub struct Results {
    tricks: [[u8; 4]; 5],
}

impl Model for Results {
    ghost use Rattle.std.specs.Prelude.{ℕ, List};
    ghost use Rattle.dd_score.specs.Tables.{IsTable};

    ghost Value = { List (List ℕ) };

    ghost view = { λ r. r.tricks };

    ghost invariant = { λ r. IsTable r.tricks };
}

impl Results {
    /// The results as they stand, strains by code and in each North, East, South, West. None where one is above 13.
    pub fn new(tricks: [[u8; 4]; 5]) -> Option<Results>
        ensures valid { IsSome result ↔ IsTable tricks }
        ensures value { IfSome result (λ r. r ≡ tricks) }
    {
        for row in &tricks {
            if !is_row(row) {
                return None;
            }
        }
        Some(Results { tricks })
    }

    /// The tricks, 0 to 13, that this declarer takes in this strain.
    #[inline]
    pub fn tricks(&self, strain: Strain, declarer: Seat) -> u8
        ensures value { result ≡ tricks_of self.now strain declarer }
        ensures bound { result ≤ 13 }
    {
        let row = self.tricks[strain.code() as usize];
        row[declarer.code() as usize]
    }

    // All twenty.
    #[inline]
    pub(crate) fn table(&self) -> [[u8; 4]; 5]
        ensures value { result ≡ self.now }
        ensures valid { IsTable result }
    {
        self.tricks
    }
}

// Are all four at most 13?
fn is_row(row: &[u8; 4]) -> bool
    ensures { result ≡ list_all (λ tricks. nat_le tricks 13) row.now }
{
    row.iter().all(|tricks| *tricks <= 13)
}
