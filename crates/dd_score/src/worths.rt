//! What each contract is worth. Par asks for some hundreds of them, so their points are looked up once.
ghost use Rattle.std.specs.Prelude.{◌≡◌, ◌≤◌};
ghost use Rattle.dd_score.specs.Bids.{bid_of};
ghost use Rattle.dd_score.specs.PointRows.{all_rows, declarers_row};
ghost use Rattle.dd_score.specs.Tables.{IsTable, tricks_of};
ghost use Rattle.dd_score.specs.Worths.{worth};

use crate::point_table::points_row;
use crate::results::Results;
use crate::vulnerable::Vulnerable;
use dd_cards::{Seat, Strain, Suit};

/// The results of a deal with the points of each contract: strains by code, in each the declarers by theirs, and in these the
/// levels.
#[derive(Drop)]
pub(crate) struct Worths {
    pub tricks: [[u8; 4]; 5],
    pub vulnerable: Vulnerable,
    pub rows: [[i16; 8]; 20],
    ghost valid: { IsTable tricks },
    ghost told: { rows ≡ all_rows tricks vulnerable },
}

impl Worths {
    /// Those of these results.
    #[tactic(auto, unfolding(crate::specs::PointRows::all_rows))]
    pub(crate) fn of(results: &Results, vulnerable: Vulnerable) -> Worths
        ensures tricks { result.tricks ≡ results.now }
        ensures vulnerable { result.vulnerable ≡ vulnerable }
    {
        let spades = Strain::Trump(Suit::Spades);
        let hearts = Strain::Trump(Suit::Hearts);
        let diamonds = Strain::Trump(Suit::Diamonds);
        let clubs = Strain::Trump(Suit::Clubs);
        let rows = [
            declarers_row(results, vulnerable, spades, Seat::North),
            declarers_row(results, vulnerable, spades, Seat::East),
            declarers_row(results, vulnerable, spades, Seat::South),
            declarers_row(results, vulnerable, spades, Seat::West),
            declarers_row(results, vulnerable, hearts, Seat::North),
            declarers_row(results, vulnerable, hearts, Seat::East),
            declarers_row(results, vulnerable, hearts, Seat::South),
            declarers_row(results, vulnerable, hearts, Seat::West),
            declarers_row(results, vulnerable, diamonds, Seat::North),
            declarers_row(results, vulnerable, diamonds, Seat::East),
            declarers_row(results, vulnerable, diamonds, Seat::South),
            declarers_row(results, vulnerable, diamonds, Seat::West),
            declarers_row(results, vulnerable, clubs, Seat::North),
            declarers_row(results, vulnerable, clubs, Seat::East),
            declarers_row(results, vulnerable, clubs, Seat::South),
            declarers_row(results, vulnerable, clubs, Seat::West),
            declarers_row(results, vulnerable, Strain::Notrump, Seat::North),
            declarers_row(results, vulnerable, Strain::Notrump, Seat::East),
            declarers_row(results, vulnerable, Strain::Notrump, Seat::South),
            declarers_row(results, vulnerable, Strain::Notrump, Seat::West),
        ];
        Worths {
            tricks: results.table(),
            vulnerable,
            rows,
        }
    }

    /// The same as `worth` of this level's bid.
    #[inline(always)]
    pub(crate) fn at(&self, level: u8, strain: Strain, declarer: Seat) -> i16
        requires { (1 ≤ level) × (level ≤ 7) }
        ensures { result ≡ worth self.now.tricks self.now.vulnerable (bid_of level strain) declarer }
    {
        let row = &self.rows[4 * strain.code() as usize + declarer.code() as usize];
        let won = row[level as usize];
        if declarer.is_north_south() { won } else { -won }
    }

    /// The tricks that this declarer takes in this strain.
    pub(crate) fn tricks(&self, strain: Strain, declarer: Seat) -> u8
        ensures { result ≡ tricks_of self.now.tricks strain declarer }
    {
        let row = self.tricks[strain.code() as usize];
        row[declarer.code() as usize]
    }
}

// The points of a declarer in a strain.
#[inline(always)]
fn declarers_row(
    results: &Results,
    vulnerable: Vulnerable,
    strain: Strain,
    declarer: Seat,
) -> [i16; 8]
    ensures { result ≡ declarers_row results.now vulnerable strain declarer }
{
    points_row(
        strain,
        vulnerable.has(declarer.side()),
        results.tricks(strain, declarer),
    )
}
