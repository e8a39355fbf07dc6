ghost use Rattle.std.specs.Prelude.{◌≡◌, ◌↔◌, [], pos};
ghost use Rattle.dd_score.specs.Values.{IsPar};
ghost use Rattle.dd_score.specs.ParContracts.{par_contracts};

use crate::order::Order;
use crate::par_contract::ParContract;
use crate::par_list::{Sought, par_list};
use crate::par_score::par_score;
use crate::results::Results;
use crate::vulnerable::Vulnerable;
use crate::worths::Worths;
use arrayvec::ArrayVec;

/// Par: its score in North and South's points, less than 0 where East and West score; and the par contracts, at most ten and
/// none exactly where the score is 0: strains by code, and in each North and South's before East and West's.
#[derive(Drop)]
pub struct ParResult {
    pub score: i16,
    pub contracts: ArrayVec<ParContract, 10>,
}

/// Par of the twenty results of a deal. The score is the value of the auction (Laws of Duplicate Bridge 2017, Laws 17 to 22)
/// when all see the results: with a dealer what North and South and East and West can each make sure of; with a side that
/// is asked first the better for it of those values with its two seats as dealer. A par contract is worth the score, and no
/// bid of the other side that is higher, or as high and asked earlier, is better for that side. Of those of one strain
/// and side the least level is listed, with all its declarers (the form of DDS's DealerPar and SidesPar).
pub fn par(results: &Results, vulnerable: Vulnerable, order: Order) -> ParResult
    ensures score { IsPar results.now vulnerable order result.score }
    ensures contracts { result.contracts.items ≡ par_contracts results.now vulnerable order
        result.score }
    ensures none { (result.contracts.items ≡ []) ↔ (result.score ≡ pos 0) }
{
    let worths = Worths::of(results, vulnerable);
    let score = par_score(&worths, order);
    let sought = Sought { order, score };
    ParResult {
        score,
        contracts: par_list(&worths, sought),
    }
}
