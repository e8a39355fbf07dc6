ghost use Rattle.std.specs.Prelude.{◌≡◌};
ghost use Rattle.dd_score.specs.Worths.{worth};

use crate::bid::Bid;
use crate::contract_score::points;
use crate::doubling::Doubling;
use crate::results::Results;
use crate::vulnerable::Vulnerable;
use dd_cards::Seat;

/// North and South's points for this contract by this declarer: undoubled where declarer makes it, doubled where not.
/// Never 0; less than 0 where East and West score.
pub fn worth(results: &Results, vulnerable: Vulnerable, bid: Bid, declarer: Seat) -> i16
    ensures { result ≡ worth results.now vulnerable bid declarer }
{
    let level = bid.level();
    let strain = bid.strain();
    let tricks = results.tricks(strain, declarer);
    let doubling = if level + 6 <= tricks {
        Doubling::Undoubled
    } else {
        Doubling::Doubled
    };
    let won = points(
        level,
        strain,
        doubling,
        vulnerable.has(declarer.side()),
        tricks,
    );
    if declarer.is_north_south() { won } else { -won }
}
