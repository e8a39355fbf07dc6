//! Which positions meet in a table.
ghost use Rattle.std.specs.Prelude.{◌≡◌, ℕ};
ghost use Rattle.dd_cards.specs.declared.suit.Suit.{Suit};
ghost use Rattle.dd_play.specs.Board.{Board, IsBoard};
ghost use Rattle.dd_rank.specs.Alike.{AreAlike};
ghost use Rattle.dd_rank.specs.Depths.{Covers};
ghost use Rattle.dd_rank.specs.Strings.{shape_of};
ghost use Rattle.dd_table.specs.Places.{shard_of, slot_of};

use dd_rank::{alike_strings, covered_positions};

/// Positions that may tell of each other meet, for every two boards.
/// `slots`: alike positions have one slot of the front.
/// `shards`: alike positions have one shard, of however many.
/// `covers`: so have a position and one that it covers.
pub fn alike_positions_meet()
    ensures slots { (p q : Board) → IsBoard p → IsBoard q → AreAlike p q → slot_of q ≡ slot_of p }
    ensures shards { (count : ℕ) (p q : Board) → IsBoard p → IsBoard q → AreAlike p q
        → shard_of count (shape_of q) ≡ shard_of count (shape_of p) }
    ensures covers { (count : ℕ) (depths : Suit → ℕ) (p q : Board) → IsBoard p → IsBoard q
        → Covers p depths q → shard_of count (shape_of q) ≡ shard_of count (shape_of p) }
{
    alike_strings();
    covered_positions();
}
