//! What is read of the ranks that a hand has of a suit.
ghost use Rattle.std.specs.Prelude.{◌≡◌, ◌≤◌, true, IfSome};
ghost use Rattle.dd_cards.specs.Ranks.{has_rank};

use dd_cards::{Holding, Rank};

/// The rank, 2 to 14, of the highest card, or 0 where there is none.
#[inline]
pub(crate) fn code_of_highest(suit: Holding) -> u8
    ensures { result ≤ 14 }
{
    match suit.highest() {
        Some(rank) => rank.code(),
        None => 0,
    }
}

/// The lowest of these ranks.
#[inline]
pub(crate) fn lowest(suit: Holding) -> Option<Rank>
    ensures { IfSome result (λ rank. has_rank suit rank ≡ true) }
{
    suit.next_from(Rank::of(2))
}
