//! What starts of a trick by relative ranks have in common, for every two of them.
ghost use Rattle.std.specs.Prelude.{◌≡◌, ◌↔◌, ℕ, ◌≤◌, true, List, []};
ghost use Rattle.dd_cards.specs.declared.suit.Suit.{Suit};
ghost use Rattle.dd_cards.specs.PlayingCard.{PlayingCard};
ghost use Rattle.dd_cards.specs.Ranks.{IsRank};
ghost use Rattle.dd_cards.specs.Cards.{has_card};
ghost use Rattle.dd_cards.specs.Sides.{side_of, other_side};
ghost use Rattle.dd_play.specs.Board.{Board, IsBoard, tricks_left};
ghost use Rattle.dd_play.specs.Covers.{count_of};
ghost use Rattle.dd_play.specs.Reach.{reach, TakesBy};
ghost use Rattle.dd_rank.specs.Alike.{AreAlike};
ghost use Rattle.dd_rank.specs.Depths.{all_cards, Covers};
ghost use Rattle.dd_relative.specs.Relative.{IsRelative};
ghost use Rattle.dd_relative.specs.Tops.{HaveSameTops};
ghost use Rattle.dd_relative.specs.WinningRanks.{AreTop, AreBefore};

use dd_rank::{alike_claims, alike_strings, covered_positions};

/// A position is alike to one start of a trick by relative ranks and no other.
/// `alone`: two such starts that are alike are the same. `one`: so are two that a position is alike to.
pub fn one_relative_start()
    ensures alone { (p q : Board) → IsRelative p → IsRelative q → AreAlike p q → p ≡ q }
    ensures one { (p q r : Board) → IsBoard p → p.trick ≡ [] → IsRelative q → IsRelative r
        → AreAlike p q → AreAlike p r → q ≡ r }
{
    covered_positions();
    alike_strings();
}

/// One start of a trick by relative ranks covers another at depths where the lengths are the same and the same hands have the
/// highest cards: masks tell it.
pub fn covered_starts()
    ensures { (p q : Board) (depths : Suit → ℕ) → IsRelative p → IsRelative q → ((u : Suit)
        → depths u ≤ count_of u (all_cards p)) → (Covers p depths q ↔ HaveSameTops depths p q) }
{}

/// What a side takes at the next start by winning ranks, it takes at the board before it, whose suits are not closed up yet, by the
/// ranks as they stand there (`AreBefore`).
/// `leaders`: the side of who leads to the next trick. `others`: the other side, of no more tricks than are left.
pub fn claims_before()
    ensures leaders { (p q : Board) (later cards : List PlayingCard) (n : ℕ)
        → ((c : PlayingCard) → has_card later c ≡ true → IsRank c.rank)
        → ((c : PlayingCard) → has_card cards c ≡ true → IsRank c.rank)
        → IsBoard p → IsRelative q → AreAlike p q → AreTop later → AreBefore p later cards
        → TakesBy (reach later) (side_of q.first) q n → TakesBy (reach cards) (side_of p.first) p n }
    ensures others { (p q : Board) (later cards : List PlayingCard) (n : ℕ)
        → ((c : PlayingCard) → has_card later c ≡ true → IsRank c.rank)
        → ((c : PlayingCard) → has_card cards c ≡ true → IsRank c.rank)
        → IsBoard p → IsRelative q → AreAlike p q → AreTop later → AreBefore p later cards
        → n ≤ tricks_left q → TakesBy (reach later) (other_side (side_of q.first)) q n
        → TakesBy (reach cards) (other_side (side_of p.first)) p n }
{
    alike_claims();
    one_relative_start();
}
