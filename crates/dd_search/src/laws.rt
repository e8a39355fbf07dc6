//! What values and scores have in common, for every board.

ghost use Rattle.std.specs.Prelude.{◌≡◌, ◌≤◌, true};
ghost use Rattle.dd_cards.specs.PlayingCard.{PlayingCard};
ghost use Rattle.dd_cards.specs.Cards.{has_card};
ghost use Rattle.dd_cards.specs.Sides.{side_of};
ghost use Rattle.dd_play.specs.Board.{Board, IsBoard, mover, tricks_left};
ghost use Rattle.dd_play.specs.Simulations.{IsLegal};
ghost use Rattle.dd_play.specs.Value.{score};
ghost use Rattle.dd_play.specs.Won.{won};
ghost use Rattle.dd_equal.specs.EqualCards.{tops};

/// The value is the greatest score: no legal card has a greater one, and the highest card of some class has it.
pub fn value_is_the_greatest_score()
    ensures most { (p : Board) (c : PlayingCard) → IsBoard p → IsLegal p c
        → score p c ≤ won (side_of (mover p)) p }
    ensures reached { (p : Board) → IsBoard p → 1 ≤ tricks_left p
        → (c : PlayingCard) × (has_card (tops p) c ≡ true)
        × (score p c ≡ won (side_of (mover p)) p) }
{}
