//! What equal cards have in common, for every board.

ghost use Rattle.std.specs.Prelude.{◌≡◌, ℕ, ◌+◌, ◌≤◌, Bool, true, false, filter, length};
ghost use Rattle.dd_cards.specs.PlayingCard.{PlayingCard};
ghost use Rattle.dd_cards.specs.Cards.{has_card};
ghost use Rattle.dd_cards.specs.Masks.{in_mask};
ghost use Rattle.dd_cards.specs.Sides.{is_side};
ghost use Rattle.dd_cards.specs.declared.side.Side.{Side};
ghost use Rattle.dd_play.specs.Board.{Board, IsBoard, mover, tricks_left};
ghost use Rattle.dd_play.specs.Play.{after};
ghost use Rattle.dd_play.specs.Simulations.{IsLegal};
ghost use Rattle.dd_play.specs.Value.{score};
ghost use Rattle.dd_play.specs.Won.{trick_for};
ghost use Rattle.dd_play.specs.Claims.{Takes};
ghost use Rattle.dd_play.specs.Reach.{IsUpward, TakesBy, IsWorth};
ghost use Rattle.dd_equal.specs.EqualCards.{are_equal, tops, equals_of, classes_of, class_has, IsWhole};

/// Equal cards have one score, whatever other cards of the hand lie between them.
pub fn equal_cards_score_alike()
    ensures { (p : Board) (c d : PlayingCard) → IsBoard p → IsLegal p c → IsLegal p d
        → are_equal p c d ≡ true
        → score p d ≡ score p c }
{}

/// The classes part the legal cards: each is in exactly one class, as its highest card or in the mask of its others, and a
/// class has no other cards.
pub fn classes_part_the_legal_cards()
    ensures one { (p : Board) (c : PlayingCard) → IsBoard p → IsLegal p c
        → length (filter (λ class. class_has class c) (classes_of p)) ≡ 1 }
    ensures only { (p : Board) (c : PlayingCard) → IsBoard p
        → 1 ≤ length (filter (λ class. class_has class c) (classes_of p)) → IsLegal p c }
    ensures lower { (p : Board) (t : PlayingCard) → IsBoard p
        → in_mask (equals_of p t) t.rank ≡ false }
{}

/// Where the other side is to play, it is enough that one card of each class, its highest, leaves the side as many.
pub fn one_card_of_each_class()
    ensures { (side : Side) (p : Board) (n : ℕ) → IsBoard p → is_side side (mover p) ≡ false
        → 1 ≤ tricks_left p
        → ((c : PlayingCard) → has_card (tops p) c ≡ true → (m : ℕ) × Takes side (after p c) m
        × (n ≤ m + trick_for side p c))
        → Takes side p n }
{}

/// The same of claims that rest on high cards, if a class of which they rest on the highest card is among these cards wholly.
pub fn one_card_of_each_class_by_high_cards()
    ensures { (top : PlayingCard → Bool) (side : Side) (p : Board) (n : ℕ) → IsUpward top
        → IsBoard p → is_side side (mover p) ≡ false → 1 ≤ tricks_left p
        → IsWhole top p → ((c : PlayingCard) → has_card (tops p) c ≡ true
        → IsWorth top side p c n) → TakesBy top side p n }
{}
