//! What alike positions have in common, for every two boards.

ghost use Rattle.std.specs.Prelude.{◌≡◌, ◌↔◌, ℕ, ◌-◌, ◌%◌, ◌^◌, ◌≤◌, Bool, true, List, []};
ghost use Rattle.dd_cards.specs.declared.suit.Suit.{Suit};
ghost use Rattle.dd_cards.specs.PlayingCard.{PlayingCard};
ghost use Rattle.dd_cards.specs.Ranks.{IsRank};
ghost use Rattle.dd_cards.specs.Cards.{has_card};
ghost use Rattle.dd_cards.specs.Sides.{side_of, other_side};
ghost use Rattle.dd_play.specs.Board.{Board, IsBoard, tricks_left};
ghost use Rattle.dd_play.specs.Value.{leaders_tricks};
ghost use Rattle.dd_play.specs.Covers.{count_of};
ghost use Rattle.dd_play.specs.Reach.{reach, TakesBy};
ghost use Rattle.dd_rank.specs.Alike.{AreAlike, IsAlike};
ghost use Rattle.dd_rank.specs.Depths.{all_cards, Covers, depths_of};
ghost use Rattle.dd_rank.specs.Strings.{string_in, Strings, ShapeOf, strings_of, shape_of, hash_in, same_strings, same_shape};

/// Alike positions have one value for the leader's side: also where all seats are turned, and so where none is.
pub fn alike_positions()
    ensures turned { (p q : Board) → IsBoard p → IsBoard q → AreAlike p q
        → leaders_tricks q ≡ leaders_tricks p }
    ensures unturned { (p q : Board) → IsBoard p → IsBoard q → IsAlike p q
        → leaders_tricks q ≡ leaders_tricks p }
{}

/// What holds of all positions that one covers at depths, and claims by the cards that these depths reach, are the same.
/// `told`: bounds that hold of each covered position are a claim of each side, by cards of no smaller depths.
/// `noted`: what both sides claim by cards holds of each position that is covered at no smaller depths.
/// `chained`: a position that is covered by a covered one is covered.
/// `itself`: a position covers itself.
/// `shapes`: it covers only positions of its shape.
/// `owners`: these are the positions of its shape with the same first owners of each suit.
/// `counts`: positions of one shape have as many cards of each suit.
/// `few`: these are thirteen at most.
/// `full`: at full depths it covers the alike positions and no others.
pub fn covered_positions()
    ensures told { (cards : List PlayingCard) (depths : Suit → ℕ) (p : Board) (lo hi : ℕ)
        → ((c : PlayingCard) → has_card cards c ≡ true → IsRank c.rank)
        → p.trick ≡ [] → ((u : Suit) → depths u ≤ depths_of (reach cards) p u)
        → ((q : Board) → IsBoard q → Covers p depths q → (lo ≤ leaders_tricks q) × (leaders_tricks q ≤ hi))
        → TakesBy (reach cards) (side_of p.first) p lo
        × TakesBy (reach cards) (other_side (side_of p.first)) p (tricks_left p - hi) }
    ensures noted { (cards : List PlayingCard) (depths : Suit → ℕ) (p : Board) (lo hi : ℕ)
        → ((c : PlayingCard) → has_card cards c ≡ true → IsRank c.rank)
        → IsBoard p → ((u : Suit) → depths_of (reach cards) p u ≤ depths u)
        → TakesBy (reach cards) (side_of p.first) p lo
        → TakesBy (reach cards) (other_side (side_of p.first)) p (tricks_left p - hi)
        → (q : Board) → IsBoard q → Covers p depths q → (lo ≤ leaders_tricks q) × (leaders_tricks q ≤ hi) }
    ensures chained { (depths : Suit → ℕ) (p q r : Board) → Covers p depths q → Covers q depths r
        → Covers p depths r }
    ensures itself { (p : Board) (depths : Suit → ℕ) → p.trick ≡ [] → ((u : Suit)
        → depths u ≤ count_of u (all_cards p)) → Covers p depths p }
    ensures shapes { (p q : Board) (depths : Suit → ℕ) → IsBoard p → IsBoard q → Covers p depths q
        → shape_of q ≡ shape_of p }
    ensures owners { (p q : Board) (depths : Suit → ℕ) → IsBoard p → IsBoard q → p.trick ≡ []
        → q.trick ≡ [] → ((u : Suit) → depths u ≤ count_of u (all_cards p))
        → (Covers p depths q ↔ ((shape_of q ≡ shape_of p) × ((u : Suit)
        → string_in (strings_of q) u % 4 ^ depths u
        ≡ string_in (strings_of p) u % 4 ^ depths u))) }
    ensures counts { (p q : Board) → IsBoard p → IsBoard q → shape_of q ≡ shape_of p → (u : Suit)
        → count_of u (all_cards q) ≡ count_of u (all_cards p) }
    ensures few { (p : Board) → IsBoard p → (u : Suit) → count_of u (all_cards p) ≤ 13 }
    ensures full { (p q : Board) (depths : Suit → ℕ) → IsBoard p → IsBoard q → ((u : Suit)
        → depths u ≡ count_of u (all_cards p)) → (Covers p depths q ↔ AreAlike p q) }
{}

/// Owner strings tell positions apart just as far as these aren't alike.
/// `alike`: positions are alike exactly where their strings are the same.
/// `keys`: the test by which keys are compared tells whether they are the same.
/// `shapes`: and the test by which shapes are compared, whether those are.
/// `hashed`: equal keys have one hash, which is all that a hasher is fed of them.
pub fn alike_strings()
    ensures alike { (p q : Board) → IsBoard p → IsBoard q → p.trick ≡ [] → q.trick ≡ []
        → (AreAlike p q ↔ strings_of q ≡ strings_of p) }
    ensures keys { (x y : Strings) → (same_strings x y ≡ true ↔ x ≡ y) }
    ensures shapes { (x y : ShapeOf) → (same_shape x y ≡ true ↔ x ≡ y) }
    ensures hashed { (x y : Strings) → same_strings x y ≡ true → hash_in x
        ≡ hash_in y }
{}

/// What a side takes at a position by some cards, it takes at each alike one by cards that reach no fewer of each suit.
/// `leaders`: the leader's side. `others`: the other side, of no more tricks than are left.
pub fn alike_claims()
    ensures leaders { (cards here : List PlayingCard) (p q : Board) (n : ℕ)
        → ((c : PlayingCard) → has_card cards c ≡ true → IsRank c.rank)
        → ((c : PlayingCard) → has_card here c ≡ true → IsRank c.rank)
        → IsBoard p → IsBoard q → p.trick ≡ [] → q.trick ≡ [] → AreAlike p q
        → ((u : Suit) → depths_of (reach cards) q u ≤ depths_of (reach here) p u)
        → TakesBy (reach cards) (side_of q.first) q n → TakesBy (reach here) (side_of p.first) p n }
    ensures others { (cards here : List PlayingCard) (p q : Board) (n : ℕ)
        → ((c : PlayingCard) → has_card cards c ≡ true → IsRank c.rank)
        → ((c : PlayingCard) → has_card here c ≡ true → IsRank c.rank)
        → IsBoard p → IsBoard q → p.trick ≡ [] → q.trick ≡ [] → AreAlike p q
        → ((u : Suit) → depths_of (reach cards) q u ≤ depths_of (reach here) p u) → n ≤ tricks_left q
        → TakesBy (reach cards) (other_side (side_of q.first)) q n
        → TakesBy (reach here) (other_side (side_of p.first)) p n }
{}
