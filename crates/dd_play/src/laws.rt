//! Laws of play that crates above rest on: facts of the definitions, for every board.

ghost use Rattle.std.specs.Prelude.{◌≡◌, ℕ, ◌+◌, ◌-◌, ◌≤◌, ◌↔◌, Bool, true, false, List, [], ◌∷◌, map, if◌then◌else◌};
ghost use Rattle.dd_cards.specs.PlayingCard.{PlayingCard};
ghost use Rattle.dd_cards.specs.declared.strain.Strain.{Strain as StrainOf};
ghost use Rattle.dd_cards.specs.Cards.{has_card};
ghost use Rattle.dd_cards.specs.Ranks.{IsRank};
ghost use Rattle.dd_cards.specs.Sides.{side_of, other_side, is_side};
ghost use Rattle.dd_cards.specs.declared.side.Side.{Side};
ghost use Rattle.dd_play.specs.Board.{Board, IsBoard, mover, tricks_left, cards_left};
ghost use Rattle.dd_play.specs.Tricks.{winning_place};
ghost use Rattle.dd_play.specs.Strength.{strongest_place};
ghost use Rattle.dd_play.specs.Play.{legal, completes, after};
ghost use Rattle.dd_play.specs.Value.{best, ns, ns_with, leaders_tricks};
ghost use Rattle.dd_play.specs.Deals.{spades, hearts, deal};
ghost use Rattle.dd_play.specs.Won.{won, trick_for};
ghost use Rattle.dd_play.specs.Simulations.{IsLegal};
ghost use Rattle.dd_play.specs.Claims.{Takes};
ghost use Rattle.dd_play.specs.Covers.{IsSettled};
ghost use Rattle.dd_play.specs.Reach.{reach, IsUpward, TakesBy, IsWorth};

use dd_cards::{Seat, Strain, Suit};

/// The value is the best of the values after each legal card, so the number of cards looked ahead never shows.
pub fn value_by_play()
    ensures { (p : Board) → IsBoard p
        → ns p ≡ best (side_of (mover p)) (map (ns_with p) (legal p)) }
{}

/// After a legal card comes a legal state of play with one card fewer in the hands, and with one trick fewer left
/// exactly where the card completes the trick.
pub fn play_keeps_positions()
    ensures { (p : Board) (c : PlayingCard) → IsBoard p → has_card (legal p) c ≡ true
        → IsBoard (after p c) × (cards_left (after p c) + 1 ≡ cards_left p)
        × (tricks_left (after p c) + (if completes p then 1 else 0) ≡ tricks_left p) }
{}

/// North and South take no more tricks than are left.
pub fn value_within_tricks()
    ensures { (p : Board) → IsBoard p → ns p ≤ tricks_left p }
{}

/// The winner by the Laws stands at the place of the greatest strength.
pub fn winner_by_strength()
    ensures { (strain : StrainOf) (trick : List PlayingCard)
        → ((c : PlayingCard) → has_card trick c ≡ true → IsRank c.rank)
        → winning_place strain trick ≡ strongest_place strain trick }
{}

/// What may be claimed of the tricks that a side takes, and how a claim follows from claims after one card more: the
/// rules that a bound or a search rests on.
/// `nothing`, `fewer`: no trick, and no more than are claimed already.
/// `one_card`: where the side is to play, one card's claim is enough, with the trick that the card completes.
/// `every_card`: where the other side is to play, each of its cards has to leave the side as many.
/// `trick_for`: a completed trick is won by one of the two sides.
/// `both`, `all`, `exactly`: the two sides share the tricks that are left.
/// `bounds`: at the start of a trick, bounds of the leader's tricks are a claim of each side.
pub fn claims()
    ensures nothing { (side : Side) (p : Board) → Takes side p 0 }
    ensures fewer { (side : Side) (p : Board) (n m : ℕ) → Takes side p n → m ≤ n → Takes side p m }
    ensures one_card { (side : Side) (p : Board) (c : PlayingCard) (n : ℕ) → IsBoard p
        → is_side side (mover p) ≡ true
        → IsLegal p c → Takes side (after p c) n → Takes side p (n + trick_for side p c) }
    ensures every_card { (side : Side) (p : Board) (n : ℕ) → IsBoard p
        → is_side side (mover p) ≡ false → 1 ≤ tricks_left p
        → ((c : PlayingCard) → IsLegal p c → (m : ℕ) × Takes side (after p c) m
        × (n ≤ m + trick_for side p c)) → Takes side p n }
    ensures trick_for { (side : Side) (p : Board) (c : PlayingCard)
        → trick_for side p c + trick_for (other_side side) p c ≡ (if completes p then 1 else 0) }
    ensures both { (side : Side) (p : Board) (n m : ℕ) → IsBoard p → Takes side p n
        → Takes (other_side side) p m → n + m ≤ tricks_left p }
    ensures all { (side : Side) (p : Board) → IsBoard p
        → won side p + won (other_side side) p ≡ tricks_left p }
    ensures exactly { (side : Side) (p : Board) (n m : ℕ) → IsBoard p → Takes side p n
        → Takes (other_side side) p m → n + m ≡ tricks_left p → won side p ≡ n }
    ensures bounds { (p : Board) (lo hi : ℕ) → IsBoard p → p.trick ≡ [] → ((lo ≤ leaders_tricks p)
        × (leaders_tricks p ≤ hi))
        ↔ (Takes (side_of p.first) p lo × Takes (other_side (side_of p.first)) p (tricks_left p - hi)) }
{}

/// Claims that rest on some cards and all higher ones alone, and so hold at each position that differs below them: the rules
/// that a search rests on whose entries forget low cards.
/// `nothing`, `fewer`, `more`: no trick, no more than are claimed, and resting on more cards.
/// `one_card`, `every_card`: what one card is worth is enough where the side is to play; where the other side is, each of
/// its cards has to be worth as much.
/// `after`: a card is worth what is claimed after it and the trick that it completes, if the trick's winner is a card that
/// the claim rests on or is the only one of its suit there.
/// `less`, `wider`: a card is worth less, and as much by more cards.
/// `low`: one card below those that a claim rests on is worth as much as another of its suit.
/// `here`: a claim holds where it was made.
/// `reached`: what is no lower than one of these cards.
pub fn claims_by_high_cards()
    ensures nothing { (top : PlayingCard → Bool) (side : Side) (p : Board) → TakesBy top side p 0 }
    ensures fewer { (top : PlayingCard → Bool) (side : Side) (p : Board) (n m : ℕ)
        → TakesBy top side p n → m ≤ n → TakesBy top side p m }
    ensures more { (few many : PlayingCard → Bool) (side : Side) (p : Board) (n : ℕ)
        → ((c : PlayingCard) → few c ≡ true → many c ≡ true)
        → IsUpward few → TakesBy few side p n → TakesBy many side p n }
    ensures one_card { (top : PlayingCard
        → Bool) (side : Side) (p : Board) (c : PlayingCard) (n : ℕ)
        → is_side side (mover p) ≡ true
        → IsLegal p c → IsWorth top side p c n → TakesBy top side p n }
    ensures every_card { (top : PlayingCard → Bool) (side : Side) (p : Board) (n : ℕ)
        → is_side side (mover p) ≡ false → 1 ≤ tricks_left p
        → ((c : PlayingCard) → IsLegal p c → IsWorth top side p c n) → TakesBy top side p n }
    ensures after { (top : PlayingCard → Bool) (side : Side) (p : Board) (c : PlayingCard) (n : ℕ)
        → IsLegal p c → IsSettled top p c
        → TakesBy top side (after p c) n → IsWorth top side p c (n + trick_for side p c) }
    ensures less { (top : PlayingCard → Bool) (side : Side) (p : Board) (c : PlayingCard) (n m : ℕ)
        → IsWorth top side p c n → m ≤ n → IsWorth top side p c m }
    ensures wider { (few many : PlayingCard
        → Bool) (side : Side) (p : Board) (c : PlayingCard) (n : ℕ)
        → ((c : PlayingCard) → few c ≡ true → many c ≡ true)
        → IsUpward few → IsWorth few side p c n → IsWorth many side p c n }
    ensures low { (top : PlayingCard → Bool) (side : Side) (p : Board) (c d : PlayingCard) (n : ℕ)
        → top c ≡ false → top d ≡ false → d.suit ≡ c.suit
        → IsWorth top side p c n → IsWorth top side p d n }
    ensures here { (top : PlayingCard → Bool) (side : Side) (p : Board) (n : ℕ) → IsBoard p
        → IsUpward top → TakesBy top side p n → Takes side p n }
    ensures reached { (cards : List PlayingCard) → IsUpward (reach cards) }
{}

/// Deals whose value can be counted by hand: the ace takes its trick for the leader's side, and against it; a king
/// before the ace and queen is caught, and behind them it is not; a low trump takes an ace.
pub fn worked_deals()
    ensures ace { leaders_tricks (deal (spades (14 ∷ [])) (spades (13 ∷ [])) (spades (12 ∷ [])) (spades (11
        ∷ []))
        Strain.Notrump Seat.North) ≡ 1 }
    ensures king { leaders_tricks (deal (spades (14 ∷ [])) (spades (13 ∷ [])) (spades (12 ∷ [])) (spades (11
        ∷ []))
        Strain.Notrump Seat.East) ≡ 0 }
    ensures caught { leaders_tricks (deal (spades (3 ∷ 2 ∷ [])) (spades (13 ∷ 4 ∷ [])) (spades (14 ∷ 12
        ∷ [])) (spades (6 ∷ 5 ∷ []))
        Strain.Notrump Seat.North) ≡ 2 }
    ensures safe { leaders_tricks (deal (spades (3 ∷ 2 ∷ [])) (spades (6 ∷ 5 ∷ [])) (spades (14 ∷ 12
        ∷ [])) (spades (13 ∷ 4 ∷ []))
        Strain.Notrump Seat.North) ≡ 1 }
    ensures ruff { leaders_tricks (deal (spades (14 ∷ [])) (hearts (2 ∷ [])) (spades (2 ∷ [])) (spades (3
        ∷ []))
        (Strain.Trump Suit.Hearts) Seat.North) ≡ 0 }
{}
