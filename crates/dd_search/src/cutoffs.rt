//! What is known of a position's value before a card is tried, and what an answer makes known.
ghost use Rattle.std.specs.Prelude.{◌≡◌, ◌-◌, ◌<◌, ◌≤◌, ℕ, true, length, min, IfSome};
ghost use Rattle.std.specs.Bool.{OnTrue, OnFalse};
ghost use Rattle.dd_cards.specs.declared.suit.Suit.{Suit as SuitOf};
ghost use Rattle.dd_cards.specs.Cards.{has_card};
ghost use Rattle.dd_cards.specs.Sides.{side_of, other_side};
ghost use Rattle.dd_play.specs.Board.{Board, IsBoard, tricks_left};
ghost use Rattle.dd_play.specs.Covers.{count_of};
ghost use Rattle.dd_play.specs.Play.{legal};
ghost use Rattle.dd_play.specs.Value.{leaders_tricks};
ghost use Rattle.dd_play.specs.Intervals.{Holds};
ghost use Rattle.dd_play.specs.Reach.{reach, TakesBy};
ghost use Rattle.dd_quick.specs.SecondHand.{Opposes};
ghost use Rattle.dd_rank.specs.Depths.{all_cards, depth_in, Covers};
ghost use Rattle.dd_rank.specs.Strings.{strings_of};
ghost use Rattle.dd_search.specs.ClaimsBy.{IsAnswerAfter, IsAnswerBy, IsWindow, north_souths};
ghost use Rattle.dd_order.specs.Turns.{cards_before};

use crate::claim::Claim;
use crate::quick_limit::{may_have_quick_tricks, others_may_have};
use crate::second_hands::SecondHands;
use crate::verdict::Verdict;
use dd_bounds::{Bounds, ProbeHint};
use dd_cards::{Card, Seat};
use dd_order::Turn;
use dd_play::{Interval, Position, TrickStart};
use dd_quick::{against_leader, bounds as quick_bounds, for_leader, for_second_hand};
use dd_rank::{Depths, OwnerStrings};

/// Do North and South take at least `need` of the tricks left, where the quick tricks of a side settle it? With the winners
/// that they are. They are counted where there may be so many.
#[inline]
pub(crate) fn quick_answer(start: &TrickStart, strings: &OwnerStrings, need: u8) -> Option<Verdict>
    requires { need ≤ tricks_left start.now }
    ensures answer { IfSome result (λ answer. IsAnswerBy start.now need answer.cards answer.yes) }
    ensures board { IsBoard start.now }
{
    let position = start.position();
    let leads = position.first().is_north_south();
    let left = position.tricks_left();
    let others = left + 1 - need;
    let leaders = if leads { need } else { others };
    let against = if leads { others } else { need };
    let shape = strings.shape();
    let tops = strings.two_highest();
    let strain = position.strain();
    if may_have_quick_tricks(shape.lengths(), tops, strain, 0, left, leaders) {
        if let Some(cards) = for_leader(start, leaders) {
            return Some(Verdict::new(leads, cards));
        }
    }
    if !others_may_have(shape, tops, against) {
        return None;
    }
    let cards = against_leader(start, against)?;
    Some(Verdict::new(!leads, cards))
}

/// The same by a look at a table, to which the start's strings are handed, and the place that it told of their shape.
#[inline]
pub(crate) fn told_answer<B: Bounds>(
    start: &TrickStart,
    strings: &OwnerStrings,
    hint: ProbeHint,
    need: u8,
    table: &mut B,
) -> Option<Verdict>
    requires strings { strings.now ≡ strings_of start.now }
    requires low { 1 ≤ need }
    requires high { need ≤ tricks_left start.now }
    ensures answer { IfSome result (λ answer. IsAnswerBy start.now need answer.cards answer.yes) }
    ensures board { IsBoard start.now }
{
    let position = start.position();
    let leads = position.first().is_north_south();
    let left = position.tricks_left();
    let leaders = if leads { need } else { left + 1 - need };
    match table.settle_at(start, strings, hint, leaders) {
        Some(told) => Some(Verdict::new((leaders <= told.0.lo) == leads, told.1.cards(start))),
        None => None,
    }
}

/// What is answered where this card is led, by quick tricks of an opponent that has the highest card left of its suit. It leads
/// nowhere else.
#[inline(always)]
pub(crate) fn second_hands_answer(
    position: &Position,
    turn: Turn,
    card: Card,
    need: u8,
    seconds: &mut SecondHands,
) -> Option<Verdict>
    requires legal { has_card (legal position.now) card ≡ true }
    requires turn { length position.now.trick ≡ cards_before turn }
    requires low { 1 ≤ need }
    requires high { need ≤ tricks_left position.now }
    ensures found { IfSome result
        (λ found. IsAnswerAfter position.now need card found.cards found.yes) }
{
    match turn {
        Turn::First => {
            let seat = seconds.to_ask(position, card)?;
            answer_of_second_hand(position, seat, card, need, seconds)
        }
        Turn::Second | Turn::Third | Turn::Fourth => None,
    }
}

// The same where no card is on the trick, by the quick tricks of this opponent.
fn answer_of_second_hand(
    position: &Position,
    seat: Seat,
    card: Card,
    need: u8,
    seconds: &mut SecondHands,
) -> Option<Verdict>
    requires legal { has_card (legal position.now) card ≡ true }
    requires start { length position.now.trick ≡ 0 }
    requires opposes { Opposes position.now seat }
    requires low { 1 ≤ need }
    requires high { need ≤ tricks_left position.now }
    ensures found { IfSome result
        (λ found. IsAnswerAfter position.now need card found.cards found.yes) }
{
    let leads = position.first().is_north_south();
    let left = position.tricks_left();
    let others = if leads { left + 1 - need } else { need };
    if !seconds.may_take(position, seat, left, others) {
        seconds.was_in_vain(position, seat, card.suit);
        return None;
    }
    let Some(cards) = for_second_hand(position, seat, card.suit, others) else {
        seconds.was_in_vain(position, seat, card.suit);
        return None;
    };
    Some(Verdict::new(!leads, cards))
}

/// Hands over what an answer proves of the value.
pub(crate) fn note_answer<B: Bounds>(
    start: &TrickStart,
    strings: &OwnerStrings,
    need: u8,
    answer: &Verdict,
    table: &mut B,
)
    requires strings { strings.now ≡ strings_of start.now }
    requires low { 1 ≤ need }
    requires high { need ≤ tricks_left start.now }
    requires answer { IsAnswerBy start.now need answer.now.cards answer.now.yes }
{
    let interval = interval_of(start, need, answer);
    let depths = Depths::of_cards(start, answer.cards());
    table.note_by(start, strings, depths, interval);
}

/// The bounds that an answer proves of the value, and no more: at least `need` tricks for North and South, or fewer.
#[inline]
fn interval_of(start: &TrickStart, need: u8, answer: &Verdict) -> Interval
    requires low { 1 ≤ need }
    requires high { need ≤ tricks_left start.now }
    requires answer { IsAnswerBy start.now need answer.now.cards answer.now.yes }
    ensures board { IsBoard start.now }
    ensures theirs { TakesBy (reach answer.now.cards) (side_of start.now.first) start.now result.lo }
    ensures others { TakesBy (reach answer.now.cards) (other_side (side_of start.now.first)) start.now
        (tricks_left start.now - result.hi) }
    ensures yes { OnTrue answer.now.yes ((n : ℕ) → Holds result n → need ≤ north_souths start.now n) }
    ensures no { OnFalse answer.now.yes ((n : ℕ) → Holds result n → north_souths start.now n < need) }
{
    let position = start.position();
    let leads = position.first().is_north_south();
    let left = position.tricks_left();
    let window = if answer.is_yes() {
        Interval { lo: need, hi: left }
    } else {
        Interval {
            lo: 0,
            hi: need - 1,
        }
    };
    leaders_interval(leads, left, window)
}

/// What North and South take and what East and West take, as far as a look and the quick bounds tell at a start of a trick.
pub(crate) fn window<B: Bounds>(position: &Position, table: &mut B) -> (Claim, Claim)
    ensures { IsWindow position.now result.0 result.1 }
{
    let nothing = (Claim::nothing(), Claim::nothing());
    let left = position.tricks_left();
    match TrickStart::of(position) {
        Some(start) if left > 0 => {
            let told = table.look(&start);
            let quick = quick_bounds(&start);
            let quick = claims(&start, quick.0, quick.1);
            let quick = (nothing.0.or(quick.0), nothing.1.or(quick.1));
            match told {
                Some(told) => {
                    let told = claims(&start, told.0, told.1);
                    (quick.0.or(told.0), quick.1.or(told.1))
                }
                None => quick,
            }
        }
        _ => nothing,
    }
}

// What North and South take and what East and West take, by bounds that hold at these depths.
fn claims(start: &TrickStart, interval: Interval, depths: Depths) -> (Claim, Claim)
    requires within { (u : SuitOf) → depth_in depths u ≤ count_of u (all_cards start.now) }
    requires holds { (q : Board) → IsBoard q → Covers start.now (depth_in depths) q
        → Holds interval (leaders_tricks q) }
    ensures { IsWindow start.now result.0 result.1 }
{
    let position = start.position();
    let cards = depths.cards(start);
    let leaders = Claim {
        tricks: interval.lo,
        cards,
    };
    let others = Claim {
        tricks: position.tricks_left().saturating_sub(interval.hi),
        cards,
    };
    if position.first().is_north_south() {
        (leaders, others)
    } else {
        (others, leaders)
    }
}

// Bounds of the tricks of the leader's side, from bounds of those of North and South; `leads` says whether these are one
// side.
#[inline]
fn leaders_interval(leads: bool, left: u8, interval: Interval) -> Interval
    requires { interval.lo ≤ left }
    ensures same { OnTrue leads ((result.lo ≡ interval.lo) × (result.hi ≡ min interval.hi left)) }
    ensures other { OnFalse leads ((result.lo ≡ left - interval.hi) × (result.hi
        ≡ left - interval.lo)) }
{
    if leads {
        Interval {
            lo: interval.lo,
            hi: interval.hi.min(left),
        }
    } else {
        Interval {
            lo: left.saturating_sub(interval.hi),
            hi: left - interval.lo,
        }
    }
}
