//! What is known of the value of a start by relative ranks before a card is tried, and what an answer makes known.
ghost use Rattle.std.specs.Prelude.{◌≡◌, ◌≤◌, true, length, IfSome};
ghost use Rattle.dd_cards.specs.Cards.{has_card};
ghost use Rattle.dd_cards.specs.PlayingCard.{PlayingCard};
ghost use Rattle.dd_cards.specs.Sides.{side_of, other_side};
ghost use Rattle.dd_play.specs.Board.{IsBoard, tricks_left};
ghost use Rattle.dd_play.specs.Play.{after, legal};
ghost use Rattle.dd_play.specs.Reach.{reach, TakesBy};
ghost use Rattle.dd_quick.specs.SecondHand.{Opposes};
ghost use Rattle.dd_rank.specs.Strings.{strings_of};
ghost use Rattle.dd_search.specs.ClaimsBy.{IsAnswerAfter, IsAnswerBy};
ghost use Rattle.dd_order.specs.Turns.{cards_before};

use crate::kept_count::others_keep;
use crate::quick_count::QuickView;
use crate::quick_limit::{has_trumps, others_may_have};
use crate::rank_verdict::RankVerdict;
use crate::second_hands::SecondHands;
use dd_bounds::{Bounds, ProbeHint};
use dd_cards::{Hand, Place, Seat, Strain, Suit};
use dd_order::Turn;
use dd_play::Interval;
use dd_quick::{
    against_leader, for_leader_across, for_leader_by, for_second_hand, for_second_hand_across,
    for_second_hand_by,
};
use dd_rank::OwnerStrings;
use dd_relative::{ComingStart, PlacedTrick, RelativeStart, WinningRanks};

// The leader is North, so that North and South's tricks are the leader's side's.

/// Do North and South take at least `need` of the tricks left, by a look at a table? To it the start's strings are handed, and the
/// place that it told of their shape.
#[inline(always)]
pub(crate) fn told_ranks<B: Bounds>(
    coming: &ComingStart,
    strings: &OwnerStrings,
    hint: ProbeHint,
    need: u8,
    table: &mut B,
) -> Option<RankVerdict>
    requires strings { strings.now ≡ strings_of coming.now }
    requires low { 1 ≤ need }
    requires high { need ≤ tricks_left coming.now }
    ensures answer { IfSome result (λ answer. IsAnswerBy coming.now need answer.cards answer.yes) }
    ensures board { IsBoard coming.now }
{
    let start = coming.start();
    match table.settle_at(start.as_trick_start(), strings, hint, need) {
        Some(told) => Some(RankVerdict::new(
            need <= told.0.lo,
            &WinningRanks::of_depths(start, told.1),
        )),
        None => None,
    }
}

/// The same where the quick tricks of a side settle it, by the winners that they are. They are made sure of where so many are counted.
#[inline]
pub(crate) fn quick_ranks(
    coming: &ComingStart,
    strings: &OwnerStrings,
    need: u8,
) -> Option<RankVerdict>
    requires { need ≤ tricks_left coming.now }
    ensures answer { IfSome result (λ answer. IsAnswerBy coming.now need answer.cards answer.yes) }
    ensures board { IsBoard coming.now }
{
    let relative = coming.start();
    let start = relative.as_trick_start();
    let left = relative.tricks_left();
    let against = left + 1 - need;
    let shape = strings.shape();
    if let Some(cards) = leaders_winners(relative, shape.lengths(), need) {
        return Some(RankVerdict::new(true, &WinningRanks::reaching(cards)));
    }
    if !others_may_take(relative, strings, against) {
        return None;
    }
    let cards = against_leader(start, against)?;
    Some(RankVerdict::new(false, &WinningRanks::reaching(cards)))
}

// May the other side take so many tricks by the quick tricks that are counted of it?
#[inline(always)]
fn others_may_take(relative: &RelativeStart, strings: &OwnerStrings, need: u8) -> bool {
    let shape = strings.shape();
    if has_trumps(shape) {
        others_may_have(shape, strings.two_highest(), need)
    } else {
        others_keep(relative, shape.lengths(), need)
    }
}

// The winners by which the leader's side takes so many tricks, where all hands have these lengths.
#[inline(always)]
fn leaders_winners(relative: &RelativeStart, lengths: u64, need: u8) -> Option<Hand>
    ensures { IfSome result
        (λ cards. TakesBy (reach cards) (side_of relative.now.first) relative.now need) }
{
    let start = relative.as_trick_start();
    let view = QuickView::of_leader(relative, lengths);
    let cashed = view.cashed(need)?;
    if cashed.takes(need) {
        return for_leader_by(start, need, cashed.shares(need));
    }
    let (told, next) = view.crossed(cashed, need)?;
    for_leader_across(start, need, told, next)
}

/// What is answered where this card is led, by quick tricks of an opponent that has the highest card left of its suit. It leads
/// nowhere else.
#[inline(always)]
pub(crate) fn second_hands_ranks(
    trick: &PlacedTrick<'_>,
    turn: Turn,
    card: Place,
    need: u8,
    seconds: &mut SecondHands,
) -> Option<RankVerdict>
    requires legal { has_card (legal trick.now) card ≡ true }
    requires turn { length trick.now.trick ≡ cards_before turn }
    requires low { 1 ≤ need }
    requires high { need ≤ tricks_left trick.now }
    ensures found { IfSome result
        (λ found. IsAnswerAfter trick.now need card found.cards found.yes) }
{
    match turn {
        Turn::First => {
            if seconds.may_ask(card) {
                ranks_of_asked(trick, card, need, seconds)
            } else {
                None
            }
        }
        Turn::Second | Turn::Third | Turn::Fourth => None,
    }
}

// The same where no card is on the trick.
fn ranks_of_asked(
    trick: &PlacedTrick<'_>,
    card: Place,
    need: u8,
    seconds: &mut SecondHands,
) -> Option<RankVerdict>
    requires legal { has_card (legal trick.now) card ≡ true }
    requires start { length trick.now.trick ≡ 0 }
    requires low { 1 ≤ need }
    requires high { need ≤ tricks_left trick.now }
    ensures found { IfSome result
        (λ found. IsAnswerAfter trick.now need card found.cards found.yes) }
{
    let seat = seconds.to_ask(trick.at_lead().position(), card.card())?;
    ranks_of_second_hand(trick, seat, card, need, seconds)
}

// The same by the quick tricks of this opponent.
fn ranks_of_second_hand(
    trick: &PlacedTrick<'_>,
    seat: Seat,
    card: Place,
    need: u8,
    seconds: &mut SecondHands,
) -> Option<RankVerdict>
    requires legal { has_card (legal trick.now) card ≡ true }
    requires start { length trick.now.trick ≡ 0 }
    requires opposes { Opposes trick.now seat }
    requires low { 1 ≤ need }
    requires high { need ≤ tricks_left trick.now }
    ensures found { IfSome result
        (λ found. IsAnswerAfter trick.now need card found.cards found.yes) }
{
    let position = trick.at_lead().position();
    let suit = card.suit();
    let leads = position.first().is_north_south();
    let left = position.tricks_left();
    let others = if leads { left + 1 - need } else { need };
    let Some(cards) = second_hands_winners(trick, seat, suit, others) else {
        seconds.was_in_vain(position, seat, suit);
        return None;
    };
    Some(RankVerdict::new(!leads, &WinningRanks::reaching(cards)))
}

// The winners by which this opponent's side takes so many tricks after each lead of the suit.
#[inline(always)]
fn second_hands_winners(trick: &PlacedTrick<'_>, seat: Seat, suit: Suit, need: u8) -> Option<Hand>
    requires start { length trick.now.trick ≡ 0 }
    requires opposes { Opposes trick.now seat }
    ensures { IfSome result (λ cards. (card : PlayingCard) → has_card (legal trick.now) card ≡ true
        → card.suit ≡ suit → TakesBy (reach cards) (other_side (side_of trick.now.first))
        (after trick.now card) need) }
{
    let position = trick.at_lead().position();
    let known = trick.start();
    let relative = known.start();
    let view = QuickView::of_opponent(relative, known.strings().shape().lengths(), seat);
    if relative.strain() == Strain::Trump(suit) {
        return if view.may_draw(suit, need) {
            for_second_hand(position, seat, suit, need)
        } else {
            None
        };
    }
    let cashed = view.cashed(need)?;
    if !cashed.has(suit) {
        return None;
    }
    if cashed.takes(need) {
        let told = cashed.shares_from(suit, need);
        return for_second_hand_by(position, seat, suit, need, told);
    }
    let (told, next) = view.crossed(cashed, need)?;
    for_second_hand_across(position, seat, suit, need, told, next)
}

/// Hands over what an answer proves of the value.
pub(crate) fn note_ranks<B: Bounds>(
    coming: &ComingStart,
    strings: &OwnerStrings,
    need: u8,
    answer: &RankVerdict,
    table: &mut B,
)
    requires strings { strings.now ≡ strings_of coming.now }
    requires low { 1 ≤ need }
    requires high { need ≤ tricks_left coming.now }
    requires answer { IsAnswerBy coming.now need answer.now.cards answer.now.yes }
{
    let relative = coming.start();
    let start = relative.as_trick_start();
    let interval = if answer.is_yes() {
        Interval {
            lo: need,
            hi: relative.tricks_left(),
        }
    } else {
        Interval {
            lo: 0,
            hi: need - 1,
        }
    };
    let depths = answer.ranks().depths(relative);
    table.note_by(start, strings, depths, interval);
}
