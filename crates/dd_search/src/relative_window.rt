//! The question of the search over starts of a trick by relative ranks: does the leader's side take at least so many of the tricks that
//! are left?
// The leader is North, so the leader's side is North and South, from one start to the next.
ghost use Rattle.std.specs.Prelude.{ℕ, ◌≡◌, ◌∷◌, ◌≤◌, ◌+◌, ◌-◌, [], true, IfOk, OnOk, length, if◌then◌else◌};
ghost use Rattle.dd_cards.specs.Cards.{has_card};
ghost use Rattle.dd_equal.specs.EqualCards.{tops};
ghost use Rattle.dd_cards.specs.Sides.{side_of, other_side};
ghost use Rattle.dd_play.specs.Board.{IsBoard, tricks_left};
ghost use Rattle.dd_play.specs.Play.{legal, after};
ghost use Rattle.dd_play.specs.Reach.{reach, TakesBy};
ghost use Rattle.dd_rank.specs.Alike.{AreAlike};
ghost use Rattle.dd_relative.specs.Relative.{IsRelative};
ghost use Rattle.dd_bounds.specs.Budgets.{EndsAs};
ghost use Rattle.dd_search.specs.ClaimsBy.{IsAnswerBy, IsAnswerAfter};
ghost use Rattle.dd_order.specs.Turns.{cards_before};
ghost use Rattle.dd_order.specs.declared.turn.Turn.{Turn};

use crate::halt_word::{HaltWord, tick};
use crate::placed_untried::still_untried;
use crate::rank_verdict::RankVerdict;
use crate::relative_cutoffs::{note_ranks, quick_ranks, second_hands_ranks, told_ranks};
use crate::second_hands::{SecondHands, seconds};
use crate::zero_window::rest_after;
use dd_bounds::{Bounds, Meter, ProbeHint};
use dd_cards::{Hand, Place, Seat, Suit};
use dd_order::{Leading, Phase, PlacedPicker, Turn, follows, go_on, lead_history, note_lead};
use dd_relative::{ComingStart, KnownStart, PlacedTrick, WinningRanks, claims_before};

// Does the leader's side take at least `need` of the tricks left? It ticks first; a look or the quick tricks may settle it, and a lead
// second hand's winners; else play does, and what that taught is noted. Who led in the deal before this start serves the order.
#[cycle(relative_window)]
fn relative_at_start<B: Bounds, M: Meter>(
    coming: &ComingStart,
    hint: ProbeHint,
    leader_before: Seat,
    need: u8,
    table: &mut B,
    meter: &mut M,
) -> Result<RankVerdict, HaltWord>
    requires low { 1 ≤ need }
    requires high { need ≤ tricks_left coming.now }
    ensures winning_ranks { IfOk result (λ answer. IsAnswerBy coming.now need answer.cards answer.yes) }
    ensures ticked { OnOk result (M.ticked meter.old meter.new) }
    ensures ends { EndsAs (M.says meter.new) result }
    ensures limit { M.limit meter.new ≡ M.limit meter.old }
{
    tick(meter)?;
    answer_at_relative_start(coming, hint, leader_before, need, table, meter)
}

// The answer at a start of a trick, which is noted where play gave it.
#[cycle(relative_window)]
#[inline(always)]
fn answer_at_relative_start<B: Bounds, M: Meter>(
    coming: &ComingStart,
    hint: ProbeHint,
    leader_before: Seat,
    need: u8,
    table: &mut B,
    meter: &mut M,
) -> Result<RankVerdict, HaltWord>
    requires low { 1 ≤ need }
    requires high { need ≤ tricks_left coming.now }
    ensures winning_ranks { IfOk result (λ answer. IsAnswerBy coming.now need answer.cards answer.yes) }
    // What had ticked before has ticked still.
    ensures ticked { (m : M) → M.ticked m meter.old → OnOk result (M.ticked m meter.new) }
    ensures ends { EndsAs (M.says meter.new) result }
    ensures limit { M.limit meter.new ≡ M.limit meter.old }
{
    let strings = coming.strings();
    if let Some(answer) = told_ranks(coming, &strings, hint, need, table) {
        return Ok(answer);
    }
    if let Some(answer) = quick_ranks(coming, &strings, need) {
        return Ok(answer);
    }
    let leader = coming.deal_leader(leader_before);
    let known = KnownStart::new(coming.start(), &strings, leader);
    let trick = PlacedTrick::led(&known);
    let answer = relative_by_lead(&trick, need, table, meter)?;
    note_ranks(coming, &strings, need, &answer, table);
    Ok(answer)
}

// The question where the second hand is to play.
#[cycle(relative_window)]
fn relative_at_second_hand<B: Bounds, M: Meter>(
    trick: &PlacedTrick<'_>,
    need: u8,
    table: &mut B,
    meter: &mut M,
) -> Result<RankVerdict, HaltWord>
    requires turn { length trick.now.trick ≡ cards_before Turn.Second }
    requires low { 1 ≤ need }
    requires high { need ≤ tricks_left trick.now }
    ensures winning_ranks { IfOk result (λ answer. IsAnswerBy trick.now need answer.cards answer.yes) }
    ensures ticked { OnOk result (M.ticked meter.old meter.new) }
    ensures ends { EndsAs (M.says meter.new) result }
    ensures limit { M.limit meter.new ≡ M.limit meter.old }
{
    tick(meter)?;
    relative_by_play(trick, Turn::Second, need, table, meter)
}

// The question where the third hand is to play.
#[cycle(relative_window)]
fn relative_at_third_hand<B: Bounds, M: Meter>(
    trick: &PlacedTrick<'_>,
    need: u8,
    table: &mut B,
    meter: &mut M,
) -> Result<RankVerdict, HaltWord>
    requires turn { length trick.now.trick ≡ cards_before Turn.Third }
    requires low { 1 ≤ need }
    requires high { need ≤ tricks_left trick.now }
    ensures winning_ranks { IfOk result (λ answer. IsAnswerBy trick.now need answer.cards answer.yes) }
    ensures ticked { OnOk result (M.ticked meter.old meter.new) }
    ensures ends { EndsAs (M.says meter.new) result }
    ensures limit { M.limit meter.new ≡ M.limit meter.old }
{
    tick(meter)?;
    relative_by_play(trick, Turn::Third, need, table, meter)
}

// The question where the fourth hand is to play.
#[cycle(relative_window)]
fn relative_at_fourth_hand<B: Bounds, M: Meter>(
    trick: &PlacedTrick<'_>,
    need: u8,
    table: &mut B,
    meter: &mut M,
) -> Result<RankVerdict, HaltWord>
    requires turn { length trick.now.trick ≡ cards_before Turn.Fourth }
    requires low { 1 ≤ need }
    requires high { need ≤ tricks_left trick.now }
    ensures winning_ranks { IfOk result (λ answer. IsAnswerBy trick.now need answer.cards answer.yes) }
    ensures ticked { OnOk result (M.ticked meter.old meter.new) }
    ensures ends { EndsAs (M.says meter.new) result }
    ensures limit { M.limit meter.new ≡ M.limit meter.old }
{
    tick(meter)?;
    relative_by_play(trick, Turn::Fourth, need, table, meter)
}

/// The answer by the leads: one of each class is tried until one settles it, but for those that a failure tells of too.
// Apart from the other hands' cards: a function with all of them in it would grow too large to be copied into its callers.
#[cycle(relative_window)]
#[inline(always)]
pub(crate) fn relative_by_lead<B: Bounds, M: Meter>(
    trick: &PlacedTrick<'_>,
    need: u8,
    table: &mut B,
    meter: &mut M,
) -> Result<RankVerdict, HaltWord>
    requires turn { length trick.now.trick ≡ cards_before Turn.First }
    requires low { 1 ≤ need }
    requires high { need ≤ tricks_left trick.now }
    ensures winning_ranks { IfOk result (λ answer. IsAnswerBy trick.now need answer.cards answer.yes) }
    ensures ticked { (m : M) → M.ticked m meter.old → OnOk result (M.ticked m meter.new) }
    ensures ends { EndsAs (M.says meter.new) result }
    ensures limit { M.limit meter.new ≡ M.limit meter.old }
{
    let turn = Turn::First;
    let choices = trick.choices_at(0);
    let highest = trick.tops_of(0, choices);
    let mut others = highest;
    match others.take_first() {
        Some(card) if others.is_empty() => {
            relative_by_only_choice(trick, turn, highest, card, need, table, meter)
        }
        _ => relative_by_choices(trick, turn, Phase::Lead, highest, need, table, meter),
    }
}

// The same by the cards of another hand.
#[cycle(relative_window)]
#[inline(always)]
fn relative_by_play<B: Bounds, M: Meter>(
    trick: &PlacedTrick<'_>,
    turn: Turn,
    need: u8,
    table: &mut B,
    meter: &mut M,
) -> Result<RankVerdict, HaltWord>
    requires turn { length trick.now.trick ≡ cards_before turn }
    requires low { 1 ≤ need }
    requires high { need ≤ tricks_left trick.now }
    ensures winning_ranks { IfOk result (λ answer. IsAnswerBy trick.now need answer.cards answer.yes) }
    ensures ticked { (m : M) → M.ticked m meter.old → OnOk result (M.ticked m meter.new) }
    ensures ends { EndsAs (M.says meter.new) result }
    ensures limit { M.limit meter.new ≡ M.limit meter.old }
{
    let choices = trick.choices_at(turn.cards_before());
    let highest = trick.tops_of(turn.cards_before(), choices);
    let mut others = highest;
    match others.take_first() {
        Some(card) if others.is_empty() => {
            relative_by_only_choice(trick, turn, highest, card, need, table, meter)
        }
        // Each phase has its own copy of the walk, where it is a constant.
        _ => {
            if follows(trick, choices) {
                relative_by_choices(trick, turn, Phase::Follow, highest, need, table, meter)
            } else {
                relative_by_choices(trick, turn, Phase::Discard, highest, need, table, meter)
            }
        }
    }
}

// The answer where all cards that may be played are equal.
#[cycle(relative_window)]
#[inline(always)]
fn relative_by_only_choice<B: Bounds, M: Meter>(
    trick: &PlacedTrick<'_>,
    turn: Turn,
    highest: Hand,
    card: Place,
    need: u8,
    table: &mut B,
    meter: &mut M,
) -> Result<RankVerdict, HaltWord>
    requires only { tops trick.now ≡ card ∷ [] }
    requires turn { length trick.now.trick ≡ cards_before turn }
    requires low { 1 ≤ need }
    requires high { need ≤ tricks_left trick.now }
    ensures winning_ranks { IfOk result (λ answer. IsAnswerBy trick.now need answer.cards answer.yes) }
    ensures ticked { (m : M) → M.ticked m meter.old → OnOk result (M.ticked m meter.new) }
    ensures ends { EndsAs (M.says meter.new) result }
    ensures limit { M.limit meter.new ≡ M.limit meter.old }
{
    let leaders = trick.mover_at(turn.cards_before()).is_north_south();
    let mut seconds = seconds(trick, turn, highest);
    let found = relative_after(trick, turn, card, need, &mut seconds, table, meter)?;
    if found.is_yes() == leaders {
        return Ok(found);
    }
    let ranks = trick.whole_at(turn.cards_before(), &found.ranks());
    Ok(RankVerdict::new(!leaders, &ranks))
}

// The answer by these choices, the highest card of each class.
#[cycle(relative_window)]
#[inline(always)]
fn relative_by_choices<B: Bounds, M: Meter>(
    trick: &PlacedTrick<'_>,
    turn: Turn,
    phase: Phase,
    highest: Hand,
    need: u8,
    table: &mut B,
    meter: &mut M,
) -> Result<RankVerdict, HaltWord>
    requires choices { highest ≡ tops trick.now }
    requires turn { length trick.now.trick ≡ cards_before turn }
    requires low { 1 ≤ need }
    requires high { need ≤ tricks_left trick.now }
    ensures winning_ranks { IfOk result (λ answer. IsAnswerBy trick.now need answer.cards answer.yes) }
    ensures ticked { (m : M) → M.ticked m meter.old → OnOk result (M.ticked m meter.new) }
    ensures ends { EndsAs (M.says meter.new) result }
    ensures limit { M.limit meter.new ≡ M.limit meter.old }
{
    let leaders = trick.mover_at(turn.cards_before()).is_north_south();
    let settling = lead_history(trick, turn, table);
    let mut leading = Leading::new();
    let picker = PlacedPicker::of(trick, turn, phase, settling, highest, &mut leading);
    let mut seconds = seconds(trick, turn, highest);
    let mut untried = highest;
    let mut ranks = WinningRanks::new();
    'tries: while let Some(card) = picker.best(trick, turn, phase, highest, untried, &leading) {
        let found = relative_after(trick, turn, card, need, &mut seconds, table, meter)?;
        if found.is_yes() == leaders {
            note_lead(trick, turn, card, table);
            return Ok(found);
        }
        let winning_ranks = found.ranks();
        ranks = ranks.with_all(&winning_ranks);
        untried = still_untried(untried, card, &winning_ranks);
        go_on(&mut leading, trick, phase, card.suit(), untried);
    }
    let whole = trick.whole_at(turn.cards_before(), &ranks);
    Ok(RankVerdict::new(!leaders, &whole))
}

// What is answered when this card is played, and the ranks on which that rests here, before it is. Of a lead second hand's winners may
// tell it.
#[cycle(relative_window)]
#[inline(always)]
fn relative_after<B: Bounds, M: Meter>(
    trick: &PlacedTrick<'_>,
    turn: Turn,
    card: Place,
    need: u8,
    seconds: &mut SecondHands,
    table: &mut B,
    meter: &mut M,
) -> Result<RankVerdict, HaltWord>
    requires legal { has_card (legal trick.now) card ≡ true }
    requires turn { length trick.now.trick ≡ cards_before turn }
    requires low { 1 ≤ need }
    requires high { need ≤ tricks_left trick.now }
    ensures found { IfOk result
        (λ found. IsAnswerAfter trick.now need card found.cards found.yes) }
    ensures ticked { (m : M) → M.ticked m meter.old → OnOk result (M.ticked m meter.new) }
    ensures ends { EndsAs (M.says meter.new) result }
    ensures limit { M.limit meter.new ≡ M.limit meter.old }
{
    if let Some(found) = second_hands_ranks(trick, turn, card, need, seconds) {
        return Ok(found);
    }
    match turn {
        Turn::First => relative_at_second_hand(&trick.play_at(0, card), need, table, meter),
        Turn::Second => relative_at_third_hand(&trick.play_at(1, card), need, table, meter),
        Turn::Third => relative_at_fourth_hand(&trick.play_at(2, card), need, table, meter),
        Turn::Fourth => relative_by_trick(trick, card, need, table, meter),
    }
}

// The same where the card completes the trick.
// A function of its own: with its code in each walk of the fourth hand these would grow too large to be copied.
#[cycle(relative_window)]
fn relative_by_trick<B: Bounds, M: Meter>(
    trick: &PlacedTrick<'_>,
    card: Place,
    need: u8,
    table: &mut B,
    meter: &mut M,
) -> Result<RankVerdict, HaltWord>
    requires legal { has_card (legal trick.now) card ≡ true }
    requires turn { length trick.now.trick ≡ cards_before Turn.Fourth }
    requires low { 1 ≤ need }
    requires high { need ≤ tricks_left trick.now }
    ensures found { IfOk result
        (λ found. IsAnswerAfter trick.now need card found.cards found.yes) }
    ensures ticked { (m : M) → M.ticked m meter.old → OnOk result (M.ticked m meter.new) }
    ensures ends { EndsAs (M.says meter.new) result }
    ensures limit { M.limit meter.new ≡ M.limit meter.old }
{
    // A copy stays in registers: so what is made of its cards before the question serves after it too.
    let own = trick.copy();
    let (winner, contested) = own.outcome(card);
    let rest = rest_after(need, Some(winner));
    let later = relative_after_trick(&own, card, winner, rest, table, meter)?;
    Ok(RankVerdict::new(later.is_yes(), &later.ranks().with_all(&contested)))
}

// The answer when the trick is complete: by counting, or by the question of the next trick, which its winner leads to.
#[cycle(relative_window)]
#[inline(always)]
fn relative_after_trick<B: Bounds, M: Meter>(
    trick: &PlacedTrick<'_>,
    card: Place,
    winner: Seat,
    need: u8,
    table: &mut B,
    meter: &mut M,
) -> Result<RankVerdict, HaltWord>
    requires legal { has_card (legal trick.now) card ≡ true }
    requires turn { length trick.now.trick ≡ cards_before Turn.Fourth }
    requires winner { winner ≡ (after trick.now card).first }
    requires board { IsBoard trick.now }
    ensures winning_ranks { IfOk result
        (λ answer. IsAnswerBy (after trick.now card) need answer.cards answer.yes) }
    ensures ticked { (m : M) → M.ticked m meter.old → OnOk result (M.ticked m meter.new) }
    ensures ends { EndsAs (M.says meter.new) result }
    ensures limit { M.limit meter.new ≡ M.limit meter.old }
{
    let left = trick.tricks_left_with(card);
    if need == 0 {
        return Ok(RankVerdict::new(true, &WinningRanks::new()));
    }
    if need > left {
        return Ok(RankVerdict::new(false, &WinningRanks::new()));
    }
    let leads = winner.is_north_south();
    let asked = asked_of(need, left, leads);
    let next = trick.next_start(card, winner);
    let hint = table.probe_ahead(next.shape());
    let leader_before = trick.start().deal_leader();
    let found = relative_at_start(&next, hint, leader_before, asked, table, meter)?;
    let ranks = ranks_here(trick, card, &next, &found.ranks());
    Ok(RankVerdict::new(found.is_yes() == leads, &ranks))
}

/// How many tricks the leader's side is asked for at a start with so many left, where the question is whether one side takes so many: of
/// the leader's, and else the others ask for the rest.
#[inline(always)]
pub(crate) fn asked_of(need: u8, left: u8, leads: bool) -> u8
    requires low { 1 ≤ need }
    requires high { need ≤ left }
    requires bound { left ≤ 13 }
    ensures value { result ≡ (if leads then need else left + 1 - need) }
    ensures low { 1 ≤ result }
    ensures high { result ≤ left }
{
    if leads { need } else { left + 1 - need }
}

// The winning ranks of the next start as they stand before the card that completes this trick is gone: what a side takes there by those it
// takes here by these.
#[inline(always)]
fn ranks_here(
    trick: &PlacedTrick<'_>,
    card: Place,
    next: &ComingStart,
    later: &WinningRanks,
) -> WinningRanks
    requires turn { length trick.now.trick ≡ cards_before Turn.Fourth }
    requires legal { has_card (legal trick.now) card ≡ true }
    requires board { IsBoard trick.now }
    requires alike { AreAlike (after trick.now card) next.now }
    requires relative { IsRelative next.now }
    ensures leaders { (n : ℕ) → TakesBy (reach later.now) (side_of next.now.first) next.now n
        → TakesBy (reach result) (side_of (after trick.now card).first) (after trick.now card) n }
    ensures others { (n : ℕ) → n ≤ tricks_left next.now
        → TakesBy (reach later.now) (other_side (side_of next.now.first)) next.now n
        → TakesBy (reach result) (other_side (side_of (after trick.now card).first))
        (after trick.now card) n }
{
    claims_before();
    let ranks = trick.ranks_before(card, later);
    // The proof reads here that all of them are cards of the pack.
    let before = ranks.cards();
    let after = later.cards();
    let _before = before.holding(Suit::Spades);
    let _after = after.holding(Suit::Spades);
    ranks
}
