//! The question of the search: do North and South take at least so many of the tricks that are left?
ghost use Rattle.std.specs.Prelude.{IfSome, [], ◌∷◌, ◌≡◌, ◌+◌, ◌≤◌, ◌<◌, true, IfOk, OnOk, MatchOption, length};
ghost use Rattle.dd_equal.specs.EqualCards.{tops};
ghost use Rattle.dd_cards.specs.Cards.{has_card};
ghost use Rattle.dd_play.specs.Board.{tricks_left};
ghost use Rattle.dd_play.specs.Play.{legal, after};
ghost use Rattle.dd_play.specs.Value.{north_souths_trick};
ghost use Rattle.dd_play.specs.Won.{trick_for};
ghost use Rattle.dd_rank.specs.Strings.{strings_of};
ghost use Rattle.dd_bounds.specs.Budgets.{EndsAs};
ghost use Rattle.dd_search.specs.ClaimsBy.{IsAnswer, IsAnswerBy, IsAnswerAfter};
ghost use Rattle.dd_order.specs.Turns.{cards_before};
ghost use Rattle.dd_order.specs.declared.turn.Turn.{Turn};

use crate::cutoffs::{note_answer, quick_answer, second_hands_answer, told_answer};
use crate::halt_word::{HaltWord, answer_or_halt, tick};
use crate::relative_root::by_relative_ranks;
use crate::second_hands::SecondHands;
use crate::ticking::go_on;
use crate::verdict::Verdict;
use crate::winning_ranks::{contested, settled_by, still_untried};
use dd_bounds::{Bounds, Halt, LeadHistory, Meter};
use dd_cards::{Card, Hand, Seat};
use dd_equal::{tops_at, whole_at};
use dd_order::{Leading, MovePicker, Order, Turn, weigh_next};
use dd_play::{Position, TrickStart};
use dd_rank::{OwnerStrings, Shape};

// With no more tricks left than this a search takes less time as it stands than to make it one by relative ranks.
const FEW: u8 = 3;

/// Do North and South take at least `need` of the tricks left? It ticks first; at a start of a trick a look or the quick
/// bounds may settle it, and a lead second hand's winners; else play does, and what that taught at a start is noted.
pub(crate) fn zero_window<B: Bounds, M: Meter>(
    position: &Position,
    need: u8,
    table: &mut B,
    meter: &mut M,
) -> Result<Verdict, Halt>
    requires low { 1 ≤ need }
    requires high { need ≤ tricks_left position.now }
    ensures answer { IfOk result (λ answer. IsAnswer position.now need answer.yes) }
    ensures winning_ranks { IfOk result (λ answer. IsAnswerBy position.now need answer.cards answer.yes) }
    ensures ticked { OnOk result (M.ticked meter.old meter.new) }
    ensures ends { EndsAs (M.says meter.new) result }
    ensures limit { M.limit meter.new ≡ M.limit meter.old }
{
    answer_or_halt(zero_window_by_turn(position, need, table, meter))
}

// Each hand of a trick has a question of its own: where whose turn it is is a constant, the code looks at it nowhere.
fn zero_window_by_turn<B: Bounds, M: Meter>(
    position: &Position,
    need: u8,
    table: &mut B,
    meter: &mut M,
) -> Result<Verdict, HaltWord>
    requires low { 1 ≤ need }
    requires high { need ≤ tricks_left position.now }
    ensures answer { IfOk result (λ answer. IsAnswer position.now need answer.yes) }
    ensures winning_ranks { IfOk result (λ answer. IsAnswerBy position.now need answer.cards answer.yes) }
    ensures ticked { OnOk result (M.ticked meter.old meter.new) }
    ensures ends { EndsAs (M.says meter.new) result }
    ensures limit { M.limit meter.new ≡ M.limit meter.old }
{
    match Turn::of(position) {
        Turn::First => zero_window_at_first_hand(position, need, table, meter),
        Turn::Second => zero_window_at_second_hand(position, need, table, meter),
        Turn::Third => zero_window_at_third_hand(position, need, table, meter),
        Turn::Fourth => zero_window_at_fourth_hand(position, need, table, meter),
    }
}

// The question where the first hand is to lead.
// The start is made where the caller has written the position, so that it is written once.
#[cycle(zero_window)]
#[inline(always)]
fn zero_window_at_first_hand<B: Bounds, M: Meter>(
    position: &Position,
    need: u8,
    table: &mut B,
    meter: &mut M,
) -> Result<Verdict, HaltWord>
    requires turn { length position.now.trick ≡ cards_before Turn.First }
    requires low { 1 ≤ need }
    requires high { need ≤ tricks_left position.now }
    ensures answer { IfOk result (λ answer. IsAnswer position.now need answer.yes) }
    ensures winning_ranks { IfOk result (λ answer. IsAnswerBy position.now need answer.cards answer.yes) }
    ensures ticked { OnOk result (M.ticked meter.old meter.new) }
    ensures ends { EndsAs (M.says meter.new) result }
    ensures limit { M.limit meter.new ≡ M.limit meter.old }
{
    let Some(start) = TrickStart::of(position) else {
        unreachable!()
    };
    zero_window_at_start(&start, need, table, meter)
}

// The same at a start of a trick.
#[cycle(zero_window)]
fn zero_window_at_start<B: Bounds, M: Meter>(
    start: &TrickStart,
    need: u8,
    table: &mut B,
    meter: &mut M,
) -> Result<Verdict, HaltWord>
    requires low { 1 ≤ need }
    requires high { need ≤ tricks_left start.now }
    ensures answer { IfOk result (λ answer. IsAnswer start.now need answer.yes) }
    ensures winning_ranks { IfOk result (λ answer. IsAnswerBy start.now need answer.cards answer.yes) }
    ensures ticked { OnOk result (M.ticked meter.old meter.new) }
    ensures ends { EndsAs (M.says meter.new) result }
    ensures limit { M.limit meter.new ≡ M.limit meter.old }
{
    tick(meter)?;
    answer_at_start(start, need, table, meter)
}

// The question where the second hand is to play.
#[cycle(zero_window)]
fn zero_window_at_second_hand<B: Bounds, M: Meter>(
    position: &Position,
    need: u8,
    table: &mut B,
    meter: &mut M,
) -> Result<Verdict, HaltWord>
    requires turn { length position.now.trick ≡ cards_before Turn.Second }
    requires low { 1 ≤ need }
    requires high { need ≤ tricks_left position.now }
    ensures answer { IfOk result (λ answer. IsAnswer position.now need answer.yes) }
    ensures winning_ranks { IfOk result (λ answer. IsAnswerBy position.now need answer.cards answer.yes) }
    ensures ticked { OnOk result (M.ticked meter.old meter.new) }
    ensures ends { EndsAs (M.says meter.new) result }
    ensures limit { M.limit meter.new ≡ M.limit meter.old }
{
    tick(meter)?;
    answer_by_play(position, Turn::Second, None, need, table, meter)
}

// The question where the third hand is to play.
#[cycle(zero_window)]
fn zero_window_at_third_hand<B: Bounds, M: Meter>(
    position: &Position,
    need: u8,
    table: &mut B,
    meter: &mut M,
) -> Result<Verdict, HaltWord>
    requires turn { length position.now.trick ≡ cards_before Turn.Third }
    requires low { 1 ≤ need }
    requires high { need ≤ tricks_left position.now }
    ensures answer { IfOk result (λ answer. IsAnswer position.now need answer.yes) }
    ensures winning_ranks { IfOk result (λ answer. IsAnswerBy position.now need answer.cards answer.yes) }
    ensures ticked { OnOk result (M.ticked meter.old meter.new) }
    ensures ends { EndsAs (M.says meter.new) result }
    ensures limit { M.limit meter.new ≡ M.limit meter.old }
{
    tick(meter)?;
    answer_by_play(position, Turn::Third, None, need, table, meter)
}

// The question where the fourth hand is to play.
#[cycle(zero_window)]
fn zero_window_at_fourth_hand<B: Bounds, M: Meter>(
    position: &Position,
    need: u8,
    table: &mut B,
    meter: &mut M,
) -> Result<Verdict, HaltWord>
    requires turn { length position.now.trick ≡ cards_before Turn.Fourth }
    requires low { 1 ≤ need }
    requires high { need ≤ tricks_left position.now }
    ensures answer { IfOk result (λ answer. IsAnswer position.now need answer.yes) }
    ensures winning_ranks { IfOk result (λ answer. IsAnswerBy position.now need answer.cards answer.yes) }
    ensures ticked { OnOk result (M.ticked meter.old meter.new) }
    ensures ends { EndsAs (M.says meter.new) result }
    ensures limit { M.limit meter.new ≡ M.limit meter.old }
{
    tick(meter)?;
    answer_by_play(position, Turn::Fourth, None, need, table, meter)
}

// The answer at a start of a trick, which is noted where play gave it. A look settles most, and where it doesn't the quick
// tricks do a tenth.
#[cycle(zero_window)]
fn answer_at_start<B: Bounds, M: Meter>(
    start: &TrickStart,
    need: u8,
    table: &mut B,
    meter: &mut M,
) -> Result<Verdict, HaltWord>
    requires low { 1 ≤ need }
    requires high { need ≤ tricks_left start.now }
    ensures answer { IfOk result (λ answer. IsAnswer start.now need answer.yes) }
    ensures winning_ranks { IfOk result (λ answer. IsAnswerBy start.now need answer.cards answer.yes) }
    // What had ticked before has ticked still.
    ensures ticked { (m : M) → M.ticked m meter.old → OnOk result (M.ticked m meter.new) }
    ensures ends { EndsAs (M.says meter.new) result }
    ensures limit { M.limit meter.new ≡ M.limit meter.old }
{
    // The table reads while the strings are found.
    let shape = Shape::of(start);
    let hint = table.probe_ahead(shape);
    let strings = OwnerStrings::with_shape(start, shape);
    if let Some(answer) = told_answer(start, &strings, hint, need, table) {
        return Ok(answer);
    }
    if let Some(answer) = quick_answer(start, &strings, need) {
        return Ok(answer);
    }
    let answer = answer_by_leads(start, &strings, need, table, meter)?;
    note_answer(start, &strings, need, &answer, table);
    Ok(answer)
}

// The answer by the leads of a start with these strings. They are tried by relative ranks where more than a few tricks are left and the
// table takes such starts.
#[cycle(zero_window)]
#[inline(always)]
fn answer_by_leads<B: Bounds, M: Meter>(
    start: &TrickStart,
    strings: &OwnerStrings,
    need: u8,
    table: &mut B,
    meter: &mut M,
) -> Result<Verdict, HaltWord>
    requires strings { strings.now ≡ strings_of start.now }
    requires low { 1 ≤ need }
    requires high { need ≤ tricks_left start.now }
    ensures answer { IfOk result (λ answer. IsAnswer start.now need answer.yes) }
    ensures winning_ranks { IfOk result (λ answer. IsAnswerBy start.now need answer.cards answer.yes) }
    ensures ticked { (m : M) → M.ticked m meter.old → OnOk result (M.ticked m meter.new) }
    ensures ends { EndsAs (M.says meter.new) result }
    ensures limit { M.limit meter.new ≡ M.limit meter.old }
{
    let position = start.position();
    if position.tricks_left() > FEW && table.takes_relative_starts() {
        by_relative_ranks(start, strings, need, table, meter)
    } else {
        answer_by_play(position, Turn::First, Some(strings), need, table, meter)
    }
}

// The answer by the cards: one of each class is tried until one settles it, but for those that a failure tells of too. The
// strings of a start of a trick serve the order alone.
#[cycle(zero_window)]
#[inline(always)]
fn answer_by_play<B: Bounds, M: Meter>(
    position: &Position,
    turn: Turn,
    strings: Option<&OwnerStrings>,
    need: u8,
    table: &mut B,
    meter: &mut M,
) -> Result<Verdict, HaltWord>
    requires turn { length position.now.trick ≡ cards_before turn }
    requires low { 1 ≤ need }
    requires high { need ≤ tricks_left position.now }
    ensures answer { IfOk result (λ answer. IsAnswer position.now need answer.yes) }
    ensures winning_ranks { IfOk result (λ answer. IsAnswerBy position.now need answer.cards answer.yes) }
    ensures ticked { (m : M) → M.ticked m meter.old → OnOk result (M.ticked m meter.new) }
    ensures ends { EndsAs (M.says meter.new) result }
    ensures limit { M.limit meter.new ≡ M.limit meter.old }
{
    let choices = tops_at(position, turn.cards_before());
    let mut others = choices;
    match others.pop_first() {
        Some(card) if others.is_empty() => answer_by_only_choice(
            position, turn, strings, card, need, table, meter,
        ),
        _ => answer_by_choices(
            position,
            turn,
            strings,
            Order::Best,
            choices,
            need,
            table,
            meter,
        ),
    }
}

// The answer where all cards that may be played are equal: half of the positions after the lead are of this kind.
#[cycle(zero_window)]
#[inline(always)]
fn answer_by_only_choice<B: Bounds, M: Meter>(
    position: &Position,
    turn: Turn,
    strings: Option<&OwnerStrings>,
    card: Card,
    need: u8,
    table: &mut B,
    meter: &mut M,
) -> Result<Verdict, HaltWord>
    requires only { tops position.now ≡ card ∷ [] }
    requires turn { length position.now.trick ≡ cards_before turn }
    requires low { 1 ≤ need }
    requires high { need ≤ tricks_left position.now }
    ensures answer { IfOk result (λ answer. IsAnswer position.now need answer.yes) }
    ensures winning_ranks { IfOk result (λ answer. IsAnswerBy position.now need answer.cards answer.yes) }
    ensures ticked { (m : M) → M.ticked m meter.old → OnOk result (M.ticked m meter.new) }
    ensures ends { EndsAs (M.says meter.new) result }
    ensures limit { M.limit meter.new ≡ M.limit meter.old }
{
    let north_south = position.mover_at(turn.cards_before()).is_north_south();
    let none = Hand::new();
    let mut seconds = SecondHands::of(strings, none.with(card));
    let found = answer_after(position, turn, card, need, &mut seconds, table, meter)?;
    if found.is_yes() == north_south {
        return Ok(found);
    }
    Ok(Verdict::new(
        !north_south,
        whole_at(position, turn.cards_before(), found.cards()),
    ))
}

// The answer by these choices, the highest card of each class.
// One copy in each of its two callers: a call of its own costs 2 % instructions.
#[cycle(zero_window)]
#[inline(always)]
fn answer_by_choices<B: Bounds, M: Meter>(
    position: &Position,
    turn: Turn,
    strings: Option<&OwnerStrings>,
    order: Order,
    choices: Hand,
    need: u8,
    table: &mut B,
    meter: &mut M,
) -> Result<Verdict, HaltWord>
    requires choices { choices ≡ tops position.now }
    requires turn { length position.now.trick ≡ cards_before turn }
    requires low { 1 ≤ need }
    requires high { need ≤ tricks_left position.now }
    ensures answer { IfOk result (λ answer. IsAnswer position.now need answer.yes) }
    ensures winning_ranks { IfOk result (λ answer. IsAnswerBy position.now need answer.cards answer.yes) }
    ensures ticked { (m : M) → M.ticked m meter.old → OnOk result (M.ticked m meter.new) }
    ensures ends { EndsAs (M.says meter.new) result }
    ensures limit { M.limit meter.new ≡ M.limit meter.old }
{
    let north_south = position.mover_at(turn.cards_before()).is_north_south();
    let settling = lead_history(position, strings, table);
    let mut leading = Leading::new();
    let picker = match order {
        Order::Best => MovePicker::of(position, turn, strings, settling, choices, &mut leading),
        Order::Listed => MovePicker::listed(),
    };
    let mut seconds = SecondHands::of(strings, choices);
    let mut untried = choices;
    let mut cards = Hand::new();
    'tries: while let Some(card) = picker.best(position, turn, choices, untried, &leading) {
        let found = answer_after(position, turn, card, need, &mut seconds, table, meter)?;
        if found.is_yes() == north_south {
            note_lead(position, strings, card, table);
            return Ok(found);
        }
        let winning_ranks = found.cards();
        cards = cards.union(winning_ranks);
        untried = still_untried(untried, card, winning_ranks);
        weigh_next(&mut leading, position, strings, card.suit, untried);
    }
    Ok(Verdict::new(!north_south, whole_at(position, turn.cards_before(), cards)))
}

/// The same as `zero_window`, where the cards of this position are tried in this order. Tried as they are listed, the first card that
/// settles it is found by the way, and neither a look nor the quick bounds do.
pub(crate) fn zero_window_in_order<B: Bounds, M: Meter>(
    position: &Position,
    order: Order,
    need: u8,
    table: &mut B,
    meter: &mut M,
) -> Result<Verdict, Halt>
    requires low { 1 ≤ need }
    requires high { need ≤ tricks_left position.now }
    ensures winning_ranks { IfOk result (λ answer. IsAnswerBy position.now need answer.cards answer.yes) }
    ensures ticked { OnOk result (M.ticked meter.old meter.new) }
    ensures ends { EndsAs (M.says meter.new) result }
    ensures limit { M.limit meter.new ≡ M.limit meter.old }
{
    match order {
        Order::Best => zero_window(position, need, table, meter),
        Order::Listed => {
            go_on(meter)?;
            let turn = Turn::of(position);
            let choices = tops_at(position, turn.cards_before());
            let found = answer_by_choices(position, turn, None, order, choices, need, table, meter);
            answer_or_halt(found)
        }
    }
}

// The suits of leads that settled starts of a trick like this one; of another position none are known.
#[inline]
fn lead_history<B: Bounds>(
    position: &Position,
    strings: Option<&OwnerStrings>,
    table: &B,
) -> LeadHistory {
    match strings {
        Some(strings) => table.lead_history(position, strings),
        None => LeadHistory::default(),
    }
}

// Hands over the card that settled a start of a trick.
#[inline]
fn note_lead<B: Bounds>(
    position: &Position,
    strings: Option<&OwnerStrings>,
    card: Card,
    table: &mut B,
) {
    if let Some(strings) = strings {
        table.note_lead(position, strings, card.suit);
    }
}

// What is answered when this card is played, and the cards on which that rests here, before it is. Of a lead second hand's
// winners may tell it.
#[cycle(zero_window)]
#[inline(always)]
fn answer_after<B: Bounds, M: Meter>(
    position: &Position,
    turn: Turn,
    card: Card,
    need: u8,
    seconds: &mut SecondHands,
    table: &mut B,
    meter: &mut M,
) -> Result<Verdict, HaltWord>
    requires legal { has_card (legal position.now) card ≡ true }
    requires turn { length position.now.trick ≡ cards_before turn }
    requires low { 1 ≤ need }
    requires high { need ≤ tricks_left position.now }
    ensures found { IfOk result
        (λ found. IsAnswerAfter position.now need card found.cards found.yes) }
    ensures ticked { (m : M) → M.ticked m meter.old → OnOk result (M.ticked m meter.new) }
    ensures ends { EndsAs (M.says meter.new) result }
    ensures limit { M.limit meter.new ≡ M.limit meter.old }
{
    if let Some(found) = second_hands_answer(position, turn, card, need, seconds) {
        return Ok(found);
    }
    // The position stays where `play` put it: a copy of it would wait for its bytes to be written.
    let played = position.play_at(turn.cards_before(), card);
    let rest = rest_after(need, played.1);
    // Before the question: the trick's cards are at hand here.
    let contested = contested(position, card, played.1);
    let later = match turn {
        Turn::First => zero_window_at_second_hand(&played.0, rest, table, meter)?,
        Turn::Second => zero_window_at_third_hand(&played.0, rest, table, meter)?,
        Turn::Third => zero_window_at_fourth_hand(&played.0, rest, table, meter)?,
        Turn::Fourth => answer_after_trick(&played.0, rest, table, meter)?,
    };
    Ok(Verdict::new(
        later.is_yes(),
        settled_by(position, card, contested, later.cards()),
    ))
}

// The answer when a trick is complete: by counting, or by the question of the next trick.
#[cycle(zero_window)]
#[inline(always)]
fn answer_after_trick<B: Bounds, M: Meter>(
    position: &Position,
    need: u8,
    table: &mut B,
    meter: &mut M,
) -> Result<Verdict, HaltWord>
    requires turn { length position.now.trick ≡ cards_before Turn.First }
    ensures winning_ranks { IfOk result (λ answer. IsAnswerBy position.now need answer.cards answer.yes) }
    ensures ticked { (m : M) → M.ticked m meter.old → OnOk result (M.ticked m meter.new) }
    ensures ends { EndsAs (M.says meter.new) result }
    ensures limit { M.limit meter.new ≡ M.limit meter.old }
{
    match answer_by_counting(position, need) {
        Some(yes) => Ok(Verdict::new(yes, Hand::new())),
        None => zero_window_at_first_hand(position, need, table, meter),
    }
}

/// How many tricks North and South still need when this seat has won one.
#[inline]
pub(crate) fn rest_after(need: u8, winner: Option<Seat>) -> u8
    requires { 1 ≤ need }
    ensures { result + north_souths_trick winner ≡ need }
{
    need - trick_of(winner)
}

/// The answer where counting settles it: none needed, or more than are left.
#[inline]
pub(crate) fn answer_by_counting(position: &Position, need: u8) -> Option<bool>
    ensures answer { MatchOption result ((1 ≤ need) × (need ≤ tricks_left position.now))
        (λ yes. IsAnswer position.now need yes) }
    ensures winning_ranks { IfSome result (λ yes. IsAnswerBy position.now need [] yes) }
{
    if need == 0 {
        Some(true)
    } else if need > position.tricks_left() {
        Some(false)
    } else {
        None
    }
}

/// A trick for North and South.
#[inline]
pub(crate) fn trick_of(winner: Option<Seat>) -> u8
    ensures value { result ≡ north_souths_trick winner }
    ensures bound { result ≤ 1 }
{
    match winner {
        Some(seat) if seat.is_north_south() => 1,
        _ => 0,
    }
}
