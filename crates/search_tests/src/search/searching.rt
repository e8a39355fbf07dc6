//! What a search asks of its table and its meter, in which order, and what it notes.
//!
//! The deal is `TENACE` at notrump, North on lead: spades A Q, 6 5, 3 2, K 4. In each position the search ticks once, then
//! asks the quick tricks and looks if a trick starts there, then plays. Quick tricks settle that North and South take one
//! trick, by the ace, and no more: West's king is guarded, but before a hand that has the ace and another card. In the second
//! trick they settle that the king takes it.
ghost use Rattle.std.specs.Prelude.{◌≤◌, IfSome};
ghost use Rattle.dd_cards.specs.declared.suit.Suit.{Suit as SuitOf};
ghost use Rattle.dd_play.specs.Board.{Board, IsBoard};
ghost use Rattle.dd_play.specs.Covers.{count_of};
ghost use Rattle.dd_play.specs.Value.{leaders_tricks};
ghost use Rattle.dd_play.specs.Intervals.{Holds};
ghost use Rattle.dd_rank.specs.Depths.{all_cards, depth_in, Covers};

use super::{Holdings, TENACE, TENACE_AN_ACE, card_of, position_of, start_of};
use crate::rows::{is_line_feed, number, word};
use arrayvec::ArrayVec;
use dd_bounds::{Bounds, Budget, Endless, Halt, Meter, NoTable};
use dd_cards::Seat;
use dd_play::{Interval, Position, TrickStart};
use dd_rank::Depths;
use dd_search::{reaches, start_value, value, value_at_least};
use std::process::Abort;

// Writes down what it is asked and told: a look as `L` and the tricks left, a note as `N`, the tricks left and the bounds. It
// knows the value of each start of a trick with so many tricks left, by a search of its own, and nothing of others.
#[derive(Drop)]
struct Log {
    events: ArrayVec<u8, 64>,
    knows: u8,
    // how many searches began
    begun: u8,
}

// A log of a table that knows nothing.
const NONE: u8 = 14;

impl Log {
    fn knowing(left: u8) -> Log {
        Log {
            events: ArrayVec::new(),
            knows: left,
            begun: 0,
        }
    }

    fn write(&mut self, bytes: &[u8]) {
        for byte in bytes {
            let _fits = self.events.try_push(*byte);
        }
    }
}

fn digit(number: u8) -> u8 {
    number.wrapping_add(b'0')
}

// The value as bounds that hold at its depths.
fn exact_bounds(start: &TrickStart) -> Option<(Interval, Depths)>
    ensures holds { IfSome result (λ told. (q : Board) → IsBoard q
        → Covers start.now (depth_in told.1) q → Holds told.0 (leaders_tricks q)) }
    ensures within { IfSome result (λ told. (u : SuitOf)
        → depth_in told.1 u ≤ count_of u (all_cards start.now)) }
{
    match start_value(start, &mut NoTable, &mut Endless) {
        Ok(found) => Some((
            Interval {
                lo: found.0,
                hi: found.0,
            },
            found.1,
        )),
        Err(_) => None,
    }
}

impl Bounds for Log {
    ghost tells = { λ table p depths interval. (q : Board) → IsBoard q
        → Covers p (depth_in depths) q → Holds interval (leaders_tricks q) };

    ghost holds = { λ table p depths interval q told. told q };

    fn begin(&mut self, _position: &Position) {
        self.begun = self.begun.saturating_add(1);
    }

    fn look(&mut self, start: &TrickStart) -> Option<(Interval, Depths)> {
        let left = start.position().tricks_left();
        self.write(&[b'L', digit(left)]);
        if left != self.knows {
            return None;
        }
        exact_bounds(start)
    }

    fn note(&mut self, start: &TrickStart, _depths: Depths, interval: Interval) {
        let left = start.position().tricks_left();
        self.write(&[b'N', digit(left), digit(interval.lo), digit(interval.hi)]);
    }
}

// The last card of a trick of clubs, to which ace, king and queen were played, the ace by the leader of the deal.
const JACK: u8 = 11;

// The deal before that card, which the hand before the leader's has.
fn before_the_jack(hands: &[Holdings; 4], first: Seat) -> Option<Position> {
    let mut hands = *hands;
    let last = (first.code() as usize + 3) % 4;
    hands[last][3] = &[JACK];
    position_of(
        &hands,
        first,
        &[card_of(3, 14)?, card_of(3, 13)?, card_of(3, 12)?],
    )
}

// Do North and South take so many of the tricks after that one? Whether the jack reaches the tricks that this leaves its
// side, the trick of clubs included, is one question of the position after it.
fn asked<B: Bounds, M: Meter>(
    position: &Position,
    need: u8,
    table: &mut B,
    meter: &mut M,
) -> Option<Result<bool, Halt>> {
    let jack = card_of(3, JACK)?;
    if !position.is_legal(jack) {
        return None;
    }
    let ours = position.mover().is_north_south();
    let tricks = if ours {
        need
    } else {
        position.tricks_left().saturating_sub(need)
    };
    match reaches(position, jack, tricks, table, meter) {
        Ok(yes) => Some(Ok(yes == ours)),
        Err(halt) => Some(Err(halt)),
    }
}

// The deal a seat on: East leads.
fn turned() -> Option<Position> {
    let [north, east, south, west] = TENACE;
    before_the_jack(&[west, north, east, south], Seat::East)
}

// The deal of this name.
fn named(name: &[u8]) -> Option<Position> {
    if name == b"tenace".as_slice() {
        before_the_jack(&TENACE, Seat::North)
    } else if name == b"turned".as_slice() {
        turned()
    } else if name == b"ace".as_slice() {
        before_the_jack(&TENACE_AN_ACE, Seat::North)
    } else {
        None
    }
}

fn spelled(answer: Result<bool, Halt>) -> &'static [u8] {
    match answer {
        Ok(true) => b"yes",
        Ok(false) => b"no",
        Err(Halt::Spent) => b"spent",
        Err(Halt::Stopped) => b"stopped",
    }
}

// A row is a deal before its jack, the tricks of which it is asked whether North and South take so many, the tricks left at
// which the table knows the value (none: 14) and the budget; then the answer, the ticks (`any`: not looked at) and what the
// table was asked and told.
fn is_searched(row: &[u8]) -> Option<bool> {
    let position = named(word(row, 0))?;
    let mut log = Log::knowing(number(word(row, 2)));
    let mut budget = Budget::new(number(word(row, 3)) as u64);
    let answer = asked(&position, number(word(row, 1)), &mut log, &mut budget)?;
    let ticks = word(row, 5);
    Some(
        spelled(answer) == word(row, 4)
            && (ticks == b"any".as_slice() || budget.ticks() == number(ticks) as u64)
            && log.events.as_slice() == word(row, 6),
    )
}

// Looks at each row.
fn search_each(rt: &impl Abort, rows: &[u8]) {
    for row in rows.split(is_line_feed) {
        assert!(rt; is_searched(row) == Some(true), "at {row:?}");
    }
}

// One trick is a quick trick: North has the ace. So the first position is the only one: what the look there doesn't
// settle the quick trick does, and nothing is noted.
#[test]
fn a_quick_trick_settles_what_a_look_does_not(rt: HostRuntime) {
    search_each(&rt, b"tenace 1 14 100 yes 1 L2");
}

// Two tricks are not had. East's 6 and South's 3 have equals below them, so there is one card to try in these hands. North
// tries the ace, the surest winner, and West plays its 4 to it, so that a position is visited before each of four cards. Then
// North has the queen to lead, the fifth position, where quick tricks settle that West's king takes it; so West's 4 was
// enough. North tries the queen in the first trick too, which the ace's failure, by the king, doesn't spare: three positions
// more, East's, South's and West's, where the king settles it by counting. That is eight. There is a look at each start of a
// trick. What is noted at that of the trick that was played is the answer there.
#[test]
fn each_position_is_one_tick_where_two_tricks_are_asked_for(rt: HostRuntime) {
    search_each(&rt, b"tenace 2 14 100 no 8 L2L1N201");
}

// East and West have the cards, and the leader's side is theirs: North and South take one trick, since these don't take two.
// What is noted of them is the same.
#[test]
fn each_position_is_one_tick_where_the_other_side_asks(rt: HostRuntime) {
    search_each(&rt, b"turned 1 14 100 yes 8 L2L1N201");
}

// Two tricks of the leader's side, and one of the other side.
#[test]
fn a_look_that_settles_it_is_the_end(rt: HostRuntime) {
    search_each(&rt, b"tenace 2 2 100 no 1 L2\nturned 1 2 100 yes 1 L2");
}

// With a heart more in each hand, North's the ace, three tricks are not had. North leads the ace, and at the second trick is
// where it was in `TENACE`: the look there settles that two tricks are not had. A spade first leads to another start of a trick,
// of which the look tells as much.
#[test]
fn a_look_at_the_second_trick_saves_its_positions(rt: HostRuntime) {
    search_each(&rt, b"ace 3 2 100 no any L3L2L2N302");
}

// The second start of a trick is the fifth position.
#[test]
fn a_search_ticks_before_it_looks(rt: HostRuntime) {
    let rows = b"ace 3 14 0 spent any\n\
        ace 3 14 4 spent any L3\n\
        ace 3 14 5 spent any L3L2";
    search_each(&rt, rows);
}

// The value of `TENACE` over a table that knows it, within this budget, with the ticks and what the table was asked and told.
fn known_value(most: u64) -> Option<(Option<u8>, u64, Log)> {
    let start = start_of(&TENACE, Seat::North)?;
    let mut log = Log::knowing(2);
    let mut budget = Budget::new(most);
    let value = match start_value(&start, &mut log, &mut budget) {
        Ok((tricks, _)) => Some(tricks),
        Err(_) => None,
    };
    Some((value, budget.ticks(), log))
}

// A value ticks and looks before its first question; where the look gives it, that is all.
#[test]
fn a_value_that_is_known_is_one_tick(rt: HostRuntime) {
    let (value, ticks, log) = known_value(1).expect(&rt, "two cards a hand");
    assert!(rt; value == Some(1) && ticks == 1 && log.events.as_slice() == b"L2".as_slice());
    let (value, _, log) = known_value(0).expect(&rt, "two cards a hand");
    assert!(rt; value.is_none() && log.events.is_empty());
}

// A table may forget what it learned of another deal then. The searches: the value, the value from some tricks up, what a card
// reaches.
#[test]
fn each_search_tells_its_table_that_it_begins(rt: HostRuntime) {
    let position = before_the_jack(&TENACE, Seat::North).expect(&rt, "two cards a hand");
    let mut log = Log::knowing(NONE);
    let mut begun = [0; 3];
    let has_value = value(&position, &mut log, &mut Endless).is_ok();
    begun[0] = log.begun;
    let is_told = value_at_least(&position, 0, &mut log, &mut Endless).is_ok();
    begun[1] = log.begun;
    let is_asked = asked(&position, 1, &mut log, &mut Endless).is_some();
    begun[2] = log.begun;
    assert!(rt; has_value && is_told && is_asked);
    assert!(rt; begun == [1, 2, 3]);
}
