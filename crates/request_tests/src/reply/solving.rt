ghost use Rattle.std.specs.Prelude.{◌≤◌};

use arrayvec::ArrayVec;
use dd_bounds::{Bounds, Budget, Endless, Halt, NoTable};
use dd_cards::{Card, Rank, Seat, Strain, Suit};
use dd_pbn::read_deal;
use dd_play::{Interval, Position, TrickStart};
use dd_rank::Depths;
use dd_request::{Answer, Request, TargetRequest};
use dd_solve::{solve, solve_target};

// Counts the looks and the notes, and keeps the last interval.
#[derive(Drop)]
struct CountedBounds {
    looks: u64,
    notes: u64,
    last: Option<Interval>,
}

impl Bounds for CountedBounds {
    ghost tells = { λ table p depths interval. ⊥ };

    ghost holds = { λ table p depths interval q told. absurd told };

    fn look(&mut self, _start: &TrickStart) -> Option<(Interval, Depths)> {
        self.looks = self.looks.saturating_add(1);
        None
    }

    fn note(&mut self, _start: &TrickStart, _depths: Depths, interval: Interval) {
        self.notes = self.notes.saturating_add(1);
        self.last = Some(interval);
    }
}

// A request at notrump, where the deal and the trick are a position.
fn request_of(deal: &str, first: Seat, trick: &[Card], solutions: u8) -> Option<Request> {
    let hands = read_deal(deal.as_bytes()).ok()?;
    let position = Position::new(hands, Strain::Notrump, first, trick).ok()?;
    Request::new(position, solutions)
}

// A class: the code of its highest card, 16 times the suit's code plus the rank, the mask of the others, the score.
type Row = (u8, u16, u8);

fn rows_of(answer: &Answer) -> ArrayVec<Row, 13> {
    let mut rows = ArrayVec::new();
    for scored in answer.as_slice() {
        let class = scored.class;
        let _fits = rows.try_push((class.top.code(), class.equals, scored.score));
    }
    rows
}

fn spade(rank: u8) -> Card
    requires { (2 ≤ rank) × (rank ≤ 14) }
{
    Card {
        suit: Suit::Spades,
        rank: Rank::of(rank),
    }
}

#[test]
fn a_search_looks_and_notes_the_value_last(rt: HostRuntime) {
    let request = request_of("N:32... 65... AQ... K4...", Seat::North, &[], 3);
    let request = request.expect(&rt, "a request");
    let mut bounds = CountedBounds {
        looks: 0,
        notes: 0,
        last: None,
    };
    let solved = solve(request, &mut bounds, &mut Endless).expect(&rt, "an answer");
    assert_eq!(rt; rows_of(solved.answer()).as_slice(), [(3, 4, 1)].as_slice());
    assert!(rt; bounds.looks >= 1);
    assert!(rt; bounds.notes >= 1);
    assert_eq!(rt; bounds.last, Interval::new(1, 1));
}

#[test]
fn the_last_card_is_one_tick(rt: HostRuntime) {
    let trick = [spade(13), spade(12), spade(11)];
    let request = request_of("N:A... ... ... ...", Seat::East, &trick, 3);
    let request = request.expect(&rt, "a request");
    let mut none = Budget::new(0);
    assert_eq!(rt;
        solve(request.copy(), &mut NoTable, &mut none).err(),
        Some(Halt::Spent)
    );
    let mut one = Budget::new(1);
    let solved = solve(request, &mut NoTable, &mut one).expect(&rt, "an answer");
    assert_eq!(rt;
        rows_of(solved.answer()).as_slice(),
        [(14, 0, 1)].as_slice()
    );
    assert_eq!(rt; one.ticks(), 1);
}

#[test]
fn a_copy_has_the_request_and_the_answer(rt: HostRuntime) {
    let request = request_of("N:A.2.. K.A.. Q.K.. J.Q..", Seat::North, &[], 1);
    let request = request.expect(&rt, "a request");
    let solved = solve(request, &mut NoTable, &mut Endless).expect(&rt, "an answer");
    let copy = solved.copy();
    assert_eq!(rt; copy.request().solutions(), 1);
    assert_eq!(rt; rows_of(copy.answer()).as_slice(), [(14, 0, 1)].as_slice());
}

// A request at notrump for the cards that win so many tricks.
fn target_of(deal: &str, first: Seat, target: u8, solutions: u8) -> Option<TargetRequest> {
    let hands = read_deal(deal.as_bytes()).ok()?;
    let position = Position::new(hands, Strain::Notrump, first, &[]).ok()?;
    TargetRequest::new(position, target, solutions)
}

#[test]
fn a_target_is_in_its_range_and_copied(rt: HostRuntime) {
    let deal = "N:A.2.. K.A.. Q.K.. J.Q..";
    assert!(rt; target_of(deal, Seat::North, 14, 1).is_none());
    assert!(rt; target_of(deal, Seat::North, 1, 0).is_none());
    assert!(rt; target_of(deal, Seat::North, 1, 3).is_none());
    assert!(rt; target_of("N:... ... ... ...", Seat::North, 1, 1).is_none());
    let request = target_of(deal, Seat::North, 1, 2).expect(&rt, "a request");
    let solved = solve_target(request, &mut NoTable, &mut Endless).expect(&rt, "an answer");
    let copy = solved.copy();
    let request = copy.request().copy();
    assert_eq!(rt; (request.target(), request.solutions()), (1, 2));
    assert_eq!(rt; request.position().tricks_left(), 2);
    assert_eq!(rt;
        rows_of(copy.answer()).as_slice(),
        [(14, 0, 1), (18, 0, 1)].as_slice()
    );
}

#[test]
fn one_card_that_reaches_the_target_is_enough(rt: HostRuntime) {
    let deal = "N:A.2.. K.A.. Q.K.. J.Q..";
    let one = target_of(deal, Seat::North, 1, 1).expect(&rt, "a request");
    let all = target_of(deal, Seat::North, 1, 2).expect(&rt, "a request");
    let mut few = Budget::new(1_000);
    let mut more = Budget::new(1_000);
    let first = solve_target(one, &mut NoTable, &mut few).expect(&rt, "an answer");
    solve_target(all, &mut NoTable, &mut more).expect(&rt, "an answer");
    assert_eq!(rt; rows_of(first.answer()).as_slice(), [(14, 0, 1)].as_slice());
    assert!(rt; few.ticks() < more.ticks());
}

#[test]
fn a_halt_is_told(rt: HostRuntime) {
    let request = target_of("N:2.A.. AK... Q.4.. J.5..", Seat::North, 1, 2);
    let request = request.expect(&rt, "a request");
    assert_eq!(rt;
        solve_target(request, &mut NoTable, &mut Budget::new(0)).err(),
        Some(Halt::Spent)
    );
}
