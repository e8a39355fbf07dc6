//! Positions worked by hand.
mod searching;

ghost use Rattle.std.specs.Prelude.{◌≡◌, ◌≤◌, true, IsOk, None};
ghost use Rattle.dd_cards.specs.Cards.{has_card};
ghost use Rattle.dd_play.specs.Play.{legal};

use crate::scores::scores_of;
use arrayvec::ArrayVec;
use dd_bounds::{Bounds, Budget, Endless, Halt, Meter, NoTable};
use dd_cards::{Card, Hands, Rank, Seat, Strain, Suit};
use dd_play::{Position, TrickStart};
use dd_rank::Depths;
use dd_search::{reaches, score, start_value, start_value_for_first, value};

// Where nothing bounds the search it has a score.
fn endless_score(position: &Position, card: Card) -> Result<u8, Halt>
    requires { has_card (legal position.now) card ≡ true }
    ensures { IsOk result }
{
    score(position, card, &mut NoTable, &mut Endless)
}

// The ranks of the suits of one hand, spades first.
type Holdings = [&'static [u8]; 4];

// The position of these hands, from North clockwise, at notrump.
fn position_of(hands: &[Holdings; 4], first: Seat, trick: &[Card]) -> Option<Position> {
    let mut held = Hands::new();
    for (seat, holdings) in hands.iter().enumerate() {
        let seat = Seat::from_code(seat as u8)?;
        for (suit, ranks) in holdings.iter().enumerate() {
            for rank in *ranks {
                held.insert(seat, card_of(suit as u8, *rank)?);
            }
        }
    }
    Position::new(held, Strain::Notrump, first, trick).ok()
}

fn card_of(suit: u8, rank: u8) -> Option<Card> {
    Some(Card {
        suit: Suit::from_code(suit)?,
        rank: Rank::from_code(rank)?,
    })
}

// The score of a card, where it is a legal one.
fn score_of<B: Bounds, M: Meter>(
    position: &Position,
    card: Card,
    table: &mut B,
    meter: &mut M,
) -> Option<Result<u8, Halt>> {
    if position.is_legal(card) {
        Some(score(position, card, table, meter))
    } else {
        None
    }
}

// The value, where the hands are a position.
fn value_of(hands: &[Holdings; 4], first: Seat) -> Option<Result<u8, Halt>> {
    let position = position_of(hands, first, &[])?;
    Some(value(&position, &mut NoTable, &mut Endless))
}

// Whether a card reaches so many tricks, where it is a legal one.
fn reaches_of<M: Meter>(
    position: &Position,
    card: Card,
    tricks: u8,
    meter: &mut M,
) -> Option<Result<bool, Halt>> {
    if position.is_legal(card) {
        Some(reaches(position, card, tricks, &mut NoTable, meter))
    } else {
        None
    }
}

fn spade(rank: u8) -> Card
    requires { (2 ≤ rank) × (rank ≤ 14) }
{
    Card {
        suit: Suit::Spades,
        rank: Rank::of(rank),
    }
}

const CAUGHT: [Holdings; 4] = [
    [&[3, 2], &[], &[], &[]],
    [&[13, 4], &[], &[], &[]],
    [&[14, 12], &[], &[], &[]],
    [&[6, 5], &[], &[], &[]],
];

const BEHIND: [Holdings; 4] = [
    [&[3, 2], &[], &[], &[]],
    [&[6, 5], &[], &[], &[]],
    [&[14, 12], &[], &[], &[]],
    [&[13, 4], &[], &[], &[]],
];

// The highest and the third card in one hand, the second before it in the order of play.
const TENACE: [Holdings; 4] = [
    [&[14, 12], &[], &[], &[]],
    [&[6, 5], &[], &[], &[]],
    [&[3, 2], &[], &[], &[]],
    [&[13, 4], &[], &[], &[]],
];

// The same with a heart more in each hand, the highest North's.
const TENACE_AN_ACE: [Holdings; 4] = [
    [&[14, 12], &[14], &[], &[]],
    [&[6, 5], &[4], &[], &[]],
    [&[3, 2], &[3], &[], &[]],
    [&[13, 4], &[2], &[], &[]],
];

const ONE_EACH: [Holdings; 4] = [
    [&[14], &[], &[], &[]],
    [&[13], &[], &[], &[]],
    [&[12], &[], &[], &[]],
    [&[11], &[], &[], &[]],
];

const LAST_CARD: [Holdings; 4] = [
    [&[14], &[], &[], &[]],
    [&[], &[], &[], &[]],
    [&[], &[], &[], &[]],
    [&[], &[], &[], &[]],
];

const ALL: &[u8] = &[14, 13, 12, 11, 10, 9, 8, 7, 6, 5, 4, 3, 2];

const A_SUIT_EACH: [Holdings; 4] = [
    [ALL, &[], &[], &[]],
    [&[], ALL, &[], &[]],
    [&[], &[], ALL, &[]],
    [&[], &[], &[], ALL],
];

const ALL_HONOURS: [Holdings; 4] = [
    [
        &[14, 13, 12],
        &[14, 13, 12],
        &[14, 13, 12],
        &[14, 13, 12, 11],
    ],
    [&[11, 8, 5, 2], &[11, 8, 5], &[11, 8, 5], &[10, 7, 4]],
    [&[10, 7, 4], &[10, 7, 4, 2], &[10, 7, 4], &[9, 6, 3]],
    [&[9, 6, 3], &[9, 6, 3], &[9, 6, 3, 2], &[8, 5, 2]],
];

#[test]
fn a_king_before_the_ace_and_queen_is_caught(rt: HostRuntime) {
    let position = position_of(&CAUGHT, Seat::North, &[]).expect(&rt, "a position");
    let three = spade(3);
    assert!(rt; position.is_legal(three));
    assert!(rt; endless_score(&position, three) == Ok(2));
}

#[test]
fn a_king_wins_nothing_before_the_ace(rt: HostRuntime) {
    let position = position_of(&ONE_EACH, Seat::East, &[]).expect(&rt, "a position");
    assert!(rt; score_of(&position, spade(13), &mut NoTable, &mut Endless) == Some(Ok(0)));
}

#[test]
fn a_suit_in_one_hand_takes_all_tricks(rt: HostRuntime) {
    let position = position_of(&A_SUIT_EACH, Seat::North, &[]).expect(&rt, "a position");
    let mut budget = Budget::new(1_000);
    assert!(rt; score_of(&position, spade(14), &mut NoTable, &mut budget) == Some(Ok(13)));
}

#[test]
fn the_last_card_is_one_position(rt: HostRuntime) {
    let trick = [spade(13), spade(12), spade(11)];
    let position = position_of(&LAST_CARD, Seat::East, &trick).expect(&rt, "a position");
    let mut one = Budget::new(1);
    let mut none = Budget::new(0);
    assert!(rt; score_of(&position, spade(14), &mut NoTable, &mut one) == Some(Ok(1)));
    assert!(rt; one.ticks() == 1);
    assert!(rt; score_of(&position, spade(14), &mut NoTable, &mut none) == Some(Err(Halt::Spent)));
    assert!(rt; none.ticks() == 0);
}

#[test]
fn a_value_is_that_of_the_side_to_play(rt: HostRuntime) {
    assert!(rt; value_of(&CAUGHT, Seat::North) == Some(Ok(2)));
    assert!(rt; value_of(&BEHIND, Seat::North) == Some(Ok(1)));
    assert!(rt; value_of(&ONE_EACH, Seat::North) == Some(Ok(1)));
    assert!(rt; value_of(&ONE_EACH, Seat::East) == Some(Ok(0)));
    assert!(rt; value_of(&A_SUIT_EACH, Seat::West) == Some(Ok(13)));
}

#[test]
fn a_card_reaches_its_score_and_no_more(rt: HostRuntime) {
    let caught = position_of(&CAUGHT, Seat::North, &[]).expect(&rt, "a position");
    let three = spade(3);
    assert!(rt; reaches_of(&caught, three, 2, &mut Endless) == Some(Ok(true)));
    assert!(rt; reaches_of(&caught, three, 3, &mut Endless) == Some(Ok(false)));
    let behind = position_of(&BEHIND, Seat::North, &[]).expect(&rt, "a position");
    assert!(rt; reaches_of(&behind, three, 1, &mut Endless) == Some(Ok(true)));
    assert!(rt; reaches_of(&behind, three, 2, &mut Endless) == Some(Ok(false)));
}

#[test]
fn a_card_of_east_or_west_reaches_the_tricks_of_its_side(rt: HostRuntime) {
    let position = position_of(&A_SUIT_EACH, Seat::West, &[]).expect(&rt, "a position");
    let ace = Card {
        suit: Suit::Clubs,
        rank: Rank::of(14),
    };
    assert!(rt; reaches_of(&position, ace, 13, &mut Endless) == Some(Ok(true)));
    assert!(rt; reaches_of(&position, ace, 14, &mut Endless) == Some(Ok(false)));
}

#[test]
fn no_search_is_needed_where_counting_settles_it(rt: HostRuntime) {
    let position = position_of(&ONE_EACH, Seat::East, &[]).expect(&rt, "a position");
    let mut none = Budget::new(0);
    assert!(rt; reaches_of(&position, spade(13), 0, &mut none) == Some(Ok(true)));
    assert!(rt; reaches_of(&position, spade(13), 2, &mut none) == Some(Ok(false)));
    assert!(rt; reaches_of(&position, spade(13), 1, &mut none) == Some(Err(Halt::Spent)));
}

#[test]
fn all_honours_take_all_tricks(rt: HostRuntime) {
    let position = position_of(&ALL_HONOURS, Seat::North, &[]).expect(&rt, "a position");
    for suit in 0..4u8 {
        let ace = card_of(suit, 14).expect(&rt, "an ace");
        let mut budget = Budget::new(10_000);
        assert!(rt;
            score_of(&position, ace, &mut NoTable, &mut budget) == Some(Ok(13)),
            "{suit}"
        );
    }
}

// The start of a trick, where the hands are a position.
fn start_of(hands: &[Holdings; 4], first: Seat) -> Option<TrickStart> {
    TrickStart::of(&position_of(hands, first, &[])?)
}

// The depths, spades first.
fn four(depths: Depths) -> [u8; 4] {
    [
        depths.of(Suit::Spades),
        depths.of(Suit::Hearts),
        depths.of(Suit::Diamonds),
        depths.of(Suit::Clubs),
    ]
}

const TWO_ACES: [Holdings; 4] = [
    [&[2], &[14], &[], &[]],
    [&[14, 13], &[], &[], &[]],
    [&[12], &[4], &[], &[]],
    [&[11], &[5], &[], &[]],
];

#[test]
fn a_value_rests_on_the_cards_that_win(rt: HostRuntime) {
    let table = [
        (&ONE_EACH, Seat::North, 1, [1, 0, 0, 0], "the ace"),
        (&ONE_EACH, Seat::East, 0, [1, 0, 0, 0], "against the ace"),
        (&CAUGHT, Seat::North, 2, [3, 0, 0, 0], "ace, king and queen"),
        (&BEHIND, Seat::North, 1, [2, 0, 0, 0], "ace and king"),
    ];
    for (hands, first, want, depths, what) in table {
        let start = start_of(hands, first).expect(&rt, what);
        let found = start_value(&start, &mut NoTable, &mut Endless).expect(&rt, what);
        assert!(rt; (found.0, four(found.1)) == (want, depths), "{what}");
        let found = start_value_for_first(&start, &mut NoTable, &mut Endless).expect(&rt, what);
        assert!(rt;
            (found.0, four(found.1)) == (want, depths),
            "{what}, as listed"
        );
    }
}

#[test]
fn each_class_has_its_score_in_the_order_of_the_suits(rt: HostRuntime) {
    let table = [
        (&CAUGHT, Seat::North, [(3, 2)].as_slice(), "equal cards"),
        (&ONE_EACH, Seat::East, [(13, 0)].as_slice(), "one card"),
        (
            &TWO_ACES,
            Seat::North,
            [(2, 0), (16 + 14, 1)].as_slice(),
            "two classes",
        ),
    ];
    for (hands, first, want, what) in table {
        let start = start_of(hands, first).expect(&rt, what);
        let found = scores_of(&start, &mut NoTable, &mut Endless);
        let found = found.expect(&rt, what);
        let mut scores: ArrayVec<(u8, u8), 13> = ArrayVec::new();
        for (card, score) in found.0.as_slice() {
            let _fits = scores.try_push((card.code(), *score));
        }
        assert!(rt; scores.as_slice() == want, "{what}");
    }
}

// The position after each hand has played its first card.
fn after_a_trick(start: &TrickStart) -> Option<TrickStart> {
    let second = first_played(start.position())?;
    let third = first_played(&second)?;
    let fourth = first_played(&third)?;
    TrickStart::of(&first_played(&fourth)?)
}

fn first_played(position: &Position) -> Option<Position> {
    let card = position.choices().pop_first()?;
    if position.is_legal(card) {
        Some(position.play(card).0)
    } else {
        None
    }
}

#[test]
fn without_cards_there_is_no_score(rt: HostRuntime) {
    let start = start_of(&ONE_EACH, Seat::North).expect(&rt, "one card a hand");
    let end = after_a_trick(&start).expect(&rt, "four cards");
    let mut one = Budget::new(1);
    let found = scores_of(&end, &mut NoTable, &mut one);
    let found = found.expect(&rt, "one tick");
    assert!(rt; found.0.is_empty());
    assert!(rt; four(found.1) == [0, 0, 0, 0]);
    assert!(rt; one.ticks() == 1);
}
