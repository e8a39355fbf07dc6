ghost use Rattle.std.specs.Prelude.{◌≤◌};

use dd_cards::{Card, Hands, Rank, Seat, Strain, Suit};
use dd_equal::legal;
use dd_play::{Interval, PlayFault, Position, TrickStart, winner};
use std::process::Abort;

fn card(suit: Suit, rank: u8) -> Card
    requires { (2 ≤ rank) × (rank ≤ 14) }
{
    Card {
        suit,
        rank: Rank::of(rank),
    }
}

// North has an ace and a low trump, East two trumps, South two low spades, and West one and a diamond.
fn ruffing_hands() -> Hands {
    let cards = [
        (Seat::North, card(Suit::Spades, 14)),
        (Seat::North, card(Suit::Hearts, 3)),
        (Seat::East, card(Suit::Hearts, 4)),
        (Seat::East, card(Suit::Hearts, 2)),
        (Seat::South, card(Suit::Spades, 4)),
        (Seat::South, card(Suit::Spades, 2)),
        (Seat::West, card(Suit::Spades, 3)),
        (Seat::West, card(Suit::Diamonds, 2)),
    ];
    let mut hands = Hands::new();
    for (seat, card) in cards {
        hands.insert(seat, card);
    }
    hands
}

fn fault(hands: &Hands, trick: &[Card]) -> Option<PlayFault> {
    Position::new(hands.copy(), Strain::Notrump, Seat::North, trick).err()
}

#[test]
fn the_first_fault_is_named(rt: HostRuntime) {
    let ace = card(Suit::Spades, 14);
    let king = card(Suit::Spades, 13);
    let none = Hands::new();
    let mut one = Hands::new();
    one.insert(Seat::North, ace);
    let faults = [
        // Four cards, two of them twice.
        fault(&one, &[ace, ace, king, king]),
        // On the trick and in a hand.
        fault(&one, &[king, ace]),
        // Twice on the trick.
        fault(&none, &[king, king]),
        // One card in four hands.
        fault(&one, &[]),
        // The first hand cannot have one card fewer than none.
        fault(&none, &[ace]),
        fault(&none, &[]),
        fault(&ruffing_hands(), &[]),
    ];
    let want = [
        Some(PlayFault::Played),
        Some(PlayFault::Twice),
        Some(PlayFault::Twice),
        Some(PlayFault::Uneven),
        Some(PlayFault::Uneven),
        Some(PlayFault::Empty),
        None,
    ];
    assert!(rt; faults == want);
}

// The position after these cards of `ruffing_hands`, and the winner of a trick that the last one completes. Hearts are
// trumps, and North leads.
fn after(rt: &impl Abort, cards: &[Card]) -> (Position, Option<Seat>) {
    let strain = Strain::Trump(Suit::Hearts);
    let start = Position::new(ruffing_hands(), strain, Seat::North, &[]);
    let mut position = start.ok().expect(rt, "even hands");
    let mut winner = None;
    for card in cards {
        assert!(rt; position.is_legal(*card));
        (position, winner) = position.play(*card);
    }
    (position, winner)
}

// The leader, the seat to play, and the tricks left.
fn seen(position: &Position) -> (Seat, Seat, u8) {
    (position.first(), position.mover(), position.tricks_left())
}

#[test]
fn a_low_trump_takes_an_ace(rt: HostRuntime) {
    let ace = card(Suit::Spades, 14);
    let trump = card(Suit::Hearts, 2);
    let two = card(Suit::Spades, 2);
    let three = card(Suit::Spades, 3);
    let diamond = card(Suit::Diamonds, 2);
    let (start, _) = after(&rt, &[]);
    let (led, none) = after(&rt, &[ace]);
    let (third, _) = after(&rt, &[ace, trump, two]);
    let (next, seat) = after(&rt, &[ace, trump, two, three]);
    assert!(rt;
        [seen(&start), seen(&led), seen(&next)]
            == [
                (Seat::North, Seat::North, 2),
                (Seat::North, Seat::East, 2),
                (Seat::East, Seat::East, 1)
            ]
    );
    assert!(rt; (none, seat) == (None, Some(Seat::East)));
    assert!(rt; led.trick() == [ace].as_slice());
    assert!(rt;
        legal(&led).as_slice() == [card(Suit::Hearts, 4), trump].as_slice(),
        "no spade to follow with"
    );
    // West has a spade, and South's card is not West's.
    let legal = [
        third.is_legal(diamond),
        third.is_legal(card(Suit::Spades, 4)),
    ];
    let held = [
        next.hands().has(Seat::West, diamond),
        next.hands().has(Seat::North, ace),
    ];
    assert!(rt; (legal, held) == ([false, false], [true, false]));
    assert!(rt; third.choices().pop_first() == Some(three));
    assert!(rt; next.strain() == Strain::Trump(Suit::Hearts));
}

#[test]
fn the_highest_trump_or_card_of_the_suit_led_wins(rt: HostRuntime) {
    let five = card(Suit::Clubs, 5);
    let ten = card(Suit::Clubs, 10);
    let ace = card(Suit::Diamonds, 14);
    let two = card(Suit::Spades, 2);
    let trick = [five, ace, ten, two];
    let winners = [
        winner(&trick, Seat::West, Strain::Notrump),
        winner(&trick, Seat::West, Strain::Trump(Suit::Spades)),
        winner(&trick, Seat::West, Strain::Trump(Suit::Diamonds)),
        winner(&trick, Seat::West, Strain::Trump(Suit::Hearts)),
    ];
    assert!(rt; winners == [Seat::East, Seat::South, Seat::North, Seat::East]);
}

#[test]
fn a_begun_trick_is_no_start(rt: HostRuntime) {
    let position = Position::new(ruffing_hands(), Strain::Notrump, Seat::West, &[])
        .ok()
        .expect(&rt, "even hands");
    let start = TrickStart::of(&position).expect(&rt, "no card is on the trick");
    assert!(rt; start.copy().position().copy().mover() == Seat::West);
    let (begun, _) = after(&rt, &[card(Suit::Spades, 14)]);
    assert!(rt; TrickStart::of(&begun).is_none());
}

#[test]
fn intervals_meet_where_they_share_a_number(rt: HostRuntime) {
    let low = Interval::new(2, 5).expect(&rt, "in order");
    let high = Interval::new(5, 9).expect(&rt, "in order");
    let above = Interval::new(6, 6).expect(&rt, "in order");
    let met = [Interval::new(3, 2), low.meet(high), low.meet(above)];
    assert!(rt; met == [None, Interval::new(5, 5), None]);
}
