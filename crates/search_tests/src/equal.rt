use arrayvec::ArrayVec;
use dd_cards::{Card, Hands, Seat, Strain};
use dd_equal::{Class, classes};
use dd_play::Position;

// The classes of a deal at notrump; none where it is no position. Cards are given by their codes, 16 times the suit's
// code (spades 0) plus the rank.
fn classes_at(cards: &[(Seat, u8)], first: Seat, trick: &[Card]) -> ArrayVec<Class, 13> {
    let mut hands = Hands::new();
    for (seat, code) in cards {
        if let Some(card) = Card::from_code(*code) {
            hands.insert(*seat, card);
        }
    }
    match Position::new(hands, Strain::Notrump, first, trick) {
        Ok(position) => classes(&position),
        Err(_) => ArrayVec::new(),
    }
}

// The code of a class's highest card, and the mask of the others. (0, 0) where there is no such class.
fn class_at(classes: &ArrayVec<Class, 13>, place: usize) -> (u8, u16) {
    match classes.as_slice().get(place) {
        Some(class) => (class.top.code(), class.equals),
        None => (0, 0),
    }
}

#[test]
fn the_jack_on_the_trick_separates_the_queen_and_the_ten(rt: HostRuntime) {
    let cards = [
        (Seat::North, 16 + 6),
        (Seat::North, 16 + 5),
        (Seat::East, 16 + 2),
        (Seat::South, 12),
        (Seat::South, 10),
        (Seat::West, 16 + 4),
        (Seat::West, 16 + 3),
    ];
    let jack = Card::from_code(11).expect(&rt, "the jack of spades");
    let found = classes_at(&cards, Seat::East, &[jack]);
    assert!(rt; found.len() == 2);
    assert!(rt; class_at(&found, 0) == (12, 0));
    assert!(rt; class_at(&found, 1) == (10, 0));
}

#[test]
fn cards_that_are_out_of_play_separate_nothing(rt: HostRuntime) {
    let cards = [
        (Seat::North, 14),
        (Seat::North, 11),
        (Seat::East, 16 + 14),
        (Seat::East, 16 + 13),
        (Seat::South, 16 + 12),
        (Seat::South, 16 + 11),
        (Seat::West, 16 + 10),
        (Seat::West, 16 + 9),
    ];
    let found = classes_at(&cards, Seat::North, &[]);
    assert!(rt; found.len() == 1);
    assert!(rt; class_at(&found, 0) == (14, 2048));
}

#[test]
fn the_thirteen_spades_are_one_class(rt: HostRuntime) {
    let mut hands = Hands::new();
    for suit in 0..4u8 {
        let seat = Seat::from_code(suit).expect(&rt, "one of four seats");
        for rank in 2..15u8 {
            if let Some(card) = Card::from_code(16 * suit + rank) {
                hands.insert(seat, card);
            }
        }
    }
    let position = Position::new(hands, Strain::Notrump, Seat::North, &[]).expect(
        &rt,
        "thirteen cards a hand",
    );
    let found = classes(&position);
    assert!(rt; found.len() == 1);
    assert!(rt; class_at(&found, 0) == (14, 16380));
}

// Is the card of this code in just one of the classes, as its highest or in the mask of its others?
fn is_in_one(classes: &ArrayVec<Class, 13>, code: u8) -> bool {
    let mut once = false;
    let mut twice = false;
    for class in classes.as_slice() {
        let class = *class;
        let top = class.top.code();
        let of_suit = top / 16 == code / 16;
        if top == code || of_suit && class.equals & (1 << (code % 16)) != 0 {
            twice = once;
            once = true;
        }
    }
    once && !twice
}

#[test]
fn each_legal_card_is_in_one_class(rt: HostRuntime) {
    // North: spades AKJ, hearts 53. East's queen and West's four stand between.
    let cards = [
        (Seat::North, 14),
        (Seat::North, 13),
        (Seat::North, 11),
        (Seat::North, 16 + 5),
        (Seat::North, 16 + 3),
        (Seat::East, 12),
        (Seat::East, 16 + 14),
        (Seat::East, 16 + 13),
        (Seat::East, 16 + 12),
        (Seat::East, 16 + 11),
        (Seat::South, 32 + 2),
        (Seat::South, 32 + 3),
        (Seat::South, 32 + 4),
        (Seat::South, 32 + 5),
        (Seat::South, 32 + 6),
        (Seat::West, 16 + 4),
        (Seat::West, 48 + 2),
        (Seat::West, 48 + 3),
        (Seat::West, 48 + 4),
        (Seat::West, 48 + 5),
    ];
    let found = classes_at(&cards, Seat::North, &[]);
    assert!(rt; found.len() == 4);
    for code in [14, 13, 11, 16 + 5, 16 + 3] {
        assert!(rt; is_in_one(&found, code), "at {code}");
    }
    for code in [12, 16 + 4, 32 + 2] {
        assert!(rt; !is_in_one(&found, code), "at {code}");
    }
}
