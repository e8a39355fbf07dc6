use dd_cards::{Card, Hand, Hands, Rank, Seat, Strain, Suit};
use dd_play::{Position, TrickStart};
use dd_rank::{
    Cover, Depths, FirstOwners, OwnerStrings, RankKey, Shape, are_alike, covered_positions, covers,
};
use std::hash::{DefaultHasher, Hash, Hasher};

// Spades two a hand, North 32, East K4, South AQ, West 65. The ranks stand round by round, from North clockwise.
const SPADES: [u8; 8] = [3, 13, 14, 6, 2, 4, 12, 5];

// The start of a trick where each hand has as many of these spades.
fn start(ranks: &[u8], strain: Strain, first: Seat) -> Option<TrickStart> {
    let mut hands = Hands::new();
    for (place, rank) in ranks.iter().enumerate() {
        let seat = Seat::from_code((place % 4) as u8)?;
        hands.insert(seat, spade(*rank)?);
    }
    let position = Position::new(hands, strain, first, &[]).ok()?;
    TrickStart::of(&position)
}

fn spade(rank: u8) -> Option<Card> {
    let rank = Rank::from_code(rank)?;
    let suit = Suit::Spades;
    Some(Card { suit, rank })
}

// Each spade from this one up matters.
fn down_to(start: &TrickStart, rank: u8) -> Option<Depths> {
    Some(Depths::of_cards(start, Hand::new().with(spade(rank)?)))
}

fn hash_of(key: &RankKey) -> u64 {
    let mut state = DefaultHasher::new();
    key.hash(&mut state);
    state.finish()
}

#[test]
fn positions_are_alike_by_the_owners_seen_from_the_leader(rt: HostRuntime) {
    let one = start(&SPADES, Strain::Notrump, Seat::North).expect(&rt, "two cards a hand");
    let table = [
        (
            [6, 11, 14, 9, 4, 7, 10, 8],
            Strain::Notrump,
            Seat::North,
            true,
            "other ranks",
        ),
        (
            [3, 6, 14, 13, 2, 5, 12, 4],
            Strain::Notrump,
            Seat::North,
            false,
            "East's and West's hands exchanged",
        ),
        (
            SPADES,
            Strain::Trump(Suit::Hearts),
            Seat::North,
            false,
            "hearts are trumps",
        ),
        (SPADES, Strain::Notrump, Seat::East, false, "East leads"),
        (
            [6, 3, 13, 14, 5, 2, 4, 12],
            Strain::Notrump,
            Seat::East,
            true,
            "all seats turned by one",
        ),
    ];
    let key = RankKey::of(&one);
    for (cards, strain, first, want, what) in table {
        let other = start(&cards, strain, first).expect(&rt, "two cards a hand");
        let other_key = RankKey::of(&other);
        let found = [
            are_alike(&one, &other),
            key == other_key,
            hash_of(&key) == hash_of(&other_key),
            key.hash_code() == other_key.hash_code(),
        ];
        assert!(rt; found == [want; 4], "{what}");
        assert!(rt; are_alike(other_key.sample(), &other), "the sample: {what}");
    }
}

#[test]
fn a_position_covers_those_with_the_same_owners_of_the_highest_cards(rt: HostRuntime) {
    let one = start(&SPADES, Strain::Notrump, Seat::North).expect(&rt, "two cards a hand");
    let other = start(&[6, 13, 14, 5, 2, 3, 12, 4], Strain::Notrump, Seat::North).expect(
        &rt,
        "two cards a hand",
    );
    let three = down_to(&one, 12).expect(&rt, "the queen is a rank");
    let four = down_to(&one, 6).expect(&rt, "six is a rank");
    let lower = start(&[6, 11, 14, 9, 4, 7, 10, 8], Strain::Notrump, Seat::North).expect(
        &rt,
        "two cards a hand",
    );
    let ace_high = start(&[14, 13, 12, 11], Strain::Notrump, Seat::North).expect(
        &rt,
        "a card a hand",
    );
    let found = [
        // Ace South, king East, queen South.
        covers(&one, three, &other),
        // The six is West's in the one, North's in the other.
        covers(&one, four, &other),
        // All owners are the same.
        covers(&one, Depths::full(&one), &lower),
        covers(&ace_high, Depths::full(&ace_high), &ace_high),
        // Four spades, and a depth of eight.
        covers(&ace_high, Depths::full(&one), &ace_high),
    ];
    assert!(rt; found == [true, false, true, true, false]);
}

#[test]
fn covers_are_the_same_where_depths_and_owners_are(rt: HostRuntime) {
    let one = start(&SPADES, Strain::Notrump, Seat::North).expect(&rt, "two cards a hand");
    let strings = OwnerStrings::of(&one);
    let none = Cover::new(&one, Depths::of_cards(&one, Hand::new()), &strings);
    let all = Cover::new(&one, Depths::full(&one), &strings);
    let found = [
        none.covers(&strings),
        all.covers(&strings),
        // At eight spades both.
        all.is_same(&all.copy()),
        // At eight spades and at none.
        all.is_same(&none),
        are_alike(all.start(), &one),
    ];
    assert!(rt; found == [true, true, true, false, true]);
    assert!(rt; all.depths().of(Suit::Spades) == 8);
}

#[test]
fn equal_shapes_have_one_hash(rt: HostRuntime) {
    let one = start(&SPADES, Strain::Notrump, Seat::North).expect(&rt, "two cards a hand");
    let two = start(&[14, 13, 12, 11, 2, 3, 4, 5], Strain::Notrump, Seat::East).expect(
        &rt,
        "two cards a hand",
    );
    let hearts = start(&SPADES, Strain::Trump(Suit::Hearts), Seat::North).expect(
        &rt,
        "two cards a hand",
    );
    let shape = OwnerStrings::of(&one).shape();
    let same = OwnerStrings::of(&two).shape();
    let found = [
        // Two spades a hand.
        shape == same,
        shape.hash_code() == same.hash_code(),
        // Hearts are trumps.
        shape == OwnerStrings::of(&hearts).shape(),
        OwnerStrings::of(&one) == *RankKey::of(&one).strings(),
        OwnerStrings::with_shape(&two, Shape::of(&two)) == OwnerStrings::of(&two).copy(),
    ];
    assert!(rt; found == [true, true, false, true, true]);
}

#[test]
fn first_owners_are_those_of_the_highest_cards(rt: HostRuntime) {
    let one = start(&SPADES, Strain::Notrump, Seat::North).expect(&rt, "two cards a hand");
    // The proof reads here that a suit has thirteen cards at most.
    let _ = one.position();
    covered_positions();
    let strings = OwnerStrings::of(&one);
    let all = FirstOwners::of(&strings, Depths::full(&one));
    let none = FirstOwners::default();
    let depths = (
        all.depths().of(Suit::Spades),
        none.depths().of(Suit::Spades),
    );
    assert!(rt; depths == (8, 0));
    let behind = start(&[3, 6, 14, 13, 2, 5, 12, 4], Strain::Notrump, Seat::North).expect(
        &rt,
        "two cards a hand",
    );
    let behind = OwnerStrings::of(&behind);
    let found = [
        all.are_in(&strings),
        none.are_in(&strings),
        // None are the beginning of all, and eight are more than none.
        none.include(&all),
        all.include(&all),
        all.include(&none),
        // The king is in another hand.
        all.are_in(&behind),
        none.are_in(&behind),
    ];
    assert!(rt; found == [true, true, true, true, false, false, true]);
}
