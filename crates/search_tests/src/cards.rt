use dd_cards::{Card, Hand, Hands, Holding, Rank, Seat, Side, Strain, Suit};

fn holding_of(ranks: &[u8]) -> Holding {
    let mut holding = Holding::new();
    for code in ranks {
        if let Some(rank) = Rank::from_code(*code) {
            holding.insert(rank);
        }
    }
    holding
}

// Card codes, in no order.
fn hands_with(seat: Seat, cards: &[u8]) -> Hands {
    let mut hands = Hands::new();
    for code in cards {
        if let Some(card) = Card::from_code(*code) {
            hands.insert(seat, card);
        }
    }
    hands
}

fn next_code(hand: &mut Hand) -> Option<u8> {
    match hand.pop_first() {
        Some(card) => Some(card.code()),
        None => None,
    }
}

// The DDS manual: the bit of the two is 4, of the queen 4096, of the king 8192, of the ace 16384.
#[test]
fn bit_r_of_a_mask_stands_for_the_rank_r(rt: HostRuntime) {
    let masks = [
        holding_of(&[]).mask(),
        holding_of(&[12, 14, 2]).mask(),
        holding_of(&[12, 13]).mask(),
        holding_of(&[2, 3, 4, 5, 6, 7, 8, 9, 10, 11, 12, 13]).mask(),
    ];
    assert!(rt; masks == [0, 20484, 12288, 16380]);
}

#[test]
fn ace_queen_two_runs_down_from_the_ace(rt: HostRuntime) {
    let holding = holding_of(&[2, 14, 12]);
    let (ace, queen, two) = (Rank::of(14), Rank::of(12), Rank::of(2));
    let same = holding == holding_of(&[14, 12, 2]);
    assert!(rt;
        (
            holding.len(),
            holding.has(queen),
            holding.has(Rank::of(13)),
            same
        ) == (3, true, false, true)
    );
    let down = [
        holding.highest(),
        holding.next_below(ace),
        holding.next_below(queen),
        holding.next_below(two),
    ];
    assert!(rt; down == [Some(ace), Some(queen), Some(two), None]);
    let masks = [
        holding.above(two).mask(),
        holding.below(ace).mask(),
        holding.union(holding_of(&[12, 7])).mask(),
    ];
    assert!(rt; masks == [20480, 4100, 20612]);
}

#[test]
fn a_rank_goes_in_once_and_comes_out_once(rt: HostRuntime) {
    let mut holding = Holding::new();
    let nine = Rank::of(9);
    let seen = [
        holding.is_empty(),
        holding.insert(nine),
        holding.insert(nine),
        holding.is_empty(),
        holding.remove(nine),
        holding.remove(nine),
        holding.highest().is_none(),
    ];
    assert!(rt; seen == [true, true, false, false, true, false, true]);
}

// Have suit, seat and the strain with these trumps this code, and the code them?
fn have_code(suit: Suit, seat: Seat, code: u8) -> bool {
    let strain = Strain::Trump(suit);
    [suit.code(), seat.code(), strain.code()] == [code; 3]
        && Suit::from_code(code) == Some(suit)
        && Seat::from_code(code) == Some(seat)
        && Strain::from_code(code) == Some(strain)
}

#[test]
fn codes_are_those_of_dds(rt: HostRuntime) {
    let codes = [
        have_code(Suit::Spades, Seat::North, 0),
        have_code(Suit::Hearts, Seat::East, 1),
        have_code(Suit::Diamonds, Seat::South, 2),
        have_code(Suit::Clubs, Seat::West, 3),
    ];
    assert!(rt; codes == [true; 4]);
    let strains = (Strain::from_code(4), Strain::from_code(5));
    assert!(rt; strains == (Some(Strain::Notrump), None));
    let ranks = [Rank::from_code(1), Rank::from_code(2), Rank::from_code(15)];
    assert!(rt; ranks == [None, Some(Rank::of(2)), None]);
    let rest = (
        Suit::from_code(4),
        Seat::from_code(4),
        Strain::Notrump.code(),
        Rank::of(14).code(),
    );
    assert!(rt; rest == (None, None, 4, 14));
}

#[test]
fn a_card_code_is_sixteen_times_the_suit_plus_the_rank(rt: HostRuntime) {
    let ace_of_clubs = Card {
        suit: Suit::Clubs,
        rank: Rank::of(14),
    };
    assert!(rt; (Card::default().code(), ace_of_clubs.code()) == (2, 62));
    assert!(rt; Card::from_code(62) == Some(ace_of_clubs));
    for code in [0, 1, 15, 16, 63, 64, 66, 255] {
        assert!(rt; Card::from_code(code).is_none(), "at {code}");
    }
}

// Is the seat at the left this one, the partner this one, and the side theirs?
fn sits(seat: Seat, next: Seat, partner: Seat, side: Side) -> bool {
    [seat.next(), seat.left(), seat.partner()] == [next, next, partner]
        && seat.right() == partner.next()
        && [seat.side(), partner.side()] == [side; 2]
        && seat.is_north_south() == (side == Side::NorthSouth)
}

#[test]
fn play_goes_clockwise_and_partners_sit_opposite(rt: HostRuntime) {
    let seats = [
        sits(Seat::North, Seat::East, Seat::South, Side::NorthSouth),
        sits(Seat::East, Seat::South, Seat::West, Side::EastWest),
        sits(Seat::South, Seat::West, Seat::North, Side::NorthSouth),
        sits(Seat::West, Seat::North, Seat::East, Side::EastWest),
    ];
    assert!(rt; seats == [true; 4]);
}

#[test]
fn a_hand_runs_from_the_spades_to_the_clubs_and_down_in_each_suit(rt: HostRuntime) {
    let hands = hands_with(Seat::South, &[50, 29, 14, 2, 62]);
    let mut hand = hands.hand(Seat::South);
    let clubs = hand.of_suit(Suit::Clubs);
    let two = Card::default();
    assert!(rt; (hand.len(), clubs.len(), hand.has(two), clubs.has(two)) == (5, 2, true, false));
    let mut again = hand;
    let codes = [
        next_code(&mut hand),
        next_code(&mut hand),
        next_code(&mut hand),
        next_code(&mut hand),
        next_code(&mut hand),
        next_code(&mut hand),
    ];
    assert!(rt; codes == [Some(14), Some(2), Some(29), Some(62), Some(50), None]);
    assert!(rt; (hand.is_empty(), again.is_empty()) == (true, false));
    assert!(rt; next_code(&mut again) == Some(14));
}

#[test]
fn a_card_is_in_one_hand_at_most(rt: HostRuntime) {
    let mut hands = hands_with(Seat::West, &[14, 12, 2]);
    let two = Card::default();
    let first = [
        hands.has(Seat::West, two),
        hands.has(Seat::East, two),
        hands.insert(Seat::East, two),
        hands.remove(Seat::East, two),
    ];
    assert!(rt; first == [true, false, false, false]);
    assert!(rt; hands.holder(two) == Some(Seat::West));
    assert!(rt; hands.holding(Seat::West, Suit::Spades).mask() == 20484);
    let before = hands.copy();
    assert!(rt;
        (
            hands.remove(Seat::West, two),
            hands.holder(two),
            hands.insert(Seat::East, two)
        ) == (true, None, true)
    );
    assert!(rt;
        (
            hands.len(Seat::West),
            hands.len(Seat::East),
            before.len(Seat::West)
        ) == (2, 1, 3)
    );
}

#[test]
fn two_hands_are_one_where_their_cards_are(rt: HostRuntime) {
    let hand = hands_with(Seat::East, &[14, 29]).hand(Seat::East);
    let same = hands_with(Seat::North, &[29, 14]).hand(Seat::North);
    let other = hands_with(Seat::East, &[14]).hand(Seat::East);
    assert!(rt; (hand == same, hand == other) == (true, false));
}
