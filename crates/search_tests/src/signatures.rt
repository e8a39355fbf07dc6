//! What is seen at once of owners, beside the owners themselves: of many drawn starts of a trick.

use dd_cards::{Card, Hand, Hands, Rank, Seat, Strain, Suit};
use dd_play::{Position, TrickStart};
use dd_rank::{Depths, FirstFours, FirstOwners, FirstSignatures, OwnerStrings, covered_positions};

// The most depth of which all is seen at once.
const SEEN: u8 = 4;

const SUITS: [Suit; 4] = [Suit::Spades, Suit::Hearts, Suit::Diamonds, Suit::Clubs];

// A number below the count, and the state after it. Who adds to it or narrows it takes the remainder again, which the proof reads.
fn below(state: &mut u64, count: u64) -> u64 {
    *state = state
        .wrapping_mul(0x5851_F42D_4C95_7F2D)
        .wrapping_add(0x1405_7B7E_F767_814F);
    (*state >> 33) % count.max(1)
}

// The card of this number: the four suits' aces are the first four, then the kings, and so on.
fn card_of(number: u64) -> Option<Card> {
    let suit = Suit::from_code((number % 4) as u8)?;
    let rank = Rank::from_code(14u8.saturating_sub((number / 4 % 13) as u8))?;
    Some(Card { suit, rank })
}

// A start of a trick of so many cards a hand: of the highest cards, but for a few that are gone.
fn drawn(state: &mut u64, cards: u64) -> Option<TrickStart> {
    let mut hands = Hands::new();
    let mut left = [cards; 4];
    for number in 0..52u64 {
        let seat = (below(state, 5) % 5) as u8;
        let Some(own) = left.get_mut(seat as usize) else {
            continue;
        };
        if *own > 0 {
            *own = own.saturating_sub(1);
            hands.insert(Seat::from_code(seat)?, card_of(number)?);
        }
    }
    let first = Seat::from_code((below(state, 4) % 4) as u8)?;
    let position = Position::new(hands, Strain::Notrump, first, &[]).ok()?;
    TrickStart::of(&position)
}

// The first owners of a start down to some of its cards.
fn firsts_of(state: &mut u64, start: &TrickStart) -> Option<FirstOwners> {
    let mut cards = Hand::new();
    for _ in 0..below(state, 5) {
        cards = cards.with(card_of(below(state, 36))?);
    }
    // The proof reads here that a suit has thirteen cards at most.
    let _ = start.position();
    covered_positions();
    Some(FirstOwners::of(&OwnerStrings::of(start), Depths::of_cards(start, cards)))
}

// A start that North leads to: West has ace and king of each suit, North queen and jack, and so on. Or the aces of clubs and queens
// of clubs are exchanged.
fn headed_by_west(are_exchanged: bool) -> Option<TrickStart> {
    let mut hands = Hands::new();
    for number in 0..32u64 {
        let owner = match number {
            3 if are_exchanged => 8,
            11 if are_exchanged => 0,
            _ => number,
        };
        let seat = Seat::from_code((owner / 8 % 4 + 3) as u8 % 4)?;
        hands.insert(seat, card_of(number)?);
    }
    let position = Position::new(hands, Strain::Notrump, Seat::North, &[]).ok()?;
    TrickStart::of(&position)
}

// Are the two highest cards of each suit, and not fewer, the fourth hand's?
fn are_fourth_hands(strings: &OwnerStrings) -> bool {
    let tops = strings.two_highest();
    SUITS.iter().all(|suit| tops.of_suit(*suit) == 15)
}

// Whether first owners of a start with these strings, at these depths, may be those of another start, as far as the two highest cards
// of each suit tell: what a signature tells.
fn may_be_by_two(own: &OwnerStrings, depths: Depths, others: &OwnerStrings) -> bool {
    let (own, others) = (own.two_highest(), others.two_highest());
    SUITS.iter().all(|suit| {
        let seen = match depths.of(*suit) {
            0 => 0,
            1 => 0b1010,
            _ => 0b1111,
        };
        (own.of_suit(*suit) ^ others.of_suit(*suit)) & seen == 0
    })
}

// Does one word tell of all suits what is told of each?
fn is_told_in_one_word(strings: &OwnerStrings) -> bool {
    let tops = strings.two_highest();
    let [spades, hearts, diamonds, clubs] = SUITS.map(|suit| tops.of_suit(suit) as u64);
    tops.of_suits() == spades << 48 | hearts << 32 | diamonds << 16 | clubs
}

fn is_all_seen(firsts: &FirstOwners) -> bool {
    let depths = firsts.depths();
    SUITS.iter().all(|suit| depths.of(*suit) <= SEEN)
}

// What was seen of first owners and of a start: how often they were the start's, how often they were not, and how often that was
// seen of four cards and not of two.
#[derive(Clone, Copy, Debug, PartialEq, Eq)]
struct Seen {
    owners: u64,
    others: u64,
    told_by_next: u64,
}

// What is seen of one place, by two cards and by four.
#[derive(Clone, Copy, Debug, PartialEq, Eq)]
struct MayBe {
    by_two: bool,
    by_four: bool,
}

// Is what is seen of the first owners of another start what these strings tell? Else what is wrong.
fn judged(
    firsts: &FirstOwners,
    other: &OwnerStrings,
    strings: &OwnerStrings,
    may_be: MayBe,
) -> Result<(), &'static str> {
    let are = firsts.are_in(strings);
    if may_be.by_two != may_be_by_two(other, firsts.depths(), strings) {
        return Err("a signature tells of other cards");
    }
    if are && !may_be.by_four {
        return Err("owners of the start are not seen");
    }
    if may_be.by_four && !may_be.by_two {
        return Err("what two cards tell, four do not");
    }
    if may_be.by_four && !are && is_all_seen(firsts) {
        return Err("owners of four cards that are others are not told");
    }
    Ok(())
}

// Compares what is seen of eight first owners and one start, or tells the first case that is wrong.
fn compared(state: &mut u64, seen: &mut Seen) -> Result<(), &'static str> {
    let cards = below(state, 9) % 9 + 1;
    let Some(start) = drawn(state, cards) else {
        return Ok(());
    };
    let strings = OwnerStrings::of(&start);
    let mut signatures = FirstSignatures::default();
    let mut fours = FirstFours::default();
    let free = [
        signatures.may_be_in(strings.signature()),
        fours.may_be_in(strings.four_highest()),
    ];
    if free != [if are_fourth_hands(&strings) { 0xFF } else { 0 }; 2] {
        return Err("a free place is seen");
    }
    if !is_told_in_one_word(&strings) {
        return Err("the suits in one word are others");
    }
    for place in 0..8usize {
        let cards = below(state, 9) % 9 + 1;
        let Some(other) = drawn(state, cards) else {
            continue;
        };
        let Some(firsts) = firsts_of(state, &other) else {
            continue;
        };
        signatures.put(place, firsts.signature());
        fours.put(place, firsts.first_four());
        let may_be = MayBe {
            by_two: (signatures.may_be_in(strings.signature()) >> place) & 1 == 1,
            by_four: (fours.may_be_in(strings.four_highest()) >> place) & 1 == 1,
        };
        judged(&firsts, &OwnerStrings::of(&other), &strings, may_be)?;
        let begin = signatures.may_begin_as(firsts.signature());
        if fours.may_begin_as(firsts.first_four()) != begin {
            return Err("others begin so by four cards");
        }
        if (begin >> place) & 1 == 0 {
            return Err("the same owners are not seen");
        }
        if firsts.are_in(&strings) {
            seen.owners = seen.owners.saturating_add(1);
        } else {
            seen.others = seen.others.saturating_add(1);
        }
        if may_be.by_two && !may_be.by_four {
            seen.told_by_next = seen.told_by_next.saturating_add(1);
        }
    }
    Ok(())
}

#[test]
fn owners_that_are_seen_at_once_are_those_of_four_cards(rt: HostRuntime) {
    let mut state = 0x2026_1127;
    let mut seen = Seen {
        owners: 0,
        others: 0,
        told_by_next: 0,
    };
    for _ in 0..2_000 {
        assert_eq!(rt; compared(&mut state, &mut seen), Ok(()));
    }
    // Each happened often.
    assert!(rt; seen.owners > 1_000 && seen.others > 1_000, "{seen:?}");
    assert!(rt; seen.told_by_next > 50, "{seen:?}");
}

#[test]
fn free_places_are_seen_where_west_has_the_two_highest_of_each_suit(rt: HostRuntime) {
    let free = FirstSignatures::default();
    let free_fours = FirstFours::default();
    let found = [false, true].map(|are_exchanged| match headed_by_west(are_exchanged) {
        Some(start) => {
            let strings = OwnerStrings::of(&start);
            [
                free.may_be_in(strings.signature()),
                free_fours.may_be_in(strings.four_highest()),
            ]
        }
        None => [1, 1],
    });
    assert_eq!(rt; found, [[0xFF, 0xFF], [0, 0]]);
}
