//! A search by relative ranks beside one by the ranks of the deal: on drawn starts of a trick, with more than three tricks left
//! and with fewer. And both beside what is on record: the tricks as they were found before there was the first, and the depths and
//! positions of today's order of cards.
use crate::scores::scores_of;
use dd_bounds::{Bounds, Budget, LeadHistory, NoTable};
use dd_cache::Cache;
use dd_cards::{Card, Hands, Rank, Seat, Strain, Suit};
use dd_play::{Interval, Position, TrickStart};
use dd_rank::{Depths, OwnerStrings};
use dd_search::{start_value, start_value_for_first};
use std::alloc::AllocError;
use std::process::Abort;

// More than any search here takes.
const ENOUGH: u64 = 10_000_000;

const SEATS: [Seat; 4] = [Seat::North, Seat::East, Seat::South, Seat::West];

const SUITS: [Suit; 4] = [Suit::Spades, Suit::Hearts, Suit::Diamonds, Suit::Clubs];

// A number below the count, and the state after it. Who adds to it or narrows it takes the remainder again, which the proof reads.
fn below(state: &mut u64, count: u64) -> u64 {
    *state = state
        .wrapping_mul(0x5851_F42D_4C95_7F2D)
        .wrapping_add(0x1405_7B7E_F767_814F);
    (*state >> 33) % count.max(1)
}

fn card_of(number: u64) -> Option<Card> {
    let suit = Suit::from_code((number % 4) as u8)?;
    let rank = Rank::from_code(14u8.saturating_sub((number / 4 % 13) as u8))?;
    Some(Card { suit, rank })
}

// The first seat from a drawn one on that lacks cards.
fn seat_with_room(state: &mut u64, left: &[u64; 4]) -> Option<usize> {
    let first = (below(state, 4) % 4) as usize;
    for turn in 0..4usize {
        let seat = (first + turn) % 4;
        if left[seat] > 0 {
            return Some(seat);
        }
    }
    None
}

// A start of a trick of so many cards a hand, drawn from the whole pack, with a drawn strain and leader.
fn drawn(state: &mut u64, cards: u64) -> Option<TrickStart> {
    let mut hands = Hands::new();
    let mut left = [cards; 4];
    let mut wanted = cards.saturating_mul(4);
    for number in 0..52u64 {
        if below(state, 52u64.saturating_sub(number)) < wanted {
            let seat = seat_with_room(state, &left)? % 4;
            wanted = wanted.saturating_sub(1);
            left[seat] = left[seat].saturating_sub(1);
            hands.insert(Seat::from_code(seat as u8)?, card_of(number)?);
        }
    }
    let strain = Strain::from_code((below(state, 5) % 5) as u8)?;
    let first = Seat::from_code((below(state, 4) % 4) as u8)?;
    let position = Position::new(hands, strain, first, &[]).ok()?;
    TrickStart::of(&position)
}

// Knows nothing and keeps nothing, and does not say that it takes starts by relative ranks.
#[derive(Drop)]
struct OwnStarts;

impl Bounds for OwnStarts {
    ghost tells = { λ table p depths interval. ⊥ };

    ghost holds = { λ table p depths interval q told. absurd told };

    fn look(&mut self, _start: &TrickStart) -> Option<(Interval, Depths)> {
        None
    }

    fn note(&mut self, _start: &TrickStart, _depths: Depths, _interval: Interval) {}
}

// What a search tells, its depths and its ticks, each as a number.
#[derive(Clone, Copy, Debug, PartialEq, Eq)]
struct Found {
    tricks: u64,
    depths: u64,
    ticks: u64,
}

fn depths_as_number(depths: Depths) -> u64 {
    let mut number = 0u64;
    for suit in SUITS {
        number = number.wrapping_mul(16).wrapping_add(depths.of(suit) as u64);
    }
    number
}

// The value, the value as it is found for one best card, or the scores of all cards.
fn searched<T: Bounds>(kind: u64, start: &TrickStart, table: &mut T) -> Option<Found> {
    let mut budget = Budget::new(ENOUGH);
    let (tricks, depths) = match kind % 3 {
        0 => {
            let found = scores_of(start, table, &mut budget)?;
            let mut number = 0u64;
            for (_, score) in found.0.as_slice() {
                number = number.wrapping_mul(14).wrapping_add(*score as u64);
            }
            (number, found.1)
        }
        1 => {
            let found = start_value_for_first(start, table, &mut budget).ok()?;
            (found.0 as u64, found.1)
        }
        _ => {
            let found = start_value(start, table, &mut budget).ok()?;
            (found.0 as u64, found.1)
        }
    };
    Some(Found {
        tricks,
        depths: depths_as_number(depths),
        ticks: budget.ticks(),
    })
}

fn mixed(digest: u64, number: u64) -> u64 {
    (digest ^ number).wrapping_mul(0x0000_0100_0000_01B3)
}

// What searches find: the tricks as one number, and with their depths and ticks as another.
#[derive(Clone, Copy, Debug, PartialEq, Eq)]
struct Digest {
    tricks: u64,
    all: u64,
}

// What three searches find at each of so many starts with so many tricks left; none where the two forms differ. Each form has a cache, so
// what the first of the three learned serves the next ones.
fn digest_of<R: AllocGlobal>(
    rt: &R,
    tricks: u64,
    starts: u64,
) -> Result<Option<Digest>, AllocError> {
    let mut relative = Cache::new(rt.alloc(), NoTable)?;
    let mut own = Cache::new(rt.alloc(), OwnStarts)?;
    let mut state = tricks;
    let mut digest = Digest {
        tricks: 0,
        all: 0xCBF2_9CE4_8422_2325,
    };
    for number in 0..starts {
        let Some(start) = drawn(&mut state, tricks) else {
            return Ok(None);
        };
        for turn in 0..3u64 {
            let kind = number.wrapping_add(turn);
            let Some(found) = searched(kind, &start, &mut relative) else {
                return Ok(None);
            };
            if searched(kind, &start, &mut own) != Some(found) {
                return Ok(None);
            }
            digest.tricks = mixed(digest.tricks, found.tricks);
            digest.all = mixed(digest.all, found.tricks);
            digest.all = mixed(digest.all, found.depths);
            digest.all = mixed(digest.all, found.ticks);
        }
    }
    Ok(Some(digest))
}

// Compares the two forms at so many starts with so many tricks left, and what they find with the numbers on record: those of the tricks
// alone, and of all.
fn compare_each<R: AllocGlobal + Abort>(
    rt: &R,
    rows: &[(u64, u64, u64, u64)],
) -> Result<(), AllocError> {
    for (left, starts, tricks, all) in rows {
        let wanted = Digest {
            tricks: *tricks,
            all: *all,
        };
        assert_eq!(rt;
            digest_of(rt, *left, *starts)?,
            Some(wanted),
            "{left} tricks"
        );
    }
    Ok(())
}

#[test]
fn both_forms_find_what_was_found_with_few_tricks(rt: HostRuntime) -> Result<(), AllocError> {
    let rows = [
        (4, 16, 6_889_541_337_239_923_591, 17_644_511_133_834_505_987),
        (5, 16, 6_790_084_306_669_215_809, 14_000_309_903_712_408_433),
        (
            6,
            16,
            11_404_413_725_180_395_211,
            18_037_743_956_932_049_804,
        ),
        (7, 16, 17_721_269_044_104_085_499, 9_850_469_414_352_506_887),
        (8, 10, 8_792_800_867_620_329_814, 13_508_947_904_803_279_941),
    ];
    compare_each(&rt, &rows)
}

#[test]
fn both_forms_find_what_was_found_with_nine_and_ten_tricks(
    rt: HostRuntime,
) -> Result<(), AllocError> {
    compare_each(
        &rt,
        &[
            (9, 5, 6_908_044_886_030_983_752, 2_648_104_979_461_023_930),
            (10, 3, 16_559_380_272_903_085_502, 7_969_631_275_552_428_910),
        ],
    )
}

#[test]
fn both_forms_find_what_was_found_with_eleven_and_twelve_tricks(
    rt: HostRuntime,
) -> Result<(), AllocError> {
    compare_each(
        &rt,
        &[
            (11, 2, 15_584_656_769_465_727_021, 8_695_440_914_645_409_249),
            (12, 1, 15_219_020_216_740_738_604, 7_150_002_423_056_997_358),
        ],
    )
}

#[test]
fn both_forms_find_what_was_found_in_full_deals(rt: HostRuntime) -> Result<(), AllocError> {
    compare_each(
        &rt,
        &[(
            13,
            1,
            16_976_414_730_713_939_326,
            10_528_017_577_494_434_819,
        )],
    )
}

// A table of a caller, which may look at the cards and says nothing of starts by relative ranks. It keeps nothing, and mixes into one
// number what it is asked and told: the start by its owners and its leader in the deal, the tricks that are asked for, bounds with their
// depths, and leads. It counts the questions, and the starts in which a hand has a card that it hasn't in the deal.
#[derive(Drop)]
struct Watch {
    deal: Hands,
    digest: u64,
    asked: u64,
    others: u64,
}

impl Watch {
    fn of(start: &TrickStart) -> Watch {
        Watch {
            deal: start.position().hands().copy(),
            digest: 0xCBF2_9CE4_8422_2325,
            asked: 0,
            others: 0,
        }
    }

    fn add(&mut self, number: u64) {
        self.digest = mixed(self.digest, number);
    }

    fn see(&mut self, position: &Position) {
        let is_of_deal = SEATS.iter().all(|seat| {
            let hand = position.hands().hand(*seat);
            hand.difference(self.deal.hand(*seat)).is_empty()
        });
        if !is_of_deal {
            self.others = self.others.saturating_add(1);
        }
    }

    fn ask(&mut self, start: &TrickStart, strings: &OwnerStrings, need: u8) {
        self.see(start.position());
        self.asked = self.asked.saturating_add(1);
        self.add(strings.hash_code());
        self.add(need as u64);
    }

    fn tell(&mut self, start: &TrickStart, strings: &OwnerStrings, depths: Depths, told: Interval) {
        self.see(start.position());
        self.add(strings.hash_code());
        self.add(depths_as_number(depths));
        self.add(told.lo as u64);
        self.add(told.hi as u64);
    }

    fn tell_lead(&mut self, start: &Position, leader: Seat, strings: &OwnerStrings, lead: Suit) {
        self.see(start);
        self.add(strings.hash_code());
        self.add(leader.code() as u64);
        self.add(lead.code() as u64);
    }
}

// Suits by the owners and by the leader in the deal: so the order of leads shows whether both are told.
fn history_of(leader: Seat, strings: &OwnerStrings) -> LeadHistory {
    let number = strings.hash_code();
    LeadHistory {
        of_shape: Suit::from_code((number % 5) as u8),
        of_outline: Suit::from_code((number / 5 % 5) as u8),
        of_leader: Suit::from_code(leader.code()),
    }
}

impl Bounds for Watch {
    ghost tells = { λ table p depths interval. ⊥ };

    ghost holds = { λ table p depths interval q told. absurd told };

    fn look(&mut self, start: &TrickStart) -> Option<(Interval, Depths)> {
        self.ask(start, &OwnerStrings::of(start), 0);
        None
    }

    fn settle(
        &mut self,
        start: &TrickStart,
        strings: &OwnerStrings,
        need: u8,
    ) -> Option<(Interval, Depths)> {
        self.ask(start, strings, need);
        None
    }

    fn note(&mut self, start: &TrickStart, depths: Depths, interval: Interval) {
        self.tell(start, &OwnerStrings::of(start), depths, interval);
    }

    fn lead_history(&self, start: &Position, strings: &OwnerStrings) -> LeadHistory {
        history_of(start.first(), strings)
    }

    fn note_lead(&mut self, start: &Position, strings: &OwnerStrings, lead: Suit) {
        self.tell_lead(start, start.first(), strings, lead);
    }
}

// The same, and it takes starts by relative ranks.
#[derive(Drop)]
struct TakesRelative {
    watch: Watch,
}

impl Bounds for TakesRelative {
    ghost tells = { λ table p depths interval. ⊥ };

    ghost holds = { λ table p depths interval q told. absurd told };

    fn takes_relative_starts(&self) -> bool {
        true
    }

    fn look(&mut self, start: &TrickStart) -> Option<(Interval, Depths)> {
        self.watch.ask(start, &OwnerStrings::of(start), 0);
        None
    }

    fn settle(
        &mut self,
        start: &TrickStart,
        strings: &OwnerStrings,
        need: u8,
    ) -> Option<(Interval, Depths)> {
        self.watch.ask(start, strings, need);
        None
    }

    fn note(&mut self, start: &TrickStart, depths: Depths, interval: Interval) {
        self.watch
            .tell(start, &OwnerStrings::of(start), depths, interval);
    }

    fn lead_history(&self, start: &Position, strings: &OwnerStrings) -> LeadHistory {
        history_of(start.first(), strings)
    }

    fn note_lead(&mut self, start: &Position, strings: &OwnerStrings, lead: Suit) {
        self.watch.tell_lead(start, start.first(), strings, lead);
    }

    fn lead_history_of(
        &self,
        _start: &Position,
        leader: Seat,
        strings: &OwnerStrings,
    ) -> LeadHistory {
        history_of(leader, strings)
    }

    fn note_lead_of(&mut self, start: &Position, leader: Seat, strings: &OwnerStrings, lead: Suit) {
        self.watch.tell_lead(start, leader, strings, lead);
    }
}

// Whether a search within this budget is ended by it, and its ticks.
fn ended<T: Bounds>(start: &TrickStart, most: u64, table: &mut T) -> (bool, u64) {
    let mut budget = Budget::new(most);
    let is_spent = start_value(start, table, &mut budget).is_err();
    (is_spent, budget.ticks())
}

// Is a table asked and told the same in both forms of a search within this budget? How many starts that are not the deal's each form
// showed: first the own form.
fn others_of(start: &TrickStart, most: u64) -> Option<[u64; 2]> {
    let mut own = Watch::of(start);
    let mut relative = TakesRelative {
        watch: Watch::of(start),
    };
    let own_end = ended(start, most, &mut own);
    let relative_end = ended(start, most, &mut relative);
    let is_alike = own_end == relative_end
        && own.asked == relative.watch.asked
        && own.digest == relative.watch.digest;
    // Each question had its own tick before.
    if is_alike && own.asked <= own_end.1 {
        Some([own.others, relative.watch.others])
    } else {
        None
    }
}

// Budgets that end in the first three tricks, and some that end later. A table is asked of starts of the deal alone, unless it says that
// it takes others: there are such in most searches of more than three tricks, and none in others. The first question, which comes after two
// ticks, is of the deal's start in either form.
#[test]
fn both_forms_of_a_search_ask_their_table_alike(rt: HostRuntime) {
    let mut state = 7;
    let mut with_few = 0u64;
    let mut with_more = 0u64;
    for number in 0..40u64 {
        let tricks = 2 + number % 8;
        let start = drawn(&mut state, tricks).expect(&rt, "a start");
        for most in [0, 1, 2, 3, 4, 5, 6, 7, 8, 9, 10, 11, 50, 200, 2_000] {
            let others = others_of(&start, most);
            assert!(rt;
                others.is_some_and(|others| others[0] == 0),
                "start {number}, budget {most}"
            );
            if others.is_some_and(|others| others[1] > 0) {
                assert!(rt; most > 2, "start {number}");
                if tricks > 3 {
                    with_more = with_more.saturating_add(1);
                } else {
                    with_few = with_few.saturating_add(1);
                }
            }
        }
    }
    assert!(rt; with_few == 0 && with_more > 100, "{with_few}, {with_more}");
}

// A start of so many cards a hand where the leader has the king of a suit, another card of it so far below, at least the four, and the
// two: an opponent has the ace, a drawn hand the three, and what is between the first two is played. The rest is drawn.
fn with_equals_apart(state: &mut u64, cards: u64, apart: u64) -> Option<TrickStart> {
    let suit = Suit::from_code((below(state, 4) % 4) as u8)?;
    let first = below(state, 4) % 4;
    let opponent = (first + 1 + 2 * (below(state, 2) % 2)) % 4;
    let third = (first + 1 + below(state, 3) % 3) % 4;
    let low = 13u64.saturating_sub(apart);
    let mut hands = Hands::new();
    let mut left = [cards; 4];
    for (code, number) in [
        (13, first),
        (low, first),
        (2, first),
        (3, third),
        (14, opponent),
    ] {
        let rank = Rank::from_code((code % 15) as u8)?;
        let seat = number as usize % 4;
        left[seat] = left[seat].saturating_sub(1);
        hands.insert(Seat::from_code(seat as u8)?, Card { suit, rank });
    }
    let mut wanted = cards.saturating_mul(4).saturating_sub(5);
    // The ace, from the lower one to the king, the three and the two are no choice.
    let mut others = 48u64.saturating_sub(apart);
    for number in 0..52u64 {
        let card = card_of(number)?;
        let code = card.rank.code() as u64;
        if card.suit != suit || code > 3 && code < low {
            if below(state, others) < wanted {
                let seat = seat_with_room(state, &left)? % 4;
                wanted = wanted.saturating_sub(1);
                left[seat] = left[seat].saturating_sub(1);
                hands.insert(Seat::from_code(seat as u8)?, card);
            }
            others = others.saturating_sub(1);
        }
    }
    let strain = Strain::from_code((below(state, 5) % 5) as u8)?;
    let leader = Seat::from_code(first as u8)?;
    let position = Position::new(hands, strain, leader, &[]).ok()?;
    TrickStart::of(&position)
}

// The order in which leads are tried, by the starts that are asked of: rank by rank as the deal has them, and by groups of relative
// ranks. A card with an equal below it looks better where the leader has the next card after an opponent's highest. The equal lies one to
// nine ranks below the king.
#[test]
fn both_forms_lead_the_same_where_equal_ranks_lie_apart(rt: HostRuntime) {
    let mut state = 58;
    for apart in 1..10u64 {
        for number in 0..12u64 {
            let start = with_equals_apart(&mut state, 7 + number % 2, apart).expect(&rt, "a start");
            for most in [3, 6, 12, 40, 400] {
                assert!(rt;
                    others_of(&start, most).is_some(),
                    "{apart} apart, start {number}, budget {most}"
                );
            }
        }
    }
}

// Behind a cache too, which asks it from ten tricks on.
#[test]
fn a_table_behind_a_cache_is_asked_of_starts_of_the_deal(
    rt: HostRuntime,
) -> Result<(), AllocError> {
    let mut state = 13;
    let mut shown = 0u64;
    for number in 0..4u64 {
        let start = drawn(&mut state, 10 + number % 3).expect(&rt, "a start");
        let mut own = Cache::new(rt.alloc(), Watch::of(&start))?;
        let watch = Watch::of(&start);
        let mut relative = Cache::new(rt.alloc(), TakesRelative { watch })?;
        let ends = [
            ended(&start, 5_000, &mut own),
            ended(&start, 5_000, &mut relative),
        ];
        assert_eq!(rt; ends[0], ends[1], "start {number}");
        assert!(rt;
            own.behind().asked > 0 && own.behind().others == 0,
            "start {number}"
        );
        assert!(rt;
            own.behind().digest == relative.behind().watch.digest,
            "start {number}"
        );
        shown = shown.saturating_add(relative.behind().watch.others);
    }
    assert!(rt; shown > 0);
    Ok(())
}
