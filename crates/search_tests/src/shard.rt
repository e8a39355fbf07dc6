ghost use Rattle.std.specs.Prelude.{◌≡◌, ◌≤◌, IsTrue, IfSome};
ghost use Rattle.dd_play.specs.Value.{leaders_tricks};
ghost use Rattle.dd_play.specs.Intervals.{Holds};
ghost use Rattle.dd_play.specs.Deals.{spades, deal};

use crate::rows::{is_line_feed, is_space};
use dd_cards::{Card, Hand, Hands, Rank, Seat, Strain, Suit};
use dd_play::{Interval, Position, TrickStart, worked_deals};
use dd_rank::Depths;
use dd_shard::Shard;
use std::alloc::AllocError;
use std::process::Abort;
use std::test::Fail;

// The spade of this letter.
fn spade(letter: u8) -> Option<Card> {
    let place = b"23456789TJQKA".iter().position(|other| *other == letter)?;
    let rank = Rank::from_code(place as u8 + 2)?;
    let suit = Suit::Spades;
    Some(Card { suit, rank })
}

// The start of a trick with spades of these letters, dealt to North, East, South, West and North again.
fn start(letters: &[u8], strain: Strain, first: Seat) -> Option<TrickStart>
    ensures { IfSome result (λ start. (start.strain ≡ strain) × (start.first ≡ first)) }
{
    let mut hands = Hands::new();
    for (place, letter) in letters.iter().enumerate() {
        let seat = Seat::from_code((place % 4) as u8)?;
        hands.insert(seat, spade(*letter)?);
    }
    let position = Position::new(hands, strain, first, &[]).ok()?;
    TrickStart::of(&position)
}

// .. at notrump, led by North
fn deal_at(rt: &impl Abort, letters: &[u8]) -> TrickStart
    ensures { (result.strain ≡ Strain.Notrump) × (result.first ≡ Seat.North) }
{
    start(letters, Strain::Notrump, Seat::North).expect(rt, "a position")
}

// Are the cards the spades of these ranks, in this order?
fn are_spades(hand: Hand, ranks: &[u8]) -> bool
    ensures { IsTrue result → hand ≡ spades ranks.now }
{
    let mut rest = hand;
    for rank in ranks {
        let Some(card) = rest.pop_first() else {
            return false;
        };
        if card.suit.code() != 0 || card.rank.code() != *rank {
            return false;
        }
    }
    rest.is_empty()
}

// Has each hand the spades of these ranks and nothing else?
fn is_deal(start: &TrickStart, north: &[u8], east: &[u8], south: &[u8], west: &[u8]) -> bool
    ensures { IsTrue result
        → start.now ≡ deal (spades north.now) (spades east.now) (spades south.now)
        (spades west.now) start.now.strain start.now.first }
{
    let hands = start.position().hands();
    are_spades(hands.hand(Seat::North), north)
        && are_spades(hands.hand(Seat::East), east)
        && are_spades(hands.hand(Seat::South), south)
        && are_spades(hands.hand(Seat::West), west)
}

// N:32 K4 AQ 65. A king before the ace and queen is caught.
fn caught_king(rt: &impl Abort) -> TrickStart
    ensures { leaders_tricks result ≡ 2 }
{
    worked_deals();
    let start = deal_at(rt, b"3KA624Q5");
    assert!(rt; is_deal(&start, &[3, 2], &[13, 4], &[14, 12], &[6, 5]));
    start
}

// N:32 65 AQ K4. A king behind the ace and queen is not.
fn safe_king(rt: &impl Abort) -> TrickStart
    ensures { leaders_tricks result ≡ 1 }
{
    worked_deals();
    let start = deal_at(rt, b"36AK25Q4");
    assert!(rt; is_deal(&start, &[3, 2], &[6, 5], &[14, 12], &[13, 4]));
    start
}

// N:A K Q J. An ace takes its trick.
fn ace(rt: &impl Abort) -> TrickStart
    ensures { leaders_tricks result ≡ 1 }
{
    worked_deals();
    let start = deal_at(rt, b"AKQJ");
    assert!(rt; is_deal(&start, &[14], &[13], &[12], &[11]));
    start
}

fn bounds(lo: u8, hi: u8) -> Interval
    requires { lo ≤ hi }
    ensures { (result.lo ≡ lo) × (result.hi ≡ hi) }
{
    match Interval::new(lo, hi) {
        Some(interval) => interval,
        None => unreachable!(),
    }
}

// Notes bounds of the value at the depths of all cards: covered positions are alike, and have that value too.
fn note_value(shard: &mut Shard, start: &TrickStart, bounds: Interval) -> Result<(), AllocError>
    requires { Holds bounds (leaders_tricks start.now) }
{
    let _ = start.position();
    shard.note(start, Depths::full(start), bounds)
}

// Notes that the leader's side takes no more tricks than are left, at depths down to this spade, or at none.
fn note_most(shard: &mut Shard, start: &TrickStart, letter: u8) -> Result<(), AllocError> {
    let left = start.position().tricks_left();
    let cards = match spade(letter) {
        Some(card) => Hand::new().with(card),
        None => Hand::new(),
    };
    shard.note(start, Depths::of_cards(start, cards), bounds(0, left))
}

// Notes these bounds, if the value of the position lies within them.
fn note_known(
    shard: &mut Shard,
    start: &TrickStart,
    value: u8,
    lo: u8,
    hi: u8,
) -> Result<bool, AllocError>
    requires { leaders_tricks start.now ≡ value }
{
    if value < lo || hi < value {
        return Ok(false);
    }
    note_value(shard, start, bounds(lo, hi))?;
    Ok(true)
}

// .. of the position of this name
fn note_named(
    rt: &impl Abort,
    shard: &mut Shard,
    name: &[u8],
    lo: u8,
    hi: u8,
) -> Result<bool, AllocError> {
    if name == b"caught_king".as_slice() {
        note_known(shard, &caught_king(rt), 2, lo, hi)
    } else if name == b"safe_king".as_slice() {
        note_known(shard, &safe_king(rt), 1, lo, hi)
    } else if name == b"ace".as_slice() {
        note_known(shard, &ace(rt), 1, lo, hi)
    } else {
        Ok(false)
    }
}

fn digit(number: u8) -> u8 {
    number.wrapping_add(b'0')
}

// Is this told of a position: a digit each for the bounds and for the depths of four suits?
fn tells(shard: &mut Shard, start: &TrickStart, want: &[u8]) -> bool {
    let Some((bounds, depths)) = shard.look(start) else {
        return want == b"nothing".as_slice();
    };
    let found = [
        digit(bounds.lo),
        digit(bounds.hi),
        digit(depths.of(Suit::Spades)),
        digit(depths.of(Suit::Hearts)),
        digit(depths.of(Suit::Diamonds)),
        digit(depths.of(Suit::Clubs)),
    ];
    found.as_slice() == want
}

// The number that these digits write.
fn number(digits: &[u8]) -> u16 {
    let mut number: u16 = 0;
    for digit in digits {
        number = number
            .wrapping_mul(10)
            .wrapping_add(digit.wrapping_sub(b'0') as u16);
    }
    number
}

// Has the newest pair at a place these spades of West, and a digit each for the bounds and the depth of spades? The DDS
// manual writes 65 as 96, 54 as 48, K4 as 8208 and the jack as 2048.
fn lists(shard: &Shard, place: u32, west: &[u8], want: &[u8]) -> bool {
    let Some((start, depths, bounds)) = shard.entry(place) else {
        return want == b"nothing".as_slice();
    };
    let spades = start.position().hands().holding(Seat::West, Suit::Spades);
    let found = [
        digit(bounds.lo),
        digit(bounds.hi),
        digit(depths.of(Suit::Spades)),
    ];
    spades.mask() == number(west) && found.as_slice() == want
}

// The position that a row names: its leader, a colon at notrump and a stroke at hearts, and the spades' letters.
fn position(text: &[u8]) -> Option<TrickStart> {
    let [leader, trumps, letters @ ..] = text else {
        return None;
    };
    let first = if *leader == b'E' {
        Seat::East
    } else {
        Seat::North
    };
    let strain = if *trumps == b':' {
        Strain::Notrump
    } else {
        Strain::Trump(Suit::Hearts)
    };
    start(letters, strain, first)
}

// Notes or looks up a position, as a row asks.
fn asks(
    rt: &impl Abort,
    shard: &mut Shard,
    what: &[u8],
    subject: &[u8],
    want: &[u8],
) -> Result<bool, AllocError> {
    let first = want.first().copied().unwrap_or(0);
    if what == b"value".as_slice() {
        let last = want.last().copied().unwrap_or(0);
        return note_named(
            rt,
            shard,
            subject,
            first.wrapping_sub(b'0'),
            last.wrapping_sub(b'0'),
        );
    }
    let Some(start) = position(subject) else {
        return Ok(false);
    };
    if what == b"most".as_slice() {
        note_most(shard, &start, first)?;
        return Ok(true);
    }
    Ok(what == b"told".as_slice() && tells(shard, &start, want))
}

// Does what a row says; false where the shard tells something else than the row. Notes are `most POSITION LETTER` and
// `value NAME BOUNDS`, questions `told POSITION WANT`, `listed PLACE WANT WEST` and `shapes LEN LIMIT`; what follows says why.
fn follows(rt: &impl Abort, shard: &mut Shard, row: &[u8]) -> Result<bool, AllocError> {
    let mut words = row.split(is_space);
    let what = words.next().unwrap_or(&[]);
    let subject = words.next().unwrap_or(&[]);
    let want = words.next().unwrap_or(&[]);
    if what == b"shapes".as_slice() {
        let (len, limit) = (number(subject), number(want));
        return Ok(shard.len() == len as u32 && shard.limit() == limit as u32);
    }
    if what == b"listed".as_slice() {
        let west = words.next().unwrap_or(&[]);
        return Ok(lists(shard, number(subject) as u32, west, want));
    }
    asks(rt, shard, what, subject, want)
}

// Follows rows on a new shard. They are one text, so that the proof does not grow with them.
fn follow(rt: &impl Abort, mut shard: Shard, rows: &[u8]) -> Result<(), AllocError> {
    for row in rows.split(is_line_feed) {
        assert!(rt; follows(rt, &mut shard, row)?, "at {row:?}");
    }
    Ok(())
}

#[test]
fn a_pair_tells_of_each_position_with_the_same_high_cards(rt: HostRuntime) -> Result<(), Fail> {
    let rows = b"most N:3KA624Q5 Q\n\
        told N:3KA624Q5 023000 the position itself\n\
        told N:6KA523Q4 023000 other low cards\n\
        told N:3KA62Q45 nothing the queen is East's\n\
        told N:36AK25Q4 nothing the king is West's\n\
        told E:534A62KQ 023000 all seats turned\n\
        value safe_king 11\n\
        shapes 1 1 one shape\n\
        told N:3KA624Q5 023000 the older pair\n\
        told N:36AK25Q4 118000 the newer pair\n\
        listed 0 118 8208\n\
        listed 1 nothing";
    follow(&rt, Shard::new(rt.alloc(), 1)?, rows)?;
    Ok(())
}

#[test]
fn bounds_at_the_same_cover_meet(rt: HostRuntime) -> Result<(), Fail> {
    let rows = b"most N:3KA624Q5 2\n\
        told N:3KA624Q5 028000\n\
        value caught_king 12\n\
        told N:3KA624Q5 128000\n\
        value caught_king 25\n\
        told N:3KA624Q5 228000 2 to 2 alone is in all three\n\
        most N:6KA524Q3 Q\n\
        listed 0 023 40 another cover is another pair\n\
        told N:3KA624Q5 023000 the newest that covers\n\
        most N:3KA624Q5 Q\n\
        listed 0 023 96 the same cover of another position";
    follow(&rt, Shard::new(rt.alloc(), 1)?, rows)?;
    Ok(())
}

#[test]
fn a_ninth_pair_drops_the_oldest(rt: HostRuntime) -> Result<(), Fail> {
    let rows = b"most N:3KA624Q5 -\n\
        most N:3KA624Q5 A\n\
        told N:AK3624Q5 020000\n\
        most N:3KA624Q5 K\n\
        told N:AK3624Q5 020000\n\
        most N:3KA624Q5 Q\n\
        told N:AK3624Q5 020000\n\
        most N:3KA624Q5 6\n\
        told N:AK3624Q5 020000\n\
        most N:3KA624Q5 5\n\
        told N:AK3624Q5 020000\n\
        most N:3KA624Q5 4\n\
        told N:AK3624Q5 020000\n\
        most N:3KA624Q5 3\n\
        told N:AK3624Q5 020000\n\
        most N:3KA624Q5 2\n\
        told N:AK3624Q5 nothing the first of nine\n\
        told N:3QA624K5 021000 the second\n\
        shapes 1 1";
    follow(&rt, Shard::new(rt.alloc(), 1)?, rows)?;
    Ok(())
}

#[test]
fn the_last_used_shape_stands_first_and_the_last_goes(rt: HostRuntime) -> Result<(), Fail> {
    let rows = b"shapes 0 2\n\
        value caught_king 22\n\
        value ace 11\n\
        listed 0 114 2048\n\
        listed 1 228 96\n\
        told N/3KA624Q5 nothing another strain\n\
        told N:36AK25Q4 nothing a shape that is known, and no cover\n\
        listed 0 228 96 a look is a use\n\
        most N/3KA624Q5 A\n\
        listed 0 021 96\n\
        told N:AKQJ nothing it went where the list was full\n\
        told N:3KA624Q5 228000\n\
        shapes 2 2";
    follow(&rt, Shard::new(rt.alloc(), 2)?, rows)?;
    Ok(())
}

#[test]
fn a_note_of_a_shape_that_is_there_succeeds(rt: HostRuntime) -> Result<(), Fail> {
    let Ok(mut shard) = Shard::new(rt.alloc(), 2) else {
        return Ok(());
    };
    let a = caught_king(&rt);
    if note_most(&mut shard, &a, b'2').is_err() {
        assert!(rt; shard.len() == 0);
        return Ok(());
    }
    let place = match note_known(&mut shard, &ace(&rt), 1, 1, 1) {
        Ok(_) => 1,
        Err(_) => 0,
    };
    assert!(rt; shard.len() == place + 1);
    assert!(rt; lists(&shard, place, b"96", b"028"));
    let again = note_known(&mut shard, &a, 2, 1, 2);
    assert!(rt; again.ok() == Some(true), "its shape is known");
    assert!(rt; lists(&shard, 0, b"96", b"128"));
    Ok(())
}
