use crate::rows::{is_bar, is_line_feed, number, word};
use dd_bounds::{Bounds, Endless, NoTable, ProbeHint};
use dd_cache::Cache;
use dd_cards::{Seat, Strain, Suit};
use dd_pbn::read_deal;
use dd_play::{Interval, Position, TrickStart};
use dd_rank::{OwnerStrings, Shape};
use dd_search::start_value;
use std::alloc::AllocError;
use std::process::Abort;

// The deal at notrump, with the hand on lead with which it begins, North's or East's.
fn start(deal: &[u8]) -> Option<TrickStart> {
    let hands = read_deal(deal).ok()?;
    let first = if deal.first() == Some(&b'E') {
        Seat::East
    } else {
        Seat::North
    };
    let position = Position::new(hands, Strain::Notrump, first, &[]).ok()?;
    TrickStart::of(&position)
}

// Finds the value over the table, and notes it with its depths.
fn noted<T: Bounds>(table: &mut T, start: &TrickStart) -> Option<u8> {
    let (tricks, depths) = start_value(start, table, &mut Endless).ok()?;
    let interval = Interval {
        lo: tricks,
        hi: tricks,
    };
    table.note(start, depths, interval);
    Some(tricks)
}

// Notes that the value is no more than it is, with its depths.
fn noted_above<T: Bounds>(table: &mut T, start: &TrickStart) -> Option<u8> {
    let (tricks, depths) = start_value(start, &mut NoTable, &mut Endless).ok()?;
    let interval = Interval { lo: 0, hi: tricks };
    table.note(start, depths, interval);
    Some(tricks)
}

// Notes that the value, which does, lies between these, with its depths.
fn noted_between<T: Bounds>(table: &mut T, start: &TrickStart, lo: u8, hi: u8) -> Option<bool> {
    let (tricks, depths) = start_value(start, &mut NoTable, &mut Endless).ok()?;
    if tricks < lo || hi < tricks {
        return None;
    }
    table.note(start, depths, Interval { lo, hi });
    Some(true)
}

// A lead of this suit settled the start, of which the value is then noted.
fn settled_by<T: Bounds>(table: &mut T, start: &TrickStart, lead: Suit) -> Option<u8> {
    noted(table, start)?;
    table.note_lead(start.position(), &OwnerStrings::of(start), lead);
    noted(table, start)
}

fn digit(number: u8) -> u8 {
    number.wrapping_add(b'0')
}

// The bounds with which the table settles whether the value reaches the need, and how many spades they rest on, a digit each.
fn settled<T: Bounds>(table: &mut T, start: &TrickStart, need: u8) -> Option<[u8; 3]> {
    let (interval, depths) = table.settle(start, &OwnerStrings::of(start), need)?;
    Some([
        digit(interval.lo),
        digit(interval.hi),
        digit(depths.of(Suit::Spades)),
    ])
}

// Does it settle that with these bounds, or these and so many spades, or not at all?
fn settles<T: Bounds>(table: &mut T, start: &TrickStart, need: u8, want: &[u8]) -> bool {
    match settled(table, start, need) {
        Some(found) if want == b"some".as_slice() => found.len() == 3,
        Some(found) => want == found.as_slice() || want == &found[..2],
        None => want == b"none".as_slice(),
    }
}

fn letter(lead: Option<Suit>) -> u8 {
    match lead {
        Some(Suit::Spades) => b's',
        Some(Suit::Hearts) => b'h',
        Some(Suit::Diamonds) => b'd',
        Some(Suit::Clubs) => b'c',
        None => b'-',
    }
}

// Are these the suits of leads that are remembered for the start: by shape, by outline, and by leader and number of tricks?
fn remembers<T: Bounds>(table: &T, start: &TrickStart, want: &[u8]) -> bool {
    let leads = table.lead_history(start.position(), &OwnerStrings::of(start));
    let found = [
        letter(leads.of_shape),
        letter(leads.of_outline),
        letter(leads.of_leader),
    ];
    found.as_slice() == want
}

// Does to the table what a row says before its bar, with the deal after it, and tells whether it found what the row has. Rows:
// `notes VALUE`, `bounds VALUE` (0 to the value), `between LO HI` (bounds of the value), `hearts` and `spades` (a lead that settled it), `begins`; `settles NEED BOUNDS`
// and `leads SUITS`.
fn holds<T: Bounds>(table: &mut T, row: &[u8]) -> Option<bool> {
    let mut parts = row.split(is_bar);
    let words = parts.next()?;
    let start = start(parts.next()?)?;
    let (what, want) = (word(words, 0), word(words, 1));
    if what == b"notes".as_slice() {
        Some(noted(table, &start)? == number(want))
    } else if what == b"bounds".as_slice() {
        Some(noted_above(table, &start)? == number(want))
    } else if what == b"between".as_slice() {
        noted_between(table, &start, number(want), number(word(words, 2)))
    } else if what == b"hearts".as_slice() {
        Some(settled_by(table, &start, Suit::Hearts).is_some())
    } else if what == b"spades".as_slice() {
        Some(settled_by(table, &start, Suit::Spades).is_some())
    } else if what == b"begins".as_slice() {
        table.begin(start.position());
        Some(true)
    } else if what == b"settles".as_slice() {
        Some(settles(table, &start, number(want), word(words, 2)))
    } else if what == b"leads".as_slice() {
        Some(remembers(table, &start, want))
    } else {
        None
    }
}

// Follows rows on a table. They are one text, so that the proof does not grow with them.
fn follow<T: Bounds>(rt: &impl Abort, table: &mut T, rows: &[u8]) {
    for row in rows.split(is_line_feed) {
        assert!(rt; holds(table, row) == Some(true), "at {row:?}");
    }
}

// .. on a new cache
fn follow_alone<R: AllocGlobal + Abort>(rt: &R, rows: &[u8]) -> Result<(), AllocError> {
    let mut cache = Cache::new(rt.alloc(), NoTable)?;
    follow(rt, &mut cache, rows);
    Ok(())
}

// .. on a new cache, and then others on the one behind it
fn follow_both<R: AllocGlobal + Abort>(
    rt: &R,
    rows: &[u8],
    behind: &[u8],
) -> Result<(), AllocError> {
    let near = Cache::new(rt.alloc(), NoTable)?;
    let mut cache = Cache::new(rt.alloc(), near)?;
    follow(rt, &mut cache, rows);
    follow(rt, cache.behind(), behind);
    Ok(())
}

// It has learned nothing, and the king before ace and queen is caught: that rests on ace, king and queen. It is told of a deal
// with other cards below the queen and of all seats turned by one. The king behind ace and queen is not caught.
#[test]
fn what_was_noted_settles_the_positions_that_it_covers(rt: HostRuntime) -> Result<(), AllocError> {
    let rows = b"settles 2 none|N:32... K4... AQ... 65...\n\
        notes 2|N:32... K4... AQ... 65...\n\
        settles 2 223|N:32... K4... AQ... 65...\n\
        settles 2 22|N:62... K3... AQ... 54...\n\
        settles 2 22|E:32... K4... AQ... 65...\n\
        settles 2 none|N:32... 65... AQ... K4...";
    follow_alone(&rt, rows)
}

#[test]
fn what_was_read_ahead_settles_as_a_look_does(rt: HostRuntime) -> Result<(), AllocError> {
    let mut cache = Cache::new(rt.alloc(), NoTable)?;
    let caught = start(b"N:32... K4... AQ... 65...").expect(&rt, "two cards a hand");
    let shape = Shape::of(&caught);
    // Nothing stands there: a hint says so, and what is read ahead doesn't look.
    let empty = [cache.probe_hint(shape), cache.probe_ahead(shape)];
    assert_eq!(rt; empty.map(|hint| hint.has_shape), [false, true]);
    assert_eq!(rt; empty[0].number, empty[1].number);
    assert!(rt; noted(&mut cache, &caught) == Some(2));
    let strings = OwnerStrings::of(&caught);
    let ahead = cache.probe_ahead(shape);
    let place = cache.probe_hint(shape);
    assert_eq!(rt; (place.number, place.has_shape), (ahead.number, true));
    let found = [
        cache.settle_at(&caught, &strings, place, 2).is_some(),
        cache.settle_at(&caught, &strings, ahead, 2).is_some(),
        // Any place is right: where nothing stands nothing is told.
        cache
            .settle_at(&caught, &strings, ProbeHint::default(), 2)
            .is_some(),
        NoTable
            .settle_at(&caught, &strings, NoTable.probe_hint(shape), 2)
            .is_some(),
    ];
    assert_eq!(rt; found, [true, true, false, false]);
    Ok(())
}

#[test]
fn what_is_noted_reaches_the_table_behind(rt: HostRuntime) -> Result<(), AllocError> {
    let rows = b"notes 2|N:32... K4... AQ... 65...";
    follow_both(&rt, rows, b"settles 2 some|N:32... K4... AQ... 65...")
}

// A suit in each hand: North takes all tricks.
#[test]
fn the_value_of_one_trick_is_kept_nowhere(rt: HostRuntime) -> Result<(), AllocError> {
    let rows = b"notes 1|N:A... .A.. ..A. ...A\n\
        settles 1 none|N:A... .A.. ..A. ...A";
    follow_both(&rt, rows, b"settles 1 none|N:A... .A.. ..A. ...A")?;
    let rows = b"notes 2|N:AK... .AK.. ..AK. ...AK\n\
        settles 2 some|N:AK... .AK.. ..AK. ...AK";
    follow_both(&rt, rows, b"settles 2 some|N:AK... .AK.. ..AK. ...AK")
}

// Each is kept, and the bounds leave the value itself open.
#[test]
fn bounds_of_ten_tricks_reach_the_table_behind_and_of_nine_do_not(
    rt: HostRuntime,
) -> Result<(), AllocError> {
    let rows = b"bounds 9|N:AKQJT9876... .AKQJT9876.. ..AKQJT9876. ...AKQJT9876\n\
        settles 10 some|N:AKQJT9876... .AKQJT9876.. ..AKQJT9876. ...AKQJT9876\n\
        settles 9 none|N:AKQJT9876... .AKQJT9876.. ..AKQJT9876. ...AKQJT9876\n\
        bounds 10|N:AKQJT98765... .AKQJT98765.. ..AKQJT98765. ...AKQJT98765\n\
        settles 11 some|N:AKQJT98765... .AKQJT98765.. ..AKQJT98765. ...AKQJT98765\n\
        settles 10 none|N:AKQJT98765... .AKQJT98765.. ..AKQJT98765. ...AKQJT98765";
    let behind = b"settles 10 none|N:AKQJT9876... .AKQJT9876.. ..AKQJT9876. ...AKQJT9876\n\
        settles 11 some|N:AKQJT98765... .AKQJT98765.. ..AKQJT98765. ...AKQJT98765";
    follow_both(&rt, rows, behind)
}

// Bounds of 0 to 3, and then 3 to 3: the wider ones are gone.
#[test]
fn narrower_bounds_take_the_place_of_wider_ones(rt: HostRuntime) -> Result<(), AllocError> {
    let rows = b"bounds 3|N:AKQ... .AKQ.. ..AKQ. ...AKQ\n\
        settles 3 none|N:AKQ... .AKQ.. ..AKQ. ...AKQ\n\
        notes 3|N:AKQ... .AKQ.. ..AKQ. ...AKQ\n\
        settles 3 33|N:AKQ... .AKQ.. ..AKQ. ...AKQ\n\
        settles 4 33|N:AKQ... .AKQ.. ..AKQ. ...AKQ";
    follow_alone(&rt, rows)
}

// The first bounds give way to narrower ones, and others stand beside these. Their positions are those of a shape: they rest on no card's
// rank. Wider ones that come then take the place of none.
#[test]
fn bounds_beside_others_are_kept_when_more_come(rt: HostRuntime) -> Result<(), AllocError> {
    let rows = b"between 0 5|N:AK... .AK.. ..AK. ...AK\n\
        between 0 2|N:AK... .AK.. ..AK. ...AK\n\
        between 2 5|N:AK... .AK.. ..AK. ...AK\n\
        settles 3 020|N:AK... .AK.. ..AK. ...AK\n\
        settles 2 250|N:AK... .AK.. ..AK. ...AK\n\
        between 0 9|N:AK... .AK.. ..AK. ...AK\n\
        settles 3 020|N:AK... .AK.. ..AK. ...AK\n\
        settles 2 250|N:AK... .AK.. ..AK. ...AK";
    follow_alone(&rt, rows)
}

// After the deal itself: one in which the ace is North's, which has its shape; one in which East has no spade, and North's
// lengths and the holders of the highest cards are the same; one with neither; and one with another number of tricks left.
#[test]
fn a_lead_is_remembered_by_shape_by_outline_and_by_leader(
    rt: HostRuntime,
) -> Result<(), AllocError> {
    let rows = b"leads ---|N:32... K.4.. AQ... 65...\n\
        hearts|N:32... K.4.. AQ... 65...\n\
        leads hhh|N:32... K.4.. AQ... 65...\n\
        leads h-h|N:A2... K.4.. Q3... 65...\n\
        leads -hh|N:32... .54.. AQ... 65...\n\
        leads --h|N:A2... .54.. Q3... 65...\n\
        leads ---|N:A... .4.. Q... 6...";
    follow_alone(&rt, rows)
}

// A position of the deal itself, one later in it and one earlier forget nothing; one of another deal does.
#[test]
fn another_deal_forgets_the_leads(rt: HostRuntime) -> Result<(), AllocError> {
    let rows = b"spades|N:32... K.4.. AQ... 65...\n\
        begins|N:32... K.4.. AQ... 65...\n\
        leads sss|N:32... K.4.. AQ... 65...\n\
        begins|N:3... .4.. Q... 6...\n\
        leads sss|N:32... K.4.. AQ... 65...\n\
        begins|N:432... KT.4.. AQJ... 765...\n\
        leads sss|N:32... K.4.. AQ... 65...\n\
        begins|N:72... K.4.. AQ... 65...\n\
        leads ---|N:32... K.4.. AQ... 65...";
    follow_alone(&rt, rows)
}
