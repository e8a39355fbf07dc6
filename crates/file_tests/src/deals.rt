//! Files whose deals are searched, and what is said of those that are left.
use super::devices::{Pieces, Taker};
use super::files::{ONE_LINE, begins_with};
use dd_bounds::NoTable;
use dd_cache::Cache;
use dd_file::Wanted;
use dd_fill::fill_deals;
use dd_lines::CountedDevice;
use dd_solve::DoubleDummy;
use std::alloc::Global;
use std::sync::Wait;
use std::thread::Threads;

// A suit in each hand: with its own suit as trumps a side takes all tricks, and at notrump the side that leads does.
pub(crate) const SUITS: &[u8] =
    br#"[Dealer "N"][Vulnerable "None"][Deal "N:AKQJT98765432... .AKQJT98765432.. ..AKQJT98765432. ...AKQJT98765432"]"#;

// Seven spades can't be bettered: seven notrump doubled costs East and West 3,500.
pub(crate) const ADDED: &[u8] =
    b"\n[DoubleDummyTricks \"0d0d00d0d000d0d00d0d\"]\n[OptimumScore \"NS 1510\"]\n[ParContract \"NS 7S=\"]\n";

// What is written for a file, and what is said of its games.
#[derive(Drop)]
struct Outcome {
    file: Vec<u8>,
    notes: Vec<u8>,
}

// The outcome for a file without other threads, where each search has this budget. `None` where memory ran out.
fn fill<W: Threads + Wait + Sync>(
    rt: &W,
    alloc: Global,
    file: &[u8],
    budget: Option<u64>,
) -> Option<Outcome> {
    let mut others: [NoTable; 0] = [];
    let mut cache = Cache::new(alloc, NoTable).ok()?;
    let mut reader = CountedDevice::new(Pieces {
        bytes: file,
        most: usize::MAX,
    });
    let mut writer = CountedDevice::new(Taker::new(alloc));
    let mut errors = CountedDevice::new(Taker::new(alloc));
    let mut buffer = [0; 4_096];
    fill_deals(
        rt,
        alloc,
        Wanted::ALL,
        &mut reader,
        &mut writer,
        &mut errors,
        false,
        &DoubleDummy,
        &mut cache,
        &mut others,
        budget,
        &mut buffer,
    )
    .ok()?;
    Some(Outcome {
        file: writer.into_inner().taken,
        notes: errors.into_inner().taken,
    })
}

// Does the file come out as it is, and is this said of it?
fn is_left<W: Threads + Wait + Sync>(
    rt: &W,
    alloc: Global,
    file: &[u8],
    budget: Option<u64>,
    note: &[u8],
) -> bool {
    match fill(rt, alloc, file, budget) {
        Some(found) => found.file.as_slice() == file && found.notes.as_slice() == note,
        None => false,
    }
}

// Does the file of a suit in each hand come out with its lines, and is nothing said of it?
fn is_filled<W: Threads + Wait + Sync>(rt: &W, alloc: Global, budget: Option<u64>) -> bool {
    match fill(rt, alloc, SUITS, budget) {
        Some(found) => {
            begins_with(found.file.as_slice(), SUITS, ADDED) && found.notes.is_empty()
        }
        None => false,
    }
}

#[test]
fn the_results_of_a_deal_are_searched_for(rt: HostRuntime) {
    assert!(rt; is_filled(&rt, rt.alloc(), None));
    assert!(rt; is_filled(&rt, rt.alloc(), Some(1_000)));
}

#[test]
fn a_game_that_is_left_is_said_why(rt: HostRuntime) {
    let alloc = rt.alloc();
    assert!(rt;
        is_left(
            &rt,
            alloc,
            ONE_LINE,
            Some(0),
            b"ddserve: game 1 (board ?): spent\n"
        )
    );
    assert!(rt;
        is_left(
            &rt,
            alloc,
            b"[Board \"7\"]\n",
            None,
            b"ddserve: game 1 (board 7): no deal\n"
        )
    );
    assert!(rt;
        is_left(
            &rt,
            alloc,
            b"[Board \"7\"]\n[Deal \"N:A... - - -\"]\n",
            None,
            b"ddserve: game 1 (board 7): deal refused, fault 5: a hand of the deal is left out\n"
        )
    );
}

// It has its results, so nothing is searched for. No byte of the value ends the line, clears it or goes back in it.
#[test]
fn a_value_that_is_not_known_is_said_without_control_bytes(rt: HostRuntime) {
    let file =
        b"[Board \"7\"]\n[Dealer \"No\r\x1b[K\x7fr\x1fth \xff\"]\n[Vulnerable \"None\"]\n[Deal \"N:J6.72.AQ7643.AJ7 Q9842.Q854.T.K42 AT75.AT9.KJ8.T83 K3.KJ63.952.Q965\"]\n[DoubleDummyTricks \"x\"]\n[OptimumResultTable \"x\"]\n";
    let note =
        b"ddserve: game 1 (board 7): no par: Dealer is missing or unknown: No??[K?r?th \xff\n";
    assert!(rt; is_left(&rt, rt.alloc(), file, None, note));
}

#[test]
fn a_board_is_said_without_control_bytes(rt: HostRuntime) {
    let file = b"[Board \"\x1b[2J\r7\x7f\"]\n";
    let note = b"ddserve: game 1 (board ?[2J?7?): no deal\n";
    assert!(rt; is_left(&rt, rt.alloc(), file, None, note));
}

#[test]
fn a_file_without_games_is_said_to_have_none(rt: HostRuntime) {
    let note = b"ddserve: no game was found: the input has no tag of PBN\n";
    for file in [b"".as_slice(), b"words [ without ] a tag\n".as_slice()] {
        assert!(rt; is_left(&rt, rt.alloc(), file, None, note));
    }
}
