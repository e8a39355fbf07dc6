//! Files, and what comes out for them.
use super::devices::{Pieces, Taker};
use dd_cards::Hands;
use dd_file::{Analyst, DealFault, FileFault, Reason, Wanted, fill_file};
use dd_lines::CountedDevice;
use dd_score::Results;
use std::alloc::Global;

// The results of the deal of these files.
const RESULTS: [[u8; 4]; 5] = [
    [7, 6, 7, 6],
    [6, 7, 6, 7],
    [10, 3, 10, 3],
    [7, 6, 7, 6],
    [9, 3, 9, 3],
];

// One line without a line end.
pub(crate) const ONE_LINE: &[u8] =
    br#"[Dealer "N"][Vulnerable "None"][Deal "N:J6.72.AQ7643.AJ7 Q9842.Q854.T.K42 AT75.AT9.KJ8.T83 K3.KJ63.952.Q965"]"#;

// What it begins with when it comes out, from the line feed after it on.
const ADDED: &[u8] =
    b"\n[DoubleDummyTricks \"976a7976a73673636736\"]\n[OptimumScore \"NS 400\"]\n[ParContract \"NS 3NT=\"]\n[OptimumResultTable \"Declarer;Denomination\\2R;Result\\2R\"]\nN NT  9\nN  S  7\nN  H  6\nN  D 10\nN  C  7\n";

// Tells the same results of each deal, or none, and notes the last game that was left.
#[derive(Drop)]
struct Known {
    is_spent: bool,
    asked: u64,
    left: u64,
    game: u64,
    reason: Option<Reason>,
}

impl Known {
    fn new() -> Known {
        Known {
            is_spent: false,
            asked: 0,
            left: 0,
            game: 0,
            reason: None,
        }
    }
}

impl Analyst for Known {
    ghost gives = { λ _ _. Unit {0} };

    ghost State = { Unit {0} };

    ghost state = { λ _. tt };

    ghost way = { λ _ _ _. Unit {0} };

    fn results(&mut self, _deal: &Hands) -> Option<Results> {
        self.asked = self.asked.saturating_add(1);
        if self.is_spent {
            None
        } else {
            Results::new(RESULTS)
        }
    }

    fn passed(&mut self, _games: u64, _bytes: u64) {}

    fn left(&mut self, game: u64, _board: &[u8], reason: Reason, _unknown: &[u8]) {
        self.left = self.left.saturating_add(1);
        self.game = game;
        self.reason = Some(reason);
    }

    fn ended(&mut self, _games: u64) {}
}

// What is written for the file, which is read in pieces of so many bytes at most.
fn filled(
    alloc: Global,
    file: &[u8],
    most: usize,
    known: &mut Known,
) -> Result<Vec<u8>, FileFault> {
    let mut reader = CountedDevice::new(Pieces { bytes: file, most });
    let mut writer = CountedDevice::new(Taker::new(alloc));
    let mut buffer = [0; 4_096];
    fill_file(
        alloc,
        Wanted::ALL,
        &mut reader,
        &mut writer,
        known,
        &mut buffer,
    )?;
    Ok(writer.into_inner().taken)
}

// Why the last game of the file is left, and which one it is.
fn reason_of(alloc: Global, file: &[u8]) -> Option<(u64, Reason)> {
    let mut known = Known::new();
    filled(alloc, file, usize::MAX, &mut known).ok()?;
    let reason = known.reason?;
    Some((known.game, reason))
}

// Does this come out for the file?
fn comes_out(alloc: Global, file: &[u8], most: usize, wanted: &[u8]) -> bool {
    match filled(alloc, file, most, &mut Known::new()) {
        Ok(out) => out.as_slice() == wanted,
        Err(_) => false,
    }
}

// Does the text begin with one part and then another?
pub(crate) fn begins_with(text: &[u8], first: &[u8], second: &[u8]) -> bool {
    match text.strip_prefix(first) {
        Some(rest) => rest.starts_with(second),
        None => false,
    }
}

#[test]
fn the_lines_stand_behind_a_file_of_one_line(rt: HostRuntime) {
    let mut is_right = false;
    if let Ok(out) = filled(rt.alloc(), ONE_LINE, usize::MAX, &mut Known::new()) {
        is_right = begins_with(out.as_slice(), ONE_LINE, ADDED)
            && out.as_slice().ends_with(b"\nW  C  6");
    }
    assert!(rt; is_right);
}

#[test]
fn pieces_of_one_byte_and_a_second_run_change_nothing(rt: HostRuntime) {
    let mut same = false;
    if let Ok(out) = filled(rt.alloc(), ONE_LINE, usize::MAX, &mut Known::new()) {
        same = comes_out(rt.alloc(), ONE_LINE, 1, out.as_slice())
            && comes_out(rt.alloc(), out.as_slice(), usize::MAX, out.as_slice());
    }
    assert!(rt; same);
}

#[test]
fn games_are_left_for_their_reasons(rt: HostRuntime) {
    let alloc = rt.alloc();
    let no_deal = reason_of(alloc, b"[Board \"1\"]\n") == Some((1, Reason::NoDeal));
    let text = reason_of(alloc, b"\n[Deal \"N:A\"]\n")
        == Some((1, Reason::Refused(DealFault::Text)));
    let one_card = reason_of(
        alloc,
        b"[Board \"1\"]\n\n[Deal \"N:A... K... Q... J...\"]\n",
    ) == Some((2, Reason::Refused(DealFault::NotThirteen)));
    let open = reason_of(alloc, b"[Board \"1\"]\n{") == Some((1, Reason::NotClosed));
    assert!(rt; no_deal && text && one_card && open);
}
