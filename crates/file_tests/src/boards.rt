//! What an analyst is told of the Board of a game that is left.
use super::devices::{Pieces, Taker};
use arrayvec::ArrayVec;
use dd_cards::Hands;
use dd_file::{Analyst, FileFault, Reason, Wanted, fill_file};
use dd_lines::CountedDevice;
use dd_score::Results;
use std::alloc::Global;

// The most bytes of a Board that are told.
const TOLD: usize = 32;

// Gives no results, and notes of the games that were left how many they are, and the last one's Board.
#[derive(Drop)]
struct Told {
    left: u64,
    board: ArrayVec<u8, 64>,
}

impl Analyst for Told {
    ghost gives = { λ _ _. Unit {0} };

    ghost State = { Unit {0} };

    ghost state = { λ _. tt };

    ghost way = { λ _ _ _. Unit {0} };

    fn results(&mut self, _deal: &Hands) -> Option<Results> {
        None
    }

    fn passed(&mut self, _games: u64, _bytes: u64) {}

    fn left(&mut self, _game: u64, board: &[u8], _reason: Reason, _unknown: &[u8]) {
        self.left = self.left.saturating_add(1);
        self.board.clear();
        for byte in board {
            let _ = self.board.try_push(*byte);
        }
    }

    fn ended(&mut self, _games: u64) {}
}

// What is told of the file, which is read in pieces of so many bytes at most.
fn told_of(alloc: Global, file: &[u8], most: usize) -> Result<Told, FileFault> {
    let mut told = Told {
        left: 0,
        board: ArrayVec::new(),
    };
    let mut reader = CountedDevice::new(Pieces { bytes: file, most });
    let mut writer = CountedDevice::new(Taker::new(alloc));
    let mut buffer = [0; 4_096];
    fill_file(
        alloc,
        Wanted::ALL,
        &mut reader,
        &mut writer,
        &mut told,
        &mut buffer,
    )?;
    Ok(told)
}

// Is this Board, between these texts, told as these bytes, of the one game that is left?
fn is_told(alloc: Global, before: &[u8], board: &[u8], after: &[u8], want: &[u8]) -> Option<bool> {
    let mut file = Vec::new(alloc);
    file.extend_from_slice(before).ok()?;
    file.extend_from_slice(board).ok()?;
    file.extend_from_slice(after).ok()?;
    let whole = told_of(alloc, file.as_slice(), usize::MAX).ok()?;
    let bytes = told_of(alloc, file.as_slice(), 1).ok()?;
    Some(
        whole.left == 1
            && bytes.left == 1
            && whole.board.as_slice() == want
            && bytes.board.as_slice() == want,
    )
}

#[test]
fn of_a_board_its_first_bytes_are_told(rt: HostRuntime) {
    let alloc = rt.alloc();
    let sevens = [b'7'; 70];
    for length in [0usize, 1, 31, 32, 33, 70] {
        let board = sevens.get(..length).unwrap_or_default();
        let want = sevens.get(..length.min(TOLD)).unwrap_or_default();
        // On one line, with a comment behind it, and over two lines.
        let found = [
            is_told(alloc, b"[Board \"", board, b"\"]\n[Deal \"N:A\"]\n", want),
            is_told(
                alloc,
                b"[Board \"",
                board,
                b"\"]{ }\r\n[Deal \"N:A\"]",
                want,
            ),
            is_told(alloc, b"[Board\n\"", board, b"\"]\n[Deal \"N:A\"]\n", want),
        ];
        assert_eq!(rt; found, [Some(true); 3]);
    }
}

#[test]
fn of_a_board_with_a_backslash_what_it_means_is_told(rt: HostRuntime) {
    let alloc = rt.alloc();
    let found = [
        is_told(
            alloc,
            b"[Board \"",
            br#"1\"2"#,
            b"\"]\n[Deal \"N:A\"]\n",
            br#"1"2"#,
        ),
        is_told(
            alloc,
            b"[Board \"",
            br#"\\777777777777777777777777777777777"#,
            b"\"]\n[Deal \"N:A\"]\n",
            br#"\7777777777777777777777777777777"#,
        ),
    ];
    assert_eq!(rt; found, [Some(true); 2]);
}

// It lacks nothing, so nothing is told of its deal.
#[test]
fn of_a_game_with_all_tags_and_no_deal_nothing_is_told(rt: HostRuntime) {
    let file =
        b"[Board \"5\"]\n[Deal \"N:A\"]\n[DoubleDummyTricks \"x\"]\n[OptimumScore \"x\"]\n[ParContract \"x\"]\n[OptimumResultTable \"x\"]\n";
    let found = match told_of(rt.alloc(), file, usize::MAX) {
        Ok(told) => told.left,
        Err(_) => 9,
    };
    assert_eq!(rt; found, 0);
}
