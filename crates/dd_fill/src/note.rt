//! What is said of a game that lacks a tag which was asked for, and of a file without games.
ghost use Rattle.std.specs.Prelude.{◌≡◌, ◌+◌, ◌≤◌, ◌++◌, decimal, length, map, take};
ghost use Rattle.arrayvec.specs.ArrayVec.{array_vec_len};
ghost use Rattle.dd_fill.specs.Notes.{board_text, fault_text, no_game_text, note_text, reason_text, said_byte, unknown_text};

use arrayvec::ArrayVec;
use dd_file::{DealFault, Reason};
use itoa::Buffer;

/// The most bytes of such a line.
const LONGEST_NOTE: usize = 256;

/// The most bytes of the value of a tag that are said.
const SAID_BYTES: usize = 32;

/// The line that says it.
pub(crate) type Note = ArrayVec<u8, LONGEST_NOTE>;

/// What is said of a file without games, with its line feed.
pub(crate) fn no_game() -> &'static str
    ensures { result.now ≡ no_game_text }
{
    "ddserve: no game was found: the input has no tag of PBN\n"
}

/// The line that says why the game of this number, with this value of its tag Board, lacks a tag, and what the tag says whose value
/// isn't known, if it says anything: with its line feed.
pub(crate) fn note_of(game: u64, board: &[u8], reason: Reason, unknown: &[u8]) -> Note
    ensures { result.items ≡ note_text game board.now reason unknown.now }
{
    let mut buffer = Buffer::new();
    let mut note = Note::new();
    push(&mut note, b"ddserve: game ");
    push(&mut note, buffer.format(game).as_bytes());
    push(&mut note, b" (board ");
    push_board(&mut note, board);
    push(&mut note, b"): ");
    push(&mut note, reason_of(reason).as_bytes());
    push_unknown(&mut note, unknown);
    push(&mut note, b"\n");
    note
}

/// Appends bytes for which there is room.
pub(crate) fn push(note: &mut Note, bytes: &[u8])
    requires { array_vec_len note.old + length bytes.now ≤ LONGEST_NOTE }
    ensures items { note.new.items ≡ note.old.items ++ bytes.now }
    ensures len { array_vec_len note.new ≡ array_vec_len note.old + length bytes.now }
{
    match note.try_extend_from_slice(bytes) {
        Ok(()) => {}
        Err(_) => unreachable!(),
    }
}

// Appends the first bytes of the value of Board as they are said, or a question mark where it has none.
fn push_board(note: &mut Note, board: &[u8])
    requires { array_vec_len note.old + SAID_BYTES ≤ LONGEST_NOTE }
    ensures items { note.new.items ≡ note.old.items ++ board_text board.now }
    ensures len { array_vec_len note.new ≤ array_vec_len note.old + SAID_BYTES }
{
    if board.is_empty() {
        push(note, b"?");
        return;
    }
    push_said(note, front(board));
}

// Appends what a tag says whose value isn't known, if it says anything.
fn push_unknown(note: &mut Note, unknown: &[u8])
    requires { array_vec_len note.old + 45 ≤ LONGEST_NOTE }
    ensures items { note.new.items ≡ note.old.items ++ unknown_text unknown.now }
    ensures len { array_vec_len note.new ≤ array_vec_len note.old + 45 }
{
    if unknown.is_empty() {
        return;
    }
    push(note, b" or unknown: ");
    push_said(note, front(unknown));
}

// Appends bytes as they are said.
fn push_said(note: &mut Note, bytes: &[u8])
    requires { array_vec_len note.old + length bytes.now ≤ LONGEST_NOTE }
    ensures items { note.new.items ≡ note.old.items ++ map said_byte bytes.now }
    ensures len { array_vec_len note.new ≡ array_vec_len note.old + length bytes.now }
{
    for byte in bytes {
        note.push(said_byte(*byte));
    }
}

// A byte as it is said: a control byte as a question mark, so that no value ends the line or clears it.
fn said_byte(byte: u8) -> u8
    ensures { result ≡ said_byte byte }
{
    if byte < b' ' || byte == 127 {
        b'?'
    } else {
        byte
    }
}

// The first bytes of a value.
fn front(value: &[u8]) -> &[u8]
    ensures text { result.now ≡ take SAID_BYTES value.now }
    ensures short { length result.now ≤ SAID_BYTES }
{
    if value.len() <= SAID_BYTES {
        value
    } else {
        &value[..SAID_BYTES]
    }
}

// The reason in words.
fn reason_of(reason: Reason) -> &'static str
    ensures text { result.now ≡ reason_text reason }
    ensures short { length result.now ≤ 110 }
{
    match reason {
        Reason::NoDeal => "no deal",
        Reason::Refused(fault) => fault_of(fault),
        Reason::NoDealer => "no par: Dealer is missing",
        Reason::NoVulnerable => "no par: Vulnerable is missing",
        Reason::NotClosed => "not closed",
        Reason::Spent => "spent",
    }
}

// The fault of a deal, by the number that it has in replies, with the words that explained replies have beside it.
fn fault_of(fault: DealFault) -> &'static str
    ensures text { result.now ≡ fault_text fault }
    ensures short { length result.now ≤ 110 }
{
    match fault {
        DealFault::Text => "deal refused, fault 4: the text of the deal has not the form of a deal",
        DealFault::LeftOut => "deal refused, fault 5: a hand of the deal is left out",
        DealFault::Twice => "deal refused, fault 6: a card stands twice",
        DealFault::Uneven =>
            "deal refused, fault 7: the hands have not equally many cards, or one fewer where they have played to the trick",
        DealFault::Empty => "deal refused, fault 8: there is no card to play",
        DealFault::NotThirteen => "deal refused, fault 23: the hands are not of thirteen cards",
    }
}
