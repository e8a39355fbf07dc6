//! What an analyst is told of tags Dealer and Vulnerable whose values aren't known, and at the end of a file of its games.
use super::devices::{Pieces, Taker};
use super::drawn::RESULTS;
use arrayvec::ArrayVec;
use dd_cards::Hands;
use dd_file::{Analyst, Reason, Wanted, fill_file};
use dd_lines::CountedDevice;
use dd_score::Results;
use std::alloc::{AllocError, Global};
use std::test::Fail;

// A row a line: what is told, a bar, and the file, in which `@` stands for a deal and `~` for a line feed. Of a game that is left it is
// told by a letter why: D and V since Dealer or Vulnerable isn't known, X for another reason; and what that tag says. Last comes how
// many games there are.
const ROWS: &[u8] = br###"D North;1|[Dealer "North"][Vulnerable "None"]@
D n ;1|[Dealer "n "][Vulnerable "None"]@
D ??;1|[Dealer "??"][Vulnerable "None"]@
D ;1|[Dealer "?"][Vulnerable "None"]@
D ;1|[Dealer ""][Vulnerable "None"]@
D ;1|[Vulnerable "None"]@
D ;1|@
V E-W;1|[Dealer "N"][Vulnerable "E-W"]@
V E-W;1|@[Vulnerable "E-W"][Dealer "N"]
V ;1|[Dealer "N"][Vulnerable "?"]@
V ;1|[Dealer "N"][Vulnerable ""]@
V ;1|[Dealer "N"]@
1|[Dealer "n"][Vulnerable "LOVE"]@
D North;1|[Dealer "North"][Vulnerable "E-W"]@
D North;1|[Vulnerable "E-W"][Dealer "North"]@
D ;1|[Vulnerable "E-W"]@
D ;1|[Dealer "?"][Vulnerable "E-W"]@
D North;1|[Dealer~"North"][Vulnerable "None"]@
D No"rth\;1|[Dealer "No\"rth\\"][Vulnerable "None"]@
D ;1|[Dealer~"?"][Vulnerable "None"]@
V E-W;1|[Dealer "N"][Vulnerable { } "E-W"]@
V ;1|[Dealer "N"][Vulnerable { } ""]@
D North, North, North, North, Nort;1|[Dealer "North, North, North, North, North"][Vulnerable "None"]@
D North, North, North, North, Nort;1|[Dealer~"North, North, North, North, North"][Vulnerable "None"]@
D North, North, North, North, Nort;1|[Dealer "North, North, North, North, Nort"][Vulnerable "None"]@
V E-W, E-W, E-W, E-W, E-W, E-W, E-;1|[Dealer "N"][Vulnerable "E-W, E-W, E-W, E-W, E-W, E-W, E-W"]@
D North;D #;2|[Dealer "North"][Vulnerable "None"]@~~[Dealer "#"][Vulnerable "None"]@
D ##North;D ;2|[Dealer "##North"][Vulnerable "None"]@~~[Vulnerable "None"]@
D ;D #;2|[Vulnerable "None"]@~~[Dealer "#"][Vulnerable "None"]@
V E-W;V #;2|[Dealer "N"][Vulnerable "E-W"]@~~[Dealer "N"][Vulnerable "#"]@
2|[Dealer "N"][Vulnerable "None"]@~~[Dealer "#"][Vulnerable "#"]@
2|[Dealer "##N"][Vulnerable "##None"]@~~@
D North;D ;2|[Dealer "North"][Vulnerable "None"]@~~[Vulnerable "None"]@
D North;D ;2|[Dealer "North"][Vulnerable "None"]@~~[Dealer "?"][Vulnerable "None"]@
D North;V E-W;2|[Dealer "North"][Vulnerable "None"]@~[Dealer "N"][Vulnerable "E-W"]@
V E-W;D North;V ;3|[Dealer "N"][Vulnerable "E-W"]@~[Dealer "North"][Vulnerable "None"]@~[Dealer "N"]@
X ;1|[Dealer "North"][Vulnerable "E-W"]
X ;2|[Event "one"]~~[Event "two"]@[Dealer "N"][Vulnerable "All"]
X ;X ;2|[Event "one"]~~~[Event "two"]{
0|
0|~~
0|words [ without ] a tag~
0|[Event "not closed"###;

const DEAL: &[u8] =
    br#"[Deal "N:J6.72.AQ7643.AJ7 Q9842.Q854.T.K42 AT75.AT9.KJ8.T83 K3.KJ63.952.Q965"]"#;

// Of the least file of UTF-16: the mark of its bytes' order, and a tag with a NUL behind each byte.
const WIDE: &[u8] = b"\xFF\xFE[\0E\0v\0e\0n\0t\0 \0\"\0x\0\"\0]\0\n\0";

// Tells the same results of each deal, and notes what it is told.
#[derive(Drop)]
struct Notes {
    told: ArrayVec<u8, 256>,
}

impl Notes {
    fn add(&mut self, bytes: &[u8]) {
        for byte in bytes {
            let _ = self.told.try_push(*byte);
        }
    }
}

impl Analyst for Notes {
    ghost gives = { λ _ _. Unit {0} };

    ghost State = { Unit {0} };

    ghost state = { λ _. tt };

    ghost way = { λ _ _ _. Unit {0} };

    fn results(&mut self, _deal: &Hands) -> Option<Results> {
        Results::new(RESULTS)
    }

    fn passed(&mut self, _games: u64, _bytes: u64) {}

    fn left(&mut self, _game: u64, _board: &[u8], reason: Reason, unknown: &[u8]) {
        let why = match reason {
            Reason::NoDealer => b"D ",
            Reason::NoVulnerable => b"V ",
            _ => b"X ",
        };
        self.add(why);
        self.add(unknown);
        self.add(b";");
    }

    fn ended(&mut self, games: u64) {
        self.add(&[b'0' + (games % 10) as u8]);
    }
}

// Is this told of the file, which is read in pieces of so many bytes at most?
fn is_told(alloc: Global, file: &[u8], most: usize, want: &[u8]) -> bool {
    let mut notes = Notes {
        told: ArrayVec::new(),
    };
    let mut reader = CountedDevice::new(Pieces { bytes: file, most });
    let mut writer = CountedDevice::new(Taker::new(alloc));
    let mut buffer = [0; 4_096];
    let filled = fill_file(
        alloc,
        Wanted::ALL,
        &mut reader,
        &mut writer,
        &mut notes,
        &mut buffer,
    );
    filled.is_ok() && notes.told.as_slice() == want
}

// The file that a row has, by its letters.
fn file_of(alloc: Global, letters: &[u8]) -> Result<Vec<u8>, AllocError> {
    let mut file = Vec::new(alloc);
    for letter in letters {
        match *letter {
            b'@' => file.extend_from_slice(DEAL)?,
            b'~' => file.push(b'\n')?,
            _ => file.push(*letter)?,
        }
    }
    Ok(file)
}

// Is told of the row's file what the row says, read at once and byte by byte?
fn is_right(alloc: Global, row: &[u8]) -> Result<bool, AllocError> {
    let bar = row
        .iter()
        .position(|byte| *byte == b'|')
        .unwrap_or(row.len());
    let (want, letters) = row.split_at(bar);
    let file = file_of(alloc, letters.get(1..).unwrap_or_default())?;
    Ok(is_told(alloc, &file, usize::MAX, want) && is_told(alloc, &file, 1, want))
}

#[test]
fn what_an_unknown_value_says_is_told_and_how_many_games_there_are(
    rt: HostRuntime,
) -> Result<(), Fail> {
    for (number, row) in ROWS.split(|byte| *byte == b'\n').enumerate() {
        assert!(rt; is_right(rt.alloc(), row)?, "row {number}");
    }
    Ok(())
}

#[test]
fn a_file_of_utf_16_has_no_game(rt: HostRuntime) {
    assert!(rt; is_told(rt.alloc(), WIDE, usize::MAX, b"0"));
}
