//! Files of drawn pieces of PBN, and what came out for them and was told of them before lines were passed on by stretches.
use super::devices::{Pieces, Taker};
use dd_cards::{Hands, Seat};
use dd_file::{Analyst, FileFault, Reason, Wanted, fill_file};
use dd_lines::CountedDevice;
use dd_score::Results;
use std::alloc::{AllocError, Global};
use std::process::Abort;
use std::test::Fail;

pub const SEATS: [Seat; 4] = [Seat::North, Seat::East, Seat::South, Seat::West];

pub const RESULTS: [[u8; 4]; 5] = [
    [7, 6, 7, 6],
    [6, 7, 6, 7],
    [10, 3, 10, 3],
    [7, 6, 7, 6],
    [9, 3, 9, 3],
];

// What a file is made of.
const PARTS: [&[u8]; 64] = [
    b"\n",
    b"\r\n",
    b"\n\n",
    b"\n\n",
    b"\n\n[Event \"\"]\n",
    b"[Board \"1\"]\n",
    b"[Board \"12\"]",
    b"[Board \"7777777777777777777777777777777\"]\n",
    b"[Board \"77777777777777777777777777777777\"]\n",
    b"[Board \"777777777777777777777777777777777777777777777777\"]{ }\n",
    b"[Board \"1\\\"2\\\\3\"]\n",
    b"[Board\n\"5\"]\n",
    b"[Deal \"N:J6.72.AQ7643.AJ7 Q9842.Q854.T.K42 AT75.AT9.KJ8.T83 K3.KJ63.952.Q965\"]\n",
    b"[Deal \"E:J6.72.AQ7643.AJ7 Q9842.Q854.T.K42 AT75.AT9.KJ8.T83 K3.KJ63.952.Q965\"]\r\n",
    b"[Deal \"N:J6.72.AQ7643.AJ7 Q9842.Q854.T.K42 AT75.AT9.KJ8.T83 K3.KJ63.952.Q965\"]",
    b"[Deal  \"N:J6.72.AQ7643.AJ7 Q9842.Q854.T.K42 AT75.AT9.KJ8.T83 K3.KJ63.952.Q965\"]\n",
    b"[Deal \"N:J6.72.AQ7643.AJ7 Q9842.Q854.T.K42 - K3.KJ63.952.Q965\"]\n",
    b"[Deal \"N:A\"]\n",
    b"[Deal \"\"]\n",
    b"[Dealer \"N\"]\n",
    b"[Dealer \"W\"]\n",
    b"[Dealer \"X\"]\n",
    b"[Vulnerable \"None\"]\n",
    b"[Vulnerable \"NS\"]\n",
    b"[Vulnerable \"Both\"]",
    b"[Vulnerable \"?\"]\n",
    b"[DoubleDummyTricks \"976a7976a73673636736\"]\n",
    b"[DoubleDummyTricks \"*\"]\n",
    b"[OptimumScore \"NS 400\"]\n",
    b"[ParContract \"NS 3NT=\"]\n",
    b"[OptimumResultTable \"Declarer;Denomination\\2R;Result\\2R\"]\nN NT  9\nN  S  7\n",
    b"[Event \"x\"]\n",
    b"[event \"x\"]\n",
    b"[Event\t\"x\"] \n",
    b"[Event \"x\" ]\n",
    b"[Event \"a\\\"b\"]\n",
    b"[Event \"a\\\\\"]\n",
    b"[Event \"a\\",
    b"[Event \"x",
    b"[Event x]\n",
    b"[E\n",
    b"[Auction \"N\"]\n1NT Pass 3NT Pass\nPass Pass\n",
    b"[Play \"W\"]\nS4 S2 SK S3\n*\n",
    b"[Result \"9\"]",
    b"{ a comment }",
    b"{ a comment\nover two lines }\n",
    b"{",
    b"}",
    b"; to the end of the line [Board \"9\"]\n",
    b"% an escape [Board \"8\"]\n",
    b"\n% an escape { \"\n",
    b"\"a string\"",
    b"\"a string with a \\\" in it\" ",
    b"\"",
    b"\\",
    b" ",
    b"\t",
    b"    \n",
    b"Pass 1NT Pass\n",
    b"[",
    b"]",
    b"\xEF\xBB\xBF",
    b"\x00\xFF\x80\n",
    b"a text of some more than sixteen bytes, and of more than thirty-two ",
];

// What a long tag stands behind, so that it is outside of strings and comments, and how it begins.
const BEFORE: [&[u8]; 2] = [b"\n}\n", b"\n}"];

const OPENINGS: [&[u8]; 4] = [b"[Board \"", b"[Event \"", b"[Board  \"", b"[Board \"\\\""];

/// The bytes of a file that are held before any is passed on.
const HELD: usize = 262_144;

/// What numbers are mixed into.
pub const FIRST_DIGEST: u64 = 0xCBF2_9CE4_8422_2325;

/// The fewest bytes of a long tag.
const LONG: usize = 65_530;

// A number below the count, and the state after it. Who narrows it takes the remainder again, which the proof reads.
fn below(state: &mut u64, count: u64) -> u64 {
    *state = state
        .wrapping_mul(0x5851_F42D_4C95_7F2D)
        .wrapping_add(0x1405_7B7E_F767_814F);
    (*state >> 33) % count.max(1)
}

// Adds a tag of so many bytes.
fn push_long_tag(file: &mut Vec<u8>, state: &mut u64, length: usize) -> Result<(), AllocError> {
    let opening = OPENINGS[(below(state, 4) % 4) as usize];
    file.extend_from_slice(BEFORE[(below(state, 2) % 2) as usize])?;
    file.extend_from_slice(opening)?;
    for _ in 0..length.saturating_sub(opening.len()).saturating_sub(2) {
        file.push(b'7')?;
    }
    file.extend_from_slice(b"\"]\n")
}

// A file of so many drawn pieces, one of which is repeated so often, and with a tag of so many bytes, if any.
fn drawn(
    alloc: Global,
    state: &mut u64,
    pieces: u64,
    times: u64,
    long: usize,
) -> Result<Vec<u8>, AllocError> {
    let mut file = Vec::new(alloc);
    let place = below(state, pieces);
    let place_of_tag = if long > 0 {
        below(state, pieces)
    } else {
        pieces
    };
    for number in 0..pieces {
        if number == place_of_tag {
            push_long_tag(&mut file, state, long)?;
        }
        let part = PARTS[(below(state, 64) % 64) as usize];
        file.extend_from_slice(part)?;
        if number == place {
            for _ in 0..times {
                file.extend_from_slice(part)?;
            }
        }
    }
    Ok(file)
}

pub fn mixed(digest: u64, number: u64) -> u64 {
    (digest ^ number).wrapping_mul(0x0000_0100_0000_01B3)
}

pub fn mixed_bytes(digest: u64, bytes: &[u8]) -> u64 {
    let mut digest = mixed(digest, bytes.len() as u64);
    for byte in bytes {
        digest = mixed(digest, *byte as u64);
    }
    digest
}

// Tells the same results of most deals and none of the others, and mixes all that it is asked and told into one number.
#[derive(Drop)]
struct Mixes {
    alloc: Global,
    foresees: bool,
    asked: u64,
    left: u64,
    digest: u64,
}

impl Mixes {
    fn add(&mut self, number: u64) {
        self.digest = mixed(self.digest, number);
    }

    fn add_deal(&mut self, deal: &Hands) {
        for seat in SEATS {
            self.add(deal.hand(seat).mask());
        }
    }
}

impl Analyst for Mixes {
    ghost gives = { λ _ _. Unit {0} };

    ghost State = { Unit {0} };

    ghost state = { λ _. tt };

    ghost way = { λ _ _ _. Unit {0} };

    fn results(&mut self, deal: &Hands) -> Option<Results> {
        self.add(1);
        self.add_deal(deal);
        self.asked = self.asked.wrapping_add(1);
        if self.asked % 4 == 0 {
            None
        } else {
            Results::new(RESULTS)
        }
    }

    fn foresees(&self) -> bool {
        self.foresees
    }

    fn foresee(&mut self, deal: &Hands) {
        self.add(2);
        self.add_deal(deal);
    }

    fn passed(&mut self, games: u64, bytes: u64) {
        self.add(3);
        self.add(games);
        self.add(bytes);
    }

    fn left(&mut self, game: u64, board: &[u8], reason: Reason, _unknown: &[u8]) {
        self.left = self.left.wrapping_add(1);
        self.add(4);
        self.add(game);
        self.digest = mixed_bytes(self.digest, board);
        if let Ok(text) = format!(in self.alloc; "{reason:?}") {
            self.digest = mixed_bytes(self.digest, text.as_bytes());
        }
    }

    fn ended(&mut self, _games: u64) {}
}

// What comes out for the file and is told of it, mixed into the number, where it is read in pieces of so many bytes at most.
fn filled(
    alloc: Global,
    file: &[u8],
    most: usize,
    wanted: Wanted,
    mixes: &mut Mixes,
) -> Result<(), FileFault> {
    let mut reader = CountedDevice::new(Pieces { bytes: file, most });
    let mut writer = CountedDevice::new(Taker::new(alloc));
    let mut buffer = [0; 4_096];
    fill_file(alloc, wanted, &mut reader, &mut writer, mixes, &mut buffer)?;
    mixes.digest = mixed_bytes(mixes.digest, &writer.into_inner().taken);
    Ok(())
}

fn wanted_by(number: u64) -> Wanted {
    Wanted {
        tricks: number % 2 == 0,
        score: number % 4 < 3,
        contract: number % 8 < 6,
        table: number % 3 < 2,
    }
}

/// Which files are made: how many, of how many pieces at least and how many more at most, one of which is repeated up to so often; and of
/// how many lengths their long tags are, if they have one. Each is read in each of three ways, or in one by turns.
#[derive(Clone, Copy)]
pub struct Making {
    pub seed: u64,
    pub files: u64,
    pub least: u64,
    pub more: u64,
    pub times: u64,
    pub lengths: usize,
    pub each_way: bool,
}

/// Files of some pieces.
pub const SHORT: Making = Making {
    seed: 1,
    files: 400,
    least: 1,
    more: 30,
    times: 3,
    lengths: 0,
    each_way: true,
};

/// Files of many pieces.
pub const OF_MANY_PIECES: Making = Making {
    seed: 2,
    files: 40,
    least: 1,
    more: 400,
    times: 30,
    lengths: 0,
    each_way: true,
};

/// Files in which one piece is repeated over more than what is read at once.
pub const WITH_A_LONG_RUN: Making = Making {
    seed: 3,
    files: 12,
    least: 1,
    more: 8,
    times: 9_000,
    lengths: 0,
    each_way: true,
};

/// Files that are passed on in fronts: one comes once 262,144 bytes wait.
pub const OF_SEVERAL_FRONTS: Making = Making {
    seed: 4,
    files: 4,
    least: 20_000,
    more: 20_000,
    times: 30,
    lengths: 0,
    each_way: true,
};

/// Files with a tag as long as is judged: what begins at a byte is judged by the next 65,536, and a longer tag is none.
pub const WITH_A_LONG_TAG: Making = Making {
    seed: 5,
    files: 42,
    least: 40,
    more: 200,
    times: 3,
    lengths: 21,
    each_way: true,
};

/// Files of several fronts with such a tag: the end of a front comes before, within and behind it.
pub const OF_SEVERAL_FRONTS_WITH_A_LONG_TAG: Making = Making {
    seed: 6,
    files: 42,
    least: 9_500,
    more: 300,
    times: 30,
    lengths: 21,
    each_way: false,
};

// The bytes of a file's long tag.
fn length_of_tag(number: u64, lengths: usize) -> usize {
    if lengths > 0 {
        LONG + number as usize % lengths.min(21)
    } else {
        0
    }
}

/// A drawn file, the bytes of a small piece of it, and the tags that its games are to get.
#[derive(Drop)]
pub struct DrawnFile {
    pub bytes: Vec<u8>,
    pub small: usize,
    pub wanted: Wanted,
}

/// The file of this number.
pub fn next_file(
    alloc: Global,
    making: Making,
    state: &mut u64,
    number: u64,
) -> Result<DrawnFile, AllocError> {
    let count = below(state, making.more).wrapping_add(making.least);
    let repeated = below(state, making.times);
    let long = length_of_tag(number, making.lengths);
    let bytes = drawn(alloc, state, count, repeated, long)?;
    let small = (below(state, 300) % 300) as usize + 1;
    let wanted = if number % 3 == 0 {
        wanted_by(number / 3)
    } else {
        Wanted::ALL
    };
    Ok(DrawnFile {
        bytes,
        small,
        wanted,
    })
}

// What the files are mixed into, the bytes of the longest one, and how many are passed on in several fronts. Each is read in pieces as large as
// the buffer, in small ones and byte by byte.
fn mixed_files(alloc: Global, making: Making) -> Result<(Mixes, usize, u64), Fail> {
    let mut state = making.seed;
    let mut longest = 0usize;
    let mut several = 0u64;
    let mut mixes = Mixes {
        alloc,
        foresees: false,
        asked: 0,
        left: 0,
        digest: FIRST_DIGEST,
    };
    for number in 0..making.files {
        let file = next_file(alloc, making, &mut state, number)?;
        longest = longest.max(file.bytes.len());
        if file.bytes.len() > HELD {
            several = several.wrapping_add(1);
        }
        mixes.foresees = number % 2 == 1;
        for (turn, most) in [(0, usize::MAX), (1, file.small), (2, 1)] {
            if !making.each_way && number % 3 != turn {
                continue;
            }
            if filled(alloc, &file.bytes, most, file.wanted, &mut mixes).is_err() {
                mixes.add(5);
            }
        }
    }
    Ok((mixes, longest, several))
}

// The number is the one that the program gave before. Results were asked for often, games were left often, the longest file has more
// than so many bytes, and so many are passed on in several fronts.
fn compare<R: AllocGlobal + Abort>(
    rt: &R,
    making: Making,
    above: usize,
    fronts: u64,
    wanted: u64,
) -> Result<(), Fail> {
    let (mixes, longest, several) = mixed_files(rt.alloc(), making)?;
    assert_eq!(rt; mixes.digest, wanted);
    assert!(rt;
        mixes.asked > making.files
            && mixes.left > making.files
            && longest > above
            && several == fronts,
        "{} deals, {} games, {} bytes, {} files",
        mixes.asked,
        mixes.left,
        longest,
        several
    );
    Ok(())
}

#[test]
fn short_drawn_files_come_out_as_before(rt: HostRuntime) -> Result<(), Fail> {
    compare(&rt, SHORT, 500, 0, 8_283_183_591_809_235_975)
}

#[test]
fn drawn_files_of_many_pieces_come_out_as_before(rt: HostRuntime) -> Result<(), Fail> {
    compare(&rt, OF_MANY_PIECES, 8_000, 0, 3_574_139_286_528_128_542)
}

#[test]
fn drawn_files_with_a_long_run_come_out_as_before(rt: HostRuntime) -> Result<(), Fail> {
    compare(&rt, WITH_A_LONG_RUN, 65_536, 0, 12_756_514_680_348_021_889)
}

#[test]
fn drawn_files_of_several_fronts_come_out_as_before(rt: HostRuntime) -> Result<(), Fail> {
    compare(&rt, OF_SEVERAL_FRONTS, 400_000, 4, 475_837_719_620_738_507)
}

#[test]
fn drawn_files_with_a_tag_as_long_as_is_judged_come_out_as_before(
    rt: HostRuntime,
) -> Result<(), Fail> {
    compare(&rt, WITH_A_LONG_TAG, 65_536, 0, 9_379_631_868_422_047_137)
}

#[test]
fn drawn_files_of_several_fronts_with_a_long_tag_come_out_as_before(
    rt: HostRuntime,
) -> Result<(), Fail> {
    compare(
        &rt,
        OF_SEVERAL_FRONTS_WITH_A_LONG_TAG,
        HELD,
        42,
        2_116_805_653_444_967_365,
    )
}
