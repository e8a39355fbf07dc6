//! What an analyst is asked and told of drawn files, and in which order, beside the form that passes a file on byte by byte.
use super::byte_by_byte::tell_file;
use super::devices::{Pieces, Taker};
use super::drawn::{
    DrawnFile, FIRST_DIGEST, Making, OF_MANY_PIECES, OF_SEVERAL_FRONTS,
    OF_SEVERAL_FRONTS_WITH_A_LONG_TAG, RESULTS, SEATS, SHORT, WITH_A_LONG_RUN, WITH_A_LONG_TAG,
    mixed, mixed_bytes, next_file,
};
use dd_cards::Hands;
use dd_file::{Analyst, FileFault, Reason, fill_file};
use dd_lines::CountedDevice;
use dd_score::Results;
use std::alloc::Global;
use std::process::Abort;
use std::test::Fail;

// Tells the same results of most deals and none of the others. What it is asked and told is mixed into one number in its order, and the
// deals that it is told of ahead into another: a file that is passed on in fronts tells of those front by front.
#[derive(Drop)]
struct Listener {
    alloc: Global,
    foresees: bool,
    asked: u64,
    left: u64,
    told: u64,
    foreseen: u64,
}

impl Listener {
    fn new(alloc: Global) -> Listener {
        Listener {
            alloc,
            foresees: false,
            asked: 0,
            left: 0,
            told: FIRST_DIGEST,
            foreseen: FIRST_DIGEST,
        }
    }
}

fn mixed_deal(digest: u64, deal: &Hands) -> u64 {
    let mut digest = digest;
    for seat in SEATS {
        digest = mixed(digest, deal.hand(seat).mask());
    }
    digest
}

impl Analyst for Listener {
    ghost gives = { λ _ _. Unit {0} };

    ghost State = { Unit {0} };

    ghost state = { λ _. tt };

    ghost way = { λ _ _ _. Unit {0} };

    fn results(&mut self, deal: &Hands) -> Option<Results> {
        self.told = mixed_deal(mixed(self.told, 1), deal);
        self.asked = self.asked.wrapping_add(1);
        if self.asked % 4 == 0 {
            None
        } else {
            Results::new(RESULTS)
        }
    }

    fn foresees(&self) -> bool {
        self.foresees
    }

    fn foresee(&mut self, deal: &Hands) {
        self.foreseen = mixed_deal(self.foreseen, deal);
    }

    fn passed(&mut self, games: u64, bytes: u64) {
        self.told = mixed(mixed(mixed(self.told, 2), games), bytes);
    }

    fn left(&mut self, game: u64, board: &[u8], reason: Reason, unknown: &[u8]) {
        self.left = self.left.wrapping_add(1);
        self.told = mixed_bytes(mixed(mixed(self.told, 3), game), board);
        self.told = mixed_bytes(self.told, unknown);
        if let Ok(text) = format!(in self.alloc; "{reason:?}") {
            self.told = mixed_bytes(self.told, text.as_bytes());
        }
    }

    fn ended(&mut self, games: u64) {
        self.told = mixed(mixed(self.told, 4), games);
    }
}

// Passes the file on in pieces of so many bytes at most.
fn fill(
    alloc: Global,
    file: &DrawnFile,
    most: usize,
    listener: &mut Listener,
) -> Result<(), FileFault> {
    let bytes = file.bytes.as_slice();
    let mut reader = CountedDevice::new(Pieces { bytes, most });
    let mut writer = CountedDevice::new(Taker::new(alloc));
    let mut buffer = [0; 4_096];
    fill_file(
        alloc,
        file.wanted,
        &mut reader,
        &mut writer,
        listener,
        &mut buffer,
    )
}

// One listener hears the files as they are passed on now, the other byte by byte, and both hear the same of each.
fn compare<R: AllocGlobal + Abort>(rt: &R, making: Making) -> Result<(), Fail> {
    let alloc = rt.alloc();
    let mut state = making.seed;
    let mut now = Listener::new(alloc);
    let mut before = Listener::new(alloc);
    for number in 0..making.files {
        let file = next_file(alloc, making, &mut state, number)?;
        now.foresees = number % 2 == 1;
        before.foresees = now.foresees;
        let most = if number % 3 == 0 {
            file.small
        } else {
            usize::MAX
        };
        assert!(rt; fill(alloc, &file, most, &mut now).is_ok(), "file {number}");
        tell_file(alloc, file.wanted, &file.bytes, &mut before)?;
        assert_eq!(rt; now.told, before.told, "file {number}");
        assert_eq!(rt; now.foreseen, before.foreseen, "file {number}");
    }
    assert!(rt;
        now.asked.saturating_mul(2) > making.files
            && now.left > making.files
            && now.foreseen != FIRST_DIGEST,
        "{} deals, {} games",
        now.asked,
        now.left
    );
    Ok(())
}

#[test]
fn short_files_are_told_as_byte_by_byte(rt: HostRuntime) -> Result<(), Fail> {
    compare(&rt, SHORT)
}

#[test]
fn files_of_many_pieces_are_told_as_byte_by_byte(rt: HostRuntime) -> Result<(), Fail> {
    compare(&rt, OF_MANY_PIECES)
}

#[test]
fn files_with_a_long_run_are_told_as_byte_by_byte(rt: HostRuntime) -> Result<(), Fail> {
    compare(&rt, WITH_A_LONG_RUN)
}

#[test]
fn files_of_several_fronts_are_told_as_byte_by_byte(rt: HostRuntime) -> Result<(), Fail> {
    compare(&rt, OF_SEVERAL_FRONTS)
}

#[test]
fn files_with_a_long_tag_are_told_as_byte_by_byte(rt: HostRuntime) -> Result<(), Fail> {
    compare(&rt, WITH_A_LONG_TAG)
}

#[test]
fn files_of_several_fronts_with_a_long_tag_are_told_as_byte_by_byte(
    rt: HostRuntime,
) -> Result<(), Fail> {
    compare(&rt, OF_SEVERAL_FRONTS_WITH_A_LONG_TAG)
}
