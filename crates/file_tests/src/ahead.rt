//! Files whose deals several threads search.
use super::deals::{ADDED, SUITS};
use super::devices::{Pieces, Taker};
use dd_bounds::NoTable;
use dd_cache::Cache;
use dd_file::{FileFault, Wanted};
use dd_fill::fill_deals;
use dd_lines::CountedDevice;
use dd_solve::DoubleDummy;
use std::alloc::{AllocError, Global};
use std::sync::Wait;
use std::test::Fail;
use std::thread::Threads;

// Four games with drawn deals, the third of which has no deal.
fn games() -> &'static str {
    r#"[Board "1"]
[Dealer "N"]
[Vulnerable "None"]
[Deal "N:K6532.T5.Q432.Q9 J7.AJ7432.AK.J62 AT9.9.JT986.A875 Q84.KQ86.75.KT43"]
[Board "2"]
[Dealer "E"]
[Vulnerable "NS"]
[Deal "N:QT92.AQT.AQ76.K7 AK83.J9642.J5.Q4 J754.K8.T.AJ9853 6.753.K98432.T62"]
[Board "3"]
[Deal "?"]
[Board "4"]
[Dealer "W"]
[Vulnerable "All"]
[Deal "N:AJ8.KT2.42.Q9765 Q743.A964.QJ87.T T965.J853.AK9.AJ K2.Q7.T653.K8432"]
"#
}

// The same with their tricks and par.
fn filled_games() -> &'static str {
    r#"[Board "1"]
[Dealer "N"]
[Vulnerable "None"]
[Deal "N:K6532.T5.Q432.Q9 J7.AJ7432.AK.J62 AT9.9.JT986.A875 Q84.KQ86.75.KT43"]
[DoubleDummyTricks "48385483859595895a58"]
[OptimumScore "EW 300"]
[ParContract "NS 4SX-2"]
[Board "2"]
[Dealer "E"]
[Vulnerable "NS"]
[Deal "N:QT92.AQT.AQ76.K7 AK83.J9642.J5.Q4 J754.K8.T.AJ9853 6.753.K98432.T62"]
[DoubleDummyTricks "bb87abb87a2245222452"]
[OptimumScore "NS 660"]
[ParContract "NS 3NT+2"]
[Board "3"]
[Deal "?"]
[Board "4"]
[Dealer "W"]
[Vulnerable "All"]
[Deal "N:AJ8.KT2.42.Q9765 Q743.A964.QJ87.T T965.J853.AK9.AJ K2.Q7.T653.K8432"]
[DoubleDummyTricks "99978999784436544365"]
[OptimumScore "NS 600"]
[ParContract "NS 3NT="]
"#
}

// What is said of them, without a budget and with one of no positions.
const NOTE: &[u8] = b"ddserve: game 3 (board 3): no deal\n";

const SPENT: &[u8] =
    b"ddserve: game 1 (board 1): spent\nddserve: game 2 (board 2): spent\nddserve: game 3 (board 3): no deal\nddserve: game 4 (board 4): spent\n";

/// The bytes that one read takes: less than the games, so that they come in pieces.
const PIECE: usize = 100;

// What a run ended with, what it wrote for a file, and what it said of its games.
#[derive(Drop)]
struct Outcome {
    result: Result<(), FileFault>,
    file: Vec<u8>,
    notes: Vec<u8>,
}

// So many caches that have learned nothing.
fn caches(alloc: Global, count: usize) -> Result<Vec<Cache<NoTable>>, AllocError> {
    let mut caches = Vec::new(alloc);
    for _ in 0..count {
        caches.push(Cache::new(alloc, NoTable)?)?;
    }
    Ok(caches)
}

// The outcome for a file by so many threads ahead, where the output takes so many bytes.
fn fill_on<W: Threads + Wait + Sync>(
    rt: &W,
    alloc: Global,
    file: &[u8],
    workers: usize,
    budget: Option<u64>,
    room: usize,
) -> Result<Outcome, AllocError> {
    let mut cache = Cache::new(alloc, NoTable)?;
    let mut others = caches(alloc, workers)?;
    let mut reader = CountedDevice::new(Pieces {
        bytes: file,
        most: PIECE,
    });
    let mut writer = CountedDevice::new(Taker::of_room(alloc, room));
    let mut errors = CountedDevice::new(Taker::new(alloc));
    let mut buffer = [0; 4_096];
    let wanted = Wanted {
        table: false,
        ..Wanted::ALL
    };
    let result = fill_deals(
        rt,
        alloc,
        wanted,
        &mut reader,
        &mut writer,
        &mut errors,
        false,
        &DoubleDummy,
        &mut cache,
        others.as_mut_slice(),
        budget,
        &mut buffer,
    );
    Ok(Outcome {
        result,
        file: writer.into_inner().taken,
        notes: errors.into_inner().taken,
    })
}

// Is the text a beginning of one part and then another?
fn is_beginning(text: &[u8], first: &[u8], second: &[u8]) -> bool {
    match text.strip_prefix(first) {
        Some(rest) => second.starts_with(rest),
        None => first.starts_with(text),
    }
}

#[test]
fn several_threads_write_the_bytes_of_one(rt: HostRuntime) -> Result<(), Fail> {
    let file = games().as_bytes();
    for workers in [0usize, 1, 2, 4] {
        let outcome = fill_on(&rt, rt.alloc(), file, workers, None, usize::MAX)?;
        assert!(rt; outcome.result == Ok(()), "{workers}");
        assert!(rt;
            outcome.file.as_slice() == filled_games().as_bytes(),
            "{workers}"
        );
        assert!(rt; outcome.notes.as_slice() == NOTE, "{workers}");
    }
    Ok(())
}

#[test]
fn an_output_that_fails_ends_the_run_of_several_threads(rt: HostRuntime) -> Result<(), Fail> {
    for room in [0usize, 1, 100, 150] {
        let outcome = fill_on(&rt, rt.alloc(), SUITS, 3, None, room)?;
        assert!(rt; outcome.result == Err(FileFault::Write), "{room}");
        assert!(rt; outcome.file.len() == room, "{room}");
        assert!(rt;
            is_beginning(outcome.file.as_slice(), SUITS, ADDED),
            "{room}"
        );
    }
    Ok(())
}

#[test]
fn several_threads_keep_to_the_budget(rt: HostRuntime) -> Result<(), Fail> {
    let file = games().as_bytes();
    let outcome = fill_on(&rt, rt.alloc(), file, 3, Some(0), usize::MAX)?;
    assert!(rt; outcome.result == Ok(()));
    assert!(rt; outcome.file.as_slice() == file);
    assert!(rt; outcome.notes.as_slice() == SPENT);
    Ok(())
}
