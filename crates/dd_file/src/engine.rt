//! A file in, the file with its lines out.
ghost use Rattle.std.specs.Prelude.{◌≡◌, ◌+◌, ◌<◌, ◌≤◌, ◌++◌, ◌&&◌, [], drop, false, length, nat_le, take, true, OnOk, OnErr, IfErr, IfNone, IfOk, IfSome};
ghost use Rattle.std.specs.Io.KnownBytes.{Appends};
ghost use Rattle.dd_lines.specs.CountedDevices.{HasFailed, bytes_of};
ghost use Rattle.dd_lines.specs.Served.{WroteText};
ghost use Rattle.dd_file.specs.Notes.{games_of};
ghost use Rattle.dd_file.specs.Quiet.{PassesSome};
ghost use Rattle.dd_file.specs.Served.{FillsAll, FillsBeginning, FillsTelling, StopsAtFirstFailure, StopsAtWrite};
ghost use Rattle.dd_file.specs.Windows.{Ended, HearsSome, PassesFront, Stops, WritesBegun, WritesFront, WritesLast, place_of};

use crate::analyst::Analyst;
use crate::filler::Filler;
use crate::foreseer::Foreseer;
use crate::mark::NEAR;
use crate::wanted::Wanted;
use dd_lines::{CountedDevice, write_whole};
use std::alloc::{AllocError, Global};
use std::io::{Read, Write};
use thiserror::Error;

/// The bytes that are held before any of them is passed on.
const WINDOW: usize = 4 * NEAR;

/// What ended a run before the end of the file.
#[derive(Clone, Copy, Debug, PartialEq, Eq, Error)]
pub enum FileFault {
    /// A read failed.
    #[error("read failed")]
    Read,
    /// A write failed.
    #[error("write failed")]
    Write,
    /// Memory ran out.
    #[error("out of memory")]
    Memory,
}

/// Passes a file on, with the lines that its games lack of those that are wanted, as far as they can be had.
///
/// What begins at a byte is judged by the next 65,536 bytes. So at most 327,680 bytes are held, whatever the file is. An
/// error ends the run: nothing is tried again.
pub fn fill_file<R: Read, W: Write, A: Analyst>(
    alloc: Global,
    wanted: Wanted,
    reader: &mut CountedDevice<R>,
    writer: &mut CountedDevice<W>,
    analyst: &mut A,
    buffer: &mut [u8],
) -> Result<(), FileFault>
    requires { 0 < length buffer.old }
    // All was read, and what was written is the file with its lines.
    ensures ok { OnOk result (FillsAll R.remaining W.contents A.gives wanted
        reader.old reader.new writer.old writer.new) }
    // And by the same answers the analyst was told of its games, from state to state.
    ensures told { OnOk result (FillsTelling R.remaining W.contents A.gives A.way wanted
        (A.state analyst.old) (A.state analyst.new) reader.old reader.new writer.old writer.new) }
    // What was written is a beginning of that for what was read, and so is what the analyst was told, whatever follows.
    ensures err { IfErr result (FillsBeginning R.remaining W.contents A.gives A.way wanted
        (A.state analyst.old) (A.state analyst.new) reader.old reader.new writer.old writer.new) }
    // No call failed before the one that ended the run.
    ensures first { StopsAtFirstFailure reader.old reader.new writer.old writer.new result }
    ensures read { result ≡ Err FileFault.Read → HasFailed reader.old reader.new }
    ensures write { result ≡ Err FileFault.Write → HasFailed writer.old writer.new }
{
    let mut filler = Filler::new(alloc, wanted);
    let mut window = Vec::new(alloc);
    for _ in 0..u64::MAX {
        match reader.read(buffer) {
            Ok(0) => return write_last(alloc, &mut filler, window.as_slice(), writer, analyst),
            Ok(count) => take_piece(
                alloc,
                &buffer[..count],
                &mut window,
                &mut filler,
                writer,
                analyst,
            )?,
            Err(_) => return Err(FileFault::Read),
        }
    }
    Err(FileFault::Read)
}

// Takes a piece in, and passes on what is judged by then where much is held.
fn take_piece<W: Write, A: Analyst>(
    alloc: Global,
    piece: &[u8],
    window: &mut Vec<u8>,
    filler: &mut Filler,
    writer: &mut CountedDevice<W>,
    analyst: &mut A,
) -> Result<(), FileFault>
    ensures ok { OnOk result (WritesFront A.gives A.way filler.old filler.new
        (A.state analyst.old) (A.state analyst.new)
        (window.old.items ++ piece.now) window.new.items
        (bytes_of W.contents writer.old) (bytes_of W.contents writer.new)) }
    ensures err { OnErr result (WritesBegun A.gives A.way false filler.old
        (A.state analyst.old) (A.state analyst.new) (window.old.items ++ piece.now)
        (bytes_of W.contents writer.old) (bytes_of W.contents writer.new)) }
    ensures fault { StopsAtWrite writer.old writer.new result }
    ensures held { OnOk result (length window.new.items ≤ WINDOW) }
{
    match window.extend_from_slice(piece) {
        Ok(()) => write_full(alloc, window, filler, writer, analyst),
        Err(_) => Err(FileFault::Memory),
    }
}

// Passes bytes on where as many as may be are held.
fn write_full<W: Write, A: Analyst>(
    alloc: Global,
    window: &mut Vec<u8>,
    filler: &mut Filler,
    writer: &mut CountedDevice<W>,
    analyst: &mut A,
) -> Result<(), FileFault>
    ensures ok { OnOk result (WritesFront A.gives A.way filler.old filler.new
        (A.state analyst.old) (A.state analyst.new)
        window.old.items window.new.items
        (bytes_of W.contents writer.old) (bytes_of W.contents writer.new)) }
    ensures err { OnErr result (WritesBegun A.gives A.way false filler.old
        (A.state analyst.old) (A.state analyst.new) window.old.items
        (bytes_of W.contents writer.old) (bytes_of W.contents writer.new)) }
    ensures fault { StopsAtWrite writer.old writer.new result }
    ensures held { OnOk result (length window.new.items ≤ WINDOW) }
{
    if window.len() < WINDOW {
        return Ok(());
    }
    write_front(alloc, window, filler, writer, analyst)
}

// Passes on all but the last `NEAR` bytes.
fn write_front<W: Write, A: Analyst>(
    alloc: Global,
    window: &mut Vec<u8>,
    filler: &mut Filler,
    writer: &mut CountedDevice<W>,
    analyst: &mut A,
) -> Result<(), FileFault>
    requires { NEAR ≤ length window.old.items }
    ensures ok { OnOk result (WritesFront A.gives A.way filler.old filler.new
        (A.state analyst.old) (A.state analyst.new)
        window.old.items window.new.items
        (bytes_of W.contents writer.old) (bytes_of W.contents writer.new)) }
    ensures err { OnErr result (WritesBegun A.gives A.way false filler.old
        (A.state analyst.old) (A.state analyst.new) window.old.items
        (bytes_of W.contents writer.old) (bytes_of W.contents writer.new)) }
    ensures fault { StopsAtWrite writer.old writer.new result }
    ensures held { OnOk result (length window.new.items ≤ NEAR) }
{
    let count = window.len() - NEAR;
    let Some(text) = front_text(alloc, window.as_slice(), count, filler, analyst) else {
        return Err(FileFault::Memory);
    };
    write_text(writer, text.as_slice())?;
    drop_front(alloc, window, count)
}

// What comes out for the first bytes of the window.
fn front_text<A: Analyst>(
    alloc: Global,
    window: &[u8],
    count: usize,
    filler: &mut Filler,
    analyst: &mut A,
) -> Option<Vec<u8>>
    requires { count + NEAR ≤ length window.now }
    ensures passes { IfSome result (λ text. PassesFront A.gives A.way false filler.old filler.new
        (A.state analyst.old) (A.state analyst.new) window.now (drop count window.now) [] text.items) }
    ensures stops { IfNone result (Stops A.gives A.way false filler.old
        (A.state analyst.old) (A.state analyst.new) window.now) }
{
    foresee(alloc, window, count, false, filler, analyst);
    let mut text = Vec::new(alloc);
    match pass_front(window, count, false, filler, analyst, &mut text) {
        Ok(()) => Some(text),
        Err(_) => None,
    }
}

// Tells the analyst ahead of the deals whose results the first bytes of the window ask for, where it is to be told.
fn foresee<A: Analyst>(
    alloc: Global,
    window: &[u8],
    count: usize,
    is_all: bool,
    filler: &Filler,
    analyst: &mut A,
)
    requires within { count ≤ length window.now }
    requires room { is_all ≡ false → count + NEAR ≤ length window.now }
    ensures { A.state analyst.new ≡ A.state analyst.old }
{
    if !analyst.foresees() {
        return;
    }
    let Ok(mut ahead) = filler.copy() else {
        return;
    };
    let mut foreseer = Foreseer::new(analyst);
    pass_by(alloc, window, count, is_all, &mut ahead, &mut foreseer);
}

// Passes the first bytes of the window on ahead, and tells of the deals that are asked for.
fn pass_by<'a, A: Analyst>(
    alloc: Global,
    window: &[u8],
    count: usize,
    is_all: bool,
    ahead: &mut Filler,
    foreseer: &mut Foreseer<'a, A>,
)
    requires within { count ≤ length window.now }
    requires room { is_all ≡ false → count + NEAR ≤ length window.now }
    ensures same_reference { foreseer.new.analyst.ghost_name ≡ foreseer.old.analyst.ghost_name }
    ensures state { A.state foreseer.new.analyst.now ≡ A.state foreseer.old.analyst.now }
{
    pass_ahead(alloc, window, count, is_all, ahead, foreseer);
}

// Passes on the first bytes of the window, or all of them as the rest of the file, whatever comes out.
fn pass_ahead<A: Analyst>(
    alloc: Global,
    window: &[u8],
    count: usize,
    is_all: bool,
    filler: &mut Filler,
    analyst: &mut A,
)
    requires within { count ≤ length window.now }
    requires room { is_all ≡ false → count + NEAR ≤ length window.now }
    ensures { HearsSome A.way (A.state analyst.old) (A.state analyst.new) }
{
    let mut text = Vec::new(alloc);
    if is_all {
        let _ = add_rest(window, filler, analyst, &mut text);
        return;
    }
    let _ = pass_front(window, count, false, filler, analyst, &mut text);
}

// Takes the first bytes away.
fn drop_front(alloc: Global, window: &mut Vec<u8>, count: usize) -> Result<(), FileFault>
    requires { count ≤ length window.old.items }
    ensures ok { OnOk result (window.new.items ≡ drop count window.old.items) }
    ensures err { IfErr result (λ fault. fault ≡ FileFault.Memory) }
{
    match Vec::from_slice(alloc, &window[count..]) {
        Ok(rest) => {
            *window = rest;
            Ok(())
        }
        Err(_) => Err(FileFault::Memory),
    }
}

// Passes on the rest of the file, and tells the analyst how many games it had.
fn write_last<W: Write, A: Analyst>(
    alloc: Global,
    filler: &mut Filler,
    window: &[u8],
    writer: &mut CountedDevice<W>,
    analyst: &mut A,
) -> Result<(), FileFault>
    ensures ok { OnOk result (WritesLast A.gives A.way filler.old
        (A.state analyst.old) (A.state analyst.new) window.now
        (bytes_of W.contents writer.old) (bytes_of W.contents writer.new)) }
    ensures err { OnErr result (WritesBegun A.gives A.way true filler.old
        (A.state analyst.old) (A.state analyst.new) window.now
        (bytes_of W.contents writer.old) (bytes_of W.contents writer.new)) }
    ensures fault { StopsAtWrite writer.old writer.new result }
{
    let Some(text) = last_text(alloc, window, filler, analyst) else {
        return Err(FileFault::Memory);
    };
    analyst.ended(filler.games());
    write_text(writer, text.as_slice())
}

// What comes out for the rest of the file.
fn last_text<A: Analyst>(
    alloc: Global,
    window: &[u8],
    filler: &mut Filler,
    analyst: &mut A,
) -> Option<Vec<u8>>
    ensures ended { IfSome result (λ text. Ended A.gives A.way filler.old.wanted
        (place_of filler.old (A.state analyst.old)) (A.state analyst.new) (games_of filler.new)
        window.now text.items) }
    ensures stops { IfNone result (Stops A.gives A.way true filler.old
        (A.state analyst.old) (A.state analyst.new) window.now) }
{
    foresee(alloc, window, window.len(), true, filler, analyst);
    let mut text = Vec::new(alloc);
    match add_rest(window, filler, analyst, &mut text) {
        Ok(()) => Some(text),
        Err(_) => None,
    }
}

// Adds what comes out for the rest of the file to a text of no bytes.
fn add_rest<A: Analyst>(
    window: &[u8],
    filler: &mut Filler,
    analyst: &mut A,
    text: &mut Vec<u8>,
) -> Result<(), AllocError>
    requires { text.old.items ≡ [] }
    ensures ended { OnOk result (Ended A.gives A.way filler.old.wanted
        (place_of filler.old (A.state analyst.old)) (A.state analyst.new) (games_of filler.new)
        window.now text.new.items) }
    ensures stops { OnErr result (Stops A.gives A.way true filler.old
        (A.state analyst.old) (A.state analyst.new) window.now) }
{
    pass_front(window, window.len(), true, filler, analyst, text)?;
    filler.add_last(analyst, text)
}

// Passes on the first bytes of the window, each judged by those near it. All that follows is in the window, or so much as
// is looked at.
fn pass_front<A: Analyst>(
    window: &[u8],
    count: usize,
    is_all: bool,
    filler: &mut Filler,
    analyst: &mut A,
    out: &mut Vec<u8>,
) -> Result<(), AllocError>
    requires within { count ≤ length window.now }
    requires room { is_all ≡ false → count + NEAR ≤ length window.now }
    ensures passes { OnOk result (PassesFront A.gives A.way is_all filler.old filler.new
        (A.state analyst.old) (A.state analyst.new)
        window.now (drop count window.now) out.old.items out.new.items) }
    ensures stops { OnErr result (Stops A.gives A.way is_all filler.old
        (A.state analyst.old) (A.state analyst.new) window.now) }
{
    let mut at = 0;
    while at < count {
        at += pass_some(&window[at..], count - at, is_all, filler, analyst, out)?;
    }
    Ok(())
}

// Passes on the first of these bytes, at least one and so many at most, and tells how many.
fn pass_some<A: Analyst>(
    rest: &[u8],
    most: usize,
    is_all: bool,
    filler: &mut Filler,
    analyst: &mut A,
    out: &mut Vec<u8>,
) -> Result<usize, AllocError>
    requires some { 0 < most }
    requires within { most ≤ length rest.now }
    requires room { is_all ≡ false → most + NEAR ≤ length rest.now }
    ensures passes { IfOk result (λ count. PassesSome A.gives A.way is_all filler.old filler.new
        (A.state analyst.old) (A.state analyst.new)
        rest.now most count out.old.items out.new.items) }
    ensures stops { OnErr result (Stops A.gives A.way is_all filler.old
        (A.state analyst.old) (A.state analyst.new) rest.now) }
{
    let count = filler.pass_quiet(&rest[..most], out)?;
    if count >= most {
        return Ok(count);
    }
    let more = pass_next(&rest[count..], most - count, is_all, filler, analyst, out)?;
    Ok(count + more)
}

// Passes on a tag or a byte.
fn pass_next<A: Analyst>(
    rest: &[u8],
    most: usize,
    is_all: bool,
    filler: &mut Filler,
    analyst: &mut A,
    out: &mut Vec<u8>,
) -> Result<usize, AllocError>
    requires some { 0 < most }
    requires within { most ≤ length rest.now }
    requires room { is_all ≡ false → most + NEAR ≤ length rest.now }
    ensures passes { IfOk result (λ count. PassesSome A.gives A.way is_all filler.old filler.new
        (A.state analyst.old) (A.state analyst.new)
        rest.now most count out.old.items out.new.items) }
    ensures stops { OnErr result (Stops A.gives A.way is_all filler.old
        (A.state analyst.old) (A.state analyst.new) rest.now) }
{
    let count = filler.pass_tag(&rest[..most], analyst, out)?;
    if count > 0 {
        return Ok(count);
    }
    pass_first(rest, is_all, filler, analyst, out)?;
    Ok(1)
}

// Passes on the first of these bytes.
fn pass_first<A: Analyst>(
    rest: &[u8],
    is_all: bool,
    filler: &mut Filler,
    analyst: &mut A,
    out: &mut Vec<u8>,
) -> Result<(), AllocError>
    requires some { 0 < length rest.now }
    requires room { is_all ≡ false → NEAR < length rest.now }
    ensures passes { OnOk result (PassesFront A.gives A.way is_all filler.old filler.new
        (A.state analyst.old) (A.state analyst.new)
        rest.now (drop 1 rest.now) out.old.items out.new.items) }
    ensures stops { OnErr result (Stops A.gives A.way is_all filler.old
        (A.state analyst.old) (A.state analyst.new) rest.now) }
{
    filler.pass(near_of(rest), is_near(is_all, rest), analyst, out)
}

// Do all bytes that follow stand near the first of these?
fn is_near(is_all: bool, rest: &[u8]) -> bool
    ensures { result ≡ (is_all && nat_le (length rest.now) NEAR) }
{
    is_all && rest.len() <= NEAR
}

// The bytes by which it is judged what begins at the first of them.
fn near_of(rest: &[u8]) -> &[u8]
    ensures { result.now ≡ take NEAR rest.now }
{
    if rest.len() <= NEAR {
        rest
    } else {
        &rest[..NEAR]
    }
}

// Writes a text.
fn write_text<W: Write>(writer: &mut CountedDevice<W>, text: &[u8]) -> Result<(), FileFault>
    ensures ok { OnOk result (Appends (bytes_of W.contents writer.old)
        (bytes_of W.contents writer.new) text.now) }
    ensures err { OnErr result (WroteText (bytes_of W.contents writer.old)
        (bytes_of W.contents writer.new) text.now) }
    ensures fault { StopsAtWrite writer.old writer.new result }
{
    match write_whole(writer, text) {
        Ok(()) => Ok(()),
        Err(_) => Err(FileFault::Write),
    }
}
