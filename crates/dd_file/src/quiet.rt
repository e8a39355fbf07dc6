//! Bytes that come out alone, whatever follows: nothing begins at them, or an empty line ends at which no game does. They are passed
//! on many at once.
ghost use Rattle.std.specs.Prelude.{◌≡◌};
ghost use Rattle.dd_file.specs.Quiet.{BeginsLines, after_calm, begins_plain, is_alone, is_calm, is_idle, is_quiet, is_quiet_within};

use crate::lanes::{
    LANES, behind_lanes, braced_stops, from_stop, line_stops, plain_stops, quoted_stops,
};
use crate::mode::{LINE_FEED, Mode, is_blank};
use std::simd::prelude::*;

/// Does a byte that stands so come out alone, whatever follows? A game has begun, or not, and so many bytes with it belong to
/// a tag.
pub(crate) fn is_alone(begun: bool, left: usize, mode: Mode, byte: u8) -> bool
    ensures { result ≡ is_alone begun left mode byte }
{
    is_quiet_within(left, mode, byte) || is_idle(begun, left, mode, byte)
}

// Is it the end of an empty line, where no game has begun that could end there?
fn is_idle(begun: bool, left: usize, mode: Mode, byte: u8) -> bool
    ensures { result ≡ is_idle begun left mode byte }
{
    match (begun, left, mode) {
        (false, 0, Mode::Start) => byte == LINE_FEED,
        _ => false,
    }
}

// Does nothing begin at a byte that stands so?
fn is_quiet_within(left: usize, mode: Mode, byte: u8) -> bool
    ensures { result ≡ is_quiet_within left mode byte }
{
    match left {
        0 => is_quiet(mode, byte),
        _ => true,
    }
}

// Does nothing begin at a byte that stands so, outside of tags?
fn is_quiet(mode: Mode, byte: u8) -> bool
    ensures { result ≡ is_quiet mode byte }
{
    match mode {
        Mode::Head | Mode::Mark1 | Mode::Mark2 => false,
        Mode::Start => !(is_blank(byte) || byte == LINE_FEED || byte == b'['),
        Mode::Plain => byte != b'[',
        _ => true,
    }
}

/// The text after its calm bytes: nothing begins at them, they stand alike, and end no line.
pub(crate) fn after_calm(mode: Mode, text: &[u8]) -> &[u8]
    ensures { result.now ≡ after_calm mode text.now }
{
    match mode {
        Mode::Plain => after_plain(text),
        Mode::Escaped | Mode::Remark => after_line(text),
        Mode::Braced => after_braced(text),
        Mode::Quoted => after_quoted(text),
        _ => text,
    }
}

/// The text after its first lines of plain text: they begin with no blank, no `[` and no `%`, hold calm bytes alone, and have ended.
pub(crate) fn after_plain_lines(text: &[u8]) -> &[u8]
    ensures { BeginsLines text.now result.now }
{
    let mut rest = text;
    while let [first, ..] = rest {
        if !begins_plain(*first) {
            break;
        }
        let after = after_plain(rest);
        let [end, tail @ ..] = after else {
            break;
        };
        if *end != LINE_FEED {
            break;
        }
        rest = tail;
    }
    rest
}

fn begins_plain(byte: u8) -> bool
    ensures { result ≡ begins_plain byte }
{
    is_quiet(Mode::Start, byte) && byte != b'%'
}

// Each kind of calm bytes has a loop of its own: so it runs without a choice of the mode at each step. The last bytes of a text are
// too few to be looked at at once.
fn after_plain(text: &[u8]) -> &[u8]
    ensures { result.now ≡ after_calm Mode.Plain text.now }
{
    let mut rest = text;
    while rest.len() >= LANES {
        let stops = plain_stops(u8x16::from_slice(rest));
        if stops != 0 {
            return from_stop(rest, stops);
        }
        rest = behind_lanes(rest);
    }
    after_plain_one_by_one(rest)
}

fn after_plain_one_by_one(text: &[u8]) -> &[u8]
    ensures { result.now ≡ after_calm Mode.Plain text.now }
{
    let mut rest = text;
    while let [first, tail @ ..] = rest {
        if !is_calm_plain(*first) {
            break;
        }
        rest = tail;
    }
    rest
}

fn is_calm_plain(byte: u8) -> bool
    ensures { result ≡ is_calm Mode.Plain byte }
{
    byte != LINE_FEED && byte != b'"' && byte != b';' && byte != b'[' && byte != b'{'
}

fn after_line(text: &[u8]) -> &[u8]
    ensures escaped { result.now ≡ after_calm Mode.Escaped text.now }
    ensures remark { result.now ≡ after_calm Mode.Remark text.now }
{
    let mut rest = text;
    while rest.len() >= LANES {
        let stops = line_stops(u8x16::from_slice(rest));
        if stops != 0 {
            return from_stop(rest, stops);
        }
        rest = behind_lanes(rest);
    }
    after_line_one_by_one(rest)
}

fn after_line_one_by_one(text: &[u8]) -> &[u8]
    ensures escaped { result.now ≡ after_calm Mode.Escaped text.now }
    ensures remark { result.now ≡ after_calm Mode.Remark text.now }
{
    let mut rest = text;
    while let [first, tail @ ..] = rest {
        if !is_calm_line(*first) {
            break;
        }
        rest = tail;
    }
    rest
}

fn is_calm_line(byte: u8) -> bool
    ensures { result ≡ is_calm Mode.Escaped byte }
{
    byte != LINE_FEED
}

fn after_braced(text: &[u8]) -> &[u8]
    ensures { result.now ≡ after_calm Mode.Braced text.now }
{
    let mut rest = text;
    while rest.len() >= LANES {
        let stops = braced_stops(u8x16::from_slice(rest));
        if stops != 0 {
            return from_stop(rest, stops);
        }
        rest = behind_lanes(rest);
    }
    after_braced_one_by_one(rest)
}

fn after_braced_one_by_one(text: &[u8]) -> &[u8]
    ensures { result.now ≡ after_calm Mode.Braced text.now }
{
    let mut rest = text;
    while let [first, tail @ ..] = rest {
        if !is_calm_braced(*first) {
            break;
        }
        rest = tail;
    }
    rest
}

fn is_calm_braced(byte: u8) -> bool
    ensures { result ≡ is_calm Mode.Braced byte }
{
    byte != LINE_FEED && byte != b'}'
}

/// The text of a string after its first bytes that are no backslash, no quote and no line feed.
pub(crate) fn after_quoted(text: &[u8]) -> &[u8]
    ensures { result.now ≡ after_calm Mode.Quoted text.now }
{
    let mut rest = text;
    while rest.len() >= LANES {
        let stops = quoted_stops(u8x16::from_slice(rest));
        if stops != 0 {
            return from_stop(rest, stops);
        }
        rest = behind_lanes(rest);
    }
    after_quoted_one_by_one(rest)
}

fn after_quoted_one_by_one(text: &[u8]) -> &[u8]
    ensures { result.now ≡ after_calm Mode.Quoted text.now }
{
    let mut rest = text;
    while let [first, tail @ ..] = rest {
        if !is_calm_quoted(*first) {
            break;
        }
        rest = tail;
    }
    rest
}

fn is_calm_quoted(byte: u8) -> bool
    ensures { result ≡ is_calm Mode.Quoted byte }
{
    byte != LINE_FEED && byte != b'"' && byte != b'\\'
}
