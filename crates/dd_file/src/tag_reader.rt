//! The tag that a text begins with.
ghost use Rattle.std.specs.Prelude.{◌≡◌, ◌-◌, ◌≤◌, ◌∷◌, length, take, List, ℕ, IfSome};
ghost use Rattle.dd_file.specs.Modes.{is_blank};
ghost use Rattle.dd_file.specs.Quiet.{BeginsShort, after_calm};
ghost use Rattle.dd_file.specs.Tags.{Reads, after_gap, after_name, after_string, byte_at, front_of, is_gap, is_name, name_at, parts_of, string_at, tag_at};

use crate::lanes::{LANES, behind_lanes, from_stop, name_stops};
use crate::mode::{LINE_FEED, Mode, is_blank};
use crate::quiet::after_quoted;
use std::simd::prelude::*;

/// Why no tag was read.
#[derive(Clone, Copy, Debug, PartialEq, Eq)]
pub(crate) enum Miss {
    /// What stands there is none.
    NoTag,
    /// The text ends where a tag could still follow.
    Ends,
}

/// A tag that a text begins with.
#[derive(Clone, Copy)]
pub(crate) struct TagText<'a> {
    /// Its name.
    pub(crate) name: &'a [u8],
    /// Its string, as it stands between the quotes.
    pub(crate) quoted: &'a [u8],
    /// What follows the tag.
    pub(crate) rest: &'a [u8],
}

/// The tag that the text begins with: `[`, a name, a string and `]`, with blanks, line ends, comments and escaped lines
/// between them.
#[tactic(auto, unfolding(crate::specs::Tags::tag_at))]
pub(crate) fn read_tag(text: &[u8]) -> Result<TagText<'_>, Miss>
    ensures { Reads (λ tag. parts_of tag) result (tag_at text.now) }
{
    let inner = after_gap(after_byte(b'[', text)?);
    let after = after_name(inner)?;
    let string = after_byte(b'"', after_gap(after))?;
    let last = after_string(string)?;
    let rest = after_byte(b']', after_gap(last))?;
    Ok(TagText {
        name: front_of(inner, after, 0),
        quoted: front_of(string, last, 1),
        rest,
    })
}

/// The tag that the text begins with, where it stands on one line so: `[`, a name, a space, a string without a backslash,
/// and `]`.
#[inline(always)]
pub(crate) fn read_short_tag(text: &[u8]) -> Option<TagText<'_>>
    ensures { IfSome result (λ tag. BeginsShort text.now tag.name.now tag.quoted.now tag.rest.now) }
{
    let inner = after_first(b'[', text)?;
    // Looked at by itself: a `[` that begins no tag is mostly told by it.
    if !begins_name(inner) {
        return None;
    }
    let after = after_name_bytes(inner);
    let opened = after_first(b' ', after)?;
    let string = after_first(b'"', opened)?;
    let last = after_quoted(string);
    let closed = after_first(b'"', last)?;
    let rest = after_first(b']', closed)?;
    if after.len() >= inner.len() {
        return None;
    }
    Some(TagText {
        name: front_of(inner, after, 0),
        quoted: front_of(string, last, 0),
        rest,
    })
}

/// What follows this byte, where the text begins with it.
pub(crate) fn after_first(byte: u8, text: &[u8]) -> Option<&[u8]>
    ensures { IfSome result (λ rest. text.now ≡ byte ∷ rest.now) }
{
    match text {
        [first, rest @ ..] if *first == byte => Some(rest),
        _ => None,
    }
}

// Of a text what stands before this rest of it, without so many bytes at its end.
fn front_of<'a>(text: &'a [u8], rest: &[u8], without: usize) -> &'a [u8]
    ensures { result.now ≡ front_of text.now rest.now without }
{
    let length = text
        .len()
        .saturating_sub(rest.len())
        .saturating_sub(without);
    &text[..length]
}

// The text after this byte.
#[tactic(auto, unfolding(crate::specs::Tags::byte_at))]
fn after_byte(byte: u8, text: &[u8]) -> Result<&[u8], Miss>
    ensures { Reads (λ rest. rest.now) result (byte_at byte text.now) }
{
    match text {
        [first, rest @ ..] if *first == byte => Ok(rest),
        [] => Err(Miss::Ends),
        _ => Err(Miss::NoTag),
    }
}

// The text after its blanks, line ends, comments and escaped lines.
fn after_gap(text: &[u8]) -> &[u8]
    ensures { result.now ≡ after_gap Mode.Plain text.now }
{
    let mut mode = Mode::Plain;
    let mut rest = text;
    while let [first, tail @ ..] = rest {
        if !is_gap(mode, *first) {
            break;
        }
        mode = mode.next(*first);
        rest = tail;
    }
    rest
}

// Does a byte that stands so belong to no part of a tag?
fn is_gap(mode: Mode, byte: u8) -> bool
    ensures { result ≡ is_gap mode byte }
{
    match mode {
        Mode::Escaped | Mode::Remark | Mode::Braced => true,
        Mode::Start => is_outside_gap(byte) || byte == b'%',
        Mode::Plain => is_outside_gap(byte),
        _ => false,
    }
}

fn is_outside_gap(byte: u8) -> bool
    ensures { result ≡ is_gap Mode.Plain byte }
{
    is_blank(byte) || byte == LINE_FEED || byte == b';' || byte == b'{'
}

// The text after a name, of at least one byte.
#[tactic(auto, unfolding(crate::specs::Tags::name_at))]
fn after_name(text: &[u8]) -> Result<&[u8], Miss>
    ensures { Reads (λ rest. rest.now) result (name_at text.now) }
{
    match text {
        [first, rest @ ..] if is_name(*first) => Ok(after_name_bytes(rest)),
        [] => Err(Miss::Ends),
        _ => Err(Miss::NoTag),
    }
}

// Can a name begin there?
fn begins_name(text: &[u8]) -> bool {
    match text {
        [first, ..] => is_name(*first),
        [] => false,
    }
}

fn after_name_bytes(text: &[u8]) -> &[u8]
    ensures { result.now ≡ after_name text.now }
{
    let mut rest = text;
    while rest.len() >= LANES {
        let stops = name_stops(u8x16::from_slice(rest));
        if stops != 0 {
            return from_stop(rest, stops);
        }
        rest = behind_lanes(rest);
    }
    after_name_one_by_one(rest)
}

fn after_name_one_by_one(text: &[u8]) -> &[u8]
    ensures { result.now ≡ after_name text.now }
{
    let mut rest = text;
    while let [first, tail @ ..] = rest {
        if !is_name(*first) {
            break;
        }
        rest = tail;
    }
    rest
}

// Is it a letter, a digit or an underscore?
fn is_name(byte: u8) -> bool
    ensures { result ≡ is_name byte }
{
    (b'a' <= byte && byte <= b'z')
        || (b'A' <= byte && byte <= b'Z')
        || (b'0' <= byte && byte <= b'9')
        || byte == b'_'
}

// The text after the quote that ends a string.
fn after_string(text: &[u8]) -> Result<&[u8], Miss>
    ensures { Reads (λ rest. rest.now) result (after_string Mode.Quoted text.now) }
{
    let mut mode = Mode::Quoted;
    let mut rest = after_quoted(text);
    while let [first, tail @ ..] = rest {
        mode = mode.next(*first);
        rest = match mode {
            Mode::Plain => return Ok(tail),
            Mode::Start => return Err(Miss::NoTag),
            Mode::Quoted => after_quoted(tail),
            _ => tail,
        };
    }
    Err(Miss::Ends)
}
