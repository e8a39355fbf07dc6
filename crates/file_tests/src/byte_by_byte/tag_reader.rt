//! The tag that a text begins with.

use super::mode::{LINE_FEED, Mode, is_blank};

/// Why no tag was read.
#[derive(Clone, Copy, Debug, PartialEq, Eq)]
pub(crate) enum Miss {
    /// What stands there is none.
    NoTag,
    /// The text ends where a tag could still follow.
    Ends,
}

/// A tag that a text begins with.
#[derive(Clone, Copy)]
pub(crate) struct TagText<'a> {
    /// Its name.
    pub(crate) name: &'a [u8],
    /// Its string, as it stands between the quotes.
    pub(crate) quoted: &'a [u8],
    /// What follows the tag.
    pub(crate) rest: &'a [u8],
}

/// The tag that the text begins with: `[`, a name, a string and `]`, with blanks, line ends, comments and escaped lines
/// between them.
pub(crate) fn read_tag(text: &[u8]) -> Result<TagText<'_>, Miss> {
    let inner = after_gap(after_byte(b'[', text)?);
    let after = after_name(inner)?;
    let string = after_byte(b'"', after_gap(after))?;
    let last = after_string(string)?;
    let rest = after_byte(b']', after_gap(last))?;
    Ok(TagText {
        name: front_of(inner, after, 0),
        quoted: front_of(string, last, 1),
        rest,
    })
}

// Of a text what stands before this rest of it, without so many bytes at its end.
fn front_of<'a>(text: &'a [u8], rest: &[u8], without: usize) -> &'a [u8] {
    let length = text
        .len()
        .saturating_sub(rest.len())
        .saturating_sub(without);
    &text[..length]
}

// The text after this byte.
fn after_byte(byte: u8, text: &[u8]) -> Result<&[u8], Miss> {
    match text {
        [first, rest @ ..] if *first == byte => Ok(rest),
        [] => Err(Miss::Ends),
        _ => Err(Miss::NoTag),
    }
}

// The text after its blanks, line ends, comments and escaped lines.
fn after_gap(text: &[u8]) -> &[u8] {
    let mut mode = Mode::Plain;
    let mut rest = text;
    while let [first, tail @ ..] = rest {
        if !is_gap(mode, *first) {
            break;
        }
        mode = mode.next(*first);
        rest = tail;
    }
    rest
}

// Does a byte that stands so belong to no part of a tag?
fn is_gap(mode: Mode, byte: u8) -> bool {
    match mode {
        Mode::Escaped | Mode::Remark | Mode::Braced => true,
        Mode::Start => is_outside_gap(byte) || byte == b'%',
        Mode::Plain => is_outside_gap(byte),
        _ => false,
    }
}

fn is_outside_gap(byte: u8) -> bool {
    is_blank(byte) || byte == LINE_FEED || byte == b';' || byte == b'{'
}

// The text after a name, of at least one byte.
fn after_name(text: &[u8]) -> Result<&[u8], Miss> {
    match text {
        [first, rest @ ..] if is_name(*first) => Ok(after_name_bytes(rest)),
        [] => Err(Miss::Ends),
        _ => Err(Miss::NoTag),
    }
}

fn after_name_bytes(text: &[u8]) -> &[u8] {
    let mut rest = text;
    while let [first, tail @ ..] = rest {
        if !is_name(*first) {
            break;
        }
        rest = tail;
    }
    rest
}

// Is it a letter, a digit or an underscore?
fn is_name(byte: u8) -> bool {
    (b'0' <= byte && byte <= b'9')
        || (b'A' <= byte && byte <= b'Z')
        || (b'a' <= byte && byte <= b'z')
        || byte == b'_'
}

// The text after the quote that ends a string.
fn after_string(text: &[u8]) -> Result<&[u8], Miss> {
    let mut mode = Mode::Quoted;
    let mut rest = text;
    while let [first, tail @ ..] = rest {
        mode = mode.next(*first);
        rest = tail;
        match mode {
            Mode::Plain => return Ok(rest),
            Mode::Start => return Err(Miss::NoTag),
            _ => {}
        }
    }
    Err(Miss::Ends)
}
