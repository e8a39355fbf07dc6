//! What begins at a byte of a file.

use super::mode::{LINE_FEED, Mode, is_blank};
use super::tag_reader::{Miss, read_tag};

/// The most bytes by which it is judged what begins at a byte: a longer tag is none, and a longer line of blanks isn't
/// empty.
pub(crate) const NEAR: usize = 65_536;

/// What begins at a byte.
#[derive(Clone, Copy)]
pub(crate) enum Mark<'a> {
    Nothing,
    /// A line that holds nothing but blanks.
    EmptyLine,
    /// A tag of so many bytes, with the blanks before it where it is the first thing on its line.
    Tag {
        is_first: bool,
        length: usize,
        name: &'a [u8],
        quoted: &'a [u8],
    },
    /// A tag, or what looks like one, that the end of the file cuts off after so many bytes.
    Cut {
        length: usize,
    },
}

/// What begins at the first of these bytes, which stands so. They are all that follow, or the next `NEAR`.
pub(crate) fn mark_at(mode: Mode, near: &[u8], is_all: bool) -> Mark<'_> {
    match mode {
        Mode::Head | Mode::Start => line_mark(near, is_all),
        Mode::Mark1 | Mode::Mark2 | Mode::Plain => tag_mark(near, near, false, is_all),
        _ => Mark::Nothing,
    }
}

// What a line begins with.
fn line_mark(near: &[u8], is_all: bool) -> Mark<'_> {
    let rest = after_blanks(near);
    match rest {
        [] if is_all => Mark::EmptyLine,
        [] => Mark::Nothing,
        [LINE_FEED, ..] => Mark::EmptyLine,
        _ => tag_mark(near, rest, true, is_all),
    }
}

// Whether a tag begins at the text, which is what is left of the bytes.
fn tag_mark<'a>(near: &'a [u8], text: &'a [u8], is_first: bool, is_all: bool) -> Mark<'a> {
    match read_tag(text) {
        Ok(tag) => Mark::Tag {
            is_first,
            length: near.len().saturating_sub(tag.rest.len()),
            name: tag.name,
            quoted: tag.quoted,
        },
        Err(Miss::Ends) if is_all => Mark::Cut { length: near.len() },
        Err(_) => Mark::Nothing,
    }
}

/// The text after its blanks.
pub(crate) fn after_blanks(text: &[u8]) -> &[u8] {
    let mut rest = text;
    while let [first, tail @ ..] = rest {
        if !is_blank(*first) {
            break;
        }
        rest = tail;
    }
    rest
}
