//! Where a byte of a file stands: in a comment, in a string, or outside of both.

/// The byte that ends a line.
pub(crate) const LINE_FEED: u8 = b'\n';

/// The byte that may stand before it.
pub(crate) const CARRIAGE_RETURN: u8 = b'\r';

/// Where the next byte stands, by what came before it.
#[derive(Clone, Copy, Debug, PartialEq, Eq)]
pub(crate) enum Mode {
    /// First in the file.
    Head,
    /// Behind the first byte of a byte-order mark.
    Mark1,
    /// Behind the second one.
    Mark2,
    /// First in a line, outside of comments and strings.
    Start,
    /// Later in a line, outside.
    Plain,
    /// In a line that begins with `%`.
    Escaped,
    /// In a comment that begins with `;`.
    Remark,
    /// In a comment in braces.
    Braced,
    /// In a string.
    Quoted,
    /// In a string, behind a backslash.
    Backslash,
}

impl Mode {
    /// Where the byte after this one stands.
    pub(crate) fn next(self, byte: u8) -> Mode {
        match self {
            Mode::Head => after_head(byte),
            Mode::Mark1 => after_mark1(byte),
            Mode::Mark2 => after_mark2(byte),
            Mode::Start => after_start(byte),
            Mode::Plain => after_plain(byte),
            Mode::Escaped => after_line_of(Mode::Escaped, byte),
            Mode::Remark => after_line_of(Mode::Remark, byte),
            Mode::Braced => after_braced(byte),
            Mode::Quoted => after_quoted(byte),
            Mode::Backslash => after_backslash(byte),
        }
    }
}

fn after_head(byte: u8) -> Mode {
    if byte == 239 {
        Mode::Mark1
    } else {
        after_start(byte)
    }
}

fn after_mark1(byte: u8) -> Mode {
    if byte == 187 {
        Mode::Mark2
    } else {
        after_plain(byte)
    }
}

// A line begins behind a byte-order mark.
fn after_mark2(byte: u8) -> Mode {
    if byte == 191 {
        Mode::Start
    } else {
        after_plain(byte)
    }
}

fn after_start(byte: u8) -> Mode {
    if byte == b'%' {
        Mode::Escaped
    } else {
        after_plain(byte)
    }
}

fn after_plain(byte: u8) -> Mode {
    match byte {
        LINE_FEED => Mode::Start,
        b';' => Mode::Remark,
        b'{' => Mode::Braced,
        b'"' => Mode::Quoted,
        _ => Mode::Plain,
    }
}

// A mode that lasts to the end of the line.
fn after_line_of(mode: Mode, byte: u8) -> Mode {
    if byte == LINE_FEED { Mode::Start } else { mode }
}

fn after_braced(byte: u8) -> Mode {
    if byte == b'}' {
        Mode::Plain
    } else {
        Mode::Braced
    }
}

// A string that meets its line's end is over there.
fn after_quoted(byte: u8) -> Mode {
    match byte {
        b'"' => Mode::Plain,
        b'\\' => Mode::Backslash,
        LINE_FEED => Mode::Start,
        _ => Mode::Quoted,
    }
}

fn after_backslash(byte: u8) -> Mode {
    if byte == LINE_FEED {
        Mode::Start
    } else {
        Mode::Quoted
    }
}

/// Is it a space, a tab, a vertical tab, a form feed or a carriage return?
pub(crate) fn is_blank(byte: u8) -> bool {
    byte == b' ' || byte == b'\t' || byte == 11 || byte == 12 || byte == CARRIAGE_RETURN
}
