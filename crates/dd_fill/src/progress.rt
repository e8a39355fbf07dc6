//! What is shown of a run while it goes on, in the last line of a terminal.
ghost use Rattle.std.specs.Prelude.{◌≡◌, ◌++◌, ◌∷◌, []};
ghost use Rattle.dd_fill.specs.Notes.{progress_text};
ghost use Rattle.dd_fill.specs.Said.{Says, SaysAll, clear_texts, progress_texts, sink_of};

use crate::note::{Note, push};
use dd_lines::{CountedDevice, write_whole};
use itoa::Buffer;
use std::io::Write;

/// To the line's beginning, and nothing on it.
const CLEAR: &[u8] = b"\r\x1b[K";

/// Shows in place of the last line how many games have ended, and at which byte of the file, where that is to be shown.
pub(crate) fn show_progress<E: Write>(
    shows_progress: bool,
    games: u64,
    bytes: u64,
    errors: &mut CountedDevice<E>,
)
    ensures { SaysAll (progress_texts shows_progress games bytes) (sink_of E.contents errors.old)
        (sink_of E.contents errors.new) }
{
    if !shows_progress {
        return;
    }
    let text = progress_of(games, bytes);
    say_text(text.as_slice(), errors);
}

/// Shows nothing in the last line, where that was to be shown.
pub(crate) fn clear_progress<E: Write>(shows_progress: bool, errors: &mut CountedDevice<E>)
    ensures { SaysAll (clear_texts shows_progress) (sink_of E.contents errors.old)
        (sink_of E.contents errors.new) }
{
    if !shows_progress {
        return;
    }
    say_text(CLEAR, errors);
}

/// Says a line, in place of what is shown in the last one.
pub(crate) fn say<E: Write>(line: &[u8], errors: &mut CountedDevice<E>, shows_progress: bool)
    ensures { SaysAll (clear_texts shows_progress ++ line.now ∷ []) (sink_of E.contents errors.old)
        (sink_of E.contents errors.new) }
{
    clear_progress(shows_progress, errors);
    say_text(line, errors);
}

// Says a text.
fn say_text<E: Write>(text: &[u8], errors: &mut CountedDevice<E>)
    ensures { Says text.now (sink_of E.contents errors.old) (sink_of E.contents errors.new) }
{
    // Where it fails there is no place left to say so.
    let _ = write_whole(errors, text);
}

/// The line's text, which stands in place of what was there.
fn progress_of(games: u64, bytes: u64) -> Note
    ensures { result.items ≡ progress_text games bytes }
{
    let mut buffer = Buffer::new();
    let mut text = Note::new();
    push(&mut text, CLEAR);
    push(&mut text, b"ddserve: ");
    push(&mut text, buffer.format(games).as_bytes());
    push(&mut text, b" games, ");
    push(&mut text, buffer.format(bytes).as_bytes());
    push(&mut text, b" bytes");
    text
}
