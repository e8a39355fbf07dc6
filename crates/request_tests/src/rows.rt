//! Rows of two parts, as tables of bytes: the proof of a test then meets one literal and one loop, and not each row, nor
//! that a text is UTF-8; and a line of such a row in another form.

use std::alloc::{AllocError, Global};

/// The part of a row before its first bar.
pub fn before_bar(row: &[u8]) -> &[u8] {
    match row.iter().position(|byte| *byte == b'|') {
        Some(place) => &row[..place],
        None => row,
    }
}

/// The part of a row after its first bar.
pub fn after_bar(row: &[u8]) -> &[u8] {
    match row.iter().position(|byte| *byte == b'|') {
        Some(place) => &row[place + 1..],
        None => &[],
    }
}

/// A line with a space before its last byte: of a line of a usual form another form.
pub fn spaced(alloc: Global, line: &[u8]) -> Result<Vec<u8>, AllocError> {
    let mut spaced = Vec::new(alloc);
    let (front, last) = line.split_at(line.len().saturating_sub(1));
    spaced.extend_from_slice(front)?;
    spaced.push(b' ')?;
    spaced.extend_from_slice(last)?;
    Ok(spaced)
}
