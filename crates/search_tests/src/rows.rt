//! What stands between rows, and between the words of one.

pub fn is_line_feed(byte: &u8) -> bool {
    *byte == b'\n'
}

pub fn is_space(byte: &u8) -> bool {
    *byte == b' '
}

pub fn is_bar(byte: &u8) -> bool {
    *byte == b'|'
}

/// The number of a word of digits.
pub fn number(word: &[u8]) -> u8 {
    let mut number = 0u8;
    for digit in word {
        number = number
            .saturating_mul(10)
            .saturating_add(digit.wrapping_sub(b'0'));
    }
    number
}

/// The word of a row at this place, empty where it has fewer.
pub fn word(row: &[u8], place: usize) -> &[u8] {
    row.split(is_space).nth(place).unwrap_or(&[])
}
