//! A digest of bytes.

/// The digest of these bytes by FNV-1a over words of eight bytes, and then over the bytes that are left and their number.
pub(crate) fn digest_of(bytes: &[u8]) -> u64 {
    let words = bytes.chunks_exact(8);
    let mut digest = 0xcbf2_9ce4_8422_2325;
    for word in words {
        digest = with_word(digest, word_of(word));
    }
    let rest = bytes.len() % 8;
    for byte in &bytes[bytes.len() - rest..] {
        digest = with_word(digest, u64::from(*byte));
    }
    with_word(digest, bytes.len() as u64)
}

// A rotation brings the high bits down, which a product doesn't.
fn with_word(digest: u64, word: u64) -> u64 {
    (digest ^ word)
        .wrapping_mul(0x0000_0100_0000_01b3)
        .rotate_left(29)
}

fn word_of(bytes: &[u8]) -> u64 {
    match bytes {
        [a, b, c, d, e, f, g, h] => u64::from_le_bytes([*a, *b, *c, *d, *e, *f, *g, *h]),
        _ => 0,
    }
}
