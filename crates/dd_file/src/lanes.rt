//! Sixteen bytes that are looked at at once: which of them end a stretch, a bit for each.
ghost use Rattle.std.specs.Prelude.{◌≡◌, ◌≤◌, drop, length, map};
ghost use Rattle.std.specs.Simd.Lanes.{mask_l};
ghost use Rattle.dd_file.specs.Quiet.{ends_name, first_set, is_stop};

use crate::mode::{LINE_FEED, Mode};
use std::simd::prelude::*;

/// How many bytes are looked at at once.
pub(crate) const LANES: usize = 16;

/// The bit by which the two cases of a letter differ, and `[` from `{`.
pub(crate) const CASE: u8 = 0x20;

/// The bytes that are not calm outside of comments, strings and tags.
#[inline(always)]
pub(crate) fn plain_stops(bytes: u8x16) -> u64
    ensures { result ≡ mask_l (map (is_stop Mode.Plain) bytes) }
{
    let folded = bytes | u8x16::splat(CASE);
    (bytes.simd_eq(u8x16::splat(LINE_FEED))
        | bytes.simd_eq(u8x16::splat(b'"'))
        | bytes.simd_eq(u8x16::splat(b';'))
        | folded.simd_eq(u8x16::splat(b'{'))).to_bitmask()
}

/// Those that end a line.
#[inline(always)]
pub(crate) fn line_stops(bytes: u8x16) -> u64
    ensures { result ≡ mask_l (map (is_stop Mode.Escaped) bytes) }
{
    bytes.simd_eq(u8x16::splat(LINE_FEED)).to_bitmask()
}

/// Those that are not calm in a comment in braces.
#[inline(always)]
pub(crate) fn braced_stops(bytes: u8x16) -> u64
    ensures { result ≡ mask_l (map (is_stop Mode.Braced) bytes) }
{
    (bytes.simd_eq(u8x16::splat(LINE_FEED)) | bytes.simd_eq(u8x16::splat(b'}'))).to_bitmask()
}

/// Those that are not calm in a string.
#[inline(always)]
pub(crate) fn quoted_stops(bytes: u8x16) -> u64
    ensures { result ≡ mask_l (map (is_stop Mode.Quoted) bytes) }
{
    (bytes.simd_eq(u8x16::splat(LINE_FEED))
        | bytes.simd_eq(u8x16::splat(b'"'))
        | bytes.simd_eq(u8x16::splat(b'\\'))).to_bitmask()
}

/// Those that belong to no name.
#[inline(always)]
pub(crate) fn name_stops(bytes: u8x16) -> u64
    ensures { result ≡ mask_l (map ends_name bytes) }
{
    let from_a = (bytes | u8x16::splat(CASE)) - u8x16::splat(b'a');
    let from_zero = bytes - u8x16::splat(b'0');
    (from_a.simd_ge(u8x16::splat(26))
        & from_zero.simd_ge(u8x16::splat(10))
        & bytes.simd_ne(u8x16::splat(b'_'))).to_bitmask()
}

/// The text from the first of its bytes on whose bit is set.
#[inline(always)]
pub(crate) fn from_stop(text: &[u8], stops: u64) -> &[u8]
    requires { first_set stops ≤ length text.now }
    ensures { result.now ≡ drop (first_set stops) text.now }
{
    &text[stops.trailing_zeros() as usize..]
}

/// The text behind the bytes that were looked at at once.
#[inline(always)]
pub(crate) fn behind_lanes(text: &[u8]) -> &[u8]
    requires { 16 ≤ length text.now }
    ensures { result.now ≡ drop 16 text.now }
{
    &text[LANES..]
}
