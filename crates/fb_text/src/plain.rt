//! Whether a text is written in a JSON string as it is. Two loads that overlap cover a short text.
ghost use Rattle.std.specs.Prelude.{◌≡◌, ◌+◌, ◌≤◌, length};
ghost use Rattle.std.specs.Bool.{OnTrue};
ghost use Rattle.json.specs.Print.{escape};
ghost use Rattle.json.specs.Written.{PlainBetween};

use std::simd::Simd;
use std::simd::prelude::*;

/// Whether the `N` bytes from a position on are written as they are.
#[inline(always)]
fn are_plain<const N: usize>(text: &[u8], at: usize) -> bool
    requires few { N ≤ 64 }
    requires within { at + N ≤ length text.now }
    ensures { OnTrue result (PlainBetween text.now at (at + N)) }
{
    let bytes = Simd::<u8, N>::from_slice(&text[at..]);
    let escaped = bytes.simd_eq(Simd::splat(b'"'))
        | bytes.simd_eq(Simd::splat(b'\\'))
        | bytes.simd_lt(Simd::splat(0x20));
    escaped.to_bitmask() == 0
}

/// Whether a text of `N` to `2 * N` bytes is written as it is: its first and its last `N` bytes.
#[inline(always)]
fn are_ends_plain<const N: usize>(text: &[u8]) -> bool
    requires few { N ≤ 64 }
    requires long { N ≤ length text.now }
    requires short { length text.now ≤ N + N }
    ensures { OnTrue result (PlainBetween text.now 0 (length text.now)) }
{
    are_plain::<N>(text, 0) && are_plain::<N>(text, text.len() - N)
}

/// Whether a text of few bytes is written as it is.
#[inline(always)]
fn is_each_plain(text: &[u8]) -> bool
    ensures { OnTrue result (PlainBetween text.now 0 (length text.now)) }
{
    for byte in text {
        if *byte == b'"' || *byte == b'\\' || *byte < 0x20 {
            return false;
        }
    }
    true
}

/// Whether a text of 32 bytes or more is written as it is.
fn is_long_plain(text: &[u8]) -> bool
    requires { 32 ≤ length text.now }
    ensures { OnTrue result (PlainBetween text.now 0 (length text.now)) }
{
    let mut at = 0;
    while text.len() - at > 32 {
        if !are_plain::<32>(text, at) {
            return false;
        }
        at += 32;
    }
    are_plain::<32>(text, text.len() - 32)
}

/// Whether a text is written as it is.
#[inline(always)]
fn is_all_plain(text: &[u8]) -> bool
    ensures { OnTrue result (PlainBetween text.now 0 (length text.now)) }
{
    match text.len() {
        32.. => is_long_plain(text),
        16.. => are_ends_plain::<16>(text),
        8.. => are_ends_plain::<8>(text),
        4.. => are_ends_plain::<4>(text),
        _ => is_each_plain(text),
    }
}

/// Whether a text needs no escape.
#[inline(always)]
pub(crate) fn needs_no_escape(text: &[u8]) -> bool
    ensures { OnTrue result (escape text.now ≡ text.now) }
{
    is_all_plain(text)
}
