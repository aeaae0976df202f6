//! Passes over blanks, over digits, and over the plain text of a string.
ghost use Rattle.std.specs.Prelude.{◌≡◌, ◌+◌, ◌<◌, ◌≤◌, length, drop, get_or, map};
ghost use Rattle.std.specs.List.{prefix_len};
ghost use Rattle.std.specs.Char.{is_ascii_digit};
ghost use Rattle.std.specs.Simd.Lanes.{mask_l};
ghost use Rattle.json.specs.Word.{head, is_space};
ghost use Rattle.json.specs.Run.{is_stop, is_plain, is_no_digit};

use std::simd::prelude::*;

/// How many bytes are compared at a time.
const LANES: usize = 16;

/// The byte at a place, or a space past the end.
#[inline(always)]
pub fn byte_at(text: &[u8], at: usize) -> u8
    ensures value { result ≡ get_or text.now at 32 }
    ensures head { result ≡ head (drop at text.now) }
{
    if at < text.len() { text[at] } else { b' ' }
}

#[inline(always)]
fn stops(bytes: u8x16) -> u64
    ensures { result ≡ mask_l (map is_stop bytes) }
{
    (bytes.simd_eq(u8x16::splat(b'"'))
        | bytes.simd_eq(u8x16::splat(b'\\'))
        | bytes.simd_lt(u8x16::splat(0x20))).to_bitmask()
}

#[inline(never)]
fn plain_end_slowly(text: &[u8], from: usize) -> usize
    requires { from ≤ length text.now }
    ensures { result ≡ from + prefix_len is_plain (drop from text.now) }
{
    let mut at = from;
    while at < text.len() && text[at] != b'"' && text[at] != b'\\' && text[at] >= 0x20 {
        at += 1;
    }
    at
}

/// The place of the first quote, backslash or control byte from `from` on, or the length.
#[inline(always)]
pub fn plain_end(text: &[u8], from: usize) -> usize
    requires { from ≤ length text.now }
    ensures value { result ≡ from + prefix_len is_plain (drop from text.now) }
    ensures bound { result ≤ length text.now }
{
    let mut at = from;
    while text.len() - at >= LANES {
        let found = stops(u8x16::from_slice(&text[at..]));
        if found != 0 {
            return at + found.trailing_zeros() as usize;
        }
        at += LANES;
    }
    plain_end_slowly(text, at)
}

#[inline(always)]
fn no_digits(bytes: u8x16) -> u64
    ensures { result ≡ mask_l (map is_no_digit bytes) }
{
    (bytes - u8x16::splat(b'0'))
        .simd_ge(u8x16::splat(10))
        .to_bitmask()
}

/// How many digits stand from `from` on; 0 if there are 16 or more.
#[inline(always)]
pub fn few_digits_len(text: &[u8], from: usize) -> usize
    requires { from + 16 ≤ length text.now }
    ensures within { result < 16 }
    ensures value { 0 < result → result ≡ prefix_len is_ascii_digit (drop from text.now) }
{
    let found = no_digits(u8x16::from_slice(&text[from..]));
    if found == 0 {
        return 0;
    }
    found.trailing_zeros() as usize
}

/// The first byte from `from` on other than a digit, or the length.
#[inline(always)]
pub fn digits_end(text: &[u8], from: usize) -> usize
    requires { from ≤ length text.now }
    ensures value { result ≡ from + prefix_len is_ascii_digit (drop from text.now) }
    ensures bound { result ≤ length text.now }
{
    let mut at = from;
    while at < text.len() && text[at].is_ascii_digit() {
        at += 1;
    }
    at
}

#[inline(always)]
fn is_blank(byte: u8) -> bool
    ensures { result ≡ is_space byte }
{
    (byte == b' ') | (byte == b'\t') | (byte == b'\n') | (byte == b'\r')
}

/// The first byte from `from` on other than a blank, or the length.
#[inline(never)]
pub fn blanks_end(text: &[u8], from: usize) -> usize
    requires { from ≤ length text.now }
    ensures value { result ≡ from + prefix_len is_space (drop from text.now) }
    ensures bound { result ≤ length text.now }
{
    let mut at = from;
    while at < text.len() && is_blank(text[at]) {
        at += 1;
    }
    at
}
