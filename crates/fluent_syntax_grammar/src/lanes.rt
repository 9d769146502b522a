//! Runs of bytes, sixteen bytes at a time.
ghost use Rattle.std.specs.Prelude.{◌≡◌, ◌+◌, ◌≤◌, ◌==◌, length, if◌then◌else◌};
ghost use Rattle.std.specs.Int.{trailing_zeros, w64};
ghost use Rattle.std.specs.List.{prefix_len};
ghost use Rattle.fluent_syntax_grammar.specs.Bytes.{is_name_byte};
ghost use Rattle.fluent_syntax_grammar.specs.Lanes.{RunOf, is_passed};

use std::simd::prelude::*;

/// How many bytes are looked at at once.
pub const LANES: usize = 16;

/// How many lanes come before the first that is set, or all.
#[inline(always)]
fn lanes_before(mask: u64) -> usize
    ensures { result ≡ (if mask == 0 then 16 else trailing_zeros w64 mask) }
{
    if mask == 0 {
        LANES
    } else {
        mask.trailing_zeros() as usize
    }
}

/// How many of the sixteen bytes at a place are name bytes, before one that is none.
#[inline(always)]
pub fn name_run(bytes: &[u8], at: usize) -> usize
    requires { at + LANES ≤ length bytes.now }
    ensures run { RunOf is_name_byte bytes.now at 16 result }
{
    let lanes = u8x16::from_slice(&bytes[at..]);
    let from_letter = (lanes | u8x16::splat(0x20)) - u8x16::splat(b'a');
    let from_digit = lanes - u8x16::splat(b'0');
    let no_letter_or_digit = from_letter.simd_ge(u8x16::splat(26))
        & from_digit.simd_ge(u8x16::splat(10));
    let no_mark = lanes.simd_ne(u8x16::splat(b'-')) & lanes.simd_ne(u8x16::splat(b'_'));
    lanes_before((no_letter_or_digit & no_mark).to_bitmask())
}

/// How many of the sixteen bytes at a place come before an LF or a brace.
#[inline(always)]
pub fn text_run(bytes: &[u8], at: usize) -> usize
    requires { at + LANES ≤ length bytes.now }
    ensures run { RunOf is_passed bytes.now at 16 result }
{
    let lanes = u8x16::from_slice(&bytes[at..]);
    let is_brace = lanes.simd_eq(u8x16::splat(b'{')) | lanes.simd_eq(u8x16::splat(b'}'));
    lanes_before((lanes.simd_eq(u8x16::splat(b'\n')) | is_brace).to_bitmask())
}

/// How many bytes come before the first that is no name byte, or all.
pub fn name_len(bytes: &[u8]) -> usize
    ensures { result ≡ prefix_len is_name_byte bytes.now }
{
    if bytes.len() < LANES {
        return short_name_len(bytes);
    }
    // the last sixteen are looked at from where they begin, though some were seen
    let last = bytes.len() - LANES;
    let mut start = 0;
    while start < last {
        let run = name_run(bytes, start);
        if run < LANES {
            return start + run;
        }
        start += LANES;
    }
    last + name_run(bytes, last)
}

fn short_name_len(bytes: &[u8]) -> usize
    ensures { result ≡ prefix_len is_name_byte bytes.now }
{
    for (index, byte) in bytes.iter().enumerate() {
        if !is_name_byte(*byte) {
            return index;
        }
    }
    bytes.len()
}

/// Whether it is an ASCII letter or digit, `-` or `_`.
#[inline(always)]
pub fn is_name_byte(byte: u8) -> bool
    ensures { result ≡ is_name_byte byte }
{
    byte.is_ascii_alphanumeric() || byte == b'-' || byte == b'_'
}

/// How many bytes come before the first LF or brace, or all.
pub fn text_len(bytes: &[u8]) -> usize
    ensures { result ≡ prefix_len is_passed bytes.now }
{
    if bytes.len() < LANES {
        return short_text_len(bytes);
    }
    let last = bytes.len() - LANES;
    let mut start = 0;
    while start < last {
        let run = text_run(bytes, start);
        if run < LANES {
            return start + run;
        }
        start += LANES;
    }
    last + text_run(bytes, last)
}

fn short_text_len(bytes: &[u8]) -> usize
    ensures { result ≡ prefix_len is_passed bytes.now }
{
    for (index, byte) in bytes.iter().enumerate() {
        if !is_passed(*byte) {
            return index;
        }
    }
    bytes.len()
}

/// Whether it is no LF and no brace.
fn is_passed(byte: u8) -> bool
    ensures { result ≡ is_passed byte }
{
    !(byte == b'\n' || byte == b'{' || byte == b'}')
}
