//! What is in a JSON string for the bytes of a text.
ghost use Rattle.std.specs.Prelude.{◌≡◌, ◌+◌, ◌<◌, ◌≤◌, ◌∷◌, ◌++◌, [], ◌/◌, length, IfSome, MatchOption, false};
ghost use Rattle.std.specs.Bool.{OnTrue};
ghost use Rattle.std.specs.Char.{digit_char};
ghost use Rattle.json.specs.Print.{escape_letter, escape_byte, escape};
ghost use Rattle.json.specs.Run.{is_plain};
ghost use Rattle.json.specs.Written.{PlainBetween};
ghost use Rattle.fluent_syntax_json.specs.Writing.{IsPlainBefore};

use std::simd::prelude::*;

/// How many bytes are looked at at once.
const BLOCK: usize = 8;

/// Whether the block of bytes from this place on represents itself.
#[inline(always)]
fn is_plain_block(bytes: &[u8], start: usize) -> bool
    requires { start + 8 ≤ length bytes.now }
    ensures { OnTrue result (PlainBetween bytes.now start (start + 8)) }
{
    let block = u8x8::from_slice(&bytes[start..]);
    (block.simd_eq(u8x8::splat(b'"'))
        | block.simd_eq(u8x8::splat(b'\\'))
        | block.simd_lt(u8x8::splat(b' '))).to_bitmask()
        == 0
}

/// The end of the whole blocks that the bytes begin with and that represent themselves.
#[inline(always)]
fn plain_blocks_end(bytes: &[u8]) -> usize
    ensures within { result ≤ length bytes.now }
    ensures plain { IsPlainBefore bytes.now result }
{
    let mut end = 0;
    while bytes.len() - end >= BLOCK && is_plain_block(bytes, end) {
        end += BLOCK;
    }
    end
}

/// Whether the byte represents itself.
#[inline(always)]
fn is_plain(byte: u8) -> bool
    ensures { result ≡ is_plain byte }
{
    !(byte == b'"' || byte == b'\\' || byte < b' ')
}

/// The text before the first byte that is escaped, that byte, and the text after it; or `None` where every byte
/// represents itself.
pub fn split_at_escape(text: &str) -> Option<(&str, u8, &str)>
    ensures parts { MatchOption result (escape text.now ≡ text.now)
        (λ parts. escape text.now ≡ parts.0.now ++ (escape_byte parts.1 ++ escape parts.2.now)) }
    ensures escaped { IfSome result (λ parts. is_plain parts.1 ≡ false) }
    ensures shorter { IfSome result (λ parts. length parts.2.now < length text.now) }
{
    let bytes = text.as_bytes();
    let mut end = plain_blocks_end(bytes);
    while end < bytes.len() {
        let byte = bytes[end];
        if !is_plain(byte) {
            return Some((&text[..end], byte, &text[end + 1..]));
        }
        end += 1;
    }
    None
}

/// The escape of two bytes, or `None` for a byte that has none.
#[tactic(auto, unfolding(json::specs::Print::escape_byte))]
pub fn short_escape(byte: u8) -> Option<&'static str>
    ensures { MatchOption result (escape_letter byte ≡ 0) (λ text. text.now ≡ escape_byte byte) }
{
    match byte {
        b'"' => Some("\\\""),
        b'\\' => Some("\\\\"),
        8 => Some("\\b"),
        9 => Some("\\t"),
        b'\n' => Some("\\n"),
        12 => Some("\\f"),
        b'\r' => Some("\\r"),
        _ => None,
    }
}

/// The hexadecimal digit of this value.
pub fn hexadecimal_digit(value: u8) -> &'static str
    requires { value < 16 }
    ensures { result.now ≡ digit_char value ∷ [] }
{
    match value {
        0 => "0",
        1 => "1",
        2 => "2",
        3 => "3",
        4 => "4",
        5 => "5",
        6 => "6",
        7 => "7",
        8 => "8",
        9 => "9",
        10 => "a",
        11 => "b",
        12 => "c",
        13 => "d",
        14 => "e",
        _ => "f",
    }
}
