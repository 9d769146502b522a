//! The fields of a header, and the length that one of them names.
ghost use Rattle.std.specs.Prelude.{◌≡◌, ◌↔◌, ◌+◌, ◌≤◌, IsTrue, drop, length};
ghost use Rattle.std.specs.List.{list_all};
ghost use Rattle.ftl_lsp.specs.Fields.{HasLength, NamesLength, digits_after, digits_of, is_blank, is_digit};
ghost use Rattle.ftl_lsp.specs.Fields.{number_of};

use crate::limits::BODY_LIMIT;
use crate::sessions::breaks::line_end;

/// The number of the first field `Content-Length` of a header, whose fields are lines that end in CRLF. None where
/// there is no such field, or where its value is not a decimal number. A number beyond `BODY_LIMIT` counts as
/// `BODY_LIMIT + 1`.
pub fn content_length(header: &[u8]) -> Option<usize>
    ensures { HasLength header.now result }
{
    let mut rest = header;
    loop {
        let end = line_end(rest);
        let (line, _) = rest.split_at(end);
        if is_length_field(line) {
            return length_field_value(line);
        }
        if rest.len() - end < 2 {
            return None;
        }
        (_, rest) = rest.split_at(end + 2);
    }
}

/// Whether a line is the field `Content-Length`, whose letters count in either case.
fn is_length_field(line: &[u8]) -> bool
    ensures { IsTrue result ↔ NamesLength line.now }
{
    line.len() >= 15 && line[..15].eq_ignore_ascii_case(b"content-length:")
}

/// The number of that field: digits, with spaces and tabs around them.
fn length_field_value(line: &[u8]) -> Option<usize>
    requires { 15 ≤ length line.now }
    ensures { result ≡ number_of (drop 15 line.now) }
{
    let mut rest = &line[15..];
    while let Some((first, others)) = rest.split_first() {
        if !is_space(*first) {
            return digits(rest);
        }
        rest = others;
    }
    None
}

/// The number of digits, of which there is at least one, with spaces and tabs after them.
fn digits(text: &[u8]) -> Option<usize>
    ensures { result ≡ digits_of text.now }
{
    let (first, others) = text.split_first()?;
    if is_ten_digit(*first) {
        number_with_digits(usize::from(*first - b'0'), others)
    } else {
        None
    }
}

/// The number of further digits after a number, with spaces and tabs after them.
fn number_with_digits(number: usize, text: &[u8]) -> Option<usize>
    requires { number ≤ BODY_LIMIT + 1 }
    ensures { result ≡ digits_after number text.now }
{
    let mut number = number;
    let mut rest = text;
    while let Some((first, others)) = rest.split_first() {
        if !is_ten_digit(*first) {
            return if is_all_space(rest) {
                Some(number)
            } else {
                None
            };
        }
        number = (number * 10 + usize::from(*first - b'0')).min(BODY_LIMIT + 1);
        rest = others;
    }
    Some(number)
}

/// Whether there are only spaces and tabs.
fn is_all_space(text: &[u8]) -> bool
    ensures { result ≡ list_all is_blank text.now }
{
    text.iter().all(|byte| is_space(*byte))
}

/// Whether the byte is a decimal digit.
fn is_ten_digit(byte: u8) -> bool
    ensures { result ≡ is_digit byte }
{
    byte >= b'0' && byte <= b'9'
}

/// Whether the byte is a space or a tab.
fn is_space(byte: u8) -> bool
    ensures { result ≡ is_blank byte }
{
    byte == b' ' || byte == b'\t'
}
