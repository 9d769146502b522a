//! Tests of one text of a pattern or of a line of a comment.
ghost use Rattle.std.specs.Prelude.{◌≡◌, None};
ghost use Rattle.std.specs.List.{list_all, list_any};
ghost use Rattle.fluent_syntax_grammar.specs.Bytes.{cr, is_space};
ghost use Rattle.fluent_syntax_grammar.specs.Elements.{is_nonblank};
ghost use Rattle.fluent_syntax_grammar.specs.Lanes.{is_passed};
ghost use Rattle.fluent_syntax_grammar.specs.PatternTexts.{is_brace, has_crlf, is_spaces, begins_with_space};
ghost use Rattle.fluent_syntax_grammar.specs.PatternTexts.{leading_spaces, after_spaces, ends_plainly};
ghost use Rattle.fluent_syntax_grammar.specs.Readable.{is_text};
ghost use Rattle.fluent_syntax_grammar.specs.Written.{has_lf, is_last, is_nonblank_line, last_of, begins_with_mark};
ghost use Rattle.fluent_syntax_grammar.specs.Written.{is_leading_mark};
ghost use Rattle.fluent_syntax_writer.specs.Texts.{ends_in_crlf};

use fluent_syntax_grammar::lanes::text_len;
use fluent_syntax_grammar::texts::{self, ends_in_lf, without_last_lf};
use fluent_syntax_tree::trimming::is_trimmed;

/// Whether the text is not empty, and holds no brace, no CR directly before an LF, and an LF only as its last byte.
pub(crate) fn is_text(text: &str) -> bool
    ensures { result ≡ is_text text.now }
{
    let bytes = text.as_bytes();
    if bytes.is_empty() {
        return false;
    }
    // its line is what comes before the LF that ends it
    is_text_line(without_last_lf(bytes)) && !ends_in_crlf(text)
}

/// Whether the bytes hold no LF and no brace.
fn is_text_line(bytes: &[u8]) -> bool
    ensures { result ≡ list_all is_passed bytes.now }
{
    text_len(bytes) == bytes.len()
}

fn ends_in_crlf(text: &str) -> bool
    ensures { result ≡ ends_in_crlf text.now }
{
    ends_in_lf(text) && ends_in_cr(without_last_lf(text.as_bytes()))
}

fn ends_in_cr(bytes: &[u8]) -> bool
    ensures { result ≡ is_last cr (last_of None bytes.now) }
{
    match bytes {
        [.., last] => *last == b'\r',
        [] => false,
    }
}

pub(crate) fn has_brace(bytes: &[u8]) -> bool
    ensures { result ≡ list_any is_brace bytes.now }
{
    bytes.iter().any(|byte| is_brace(*byte))
}

fn is_brace(byte: u8) -> bool
    ensures { result ≡ is_brace byte }
{
    byte == b'{' || byte == b'}'
}

/// Whether a CR comes directly before an LF.
pub(crate) fn has_crlf(bytes: &[u8]) -> bool
    ensures { result ≡ has_crlf bytes.now }
{
    let mut after_cr = false;
    for byte in bytes {
        if after_cr && *byte == b'\n' {
            return true;
        }
        after_cr = *byte == b'\r';
    }
    false
}

pub(crate) fn has_lf(bytes: &[u8]) -> bool
    ensures { result ≡ has_lf bytes.now }
{
    bytes.contains(&b'\n')
}

/// Whether the text holds a byte other than space, apart from an ending LF.
pub(crate) fn is_nonblank(text: &str) -> bool
    ensures { result ≡ is_nonblank text.now }
{
    texts::is_nonblank(text.as_bytes())
}

pub(crate) fn is_spaces(text: &str) -> bool
    ensures { result ≡ is_spaces text.now }
{
    are_spaces(text.as_bytes())
}

fn are_spaces(bytes: &[u8]) -> bool
    ensures { result ≡ list_all is_space bytes.now }
{
    bytes.iter().all(|byte| *byte == b' ')
}

pub(crate) fn begins_with_space(text: &str) -> bool
    ensures { result ≡ begins_with_space text.now }
{
    match text.as_bytes() {
        [first, ..] => *first == b' ',
        [] => false,
    }
}

/// How many spaces begin the text.
pub(crate) fn leading_spaces(bytes: &[u8]) -> usize
    ensures { result ≡ leading_spaces bytes.now }
{
    for (index, byte) in bytes.iter().enumerate() {
        if *byte != b' ' {
            return index;
        }
    }
    bytes.len()
}

/// Whether the text begins, after spaces, with `.`, `[` or `*`.
pub(crate) fn begins_line_with_mark(text: &str) -> bool
    ensures { result ≡ begins_with_mark (after_spaces text.now) }
{
    for byte in text.as_bytes() {
        if *byte != b' ' {
            return is_leading_mark(*byte);
        }
    }
    false
}

/// Whether the text begins with `.`, `[` or `*`.
pub(crate) fn begins_with_mark(text: &str) -> bool
    ensures { result ≡ begins_with_mark text.now }
{
    match text.as_bytes() {
        [first, ..] => is_leading_mark(*first),
        [] => false,
    }
}

fn is_leading_mark(byte: u8) -> bool
    ensures { result ≡ is_leading_mark byte }
{
    byte == b'.' || byte == b'[' || byte == b'*'
}

/// Whether the last byte is no space, CR or LF.
pub(crate) fn ends_plainly(text: &str) -> bool
    ensures { result ≡ ends_plainly text.now }
{
    match text.as_bytes() {
        [.., last] => !is_trimmed(*last),
        [] => false,
    }
}

/// Whether the line holds a byte other than space, CR and LF.
pub fn is_nonblank_line(line: &str) -> bool
    ensures { result ≡ is_nonblank_line line.now }
{
    line.as_bytes().iter().any(|byte| !is_trimmed(*byte))
}
