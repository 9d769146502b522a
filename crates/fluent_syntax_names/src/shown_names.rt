//! Names, as they are shown.
ghost use Rattle.std.specs.Prelude.{◌≡◌};
ghost use Rattle.fluent_syntax_names.specs.ShownNames.{characters_at, full_name, is_boundary, is_name_byte};
ghost use Rattle.fluent_syntax_names.specs.ShownNames.{last_name_start, shown_name, with_entry, with_hyphen};

use crate::qualified_names::name_at;
use fluent_syntax_tree::spans::Span;

/// The name at a range of the text, as it is shown: that of a term has its `-`. None where it is no range of the text's
/// characters.
pub fn shown_name(text: &str, name: Span) -> &str
    ensures { result.now ≡ shown_name text.now name }
{
    characters_at(text, with_hyphen(text, name))
}

/// The name at a range of the text, as sentences have it: an attribute in a reference is `name.attribute`, or
/// `-name.attribute`, and any other name as it is shown.
pub fn full_name(text: &str, name: Span) -> &str
    ensures { result.now ≡ full_name text.now name }
{
    characters_at(text, with_entry(text, name))
}

/// The range of a name with that of its entry and the `.` before it, or with the `-` before it.
fn with_entry(text: &str, name: Span) -> Span
    ensures { result ≡ with_entry text.now name }
{
    let dot = name.start.saturating_sub(1);
    let start = last_name_start(name_at(text, Span { start: 0, end: dot }));
    let before = Span {
        start: dot,
        end: name.start,
    };
    if matches!(name_at(text, before), [b'.']) && start < dot {
        Span {
            start,
            end: name.end,
        }
    } else {
        with_hyphen(text, name)
    }
}

/// Where the name begins that ends the bytes.
fn last_name_start(bytes: &[u8]) -> usize
    ensures { result ≡ last_name_start bytes.now }
{
    let mut start = bytes.len();
    while start > 0 && is_name_byte(bytes[start - 1]) {
        start -= 1;
    }
    start
}

/// Whether it is a letter, a digit, `-` or `_`.
fn is_name_byte(byte: u8) -> bool
    ensures { result ≡ is_name_byte byte }
{
    byte >= b'a' && byte <= b'z'
        || byte >= b'A' && byte <= b'Z'
        || byte >= b'0' && byte <= b'9'
        || byte == b'-'
        || byte == b'_'
}

/// The range of a name with the `-` before it, where there is one.
fn with_hyphen(text: &str, name: Span) -> Span
    ensures { result ≡ with_hyphen text.now name }
{
    let start = name.start.saturating_sub(1);
    let before = Span {
        start,
        end: name.start,
    };
    if matches!(name_at(text, before), [b'-']) {
        Span {
            start,
            end: name.end,
        }
    } else {
        name
    }
}

/// The characters of a range of the text; none where it is no range of them.
fn characters_at(text: &str, span: Span) -> &str
    ensures { result.now ≡ characters_at text.now span }
{
    if span.start <= span.end && is_boundary(text, span.start) && is_boundary(text, span.end) {
        &text[span.start..span.end]
    } else {
        ""
    }
}

/// Whether a character of the text begins there, or the text ends.
fn is_boundary(text: &str, place: usize) -> bool
    ensures { result ≡ is_boundary text.now place }
{
    text.is_char_boundary(place)
}
