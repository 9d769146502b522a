//! Which names may be at a place, as the text before it shows.

use crate::documents::entry_ranges::{entry_line_start, start_of_line};
use crate::documents::occurrences::{Name, NameKind, is_name_byte};
use crate::requests::nesting::{LevelKind, levels_at};
use fluent_syntax_grammar::lanes::name_len;
use std::alloc::{AllocError, Global};

/// Which names may be at a place.
#[derive(Clone, Copy)]
pub enum Expected<'t> {
    /// The messages and terms that the file is still to define.
    Entries,
    /// The attributes that the entry is still to define.
    Attributes,
    VariantKeys,
    Variables,
    Terms,
    /// Messages, terms, variables and functions.
    References,
    /// The attributes of a message or term.
    AttributesOf(Name<'t>),
    Nothing,
}

/// Where the name begins that ends at the byte.
pub fn begin_of_name(text: &[u8], end: usize) -> usize {
    for at in (0..end.min(text.len())).rev() {
        if !is_name_byte(text[at]) {
            return at + 1;
        }
    }
    0
}

/// Where the name ends that goes on at the byte.
pub fn end_of_name(text: &str, begin: usize) -> usize {
    let rest = text.get(begin..).unwrap_or("");
    begin.saturating_add(name_len(rest.as_bytes()))
}

/// The name of the message or term that the place is in, as far as its text shows that.
pub fn entry_name_at(text: &str, byte: usize) -> Name<'_> {
    let entry = text
        .get(entry_line_start(text.as_bytes(), byte)..)
        .unwrap_or("");
    definition_name(entry.get(..name_len(entry.as_bytes())).unwrap_or(""))
}

/// The name of the message or term that is written so.
fn definition_name(label: &str) -> Name<'_> {
    let (kind, name) = match label.strip_prefix('-') {
        Some(name) => (NameKind::Term, name),
        None => (NameKind::Message, label),
    };
    Name {
        kind,
        name,
        attribute: None,
    }
}

/// What may be where the name is that begins and ends there. Nothing within a string literal or a comment.
/// `AllocError` where a growth was refused.
pub fn expected_at(
    alloc: Global,
    text: &str,
    begin: usize,
    end: usize,
) -> Result<Expected<'_>, AllocError> {
    let bytes = text.as_bytes();
    let line = start_of_line(bytes, begin);
    let is_last = is_line_end(text, end);
    if line == begin {
        return Ok(if is_last {
            Expected::Entries
        } else {
            Expected::Nothing
        });
    }
    let entry = entry_line_start(bytes, begin);
    if bytes.get(entry) == Some(&b'#') {
        return Ok(Expected::Nothing);
    }
    let before = text.get(line..begin).unwrap_or("");
    Ok(match levels_at(alloc, bytes, entry, begin)?.innermost() {
        None if is_last && before.trim_start_matches(' ') == "." => Expected::Attributes,
        Some(LevelKind::VariantKey) => Expected::VariantKeys,
        Some(LevelKind::Placeable) => expected_in_placeable(text, begin, end),
        _ => Expected::Nothing,
    })
}

/// Whether the line has nothing after the byte.
fn is_line_end(text: &str, byte: usize) -> bool {
    let rest = text.get(byte..).unwrap_or("");
    rest.is_empty() || rest.starts_with('\n') || rest.starts_with("\r\n")
}

/// The same in a placeable: an expression begins after a brace, a parenthesis, a comma or a colon.
fn expected_in_placeable(text: &str, begin: usize, end: usize) -> Expected<'_> {
    let before = text.get(..begin).unwrap_or("");
    if before.ends_with('$') {
        return Expected::Variables;
    }
    if before.ends_with('.') {
        let owner_end = begin.saturating_sub(1);
        let owner = text.get(begin_of_name(text.as_bytes(), owner_end)..owner_end);
        return Expected::AttributesOf(definition_name(owner.unwrap_or("")));
    }
    let is_term = text.get(begin..end).unwrap_or("").starts_with('-');
    match before.trim_end().as_bytes().last() {
        Some(b'{' | b'(' | b',' | b':') if is_term => Expected::Terms,
        Some(b'{' | b'(' | b',' | b':') => Expected::References,
        _ => Expected::Nothing,
    }
}
