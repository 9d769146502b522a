//! The ranges around a place that an editor can select, each in the next.

use crate::documents::Document;
use crate::documents::changes::position_of;
use crate::documents::entry_ranges::{entry_number_at, entry_range_of, own_start_of};
use crate::documents::occurrences::bytes_of;
use crate::documents::offsets::byte_of;
use crate::documents::positions::Positions;
use crate::requests::nesting::steps_in;
use crate::requests::symbols::symbol_of;
use crate::sessions::replies::nested_range_form;
use fluent_syntax::spans::Span;
use serde_json::Value;
use std::alloc::{AllocError, Global};

/// The ranges around each of the places that the values give, in their order. `AllocError` where a growth was refused.
pub fn selection_range_list(
    alloc: Global,
    document: &Document,
    places: &[Value],
) -> Result<Value, AllocError> {
    let mut list = Vec::new(alloc);
    for value in places {
        let byte = match position_of(value) {
            Some(position) => byte_of(document.text(), position),
            None => 0,
        };
        let mut positions = Positions::new(document.text());
        let mut form = Value::Null;
        for span in &ranges_around(alloc, document, byte)? {
            form = nested_range_form(alloc, &mut positions, *span, form)?;
        }
        list.push(form)?;
    }
    Ok(Value::Array(list))
}

/// The whole text, and in it the entry with its comment, the entry alone, its value or attribute, the pattern of that,
/// the placeables with the variants in them, and the word, as far as they are around the byte.
fn ranges_around(alloc: Global, document: &Document, byte: usize) -> Result<Vec<Span>, AllocError> {
    let (text, body) = (document.text(), document.body());
    let mut around = Vec::new(alloc);
    around.push(Span {
        start: 0,
        end: text.len(),
    })?;
    let number = entry_number_at(text, body, byte).unwrap_or(0);
    if let (Some(entry), Some(whole)) = (body.get(number), entry_range_of(text, body, number)) {
        add_around(&mut around, whole, byte)?;
        let own = Span {
            start: own_start_of(entry).unwrap_or(whole.end),
            end: whole.end,
        };
        add_around(&mut around, own, byte)?;
        if let Some(symbol) = symbol_of(alloc, entry, whole)? {
            for part in &symbol.parts(alloc, text)? {
                add_around(&mut around, *part, byte)?;
                add_around(&mut around, pattern_in(text, *part), byte)?;
            }
        }
        for step in steps_in(alloc, text.as_bytes(), own)?.iter().rev() {
            if !is_at_edge_of_placeable(text.as_bytes(), *step, byte) {
                add_around(&mut around, *step, byte)?;
            }
        }
    }
    add_around(&mut around, word_at(text, byte), byte)?;
    Ok(around)
}

/// Whether the range is a placeable, and the byte is where that begins or ends.
fn is_at_edge_of_placeable(text: &[u8], span: Span, byte: usize) -> bool {
    text.get(span.start) == Some(&b'{') && (byte == span.start || byte == span.end)
}

/// Adds a range, if the byte is in it, and it is in the last one and not the same.
fn add_around(around: &mut Vec<Span>, span: Span, byte: usize) -> Result<(), AllocError> {
    let is_inner = match around.last() {
        Some(last) => last.start <= span.start && span.end <= last.end && *last != span,
        None => false,
    };
    if is_inner && span.start <= byte && byte <= span.end && span.start < span.end {
        around.push(span)?;
    }
    Ok(())
}

/// What follows the first `=` of a value or an attribute, and the blanks after that.
fn pattern_in(text: &str, part: Span) -> Span {
    match bytes_of(text, part).split_once('=') {
        Some((_, rest)) => Span {
            start: part
                .end
                .saturating_sub(rest.trim_start_matches(is_blank).len()),
            end: part.end,
        },
        None => part,
    }
}

fn is_blank(c: char) -> bool {
    matches!(c, ' ' | '\n' | '\r')
}

/// The name or the word in which the byte is, with the `$` of a variable.
fn word_at(text: &str, byte: usize) -> Span {
    let before = text.get(..byte).unwrap_or("").trim_end_matches(is_word);
    let after = text.get(byte..).unwrap_or("");
    let rest = after.trim_start_matches(is_word);
    Span {
        start: before.strip_suffix('$').unwrap_or(before).len(),
        end: text.len().saturating_sub(rest.len()),
    }
}

fn is_word(c: char) -> bool {
    c.is_alphanumeric() || matches!(c, '-' | '_')
}
