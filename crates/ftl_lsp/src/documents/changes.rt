//! A change of a document, as the protocol gives it.
ghost use Rattle.std.specs.Prelude.{◌≡◌, map, option_and_then, option_map, string_bytes, IfOk};
ghost use Rattle.serde_json.specs.Find.{as_number, as_u64};
ghost use Rattle.serde_json.specs.View.{items_view, view};
ghost use Rattle.ftl_lsp.specs.Edits.{edit_in, edit_of, edits_in, position_in};
ghost use Rattle.ftl_lsp.specs.Changes.{ChangesBetween, MakesEdit, MakesEdits};
ghost use Rattle.ftl_lsp.specs.Offsets.{IsByteOf};

use crate::documents::offsets::byte_of;
use crate::documents::positions::Position;
use serde_json::Value;
use std::alloc::{AllocError, Global};

/// A change: another text, or another stretch between two places.
#[derive(Clone, Copy, Drop)]
pub enum Change<'m> {
    Whole(&'m str),
    Between {
        start: Position,
        end: Position,
        text: &'m str,
    },
}

/// The change that a value gives. None where it gives none.
pub fn change_of(value: &Value) -> Option<Change<'_>>
    ensures { option_map edit_of result ≡ edit_in (view value.now) }
{
    let text = value.get("text").and_then(Value::as_str)?;
    match value.get("range") {
        None | Some(Value::Null) => Some(Change::Whole(text)),
        Some(range) => Some(Change::Between {
            start: position_of(range.get("start")?)?,
            end: position_of(range.get("end")?)?,
            text,
        }),
    }
}

/// The changes that the values give, in order. None where one of them gives none. `AllocError` where a growth was
/// refused.
pub fn changes_of(alloc: Global, values: &[Value]) -> Result<Option<Vec<Change<'_>>>, AllocError>
    ensures { IfOk result
        (λ found. option_map (λ changes. map edit_of changes.items) found ≡ edits_in (items_view values.now)) }
{
    let mut changes = Vec::new(alloc);
    for value in values {
        let Some(change) = change_of(value) else {
            return Ok(None);
        };
        changes.push(change)?;
    }
    Ok(Some(changes))
}

/// The place that a value gives. None where it gives none.
pub fn position_of(value: &Value) -> Option<Position>
    ensures { result ≡ position_in (view value.now) }
{
    Some(Position {
        line: number_of(value.get("line")?)?,
        character: number_of(value.get("character")?)?,
    })
}

fn number_of(value: &Value) -> Option<usize>
    ensures { result ≡ option_and_then as_u64 (as_number (view value.now)) }
{
    usize::try_from(value.as_u64()?).ok()
}

impl Change<'_> {
    /// The text with the change made. `AllocError` where a growth was refused.
    fn text_made_of(&self, alloc: Global, text: &str) -> Result<String, AllocError>
        ensures { IfOk result (λ made. MakesEdit text.now (edit_of self.now) (string_bytes made)) }
    {
        match self {
            Change::Whole(whole) => String::from_str(alloc, whole),
            Change::Between {
                start,
                end,
                text: new,
            } => text_after_range(alloc, text, *start, *end, new),
        }
    }
}

/// The text with another in place of what is between two places, in whichever order they come.
fn text_after_range(
    alloc: Global,
    text: &str,
    start: Position,
    end: Position,
    new: &str,
) -> Result<String, AllocError>
    ensures { IfOk result (λ made. ChangesBetween text.now start end new.now (string_bytes made)) }
{
    let first = byte_of(text, start);
    let last = end_byte(text, start, first, end);
    let mut made = String::from_str(alloc, &text[..first.min(last)])?;
    made.push_str(new)?;
    made.push_str(&text[first.max(last)..])?;
    Ok(made)
}

/// The byte of the place where a range ends that begins at another, whose byte is known: mostly these are the same.
fn end_byte(text: &str, start: Position, first: usize, end: Position) -> usize
    requires { IsByteOf text.now start first }
    ensures { IsByteOf text.now end result }
{
    if end == start {
        first
    } else {
        byte_of(text, end)
    }
}

/// The text with the changes made, one after another. `AllocError` where a growth was refused.
pub fn text_after(alloc: Global, text: &str, changes: &[Change<'_>]) -> Result<String, AllocError>
    ensures { IfOk result (λ made. MakesEdits text.now (map edit_of changes.now) (string_bytes made)) }
{
    let mut made = String::from_str(alloc, text)?;
    for change in changes {
        made = change.text_made_of(alloc, made.as_str())?;
    }
    Ok(made)
}
