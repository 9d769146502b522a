//! The edits. An entry or a pattern that is new is joined first, so what was read of a text with CRLF is taken.
ghost use Rattle.std.specs.Prelude.{◌≡◌, ◌⊎◌, ◌++◌, Err, drop, take, IfNone, IfOk, IfSome, string_bytes};
ghost use Rattle.fluent_syntax_edits.specs.Changes.{change_of, inserts, joined_part, removes, replaces, sets};
ghost use Rattle.fluent_syntax_edits.specs.Edits.{IsEditResult, IsRead, new_text};
ghost use Rattle.fluent_syntax_edits.specs.declared.edited_ranges.ValueTarget.TheVariants.{Attribute, Value};
ghost use Rattle.fluent_syntax_grammar.specs.Joined.{joined_pattern};
ghost use Rattle.fluent_syntax_tree.specs.View.{entry_view, pattern_view};
ghost use Rattle.std.specs.Str.{IsCharBoundary};

use crate::edit::{Edit, attempts, refusal, replacement_text, with_line_ends};
use crate::edited_ranges::{ValueTarget, range_of};
use crate::fault::EditFault;
use crate::own_parts::{own_entry, own_pattern};
use crate::reading::{Shift, reads_changed};
use fluent_syntax_tree::ast::{Entry, Pattern};
use fluent_syntax_tree::edition::Edition;
use fluent_syntax_tree::slice::Slice;
use fluent_syntax_tree::spans::Span;
use std::alloc::{AllocError, Global};

/// The source with the text in place of the stretch.
fn spliced_text(
    alloc: Global,
    source: &str,
    replaced: Span,
    text: &str,
) -> Result<String, AllocError>
    requires start { IsCharBoundary source.now replaced.start }
    requires end { IsCharBoundary source.now replaced.end }
    ensures { IfOk result (λ made. string_bytes made
        ≡ take replaced.start source.now ++ (text.now ++ drop replaced.end source.now)) }
{
    let mut made = String::from_str(alloc, &source[..replaced.start])?;
    made.push_str(text)?;
    made.push_str(&source[replaced.end..])?;
    Ok(made)
}

/// The source with the edit made at the entry of that number.
fn edited_text(
    alloc: Global,
    source: &str,
    edition: Edition,
    index: usize,
    edit: &Edit,
) -> Result<String, EditFault>
    ensures { IsEditResult edition source.now index (change_of edit.now) result }
{
    let replaced = range_of(alloc, source, edition, index, edit)?;
    let cuts = source.is_char_boundary(replaced.start) && source.is_char_boundary(replaced.end);
    if !cuts {
        // entries and values begin and end between characters
        return Err(EditFault::Memory);
    }
    let refusal = refusal(alloc, edition, edit)?;
    for line_ends in 0..attempts(edit) {
        let found = attempt(alloc, source, edition, index, edit, replaced, line_ends)?;
        if let Some(made) = found {
            return Ok(made);
        }
    }
    Err(refusal)
}

/// The source with the edit made in the stretch, after so many line ends, if it is read so.
fn attempt(
    alloc: Global,
    source: &str,
    edition: Edition,
    index: usize,
    edit: &Edit,
    replaced: Span,
    line_ends: usize,
) -> Result<Option<String>, AllocError>
    requires start { IsCharBoundary source.now replaced.start }
    requires end { IsCharBoundary source.now replaced.end }
    ensures some { IfOk result (λ found. IfSome found (λ made.
        (string_bytes made ≡ new_text edition source.now index (change_of edit.now) line_ends replaced)
        × IsRead edition source.now index (change_of edit.now) line_ends replaced)) }
    ensures none { IfOk result (λ found. IfNone found
        (¬ (IsRead edition source.now index (change_of edit.now) line_ends replaced))) }
{
    let mut text = with_line_ends(String::new(alloc), line_ends)?;
    let new = replacement_text(alloc, source.as_bytes(), replaced.end, edit)?;
    text.push_str(new.as_str())?;
    let made = spliced_text(alloc, source, replaced, text.as_str())?;
    let to = replaced.start + text.len();
    let shift = Shift { replaced, to };
    if reads_changed(alloc, source, &made, edition, index, edit, shift)? {
        Ok(Some(made))
    } else {
        Ok(None)
    }
}

/// The source with the entry in place of the one of that number, counted from 0 as in the tree, and of the comment that
/// is attached to that one.
pub fn replace<'s, S: Slice<'s>>(
    alloc: Global,
    source: &str,
    edition: Edition,
    index: usize,
    entry: &Entry<S>,
) -> Result<String, EditFault>
    ensures { IsEditResult edition source.now index (replaces (joined_part (entry_view S.text entry.now))) result }
{
    let entry = own_entry(alloc, entry)?;
    edited_text(alloc, source, edition, index, &Edit::Replace(entry))
}

/// The source with the entry before the one of that number, counted from 0 as in the tree, and before the comment that
/// is attached to that one. With the number after the last it is at the end of the source. Before it come a line end or
/// two where it would be read otherwise without them.
pub fn insert<'s, S: Slice<'s>>(
    alloc: Global,
    source: &str,
    edition: Edition,
    index: usize,
    entry: &Entry<S>,
) -> Result<String, EditFault>
    ensures { IsEditResult edition source.now index (inserts (joined_part (entry_view S.text entry.now))) result }
{
    let entry = own_entry(alloc, entry)?;
    edited_text(alloc, source, edition, index, &Edit::Insert(entry))
}

/// The source without the entry of that number, counted from 0 as in the tree, the comment that is attached to it and
/// the blank lines after it.
pub fn remove(
    alloc: Global,
    source: &str,
    edition: Edition,
    index: usize,
) -> Result<String, EditFault>
    ensures { IsEditResult edition source.now index removes result }
{
    edited_text(alloc, source, edition, index, &Edit::Remove)
}

/// The source with the pattern in place of the value of the message or the term of that number, counted from 0 as in
/// the tree.
pub fn set_value(
    alloc: Global,
    source: &str,
    edition: Edition,
    index: usize,
    value: &Pattern<&str>,
) -> Result<String, EditFault>
    ensures { let v = joined_pattern (pattern_view (λ text. text.now) value.now) in
        IsEditResult edition source.now index (sets Value v) result }
{
    let value = own_pattern(alloc, value)?;
    edited_text(
        alloc,
        source,
        edition,
        index,
        &Edit::Set(ValueTarget::Value, value),
    )
}

/// The source with the pattern in place of the value of an attribute, which has that number among those of the message
/// or the term of that number; both are counted from 0 as in the tree.
pub fn set_attribute(
    alloc: Global,
    source: &str,
    edition: Edition,
    index: usize,
    attribute: usize,
    value: &Pattern<&str>,
) -> Result<String, EditFault>
    ensures { let v = joined_pattern (pattern_view (λ text. text.now) value.now) in
        IsEditResult edition source.now index (sets (Attribute attribute) v) result }
{
    let value = own_pattern(alloc, value)?;
    let target = ValueTarget::Attribute(attribute);
    edited_text(alloc, source, edition, index, &Edit::Set(target, value))
}
