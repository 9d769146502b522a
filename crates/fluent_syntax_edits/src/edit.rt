//! What is asked, and what is written for it.
ghost use Rattle.std.specs.Prelude.{◌≡◌, ◌≤◌, ◌∷◌, [], ◌++◌, length, replicate, IfOk, string_bytes};
ghost use Rattle.fluent_syntax_edits.specs.Changes.{attempts, change_of, replacement_text, entry_text, pattern_text};
ghost use Rattle.fluent_syntax_edits.specs.Changes.{scratch_message, refusal};
ghost use Rattle.fluent_syntax_edits.specs.Changes.{before_pattern, unless_broken, is_blank, line_ends_before};
ghost use Rattle.fluent_syntax_edits.specs.Changes.{with_blank_lines};
ghost use Rattle.fluent_syntax_grammar.specs.Bytes.{lf};
ghost use Rattle.fluent_syntax_writer.specs.Uncanonical.{broken_rule};
ghost use Rattle.fluent_syntax_tree.specs.View.{entry_view, pattern_view};

use crate::edited_ranges::ValueTarget;
use crate::fault::EditFault;
use fluent_syntax_grammar::sink::SinkError;
use fluent_syntax_tree::ast::{Attribute, Entry, Identifier, Message, Pattern};
use fluent_syntax_tree::edition::Edition;
use fluent_syntax_writer::canonical::broken_rule_with;
use fluent_syntax_writer::serializer::{EntryWriter, Options};
use std::alloc::{AllocError, Global};

/// What is done at the entry of a number.
#[derive(Drop)]
pub(crate) enum Edit {
    /// That entry comes in its place.
    Replace(Entry<String>),
    /// That entry comes before it.
    Insert(Entry<String>),
    /// It goes.
    Remove,
    /// That pattern comes in the place of its value, or of that of an attribute.
    Set(ValueTarget, Pattern<String>),
}

/// The text that the entry by itself is written as.
fn entry_text(alloc: Global, entry: &Entry<String>) -> Result<String, AllocError>
    ensures { IfOk result (λ text. string_bytes text ≡ entry_text (entry_view (λ s. string_bytes s) entry.now)) }
{
    let mut writer = EntryWriter::new(String::new(alloc), Options::default());
    writer.write_entry(entry);
    let (text, written) = writer.finish();
    match written {
        Ok(()) => Ok(text),
        Err(SinkError) => Err(AllocError),
    }
}

/// The name of what is written for its pattern alone.
fn scratch_name(alloc: Global) -> Result<Identifier<String>, AllocError>
    ensures { IfOk result (λ id. string_bytes id.name ≡ 97 ∷ []) }
{
    let name = String::from_str(alloc, "a")?;
    Ok(Identifier { name })
}

/// A message whose only part is the target, with that pattern: an attribute is its first one.
fn scratch_message(
    alloc: Global,
    target: ValueTarget,
    value: &Pattern<String>,
) -> Result<Entry<String>, AllocError>
    ensures { IfOk result (λ made. entry_view (λ s. string_bytes s) made
        ≡ scratch_message target (pattern_view (λ s. string_bytes s) value.now)) }
{
    let mut attributes = Vec::new(alloc);
    let copy = value.try_clone(alloc)?;
    let value = match target {
        ValueTarget::Value => Some(copy),
        ValueTarget::Attribute(_) => {
            let id = scratch_name(alloc)?;
            attributes.push(Attribute { id, value: copy })?;
            None
        }
    };
    Ok(Entry::Message(Message {
        id: scratch_name(alloc)?,
        value,
        attributes,
        comment: None,
    }))
}

/// How many bytes of that message come before the pattern.
fn before_pattern(target: ValueTarget) -> usize
    ensures { result ≡ before_pattern target }
{
    match target {
        ValueTarget::Value => 3,
        ValueTarget::Attribute(_) => 12,
    }
}

/// The text of the pattern, as it is written after the `=`.
fn pattern_text(
    alloc: Global,
    target: ValueTarget,
    value: &Pattern<String>,
) -> Result<String, AllocError>
    ensures { IfOk result (λ text. string_bytes text
        ≡ pattern_text target (pattern_view (λ s. string_bytes s) value.now)) }
{
    let scratch_message = scratch_message(alloc, target, value)?;
    let written = entry_text(alloc, &scratch_message)?;
    let before = before_pattern(target);
    if !written.as_str().is_char_boundary(before) {
        // what is there is ASCII
        return Err(AllocError);
    }
    String::from_str(alloc, &written.as_str()[before..])
}

/// What comes in place of a stretch of the source that ends there.
pub(crate) fn replacement_text(
    alloc: Global,
    source: &[u8],
    end: usize,
    edit: &Edit,
) -> Result<String, AllocError>
    requires { end ≤ length source.now }
    ensures { IfOk result (λ text. string_bytes text ≡ replacement_text (change_of edit.now) source.now end) }
{
    match edit {
        Edit::Replace(entry) => with_blank_lines(source, end, entry_text(alloc, entry)?),
        Edit::Insert(entry) => entry_text(alloc, entry),
        Edit::Remove => Ok(String::new(alloc)),
        Edit::Set(target, value) => {
            let text = pattern_text(alloc, *target, value)?;
            with_blank_lines(source, end, text)
        }
    }
}

/// With how many numbers of line ends before what is new, from 0 on, the new text is tried.
pub(crate) fn attempts(edit: &Edit) -> usize
    ensures { result ≡ attempts (change_of edit.now) }
{
    match edit {
        Edit::Insert(_) => 3,
        Edit::Replace(_) | Edit::Remove | Edit::Set(_, _) => 1,
    }
}

/// Why the new text is read otherwise, if it is, as far as it is known of what is new.
fn unless_broken(alloc: Global, edition: Edition, entry: &Entry<String>) -> EditFault
    ensures { result ≡ unless_broken (broken_rule edition (entry_view (λ s. string_bytes s) entry.now)) }
{
    match broken_rule_with(alloc, entry, edition) {
        Some(rule) => EditFault::NotCanonical(rule),
        None => EditFault::ReadsOtherwise,
    }
}

/// The same, of an edit.
pub(crate) fn refusal(alloc: Global, edition: Edition, edit: &Edit) -> Result<EditFault, AllocError>
    ensures { IfOk result (λ fault. fault ≡ refusal edition (change_of edit.now)) }
{
    match edit {
        Edit::Replace(entry) => Ok(unless_broken(alloc, edition, entry)),
        Edit::Insert(entry) => Ok(unless_broken(alloc, edition, entry)),
        Edit::Remove => Ok(EditFault::ReadsOtherwise),
        Edit::Set(target, value) => {
            let scratch_message = scratch_message(alloc, *target, value)?;
            Ok(unless_broken(alloc, edition, &scratch_message))
        }
    }
}

/// Whether the byte is a space or of a line end.
fn is_blank(byte: u8) -> bool
    ensures { result ≡ is_blank byte }
{
    byte == b'\n' || byte == b' ' || byte == b'\r'
}

/// How many line ends come directly before the place, with nothing but spaces and CRs between them.
fn line_ends_before(bytes: &[u8], place: usize) -> usize
    requires { place ≤ length bytes.now }
    ensures count { result ≡ line_ends_before bytes.now place }
    ensures few { result ≤ place }
{
    let mut count = 0;
    let mut at = place;
    while at > 0 && is_blank(bytes[at - 1]) {
        count += usize::from(bytes[at - 1] == b'\n');
        at -= 1;
    }
    count
}

/// The text with as many blank lines after it as the source has before the place.
pub(crate) fn with_blank_lines(
    source: &[u8],
    place: usize,
    text: String,
) -> Result<String, AllocError>
    requires { place ≤ length source.now }
    ensures { IfOk result (λ made. string_bytes made ≡ with_blank_lines source.now place (string_bytes text)) }
{
    let there = line_ends_before(source, place);
    let own = line_ends_before(text.as_bytes(), text.len());
    with_line_ends(text, there.saturating_sub(own))
}

/// The text with so many line ends after it.
pub(crate) fn with_line_ends(text: String, count: usize) -> Result<String, AllocError>
    ensures { IfOk result (λ made. string_bytes made ≡ string_bytes text ++ replicate count lf) }
{
    let mut made = text;
    for _line in 0..count {
        made.push_str("\n")?;
    }
    Ok(made)
}

/// A copy of the edit.
pub(crate) fn copied(alloc: Global, edit: &Edit) -> Result<Edit, AllocError>
    ensures { IfOk result (λ copy. change_of copy ≡ change_of edit.now) }
{
    match edit {
        Edit::Replace(entry) => Ok(Edit::Replace(entry.try_clone(alloc)?)),
        Edit::Insert(entry) => Ok(Edit::Insert(entry.try_clone(alloc)?)),
        Edit::Remove => Ok(Edit::Remove),
        Edit::Set(target, value) => Ok(Edit::Set(*target, value.try_clone(alloc)?)),
    }
}
