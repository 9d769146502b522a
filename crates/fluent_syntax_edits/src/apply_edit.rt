//! Edits of trees.
ghost use Rattle.std.specs.Prelude.{◌≡◌, map, OnOk, string_bytes};
ghost use Rattle.fluent_syntax_edits.specs.Changes.{change_of, tree_after, with_attribute, with_target};
ghost use Rattle.fluent_syntax_edits.specs.SeveralEdits.{numbered_change, tree_after_all};
ghost use Rattle.fluent_syntax_tree.specs.Entry.{message, term};
ghost use Rattle.fluent_syntax_tree.specs.View.{attribute_view, entry_view, message_view, pattern_view, term_view};

use crate::edit::{Edit, copied};
use crate::edited_ranges::ValueTarget;
use crate::numbered_edits::NumberedEdit;
use fluent_syntax_tree::ast::{Attribute, Entry, Message, Pattern, Term};
use std::alloc::{AllocError, Global};

/// Sets the value of the attribute of that number, if it is there.
fn set_attribute(attributes: &mut Vec<Attribute<String>>, number: usize, value: Pattern<String>)
    ensures { map (attribute_view (λ s. string_bytes s)) attributes.new.items
        ≡ with_attribute number (pattern_view (λ s. string_bytes s) value)
        (map (attribute_view (λ s. string_bytes s)) attributes.old.items) }
{
    if number < attributes.len() {
        attributes[number].value = value;
    }
}

fn set_in_message(inner: &mut Message<String>, target: ValueTarget, value: Pattern<String>)
    ensures { message (message_view (λ s. string_bytes s) inner.new)
        ≡ with_target target (pattern_view (λ s. string_bytes s) value)
        (message (message_view (λ s. string_bytes s) inner.old)) }
{
    match target {
        ValueTarget::Value => inner.value = Some(value),
        ValueTarget::Attribute(number) => set_attribute(&mut inner.attributes, number, value),
    }
}

fn set_in_term(inner: &mut Term<String>, target: ValueTarget, value: Pattern<String>)
    ensures { term (term_view (λ s. string_bytes s) inner.new)
        ≡ with_target target (pattern_view (λ s. string_bytes s) value)
        (term (term_view (λ s. string_bytes s) inner.old)) }
{
    match target {
        ValueTarget::Value => inner.value = value,
        ValueTarget::Attribute(number) => set_attribute(&mut inner.attributes, number, value),
    }
}

/// Sets the target of the entry, if it is a message or a term.
fn set_in(entry: &mut Entry<String>, target: ValueTarget, value: Pattern<String>)
    ensures { entry_view (λ s. string_bytes s) entry.new
        ≡ with_target target (pattern_view (λ s. string_bytes s) value) (entry_view (λ s. string_bytes s) entry.old) }
{
    match entry {
        Entry::Message(inner) => set_in_message(inner, target, value),
        Entry::Term(inner) => set_in_term(inner, target, value),
        _ => {}
    }
}

/// Makes the edit at the entry of that number of a tree. Where the tree has too few, a new one comes at its end, and
/// else nothing changes.
pub(crate) fn apply(
    edit: Edit,
    body: &mut Vec<Entry<String>>,
    index: usize,
) -> Result<(), AllocError>
    ensures { OnOk result (map (entry_view (λ s. string_bytes s)) body.new.items
        ≡ tree_after (change_of edit) index (map (entry_view (λ s. string_bytes s)) body.old.items)) }
{
    match edit {
        Edit::Insert(entry) => body.insert(index.min(body.len()), entry)?,
        Edit::Replace(entry) if index < body.len() => body[index] = entry,
        Edit::Set(target, value) if index < body.len() => set_in(&mut body[index], target, value),
        Edit::Remove if index < body.len() => {
            body.remove(index);
        }
        // nothing has that number
        Edit::Replace(_) => {}
        Edit::Set(_, _) => {}
        Edit::Remove => {}
    }
    Ok(())
}

/// Makes each edit in a tree, the last one first: the numbers are those of the tree as it is.
pub(crate) fn apply_all(
    alloc: Global,
    edits: &[NumberedEdit],
    body: &mut Vec<Entry<String>>,
) -> Result<(), AllocError>
    ensures { OnOk result (map (entry_view (λ s. string_bytes s)) body.new.items
        ≡ tree_after_all (map numbered_change edits.now) (map (entry_view (λ s. string_bytes s)) body.old.items)) }
{
    let mut count = edits.len();
    while count > 0 {
        count -= 1;
        let edit = &edits[count];
        apply(copied(alloc, &edit.edit)?, body, edit.index)?;
    }
    Ok(())
}
