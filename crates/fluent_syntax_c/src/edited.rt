//! A text with one entry changed.
ghost use Rattle.std.specs.Prelude.{◌≡◌, ◌∷◌, [], List, ℕ, map, Some, None, Err, IfErr, IfOk, IfSome, IfNone};
ghost use Rattle.std.specs.Prelude.{string_bytes, true};
ghost use Rattle.fluent_syntax_tree.specs.Entry.{AttributeTree, EntryTree};
ghost use Rattle.fluent_syntax_tree.specs.Tree.{PatternTree};
ghost use Rattle.fluent_syntax_tree.specs.View.{attribute_view, entry_view, pattern_view, resource_view};
ghost use Rattle.fluent_syntax_tree.specs.declared.edition.Edition.{Edition as ByEdition};
ghost use Rattle.fluent_syntax_grammar.specs.RoundTrip.{ReadsAs};
ghost use Rattle.fluent_syntax_edits.specs.Changes.{Change};
ghost use Rattle.fluent_syntax_edits.specs.Edits.{IsEditResult};
ghost use Rattle.fluent_syntax_c.specs.Edits.{IsTextTree, Spells, attribute_number, attributes_at, first_entry_named};
ghost use Rattle.fluent_syntax_c.specs.Edits.{has_entry_name, part_source, place_of, value_message};

use crate::text_trees::TextTree;
use fluent_syntax::ast::{Attribute, Entry, Pattern, Resource};
use fluent_syntax_edits::{EditFault, insert, remove, replace, set_attribute, set_value};
use ftl::Outcome;
use std::alloc::{AllocError, Global};

/// What is done at an entry.
#[derive(Clone, Copy)]
pub enum Action<'a> {
    SetValue,
    /// The value of the first attribute of that name.
    SetAttribute(&'a [u8]),
    Replace,
    Insert,
    Remove,
}

/// What is read of the part that is new.
pub(crate) fn part_source(
    alloc: Global,
    action: Action<'_>,
    part: &str,
) -> Result<String, AllocError>
    ensures { IfOk result (λ text. string_bytes text ≡ part_source action.entry part.now) }
{
    match action {
        Action::SetValue | Action::SetAttribute(_) => {
            let mut text = String::from_str(alloc, "a =")?;
            text.push_str(part)?;
            Ok(text)
        }
        Action::Replace | Action::Insert | Action::Remove => String::from_str(alloc, part),
    }
}

/// Whether it is the message of that name, or the term, whose name is written with its `-`.
fn has_entry_name(name: &str, entry: &Entry<&str>) -> bool
    ensures { result ≡ has_entry_name name.now (entry_view (λ text. text.now) entry.now) }
{
    match entry {
        Entry::Message(message) => message.id.name == name,
        Entry::Term(term) => match name.as_bytes().split_first() {
            Some((b'-', own)) => term.id.name.as_bytes() == own,
            _ => false,
        },
        Entry::Comment(_)
        | Entry::GroupComment(_)
        | Entry::ResourceComment(_)
        | Entry::Junk { .. } => false,
    }
}

/// The number of the first entry of that name, from 0.
fn first_entry_named(tree: &Resource<&str>, name: &str) -> Option<usize>
    ensures { result ≡ first_entry_named name.now (map (entry_view (λ text. text.now)) tree.now.body.items) }
{
    for (number, entry) in tree.body.iter().enumerate() {
        if has_entry_name(name, entry) {
            return Some(number);
        }
    }
    None
}

/// Where the edit is made: the number of an entry, or that after the last.
pub(crate) fn place_of(action: Action<'_>, name: &str, tree: &Resource<&str>) -> Option<usize>
    ensures { result ≡ place_of action.entry name.now (map (entry_view (λ text. text.now)) tree.now.body.items) }
{
    match action {
        Action::Insert if name.is_empty() => Some(tree.body.len()),
        _ => first_entry_named(tree, name),
    }
}

/// The number of the first attribute of that name of the entry of that number; where there is none, how many
/// attributes that entry has.
pub(crate) fn attribute_number(tree: &Resource<&str>, index: usize, name: &[u8]) -> usize
    ensures { result ≡ attribute_number name.now
        (attributes_at index (map (entry_view (λ text. text.now)) tree.now.body.items)) }
{
    match tree.body.get(index) {
        Some(Entry::Message(message)) => number_named(&message.attributes, name),
        Some(Entry::Term(term)) => number_named(&term.attributes, name),
        _ => 0,
    }
}

/// The same, of these attributes.
fn number_named(attributes: &[Attribute<&str>], name: &[u8]) -> usize
    ensures { result ≡ attribute_number name.now (map (attribute_view (λ text. text.now)) attributes.now) }
{
    for (number, attribute) in attributes.iter().enumerate() {
        if attribute.id.name.as_bytes() == name {
            return number;
        }
    }
    attributes.len()
}

/// The only entry, if there is one alone.
fn only_entry<'p, 't>(entries: &'p [Entry<&'t str>]) -> Option<&'p Entry<&'t str>>
    ensures some { IfSome result (λ entry. map (entry_view (λ text. text.now)) entries.now
        ≡ entry_view (λ text. text.now) entry.now ∷ []) }
    ensures none { IfNone result ((e : EntryTree (List ℕ)) →
        map (entry_view (λ text. text.now)) entries.now ≡ e ∷ [] → ⊥) }
{
    match entries {
        [entry] => Some(entry),
        _ => None,
    }
}

/// The only entry of a text without errors.
pub(crate) fn one_entry<'p, 't>(part: &'p TextTree<'t>) -> Option<&'p Entry<&'t str>>
    ensures some { (edition : ByEdition) (t : List ℕ) → IsTextTree edition t part.now →
        IfSome result (λ entry. ReadsAs edition t (entry_view (λ text. text.now) entry.now ∷ [])) }
    ensures none { (edition : ByEdition) (t : List ℕ) → IsTextTree edition t part.now →
        IfNone result ((e : EntryTree (List ℕ)) → ReadsAs edition t (e ∷ []) → ⊥) }
{
    match part.outcome {
        Outcome::Clean => only_entry(part.tree.body.as_slice()),
        Outcome::SyntaxErrors => None,
    }
}

/// The value that comes after `a =`, as the only part of the only entry of a text without errors.
pub(crate) fn one_value<'p, 't>(part: &'p TextTree<'t>) -> Option<&'p Pattern<&'t str>>
    ensures some { (edition : ByEdition) (t : List ℕ) → IsTextTree edition t part.now →
        IfSome result (λ value.
        ReadsAs edition t (value_message (pattern_view (λ text. text.now) value.now) ∷ [])) }
    ensures none { (edition : ByEdition) (t : List ℕ) → IsTextTree edition t part.now →
        IfNone result ((v : PatternTree (List ℕ)) → ReadsAs edition t (value_message v ∷ []) → ⊥) }
{
    only_value(one_entry(part)?)
}

/// The value of a message `a` that has nothing else.
fn only_value<'p, 't>(entry: &'p Entry<&'t str>) -> Option<&'p Pattern<&'t str>>
    ensures some { IfSome result (λ value. entry_view (λ text. text.now) entry.now
        ≡ value_message (pattern_view (λ text. text.now) value.now)) }
    ensures none { IfNone result ((v : PatternTree (List ℕ)) →
        entry_view (λ text. text.now) entry.now ≡ value_message v → ⊥) }
{
    match entry {
        Entry::Message(message)
            if message.id.name == "a"
                && message.attributes.is_empty()
                && message.comment.is_none() => { message.value.as_ref() }
        _ => None,
    }
}

/// The source with the change that the part spells, made at the entry of that number; `None` where it spells none.
pub(crate) fn edited_source(
    alloc: Global,
    source: &TextTree<'_>,
    index: usize,
    action: Action<'_>,
    part: &TextTree<'_>,
) -> Option<Result<String, EditFault>>
    ensures some { (edition : ByEdition) (t p : List ℕ) → IsTextTree edition t source.now →
        IsTextTree edition (part_source action.entry p) part.now →
        IfSome result (λ made. (change : Change)
        × Spells edition action.entry (attributes_at index (resource_view (λ text. text.now) source.now.tree)) p change
        × IsEditResult edition t index change made) }
    ensures none { (edition : ByEdition) (p : List ℕ) → IsTextTree edition (part_source action.entry p) part.now →
        IfNone result ((own : List (AttributeTree (List ℕ))) (change : Change) →
        Spells edition action.entry own p change → ⊥) }
{
    let (text, edition) = (source.text, source.edition);
    match action {
        Action::SetValue => Some(set_value(alloc, text, edition, index, one_value(part)?)),
        Action::SetAttribute(name) => {
            let number = attribute_number(&source.tree, index, name);
            Some(set_attribute(alloc, text, edition, index, number, one_value(part)?))
        }
        Action::Replace => Some(replace(alloc, text, edition, index, one_entry(part)?)),
        Action::Insert => Some(insert(alloc, text, edition, index, one_entry(part)?)),
        Action::Remove => Some(remove(alloc, text, edition, index)),
    }
}
