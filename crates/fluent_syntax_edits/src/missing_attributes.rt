//! Entries with attributes that a reference has besides.
ghost use Rattle.std.specs.Prelude.{◌≡◌, ℕ, Contains, IfOk, IfSome, OnOk, Some, map, slice_get, string_bytes};
ghost use Rattle.fluent_syntax_edits.specs.Additions.{IsMerged, IsMergedEntry};
ghost use Rattle.fluent_syntax_grammar.specs.Written.{Text};
ghost use Rattle.fluent_syntax_tree.specs.Entry.{BodyTree};
ghost use Rattle.fluent_syntax_tree.specs.View.{attribute_view, entry_view, resource_view};

use crate::missing_entries::{Place, name_of};
use fluent_syntax_tree::ast::{Attribute, Entry, Resource};
use std::alloc::{AllocError, Global};

/// The entry with the attributes of these names that the reference's entries at the places have besides. None where
/// there are none.
pub(crate) fn merged(
    alloc: Global,
    own: &Entry<String>,
    reference: &Resource<String>,
    places: &[Place],
    names: &[String],
) -> Result<Option<Entry<String>>, AllocError>
    ensures { IfOk result (λ found. IfSome found
        (λ entry. IsMergedEntry (resource_view (λ s. string_bytes s) reference.now)
        (entry_view (λ s. string_bytes s) own.now) (entry_view (λ s. string_bytes s) entry))) }
{
    let mut merged = own.try_clone(alloc)?;
    let mut is_new = false;
    for place in places {
        if let Some(entry) = reference.body.get(place.number) {
            is_new |= add_attributes(alloc, &mut merged, entry, names)?;
        }
    }
    Ok(is_new.then_some(merged))
}

/// Adds to the entry the attributes of these names that the other one of its name has besides. Whether there are any.
fn add_attributes(
    alloc: Global,
    own: &mut Entry<String>,
    other: &Entry<String>,
    names: &[String],
) -> Result<bool, AllocError>
    ensures { OnOk result ((theirs : BodyTree Text) (number : ℕ) →
        slice_get theirs number ≡ Some (entry_view (λ s. string_bytes s) other.now) →
        IsMergedEntry theirs (entry_view (λ s. string_bytes s) own.old) (entry_view (λ s. string_bytes s) own.new)) }
{
    let Some(name) = name_of(alloc, other)? else {
        return Ok(false);
    };
    match (own, other) {
        (Entry::Message(own), Entry::Message(other)) if own.id.name == other.id.name => merge(
            alloc,
            &mut own.attributes,
            &other.attributes,
            name.as_str(),
            names,
        ),
        (Entry::Term(own), Entry::Term(other)) if own.id.name == other.id.name => merge(
            alloc,
            &mut own.attributes,
            &other.attributes,
            name.as_str(),
            names,
        ),
        _ => Ok(false),
    }
}

/// Adds the attributes of these names that the others have besides, each after the one that comes before it there, else
/// first: `entry` is the name of the entry. Whether there are any.
fn merge(
    alloc: Global,
    own: &mut Vec<Attribute<String>>,
    others: &Vec<Attribute<String>>,
    entry: &str,
    names: &[String],
) -> Result<bool, AllocError>
    ensures { OnOk result (IsMerged (Contains (map (attribute_view (λ s. string_bytes s)) others.now.items))
        (map (attribute_view (λ s. string_bytes s)) own.old.items)
        (map (attribute_view (λ s. string_bytes s)) own.new.items)) }
{
    let mut place = 0;
    let mut is_new = false;
    for attribute in others {
        let name = &attribute.id.name;
        if let Some(before) = own.iter().position(|had| had.id.name == *name) {
            place = before + 1;
        } else if names
            .binary_search(&format!(in alloc; "{entry}.{name}")?)
            .is_ok()
        {
            own.insert(place, attribute.try_clone(alloc)?)?;
            place += 1;
            is_new = true;
        }
    }
    Ok(is_new)
}
