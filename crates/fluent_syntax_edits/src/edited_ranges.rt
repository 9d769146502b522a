//! The stretch of a text that an edit changes.
ghost use Rattle.std.specs.Prelude.{◌≡◌, ◌⊎◌, Err, option_copied, slice_get, Ok, Some};
ghost use Rattle.fluent_syntax_edits.specs.Changes.{change_of};
ghost use Rattle.fluent_syntax_edits.specs.EntryPlaces.{RangeBy, RangeOf, entry_range, field_start, insertion};
ghost use Rattle.fluent_syntax_edits.specs.EntryPlaces.{start_of, TargetAt, target_in};
ghost use Rattle.fluent_syntax_edits.specs.declared.fault.EditFault.TheVariants.{Memory};

use crate::edit::Edit;
use crate::entry_places::{EntryKind, EntryPlace, entry_places};
use crate::fault::EditFault;
use fluent_syntax_parser::ranges::{EntryRanges, entry_ranges};
use fluent_syntax_tree::edition::Edition;
use fluent_syntax_tree::spans::Span;
use std::alloc::Global;

/// What is set.
#[derive(Clone, Copy, Debug, Drop)]
pub(crate) enum ValueTarget {
    Value,
    /// The value of the attribute of that number, counted from 0.
    Attribute(usize),
}

/// Where the target is.
fn target_in(ranges: &EntryRanges, target: ValueTarget) -> Result<Span, EditFault>
    ensures { result ≡ target_in target (Some ranges.now) }
{
    match target {
        ValueTarget::Value => ranges.value.ok_or(EditFault::NoValue),
        ValueTarget::Attribute(number) => match ranges.attributes.get(number) {
            Some(attribute) => Ok(attribute.value),
            None => Err(EditFault::NoValue),
        },
    }
}

/// Where the target is of the message or the term that begins at the place.
pub(crate) fn target_at(
    alloc: Global,
    source: &str,
    edition: Edition,
    target: ValueTarget,
    start: usize,
) -> Result<Span, EditFault>
    ensures { (result ≡ Err Memory) ⊎ TargetAt edition source.now target (Ok start) result }
{
    if start > source.len() {
        // no entry begins after the end
        return Err(EditFault::Memory);
    }
    match entry_ranges(alloc, source, edition, usize::MAX, start) {
        Ok(Some(ranges)) => target_in(&ranges, target),
        Ok(None) => Err(EditFault::NoValue),
        // no text is longer than the greatest usize, so none nests too deeply
        Err(_) => Err(EditFault::Memory),
    }
}

/// Where what has that place begins; after the last one the text's end.
fn start_of(source: &str, place: Option<&EntryPlace>) -> usize
    ensures { result ≡ start_of source.now (option_copied place.entry) }
{
    match place {
        Some(place) => place.start,
        None => source.len(),
    }
}

/// The entry of that number with its comment, up to where what comes after it begins.
fn entry_range(source: &str, entry_places: &[EntryPlace], index: usize) -> Result<Span, EditFault>
    ensures { result ≡ entry_range source.now index entry_places.now }
{
    match entry_places.get(index) {
        Some(place) => match place.kind {
            EntryKind::Junk => Err(EditFault::IsJunk(place.span)),
            EntryKind::Field | EntryKind::Comment | EntryKind::OtherComment => Ok(Span {
                start: place.start,
                end: start_of(source, entry_places.get(index + 1)),
            }),
        },
        None => Err(EditFault::NoEntry),
    }
}

/// The empty stretch before the entry of that number, or at the text's end.
fn insertion(source: &str, entry_places: &[EntryPlace], index: usize) -> Result<Span, EditFault>
    ensures { result ≡ insertion source.now index entry_places.now }
{
    if index <= entry_places.len() {
        let start = start_of(source, entry_places.get(index));
        Ok(Span { start, end: start })
    } else {
        Err(EditFault::NoEntry)
    }
}

/// Where the message or the term of that number begins, after its comment.
fn field_start(entry_places: &[EntryPlace], index: usize) -> Result<usize, EditFault>
    ensures { result ≡ field_start (slice_get entry_places.now index) }
{
    match entry_places.get(index) {
        Some(place) => match place.kind {
            EntryKind::Field => Ok(place.span.start),
            EntryKind::Junk => Err(EditFault::IsJunk(place.span)),
            EntryKind::Comment | EntryKind::OtherComment => Err(EditFault::NoValue),
        },
        None => Err(EditFault::NoEntry),
    }
}

/// The stretch that the edit of the entry of that number changes, by the places of the entries.
pub(crate) fn range_by(
    alloc: Global,
    source: &str,
    edition: Edition,
    index: usize,
    edit: &Edit,
    entry_places: &[EntryPlace],
) -> Result<Span, EditFault>
    ensures { (result ≡ Err Memory)
        ⊎ RangeBy edition source.now index (change_of edit.now) entry_places.now result }
{
    match edit {
        Edit::Replace(_) | Edit::Remove => entry_range(source, entry_places, index),
        Edit::Insert(_) => insertion(source, entry_places, index),
        Edit::Set(target, _) => {
            let start = field_start(entry_places, index)?;
            target_at(alloc, source, edition, *target, start)
        }
    }
}

/// The same, of a source whose places are not known yet.
pub(crate) fn range_of(
    alloc: Global,
    source: &str,
    edition: Edition,
    index: usize,
    edit: &Edit,
) -> Result<Span, EditFault>
    ensures { (result ≡ Err Memory) ⊎ RangeOf edition source.now index (change_of edit.now) result }
{
    let entry_places = entry_places(alloc, source, edition)?;
    range_by(alloc, source, edition, index, edit, &entry_places)
}
