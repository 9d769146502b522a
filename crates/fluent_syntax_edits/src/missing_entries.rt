//! The edits that add to a text what a reference has besides.
ghost use Rattle.std.specs.Prelude.{◌≡◌, All, IfOk, IfSome, map, string_bytes};
ghost use Rattle.fluent_syntax_edits.specs.Additions.{IsAddition, IsTreeAddition};
ghost use Rattle.fluent_syntax_edits.specs.SeveralEdits.{numbered_change};
ghost use Rattle.fluent_syntax_tree.specs.View.{resource_view};

use crate::missing_attributes::merged;
use crate::numbered_edits::NumberedEdit;
use crate::reading::read;
use fluent_syntax_tree::ast::{Entry, Resource};
use fluent_syntax_tree::edition::Edition;
use std::alloc::{AllocError, Global};
use std::collections::BTreeMap;

/// The edits by which the text gets the messages, terms and attributes of the reference that have these names: a term's
/// with its `-`, an attribute's after that of its entry, as `menu.label` or `-brand.case`. The names are in the order
/// of their bytes.
///
/// In its group of the reference each message and term comes after the last entry before it that the text has, else
/// before the first one after it; where the text has none of the group, after what comes before in others. Where both
/// have as many group comments, these count as entries that the text has. A text without entries also gets the comments
/// by themselves.
///
/// Each attribute comes after the one that comes before it in the reference and that the text's entry has, else first.
/// So that entry is written in its normal form; all others stay as they are, to the byte.
///
/// `AllocError`: a growth was refused.
pub fn additions(
    alloc: Global,
    reference: &str,
    text: &str,
    edition: Edition,
    names: &[String],
) -> Result<Vec<NumberedEdit>, AllocError>
    ensures { IfOk result (λ found. All (IsAddition edition reference.now text.now) (map numbered_change found.items)) }
{
    let reference = String::from_str(alloc, reference)?;
    let text = String::from_str(alloc, text)?;
    let (reference, _errors) = read(alloc, &reference, edition)?;
    let (tree, _errors) = read(alloc, &text, edition)?;
    tree_additions(alloc, &reference, &tree, names)
}

/// The same of trees.
fn tree_additions(
    alloc: Global,
    reference: &Resource<String>,
    tree: &Resource<String>,
    names: &[String],
) -> Result<Vec<NumberedEdit>, AllocError>
    ensures { IfOk result (λ found. All (IsTreeAddition (resource_view (λ s. string_bytes s) reference.now)
        (resource_view (λ s. string_bytes s) tree.now)) (map numbered_change found.items)) }
{
    let places = places_of(alloc, reference, tree, names)?;
    let mut edits = Vec::new(alloc);
    for group in places.chunk_by(|place, next| place.is_one_edit(next)) {
        if let Some(edit) = edit_at(alloc, reference, tree, names, group)? {
            edits.push(edit)?;
        }
    }
    Ok(edits)
}

/// The edit that is made at these places, of which there are several if they are of one entry that gets attributes.
fn edit_at(
    alloc: Global,
    reference: &Resource<String>,
    tree: &Resource<String>,
    names: &[String],
    places: &[Place],
) -> Result<Option<NumberedEdit>, AllocError>
    ensures { IfOk result (λ found. IfSome found
        (λ edit. IsTreeAddition (resource_view (λ s. string_bytes s) reference.now)
        (resource_view (λ s. string_bytes s) tree.now) (numbered_change edit))) }
{
    let Some(place) = places.first() else {
        return Ok(None);
    };
    if place.is_merged {
        let Some(own) = tree.body.get(place.index) else {
            return Ok(None);
        };
        return match merged(alloc, own, reference, places, names)? {
            Some(entry) => Ok(Some(NumberedEdit::replace(alloc, place.index, &entry)?)),
            None => Ok(None),
        };
    }
    match reference.body.get(place.number) {
        Some(entry) => Ok(Some(NumberedEdit::insert(alloc, place.index, entry)?)),
        None => Ok(None),
    }
}

/// Where an entry of the reference belongs, or its attributes do.
#[derive(Clone, Copy, Debug, Drop)]
pub(crate) struct Place {
    /// Its number in the reference.
    pub(crate) number: usize,
    /// The number in the tree of the entry that comes after it, or that gets its attributes.
    index: usize,
    is_merged: bool,
}

impl Place {
    /// Whether attributes of both come into one entry of the tree.
    fn is_one_edit(&self, next: &Place) -> bool {
        self.is_merged && next.is_merged && self.index == next.index
    }
}

/// Where the entries of these names belong, and those with attributes of these names, in the order of the tree; where
/// several belong to one place, in that of the reference.
fn places_of(
    alloc: Global,
    reference: &Resource<String>,
    tree: &Resource<String>,
    names: &[String],
) -> Result<Vec<Place>, AllocError> {
    let own = numbers_by_name(alloc, tree)?;
    let is_empty = tree.body.is_empty();
    let groups = own_groups(alloc, reference, tree)?;
    let mut group = groups.iter();
    let mut seen = BTreeMap::new(alloc);
    let mut places = Places::new(alloc, tree);
    for (number, entry) in reference.body.iter().enumerate() {
        if let Entry::GroupComment(_) = entry {
            places.end_group()?;
            if let Some(index) = group.next() {
                places.meet(*index)?;
            }
        }
        match name_of(alloc, entry)? {
            Some(name) => {
                if let Some(index) = own.get(name.as_str()) {
                    places.meet(*index)?;
                    if has_attribute_of(alloc, names, name.as_str())? {
                        places.merge(number, *index)?;
                    }
                } else if seen.get(name.as_str()).is_none() && names.binary_search(&name).is_ok() {
                    places.add(number)?;
                }
                drop(seen.insert(name, number)?);
            }
            None if is_empty && !matches!(entry, Entry::Junk { .. }) => places.add(number)?,
            None => {}
        }
    }
    places.in_order()
}

/// The places that are found while a reference is read.
#[derive(Drop)]
struct Places {
    found: Vec<Place>,
    /// The entries of this group whose places aren't known yet.
    waiting: Vec<usize>,
    /// The number after the last entry of this group that the tree has.
    in_group: Option<usize>,
    /// The number for what belongs to a group of which the tree has nothing.
    outside: usize,
}

impl Places {
    /// None. What comes first comes after the comments with which the tree begins.
    fn new(alloc: Global, tree: &Resource<String>) -> Self {
        let comments = tree
            .body
            .iter()
            .take_while(|entry| matches!(entry, Entry::Comment(_) | Entry::ResourceComment(_)))
            .count();
        Places {
            found: Vec::new(alloc),
            waiting: Vec::new(alloc),
            in_group: None,
            outside: comments,
        }
    }

    /// The tree has what comes next in the reference, with that number.
    fn meet(&mut self, index: usize) -> Result<(), AllocError> {
        self.place_waiting(index)?;
        self.outside = index.saturating_add(1);
        self.in_group = Some(self.outside);
        Ok(())
    }

    /// The tree is to get the entry of that number, which comes next in the reference.
    fn add(&mut self, number: usize) -> Result<(), AllocError> {
        self.waiting.push(number)?;
        if let Some(index) = self.in_group {
            self.place_waiting(index)?;
        }
        Ok(())
    }

    /// That entry of the tree is to get attributes of the entry of that number.
    fn merge(&mut self, number: usize, index: usize) -> Result<(), AllocError> {
        self.found.push(Place {
            number,
            index,
            is_merged: true,
        })?;
        Ok(())
    }

    /// The reference has no more entries in this group.
    fn end_group(&mut self) -> Result<(), AllocError> {
        self.place_waiting(self.outside)?;
        self.in_group = None;
        Ok(())
    }

    /// Those that wait belong before the entry of that number.
    fn place_waiting(&mut self, index: usize) -> Result<(), AllocError> {
        for number in &self.waiting {
            self.found.push(Place {
                number: *number,
                index,
                is_merged: false,
            })?;
        }
        self.waiting.clear();
        Ok(())
    }

    /// All places in the order of the tree.
    fn in_order(self) -> Result<Vec<Place>, AllocError> {
        let mut places = self;
        places.end_group()?;
        let Places { mut found, .. } = places;
        found.sort_by_key(|place| (place.index, place.is_merged))?;
        Ok(found)
    }
}

/// The numbers of the tree's group comments, if it has as many as the reference. Translated ones have other texts, so
/// only their order shows which is which.
fn own_groups(
    alloc: Global,
    reference: &Resource<String>,
    tree: &Resource<String>,
) -> Result<Vec<usize>, AllocError> {
    let theirs = group_numbers(alloc, reference)?;
    let own = group_numbers(alloc, tree)?;
    if theirs.len() == own.len() {
        Ok(own)
    } else {
        Ok(Vec::new(alloc))
    }
}

/// The numbers of the tree's group comments.
fn group_numbers(alloc: Global, tree: &Resource<String>) -> Result<Vec<usize>, AllocError> {
    let mut numbers = Vec::new(alloc);
    for (number, entry) in tree.body.iter().enumerate() {
        if let Entry::GroupComment(_) = entry {
            numbers.push(number)?;
        }
    }
    Ok(numbers)
}

/// The number of the first message or term of each name, a term's with its `-`.
fn numbers_by_name(
    alloc: Global,
    tree: &Resource<String>,
) -> Result<BTreeMap<String, usize>, AllocError> {
    let mut numbers = BTreeMap::new(alloc);
    for (number, entry) in tree.body.iter().enumerate() {
        if let Some(name) = name_of(alloc, entry)? {
            if numbers.get(name.as_str()).is_none() {
                drop(numbers.insert(name, number)?);
            }
        }
    }
    Ok(numbers)
}

/// Whether one of the names is that of an attribute of this entry.
fn has_attribute_of(alloc: Global, names: &[String], entry: &str) -> Result<bool, AllocError> {
    let start = format!(in alloc; "{entry}.")?;
    let first = names.partition_point(|name| name.as_str() < start.as_str());
    Ok(
        names
            .get(first)
            .is_some_and(|name| name.starts_with(start.as_str())),
    )
}

/// The name of a message or a term, with its `-`.
pub(crate) fn name_of(alloc: Global, entry: &Entry<String>) -> Result<Option<String>, AllocError> {
    Ok(match entry {
        Entry::Message(message) => Some(String::from_str(alloc, message.id.name.as_str())?),
        Entry::Term(term) => Some(format!(in alloc; "-{}", term.id.name)?),
        _ => None,
    })
}
