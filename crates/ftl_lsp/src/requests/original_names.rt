//! The names that a document's original has where one is typed.

use crate::documents::index::IndexedDocument;
use crate::documents::occurrences::{Name, NameKind, bytes_of, name_of};
use crate::requests::candidates::{CandidateKind, Candidates, label_of};
use crate::requests::symbols::symbols_in;
use fluent_syntax::spans::Span;
use fluent_syntax_names::Mention;
use std::alloc::{AllocError, Global};

/// Offers the messages and terms of the original that the document doesn't define, each with its text there.
/// `AllocError` where a growth was refused.
pub fn add_entries(
    alloc: Global,
    candidates: &mut Candidates,
    here: &IndexedDocument<'_>,
    original: &IndexedDocument<'_>,
) -> Result<(), AllocError> {
    for symbol in &symbols_in(alloc, &original.read(alloc)?, false)? {
        let (start, end) = (symbol.name.start, symbol.whole.end);
        let inserted = bytes_of(original.text, Span { start, end });
        let label = bytes_of(original.text, symbol.name);
        candidates.offer_text(label, CandidateKind::Message, inserted)?;
    }
    for occurrence in here.occurrences() {
        if occurrence.defines && occurrence.attribute.is_none() {
            let label = label_of(alloc, name_of(here.text, *occurrence))?;
            candidates.withdraw(label.as_str());
        }
    }
    Ok(())
}

/// Offers the attributes of the entry in the original that it doesn't have in the document, each with its text there.
/// `AllocError` where a growth was refused.
pub fn add_attributes(
    alloc: Global,
    candidates: &mut Candidates,
    here: &IndexedDocument<'_>,
    original: &IndexedDocument<'_>,
    entry: Name<'_>,
) -> Result<(), AllocError> {
    let owner = label_of(alloc, entry)?;
    for symbol in &symbols_in(alloc, &original.read(alloc)?, false)? {
        if bytes_of(original.text, symbol.name) == owner.as_str() {
            let parts = symbol.parts(alloc, original.text)?;
            for (name, part) in symbol.attributes.iter().zip(parts.iter().skip(1)) {
                let (start, end) = (name.start, part.end);
                let inserted = bytes_of(original.text, Span { start, end });
                let label = bytes_of(original.text, *name);
                candidates.offer_text(label, CandidateKind::Attribute, inserted)?;
            }
        }
    }
    for occurrence in here.occurrences() {
        let name = name_of(here.text, *occurrence);
        if occurrence.defines && name.kind == entry.kind && name.name == entry.name {
            candidates.withdraw(name.attribute.unwrap_or(""));
        }
    }
    Ok(())
}

/// Offers the variables that the entry uses in the original. `AllocError` where a growth was refused.
pub fn add_variables(
    alloc: Global,
    candidates: &mut Candidates,
    original: &IndexedDocument<'_>,
    entry: Name<'_>,
) -> Result<(), AllocError> {
    let mut is_entry = false;
    for occurrence in original.occurrences() {
        let name = name_of(original.text, *occurrence);
        if occurrence.defines && name.attribute.is_none() {
            is_entry = name == entry;
        } else if is_entry && name.kind == NameKind::Variable {
            candidates.offer(label_of(alloc, name)?, CandidateKind::Variable, 0)?;
        }
    }
    Ok(())
}

/// Offers the functions that the original calls. `AllocError` where a growth was refused.
pub fn add_functions(
    alloc: Global,
    candidates: &mut Candidates,
    original: &IndexedDocument<'_>,
) -> Result<(), AllocError> {
    for occurrence in original.occurrences() {
        let name = name_of(original.text, *occurrence);
        if name.kind == NameKind::Function {
            candidates.offer(label_of(alloc, name)?, CandidateKind::Function, 1)?;
        }
    }
    Ok(())
}

/// Offers the keys of the entry's variants in the original. `AllocError` where a growth was refused.
pub fn add_keys(
    alloc: Global,
    candidates: &mut Candidates,
    original: &IndexedDocument<'_>,
    entry: Name<'_>,
) -> Result<(), AllocError> {
    let text = original.text;
    let document = original.read(alloc)?;
    let mut is_entry = false;
    for mention in &document.name_index(alloc)?.mentions {
        match mention {
            Mention::Message { name, .. } => {
                is_entry = entry.kind == NameKind::Message && bytes_of(text, *name) == entry.name;
            }
            Mention::Term { name } => {
                is_entry = entry.kind == NameKind::Term && bytes_of(text, *name) == entry.name;
            }
            Mention::VariantKey { key, .. } if is_entry => {
                let label = String::from_str(alloc, bytes_of(text, *key))?;
                candidates.offer(label, CandidateKind::VariantKey, 0)?;
            }
            _ => {}
        }
    }
    Ok(())
}
