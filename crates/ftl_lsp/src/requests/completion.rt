//! The names that may be at a place.

use crate::documents::entry_ranges::entry_line_start;
use crate::documents::index::IndexedDocument;
use crate::documents::occurrences::{NameKind, Occurrence, bytes_of, name_of};
use crate::requests::candidates::{CandidateKind, Candidates, label_of};
use crate::requests::expected_names::{
    Expected, begin_of_name, end_of_name, entry_name_at, expected_at,
};
use crate::requests::nesting::other_keys;
use crate::requests::original_names::{
    add_attributes, add_entries, add_functions, add_keys, add_variables,
};
use crate::requests::request_context::RequestContext;
use fluent_syntax::spans::Span;
use serde_json::Value;
use std::alloc::{AllocError, Global};

/// The functions of Fluent.
const FUNCTIONS: [&str; 2] = ["NUMBER", "DATETIME"];

/// The names that may be at the place, each once, in the order of their bytes. `AllocError` where a growth was refused.
pub fn completion(alloc: Global, context: &RequestContext<'_>) -> Result<Value, AllocError> {
    let Some(here) = context.here() else {
        return Ok(Value::Array(Vec::new(alloc)));
    };
    let begin = begin_of_name(here.text.as_bytes(), context.byte);
    let end = end_of_name(here.text, context.byte);
    let expected = expected_at(alloc, here.text, begin, end)?;
    let mut candidates = Candidates::new(alloc, here.text);
    add_of_original(alloc, &mut candidates, context, here, expected)?;
    for document in &context.documents {
        let is_here = document.uri == here.uri;
        for occurrence in document.occurrences() {
            // what is typed is itself no name to offer
            if !(is_here && occurrence.is_at(here.text, context.byte)) {
                add_name(
                    alloc,
                    &mut candidates,
                    document,
                    occurrence,
                    expected,
                    is_here,
                )?;
            }
        }
    }
    add_given(alloc, &mut candidates, context, here, expected)?;
    if let Expected::VariantKeys = expected {
        withdraw_keys(alloc, &mut candidates, here.text, begin)?;
    }
    let start = match expected {
        Expected::Variables => begin.saturating_sub(1),
        _ => begin,
    };
    candidates.item_list(here.text, Span { start, end })
}

/// Offers what the document's original has of what is expected, if there is one.
fn add_of_original(
    alloc: Global,
    candidates: &mut Candidates,
    context: &RequestContext<'_>,
    here: &IndexedDocument<'_>,
    expected: Expected<'_>,
) -> Result<(), AllocError> {
    let Some(original) = &context.original else {
        return Ok(());
    };
    let entry = entry_name_at(here.text, context.byte);
    match expected {
        Expected::Entries => add_entries(alloc, candidates, here, original),
        Expected::Attributes => add_attributes(alloc, candidates, here, original, entry),
        Expected::VariantKeys => add_keys(alloc, candidates, original, entry),
        Expected::Variables => add_variables(alloc, candidates, original, entry),
        Expected::References => {
            add_variables(alloc, candidates, original, entry)?;
            add_functions(alloc, candidates, original)
        }
        _ => Ok(()),
    }
}

/// Offers the name, or the attribute, where it is expected; of a variable first those of the document itself.
fn add_name(
    alloc: Global,
    candidates: &mut Candidates,
    document: &IndexedDocument<'_>,
    occurrence: &Occurrence,
    expected: Expected<'_>,
    is_here: bool,
) -> Result<(), AllocError> {
    let name = name_of(document.text, *occurrence);
    let defines = occurrence.defines;
    let (kind, rank) = match (expected, name.kind, name.attribute) {
        (Expected::AttributesOf(owner), kind, Some(attribute)) => {
            if defines && kind == owner.kind && name.name == owner.name {
                let label = String::from_str(alloc, attribute)?;
                candidates.offer(label, CandidateKind::Attribute, 0)?;
            }
            return Ok(());
        }
        (Expected::Variables | Expected::References, NameKind::Variable, None) => {
            (CandidateKind::Variable, if is_here { 1 } else { 2 })
        }
        (Expected::References | Expected::Terms, NameKind::Term, None) if defines => {
            (CandidateKind::Variable, 0)
        }
        (Expected::References, NameKind::Message, None) if defines => (CandidateKind::Message, 0),
        (Expected::References, NameKind::Function, None) => (CandidateKind::Function, 1),
        _ => return Ok(()),
    };
    candidates.offer(label_of(alloc, name)?, kind, rank)
}

/// Offers the names that no file has to define: the functions of Fluent, and the plural categories of the language.
fn add_given(
    alloc: Global,
    candidates: &mut Candidates,
    context: &RequestContext<'_>,
    here: &IndexedDocument<'_>,
    expected: Expected<'_>,
) -> Result<(), AllocError> {
    match expected {
        Expected::References => {
            for name in &FUNCTIONS {
                let label = String::from_str(alloc, *name)?;
                candidates.offer(label, CandidateKind::Function, 1)?;
            }
        }
        Expected::VariantKeys => {
            let categories = context.workspace.set_of(here.path).categories();
            for name in categories.unwrap_or(&[]) {
                let label = String::from_str(alloc, *name)?;
                candidates.offer(label, CandidateKind::VariantKey, 1)?;
            }
        }
        _ => {}
    }
    Ok(())
}

/// Offers no more the keys that the select has already in which the key is that begins there.
fn withdraw_keys(
    alloc: Global,
    candidates: &mut Candidates,
    text: &str,
    begin: usize,
) -> Result<(), AllocError> {
    let entry = entry_line_start(text.as_bytes(), begin);
    for key in &other_keys(alloc, text.as_bytes(), entry, begin)? {
        candidates.withdraw(bytes_of(text, *key).trim());
    }
    Ok(())
}
