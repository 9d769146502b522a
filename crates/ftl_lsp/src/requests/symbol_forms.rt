//! Symbols and folds, as JSON values.

use crate::documents::index::IndexedDocument;
use crate::documents::occurrences::{NameKind, Occurrence, bytes_of, name_of};
use crate::documents::positions::{PositionRange, Positions};
use crate::requests::folding::{FoldKind, FoldingRange};
use crate::requests::symbols::{Symbol, SymbolKind};
use crate::sessions::replies::{location_form, range_form};
use fluent_syntax::spans::Span;
use serde_json::{Value, json};
use std::alloc::{AllocError, Global};

/// The symbols of a text, in order.
pub fn symbol_list(alloc: Global, text: &str, symbols: &[Symbol]) -> Result<Value, AllocError> {
    let mut positions = Positions::new(text);
    let mut list = Vec::new(alloc);
    let mut grouped = 0;
    for (number, symbol) in symbols.iter().enumerate() {
        if number < grouped {
            continue;
        }
        let start = number.saturating_add(1);
        grouped = start.saturating_add(symbol.members);
        let members = symbols.get(start..grouped).unwrap_or(&[]);
        list.push(symbol_form(alloc, text, &mut positions, symbol, members)?)?;
    }
    Ok(Value::Array(list))
}

/// A symbol, with its attributes under it, and of a group its members. The places are asked for in the order of the
/// text, so that it is read once.
fn symbol_form(
    alloc: Global,
    text: &str,
    positions: &mut Positions<'_>,
    symbol: &Symbol,
    members: &[Symbol],
) -> Result<Value, AllocError> {
    let start = positions.position_or_end(symbol.whole.start);
    let selected = positions.range(symbol.name);
    let mut children = attribute_forms(alloc, text, positions, symbol)?;
    for member in members {
        let start = positions.position_or_end(member.whole.start);
        let selected = positions.range(member.name);
        let attributes = attribute_forms(alloc, text, positions, member)?;
        let end = positions.position_or_end(member.whole.end);
        let range = PositionRange { start, end };
        children.push(named_form(alloc, text, member, range, selected, attributes)?)?;
    }
    let end = positions.position_or_end(symbol.whole.end);
    let range = PositionRange { start, end };
    named_form(alloc, text, symbol, range, selected, children)
}

/// A symbol with these under it.
fn named_form(
    alloc: Global,
    text: &str,
    symbol: &Symbol,
    whole: PositionRange,
    selected: PositionRange,
    children: Vec<Value>,
) -> Result<Value, AllocError> {
    json!(in alloc; {
        "name": (bytes_of(text, symbol.name)),
        "kind": (kind_number(symbol.kind)),
        "range": (range_form(alloc, whole.start, whole.end)?),
        "selectionRange": (range_form(alloc, selected.start, selected.end)?),
        "children": (Value::Array(children))
    })
}

/// The symbols of the attributes.
fn attribute_forms(
    alloc: Global,
    text: &str,
    positions: &mut Positions<'_>,
    symbol: &Symbol,
) -> Result<Vec<Value>, AllocError> {
    let mut forms = Vec::new(alloc);
    for name in &symbol.attributes {
        let range = positions.range(*name);
        forms.push(attribute_form(alloc, bytes_of(text, *name), range)?)?;
    }
    Ok(forms)
}

/// The symbol of an attribute, which is its name.
fn attribute_form(alloc: Global, name: &str, range: PositionRange) -> Result<Value, AllocError> {
    let PositionRange { start, end } = range;
    json!(in alloc; {
        "name": name,
        "kind": (kind_number(SymbolKind::Attribute)),
        "range": (range_form(alloc, start, end)?),
        "selectionRange": (range_form(alloc, start, end)?),
        "children": []
    })
}

/// The number of a kind in the protocol: a constant for a message, a variable for a term, a property for an attribute,
/// a namespace for a group.
fn kind_number(kind: SymbolKind) -> u64 {
    match kind {
        SymbolKind::Message => 14,
        SymbolKind::Term => 13,
        SymbolKind::Attribute => 7,
        SymbolKind::Group => 3,
    }
}

/// The folds of a text, in order.
pub fn folding_range_list(alloc: Global, folds: &[FoldingRange]) -> Result<Value, AllocError> {
    let mut list = Vec::new(alloc);
    for fold in folds {
        let (first, last) = (fold.first as u64, fold.last as u64);
        list.push(match fold.kind {
            FoldKind::Comment =>
                json!(in alloc; {"startLine": first, "endLine": last, "kind": "comment"})?,
            FoldKind::Group =>
                json!(in alloc; {"startLine": first, "endLine": last, "kind": "region"})?,
            FoldKind::Entry | FoldKind::Placeable =>
                json!(in alloc; {"startLine": first, "endLine": last})?,
        })?;
    }
    Ok(Value::Array(list))
}

/// What the workspace knows of a name.
pub fn workspace_symbol(
    alloc: Global,
    document: &IndexedDocument<'_>,
    positions: &mut Positions<'_>,
    occurrence: Occurrence,
) -> Result<Value, AllocError> {
    let name = name_of(document.text, occurrence);
    let location = location_form(alloc, document.uri, positions, occurrence.span())?;
    let kind = match (name.attribute, name.kind) {
        (Some(_), _) => SymbolKind::Attribute,
        (None, NameKind::Term) => SymbolKind::Term,
        (None, _) => SymbolKind::Message,
    };
    let shown = bytes_of(document.text, occurrence.labelled_span());
    let number = kind_number(kind);
    let symbol = json!(in alloc; {"name": shown, "kind": number, "location": location})?;
    match name.attribute {
        None => Ok(symbol),
        Some(_) => with_member(
            alloc,
            symbol,
            "containerName",
            json!(in alloc; (name.name))?,
        ),
    }
}

/// An object with a member more.
fn with_member(
    alloc: Global,
    object: Value,
    key: &str,
    member: Value,
) -> Result<Value, AllocError> {
    let mut object = object;
    if let Some(members) = object.as_object_mut() {
        drop(members.insert(String::from_str(alloc, key)?, member)?);
    }
    Ok(object)
}
