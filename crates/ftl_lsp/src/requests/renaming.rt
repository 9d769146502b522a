//! Another name for what a name means, in the documents and files of a set or of all languages.
ghost use Rattle.std.specs.Prelude.{◌≡◌, ◌∷◌, ℕ, List, All, IfOk, Option, Some, map, true};
ghost use Rattle.std.specs.List.{list_all};
ghost use Rattle.fluent_syntax_grammar.specs.Bytes.{is_name_byte};
ghost use Rattle.fluent_syntax_grammar.specs.Spellings.{is_name};
ghost use Rattle.serde_json.specs.Data.{Data};
ghost use Rattle.serde_json.specs.View.{members_view, view};
ghost use Rattle.ftl_lsp.specs.Contexts.{IsContextOf};
ghost use Rattle.ftl_lsp.specs.Occurrences.{shown_of};
ghost use Rattle.ftl_lsp.specs.OpenDocuments.{OpenText};
ghost use Rattle.ftl_lsp.specs.Params.{new_name_in};
ghost use Rattle.ftl_lsp.specs.Renaming.{AsksToRename, IsIdentifierOf, RenamesAt, RenamesEach, RenamesIn};
ghost use Rattle.ftl_lsp.specs.Renaming.{RenamesName};

use crate::documents::index::{IndexedDocument, OccurrenceFilter};
use crate::documents::occurrences::{Name, NameKind, name_of};
use crate::documents::positions::Positions;
use crate::requests::request_context::RequestContext;
use crate::sessions::phases::RenameFault;
use crate::sessions::replies::{
    changes_form, edit_form, edits_of_document, named_range_form, null, renaming_form,
};
use fluent_syntax_grammar::lanes::name_len;
use serde_json::{Map, Value};
use std::alloc::{AllocError, Global};

/// Whether the text is an identifier: a letter, then letters, digits, `_` and `-`.
pub(crate) fn is_identifier(text: &str) -> bool
    ensures { result ≡ is_name text.now }
{
    match text.as_bytes() {
        [first, rest @ ..] => { first.is_ascii_alphabetic() && are_name_bytes(rest) }
        [] => false,
    }
}

/// Whether they are letters, digits, `_` and `-`.
fn are_name_bytes(bytes: &[u8]) -> bool
    ensures { result ≡ list_all is_name_byte bytes.now }
{
    name_len(bytes) == bytes.len()
}

/// The identifier that the new name of a message or term is; a term's may have its `-`.
fn identifier_of(kind: NameKind, new_name: &str) -> Result<&str, RenameFault>
    ensures identifier { IfOk result (λ identifier. IsIdentifierOf new_name.now identifier.now) }
    ensures spelling { IfOk result (λ identifier. is_name identifier.now ≡ true) }
{
    match kind {
        NameKind::Message => identifier_in(new_name),
        NameKind::Term => match new_name.strip_prefix('-') {
            Some(name) => identifier_in(name),
            None => identifier_in(new_name),
        },
        NameKind::Variable | NameKind::Function => Err(RenameFault::VariableOrFunction),
    }
}

/// The text, if it is an identifier.
fn identifier_in(text: &str) -> Result<&str, RenameFault>
    ensures same { IfOk result (λ identifier. identifier.now ≡ text.now) }
    ensures spelling { IfOk result (λ identifier. is_name identifier.now ≡ true) }
{
    if is_identifier(text) {
        Ok(text)
    } else {
        Err(RenameFault::NoIdentifier)
    }
}

/// The name with another in its place, or in the place of its attribute's.
fn renamed_name<'n>(name: Name<'n>, new_name: &'n str) -> Name<'n> {
    match name.attribute {
        None => Name {
            name: new_name,
            ..name
        },
        Some(_) => Name {
            attribute: Some(new_name),
            ..name
        },
    }
}

/// The name at the place, and the identifier that it is to have, which may be its own.
fn names_of<'c>(
    context: &'c RequestContext<'_>,
    new_name: &'c str,
) -> Result<(Name<'c>, &'c str), RenameFault>
    ensures { (texts : List ℕ → Option OpenText) (d : Data) → IsContextOf texts d context.now →
        new_name_in d ≡ Some new_name.now →
        IfOk result (λ names. AsksToRename texts d (shown_of names.0) names.1.now) }
{
    let Some(name) = context.name() else {
        return Err(RenameFault::NoName);
    };
    let identifier = identifier_of(name.kind, new_name)?;
    let renamed = renamed_name(name, identifier);
    let is_taken = context
        .documents
        .iter()
        .any(|document| document.defines(renamed));
    if is_taken && renamed != name {
        Err(RenameFault::Taken)
    } else if is_identifier(name.shown_text()) {
        Ok((name, identifier))
    } else {
        // of a text that was read each name is an identifier
        Err(RenameFault::NoName)
    }
}

/// The name at the place with its range, if it can be renamed; else null. `AllocError` where a growth was refused.
pub fn rename_range(alloc: Global, context: &RequestContext<'_>) -> Result<Value, AllocError> {
    let Some(here) = context.here() else {
        return Ok(null());
    };
    match here.occurrence_at(context.byte) {
        Some(found) if matches!(found.kind, NameKind::Message | NameKind::Term) => {
            let name = name_of(here.text, found);
            let mut positions = Positions::new(here.text);
            named_range_form(alloc, &mut positions, found.span(), name.shown_text())
        }
        _ => Ok(null()),
    }
}

/// The edits by which the name at the place has the new name in the documents and files that are asked of, none where
/// it is its own; or why it can't have it. Each document may be `versioned` where the editor takes that. `AllocError`
/// where a growth was refused.
pub fn rename_edits(
    alloc: Global,
    context: &RequestContext<'_>,
    new_name: &str,
    versioned: bool,
) -> Result<Result<Value, RenameFault>, AllocError>
    ensures { (texts : List ℕ → Option OpenText) (d : Data) → IsContextOf texts d context.now →
        new_name_in d ≡ Some new_name.now →
        IfOk result (λ found. IfOk found (λ edits. RenamesName texts d (view edits))) }
{
    match names_of(context, new_name) {
        Ok((name, identifier)) => Ok(Ok(renaming(alloc, context, name, identifier, versioned)?)),
        Err(fault) => Ok(Err(fault)),
    }
}

/// The edits by which the name has the identifier, of documents in their versions or by their names.
fn renaming(
    alloc: Global,
    context: &RequestContext<'_>,
    name: Name<'_>,
    identifier: &str,
    versioned: bool,
) -> Result<Value, AllocError>
    ensures { (texts : List ℕ → Option OpenText) (d : Data) → IsContextOf texts d context.now →
        AsksToRename texts d (shown_of name.entry) identifier.now →
        IfOk result (λ edits. RenamesName texts d (view edits)) }
{
    if versioned {
        renaming_form(alloc, document_changes(alloc, context, name, identifier)?)
    } else {
        changes_form(alloc, changes_by_name(alloc, context, name, identifier)?)
    }
}

/// The edits of each document and file in which the name is, by their names; none where the identifier is its own.
fn changes_by_name(
    alloc: Global,
    context: &RequestContext<'_>,
    name: Name<'_>,
    identifier: &str,
) -> Result<Map<String, Value>, AllocError>
    ensures { (texts : List ℕ → Option OpenText) (d : Data) → IsContextOf texts d context.now →
        is_name (shown_of name.entry) ≡ true →
        IfOk result (λ changes. RenamesEach texts (shown_of name.entry) identifier.now
        (members_view changes.entries)) }
{
    let mut changes = Map::new(alloc);
    if renamed_name(name, identifier) == name {
        return Ok(changes);
    }
    for document in &context.documents {
        let edits = edits_in(alloc, document, name, identifier)?;
        if !edits.is_empty() {
            let uri = String::from_str(alloc, document.uri)?;
            drop(changes.insert(uri, Value::Array(edits))?);
        }
    }
    Ok(changes)
}

/// The edits of each document and file in which the name is; none where the identifier is its own.
fn document_changes(
    alloc: Global,
    context: &RequestContext<'_>,
    name: Name<'_>,
    identifier: &str,
) -> Result<Vec<Value>, AllocError>
    ensures { (texts : List ℕ → Option OpenText) (d : Data) → IsContextOf texts d context.now →
        is_name (shown_of name.entry) ≡ true →
        IfOk result (λ changes. All (RenamesIn texts (shown_of name.entry) identifier.now) (map view changes.items)) }
{
    let mut changes = Vec::new(alloc);
    if renamed_name(name, identifier) == name {
        return Ok(changes);
    }
    for document in &context.documents {
        let edits = edits_in(alloc, document, name, identifier)?;
        if !edits.is_empty() {
            changes.push(edits_of_document(alloc, document.uri, document.version, edits)?)?;
        }
    }
    Ok(changes)
}

/// The edits by which the name has another text in a document or file.
fn edits_in(
    alloc: Global,
    document: &IndexedDocument<'_>,
    name: Name<'_>,
    text: &str,
) -> Result<Vec<Value>, AllocError>
    ensures { is_name (shown_of name.entry) ≡ true →
        IfOk result (λ edits.
        All (RenamesAt document.now.text.now (shown_of name.entry) text.now) (map view edits.items)) }
{
    let mut edits = Vec::new(alloc);
    let mut positions = Positions::new(document.text);
    for span in document
        .ranges_of(alloc, name, OccurrenceFilter::All)?
        .iter()
    {
        edits.push(edit_form(alloc, &mut positions, *span, text)?)?;
    }
    Ok(edits)
}
