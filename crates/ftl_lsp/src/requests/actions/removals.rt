//! Messages and terms of a document that can go.
ghost use Rattle.std.specs.Prelude.{All, IfOk, IfSome, map};
ghost use Rattle.serde_json.specs.View.{view};
ghost use Rattle.ftl_lsp.specs.Actions.{IsAction};
ghost use Rattle.ftl_lsp.specs.OpenDocuments.{open_text};

use crate::documents::entry_ranges::entry_number_at;
use crate::requests::actions::mended_document::MendedDocument;
use crate::workspace::originals::Original;
use fluent_syntax::spans::Span;
use fluent_syntax_edits::NumberedEdit;
use fluent_syntax_names::{Finding, Kind, Part, Side, missing_parts, shown_name};
use ftl_files::{CommentRules, IgnoreRule, is_part_reported};
use serde_json::Value;
use std::alloc::AllocError;
use std::slice::from_ref;

/// The names of the messages and terms in the range that can go: those that are defined before, and those that the
/// original doesn't have. `AllocError` where a growth was refused.
pub fn removed_names(
    mended: &MendedDocument<'_>,
    findings: &[Finding],
    own: &CommentRules<'_, '_>,
    original: Option<&Original<'_>>,
    ignored: &[IgnoreRule],
) -> Result<Vec<Span>, AllocError> {
    let mut names = second_names(mended, findings)?;
    if let Some(original) = original {
        for name in &obsolete_names(mended, own, original, ignored)? {
            if !names.contains(name) {
                names.push(*name)?;
            }
        }
    }
    Ok(names)
}

/// The names of the messages and terms in the range that the original doesn't have, not even as junk.
fn obsolete_names(
    mended: &MendedDocument<'_>,
    own: &CommentRules<'_, '_>,
    original: &Original<'_>,
    ignored: &[IgnoreRule],
) -> Result<Vec<Span>, AllocError> {
    let theirs = CommentRules::of(mended.alloc, &original.name_index)?;
    let mut names = Vec::new(mended.alloc);
    for extra in &missing_parts(mended.alloc, own.name_index, &original.name_index)? {
        if matches!(extra.part, Part::Entry)
            && !extra.is_junk()
            && mended.asks_of(extra.name)
            && is_part_reported(ignored, Side::Other, own, &theirs, extra)
        {
            names.push(extra.name)?;
        }
    }
    Ok(names)
}

/// The names of the messages and terms in the range that are defined before.
fn second_names(
    mended: &MendedDocument<'_>,
    findings: &[Finding],
) -> Result<Vec<Span>, AllocError> {
    let mut names = Vec::new(mended.alloc);
    for finding in findings {
        match (finding.kind, finding.place) {
            (Kind::DefinedTwice, Some(place)) if mended.asks_of(place) => names.push(place)?,
            _ => {}
        }
    }
    Ok(names)
}

/// The actions that remove the messages and terms of these names. `AllocError` where a growth was refused.
pub fn removal_list(mended: &MendedDocument<'_>, names: &[Span]) -> Result<Vec<Value>, AllocError>
    ensures { IfOk result
        (λ list. All (IsAction mended.now.uri.now (open_text mended.now.open.now)) (map view list.items)) }
{
    let mut list = Vec::new(mended.alloc);
    for name in names {
        if let Some(action) = removal(mended, *name)? {
            list.push(action)?;
        }
    }
    Ok(list)
}

/// The action that removes the message or term of that name, if it can be removed.
fn removal(mended: &MendedDocument<'_>, name: Span) -> Result<Option<Value>, AllocError>
    ensures { IfOk result (λ found. IfSome found
        (λ value. IsAction mended.now.uri.now (open_text mended.now.open.now) (view value))) }
{
    let document = &mended.open.document;
    let Some(number) = entry_number_at(document.text(), document.body(), name.start) else {
        return Ok(None);
    };
    let name = shown_name(document.text(), name);
    let title = format!(in mended.alloc; "Remove `{name}`")?;
    let removal = NumberedEdit::remove(number);
    mended.action_of(title.as_str(), from_ref(&removal))
}
