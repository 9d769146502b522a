//! What a document's original has and the document is to get.
ghost use Rattle.std.specs.Prelude.{All, IfOk, map};
ghost use Rattle.serde_json.specs.View.{view};
ghost use Rattle.ftl_lsp.specs.Actions.{IsAction};
ghost use Rattle.ftl_lsp.specs.OpenDocuments.{open_text};

use crate::requests::actions::mended_document::MendedDocument;
use crate::workspace::originals::Original;
use fluent_syntax::parser::Edition;
use fluent_syntax_edits::additions;
use fluent_syntax_names::MissingPart;
use ftl_files::{CommentRules, IgnoreRule, addable_parts, added_names};
use serde_json::Value;
use std::alloc::{AllocError, Global};
use std::slice::from_ref;

/// How many messages and terms can be added one by one, and how many attributes.
const SINGLE_ADDITIONS: usize = 10;

/// The actions that add what the document is missing of its original: where its first line is asked of, all together
/// and the first messages and terms each by itself; where the name of an entry is, the first of its attributes.
/// `AllocError` where a growth was refused.
pub fn addition_list(
    mended: &MendedDocument<'_>,
    own: &CommentRules<'_, '_>,
    original: Option<&Original<'_>>,
    ignored: &[IgnoreRule],
) -> Result<Vec<Value>, AllocError>
    ensures { IfOk result
        (λ list. All (IsAction mended.now.uri.now (open_text mended.now.open.now)) (map view list.items)) }
{
    let Some(original) = original else {
        return Ok(Vec::new(mended.alloc));
    };
    let choices = choices(mended, own, original, ignored)?;
    additions_of(mended, original.name_index.text, &choices)
}

/// What one action adds.
#[derive(Drop)]
struct Choice {
    title: String,
    /// In the order of their bytes.
    names: Vec<String>,
}

/// What can be added: all that is missing; then the first messages and terms, and the first attributes of the entries
/// that are asked of, each by itself.
fn choices(
    mended: &MendedDocument<'_>,
    own: &CommentRules<'_, '_>,
    original: &Original<'_>,
    ignored: &[IgnoreRule],
) -> Result<Vec<Choice>, AllocError> {
    let alloc = mended.alloc;
    let text = original.name_index.text;
    let theirs = CommentRules::of(alloc, &original.name_index)?;
    let parts = addable_parts(alloc, &theirs, own, ignored)?;
    let is_first = is_in_first_line(mended);
    let (mut entries, mut attributes) = (Vec::new(alloc), Vec::new(alloc));
    for part in &parts {
        match part.in_other {
            None if is_first => entries.push(*part)?,
            Some(name) if mended.asks_of(name) => attributes.push(*part)?,
            _ => {}
        }
    }
    let mut choices = Vec::new(alloc);
    let names = added_names(alloc, text, &parts)?;
    let count = names.len();
    if is_first && count > 1 {
        let title = format!(in alloc; "Add all {count} missing messages, terms and attributes")?;
        choices.push(Choice { title, names })?;
    }
    add_single_choices(alloc, &mut choices, text, &entries)?;
    add_single_choices(alloc, &mut choices, text, &attributes)?;
    Ok(choices)
}

/// Adds the first of these parts of the original's text, each by itself, in their order.
fn add_single_choices(
    alloc: Global,
    choices: &mut Vec<Choice>,
    text: &str,
    parts: &[MissingPart],
) -> Result<(), AllocError> {
    for part in parts.iter().take(SINGLE_ADDITIONS) {
        let names = added_names(alloc, text, from_ref(part))?;
        if let Some(name) = names.first() {
            let title = format!(in alloc; "Add `{name}`")?;
            choices.push(Choice { title, names })?;
        }
    }
    Ok(())
}

/// The actions that add to the document what is chosen of the reference.
fn additions_of(
    mended: &MendedDocument<'_>,
    reference: &str,
    choices: &[Choice],
) -> Result<Vec<Value>, AllocError>
    ensures { IfOk result
        (λ list. All (IsAction mended.now.uri.now (open_text mended.now.open.now)) (map view list.items)) }
{
    let alloc = mended.alloc;
    let text = mended.open.document.text();
    let mut list = Vec::new(alloc);
    for choice in choices {
        let edits = additions(alloc, reference, text, Edition::One, &choice.names)?;
        if let Some(action) = mended.action_of(choice.title.as_str(), &edits)? {
            list.push(action)?;
        }
    }
    Ok(list)
}

/// Whether a place in the document's first line is asked of.
fn is_in_first_line(mended: &MendedDocument<'_>) -> bool {
    let text = mended.open.document.text().as_bytes();
    let before = text.get(..mended.asked.start).unwrap_or(text);
    !before.contains(&b'\n')
}
