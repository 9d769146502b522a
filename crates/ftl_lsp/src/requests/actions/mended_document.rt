//! A document of which something can be mended.
ghost use Rattle.std.specs.Prelude.{◌≡◌, All, IfOk, IfSome, map, true};
ghost use Rattle.serde_json.specs.View.{view};
ghost use Rattle.fluent_syntax_edits.specs.SeveralEdits.{numbered_change};
ghost use Rattle.fluent_syntax_grammar.specs.Spellings.{is_name};
ghost use Rattle.ftl_lsp.specs.Actions.{IsAction, Mends, action_form, replacement_form, workspace_edit_form};
ghost use Rattle.ftl_lsp.specs.Occurrences.{IsCut};
ghost use Rattle.ftl_lsp.specs.OpenDocuments.{open_text};

use crate::documents::open_documents::OpenDocument;
use crate::documents::positions::Positions;
use crate::sessions::replies::{changes_form, edit_form, edits_of_document, renaming_form};
use fluent_syntax::parser::Edition;
use fluent_syntax::spans::Span;
use fluent_syntax_edits::{EditFault, NumberedEdit, Replacement, replacements};
use serde_json::{Map, Value, json};
use std::alloc::{AllocError, Global};

/// A document of which something can be mended, and the range that is asked of.
#[derive(Clone, Copy)]
pub struct MendedDocument<'d> {
    pub alloc: Global,
    pub uri: &'d str,
    pub open: &'d OpenDocument,
    pub asked: Span,
    /// Whether the editor takes edits of documents in their versions.
    pub versioned: bool,
}

impl MendedDocument<'_> {
    /// Whether the range that is asked of meets the span.
    pub fn asks_of(&self, span: Span) -> bool {
        self.asked.start <= span.end && span.start <= self.asked.end
    }

    /// The action of that title that makes the edits. None where they can't be made. `AllocError` where a growth was
    /// refused.
    pub fn action_of(
        &self,
        title: &str,
        edits: &[NumberedEdit],
    ) -> Result<Option<Value>, AllocError>
        ensures { All (Mends (open_text self.now.open.now).text) (map numbered_change edits.now) → IfOk result
            (λ found. IfSome found
            (λ value. IsAction self.now.uri.now (open_text self.now.open.now) (view value))) }
    {
        let text = self.open.document.text();
        match replacements(self.alloc, text, Edition::One, edits) {
            Ok(found) => {
                let edits = edit_list(self.alloc, text, &found)?;
                Ok(Some(self.action_form(title, edits)?))
            }
            Err(EditFault::Memory) => Err(AllocError),
            Err(_) => Ok(None),
        }
    }

    /// The action of that title that puts the name in place of the one at the span, whose text is `old`. `AllocError`
    /// where a growth was refused.
    pub fn respelling(
        &self,
        title: &str,
        span: Span,
        old: &str,
        name: &str,
    ) -> Result<Value, AllocError>
        requires cut { IsCut (open_text self.now.open.now).text span old.now }
        requires old { is_name old.now ≡ true }
        requires name { is_name name.now ≡ true }
        ensures { IfOk result (λ value. IsAction self.now.uri.now (open_text self.now.open.now) (view value)) }
    {
        let mut positions = Positions::new(self.open.document.text());
        let mut list = Vec::new(self.alloc);
        list.push(edit_form(self.alloc, &mut positions, span, name)?)?;
        Ok(self.action_form(title, list)?)
    }

    fn action_form(&self, title: &str, edits: Vec<Value>) -> Result<Value, AllocError>
        ensures { let found = open_text self.now.open.now in IfOk result (λ value. view value ≡ action_form title.now
            (workspace_edit_form self.now.versioned self.now.uri.now found (map view edits.items))) }
    {
        let edit = self.workspace_edit_form(edits)?;
        json!(in self.alloc; {"title": title, "kind": "quickfix", "edit": edit})
    }

    /// The edits of the document, in its version where the editor takes that.
    fn workspace_edit_form(&self, edits: Vec<Value>) -> Result<Value, AllocError>
        ensures { let found = open_text self.now.open.now in IfOk result (λ value. view value
            ≡ workspace_edit_form self.now.versioned self.now.uri.now found (map view edits.items)) }
    {
        if self.versioned {
            let mut documents = Vec::new(self.alloc);
            documents.push(edits_of_document(self.alloc, self.uri, self.open.version, edits)?)?;
            renaming_form(self.alloc, documents)
        } else {
            let mut changes = Map::new(self.alloc);
            let uri = String::from_str(self.alloc, self.uri)?;
            drop(changes.insert(uri, Value::Array(edits))?);
            changes_form(self.alloc, changes)
        }
    }
}

/// The edits of the text that put each of these in place of its stretch. `AllocError` where a growth was refused.
pub fn edit_list(alloc: Global, text: &str, found: &[Replacement]) -> Result<Vec<Value>, AllocError>
    ensures { IfOk result (λ list. map view list.items ≡ map (replacement_form text.now) found.now) }
{
    let mut positions = Positions::new(text);
    let mut list = Vec::new(alloc);
    for replacement in found {
        list.push(replacement_form(alloc, &mut positions, replacement)?)?;
    }
    Ok(list)
}

/// The edit that puts a text in place of its stretch.
fn replacement_form(
    alloc: Global,
    positions: &mut Positions<'_>,
    replacement: &Replacement,
) -> Result<Value, AllocError>
    ensures text { positions.new ≡ positions.old }
    ensures form { IfOk result (λ value. view value ≡ replacement_form positions.old replacement.now) }
{
    edit_form(
        alloc,
        positions,
        replacement.span,
        replacement.text.as_str(),
    )
}
