//! What a request asks of: a place in one of the open documents.
ghost use Rattle.std.specs.Prelude.{◌≡◌, IfSome, List, Option, ℕ};
ghost use Rattle.std.specs.List.{Contains};
ghost use Rattle.serde_json.specs.Data.{Data};
ghost use Rattle.ftl_lsp.specs.Contexts.{IsContextOf};
ghost use Rattle.ftl_lsp.specs.Occurrences.{IsNameAt, shown_of};
ghost use Rattle.ftl_lsp.specs.OpenDocuments.{OpenText};

use crate::documents::index::{IndexedDocument, OccurrenceFilter};
use crate::documents::occurrences::Name;
use crate::documents::positions::Positions;
use crate::sessions::replies::{highlight_form, location_form};
use crate::workspace::Workspace;
use ftl_files::shared_folders;
use serde_json::Value;
use std::alloc::{AllocError, Global};

/// The open documents and the closed files that are asked of, which of them is named, and a byte of it.
#[derive(Drop)]
pub struct RequestContext<'d> {
    /// Those of the set that the document is of that is named; of all languages for a renaming in the reference.
    pub documents: Vec<IndexedDocument<'d>>,
    /// The document that is named.
    pub uri: &'d str,
    pub byte: usize,
    /// The document's original, if it has one.
    pub original: Option<IndexedDocument<'d>>,
    pub workspace: &'d Workspace,
}

impl RequestContext<'_> {
    /// The document that is named.
    pub fn here(&self) -> Option<&IndexedDocument<'_>>
        ensures listed { IfSome result (λ found. Contains self.now.documents.items found.now) }
        ensures named { IfSome result (λ found. found.now.uri.now ≡ self.now.uri.now) }
    {
        for document in &self.documents {
            if document.uri == self.uri {
                return Some(document);
            }
        }
        None
    }

    /// The name at the place. None where there is none.
    pub fn name(&self) -> Option<Name<'_>>
        ensures { (texts : List ℕ → Option OpenText) (d : Data) (context : IsContextOf texts d self.now) →
            IfSome result (λ name. IsNameAt context.found.text self.now.byte (shown_of name)) }
    {
        self.here()?.name_at(self.byte)
    }

    /// Where the name at the place is in the documents and files of the set; null where there is no name.
    /// `AllocError` where a growth was refused.
    pub fn locations(&self, alloc: Global, filter: OccurrenceFilter) -> Result<Value, AllocError> {
        let Some(name) = self.name() else {
            return Ok(Value::Null);
        };
        let mut list = Vec::new(alloc);
        for document in &self.documents {
            add_locations(alloc, &mut list, document, name, filter)?;
        }
        Ok(Value::Array(list))
    }

    /// Where the name at the place is defined: if it is defined there, in the original, and else, or if that doesn't
    /// define it, in the documents and files that are nearest; where none does, in the original; null where there is no
    /// name. `AllocError` where a growth was refused.
    pub fn definitions(&self, alloc: Global) -> Result<Value, AllocError> {
        let Some(name) = self.name() else {
            return Ok(Value::Null);
        };
        let filter = OccurrenceFilter::Definitions;
        let mut theirs = Vec::new(alloc);
        if let Some(original) = &self.original {
            add_locations(alloc, &mut theirs, original, name, filter)?;
        }
        if self.is_definition() && !theirs.is_empty() {
            return Ok(Value::Array(theirs));
        }
        let mut list = Vec::new(alloc);
        for number in self.nearest(alloc, name)?.iter() {
            if let Some(document) = self.documents.get(*number) {
                add_locations(alloc, &mut list, document, name, filter)?;
            }
        }
        if list.is_empty() {
            return Ok(Value::Array(theirs));
        }
        Ok(Value::Array(list))
    }

    /// Whether the name at the place is defined there.
    fn is_definition(&self) -> bool {
        match self.here() {
            Some(here) => here
                .occurrence_at(self.byte)
                .is_some_and(|found| found.defines),
            None => false,
        }
    }

    /// The numbers of the documents and files that define the name and have the most folders in common with the
    /// document that is named, of all that define it.
    pub fn nearest(&self, alloc: Global, name: Name<'_>) -> Result<Vec<usize>, AllocError> {
        let from = match self.here() {
            Some(here) => here.path,
            None => "",
        };
        let mut most = 0;
        let mut nearest = Vec::new(alloc);
        for (number, document) in self.documents.iter().enumerate() {
            if document.defines(name) {
                let shared = shared_folders(from, document.path);
                if shared > most {
                    most = shared;
                    nearest.clear();
                }
                if shared == most {
                    nearest.push(number)?;
                }
            }
        }
        Ok(nearest)
    }

    /// Where the name at the place is in its document; null where there is none. `AllocError` where a growth was
    /// refused.
    pub fn highlights(&self, alloc: Global) -> Result<Value, AllocError> {
        let Some(here) = self.here() else {
            return Ok(Value::Null);
        };
        let Some(name) = here.name_at(self.byte) else {
            return Ok(Value::Null);
        };
        let mut list = Vec::new(alloc);
        let mut positions = Positions::new(here.text);
        for span in here.ranges_of(alloc, name, OccurrenceFilter::All)?.iter() {
            list.push(highlight_form(alloc, &mut positions, *span)?)?;
        }
        Ok(Value::Array(list))
    }
}

/// Adds the places of the name in a document or file.
fn add_locations(
    alloc: Global,
    list: &mut Vec<Value>,
    document: &IndexedDocument<'_>,
    name: Name<'_>,
    filter: OccurrenceFilter,
) -> Result<(), AllocError> {
    let mut positions = Positions::new(document.text);
    for span in document.ranges_of(alloc, name, filter)?.iter() {
        list.push(location_form(alloc, document.uri, &mut positions, *span)?)?;
    }
    Ok(())
}
