//! The open documents and the closed files, with their names.
ghost use Rattle.std.specs.Prelude.{◌≡◌, All, IfOk, IfSome, None, string_bytes};
ghost use Rattle.ftl_lsp.specs.Contexts.{IsIndexed};
ghost use Rattle.ftl_lsp.specs.Occurrences.{IsCut, IsNameAt, shown_of};
ghost use Rattle.ftl_lsp.specs.OpenDocuments.{open_text, texts_of};

use crate::documents::Document;
use crate::documents::occurrences::{Name, Occurrence, is_named, name_of, occurrences_of};
use crate::documents::open_documents::OpenDocument;
use crate::workspace::Workspace;
use crate::workspace::closed_files::ClosedFile;
use crate::workspace::file_sets::FileSet;
use fluent_syntax::spans::Span;
use std::alloc::{AllocError, Global};
use std::collections::BTreeMap;

/// An open document or a closed file, with the names in it.
#[derive(Drop)]
pub struct IndexedDocument<'d> {
    pub uri: &'d str,
    /// The path of its file, or its URI where it has none.
    pub path: &'d str,
    /// The number of an open document, if the editor gave it one.
    pub version: Option<i64>,
    pub text: &'d str,
    names: Names<'d>,
}

/// The names in a text, in order.
#[derive(Drop)]
enum Names<'d> {
    /// Those of an open document.
    OpenDocument {
        document: &'d Document,
        occurrences: Vec<Occurrence>,
    },
    /// Those of a closed file.
    ClosedFile(&'d [Occurrence]),
}

/// Which documents and files are wanted.
#[derive(Clone, Copy)]
pub enum Scope<'p> {
    All,
    /// Those of a set.
    Set(FileSet<'p>),
    /// Those of all languages that have their folders in this one.
    Languages(&'p str),
}

impl Scope<'_> {
    /// Whether the file at the path is one of them.
    pub(crate) fn has(self, workspace: &Workspace, path: &str) -> bool {
        match self {
            Scope::All => true,
            Scope::Set(set) => workspace.set_of(path) == set,
            Scope::Languages(folder) => workspace.set_of(path).languages() == Some(folder),
        }
    }
}

/// The open documents with their names, in the order of their URIs, and then the files of the workspace that are not
/// open, in the order of their paths. `AllocError` where a growth was refused.
pub fn indexed_documents<'d>(
    alloc: Global,
    documents: &'d BTreeMap<String, OpenDocument>,
    workspace: &'d Workspace,
    scope: Scope<'_>,
) -> Result<Vec<IndexedDocument<'d>>, AllocError>
    ensures { IfOk result (λ found. All (IsIndexed (texts_of documents.now)) found.items) }
{
    let mut found: Vec<IndexedDocument<'d>> = Vec::new(alloc);
    for (uri, opened) in documents.iter() {
        if scope.has(workspace, opened.path_or(uri.as_str())) {
            found.push(indexed_document(alloc, uri, opened)?)?;
        }
    }
    for (path, file) in workspace.files().iter() {
        let path = path.as_str();
        let is_open = found.iter().any(|document| document.path == path);
        if !is_open && !documents.contains_key(file.uri.as_str()) && scope.has(workspace, path) {
            found.push(indexed_file(path, file))?;
        }
    }
    Ok(found)
}

/// The document or file at the path, if there is one. `AllocError` where a growth was refused.
pub fn indexed_document_at<'d>(
    alloc: Global,
    documents: &'d BTreeMap<String, OpenDocument>,
    workspace: &'d Workspace,
    path: &str,
) -> Result<Option<IndexedDocument<'d>>, AllocError> {
    for (uri, opened) in documents.iter() {
        if opened.path.as_deref() == Some(path) {
            return Ok(Some(indexed_document(alloc, uri, opened)?));
        }
    }
    for (at, file) in workspace.files().iter() {
        if at.as_str() == path {
            return Ok(Some(indexed_file(at.as_str(), file)));
        }
    }
    Ok(None)
}

/// What is known of the document that is open under the URI.
fn indexed_document<'d>(
    alloc: Global,
    uri: &'d str,
    opened: &'d OpenDocument,
) -> Result<IndexedDocument<'d>, AllocError>
    ensures uri { IfOk result (λ found. found.uri.now ≡ uri.now) }
    ensures text { IfOk result (λ found.
        record { text = found.text.now; version = found.version } ≡ open_text opened.now) }
{
    let document = &opened.document;
    Ok(IndexedDocument {
        uri,
        path: opened.path_or(uri),
        version: opened.version,
        text: document.text(),
        names: Names::OpenDocument {
            document,
            occurrences: occurrences_of(alloc, &document.name_index(alloc)?.mentions)?,
        },
    })
}

/// What is known of the closed file at the path.
fn indexed_file<'d>(path: &'d str, file: &'d ClosedFile) -> IndexedDocument<'d>
    ensures uri { result.uri.now ≡ string_bytes file.now.uri }
    ensures version { result.version ≡ None }
{
    IndexedDocument {
        uri: file.uri.as_str(),
        path,
        version: None,
        text: file.text.as_str(),
        names: Names::ClosedFile(file.occurrences.as_slice()),
    }
}

/// Which places of a name are looked for.
#[derive(Clone, Copy)]
pub enum OccurrenceFilter {
    Definitions,
    References,
    All,
}

impl OccurrenceFilter {
    /// Whether the place is one of these.
    fn has(&self, occurrence: &Occurrence) -> bool {
        match self {
            OccurrenceFilter::Definitions => occurrence.defines,
            OccurrenceFilter::References => !occurrence.defines,
            OccurrenceFilter::All => true,
        }
    }
}

impl IndexedDocument<'_> {
    /// The names in it, in order.
    pub fn occurrences(&self) -> &[Occurrence] {
        match &self.names {
            Names::OpenDocument { occurrences, .. } => occurrences.as_slice(),
            Names::ClosedFile(occurrences) => occurrences,
        }
    }

    /// The name at the byte, or that ends there, or whose mark is there; of two the first. None where there is none.
    pub fn name_at(&self, byte: usize) -> Option<Name<'_>>
        ensures { IfSome result (λ name. IsNameAt self.now.text.now byte (shown_of name)) }
    {
        for occurrence in self.occurrences() {
            if occurrence.is_at(self.text, byte) {
                return Some(name_of(self.text, *occurrence));
            }
        }
        None
    }

    /// The same name with its place, and whether it is defined there.
    pub fn occurrence_at(&self, byte: usize) -> Option<Occurrence> {
        let occurrences = self.occurrences();
        occurrences
            .iter()
            .find(|occurrence| occurrence.is_at(self.text, byte))
            .copied()
    }

    /// The text read anew. `AllocError` where a growth was refused.
    pub fn read(&self, alloc: Global) -> Result<Document, AllocError> {
        Document::new(alloc, String::from_str(alloc, self.text)?)
    }

    /// Where the name is, in order. `AllocError` where a growth was refused.
    pub fn ranges_of(
        &self,
        alloc: Global,
        name: Name<'_>,
        filter: OccurrenceFilter,
    ) -> Result<Vec<Span>, AllocError>
        ensures { IfOk result
            (λ found. All (λ span. IsCut self.now.text.now span (shown_of name.entry)) found.items) }
    {
        let mut found = Vec::new(alloc);
        for occurrence in self.occurrences() {
            if filter.has(occurrence) && is_named(self.text, occurrence, name) {
                found.push(occurrence.span())?;
            }
        }
        Ok(found)
    }

    /// Whether it defines the name.
    pub fn defines(&self, name: Name<'_>) -> bool {
        self.occurrences()
            .iter()
            .any(|found| found.defines && is_named(self.text, found, name))
    }

    /// The messages and terms that define the name, in order, as they are in the text with their comments.
    /// `AllocError` where a growth was refused.
    pub fn definitions_of(&self, alloc: Global, name: Name<'_>) -> Result<Vec<String>, AllocError> {
        let spans = self.ranges_of(alloc, name, OccurrenceFilter::Definitions)?;
        match &self.names {
            _ if spans.is_empty() => Ok(Vec::new(alloc)),
            Names::OpenDocument { document, .. } => entries_at(alloc, document, &spans),
            Names::ClosedFile(_) => entries_at(alloc, &self.read(alloc)?, &spans),
        }
    }
}

/// The messages and terms of a document in which the ranges begin.
fn entries_at(
    alloc: Global,
    document: &Document,
    spans: &[Span],
) -> Result<Vec<String>, AllocError> {
    let mut found = Vec::new(alloc);
    for span in spans {
        if let Some(entry) = document.entry_at(span.start) {
            found.push(String::from_str(alloc, entry)?)?;
        }
    }
    Ok(found)
}
