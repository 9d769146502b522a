//! A file of the workspace that is not open, with the names in it.

use crate::documents::Document;
use crate::documents::occurrences::{Occurrence, occurrences_of};
use fluent_syntax::spans::Span;
use fluent_syntax_names::{Mention, NameIndex};
use ftl_files::uri_of_path;
use std::alloc::{AllocError, Global};

/// A file as it was read.
#[derive(Drop)]
pub struct ClosedFile {
    pub uri: String,
    pub text: String,
    /// The names in the text, in order.
    pub occurrences: Vec<Occurrence>,
    /// What its entries say of names, in order.
    pub mentions: Vec<Mention<Span>>,
}

impl ClosedFile {
    /// The file at the path with the text. None where that nests deeper than `NESTING_LIMIT`. `AllocError` where a
    /// growth was refused.
    pub fn new(alloc: Global, path: &str, text: String) -> Result<Option<ClosedFile>, AllocError> {
        let document = Document::new(alloc, text)?;
        if document.is_too_deep() {
            return Ok(None);
        }
        let NameIndex { mentions, .. } = document.name_index(alloc)?;
        Ok(Some(ClosedFile {
            uri: uri_of_path(alloc, path)?,
            text: document.into_text(),
            occurrences: occurrences_of(alloc, &mentions)?,
            mentions,
        }))
    }

    /// Its text with what its entries say of names. `AllocError` where a growth was refused.
    pub fn name_index(&self, alloc: Global) -> Result<NameIndex<'_>, AllocError> {
        Ok(NameIndex {
            text: self.text.as_str(),
            mentions: self.mentions.iter().copied().collect(alloc)?,
        })
    }

    /// The same, where the file was read before: what was made of it then is kept if its text is the same.
    pub fn read(
        alloc: Global,
        before: Option<ClosedFile>,
        path: &str,
        text: String,
    ) -> Result<Option<ClosedFile>, AllocError> {
        match before {
            Some(file) if file.text == text => Ok(Some(file)),
            _ => ClosedFile::new(alloc, path, text),
        }
    }
}
