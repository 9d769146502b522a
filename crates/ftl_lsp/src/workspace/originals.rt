//! The files of the reference language, of which the others are to be translations.

use crate::documents::open_documents::OpenDocument;
use crate::workspace::closed_files::ClosedFile;
use fluent_syntax_names::NameIndex;
use ftl_files::original_of;
use std::alloc::{AllocError, Global};
use std::collections::BTreeMap;

/// Where the reference language has its files: a folder or a file. The other languages have theirs next to it.
#[derive(Drop)]
pub struct Reference {
    /// The folder that it is in.
    above: String,
    /// Its name there.
    own: String,
}

impl Reference {
    /// The reference that a folder names so. None where it names none. `AllocError` where a growth was refused.
    pub fn in_folder(
        alloc: Global,
        folder: &str,
        name: &str,
    ) -> Result<Option<Reference>, AllocError> {
        let name = name.trim_start_matches("./").trim_end_matches('/');
        let path = format!(in alloc; "{folder}/{name}")?;
        match path.rsplit_once('/') {
            Some((above, own)) if !own.is_empty() => Ok(Some(Reference {
                above: String::from_str(alloc, above)?,
                own: String::from_str(alloc, own)?,
            })),
            _ => Ok(None),
        }
    }

    /// Its path. `AllocError` where a growth was refused.
    pub fn path(&self, alloc: Global) -> Result<String, AllocError> {
        let Reference { above, own } = self;
        format!(in alloc; "{above}/{own}")
    }

    /// Whether it is the folder.
    pub fn is_folder(&self, folder: &str) -> bool {
        folder.rsplit_once('/') == Some((self.above.as_str(), self.own.as_str()))
    }

    /// The path of the original of the file at the path. None where that is to be no translation. `AllocError` where a
    /// growth was refused.
    pub fn original_of(&self, alloc: Global, path: &str) -> Result<Option<String>, AllocError> {
        original_of(alloc, self.above.as_str(), self.own.as_str(), path)
    }
}

/// A file of the reference language, open or closed.
#[derive(Drop)]
pub struct Original<'d> {
    pub uri: &'d str,
    pub name_index: NameIndex<'d>,
}

/// The file at the path, open or closed. None where there is none, or it nests too deeply. `AllocError` where a growth
/// was refused.
pub fn original_at<'d>(
    alloc: Global,
    path: &str,
    documents: &'d BTreeMap<String, OpenDocument>,
    files: &'d BTreeMap<String, ClosedFile>,
) -> Result<Option<Original<'d>>, AllocError> {
    for (uri, open) in documents.iter() {
        if open.path.as_deref() == Some(path) {
            if open.document.is_too_deep() {
                return Ok(None);
            }
            return Ok(Some(Original {
                uri: uri.as_str(),
                name_index: open.document.name_index(alloc)?,
            }));
        }
    }
    let Some(file) = files.get(path) else {
        return Ok(None);
    };
    Ok(Some(Original {
        uri: file.uri.as_str(),
        name_index: file.name_index(alloc)?,
    }))
}
