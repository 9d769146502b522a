//! What the other files of a document's set define and say.

use crate::documents::open_documents::OpenDocument;
use crate::limits::FINDINGS_LIMIT;
use crate::workspace::Workspace;
use crate::workspace::file_sets::FileSet;
use fluent_syntax_names::{DefinedNames, NameIndex};
use std::alloc::{AllocError, Global};
use std::collections::BTreeMap;

/// Looks up what the documents and the closed files of the set define, as far as that was not done since they changed:
/// `defined` is what was looked up of the documents, by their names. That of the document itself isn't needed.
///
/// `AllocError` where a growth was refused.
pub fn look_up_others(
    alloc: Global,
    uri: &str,
    set: FileSet<'_>,
    documents: &BTreeMap<String, OpenDocument>,
    defined: &mut BTreeMap<String, DefinedNames>,
    workspace: &mut Workspace,
) -> Result<(), AllocError> {
    for (other, open) in documents.iter() {
        let name = other.as_str();
        if is_other(uri, set, name, open, workspace) && !defined.contains_key(name) {
            let name_index = open.document.name_index(alloc)?;
            let mut names = DefinedNames::new(alloc);
            names.add(alloc, name_index.text, &name_index.mentions)?;
            drop(defined.insert(String::from_str(alloc, name)?, names)?);
        }
    }
    workspace.look_up_defined_names(alloc, set, documents)
}

/// Whether the document of that name is another one than that of the URI, and of the set.
fn is_other(
    uri: &str,
    set: FileSet<'_>,
    name: &str,
    open: &OpenDocument,
    workspace: &Workspace,
) -> bool {
    name != uri && workspace.set_of(open.path_or(name)) == set
}

/// The names that the other documents and the closed files of the set define, as they were looked up. None where more
/// may be defined: another document nests too deeply.
///
/// `AllocError` where a growth was refused.
pub fn others_of<'d>(
    alloc: Global,
    uri: &str,
    set: FileSet<'_>,
    documents: &'d BTreeMap<String, OpenDocument>,
    defined: &'d BTreeMap<String, DefinedNames>,
    workspace: &'d Workspace,
) -> Result<Option<Vec<&'d DefinedNames>>, AllocError> {
    let Some(closed) = workspace.defined_names(set) else {
        return Ok(None);
    };
    let mut others = Vec::new(alloc);
    others.push(closed)?;
    for (other, open) in documents.iter() {
        let name = other.as_str();
        if is_other(uri, set, name, open, workspace) {
            match defined.get(name) {
                Some(names) if !open.document.is_too_deep() => others.push(names)?,
                _ => return Ok(None),
            }
        }
    }
    Ok(Some(others))
}

/// What the other documents and the closed files of the set say of names. None where they and the document together
/// have more than `FINDINGS_LIMIT` bytes, or one of them nests too deeply.
///
/// `AllocError` where a growth was refused.
pub fn name_indexes_of<'d>(
    alloc: Global,
    uri: &str,
    set: FileSet<'_>,
    documents: &'d BTreeMap<String, OpenDocument>,
    workspace: &'d Workspace,
) -> Result<Option<Vec<NameIndex<'d>>>, AllocError> {
    if bytes_of_all(set, documents, workspace) > FINDINGS_LIMIT {
        return Ok(None);
    }
    let mut name_indexes = Vec::new(alloc);
    for (other, open) in documents.iter() {
        if is_other(uri, set, other.as_str(), open, workspace) {
            if open.document.is_too_deep() {
                return Ok(None);
            }
            name_indexes.push(open.document.name_index(alloc)?)?;
        }
    }
    for file in workspace.closed_files_of(alloc, set, documents)? {
        name_indexes.push(file.name_index(alloc)?)?;
    }
    Ok(Some(name_indexes))
}

/// How many bytes the documents and the files of the set have together. A document counts in addition to its file.
fn bytes_of_all(
    set: FileSet<'_>,
    documents: &BTreeMap<String, OpenDocument>,
    workspace: &Workspace,
) -> usize {
    let mut sum = 0usize;
    for (name, open) in documents.iter() {
        if workspace.set_of(open.path_or(name.as_str())) == set {
            sum = sum.saturating_add(open.document.text().len());
        }
    }
    for (path, file) in workspace.files().iter() {
        if workspace.set_of(path.as_str()) == set {
            sum = sum.saturating_add(file.text.len());
        }
    }
    sum
}
