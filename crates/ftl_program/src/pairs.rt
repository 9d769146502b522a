//! The files of a reference, each with its translation.

use crate::ignored::IgnoredRules;
use ftl_project::{Pair, Presence};
use std::alloc::{AllocError, Global};

/// A file or a folder of the reference and what is compared with it, and the files of both.
#[derive(Clone, Copy)]
pub(crate) struct Paired<'p> {
    pub(crate) reference: &'p str,
    pub(crate) reference_files: &'p [String],
    pub(crate) other: &'p str,
    pub(crate) other_files: &'p [String],
}

/// The files of the reference with those of the other of the same path below, or the two files that are named; and
/// after them those that the other alone has. What is not reported of a pair is what the rules of the other say.
pub(crate) fn pairs_of<'i>(
    alloc: Global,
    ignored: &'i IgnoredRules,
    paired: Paired<'_>,
) -> Result<Vec<Pair<'i>>, AllocError> {
    let Paired {
        reference,
        reference_files,
        other,
        other_files,
    } = paired;
    let wanted = names_below(alloc, reference, reference_files)?;
    let there = names_below(alloc, other, other_files)?;
    let mut pairs = Vec::new(alloc);
    for (file, name) in reference_files.iter().zip(&wanted) {
        let other = path_below(alloc, other, *name)?;
        pairs.push(Pair {
            ignored: ignored.at(alloc, other.as_str())?,
            reference: String::from_str(alloc, file.as_str())?,
            other,
            presence: match there.binary_search(name) {
                Ok(_) => Presence::Both,
                Err(_) => Presence::ReferenceAlone,
            },
        })?;
    }
    for (file, name) in other_files.iter().zip(&there) {
        if wanted.binary_search(name).is_err() {
            pairs.push(Pair {
                reference: path_below(alloc, reference, *name)?,
                other: String::from_str(alloc, file.as_str())?,
                presence: Presence::OtherAlone,
                ignored: ignored.at(alloc, file.as_str())?,
            })?;
        }
    }
    Ok(pairs)
}

/// The paths of the files below the folder.
fn names_below<'f>(
    alloc: Global,
    folder: &str,
    files: &'f [String],
) -> Result<Vec<&'f str>, AllocError> {
    files
        .iter()
        .map(|file| below(folder, file.as_str()))
        .collect(alloc)
}

/// The path of the file below the folder; none of the file itself.
fn below<'a>(folder: &str, file: &'a str) -> &'a str {
    file.strip_prefix(folder)
        .unwrap_or(file)
        .trim_start_matches('/')
}

/// The path of the name below the folder; the folder itself without a name.
fn path_below(alloc: Global, folder: &str, name: &str) -> Result<String, AllocError> {
    if name.is_empty() {
        return String::from_str(alloc, folder);
    }
    let folder = folder.trim_end_matches('/');
    format!(in alloc; "{folder}/{name}")
}
