//! The texts of a workspace's files.
ghost use Rattle.std.specs.Prelude.{◌≡◌, ◌≤◌, All, IfOk, IfSome, length, string_bytes};
ghost use Rattle.ftl_files.specs.Reading.{IsOf, total};
ghost use Rattle.ftl_files.specs.declared.limits.TheConstants.{BYTES_LIMIT, FILES_LIMIT};

use crate::excluded::Excluded;
use crate::folders::Folders;
use crate::limits::{BYTES_LIMIT, FILE_LIMIT, FILES_LIMIT};
use crate::listing::Listing;
use crate::paths::is_below;
use std::alloc::{AllocError, Global};

/// A file as it was read.
#[derive(Debug, Drop)]
pub struct SourceFile {
    pub path: String,
    pub text: String,
}

/// Files as they were read.
#[derive(Debug, Drop)]
pub struct SourceFiles {
    pub files: Vec<SourceFile>,
    /// The paths of those that were listed and not read.
    pub left_out: Vec<String>,
    /// The paths of the folders and files that are excluded.
    pub passed_over: Vec<String>,
    /// Whether all were listed, and none was left out for their number.
    pub is_whole: bool,
}

/// The files below the folder whose names end in `.ftl`, each as it is now, in the order of their paths. Left out is
/// one that can't be read or is no UTF-8, that has more than `FILE_LIMIT` bytes, or that would pass `BYTES_LIMIT`. What
/// is excluded is not listed, and after `FILES_LIMIT` files none is read. `AllocError` where a growth was refused.
pub fn read_files<F: Folders>(
    alloc: Global,
    files: &F,
    folder: &str,
    excluded: &Excluded,
) -> Result<SourceFiles, AllocError>
    ensures files { IfOk result (λ found. All (IsOf (F.bytes_at files.now) folder.now) found.files.items) }
    ensures few { IfOk result (λ found. length found.files.items ≤ FILES_LIMIT) }
    ensures bytes { IfOk result (λ found. total found.files.items ≤ BYTES_LIMIT) }
{
    let listing = files.files_below(alloc, folder, excluded)?;
    let mut is_whole = listing.is_whole();
    let Listing {
        files: paths,
        passed_over,
        ..
    } = listing;
    let mut found = Vec::new(alloc);
    let mut left_out = Vec::new(alloc);
    let mut left = BYTES_LIMIT;
    for path in paths {
        if found.len() < FILES_LIMIT && is_below(folder, path.as_str()) {
            match read_text(alloc, files, path.as_str(), left.min(FILE_LIMIT))? {
                Some(text) => {
                    left -= text.len();
                    found.push(SourceFile { path, text })?;
                }
                None => left_out.push(path)?,
            }
        } else {
            is_whole = false;
        }
    }
    Ok(SourceFiles {
        files: found,
        left_out,
        passed_over,
        is_whole,
    })
}

/// The text of the file at the path. None where it can't be read, has more bytes than that, or is no UTF-8.
fn read_text<F: Folders>(
    alloc: Global,
    files: &F,
    path: &str,
    limit: usize,
) -> Result<Option<String>, AllocError>
    ensures read { IfOk result (λ found. IfSome found (λ text.
        IfSome (F.bytes_at files.now path.now) (λ bytes. string_bytes text ≡ bytes))) }
    ensures limit { IfOk result (λ found. IfSome found (λ text. length (string_bytes text) ≤ limit)) }
{
    match files.read(alloc, path, limit)? {
        Some(bytes) => match String::from_utf8(bytes) {
            Ok(text) => Ok(Some(text)),
            Err(_) => Ok(None),
        },
        None => Ok(None),
    }
}
