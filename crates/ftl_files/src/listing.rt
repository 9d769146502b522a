//! Which files a path names, and which a folder has.

use crate::excluded::Excluded;
use crate::limits::{FILES_LIMIT, FOLDERS_LIMIT};
use crate::paths::absolute_path;
use std::alloc::AllocError;
use std::collections::VecDeque;
use std::fs::DirEntry;
use std::io::ErrorKind;
use std::rt::Files;
use std::{fs, io};

/// The files that were found, and what failed on the way.
#[derive(Debug, Drop)]
pub struct Listing {
    /// Their paths, in the order of their bytes.
    pub files: Vec<String>,
    /// A folder, or an entry of one, that could not be read, and why.
    pub faults: Vec<(String, io::Error)>,
    /// A folder, for each entry of it that is passed over since its name is not UTF-8.
    pub with_other_names: Vec<String>,
    /// The paths from the root on of the folders and files that are excluded.
    pub passed_over: Vec<String>,
    /// Whether some were left out for their number.
    pub is_cut: bool,
}

impl Listing {
    /// Whether these are all.
    pub fn is_whole(&self) -> bool {
        self.faults.is_empty() && !self.is_cut
    }

    /// Whether it is that of a file, which has the path itself.
    pub fn is_of_file(&self, path: &str) -> bool {
        matches!(self.files.as_slice(), [file] if file.as_str() == path)
    }

    /// Whether nothing was listed, since what has the path could not be.
    pub fn has_failed(&self, path: &str) -> bool {
        self.files.is_empty() && self.faults.iter().any(|(at, _)| at.as_str() == path)
    }
}

/// How a folder is searched.
#[derive(Clone, Copy)]
struct Search<'e> {
    /// What is passed over.
    excluded: &'e Excluded,
    /// How many folders are looked into at most.
    folders: usize,
    /// With how many files no further folder is looked into.
    files: usize,
}

/// A folder that is to be searched.
#[derive(Drop)]
struct Found {
    /// Its path, as it is shown.
    path: String,
    /// Its path from the root on.
    absolute: String,
    /// Whether it was met in a folder above: then it may be gone again.
    is_met: bool,
}

/// The path itself, if it names no folder; else each file below the folder whose name ends in `.ftl`, without what is
/// excluded. Below the folder no symlink is followed. An entry that vanishes meanwhile is passed over, and so is one
/// whose name is not UTF-8. A path that doesn't begin at the root begins in the current folder.
pub fn list<R: Files + AllocGlobal + Clone + Drop>(
    rt: &R,
    current: &str,
    path: &str,
    excluded: &Excluded,
) -> Result<Listing, AllocError> {
    match fs::metadata(rt, path) {
        Ok(metadata) if metadata.is_dir() => {
            // no system has as many folders and files
            let search = Search {
                excluded,
                folders: usize::MAX,
                files: usize::MAX,
            };
            search_folder(rt, current, path, search)
        }
        Ok(_) => {
            let mut listing = no_files(rt);
            listing.files.push(String::from_str(rt.alloc(), path)?)?;
            Ok(listing)
        }
        Err(error) => {
            let mut listing = no_files(rt);
            add_fault(rt, path, error, &mut listing)?;
            Ok(listing)
        }
    }
}

/// The files below the folder, whose path begins at the root, without what is excluded and within the limits of an
/// editor's workspace.
pub(crate) fn list_within_limits<R: Files + AllocGlobal + Clone + Drop>(
    rt: &R,
    folder: &str,
    excluded: &Excluded,
) -> Result<Listing, AllocError> {
    let search = Search {
        excluded,
        folders: FOLDERS_LIMIT,
        files: FILES_LIMIT,
    };
    search_folder(rt, "", folder, search)
}

fn no_files<R: AllocGlobal>(rt: &R) -> Listing {
    Listing {
        files: Vec::new(rt.alloc()),
        faults: Vec::new(rt.alloc()),
        with_other_names: Vec::new(rt.alloc()),
        passed_over: Vec::new(rt.alloc()),
        is_cut: false,
    }
}

/// The files below the folder, the nearest folders first.
fn search_folder<R: Files + AllocGlobal + Clone + Drop>(
    rt: &R,
    current: &str,
    folder: &str,
    search: Search<'_>,
) -> Result<Listing, AllocError> {
    let mut listing = no_files(rt);
    let mut folders = VecDeque::new(rt.alloc());
    folders.push_back(Found {
        path: String::from_str(rt.alloc(), folder)?,
        absolute: absolute_path(rt.alloc(), current, folder)?,
        is_met: false,
    })?;
    for _ in 0..search.folders {
        let Some(folder) = folders.pop_front() else {
            break;
        };
        if listing.files.len() < search.files {
            list_folder(rt, &folder, search, &mut listing, &mut folders)?;
        } else {
            listing.is_cut = true;
        }
    }
    listing.is_cut = listing.is_cut || !folders.is_empty();
    listing.files.sort()?;
    Ok(listing)
}

/// Adds the folder's own files, and its folders.
fn list_folder<R: Files + AllocGlobal + Clone + Drop>(
    rt: &R,
    folder: &Found,
    search: Search<'_>,
    listing: &mut Listing,
    folders: &mut VecDeque<Found>,
) -> Result<(), AllocError> {
    let path = folder.path.as_str();
    let entries = match fs::read_dir(rt, path) {
        Ok(entries) => entries,
        Err(error) if folder.is_met && error.kind() == ErrorKind::NotFound => return Ok(()),
        Err(error) => return add_fault(rt, path, error, listing),
    };
    for entry in entries {
        match entry {
            Ok(entry) => list_entry(rt, &entry, folder, search, listing, folders)?,
            Err(error) if error.kind() == ErrorKind::InvalidFilename => {
                let path = String::from_str(rt.alloc(), path)?;
                listing.with_other_names.push(path)?;
            }
            Err(error) => add_fault(rt, path, error, listing)?,
        }
    }
    Ok(())
}

fn list_entry<R: Files + AllocGlobal + Clone + Drop>(
    rt: &R,
    entry: &DirEntry<R>,
    folder: &Found,
    search: Search<'_>,
    listing: &mut Listing,
    folders: &mut VecDeque<Found>,
) -> Result<(), AllocError> {
    let path = String::from_str(rt.alloc(), entry.path().as_str())?;
    let name = entry.file_name();
    let absolute = format!(in rt.alloc(); "{}/{name}", folder.absolute)?;
    match entry.file_type() {
        Ok(kind) if !kind.is_dir() && !kind.is_file() => (),
        Ok(_) if search.excluded.has_file(absolute.as_str()) => listing.passed_over.push(absolute)?,
        Ok(kind) if kind.is_file() => {
            if name.ends_with(".ftl") {
                listing.files.push(path)?;
            }
        }
        Ok(_) if !name.starts_with('.') => folders.push_back(Found {
            path,
            absolute,
            is_met: true,
        })?,
        Ok(_) => (),
        Err(error) if is_passed_over(name, error.kind()) => (),
        Err(error) => add_fault(rt, path.as_str(), error, listing)?,
    }
    Ok(())
}

/// Whether an entry that can't be asked for its kind is gone, or nothing that would be read.
fn is_passed_over(name: &str, kind: ErrorKind) -> bool {
    match kind {
        ErrorKind::NotFound => true,
        ErrorKind::OutOfMemory => false,
        _ => !name.ends_with(".ftl"),
    }
}

fn add_fault<R: AllocGlobal>(
    rt: &R,
    path: &str,
    error: io::Error,
    listing: &mut Listing,
) -> Result<(), AllocError> {
    listing
        .faults
        .push((String::from_str(rt.alloc(), path)?, error))?;
    Ok(())
}
