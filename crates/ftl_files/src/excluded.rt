//! What is passed over where a folder is listed.

use crate::paths::absolute_path;
use crate::patterns::name_matches;
use std::alloc::{AllocError, Global};

/// What is passed over where a folder is listed: folders whose names begin with a `.`, and what it names. In a name a
/// `*` means any characters but `/`.
#[derive(Debug, Drop)]
pub struct Excluded {
    /// Names of files and folders, wherever they are.
    names: Vec<String>,
    /// Paths of files and folders, from the root on.
    paths: Vec<String>,
}

impl Excluded {
    /// What names nothing.
    pub fn new(alloc: Global) -> Self {
        Excluded {
            names: Vec::new(alloc),
            paths: Vec::new(alloc),
        }
    }

    /// Adds a name of files and folders; or, if there is a `/` in it, the path of one from the folder on.
    ///
    /// `AllocError`: a growth was refused.
    pub fn add(&mut self, alloc: Global, folder: &str, exclusion: &str) -> Result<(), AllocError> {
        if exclusion.contains('/') {
            self.paths.push(absolute_path(alloc, folder, exclusion)?)?;
        } else {
            self.names.push(String::from_str(alloc, exclusion)?)?;
        }
        Ok(())
    }

    /// Whether the folder of that path, which begins at the root, is passed over.
    pub fn has_folder(&self, path: &str) -> bool {
        name_of(path).starts_with('.') || self.has_file(path)
    }

    /// Whether the file of that path, which begins at the root, is passed over.
    pub fn has_file(&self, path: &str) -> bool {
        let name = name_of(path);
        self.names
            .iter()
            .any(|pattern| name_matches(pattern.as_str(), name))
            || self
                .paths
                .iter()
                .any(|pattern| path_matches(pattern.as_str(), path))
    }

    /// Whether the file, or a folder between, is passed over where the folder is listed. Both paths begin at the root.
    pub fn hides(&self, folder: &str, path: &str) -> bool {
        for (end, _) in path.match_indices('/') {
            if end > folder.len() && self.has_folder(path.get(..end).unwrap_or("")) {
                return true;
            }
        }
        self.has_file(path)
    }
}

/// Whether the path has the parts that the pattern has, one by one.
fn path_matches(pattern: &str, path: &str) -> bool {
    if !pattern.contains('*') {
        return pattern == path;
    }
    let (patterns, parts) = (pattern.split('/'), path.split('/'));
    pattern.split('/').count() == path.split('/').count()
        && patterns
            .zip(parts)
            .all(|(pattern, part)| name_matches(pattern, part))
}

/// The last part of the path.
fn name_of(path: &str) -> &str {
    match path.rsplit_once('/') {
        Some((_, name)) => name,
        None => path,
    }
}
