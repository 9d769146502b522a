//! Which paths are below a folder, and which are the same.
ghost use Rattle.std.specs.Prelude.{◌≡◌, ◌≢◌, ◌++◌, ℕ, List, MatchOption, codes};
ghost use Rattle.ftl_files.specs.Paths.{is_below, is_name};

use std::alloc::{AllocError, Global};
use std::collections::BTreeSet;

/// Whether the path begins with the folder, a `/` and something more.
pub fn is_below(folder: &str, path: &str) -> bool
    ensures { result ≡ is_below folder.now path.now }
{
    let (folder, path) = (folder.as_bytes(), path.as_bytes());
    path.starts_with(folder) && is_name(&path[folder.len()..])
}

/// Whether these are a `/` and something more.
fn is_name(after_slash: &[u8]) -> bool
    ensures { result ≡ is_name after_slash.now }
{
    match after_slash {
        [first, _, ..] => *first == b'/',
        _ => false,
    }
}

/// The path relative to the folder, if it leads through it.
pub(crate) fn relative_path<'p>(folder: &str, path: &'p str) -> Option<&'p str>
    ensures { MatchOption result ((relative : List ℕ) → path.now ≢ folder.now ++ codes "/" ++ relative)
        (λ relative. path.now ≡ folder.now ++ codes "/" ++ relative.now) }
{
    path.strip_prefix(folder)?.strip_prefix('/')
}

/// The path from the root on, without empty parts and dots: in the folder `/app/de`, `..//en/./a.ftl` is
/// `/app/en/a.ftl`. The root itself is the empty text. Links are not followed.
///
/// `AllocError`: a growth was refused.
pub fn absolute_path(alloc: Global, current: &str, path: &str) -> Result<String, AllocError> {
    let mut absolute = String::new(alloc);
    if !path.starts_with('/') {
        push_parts(&mut absolute, current)?;
    }
    push_parts(&mut absolute, path)?;
    Ok(absolute)
}

fn push_parts(absolute: &mut String, path: &str) -> Result<(), AllocError> {
    for part in path.split('/') {
        match part {
            "" | "." => (),
            ".." => {
                if let Some(last) = absolute.as_str().rfind('/') {
                    absolute.truncate(last);
                }
            }
            part => {
                absolute.push('/')?;
                absolute.push_str(part)?;
            }
        }
    }
    Ok(())
}

/// Paths that were met, by whatever spelling.
#[derive(Debug, Drop)]
pub struct SeenPaths {
    paths: BTreeSet<String>,
}

impl SeenPaths {
    /// None.
    pub fn new(alloc: Global) -> Self {
        SeenPaths {
            paths: BTreeSet::new(alloc),
        }
    }

    /// Notes the path, in that folder; whether it was not met before.
    ///
    /// `AllocError`: a growth was refused.
    pub fn add(&mut self, alloc: Global, current: &str, path: &str) -> Result<bool, AllocError> {
        let absolute = absolute_path(alloc, current, path)?;
        if self.paths.contains(absolute.as_str()) {
            return Ok(false);
        }
        drop(self.paths.insert(absolute)?);
        Ok(true)
    }
}
