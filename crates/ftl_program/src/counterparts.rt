//! What a file or a folder is compared with, in a project that names a reference.

use crate::file_sets::languages_of;
use crate::project::{Project, path_between};
use ftl::RunFault;
use ftl_files::{absolute_path, is_below, original_of};
use std::alloc::{AllocError, Global};
use std::fs;
use std::io::ErrorKind;

/// A file or a folder, and what it is compared with, as both are shown.
#[derive(Drop)]
pub(crate) struct Counterparts {
    pub(crate) reference: String,
    pub(crate) other: String,
    /// Whether the words name the other one. A folder that they don't name is a language only if it has a file.
    pub(crate) is_named: bool,
    /// Whether the reference has it; a language may have more.
    pub(crate) has_reference: bool,
}

impl Counterparts {
    /// Two that the words name.
    fn between(alloc: Global, reference: &str, other: &str) -> Result<Self, AllocError> {
        Ok(Counterparts {
            reference: String::from_str(alloc, reference)?,
            other: String::from_str(alloc, other)?,
            is_named: true,
            has_reference: true,
        })
    }
}

/// What is compared with what, by the paths and the project's reference, if it names one; else the first of the paths
/// is the reference. Empty where there is nothing to compare.
pub(crate) fn counterparts_of(
    rt: &HostRuntime,
    project: &Project,
    paths: &[&str],
) -> Result<Vec<Counterparts>, RunFault> {
    let found = match &project.settings.reference {
        Some(reference) => counterparts_in(rt, project, reference.as_str(), paths),
        None => counterparts_of_first(rt.alloc(), paths),
    };
    match found {
        Ok(counterparts) => Ok(counterparts),
        Err(AllocError) => Err(RunFault::Memory),
    }
}

/// Each of the paths with the first one.
fn counterparts_of_first(alloc: Global, paths: &[&str]) -> Result<Vec<Counterparts>, AllocError> {
    let mut found = Vec::new(alloc);
    if let Some((reference, others)) = paths.split_first() {
        for other in others {
            found.push(Counterparts::between(alloc, *reference, *other)?)?;
        }
    }
    Ok(found)
}

/// Each of the paths with the reference of the project, or with what that has in its place; without paths, every
/// language. Two files that are of no language are compared with each other.
fn counterparts_in(
    rt: &HostRuntime,
    project: &Project,
    reference: &str,
    paths: &[&str],
) -> Result<Vec<Counterparts>, AllocError> {
    let alloc = rt.alloc();
    let languages = languages_of(alloc, project)?;
    let mut found = Vec::new(alloc);
    let Some(languages) = &languages else {
        for path in paths {
            found.push(Counterparts::between(alloc, reference, *path)?)?;
        }
        return Ok(found);
    };
    let finder = Finder {
        rt,
        project,
        languages: languages.as_str(),
        reference: reference.trim_end_matches('/'),
    };
    match paths {
        [] => finder.add_languages(&mut found)?,
        [one, other] if finder.is_file_elsewhere(*one)? && finder.is_file_elsewhere(*other)? => {
            found.push(Counterparts::between(alloc, *one, *other)?)?;
        }
        paths => {
            for path in paths {
                finder.add_path(&mut found, *path)?;
            }
        }
    }
    Ok(found)
}

/// Finds what is compared with what: the folder of the languages, from the root on, and the folder of the reference.
#[derive(Clone, Copy)]
struct Finder<'p> {
    rt: &'p HostRuntime,
    project: &'p Project,
    languages: &'p str,
    reference: &'p str,
}

impl Finder<'_> {
    /// Adds what the path is compared with: of a language, or of a file or a folder of one, that of the reference; of a
    /// folder that the languages are in, every language.
    fn add_path(&self, found: &mut Vec<Counterparts>, path: &str) -> Result<(), AllocError> {
        let alloc = self.rt.alloc();
        let place = absolute_path(alloc, self.project.current.as_str(), path)?;
        let place = place.as_str();
        if place == self.languages || is_below(place, self.languages) {
            return self.add_languages(found);
        }
        let own = self.own_name();
        let folder = format!(in alloc; "{}/{own}", self.languages)?;
        if is_below(folder.as_str(), place) {
            found.push(Counterparts::between(alloc, path, path)?)?;
            return Ok(());
        }
        let original = original_of(alloc, self.languages, own, place)?;
        match original
            .as_deref()
            .and_then(|original| original.strip_prefix(folder.as_str()))
        {
            // it is next to the languages
            Some("") if self.is_of_no_language(path) => (),
            Some(rest) => {
                let reference = format!(in alloc; "{}{rest}", self.reference)?;
                found.push(Counterparts {
                    has_reference: rest.is_empty() || self.is_there(reference.as_str()),
                    ..Counterparts::between(alloc, reference.as_str(), path)?
                })?;
            }
            None => found.push(Counterparts::between(alloc, self.reference, path)?)?,
        }
        Ok(())
    }

    /// The name of the reference's folder.
    fn own_name(&self) -> &str {
        match self.reference.rsplit_once('/') {
            Some((_, name)) => name,
            None => self.reference,
        }
    }

    /// Whether the path is that of a file that is no `.ftl` file.
    fn is_of_no_language(&self, path: &str) -> bool {
        !path.ends_with(".ftl") && self.is_file(path)
    }

    fn is_there(&self, path: &str) -> bool {
        match fs::metadata(self.rt, path) {
            Ok(_) => true,
            Err(error) => error.kind() != ErrorKind::NotFound,
        }
    }

    fn is_file(&self, path: &str) -> bool {
        match fs::metadata(self.rt, path) {
            Ok(metadata) => metadata.is_file(),
            Err(_) => false,
        }
    }

    /// Whether the path is that of a file outside of the folder of the languages.
    fn is_file_elsewhere(&self, path: &str) -> Result<bool, AllocError> {
        let place = absolute_path(self.rt.alloc(), self.project.current.as_str(), path)?;
        Ok(!is_below(self.languages, place.as_str()) && self.is_file(path))
    }

    /// Adds each folder next to that of the reference, which may be a language, in the order of their names, with the
    /// reference.
    fn add_languages(&self, found: &mut Vec<Counterparts>) -> Result<(), AllocError> {
        let alloc = self.rt.alloc();
        let way = path_between(alloc, self.project.current.as_str(), self.languages)?;
        for name in self.language_names()? {
            let path = format!(in alloc; "{way}{name}")?;
            found.push(Counterparts {
                is_named: false,
                ..Counterparts::between(alloc, self.reference, path.as_str())?
            })?;
        }
        Ok(())
    }

    /// The names of the folders next to that of the reference, without what is passed over, in order.
    fn language_names(&self) -> Result<Vec<String>, AllocError> {
        let alloc = self.rt.alloc();
        let mut names = Vec::new(alloc);
        let Ok(entries) = fs::read_dir(self.rt, self.languages) else {
            return Ok(names);
        };
        for entry in entries {
            let Ok(entry) = entry else {
                continue;
            };
            let name = entry.file_name();
            let place = format!(in alloc; "{}/{name}", self.languages)?;
            let is_folder = matches!(entry.file_type(), Ok(kind) if kind.is_dir());
            if is_folder && name != self.own_name() && !self.project.excluded.has_folder(&place) {
                names.push(String::from_str(alloc, name)?)?;
            }
        }
        names.sort()?;
        Ok(names)
    }
}
