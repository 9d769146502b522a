//! Which files are searched as one set: those of one language.

use crate::ignored::IgnoredRules;
use crate::listed::listing_at;
use crate::project::{Project, path_between};
use fluent_syntax_names::{LANGUAGE_GROUPS, plural_categories_of};
use ftl::RunFault;
use ftl_files::{SeenPaths, absolute_path, folder_of_languages, language_of};
use ftl_project::{Form, LintFile, Tally};
use std::alloc::{AllocError, Global};

/// Files that are searched as one set.
#[derive(Drop)]
pub(crate) struct FileSet<'r> {
    /// The folder of their language, from the root on; empty for files of none.
    language: String,
    /// The same from the current folder on.
    pub(crate) folder: String,
    pub(crate) files: Vec<LintFile<'r>>,
}

impl FileSet<'_> {
    /// The plural categories of the language, by the name of its folder; `None` where they are not known.
    pub(crate) fn categories(&self) -> Option<&'static [&'static str]> {
        let (_, name) = self.language.as_str().rsplit_once('/')?;
        plural_categories_of(LANGUAGE_GROUPS.as_slice(), name)
    }

    /// Adds the files of the language that are not asked for: what they define counts too.
    pub(crate) fn complete(
        &mut self,
        rt: &HostRuntime,
        project: &Project,
        form: Form,
        tally: &mut Tally,
    ) -> Result<(), RunFault> {
        if self.language.is_empty() {
            return Ok(());
        }
        let listed = listing_at(rt, project, self.folder.as_str(), form, tally)?.files;
        match self.add_others(rt.alloc(), project, listed) {
            Ok(()) => Ok(()),
            Err(AllocError) => Err(RunFault::Memory),
        }
    }

    fn add_others(
        &mut self,
        alloc: Global,
        project: &Project,
        listed: Vec<String>,
    ) -> Result<(), AllocError> {
        let current = project.current.as_str();
        let mut seen = SeenPaths::new(alloc);
        for file in &self.files {
            seen.add(alloc, current, file.path.as_str())?;
        }
        for path in listed {
            if seen.add(alloc, current, path.as_str())? {
                self.files.push(LintFile {
                    path,
                    is_asked: false,
                    ignored: &[],
                })?;
            }
        }
        Ok(())
    }
}

/// The path of the folder of a language, which begins at the root, from the current one on; empty for none.
fn folder_from(alloc: Global, current: &str, language: &str) -> Result<String, AllocError> {
    if language.is_empty() {
        return Ok(String::new(alloc));
    }
    let way = path_between(alloc, current, language)?;
    match way.as_str().trim_end_matches('/') {
        "" => String::from_str(alloc, "."),
        way => String::from_str(alloc, way),
    }
}

/// Adds each file, which is asked for, to the set of its language, which is the folder that it is in directly below the
/// folder of languages. All files that are in none are a set of their own, and so are all without such a folder.
pub(crate) fn add_files<'r>(
    alloc: Global,
    sets: &mut Vec<FileSet<'r>>,
    project: &Project,
    ignored: &'r IgnoredRules,
    languages: Option<&str>,
    files: Vec<String>,
) -> Result<(), AllocError> {
    for file in files {
        let path = absolute_path(alloc, project.current.as_str(), file.as_str())?;
        let language = match languages {
            Some(folder) => language_or_empty(folder, path.as_str()),
            None => "",
        };
        let file = LintFile {
            ignored: ignored.at(alloc, file.as_str())?,
            path: file,
            is_asked: true,
        };
        add_file(alloc, sets, project, language, file)?;
    }
    Ok(())
}

/// The folder of the language that the file at the path is of; empty where it is of none.
fn language_or_empty<'p>(languages: &str, path: &'p str) -> &'p str {
    language_of(languages, path).unwrap_or("")
}

fn add_file<'r>(
    alloc: Global,
    sets: &mut Vec<FileSet<'r>>,
    project: &Project,
    language: &str,
    file: LintFile<'r>,
) -> Result<(), AllocError> {
    for set in sets.iter_mut() {
        if set.language.as_str() == language {
            set.files.push(file)?;
            return Ok(());
        }
    }
    sets.push(FileSet {
        language: String::from_str(alloc, language)?,
        folder: folder_from(alloc, project.current.as_str(), language)?,
        files: vec![in alloc; file]?,
    })?;
    Ok(())
}

/// The folder of the project's languages: that in which the folder of its reference is. `None` where it names none, or
/// a file.
pub(crate) fn languages_of(alloc: Global, project: &Project) -> Result<Option<String>, AllocError> {
    match &project.settings.reference {
        Some(reference) => {
            folder_of_languages(alloc, project.current.as_str(), reference.as_str())
        }
        None => Ok(None),
    }
}
