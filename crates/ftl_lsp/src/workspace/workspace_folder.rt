//! A folder of the workspace, and what its project says.

use crate::sessions::notices::Notice;
use crate::workspace::originals::Reference;
use crate::workspace::settings::{ProjectSettings, nearest_settings};
use ftl_files::{
    BlankLines, Excluded, FolderRules, Folders, IgnoreRule, Levels, ReportedKind, Settings,
    absolute_path, folder_of_languages, is_below, language_of,
};
use std::alloc::{AllocError, Global};

/// Why settings can't be gone by that name a reference.
const NO_REFERENCE: &str = "`reference` names what is not there";

/// A folder that an editor works in.
#[derive(Drop)]
pub struct WorkspaceFolder {
    /// Its path, which doesn't end in a `/`.
    pub path: String,
    /// What is not reported of its files.
    ignored: Vec<IgnoreRule>,
    /// What is not reported below these folders either, whose paths begin at the root.
    folders: Vec<FolderRules>,
    /// The kinds that are warnings there.
    warned: Vec<ReportedKind>,
    /// The kinds that are errors there.
    denied: Vec<ReportedKind>,
    /// What is passed over below it.
    pub excluded: Excluded,
    /// The same, as its own settings name it; none where those are of a folder above.
    exclusions: Vec<String>,
    /// What becomes of blank lines where its files are formatted.
    pub blank_lines: BlankLines,
    /// Where the reference language has its files, if that is said.
    pub reference: Option<Reference>,
    /// The folder in which each language has its own, if the reference is a folder.
    languages: Option<String>,
    /// Why the settings can't be gone by, if they can't.
    fault: Option<Notice>,
    /// That some exclusions match nothing, if they do.
    idle: Option<Notice>,
}

impl WorkspaceFolder {
    /// One whose settings were not read. `AllocError` where a growth was refused.
    pub fn new(alloc: Global, path: &str) -> Result<WorkspaceFolder, AllocError> {
        Ok(WorkspaceFolder {
            path: String::from_str(alloc, path)?,
            ignored: Vec::new(alloc),
            folders: Vec::new(alloc),
            warned: Vec::new(alloc),
            denied: Vec::new(alloc),
            excluded: Excluded::new(alloc),
            exclusions: Vec::new(alloc),
            blank_lines: BlankLines::Normal,
            reference: None,
            languages: None,
            fault: None,
            idle: None,
        })
    }

    /// How grave what is reported of its files is.
    pub fn levels(&self) -> Levels<'_> {
        Levels {
            warned: &self.warned,
            denied: &self.denied,
        }
    }

    /// Adds what is not reported of a file at the path, which is below it. `AllocError` where a growth was refused.
    pub fn add_ignored(&self, path: &str, ignored: &mut Vec<IgnoreRule>) -> Result<(), AllocError> {
        push_rules(ignored, &self.ignored)?;
        for rules in &self.folders {
            if is_below(rules.folder.as_str(), path) {
                push_rules(ignored, &rules.ignored)?;
            }
        }
        Ok(())
    }

    /// Whether the path is below it.
    pub fn has(&self, path: &str) -> bool {
        is_below(self.path.as_str(), path)
    }

    /// Whether files are looked for where the path is.
    pub fn covers(&self, path: &str) -> bool {
        self.has(path) && !self.excluded.hides(self.path.as_str(), path)
    }

    /// The folder of the language that the file at the path is of. None where it is of none.
    pub fn language_of<'p>(&self, path: &'p str) -> Option<&'p str> {
        match &self.languages {
            Some(languages) => language_of(languages.as_str(), path),
            None => None,
        }
    }

    /// Whether the folder is that of the reference language.
    pub fn is_reference(&self, folder: &str) -> bool {
        self.reference
            .as_ref()
            .is_some_and(|reference| reference.is_folder(folder))
    }

    /// Reads the settings anew. The notice says why they can't be gone by, where there was no such notice before.
    ///
    /// `AllocError` where a growth was refused.
    pub fn reload_project_settings<F: Folders>(
        &mut self,
        alloc: Global,
        files: &F,
    ) -> Result<Option<Notice>, AllocError> {
        let (settings, fault) = match nearest_settings(alloc, files, self.path.as_str())? {
            Ok(settings) => (settings, None),
            Err(fault) => (None, Some(fault)),
        };
        self.take_settings(alloc, settings)?;
        let fault = match fault {
            None => self.absent_name(alloc, files)?,
            fault => fault,
        };
        let new_fault = match &fault {
            Some(notice) if self.fault != fault => Some(notice.clone()?),
            _ => None,
        };
        self.fault = fault;
        Ok(new_fault)
    }

    /// That the settings name a reference that is not there, if they do.
    fn absent_name<F: Folders>(
        &self,
        alloc: Global,
        files: &F,
    ) -> Result<Option<Notice>, AllocError> {
        match &self.reference {
            Some(reference) if !files.has(reference.path(alloc)?.as_str()) => {
                Ok(Some(Notice::of_settings(alloc, self.path.as_str(), NO_REFERENCE)?))
            }
            _ => Ok(None),
        }
    }

    /// The notice of exclusions that match nothing, where `passed_over` is all that they match and there was no such
    /// notice before. `AllocError` where a growth was refused.
    pub fn new_idle_exclusions(
        &mut self,
        alloc: Global,
        passed_over: &[String],
    ) -> Result<Option<Notice>, AllocError> {
        let idle = self.idle_exclusions(alloc, passed_over)?;
        let new = match &idle {
            Some(notice) if self.idle != idle => Some(notice.clone()?),
            _ => None,
        };
        self.idle = idle;
        Ok(new)
    }

    /// That some exclusions match nothing, if they do.
    fn idle_exclusions(
        &self,
        alloc: Global,
        passed_over: &[String],
    ) -> Result<Option<Notice>, AllocError> {
        let folder = self.path.as_str();
        let mut fault = String::from_str(alloc, "`exclude` matches nothing with")?;
        let mut is_idle = false;
        for name in &self.exclusions {
            let mut exclusion = Excluded::new(alloc);
            exclusion.add(alloc, folder, name.as_str())?;
            let mut paths = passed_over.iter();
            if !paths.any(|path| exclusion.hides(folder, path.as_str())) {
                let separator = if is_idle { "," } else { "" };
                let idle = format!(in alloc; "{separator} `{name}`")?;
                fault.push_str(idle.as_str())?;
                is_idle = true;
            }
        }
        if !is_idle {
            return Ok(None);
        }
        Ok(Some(Notice::of_settings(alloc, folder, fault.as_str())?))
    }

    /// Notes what the settings say.
    fn take_settings(
        &mut self,
        alloc: Global,
        project: Option<ProjectSettings>,
    ) -> Result<(), AllocError> {
        self.reference = None;
        self.languages = None;
        self.ignored = Vec::new(alloc);
        self.folders = Vec::new(alloc);
        self.warned = Vec::new(alloc);
        self.denied = Vec::new(alloc);
        self.excluded = Excluded::new(alloc);
        self.exclusions = Vec::new(alloc);
        self.blank_lines = BlankLines::Normal;
        let Some(ProjectSettings { folder, settings }) = project else {
            return Ok(());
        };
        let Settings {
            reference,
            ignored,
            folders,
            warned,
            denied,
            excluded,
            blank_lines,
            ..
        } = settings;
        let folder = folder.as_str();
        self.excluded = excluded_in(alloc, folder, &excluded)?;
        if folder == self.path.as_str() {
            self.exclusions = excluded;
        }
        self.blank_lines = blank_lines.unwrap_or(BlankLines::Normal);
        if let Some(name) = reference {
            let path = absolute_path(alloc, folder, name.as_str())?;
            let path = path.as_str();
            self.languages = folder_of_languages(alloc, "", path)?;
            self.reference = Reference::in_folder(alloc, "", path.trim_start_matches('/'))?;
        }
        self.folders = folders_in(alloc, folder, folders)?;
        self.ignored = ignored;
        self.warned = warned;
        self.denied = denied;
        Ok(())
    }
}

/// The same rules, of the folders at paths that begin at the root and not at the folder.
fn folders_in(
    alloc: Global,
    folder: &str,
    mut folders: Vec<FolderRules>,
) -> Result<Vec<FolderRules>, AllocError> {
    for rules in folders.iter_mut() {
        rules.folder = absolute_path(alloc, folder, rules.folder.as_str())?;
    }
    Ok(folders)
}

fn push_rules(ignored: &mut Vec<IgnoreRule>, rules: &[IgnoreRule]) -> Result<(), AllocError> {
    for rule in rules {
        ignored.push(rule.clone()?)?;
    }
    Ok(())
}

/// What the settings in the folder say is passed over.
fn excluded_in(alloc: Global, folder: &str, texts: &[String]) -> Result<Excluded, AllocError> {
    let mut excluded = Excluded::new(alloc);
    for text in texts {
        excluded.add(alloc, folder, text.as_str())?;
    }
    Ok(excluded)
}
