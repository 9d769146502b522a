//! The files of the workspace's folders, as they were read last.
ghost use Rattle.std.specs.Prelude.{◌≡◌};

pub mod closed_files;
pub mod file_sets;
pub mod left_out;
pub mod originals;
pub mod others;
pub mod settings;
pub mod workspace_folder;

use crate::documents::index::Scope;
use crate::documents::open_documents::OpenDocument;
use crate::sessions::notices::Notice;
use crate::workspace::closed_files::ClosedFile;
use crate::workspace::file_sets::FileSet;
use crate::workspace::left_out::{LeftOutFile, LeftOutReason};
use crate::workspace::workspace_folder::WorkspaceFolder;
use fluent_syntax_names::DefinedNames;
use ftl_files::{
    BlankLines, Folders, IgnoreRule, Levels, SourceFile, SourceFiles, path_of_uri, read_files,
};
use serde_json::Value;
use std::alloc::{AllocError, Global};
use std::collections::BTreeMap;

/// The folders that an editor works in, and the files below them.
#[derive(Drop)]
pub struct Workspace {
    folders: Vec<WorkspaceFolder>,
    /// The files, by their paths.
    files: BTreeMap<String, ClosedFile>,
    /// The files that were left out: they were not read, or nest too deeply.
    left_out: Vec<LeftOutFile>,
    /// Whether these, and those that were left out, are all files below the folders.
    is_whole: bool,
    /// The names that those of them define that are not open, by the keys of their sets, as far as they were looked up
    /// since that changed.
    defined: BTreeMap<String, DefinedNames>,
    /// Whether the editor can be asked to watch files.
    can_watch: bool,
}

impl Workspace {
    /// One without folders.
    pub fn new(alloc: Global) -> Self {
        Workspace {
            folders: Vec::new(alloc),
            files: BTreeMap::new(alloc),
            left_out: Vec::new(alloc),
            is_whole: false,
            defined: BTreeMap::new(alloc),
            can_watch: false,
        }
    }

    /// The workspace that an editor names in its `initialize`. No file was read.
    pub fn from_initialize(alloc: Global, message: &Value) -> Result<Self, AllocError> {
        let mut folders = Vec::new(alloc);
        for path in folder_paths(alloc, &folder_uris(alloc, message)?)?.iter() {
            folders.push(WorkspaceFolder::new(alloc, path.as_str())?)?;
        }
        Ok(Workspace {
            folders,
            files: BTreeMap::new(alloc),
            left_out: Vec::new(alloc),
            is_whole: false,
            defined: BTreeMap::new(alloc),
            can_watch: can_watch(message),
        })
    }

    /// Takes the folders that an editor says come and go. No file is read.
    pub fn change_folders(&mut self, alloc: Global, message: &Value) -> Result<(), AllocError> {
        let removed = uris_at(alloc, message, "/params/event/removed")?;
        for path in folder_paths(alloc, &removed)?.iter() {
            self.folders.retain(|folder| folder.path != *path);
        }
        let added = uris_at(alloc, message, "/params/event/added")?;
        for path in folder_paths(alloc, &added)?.iter() {
            if !self.folders.iter().any(|folder| folder.path == *path) {
                self.folders
                    .push(WorkspaceFolder::new(alloc, path.as_str())?)?;
            }
        }
        Ok(())
    }

    /// The files, by their paths.
    pub fn files(&self) -> &BTreeMap<String, ClosedFile>
        ensures { result.now ≡ self.now.files }
    {
        &self.files
    }

    /// Whether the editor is to watch the files.
    pub fn wants_watch(&self) -> bool {
        self.can_watch && !self.folders.is_empty()
    }

    /// Reads the files anew. What is said of one whose text is the same is kept. The notices say which settings are
    /// wrong by now, and which files are left out.
    ///
    /// `AllocError` where a growth was refused.
    pub fn read<F: Folders>(
        &mut self,
        alloc: Global,
        files: &F,
    ) -> Result<Vec<Notice>, AllocError> {
        let mut found = BTreeMap::new(alloc);
        let mut notices = Vec::new(alloc);
        let mut left_out = Vec::new(alloc);
        let mut all = true;
        for folder in self.folders.iter_mut() {
            if let Some(notice) = folder.reload_project_settings(alloc, files)? {
                add_notice(&mut notices, notice)?;
            }
            let SourceFiles {
                files: sources,
                left_out: unread,
                passed_over,
                is_whole,
            } = read_files(alloc, files, folder.path.as_str(), &folder.excluded)?;
            all = all && is_whole;
            if is_whole {
                if let Some(notice) = folder.new_idle_exclusions(alloc, &passed_over)? {
                    add_notice(&mut notices, notice)?;
                }
            }
            for path in unread {
                left_out.push(LeftOutFile::unread(alloc, files, path)?)?;
            }
            for file in sources {
                let SourceFile { path, text } = file;
                let before = self.files.remove(path.as_str());
                match ClosedFile::read(alloc, before, path.as_str(), text)? {
                    Some(closed) => drop(found.insert(path, closed)?),
                    None => left_out.push(LeftOutFile {
                        path,
                        reason: LeftOutReason::TooDeep,
                    })?,
                }
            }
        }
        self.add_left_out(alloc, &left_out, &mut notices)?;
        self.left_out = left_out;
        self.files = found;
        self.is_whole = all;
        self.defined = BTreeMap::new(alloc);
        Ok(notices)
    }

    /// Adds a notice of each file that is left out and was not before.
    fn add_left_out(
        &self,
        alloc: Global,
        left_out: &[LeftOutFile],
        notices: &mut Vec<Notice>,
    ) -> Result<(), AllocError> {
        for file in left_out {
            let path = file.path.as_str();
            if self.left_out_reason(path).is_none() {
                let shown = String::from_str(alloc, self.display_path(path))?;
                add_notice(notices, Notice::LeftOut(shown, file.reason))?;
            }
        }
        Ok(())
    }

    /// Why the file at the path was left out, if it was.
    pub fn left_out_reason(&self, path: &str) -> Option<LeftOutReason> {
        for file in &self.left_out {
            if file.path.as_str() == path {
                return Some(file.reason);
            }
        }
        None
    }

    /// A notice of each file of the scope that is left out, and so of a renaming there. `AllocError` where a growth was
    /// refused.
    pub fn unrenamed_notices(
        &self,
        alloc: Global,
        scope: Scope<'_>,
    ) -> Result<Vec<Notice>, AllocError> {
        let mut notices = Vec::new(alloc);
        for file in &self.left_out {
            let path = file.path.as_str();
            if scope.has(self, path) {
                let shown = String::from_str(alloc, self.display_path(path))?;
                add_notice(&mut notices, Notice::NotRenamed(shown))?;
            }
        }
        Ok(notices)
    }

    /// Whether all files are known that may define what a file at the path refers to: it is below one of the
    /// folders, and no file of its set was left out.
    pub fn is_complete_for(&self, path: &str) -> bool {
        let set = self.set_of(path);
        let mut left_out = self.left_out.iter();
        self.is_whole
            && self.covers(path)
            && !left_out.any(|file| self.set_by_language(file.path.as_str()) == set)
    }

    /// Whether files are looked for where the path is, below one of the folders.
    pub fn covers(&self, path: &str) -> bool {
        self.folders.iter().any(|folder| folder.covers(path))
    }

    /// Whether the path is below one of the folders, and is passed over there.
    fn is_passed_over(&self, path: &str) -> bool {
        self.folders.iter().any(|folder| folder.has(path)) && !self.covers(path)
    }

    /// The set that a file at the path is of.
    pub fn set_of<'p>(&self, path: &'p str) -> FileSet<'p> {
        if self.is_passed_over(path) {
            FileSet::Alone(path)
        } else {
            self.set_by_language(path)
        }
    }

    /// The same of a file that is not passed over.
    fn set_by_language<'p>(&self, path: &'p str) -> FileSet<'p> {
        for folder in &self.folders {
            if let Some(language) = folder.language_of(path) {
                return FileSet::Language(language);
            }
        }
        FileSet::OfNoLanguage
    }

    /// The folder of all languages, where the set is that of the reference language there.
    pub fn languages_of_reference<'p>(&self, set: FileSet<'p>) -> Option<&'p str> {
        let mut folders = self.folders.iter();
        if folders.any(|folder| folder.is_reference(set.key())) {
            set.languages()
        } else {
            None
        }
    }

    /// The files of the set that are not among the open documents. `AllocError` where a growth was refused.
    pub fn closed_files_of(
        &self,
        alloc: Global,
        set: FileSet<'_>,
        documents: &BTreeMap<String, OpenDocument>,
    ) -> Result<Vec<&ClosedFile>, AllocError> {
        let mut files = Vec::new(alloc);
        for (path, file) in self.files.iter() {
            let path = path.as_str();
            if self.set_by_language(path) == set && !is_open(documents, path) {
                files.push(file)?;
            }
        }
        Ok(files)
    }

    /// What is not reported of a file at the path: what a folder leaves out below which it is. `AllocError` where a
    /// growth was refused.
    pub fn ignored_at(&self, alloc: Global, path: &str) -> Result<Vec<IgnoreRule>, AllocError> {
        let mut ignored = Vec::new(alloc);
        for folder in &self.folders {
            if folder.has(path) {
                folder.add_ignored(path, &mut ignored)?;
            }
        }
        Ok(ignored)
    }

    /// How grave what is reported of a file at the path is: as the first folder says below which it is.
    pub fn levels_at(&self, path: Option<&str>) -> Levels<'_> {
        if let Some(path) = path {
            for folder in &self.folders {
                if folder.has(path) {
                    return folder.levels();
                }
            }
        }
        Levels {
            warned: &[],
            denied: &[],
        }
    }

    /// What becomes of blank lines in a file at the path: what the first folder says below which it is.
    pub fn blank_lines_at(&self, path: Option<&str>) -> BlankLines {
        let Some(path) = path else {
            return BlankLines::Normal;
        };
        for folder in &self.folders {
            if folder.has(path) {
                return folder.blank_lines;
            }
        }
        BlankLines::Normal
    }

    /// The path of the file of the reference language that the one at the path is to be a translation of. None where
    /// it is to be none of any, or is passed over. `AllocError` where a growth was refused.
    pub fn original_of(&self, alloc: Global, path: &str) -> Result<Option<String>, AllocError> {
        if self.is_passed_over(path) {
            return Ok(None);
        }
        for folder in &self.folders {
            if let Some(reference) = &folder.reference {
                let original = reference.original_of(alloc, path)?;
                if original.is_some() {
                    return Ok(original);
                }
            }
        }
        Ok(None)
    }

    /// The path as it is shown: without the folder below which it is.
    pub fn display_path<'p>(&self, path: &'p str) -> &'p str {
        for folder in &self.folders {
            if folder.has(path) {
                if let Some(below) = path.strip_prefix(folder.path.as_str()) {
                    return below.trim_start_matches('/');
                }
            }
        }
        path
    }

    /// The names that the closed files of the set define. None where they were not looked up.
    pub fn defined_names(&self, set: FileSet<'_>) -> Option<&DefinedNames> {
        self.defined.get(set.key())
    }

    /// Forgets the names that the closed files define, since others are closed now.
    pub fn forget_defined_names(&mut self, alloc: Global) {
        self.defined = BTreeMap::new(alloc);
    }

    /// Looks up the names that the closed files of the set define, if that was not done.
    ///
    /// `AllocError` where a growth was refused.
    pub fn look_up_defined_names(
        &mut self,
        alloc: Global,
        set: FileSet<'_>,
        documents: &BTreeMap<String, OpenDocument>,
    ) -> Result<(), AllocError> {
        if self.defined.contains_key(set.key()) {
            return Ok(());
        }
        let mut names = DefinedNames::new(alloc);
        for file in self.closed_files_of(alloc, set, documents)? {
            names.add(alloc, file.text.as_str(), &file.mentions)?;
        }
        drop(
            self.defined
                .insert(String::from_str(alloc, set.key())?, names)?,
        );
        Ok(())
    }
}

/// Adds what is wrong with settings, if it isn't there: several folders may have the same.
fn add_notice(notices: &mut Vec<Notice>, notice: Notice) -> Result<(), AllocError> {
    if !notices.iter().any(|other| *other == notice) {
        notices.push(notice)?;
    }
    Ok(())
}

/// Whether one of the documents is that of the path.
fn is_open(documents: &BTreeMap<String, OpenDocument>, path: &str) -> bool {
    documents
        .values()
        .any(|open| open.path.as_deref() == Some(path))
}

/// The URIs of the folders that an editor names, or of its one folder.
fn folder_uris(alloc: Global, message: &Value) -> Result<Vec<&str>, AllocError> {
    let folders = "/params/workspaceFolders";
    if message.pointer(folders).and_then(Value::as_array).is_some() {
        return uris_at(alloc, message, folders);
    }
    let mut uris = Vec::new(alloc);
    if let Some(uri) = message.pointer("/params/rootUri").and_then(Value::as_str) {
        uris.push(uri)?;
    }
    Ok(uris)
}

/// The URIs of the folders in the list at the place.
fn uris_at<'m>(alloc: Global, message: &'m Value, place: &str) -> Result<Vec<&'m str>, AllocError> {
    let mut uris = Vec::new(alloc);
    if let Some(folders) = message.pointer(place).and_then(Value::as_array) {
        for folder in folders {
            if let Some(uri) = folder.get("uri").and_then(Value::as_str) {
                uris.push(uri)?;
            }
        }
    }
    Ok(uris)
}

/// The paths of the folders with these URIs, without a `/` at their ends. One that is no file's has none.
fn folder_paths(alloc: Global, uris: &[&str]) -> Result<Vec<String>, AllocError> {
    let mut paths = Vec::new(alloc);
    for uri in uris {
        if let Some(path) = path_of_uri(alloc, *uri)? {
            let path = path.as_str().trim_end_matches('/');
            paths.push(String::from_str(alloc, path)?)?;
        }
    }
    Ok(paths)
}

/// Whether an editor that says this of itself can be asked to watch files.
fn can_watch(message: &Value) -> bool {
    message
        .pointer("/params/capabilities/workspace/didChangeWatchedFiles/dynamicRegistration")
        .and_then(Value::as_bool)
        .unwrap_or(false)
}
