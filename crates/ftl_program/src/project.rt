//! What the project says, in whose folder the program runs, or in one below.

use crate::messages::refuse_run;
use ftl::RunFault;
use ftl_files::{
    Disk, Excluded, Levels, Settings, SettingsFault, Store, absolute_path, settings_of,
};
use ftl_project::{Fault, InvalidText, note_line};
use std::alloc::{AllocError, Global};
use std::fmt::Display;
use std::io::ErrorKind;
use std::{env, fs};

const NAME: &str = "ftl.toml";

/// The exit status for settings that can't be gone by.
const WRONG_SETTINGS: u8 = 2;

/// What the project says, and where the program runs.
#[derive(Drop)]
pub(crate) struct Project {
    /// The settings; a reference is a path from the current folder on, the folders with rules are from the root on.
    pub(crate) settings: Settings,
    /// What is passed over in folders.
    pub(crate) excluded: Excluded,
    /// The current folder, from the root on.
    pub(crate) current: String,
}

impl Project {
    /// How grave what is reported is.
    pub(crate) fn levels(&self) -> Levels<'_> {
        Levels {
            warned: &self.settings.warned,
            denied: &self.settings.denied,
        }
    }
}

/// A project, and the paths that are nearest to it.
#[derive(Drop)]
pub(crate) struct ProjectPaths<'a> {
    pub(crate) project: Project,
    /// The paths that it speaks for, in their order.
    pub(crate) paths: Vec<&'a str>,
    /// The folder of its settings, from the root on; none where there are no settings.
    root: Option<String>,
}

/// The paths by project: that of each is what the file `ftl.toml` says of the folder itself, or of the nearest folder
/// above the path that has one; `-` is in the current folder. `excluded` is what the words exclude. Where a file can't
/// be gone by, that is reported, and the exit status is given.
pub(crate) fn projects_of<'a>(
    rt: &HostRuntime,
    excluded: &[&str],
    paths: &[&'a str],
) -> Result<Vec<ProjectPaths<'a>>, u8> {
    match paths_by_project(rt, excluded, paths) {
        Ok(projects) => Ok(projects),
        Err(Refusal::Reported(status)) => Err(status),
        Err(Refusal::Memory) => Err(refuse_run(rt, RunFault::Memory)),
    }
}

/// The paths without settings, whatever the folders above say. Where memory is refused, that is reported, and the exit
/// status is given.
pub(crate) fn no_project<'a>(
    rt: &HostRuntime,
    paths: &[&'a str],
) -> Result<Vec<ProjectPaths<'a>>, u8> {
    match paths_of_no_project(rt, paths) {
        Ok(projects) => Ok(projects),
        Err(AllocError) => Err(refuse_run(rt, RunFault::Memory)),
    }
}

fn paths_of_no_project<'a>(
    rt: &HostRuntime,
    paths: &[&'a str],
) -> Result<Vec<ProjectPaths<'a>>, AllocError> {
    let alloc = rt.alloc();
    let project = Project {
        settings: Settings::new(alloc),
        excluded: Excluded::new(alloc),
        current: current_folder(rt)?,
    };
    let mut projects = Vec::new(alloc);
    projects.push(ProjectPaths {
        project,
        paths: paths.to_vec(alloc)?,
        root: None,
    })?;
    Ok(projects)
}

/// Why there are no settings.
#[derive(Drop)]
enum Refusal {
    /// A growth was refused.
    Memory,
    /// What was reported, with this exit status.
    Reported(u8),
}

impl From<AllocError> for Refusal {
    fn from(_error: AllocError) -> Self {
        Refusal::Memory
    }
}

fn paths_by_project<'a>(
    rt: &HostRuntime,
    excluded: &[&str],
    paths: &[&'a str],
) -> Result<Vec<ProjectPaths<'a>>, Refusal> {
    let current = current_folder(rt)?;
    let mut projects = Vec::new(rt.alloc());
    for path in paths {
        let at = if *path == "-" { "" } else { *path };
        let root = nearest_root(
            rt,
            absolute_path(rt.alloc(), current.as_str(), at)?.as_str(),
        )?;
        if !add_path(&mut projects, root.as_deref(), *path)? {
            let project = project_at(rt, current.as_str(), root.as_deref(), excluded)?;
            add_project(rt.alloc(), &mut projects, project, root, *path)?;
        }
    }
    Ok(projects)
}

/// Adds a project with that root, which speaks for the path.
fn add_project<'a>(
    alloc: Global,
    projects: &mut Vec<ProjectPaths<'a>>,
    project: Project,
    root: Option<String>,
    path: &'a str,
) -> Result<(), AllocError> {
    let mut paths = Vec::new(alloc);
    paths.push(path)?;
    projects.push(ProjectPaths {
        project,
        paths,
        root,
    })?;
    Ok(())
}

/// Adds the path to the project with that root, if there is one; whether there is.
fn add_path<'a>(
    projects: &mut Vec<ProjectPaths<'a>>,
    root: Option<&str>,
    path: &'a str,
) -> Result<bool, AllocError> {
    for project in projects.iter_mut() {
        if project.root.as_deref() == root {
            project.paths.push(path)?;
            return Ok(true);
        }
    }
    Ok(false)
}

/// The folder at the path, which begins at the root, or the nearest one above, that has an `ftl.toml`.
fn nearest_root(rt: &HostRuntime, path: &str) -> Result<Option<String>, AllocError> {
    let mut folder = String::from_str(rt.alloc(), path)?;
    // as many folders as there are above, and this one
    for _ in path.split('/') {
        if has_settings(rt, folder.as_str())? {
            return Ok(Some(folder));
        }
        match folder.as_str().rfind('/') {
            Some(above) => folder.truncate(above),
            None => return Ok(None),
        }
    }
    Ok(None)
}

/// Whether there is an `ftl.toml` in the folder, or something that can't be looked at.
fn has_settings(rt: &HostRuntime, folder: &str) -> Result<bool, AllocError> {
    let path = format!(in rt.alloc(); "{folder}/{NAME}")?;
    Ok(match fs::metadata(rt, path.as_str()) {
        Ok(_) => true,
        Err(error) => !matches!(error.kind(), ErrorKind::NotFound | ErrorKind::NotADirectory),
    })
}

/// The project of the folder that has the settings; or one that has none.
fn project_at(
    rt: &HostRuntime,
    current: &str,
    root: Option<&str>,
    words: &[&str],
) -> Result<Project, Refusal> {
    let Some(root) = root else {
        return Ok(project_in(rt, current, "", Settings::new(rt.alloc()), words)?);
    };
    let folder = path_between(rt.alloc(), current, root)?;
    let settings = settings_in(rt, folder.as_str())?;
    Ok(project_in(rt, current, folder.as_str(), settings, words)?)
}

/// The way from one folder to another, with a `/` at its end; empty where they are the same: from `/app/de/old` to
/// `/app/en` it is `../../en/`. Both paths are as `absolute_path` gives them.
pub(crate) fn path_between(alloc: Global, from: &str, to: &str) -> Result<String, AllocError> {
    let shared = from
        .split('/')
        .zip(to.split('/'))
        .take_while(|(one, other)| one == other)
        .count();
    let mut way = String::new(alloc);
    for _ in from.split('/').skip(shared) {
        way.push_str("../")?;
    }
    for part in to.split('/').skip(shared) {
        way.push_str(part)?;
        way.push('/')?;
    }
    Ok(way)
}

/// What the settings of a folder say, whose path ends in a `/` or is empty, and what the words exclude.
fn project_in(
    rt: &HostRuntime,
    current: &str,
    folder: &str,
    mut settings: Settings,
    words: &[&str],
) -> Result<Project, AllocError> {
    let alloc = rt.alloc();
    let root = absolute_path(alloc, current, folder)?;
    let mut excluded = Excluded::new(alloc);
    for exclusion in &settings.excluded {
        excluded.add(alloc, root.as_str(), exclusion.as_str())?;
    }
    for exclusion in words {
        excluded.add(alloc, current, *exclusion)?;
    }
    for rules in settings.folders.iter_mut() {
        rules.folder = absolute_path(alloc, root.as_str(), rules.folder.as_str())?;
    }
    if let Some(path) = &settings.reference {
        if !path.starts_with('/') {
            settings.reference = Some(format!(in alloc; "{folder}{path}")?);
        }
    }
    Ok(Project {
        settings,
        excluded,
        current: String::from_str(alloc, current)?,
    })
}

/// The folder that the program runs in, from the root on; the root, where the system doesn't say.
fn current_folder(rt: &HostRuntime) -> Result<String, AllocError> {
    match env::current_dir(rt) {
        Ok(path) => absolute_path(rt.alloc(), "", path.as_str()),
        Err(error) if error.kind() == ErrorKind::OutOfMemory => Err(AllocError),
        Err(_) => Ok(String::new(rt.alloc())),
    }
}

/// What the file of a folder says, whose path ends in a `/` or is empty. It is read only if it is a regular file: the
/// read of another one may never end.
fn settings_in(rt: &HostRuntime, folder: &str) -> Result<Settings, Refusal> {
    let path = format!(in rt.alloc(); "{folder}{NAME}")?;
    let path = path.as_str();
    let bytes = match Disk::of_regular_files(rt).read(path) {
        Ok(bytes) => bytes,
        Err(error) => return Err(refuse_file(rt, path, &Fault::Read(error))),
    };
    let text = match str::from_utf8(bytes.as_slice()) {
        Ok(text) => text,
        Err(error) => {
            let invalid = InvalidText::at(bytes.as_slice(), error.valid_up_to());
            return Err(refuse_file(rt, path, &Fault::NotText(invalid)));
        }
    };
    match settings_of(rt.alloc(), text) {
        Ok(settings) => Ok(settings),
        Err(SettingsFault::Memory) => Err(Refusal::Memory),
        Err(fault) => Err(refuse_settings(rt, path, &fault, WRONG_SETTINGS)),
    }
}

/// Reports why the file was not read.
fn refuse_file(rt: &HostRuntime, path: &str, fault: &Fault) -> Refusal {
    refuse_settings(rt, path, fault, fault.status())
}

fn refuse_settings<D: Display>(rt: &HostRuntime, path: &str, fault: &D, status: u8) -> Refusal {
    match note_line(rt.alloc(), path, fault) {
        Ok(line) => {
            let _ = rt.eprint(line.as_str());
            Refusal::Reported(status)
        }
        Err(AllocError) => Refusal::Memory,
    }
}
