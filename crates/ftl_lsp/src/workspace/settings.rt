//! What the projects of the workspace's folders say of themselves.

use crate::sessions::notices::Notice;
use ftl_files::{FILE_LIMIT, Folders, Settings, SettingsFault, settings_of};
use std::alloc::{AllocError, Global};

/// What a project says.
#[derive(Drop)]
pub struct ProjectSettings {
    /// The folder of its `ftl.toml`, in which the paths there begin.
    pub folder: String,
    pub settings: Settings,
}

/// What the `ftl.toml` of the folder says, or that of the nearest one above that has such a file: None where there is
/// none. The error says why it can't be gone by.
///
/// `AllocError` where a growth was refused.
pub fn nearest_settings<F: Folders>(
    alloc: Global,
    files: &F,
    folder: &str,
) -> Result<Result<Option<ProjectSettings>, Notice>, AllocError> {
    let mut nearest = folder;
    // as many folders as there are above, and this one
    for _ in folder.split('/') {
        match settings_in(alloc, files, nearest)? {
            Ok(Some(settings)) => {
                let folder = String::from_str(alloc, nearest)?;
                return Ok(Ok(Some(ProjectSettings { folder, settings })));
            }
            Ok(None) => {}
            Err(fault) => return Ok(Err(fault)),
        }
        match nearest.rsplit_once('/') {
            Some((above, _)) => nearest = above,
            None => return Ok(Ok(None)),
        }
    }
    Ok(Ok(None))
}

/// What the `ftl.toml` at the top of a folder says: likewise.
fn settings_in<F: Folders>(
    alloc: Global,
    files: &F,
    folder: &str,
) -> Result<Result<Option<Settings>, Notice>, AllocError> {
    let path = format!(in alloc; "{folder}/ftl.toml")?;
    let path = path.as_str();
    let Some(bytes) = files.read(alloc, path, FILE_LIMIT)? else {
        if files.has(path) {
            return Ok(Err(Notice::of_settings(alloc, folder, "the file can't be read")?));
        }
        return Ok(Ok(None));
    };
    let Ok(text) = String::from_utf8(bytes) else {
        return Ok(Err(Notice::of_settings(alloc, folder, "the file is not UTF-8")?));
    };
    match settings_of(alloc, text.as_str()) {
        Ok(settings) => Ok(Ok(Some(settings))),
        Err(SettingsFault::Memory) => Err(AllocError),
        Err(fault) => {
            let fault = format!(in alloc; "{fault}")?;
            Ok(Err(Notice::of_settings(alloc, folder, fault.as_str())?))
        }
    }
}
