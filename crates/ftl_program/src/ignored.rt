//! What is not reported of each file.

use crate::project::Project;
use ftl_files::{FolderRules, IgnoreRule, absolute_path, is_below};
use std::alloc::{AllocError, Global};

/// What is not reported of the files of a project, by the folders that they are below.
#[derive(Drop)]
pub(crate) struct IgnoredRules {
    /// The current folder, from the root on.
    current: String,
    /// What is not reported of any file: what the project says, and then what the words say.
    everywhere: Vec<IgnoreRule>,
    /// One for each folder that the project has rules for.
    below: Vec<RulesBelow>,
}

/// What is not reported of the files below a folder, but for those below a deeper one.
#[derive(Drop)]
struct RulesBelow {
    /// The folder, from the root on.
    folder: String,
    /// The rules of all files, and those of this folder and of each one above it.
    ignored: Vec<IgnoreRule>,
}

impl IgnoredRules {
    /// Those of the project and of the words.
    pub(crate) fn new(
        alloc: Global,
        project: &Project,
        words: &[IgnoreRule],
    ) -> Result<IgnoredRules, AllocError> {
        let mut everywhere = Vec::new(alloc);
        push_rules(&mut everywhere, &project.settings.ignored)?;
        push_rules(&mut everywhere, words)?;
        let mut below = Vec::new(alloc);
        for rules in &project.settings.folders {
            let folder = rules.folder.as_str();
            below.push(RulesBelow {
                folder: String::from_str(alloc, folder)?,
                ignored: rules_below(alloc, &everywhere, &project.settings.folders, folder)?,
            })?;
        }
        Ok(IgnoredRules {
            current: String::from_str(alloc, project.current.as_str())?,
            everywhere,
            below,
        })
    }

    /// Those of the file at the path, which may begin at the current folder.
    pub(crate) fn at(&self, alloc: Global, path: &str) -> Result<&[IgnoreRule], AllocError> {
        let path = absolute_path(alloc, self.current.as_str(), path)?;
        // all the folders that a file is below are above the deepest of them
        let mut depth = 0;
        let mut ignored = self.everywhere.as_slice();
        for rules in &self.below {
            let folder = rules.folder.as_str();
            if is_below(folder, path.as_str()) && folder.len() >= depth {
                depth = folder.len();
                ignored = rules.ignored.as_slice();
            }
        }
        Ok(ignored)
    }
}

/// The rules of all files, and then those of the folder and of each one above it.
fn rules_below(
    alloc: Global,
    everywhere: &[IgnoreRule],
    folders: &[FolderRules],
    folder: &str,
) -> Result<Vec<IgnoreRule>, AllocError> {
    let mut ignored = Vec::new(alloc);
    push_rules(&mut ignored, everywhere)?;
    for rules in folders {
        let above = rules.folder.as_str();
        if above == folder || is_below(above, folder) {
            push_rules(&mut ignored, &rules.ignored)?;
        }
    }
    Ok(ignored)
}

fn push_rules(ignored: &mut Vec<IgnoreRule>, rules: &[IgnoreRule]) -> Result<(), AllocError> {
    for rule in rules {
        ignored.push(rule.clone()?)?;
    }
    Ok(())
}
