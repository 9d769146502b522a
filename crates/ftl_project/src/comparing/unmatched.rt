//! Messages and terms that a translation has in another file than the reference.

use crate::streams::FileNote;
use fluent_syntax_names::{MissingPart, Part, shown_name};
use ftl_files::Form;
use std::alloc::{AllocError, Global};
use std::collections::BTreeMap;

/// Names that one file of a translation lacks, and names that the reference's file doesn't have; each with the path of
/// the file.
#[derive(Drop)]
pub(crate) struct UnmatchedNames {
    missing: BTreeMap<String, String>,
    obsolete: BTreeMap<String, String>,
}

impl UnmatchedNames {
    pub(crate) fn new(alloc: Global) -> Self {
        UnmatchedNames {
            missing: BTreeMap::new(alloc),
            obsolete: BTreeMap::new(alloc),
        }
    }

    /// Adds those of a file of the translation.
    pub(crate) fn add(
        &mut self,
        alloc: Global,
        path: &str,
        names: &EntryNames,
    ) -> Result<(), AllocError> {
        for name in &names.missing {
            self.missing
                .insert(copy(alloc, name.as_str())?, copy(alloc, path)?)?;
        }
        for name in &names.obsolete {
            self.obsolete
                .insert(copy(alloc, name.as_str())?, copy(alloc, path)?)?;
        }
        Ok(())
    }

    /// Which names are missing in one file and obsolete in another, each on a line.
    pub(crate) fn notes(&self, alloc: Global, form: Form) -> Result<String, AllocError> {
        let mut notes = String::new(alloc);
        for (name, path) in &self.missing {
            if let Some(other) = self.obsolete.get(name) {
                let note = FileNote {
                    kind: "moved",
                    severity: "warning",
                    place: None,
                    message: format!(in alloc; "`{name}`, which is missing, is in {other}")?,
                };
                notes.push_str(note.report_text(alloc, path.as_str(), form)?.as_str())?;
            }
        }
        Ok(notes)
    }
}

/// The names of the messages and terms that one of two files lacks.
#[derive(Drop)]
pub(crate) struct EntryNames {
    missing: Vec<String>,
    obsolete: Vec<String>,
}

impl EntryNames {
    /// Those of the parts that are missing, which the reference's text has, and of the obsolete ones, which the other
    /// text has.
    pub(crate) fn of(
        alloc: Global,
        reference: &str,
        missing: &[MissingPart],
        other: &str,
        obsolete: &[MissingPart],
    ) -> Result<Self, AllocError> {
        Ok(EntryNames {
            missing: names_of(alloc, reference, missing)?,
            obsolete: names_of(alloc, other, obsolete)?,
        })
    }

    /// None.
    pub(crate) fn new(alloc: Global) -> Self {
        EntryNames {
            missing: Vec::new(alloc),
            obsolete: Vec::new(alloc),
        }
    }
}

fn names_of(alloc: Global, text: &str, parts: &[MissingPart]) -> Result<Vec<String>, AllocError> {
    let mut names = Vec::new(alloc);
    for part in parts {
        if matches!(part.part, Part::Entry) {
            names.push(copy(alloc, shown_name(text, part.name))?)?;
        }
    }
    Ok(names)
}

fn copy(alloc: Global, text: &str) -> Result<String, AllocError> {
    String::from_str(alloc, text)
}
