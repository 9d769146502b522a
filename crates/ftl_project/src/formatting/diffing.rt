//! What would change in files that were formatted in place.
ghost use Rattle.ftl_project.specs.Faults.{IsTooDeep, IsUnparsed};
ghost use Rattle.ftl_project.specs.Formatting.{IsShown};

use crate::answering::{Answer, FileTask};
use crate::fault::Fault;
use crate::formatting::line_diff::line_diff;
use crate::formatting::replacement::{FormatOptions, Replacement, replacement_for};
use crate::formatting::{errors_in, is_not_normal, unchanged_note};
use std::alloc::{AllocError, Global};

/// Writes of each file what `write_files` would change, as a unified diff.
#[derive(Clone, Copy)]
pub struct DiffTask {
    pub options: FormatOptions,
}

impl FileTask for DiffTask {
    ghost answers = { λ diffing. IsShown diffing.options };

    ghost refuses = { λ diffing text. IsUnparsed (IsTooDeep diffing.options.reading text) };

    fn answer(&self, alloc: Global, path: &str, text: String) -> Result<Answer, Fault> {
        let old = String::from_str(alloc, text.as_str())?;
        let replacement = replacement_for(alloc, text, self.options)?;
        Ok(Answer {
            errors: errors_in(&replacement),
            has_problems: is_not_normal(&replacement),
            text: shown_difference(alloc, path, old.as_str(), &replacement)?,
            note: unchanged_note(alloc, path, &replacement)?,
        })
    }
}

/// The difference between the text and the one that is to come in its place, if there is one.
fn shown_difference(
    alloc: Global,
    path: &str,
    old: &str,
    replacement: &Replacement,
) -> Result<String, AllocError> {
    match replacement {
        Replacement::Text(new) => line_diff(alloc, path, old, new.as_str()),
        _ => Ok(String::new(alloc)),
    }
}
