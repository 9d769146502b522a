//! What became of files that were to be rewritten.

use crate::formatting::replacement::Replacement;
use crate::tally::{Tally, file_count};
use std::alloc::{AllocError, Global};
use std::fmt::Write;

/// What became of files that were to be rewritten.
#[derive(Clone, Copy, Debug, PartialEq, Eq)]
pub struct RewriteCounts {
    /// Files that are in their normal form now, and were not before.
    pub rewritten: usize,
    /// Files that were left, since they have errors.
    pub with_errors: usize,
    /// Files that were left, since their normal form would not read back.
    pub lossy: usize,
}

impl RewriteCounts {
    /// No files.
    pub fn new() -> Self {
        RewriteCounts {
            rewritten: 0,
            with_errors: 0,
            lossy: 0,
        }
    }

    /// One file more, of which this became.
    pub(crate) fn count(&mut self, replacement: &Replacement) {
        match replacement {
            Replacement::Same => (),
            Replacement::Text(_) => self.rewritten = self.rewritten.saturating_add(1),
            Replacement::Errors(_) => self.with_errors = self.with_errors.saturating_add(1),
            Replacement::Lossy(_) => self.lossy = self.lossy.saturating_add(1),
        }
    }
}

/// What a run met that rewrites files, as a line with its LF: `57 files`, or what became of them, as
/// `39 of 44 files rewritten, 2 left with errors, 1 left that would not read back`.
///
/// `AllocError`: a growth was refused.
pub fn write_summary(
    alloc: Global,
    tally: &Tally,
    counts: &RewriteCounts,
) -> Result<String, AllocError> {
    let RewriteCounts {
        rewritten,
        with_errors,
        lossy,
    } = *counts;
    let mut line = file_count(alloc, tally.files)?;
    if rewritten != 0 || with_errors != 0 || lossy != 0 {
        line = format!(in alloc; "{rewritten} of {line} rewritten")?;
    }
    if with_errors != 0 {
        write!(line, ", {with_errors} left with errors")?;
    }
    if lossy != 0 {
        write!(line, ", {lossy} left that would not read back")?;
    }
    line.push('\n')?;
    Ok(line)
}
