//! What a run met.
ghost use Rattle.std.specs.Prelude.{◌≡◌, IfOk, string_bytes};
ghost use Rattle.ftl_project.specs.Summaries.{check_summary_of, error_count_of, errors_in_files, file_count_of};
ghost use Rattle.ftl_project.specs.Summaries.{format_summary_of, warnings_part};
ghost use Rattle.ftl_project.specs.Tally.{answered, counted, failed, status_of, warnings_status};

use std::alloc::{AllocError, Global};

/// What a run met.
#[derive(Clone, Copy, Debug, PartialEq, Eq)]
pub struct Tally {
    /// Files that were answered.
    pub files: usize,
    /// Files with syntax errors, or that are not as they are to be.
    pub with_problems: usize,
    /// Errors in all.
    pub errors: usize,
    /// Warnings in all.
    pub warnings: usize,
    /// The greatest status of a fault, or 0.
    pub fault: u8,
}

impl Tally {
    /// A run that met nothing.
    pub fn new() -> Self
        ensures { result ≡ record { files = 0; with_problems = 0; errors = 0; warnings = 0; fault = 0 } }
    {
        Tally {
            files: 0,
            with_problems: 0,
            errors: 0,
            warnings: 0,
            fault: 0,
        }
    }

    /// The exit status: that of the gravest fault, else 1 where a file has errors or changes, else 0.
    pub fn status(&self) -> u8
        ensures { result ≡ status_of self.now }
    {
        if self.fault != 0 {
            self.fault
        } else if self.with_problems != 0 {
            1
        } else {
            0
        }
    }

    /// The exit status of the warnings: 1 where there are some and they are denied, else 0.
    pub fn warnings_status(&self, are_denied: bool) -> u8
        ensures { result ≡ warnings_status self.now are_denied }
    {
        if are_denied && self.warnings != 0 {
            1
        } else {
            0
        }
    }

    /// One file more was answered, with so many errors and warnings. It has problems if it has errors, or is not as it
    /// is to be.
    pub fn count(&mut self, errors: usize, warnings: usize, has_problems: bool)
        ensures { self.new ≡ counted self.old (answered errors warnings has_problems) }
    {
        self.files = self.files.saturating_add(1);
        self.errors = self.errors.saturating_add(errors);
        self.warnings = self.warnings.saturating_add(warnings);
        self.with_problems = self.with_problems.saturating_add(usize::from(has_problems));
    }

    /// A file was not answered, with a fault of that status.
    pub fn add_fault(&mut self, status: u8)
        ensures { self.new ≡ counted self.old (failed status) }
    {
        self.fault = self.fault.max(status);
    }
}

/// What a check met, as a line with its LF: `3 errors in 2 of 57 files, 1 warning`, or where all is well
/// `57 files, no errors`.
///
/// `AllocError`: a growth was refused.
pub fn check_summary(alloc: Global, tally: &Tally) -> Result<String, AllocError>
    ensures { IfOk result (λ line. string_bytes line ≡ check_summary_of tally.now) }
{
    let errors = errors_in_files(alloc, tally)?;
    let warnings = warnings_part(alloc, tally.warnings)?;
    format!(in alloc; "{errors}{warnings}\n")
}

/// `3 errors in 2 of 57 files`; without errors `57 files, no errors`, or `57 files` where a file was not answered.
fn errors_in_files(alloc: Global, tally: &Tally) -> Result<String, AllocError>
    ensures { IfOk result (λ text. string_bytes text ≡ errors_in_files tally.now) }
{
    let Tally {
        with_problems,
        errors,
        fault,
        ..
    } = *tally;
    let files = file_count(alloc, tally.files)?;
    if errors != 0 {
        let found = error_count(alloc, errors)?;
        return format!(in alloc; "{found} in {with_problems} of {files}");
    }
    if fault != 0 {
        return Ok(files);
    }
    format!(in alloc; "{files}, no errors")
}

/// `, 1 warning`, or `, 3 warnings`; nothing of none.
fn warnings_part(alloc: Global, warnings: usize) -> Result<String, AllocError>
    ensures { IfOk result (λ text. string_bytes text ≡ warnings_part warnings) }
{
    match warnings {
        0 => Ok(String::new(alloc)),
        1 => format!(in alloc; ", 1 warning"),
        _ => format!(in alloc; ", {warnings} warnings"),
    }
}

/// What a formatting met, as a line with its LF: `2 of 57 files not in normal form`, or where all are `57 files`.
///
/// `AllocError`: a growth was refused.
pub fn format_summary(alloc: Global, tally: &Tally) -> Result<String, AllocError>
    ensures { IfOk result (λ line. string_bytes line ≡ format_summary_of tally.now) }
{
    let with_problems = tally.with_problems;
    let files = file_count(alloc, tally.files)?;
    if with_problems == 0 {
        return format!(in alloc; "{files}\n");
    }
    format!(in alloc; "{with_problems} of {files} not in normal form\n")
}

/// `1 error`, or `3 errors`.
fn error_count(alloc: Global, errors: usize) -> Result<String, AllocError>
    ensures { IfOk result (λ text. string_bytes text ≡ error_count_of errors) }
{
    match errors {
        1 => format!(in alloc; "1 error"),
        _ => format!(in alloc; "{errors} errors"),
    }
}

/// `1 file`, or `57 files`.
pub(crate) fn file_count(alloc: Global, files: usize) -> Result<String, AllocError>
    ensures { IfOk result (λ text. string_bytes text ≡ file_count_of files) }
{
    match files {
        1 => format!(in alloc; "1 file"),
        _ => format!(in alloc; "{files} files"),
    }
}
