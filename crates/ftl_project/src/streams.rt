//! What a run writes to.
ghost use Rattle.std.specs.Prelude.{◌≡◌, ◌≢◌, ℕ, Err, true};
ghost use Rattle.ftl.specs.Watched.{has_failed};
ghost use Rattle.ftl_project.specs.Faults.{HasStatus};
ghost use Rattle.ftl_project.specs.Tally.{counted, failed};

use crate::fault::Fault;
use crate::reporting::diagnostics::{Diagnostic, SourceLocation, diagnostic_text};
use crate::reporting::terminal_text::{push_escaped, push_shown_text};
use crate::tally::Tally;
use ftl::{RunFault, Watched, write_all};
use ftl_files::Form;
use std::alloc::{AllocError, Global};
use std::fmt::Display;
use std::io::Write;

/// What a run writes to.
#[derive(Drop)]
pub struct Streams<'w, O, E> {
    /// What was asked for.
    pub out: &'w mut Watched<O>,
    /// Faults, and why files were left as they are.
    pub err: &'w mut Watched<E>,
    /// How faults are reported: to tools in their form, else on a line for people.
    pub form: Form,
}

/// Reports why a file was not answered, and counts it.
///
/// `Err` where the run stops: `Memory`, or `Output`.
pub fn report_fault<O: Write, E: Write>(
    alloc: Global,
    tally: &mut Tally,
    path: &str,
    fault: &Fault,
    streams: &mut Streams<'_, O, E>,
) -> Result<(), RunFault>
    ensures counted { (status : ℕ) × HasStatus fault.now status × (tally.new ≡ counted tally.old (failed status)) }
    ensures out { streams.new.out ≡ streams.old.out }
    ensures input { result ≢ Err RunFault.Input }
    ensures output { result ≡ Err RunFault.Output → has_failed streams.new.err.now ≡ true }
{
    tally.add_fault(fault.status());
    match fault_report(alloc, path, fault, streams.form) {
        Ok(report_text) => write_all(streams.err, report_text.as_bytes()),
        Err(AllocError) => Err(RunFault::Memory),
    }
}

fn fault_report(
    alloc: Global,
    path: &str,
    fault: &Fault,
    form: Form,
) -> Result<String, AllocError> {
    let note = FileNote {
        kind: fault.name(),
        severity: "error",
        place: fault.location(),
        message: format!(in alloc; "{fault}")?,
    };
    note.report_text(alloc, path, form)
}

/// What is reported of a file beyond what was asked for.
#[derive(Drop)]
pub(crate) struct FileNote {
    pub(crate) kind: &'static str,
    pub(crate) severity: &'static str,
    pub(crate) place: Option<SourceLocation>,
    pub(crate) message: String,
}

impl FileNote {
    /// It in the form, if that is for tools; else on a line for people.
    pub(crate) fn report_text(
        self,
        alloc: Global,
        path: &str,
        form: Form,
    ) -> Result<String, AllocError> {
        match form {
            Form::Json | Form::Github => {
                let diagnostic = Diagnostic {
                    path,
                    text: "",
                    place: self.place,
                    kind: self.kind,
                    severity: self.severity,
                    message: self.message,
                    error: None,
                    subject: None,
                };
                diagnostic_text(alloc, &diagnostic, form)
            }
            _ => note_line(alloc, path, &self.message),
        }
    }
}

/// `ftl: PATH: NOTE`, on a line.
///
/// `AllocError`: a growth was refused.
pub fn note_line<D: Display>(alloc: Global, path: &str, note: &D) -> Result<String, AllocError> {
    let mut line = String::from_str(alloc, "ftl: ")?;
    push_shown_text(&mut line, path)?;
    line.push_str(": ")?;
    push_escaped(&mut line, format!(in alloc; "{note}")?.as_str())?;
    line.push('\n')?;
    Ok(line)
}

/// What is reported of a file whose text begins with a byte order mark; else nothing.
pub(crate) fn byte_order_mark_note(
    alloc: Global,
    path: &str,
    text: &str,
    form: Form,
) -> Result<String, AllocError> {
    if !text.starts_with('\u{feff}') {
        return Ok(String::new(alloc));
    }
    let message = "begins with a byte order mark, so its first entry is junk";
    let note = FileNote {
        kind: "byte-order-mark",
        severity: "warning",
        place: Some(SourceLocation {
            line: 1,
            column: 1,
            start: 0,
            end: 3,
        }),
        message: String::from_str(alloc, message)?,
    };
    note.report_text(alloc, path, form)
}
