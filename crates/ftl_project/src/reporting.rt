//! The errors of a text, reported for people or for tools.
ghost use Rattle.std.specs.Prelude.{◌≡◌, IfOk, string_bytes};
ghost use Rattle.ftl_project.specs.Reports.{IsErrorReport, Reports};

pub mod diagnostics;
pub mod error_lead;
pub mod excerpt;
pub mod github;
pub mod json;
pub mod line;
pub mod line_starts;
pub mod paint;
pub mod terminal_text;
pub mod text_with_errors;

use crate::reporting::diagnostics::{Diagnostic, ReportedError, diagnostic_text, location_of};
use crate::reporting::terminal_text::push_escaped;
use crate::reporting::text_with_errors::TextWithErrors;
use fluent_syntax::parser::ParserError;
use fluent_syntax::spans::{Lines, Span};
use ftl::{Lead, lead_of};
use ftl_files::{Form, Reading};
use std::alloc::{AllocError, Global};

/// What is reported of the errors of a file's text: something of each, in the order of the errors.
///
/// `AllocError`: a growth was refused.
pub fn report(
    alloc: Global,
    path: &str,
    refused: &TextWithErrors,
    form: Form,
) -> Result<String, AllocError>
    ensures { IfOk result (λ report_text. Reports form path.now (string_bytes refused.now.text)
        refused.now.errors.items (string_bytes report_text)) }
{
    let text = refused.text.as_str();
    let mut out = String::new(alloc);
    let mut lines = Lines::new(text);
    for error in &refused.errors {
        let report_text = error_report(
            alloc,
            path,
            text,
            refused.reading,
            &mut lines,
            error,
            form,
        )?;
        out.push_str(report_text.as_str())?;
    }
    Ok(out)
}

/// What is reported of an error in the file's text.
fn error_report<'s, 't>(
    alloc: Global,
    path: &'s str,
    text: &'s str,
    reading: Reading,
    lines: &mut Lines<'t>,
    error: &'s ParserError,
    form: Form,
) -> Result<String, AllocError>
    requires { lines.old ≡ text.now }
    ensures report_text { IfOk result (λ report_text. IsErrorReport form path.now text.now error.now
        (string_bytes report_text)) }
    ensures lines { lines.new ≡ lines.old }
{
    let span = Span {
        start: error.pos.start,
        end: error.pos.end,
    };
    let diagnostic = Diagnostic {
        path,
        text,
        place: Some(location_of(lines, text, span)),
        kind: error.kind.name(),
        severity: "error",
        message: message_of(alloc, error)?,
        error: Some(ReportedError {
            error,
            lead: lead_in(alloc, text, reading, error, form)?,
        }),
        subject: None,
    };
    diagnostic_text(alloc, &diagnostic, form)
}

/// What leads from the error to the mistake. The form of lines does not say it.
fn lead_in(
    alloc: Global,
    text: &str,
    reading: Reading,
    error: &ParserError,
    form: Form,
) -> Result<Lead, AllocError> {
    match form {
        Form::Lines => Ok(Lead {
            cause: None,
            opened: None,
        }),
        _ => lead_of(alloc, text, reading.edition, reading.nesting, error),
    }
}

/// What is wrong, with its control characters escaped.
fn message_of(alloc: Global, error: &ParserError) -> Result<String, AllocError> {
    let mut message = String::new(alloc);
    push_escaped(&mut message, format!(in alloc; "{error}")?.as_str())?;
    Ok(message)
}
