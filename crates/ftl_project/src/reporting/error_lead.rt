//! What leads from a syntax error to the mistake: its cause, or what to do; and the bracket that is open.

use crate::reporting::diagnostics::{ReportedError, SourceLocation};
use crate::reporting::excerpt::push_excerpt;
use crate::reporting::github::push_data;
use crate::reporting::json::push_json_text;
use crate::reporting::paint::Paint;
use crate::reporting::terminal_text::push_shown_text;
use fluent_syntax::parser::ErrorKind;
use ftl::{Cause, OpenBracket, advice};
use std::alloc::AllocError;
use std::fmt::Write;

/// A file's text, and a place in it that is known.
#[derive(Clone, Copy)]
pub(crate) struct KnownPlace<'a> {
    pub(crate) path: &'a str,
    pub(crate) text: &'a str,
    pub(crate) location: SourceLocation,
}

impl<'a> KnownPlace<'a> {
    /// The line and the column of a place of the text. Only what lies between the two is read, and the line.
    fn line_column(&self, place: usize) -> (usize, usize) {
        let SourceLocation { line, start, .. } = self.location;
        let line = if place < start {
            line.saturating_sub(line_ends(self.text, place, start))
        } else {
            line.saturating_add(line_ends(self.text, start, place))
        };
        let before = self.text.get(..place).unwrap_or("");
        let column = match before.rfind('\n') {
            Some(end) => place.saturating_sub(end),
            None => place.saturating_add(1),
        };
        (line, column)
    }
}

/// How many lines end between the two places.
fn line_ends(text: &str, start: usize, end: usize) -> usize {
    let between = text.get(start..end).unwrap_or("");
    between.bytes().filter(|byte| *byte == b'\n').count()
}

/// What is said of the error after its own text: the cause, or what to do.
pub(crate) fn error_sentence<'s>(error: &'s ReportedError<'_>) -> &'s str {
    match &error.lead.cause {
        Some(cause) => cause.message.as_str(),
        None => advice(&error.error.kind),
    }
}

/// Adds the cause of the error, or what to do; and the line of the bracket that is open.
pub(crate) fn push_lead(
    out: &mut String,
    known: &KnownPlace<'_>,
    error: &ReportedError<'_>,
    paint: &Paint,
) -> Result<(), AllocError> {
    match &error.lead.cause {
        Some(cause) if cause.start != known.location.start => {
            push_cause(out, known, cause, paint)?;
        }
        _ => writeln!(out, "  = {}", error_sentence(error))?,
    }
    if let Some(bracket) = error.lead.opened {
        writeln!(out, "the {} that is still open:", bracket.name)?;
        push_excerpt(out, known.text, bracket.place, paint.caret)?;
    }
    Ok(())
}

/// Adds the place of the cause with its sentence, and its line.
fn push_cause(
    out: &mut String,
    known: &KnownPlace<'_>,
    cause: &Cause,
    paint: &Paint,
) -> Result<(), AllocError> {
    let (line, column) = known.line_column(cause.start);
    out.push_str(paint.before_place)?;
    push_shown_text(out, known.path)?;
    write!(out, ":{line}:{column}{}: ", paint.reset)?;
    writeln!(out, "{}", cause.message)?;
    push_excerpt(out, known.text, cause.start, paint.caret)
}

/// Adds the same as a text for GitHub, which shows no more than one line of the source.
pub(crate) fn push_lead_data(
    out: &mut String,
    known: &KnownPlace<'_>,
    error: &ReportedError<'_>,
) -> Result<(), AllocError> {
    push_data(out, error_sentence(error))?;
    match &error.lead.cause {
        Some(cause) if cause.start != known.location.start => {
            let (line, column) = known.line_column(cause.start);
            write!(out, " ({line}:{column})")?;
        }
        _ => (),
    }
    if let Some(bracket) = error.lead.opened {
        let (line, column) = known.line_column(bracket.place);
        write!(
            out,
            "; the {} at {line}:{column} is still open",
            bracket.name
        )?;
    }
    Ok(())
}

/// Adds the members for what to do about the error, for its cause, and for the bracket that is open.
pub(crate) fn push_lead_members(
    out: &mut String,
    known: &KnownPlace<'_>,
    error: &ReportedError<'_>,
) -> Result<(), AllocError> {
    out.push_str(",\"advice\":")?;
    push_json_text(out, advice(&error.error.kind))?;
    if let Some(cause) = &error.lead.cause {
        push_cause_member(out, known, cause)?;
    }
    if let Some(bracket) = error.lead.opened {
        push_opened_member(out, known, bracket)?;
    }
    Ok(())
}

fn push_opened_member(
    out: &mut String,
    known: &KnownPlace<'_>,
    bracket: OpenBracket,
) -> Result<(), AllocError> {
    let (line, column) = known.line_column(bracket.place);
    let (start, end) = (bracket.place, bracket.place.saturating_add(1));
    write!(
        out,
        ",\"opened\":{{\"line\":{line},\"column\":{column},\"start\":{start},\"end\":{end},\"name\":\"{}\"}}",
        bracket.name
    )
}

fn push_cause_member(
    out: &mut String,
    known: &KnownPlace<'_>,
    cause: &Cause,
) -> Result<(), AllocError> {
    let (line, column) = known.line_column(cause.start);
    let (start, end) = (cause.start, cause.end);
    write!(
        out,
        ",\"cause\":{{\"line\":{line},\"column\":{column},\"start\":{start},\"end\":{end},\"kind\":"
    )?;
    push_kind(out, &cause.kind)?;
    out.push_str(",\"message\":")?;
    push_json_text(out, cause.message.as_str())?;
    out.push('}')
}

/// Adds the name of the kind, or `null`.
fn push_kind(out: &mut String, kind: &Option<ErrorKind>) -> Result<(), AllocError> {
    match kind {
        Some(kind) => write!(out, "\"{}\"", kind.name()),
        None => out.push_str("null"),
    }
}
