//! What is reported of a place in a file, for people or for tools.
ghost use Rattle.std.specs.Prelude.{◌≡◌, ◌++◌, IfOk, OnOk, string_bytes};
ghost use Rattle.ftl_project.specs.Diagnostics.{IsDiagnostic, place_or_path, diagnostic_line, location_at};
ghost use Rattle.ftl_project.specs.Diagnostics.{name_part};
ghost use Rattle.ftl_project.specs.Subjects.{subject_name};

use crate::reporting::error_lead::{KnownPlace, push_lead, push_lead_data, push_lead_members};
use crate::reporting::excerpt::push_excerpt;
use crate::reporting::github::{push_data, push_property};
use crate::reporting::json::{push_json_text, push_junk, push_payload};
use crate::reporting::paint::{COLORED, PLAIN, Paint};
use crate::reporting::terminal_text::push_shown_text;
use fluent_syntax::parser::ParserError;
use fluent_syntax::spans::{Lines, Span};
use ftl::Lead;
use ftl_files::Form;
use std::alloc::{AllocError, Global};
use std::fmt::Write;

/// What is reported of a file, and of a place there if it has one.
#[derive(Drop)]
pub(crate) struct Diagnostic<'a> {
    pub(crate) path: &'a str,
    pub(crate) text: &'a str,
    pub(crate) place: Option<SourceLocation>,
    pub(crate) kind: &'static str,
    pub(crate) severity: &'static str,
    pub(crate) message: String,
    /// The syntax error that it is about.
    pub(crate) error: Option<ReportedError<'a>>,
    /// The name that it is about.
    pub(crate) subject: Option<Subject<'a>>,
}

/// A syntax error, and what leads from it to the mistake.
#[derive(Drop)]
pub(crate) struct ReportedError<'a> {
    pub(crate) error: &'a ParserError,
    pub(crate) lead: Lead,
}

/// What a diagnostic says of a name.
#[derive(Clone, Copy)]
pub(crate) struct Subject<'a> {
    /// The name, a term's with its `-`.
    pub(crate) name: &'a str,
    /// The name of the message or term that it is in, if that is another and is known.
    pub(crate) entry: Option<&'a str>,
    /// Where the name comes first, or in the reference.
    pub(crate) other: Option<OtherPlace<'a>>,
}

/// A place in a file.
#[derive(Clone, Copy)]
pub(crate) struct OtherPlace<'a> {
    pub(crate) path: &'a str,
    pub(crate) location: SourceLocation,
}

/// A place in a text: its line and its column in bytes, from 1, and its range in bytes, from 0.
#[derive(Clone, Copy)]
pub(crate) struct SourceLocation {
    pub(crate) line: usize,
    pub(crate) column: usize,
    pub(crate) start: usize,
    pub(crate) end: usize,
}

/// Where the name is in the text; its line and its column are those of the text's end where that comes first.
pub(crate) fn location_of<'t>(lines: &mut Lines<'t>, text: &str, name: Span) -> SourceLocation
    requires { lines.old ≡ text.now }
    ensures location { result ≡ location_at text.now name }
    ensures text { lines.new ≡ lines.old }
{
    let (line, column) = lines.line_column(name.start.min(text.len()));
    SourceLocation {
        line,
        column,
        start: name.start,
        end: name.end,
    }
}

/// What is reported of the diagnostic in the form.
pub(crate) fn diagnostic_text(
    alloc: Global,
    diagnostic: &Diagnostic<'_>,
    form: Form,
) -> Result<String, AllocError>
    ensures { IfOk result (λ report_text. IsDiagnostic form diagnostic.now.path.now diagnostic.now.place
        diagnostic.now.kind.now (subject_name diagnostic.now.subject)
        (string_bytes diagnostic.now.message) (string_bytes report_text)) }
{
    let mut out = String::new(alloc);
    match form {
        Form::Lines => push_line(&mut out, diagnostic)?,
        Form::Full => push_in_full(&mut out, diagnostic, &PLAIN)?,
        Form::Colored => push_in_full(&mut out, diagnostic, &COLORED)?,
        Form::Json => push_json(&mut out, diagnostic)?,
        Form::Github => push_github(&mut out, diagnostic)?,
    }
    Ok(out)
}

/// `PATH:LINE:COLUMN`, or `PATH` where there is no place.
fn push_place(out: &mut String, diagnostic: &Diagnostic<'_>) -> Result<(), AllocError>
    ensures { OnOk result
        (string_bytes out.new ≡ string_bytes out.old ++ place_or_path diagnostic.now.path.now diagnostic.now.place) }
{
    push_shown_text(out, diagnostic.path)?;
    match diagnostic.place {
        Some(location) => write!(out, ":{}:{}", location.line, location.column),
        None => Ok(()),
    }
}

/// `PLACE: KIND NAME`, and the message where there is no place.
fn push_line(out: &mut String, diagnostic: &Diagnostic<'_>) -> Result<(), AllocError>
    ensures { OnOk result (string_bytes out.new ≡ string_bytes out.old
        ++ diagnostic_line diagnostic.now.path.now diagnostic.now.place diagnostic.now.kind.now
        (subject_name diagnostic.now.subject) (string_bytes diagnostic.now.message)) }
{
    push_place(out, diagnostic)?;
    write!(out, ": {}", diagnostic.kind)?;
    push_name(out, diagnostic)?;
    if diagnostic.place.is_none() {
        out.push_str(": ")?;
        push_shown_text(out, diagnostic.message.as_str())?;
    }
    out.push('\n')
}

/// The name that it is about, if there is one.
fn push_name(out: &mut String, diagnostic: &Diagnostic<'_>) -> Result<(), AllocError>
    ensures { OnOk result
        (string_bytes out.new ≡ string_bytes out.old ++ name_part (subject_name diagnostic.now.subject)) }
{
    match &diagnostic.subject {
        Some(subject) => {
            out.push(' ')?;
            push_shown_text(out, subject.name)
        }
        None => Ok(()),
    }
}

/// The place with the message, the line of the source, and a caret below.
fn push_in_full(
    out: &mut String,
    diagnostic: &Diagnostic<'_>,
    paint: &Paint,
) -> Result<(), AllocError> {
    let Paint {
        before_place,
        before_kind,
        reset,
        caret,
    } = *paint;
    out.push_str(before_place)?;
    push_place(out, diagnostic)?;
    let (severity, kind) = (diagnostic.severity, diagnostic.kind);
    write!(out, "{reset}: {before_kind}{severity}[{kind}]{reset}: ")?;
    push_shown_text(out, diagnostic.message.as_str())?;
    out.push('\n')?;
    if let Some(location) = diagnostic.place {
        push_excerpt(out, diagnostic.text, location.start, caret)?;
    }
    match (&diagnostic.error, known_place(diagnostic)) {
        (Some(error), Some(known)) => push_lead(out, &known, error, paint),
        _ => Ok(()),
    }
}

/// The place of the diagnostic in its text, if it has one.
fn known_place<'a>(diagnostic: &Diagnostic<'a>) -> Option<KnownPlace<'a>> {
    let location = diagnostic.place?;
    Some(KnownPlace {
        path: diagnostic.path,
        text: diagnostic.text,
        location,
    })
}

/// An object. Its places are in bytes, counted from 0; the column too is in bytes, and counted from 1.
fn push_json(out: &mut String, diagnostic: &Diagnostic<'_>) -> Result<(), AllocError> {
    out.push_str("{\"path\":")?;
    push_json_text(out, diagnostic.path)?;
    if let Some(location) = diagnostic.place {
        push_location(out, location)?;
    }
    if let Some(error) = &diagnostic.error {
        push_junk(out, error.error)?;
    }
    write!(out, ",\"kind\":\"{}\"", diagnostic.kind)?;
    match &diagnostic.error {
        Some(error) => push_payload(out, &error.error.kind)?,
        None => write!(out, ",\"severity\":\"{}\"", diagnostic.severity)?,
    }
    if let Some(subject) = &diagnostic.subject {
        push_subject(out, subject)?;
    }
    out.push_str(",\"message\":")?;
    push_json_text(out, diagnostic.message.as_str())?;
    if let (Some(error), Some(known)) = (&diagnostic.error, known_place(diagnostic)) {
        push_lead_members(out, &known, error)?;
    }
    out.push_str("}\n")
}

/// Adds the members for a place.
fn push_location(out: &mut String, location: SourceLocation) -> Result<(), AllocError> {
    let (line, column) = (location.line, location.column);
    write!(out, ",\"line\":{line},\"column\":{column}")?;
    write!(
        out,
        ",\"start\":{},\"end\":{}",
        location.start, location.end
    )
}

/// Adds the members for a name, and for the other place.
fn push_subject(out: &mut String, subject: &Subject<'_>) -> Result<(), AllocError> {
    out.push_str(",\"name\":")?;
    push_json_text(out, subject.name)?;
    if let Some(entry) = subject.entry {
        out.push_str(",\"entry\":")?;
        push_json_text(out, entry)?;
    }
    if let Some(other) = subject.other {
        out.push_str(",\"other\":{\"path\":")?;
        push_json_text(out, other.path)?;
        push_location(out, other.location)?;
        out.push('}')?;
    }
    Ok(())
}

fn push_github(out: &mut String, diagnostic: &Diagnostic<'_>) -> Result<(), AllocError> {
    write!(out, "::{} file=", diagnostic.severity)?;
    push_property(out, diagnostic.path)?;
    if let Some(location) = diagnostic.place {
        let (line, column) = (location.line, location.column);
        write!(out, ",line={line},col={column}")?;
    }
    write!(out, ",title={}::", diagnostic.kind)?;
    push_data(out, diagnostic.message.as_str())?;
    if let (Some(error), Some(known)) = (&diagnostic.error, known_place(diagnostic)) {
        out.push_str(": ")?;
        push_lead_data(out, &known, error)?;
    }
    out.push('\n')
}
