//! The diagnostics of a document, as the protocol has them.
ghost use Rattle.std.specs.Prelude.{◌≡◌, map, All, IfOk};
ghost use Rattle.serde_json.specs.View.{view};
ghost use Rattle.fluent_syntax_names.specs.declared.finding.Severity.TheVariants as severities;
ghost use Rattle.ftl_lsp.specs.DiagnosticForms.{IsLintDiagnostic, begin, code_of, count_list, diagnostic_form};
ghost use Rattle.ftl_lsp.specs.DiagnosticForms.{diagnostic_with_related};
ghost use Rattle.ftl_lsp.specs.DiagnosticForms.{error_alone, error_form, note_form, related_form};
ghost use Rattle.ftl_lsp.specs.DiagnosticForms.{is_faded, reported_kind, severity_number, severity_of, tagged};
ghost use Rattle.ftl_lsp.specs.DiagnosticForms.{unnecessary};

use crate::diagnostics::{Diagnostic, RelatedNote};
use crate::documents::positions::{Position, PositionRange};
use crate::sessions::replies::range_form;
use crate::workspace::left_out::LeftOutReason;
use fluent_syntax_names::{Difference, Kind, Severity};
use ftl_files::{Levels, ReportedKind};
use serde_json::{Value, json};
use std::alloc::{AllocError, Global};

/// What is reported of a document besides its errors.
#[derive(Drop)]
pub struct LintDiagnostic<'u> {
    pub range: PositionRange,
    pub kind: LintDiagnosticKind,
    pub message: String,
    /// Other places that it has to do with.
    pub related: Vec<Related<'u>>,
}

/// What it is.
#[derive(Clone, Copy)]
pub enum LintDiagnosticKind {
    Finding(Kind),
    Difference(Difference),
}

impl LintDiagnosticKind {
    fn severity(self, levels: Levels<'_>) -> Severity
        ensures { result ≡ severity_of levels.entry self }
    {
        levels.severity(self.reported_kind())
    }

    /// The same, as settings name it.
    fn reported_kind(self) -> ReportedKind
        ensures { result ≡ reported_kind self }
    {
        match self {
            LintDiagnosticKind::Finding(kind) => ReportedKind::Finding(kind),
            LintDiagnosticKind::Difference(difference) => ReportedKind::Difference(difference),
        }
    }

    /// Its name, as a command line has it.
    fn code(self) -> &'static str
        ensures { result.now ≡ code_of self }
    {
        match self {
            LintDiagnosticKind::Finding(kind) => kind.name(),
            LintDiagnosticKind::Difference(difference) => difference.name(),
        }
    }

    /// Whether its range is the name of what is to go, so that editors fade it.
    fn is_faded(self) -> bool
        ensures { result ≡ is_faded self }
    {
        matches!(
            self,
            LintDiagnosticKind::Difference(Difference::Obsolete | Difference::ObsoleteAttribute)
        )
    }
}

/// A place in a document, with what is said of it.
#[derive(Clone, Copy)]
pub struct Related<'u> {
    pub uri: &'u str,
    pub range: PositionRange,
    pub message: &'u str,
}

/// The diagnostics of errors of the document, in order: each with the other places, if the editor takes such.
/// `AllocError` where a growth was refused.
pub fn error_list(
    alloc: Global,
    uri: &str,
    errors: &[Diagnostic],
    takes_related: bool,
) -> Result<Vec<Value>, AllocError>
    ensures { IfOk result (λ list. map view list.items ≡ map (error_form uri.now takes_related) errors.now) }
{
    let mut list = Vec::new(alloc);
    for error in errors {
        list.push(error_form(alloc, uri, error, takes_related)?)?;
    }
    Ok(list)
}

/// The diagnostic of an error of the document.
fn error_form(
    alloc: Global,
    uri: &str,
    error: &Diagnostic,
    takes_related: bool,
) -> Result<Value, AllocError>
    ensures { IfOk result (λ value. view value ≡ error_form uri.now takes_related error.now) }
{
    let range = PositionRange {
        start: error.start,
        end: error.end,
    };
    let (severity, message) = (Severity::Error, error.message.as_str());
    if !takes_related {
        return error_alone(alloc, range, error);
    }
    if error.related.is_empty() {
        return diagnostic_form(alloc, range, severity, error.code, message);
    }
    let positions = Value::Array(note_list(alloc, uri, &error.related)?);
    form_with_related(alloc, range, severity, error.code, message, positions)
}

/// The diagnostic of an error for an editor that takes no other places: one more line says where a bracket is open.
fn error_alone(alloc: Global, range: PositionRange, error: &Diagnostic) -> Result<Value, AllocError>
    ensures { IfOk result (λ value. view value ≡ error_alone range error.now) }
{
    let (severity, message) = (Severity::Error, error.message.as_str());
    match &error.bracket {
        Some(sentence) => {
            let longer = format!(in alloc; "{message}\n{sentence}")?;
            diagnostic_form(alloc, range, severity, error.code, longer.as_str())
        }
        None => diagnostic_form(alloc, range, severity, error.code, message),
    }
}

/// Other places in the document, in order.
fn note_list(alloc: Global, uri: &str, notes: &[RelatedNote]) -> Result<Vec<Value>, AllocError>
    ensures { IfOk result (λ list. map view list.items ≡ map (note_form uri.now) notes.now) }
{
    let mut list = Vec::new(alloc);
    for note in notes {
        list.push(note_form(alloc, uri, note)?)?;
    }
    Ok(list)
}

fn note_form(alloc: Global, uri: &str, note: &RelatedNote) -> Result<Value, AllocError>
    ensures { IfOk result (λ value. view value ≡ note_form uri.now note.now) }
{
    let (range, message) = (note.range, note.message.as_str());
    related_form(
        alloc,
        Related {
            uri,
            range,
            message,
        },
    )
}

/// What is reported besides the errors, in order: each as grave as the levels say, and with the other places, if the
/// editor takes such. `AllocError` where a growth was refused.
pub fn lint_diagnostic_list(
    alloc: Global,
    all: &[LintDiagnostic<'_>],
    takes_related: bool,
    levels: Levels<'_>,
) -> Result<Vec<Value>, AllocError>
    ensures { IfOk result (λ list. All IsLintDiagnostic (map view list.items)) }
{
    let mut list = Vec::new(alloc);
    for diagnostic in all {
        list.push(lint_diagnostic_form(alloc, diagnostic, takes_related, levels)?)?;
    }
    Ok(list)
}

fn lint_diagnostic_form(
    alloc: Global,
    diagnostic: &LintDiagnostic<'_>,
    takes_related: bool,
    levels: Levels<'_>,
) -> Result<Value, AllocError>
    ensures { IfOk result (λ value. IsLintDiagnostic (view value)) }
{
    let (range, message) = (diagnostic.range, diagnostic.message.as_str());
    let (severity, code) = (diagnostic.kind.severity(levels), diagnostic.kind.code());
    if diagnostic.related.is_empty() {
        let alone = diagnostic_form(alloc, range, severity, code, message)?;
        return tagged(alloc, diagnostic.kind, alone);
    }
    // what has another place is junk there, and not to go
    if !takes_related {
        return diagnostic_form(alloc, range, severity, code, message);
    }
    let positions = related_list(alloc, &diagnostic.related)?;
    form_with_related(alloc, range, severity, code, message, positions)
}

/// The tags of what is unnecessary.
fn unnecessary(alloc: Global) -> Result<Value, AllocError>
    ensures { IfOk result (λ value. view value ≡ unnecessary) }
{
    json!(in alloc; [1])
}

/// The diagnostic, with these where editors are to fade it.
fn tagged(alloc: Global, kind: LintDiagnosticKind, form: Value) -> Result<Value, AllocError>
    ensures { IfOk result (λ value. view value ≡ tagged kind (view form)) }
{
    if !kind.is_faded() {
        return Ok(form);
    }
    match form {
        Value::Object(mut members) => {
            let tags = unnecessary(alloc)?;
            drop(members.insert(String::from_str(alloc, "tags")?, tags)?);
            Ok(Value::Object(members))
        }
        form => Ok(form),
    }
}

/// Other places, in order.
fn related_list(alloc: Global, related: &[Related<'_>]) -> Result<Value, AllocError> {
    let mut list = Vec::new(alloc);
    for place in related {
        list.push(related_form(alloc, *place)?)?;
    }
    Ok(Value::Array(list))
}

/// The diagnostic at a text's begin that says how many more there are, if there are some. `AllocError` where a growth
/// was refused.
pub fn count_list(alloc: Global, more: usize) -> Result<Vec<Value>, AllocError>
    ensures { IfOk result (λ list. map view list.items ≡ count_list more) }
{
    let mut list = Vec::new(alloc);
    if more == 0 {
        return Ok(list);
    }
    let message = format!(in alloc; "{more} more are not shown")?;
    list.push(warning_at_begin(alloc, "more", message.as_str())?)?;
    Ok(list)
}

/// The diagnostic of a document whose file is left out, if it is. `AllocError` where a growth was refused.
pub fn left_out_list(alloc: Global, reason: Option<LeftOutReason>) -> Result<Vec<Value>, AllocError>
    ensures { IfOk result (λ list. All IsLintDiagnostic (map view list.items)) }
{
    let mut list = Vec::new(alloc);
    if let Some(reason) = reason {
        list.push(left_out_form(alloc, reason)?)?;
    }
    Ok(list)
}

fn left_out_form(alloc: Global, reason: LeftOutReason) -> Result<Value, AllocError>
    ensures { IfOk result (λ value. IsLintDiagnostic (view value)) }
{
    let message = reason.sentence(alloc, "the file")?;
    warning_at_begin(alloc, "left-out", message.as_str())
}

fn warning_at_begin(alloc: Global, code: &str, message: &str) -> Result<Value, AllocError>
    ensures { IfOk result (λ value. view value ≡ diagnostic_form begin severities.Warning code.now message.now) }
{
    let start = Position {
        line: 0,
        character: 0,
    };
    let range = PositionRange { start, end: start };
    diagnostic_form(alloc, range, Severity::Warning, code, message)
}

/// A diagnostic with other places.
fn form_with_related(
    alloc: Global,
    range: PositionRange,
    severity: Severity,
    code: &str,
    message: &str,
    positions: Value,
) -> Result<Value, AllocError>
    ensures { IfOk result (λ value. view value
        ≡ diagnostic_with_related range severity code.now message.now (view positions)) }
{
    let range = range_form(alloc, range.start, range.end)?;
    json!(in alloc; {
        "range": range,
        "severity": (severity_number(severity)),
        "source": "ftl",
        "code": code,
        "message": message,
        "relatedInformation": positions
    })
}

/// A diagnostic by itself.
fn diagnostic_form(
    alloc: Global,
    range: PositionRange,
    severity: Severity,
    code: &str,
    message: &str,
) -> Result<Value, AllocError>
    ensures { IfOk result (λ value. view value ≡ diagnostic_form range severity code.now message.now) }
{
    let range = range_form(alloc, range.start, range.end)?;
    json!(in alloc; {
        "range": range,
        "severity": (severity_number(severity)),
        "source": "ftl",
        "code": code,
        "message": message
    })
}

/// Another place, with what is said of it.
fn related_form(alloc: Global, related: Related<'_>) -> Result<Value, AllocError>
    ensures { IfOk result (λ value. view value
        ≡ related_form related.entry.uri.now related.entry.range related.entry.message.now) }
{
    let range = range_form(alloc, related.range.start, related.range.end)?;
    json!(in alloc; {
        "location": {"uri": (related.uri), "range": range},
        "message": (related.message)
    })
}

/// The number of a severity in the protocol.
pub(crate) fn severity_number(severity: Severity) -> u64
    ensures { result ≡ severity_number severity }
{
    match severity {
        Severity::Error => 1,
        Severity::Warning => 2,
    }
}
