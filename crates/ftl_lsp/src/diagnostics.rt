//! The errors of a text, for a client to show.
ghost use Rattle.std.specs.Prelude.{◌≡◌, ◌≤◌, ℕ, List, [], ◌∷◌, length, map, take, All, IfOk};
ghost use Rattle.ftl_lsp.specs.declared.limits.TheConstants.{DIAGNOSTICS_LIMIT};
ghost use Rattle.ftl_lsp.specs.Diagnostics.{deep_diagnostic, diagnostic_of, shown};

pub mod diagnostic_forms;
pub mod differences;
pub mod lint_diagnostics;
pub mod mapped_ranges;
pub mod publishing;
pub mod republish;

use crate::documents::positions::{Position, PositionRange, Positions};
use crate::escapes::with_escapes;
use crate::limits::{DIAGNOSTICS_LIMIT, NESTING_LIMIT};
use fluent_syntax::parser::{Edition, ErrorKind, ParserError};
use fluent_syntax::spans::Span;
use ftl::{Cause, Lead, OpenBracket, advice, lead_of};
use std::alloc::{AllocError, Global};

/// An error of a text: where it is, its kind, and what is said of it.
#[derive(Drop)]
pub struct Diagnostic {
    pub start: Position,
    pub end: Position,
    pub code: &'static str,
    pub message: String,
    /// Where the mistake is, if it is elsewhere, and the bracket that is still open.
    pub related: Vec<RelatedNote>,
    /// Where that bracket is, in a sentence: for an editor that takes no other places.
    pub bracket: Option<String>,
}

/// Another place in the same document, with what is said of it.
#[derive(Drop)]
pub struct RelatedNote {
    pub range: PositionRange,
    pub message: String,
}

/// What is said of a text that nests too deeply.
pub(crate) fn too_deep(alloc: Global) -> Result<Vec<Diagnostic>, AllocError>
    ensures { IfOk result (λ found. map shown found.items ≡ deep_diagnostic ∷ []) }
{
    let start = Position {
        line: 0,
        character: 0,
    };
    let message = String::from_str(alloc, "nested too deeply to be read")?;
    let mut found = Vec::new(alloc);
    found.push(Diagnostic {
        start,
        end: start,
        code: "TooDeep",
        message,
        related: Vec::new(alloc),
        bracket: None,
    })?;
    Ok(found)
}

/// The errors of which diagnostics are published: the first `DIAGNOSTICS_LIMIT`.
pub(crate) fn first_errors(errors: &[ParserError]) -> &[ParserError]
    ensures first { result.now ≡ take DIAGNOSTICS_LIMIT errors.now }
    ensures places { (t : List ℕ) → All (λ e. e.pos.start ≤ length t) errors.now →
        All (λ e. e.pos.start ≤ length t) result.now }
{
    if errors.len() <= DIAGNOSTICS_LIMIT {
        return errors;
    }
    &errors[..DIAGNOSTICS_LIMIT]
}

/// A diagnostic for each of the errors, whose places begin within the text.
pub(crate) fn diagnostics_of(
    alloc: Global,
    text: &str,
    errors: &[ParserError],
) -> Result<Vec<Diagnostic>, AllocError>
    requires { All (λ e. e.pos.start ≤ length text.now) errors.now }
    ensures { IfOk result (λ found. map shown found.items ≡ map (diagnostic_of text.now) errors.now) }
{
    let mut positions = Positions::new(text);
    let mut found = Vec::new(alloc);
    for error in errors {
        let lead = lead_of(alloc, text, Edition::One, NESTING_LIMIT, error)?;
        let diagnostic = diagnose(alloc, &mut positions, text.len(), error, lead)?;
        found.push(diagnostic)?;
    }
    Ok(found)
}

/// The diagnostic of an error, with what leads to the mistake. Where the error's place ends beyond the text, it ends
/// with the text.
fn diagnose(
    alloc: Global,
    positions: &mut Positions<'_>,
    size: usize,
    error: &ParserError,
    lead: Lead,
) -> Result<Diagnostic, AllocError>
    requires within { error.now.pos.start ≤ length positions.old }
    requires size { size ≡ length positions.old }
    ensures text { positions.new ≡ positions.old }
    ensures shown { IfOk result (λ found. shown found ≡ diagnostic_of positions.old error.now) }
{
    let from = error.pos.start;
    let start = positions.position(from);
    let end = positions.position(error.pos.end.min(size).max(from));
    let Lead { cause, opened } = lead;
    let message = message_of(alloc, &error.kind, &cause)?;
    let mut related = Vec::new(alloc);
    note_cause(positions, from, cause, &mut related)?;
    let bracket = note_bracket(alloc, positions, opened, &mut related)?;
    Ok(Diagnostic {
        start,
        end,
        code: error.kind.name(),
        message,
        related,
        bracket,
    })
}

/// What is said of an error: its own text, and on a second line the mistake that it comes from, or else what to do.
fn message_of(
    alloc: Global,
    kind: &ErrorKind,
    cause: &Option<Cause>,
) -> Result<String, AllocError> {
    let text = format!(in alloc; "{kind}")?;
    let mut message = with_escapes(alloc, text.as_str())?;
    message.push('\n')?;
    match cause {
        Some(cause) => message.push_str(cause.message.as_str())?,
        None => message.push_str(advice(kind))?,
    }
    Ok(message)
}

/// Notes where the mistake is, if that is not the place of the error.
fn note_cause(
    positions: &mut Positions<'_>,
    place: usize,
    cause: Option<Cause>,
    notes: &mut Vec<RelatedNote>,
) -> Result<(), AllocError>
    ensures { positions.new ≡ positions.old }
{
    let Some(cause) = cause else {
        return Ok(());
    };
    let Cause { start, end, .. } = cause;
    if start == place {
        return Ok(());
    }
    let range = positions.range(Span { start, end });
    notes.push(RelatedNote {
        range,
        message: cause.message,
    })?;
    Ok(())
}

/// Notes the bracket that is still open, and says in a sentence where it is.
fn note_bracket(
    alloc: Global,
    positions: &mut Positions<'_>,
    opened: Option<OpenBracket>,
    notes: &mut Vec<RelatedNote>,
) -> Result<Option<String>, AllocError>
    ensures { positions.new ≡ positions.old }
{
    let Some(OpenBracket { place, name }) = opened else {
        return Ok(None);
    };
    let end = place.saturating_add(1);
    let range = positions.range(Span { start: place, end });
    let (line, column) = (range.start.line, range.start.character);
    let (line, column) = (line.saturating_add(1), column.saturating_add(1));
    let message = format!(in alloc; "the {name} that is still open")?;
    let sentence = format!(in alloc; "{message} is at {line}:{column}")?;
    notes.push(RelatedNote { range, message })?;
    Ok(Some(sentence))
}
