//! What is reported of the findings of a document.

use crate::diagnostics::diagnostic_forms::{LintDiagnostic, LintDiagnosticKind, Related};
use crate::diagnostics::mapped_ranges::MappedRanges;
use crate::documents::positions::{PositionRange, Positions};
use fluent_syntax::spans::Span;
use fluent_syntax_names::{Finding, full_name};
use std::alloc::{AllocError, Global};

/// What is reported of each finding that has a place, in their order, which is that of the text. `AllocError` where a
/// growth was refused.
pub fn finding_diagnostics<'u>(
    alloc: Global,
    uri: &'u str,
    text: &str,
    findings: &[Finding],
) -> Result<Vec<LintDiagnostic<'u>>, AllocError> {
    let firsts = MappedRanges::of(alloc, text, first_spans(alloc, findings)?)?;
    let mut positions = Positions::new(text);
    let mut diagnostics = Vec::new(alloc);
    for finding in findings {
        if let Some(span) = finding.place {
            let first = finding.other.map(|other| firsts.range(other.span));
            let line = first.map(|first| first.start.line.saturating_add(1));
            let kind = finding.kind;
            diagnostics.push(LintDiagnostic {
                range: positions.range(span),
                kind: LintDiagnosticKind::Finding(kind),
                message: kind.sentence(alloc, full_name(text, span), line)?,
                related: first_definition(alloc, uri, first)?,
            })?;
        }
    }
    Ok(diagnostics)
}

/// Where the names of the findings were given first.
fn first_spans(alloc: Global, findings: &[Finding]) -> Result<Vec<Span>, AllocError> {
    let mut spans = Vec::new(alloc);
    for finding in findings {
        if let Some(other) = finding.other {
            spans.push(other.span)?;
        }
    }
    Ok(spans)
}

/// Where the name of a finding was given first, in the same document.
fn first_definition<'u>(
    alloc: Global,
    uri: &'u str,
    first: Option<PositionRange>,
) -> Result<Vec<Related<'u>>, AllocError> {
    let mut related = Vec::new(alloc);
    if let Some(range) = first {
        related.push(Related {
            uri,
            range,
            message: "first given here",
        })?;
    }
    Ok(related)
}
