//! What of a document and its original one has and the other lacks, in the words of `ftl compare`.

use crate::diagnostics::diagnostic_forms::{LintDiagnostic, LintDiagnosticKind, Related};
use crate::diagnostics::mapped_ranges::MappedRanges;
use crate::documents::occurrences::{bytes_of, is_name_byte};
use crate::documents::positions::{Position, PositionRange, Positions, START};
use crate::workspace::originals::Original;
use fluent_syntax::spans::Span;
use fluent_syntax_names::{Difference, MissingPart, Side, missing_parts};
use ftl_files::{CommentRules, IgnoreRule, is_part_reported};
use std::alloc::{AllocError, Global};

/// What the original has and the document lacks, in the order of the original, and then what the document has and the
/// original lacks, in the order of the document; but for what is ignored. `shown` is the path of the original, as it
/// is reported.
///
/// `AllocError` where a growth was refused.
pub fn differences_of<'u>(
    alloc: Global,
    document: &CommentRules<'_, '_>,
    original: &Original<'u>,
    shown: &str,
    ignored: &[IgnoreRule],
) -> Result<Vec<LintDiagnostic<'u>>, AllocError> {
    let theirs = CommentRules::of(alloc, &original.name_index)?;
    let mut diagnostics = missing_of(alloc, document, original, &theirs, shown, ignored)?;
    let mut extra = extra_of(alloc, document, original, &theirs, shown, ignored)?;
    diagnostics.append(&mut extra)?;
    Ok(diagnostics)
}

/// What is reported of that which the document lacks: at the entry that lacks it, or at the name with which the first
/// junk begins that is the entry; at the document's begin, where neither is.
fn missing_of<'u>(
    alloc: Global,
    own: &CommentRules<'_, '_>,
    original: &Original<'u>,
    their: &CommentRules<'_, '_>,
    shown: &str,
    ignored: &[IgnoreRule],
) -> Result<Vec<LintDiagnostic<'u>>, AllocError> {
    let (document, theirs) = (own.name_index, &original.name_index);
    let missing_parts = missing_parts(alloc, theirs, document)?;
    let own_ranges = ranges_in_other(alloc, document.text, &missing_parts)?;
    let mut their_positions = Positions::new(theirs.text);
    let mut entries = Vec::new(alloc);
    let mut diagnostics = Vec::new(alloc);
    for missing in &missing_parts {
        let difference = reported_difference(ignored, Side::Reference, their, own, missing);
        if let Some(difference) = difference {
            let there = their_positions.range(missing.name);
            let place = place_text(alloc, shown, there.start)?;
            let place = Some(place.as_str());
            let diagnostic = LintDiagnostic {
                range: match name_in_other(document.text, missing) {
                    Some(name) => own_ranges.range(name),
                    None => BEGIN,
                },
                kind: LintDiagnosticKind::Difference(difference),
                message: missing.sentence(alloc, theirs.text, Side::Reference, difference, place)?,
                related: related_in(alloc, original, Some(there))?,
            };
            if missing.in_other.is_some() {
                diagnostics.push(diagnostic)?;
            } else {
                entries.push(diagnostic)?;
            }
        }
    }
    let mut all = as_one(alloc, entries)?;
    all.append(&mut diagnostics)?;
    Ok(all)
}

/// The most places that are given of missing messages and terms.
const SHOWN_MISSING: usize = 20;

/// What is reported of messages and terms that are missing as a whole: where there are several, one diagnostic that
/// counts them, and has the sentences and the places of the first.
fn as_one<'u>(
    alloc: Global,
    entries: Vec<LintDiagnostic<'u>>,
) -> Result<Vec<LintDiagnostic<'u>>, AllocError> {
    let count = entries.len();
    if count < 2 {
        return Ok(entries);
    }
    let mut message = format!(in alloc; "{count} messages and terms are missing")?;
    let mut related = Vec::new(alloc);
    for entry in entries.iter().take(SHOWN_MISSING) {
        message.push('\n')?;
        message.push_str(entry.message.as_str())?;
        if let Some(place) = entry.related.first() {
            related.push(*place)?;
        }
    }
    let mut all = Vec::new(alloc);
    all.push(LintDiagnostic {
        range: BEGIN,
        kind: LintDiagnosticKind::Difference(Difference::Missing),
        message,
        related,
    })?;
    Ok(all)
}

/// What is reported of that which the original lacks, or has as junk.
fn extra_of<'u>(
    alloc: Global,
    own: &CommentRules<'_, '_>,
    original: &Original<'u>,
    their: &CommentRules<'_, '_>,
    shown: &str,
    ignored: &[IgnoreRule],
) -> Result<Vec<LintDiagnostic<'u>>, AllocError> {
    let (document, theirs) = (own.name_index, &original.name_index);
    let missing_parts = missing_parts(alloc, document, theirs)?;
    let their_ranges = ranges_in_other(alloc, theirs.text, &missing_parts)?;
    let mut positions = Positions::new(document.text);
    let mut diagnostics = Vec::new(alloc);
    for missing in &missing_parts {
        let difference = reported_difference(ignored, Side::Other, own, their, missing);
        if let Some(difference) = difference {
            let junk = match name_in_other(theirs.text, missing) {
                Some(name) if missing.is_junk() => Some(their_ranges.range(name)),
                _ => None,
            };
            let place = match junk {
                Some(range) => Some(place_text(alloc, shown, range.start)?),
                None => None,
            };
            let place = place.as_deref();
            diagnostics.push(LintDiagnostic {
                range: positions.range(missing.name),
                kind: LintDiagnosticKind::Difference(difference),
                message: missing.sentence(alloc, document.text, Side::Other, difference, place)?,
                related: related_in(alloc, original, junk)?,
            })?;
        }
    }
    Ok(diagnostics)
}

/// What is reported of a part that the file of this side has and the other one lacks.
fn reported_difference(
    ignored: &[IgnoreRule],
    side: Side,
    own: &CommentRules<'_, '_>,
    other: &CommentRules<'_, '_>,
    missing: &MissingPart,
) -> Option<Difference> {
    side.difference(missing.part)
        .filter(|_| is_part_reported(ignored, side, own, other, missing))
}

/// Where a text begins.
const BEGIN: PositionRange = PositionRange {
    start: START,
    end: START,
};

/// The place in the original, if there is one, with what is reported of the document.
fn related_in<'u>(
    alloc: Global,
    original: &Original<'u>,
    range: Option<PositionRange>,
) -> Result<Vec<Related<'u>>, AllocError> {
    let mut related = Vec::new(alloc);
    if let Some(range) = range {
        related.push(Related {
            uri: original.uri,
            range,
            message: "what the reference has",
        })?;
    }
    Ok(related)
}

/// A place of the original, as it is reported: `path` is the original's as it is shown.
fn place_text(alloc: Global, path: &str, position: Position) -> Result<String, AllocError> {
    let line = position.line.saturating_add(1);
    let column = position.character.saturating_add(1);
    format!(in alloc; "{path}:{line}:{column}")
}

/// Where the text has the entries in which it lacks these parts.
fn ranges_in_other<'t>(
    alloc: Global,
    text: &'t str,
    missing_parts: &[MissingPart],
) -> Result<MappedRanges<'t>, AllocError> {
    let mut names = Vec::new(alloc);
    for missing in missing_parts {
        if let Some(name) = name_in_other(text, missing) {
            names.push(name)?;
        }
    }
    MappedRanges::of(alloc, text, names)
}

/// The name of the entry in the text that lacks the part: where it is defined, or where the junk begins that it is.
fn name_in_other(text: &str, missing: &MissingPart) -> Option<Span> {
    let place = missing.in_other?;
    if !missing.is_junk() {
        return Some(place);
    }
    let length = bytes_of(text, place)
        .as_bytes()
        .iter()
        .take_while(|byte| is_name_byte(**byte))
        .count();
    Some(Span {
        start: place.start,
        end: place.start.saturating_add(length),
    })
}
