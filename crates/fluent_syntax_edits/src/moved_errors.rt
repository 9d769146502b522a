//! The errors of a text once several stretches of it have changed.
ghost use Rattle.std.specs.Prelude.{◌≡◌, ◌+◌, ◌-◌, ◌↔◌, IfOk, IsTrue, length, map, option_map, string_bytes};
ghost use Rattle.fluent_syntax_edits.specs.Passed.{MoveBy, MoveFrom, junk_end};
ghost use Rattle.fluent_syntax_edits.specs.SeveralEdits.{moved_by, shifted_fault};
ghost use Rattle.fluent_syntax_parser.specs.Faults.{fault_of};

use crate::drafts::Replacement;
use crate::reading::{Shift, is_moved_range, is_same_kind};
use fluent_syntax_tree::errors::ParserError;
use fluent_syntax_tree::spans::Span;
use std::alloc::AllocError;

/// The first replacements: those that start before a place.
#[derive(Clone, Copy)]
struct Passed {
    /// The place.
    end: usize,
    count: usize,
    /// Where the last of them ends in the source.
    from: usize,
    /// Where it ends in the new text.
    to: usize,
}

/// Whether the other error is the one with the places after `from` moved, which is at `to` now.
fn is_shifted(from: usize, to: usize, error: &ParserError, other: &ParserError) -> bool
    ensures { IsTrue result ↔ (fault_of other.now ≡ option_map (shifted_fault from to) (fault_of error.now)) }
{
    let replaced = Span {
        start: from,
        end: from,
    };
    let shift = Shift { replaced, to };
    match (&error.slice, &other.slice) {
        (Some(slice), Some(other_slice)) => {
            is_same_kind(&error.kind, &other.kind)
                && is_moved_range(shift, false, &error.pos, &other.pos)
                && is_moved_range(shift, false, slice, other_slice)
        }
        (None, None) => true,
        _ => false,
    }
}

/// Where the replacement ends in the new text, if what comes before it begins there.
fn new_end(passed: Passed, replacement: &Replacement) -> Result<usize, AllocError>
    ensures { IfOk result (λ to. to ≡ passed.to + (replacement.now.span.start - passed.from)
        + length (string_bytes replacement.now.text)) }
{
    let kept = replacement.span.start.saturating_sub(passed.from);
    // no text is longer than the greatest usize
    let start = passed.to.checked_add(kept).ok_or(AllocError)?;
    start.checked_add(replacement.text.len()).ok_or(AllocError)
}

/// The replacements that start before the place, if some have been passed.
fn passed_before(
    replacements: &[Replacement],
    last: Passed,
    end: usize,
) -> Result<Passed, AllocError>
    requires { MoveFrom replacements.now last }
    ensures place { IfOk result (λ passed. passed.end ≡ end) }
    ensures from { IfOk result (MoveFrom replacements.now) }
    ensures by { IfOk result (MoveBy replacements.now) }
{
    let mut passed = if end < last.end {
        Passed {
            end,
            count: 0,
            from: 0,
            to: 0,
        }
    } else {
        Passed { end, ..last }
    };
    while passed.count < replacements.len() && replacements[passed.count].span.start < end {
        let replacement = &replacements[passed.count];
        passed = Passed {
            end,
            count: passed.count + 1,
            from: replacement.span.end,
            to: new_end(passed, replacement)?,
        };
    }
    Ok(passed)
}

/// Where the junk of the error ends; where it became none, the place itself.
fn junk_end(error: &ParserError, place: usize) -> usize
    ensures { result ≡ junk_end (fault_of error.now) place }
{
    match &error.slice {
        Some(slice) => slice.end,
        None => place,
    }
}

/// Whether the other errors are these where the replacements moved them.
pub(crate) fn are_moved_by(
    replacements: &[Replacement],
    errors: &[ParserError],
    others: &[ParserError],
) -> Result<bool, AllocError>
    ensures { IfOk result (λ so. IsTrue so ↔ (map fault_of others.now
        ≡ map (option_map (moved_by 0 0 replacements.now)) (map fault_of errors.now))) }
{
    if errors.len() != others.len() {
        return Ok(false);
    }
    let mut passed = Passed {
        end: 0,
        count: 0,
        from: 0,
        to: 0,
    };
    for index in 0..errors.len() {
        let error = &errors[index];
        passed = passed_before(replacements, passed, junk_end(error, passed.end))?;
        if !is_shifted(passed.from, passed.to, error, &others[index]) {
            return Ok(false);
        }
    }
    Ok(true)
}
