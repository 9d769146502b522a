//! What leads from an error to the mistake.
//!
//! The grammar says where it refuses a text. A person asks what is wrong there: the first of the causes that holds is
//! given. No clause rests on it, but that an attribute is refused as `attribute_refusal` says.
ghost use Rattle.std.specs.Prelude.{◌≤◌, length};

use crate::error_advice::advice;
use crate::look_alikes::look_alike_message;
use crate::open_bracket::{OpenBracket, open_bracket};
use crate::refused_text::{LookAlike, RefusedText};
use fluent_syntax::parser::{Edition, ErrorKind, ParserError};
use fluent_syntax::spans::{Halt, attribute_refusal};
use std::alloc::{AllocError, Global};

/// A mistake that an error comes from.
#[derive(Debug, Drop)]
pub struct Cause {
    /// Its place, in bytes of the text.
    pub start: usize,
    /// Where it ends.
    pub end: usize,
    /// What the grammar wanted there, where an attribute is refused.
    pub kind: Option<ErrorKind>,
    /// What the mistake is, and what to do.
    pub message: String,
}

/// What leads from an error to the mistake.
#[derive(Debug, Drop)]
pub struct Lead {
    /// The mistake, if it is known.
    pub cause: Option<Cause>,
    /// The bracket that the error, or the refused attribute, found open.
    pub opened: Option<OpenBracket>,
}

/// What leads from the error of the text to the mistake, where the text was read by the edition, with at most `nesting`
/// placeables and argument lists open at once.
///
/// The cause is the first that holds: an attribute of the junk is refused; a character looks like another; a select has
/// no `{`; an argument has `=` for `:`; an entry is indented; a line is a mark of a merge, or a comment of another
/// language; a line goes on with the text above it.
///
/// It reads the junk of the error, and takes time by its length. `AllocError` where a growth was refused.
pub fn lead_of(
    alloc: Global,
    text: &str,
    edition: Edition,
    nesting: usize,
    error: &ParserError,
) -> Result<Lead, AllocError> {
    let Some(junk) = &error.slice else {
        return Ok(Lead {
            cause: None,
            opened: None,
        });
    };
    let refused = RefusedText {
        text,
        start: junk.start,
        end: junk.end,
        place: failing_place(error),
    };
    let opened = open_bracket(text, junk.start, error);
    if let Some(lead) = attribute_lead(alloc, &refused, edition, nesting)? {
        return Ok(lead);
    }
    let cause = match refused.look_alike(&error.kind) {
        Some(found) => Some(look_alike_cause(alloc, found, None)?),
        None => line_cause(alloc, &refused, &error.kind)?,
    };
    Ok(Lead { cause, opened })
}

/// Where reading failed.
fn failing_place(error: &ParserError) -> usize {
    match error.kind {
        ErrorKind::ExpectedMessageField { .. } | ErrorKind::ExpectedTermField { .. } => {
            error.pos.end
        }
        _ => error.pos.start,
    }
}

/// What leads to the attribute that begins on the line where reading failed, if it is refused: there the list of
/// attributes ended.
fn attribute_lead(
    alloc: Global,
    refused: &RefusedText<'_>,
    edition: Edition,
    nesting: usize,
) -> Result<Option<Lead>, AllocError> {
    let start = refused.place;
    if start > refused.text.len() || !refused.has_attribute_line() {
        return Ok(None);
    }
    match attribute_refusal(alloc, refused.text, edition, nesting, start) {
        Ok(Some(error)) => Ok(Some(refused_attribute(alloc, refused, error)?)),
        Ok(None) | Err(Halt::TooDeep) => Ok(None),
        Err(Halt::Memory) => Err(AllocError),
    }
}

/// What leads to the refusal of the attribute at the place.
fn refused_attribute(
    alloc: Global,
    refused: &RefusedText<'_>,
    error: ParserError,
) -> Result<Lead, AllocError> {
    let opened = open_bracket(refused.text, refused.place, &error);
    let line = RefusedText {
        start: refused.place,
        place: error.pos.start,
        ..*refused
    };
    let found = line.look_alike_at_place(&error.kind);
    let ParserError { pos, kind, .. } = error;
    let cause = match found {
        Some(found) => look_alike_cause(alloc, found, Some(kind))?,
        None => {
            let what = match kind {
                ErrorKind::MissingValue if line.follows_equals() => {
                    "an attribute needs a text after its `=`"
                }
                _ => advice(&kind),
            };
            Cause {
                start: pos.start,
                end: pos.end,
                kind: Some(kind),
                message: format!(in alloc; "this attribute is not read: {what}")?,
            }
        }
    };
    Ok(Lead {
        cause: Some(cause),
        opened,
    })
}

/// The cause that the character is.
fn look_alike_cause(
    alloc: Global,
    found: LookAlike,
    kind: Option<ErrorKind>,
) -> Result<Cause, AllocError> {
    let LookAlike {
        place,
        character,
        begins_line,
    } = found;
    Ok(Cause {
        start: place,
        end: place.saturating_add(character.len_utf8()),
        kind,
        message: look_alike_message(alloc, character, begins_line)?,
    })
}

/// The cause that a line is.
fn line_cause(
    alloc: Global,
    refused: &RefusedText<'_>,
    kind: &ErrorKind,
) -> Result<Option<Cause>, AllocError> {
    let Some(found) = refused.line_mistake(kind) else {
        return Ok(None);
    };
    Ok(Some(Cause {
        start: found.start,
        end: found.end,
        kind: None,
        message: String::from_str(alloc, found.message)?,
    }))
}
