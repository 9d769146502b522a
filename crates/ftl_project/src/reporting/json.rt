//! JSON text for tools.

use fluent_syntax::parser::{ErrorKind, ParserError};
use std::alloc::AllocError;
use std::fmt::Write;

/// Adds the member for the junk of an error, if it has one.
pub(crate) fn push_junk(out: &mut String, error: &ParserError) -> Result<(), AllocError> {
    match &error.slice {
        Some(junk) => write!(
            out,
            ",\"junk\":{{\"start\":{},\"end\":{}}}",
            junk.start, junk.end
        ),
        None => Ok(()),
    }
}

/// Adds the member for what the kind says of the text, where it says something.
pub(crate) fn push_payload(out: &mut String, kind: &ErrorKind) -> Result<(), AllocError> {
    match kind {
        ErrorKind::ExpectedToken(token) => {
            out.push_str(",\"payload\":\"")?;
            push_json_char(out, *token)?;
            out.push('"')
        }
        ErrorKind::ExpectedCharRange { range } => push_payload_text(out, range.as_str()),
        ErrorKind::ExpectedMessageField { entry_id } | ErrorKind::ExpectedTermField { entry_id } =>
            { push_payload_text(out, entry_id.as_str()) }
        ErrorKind::DuplicatedNamedArgument(text)
        | ErrorKind::UnknownEscapeSequence(text)
        | ErrorKind::InvalidUnicodeEscapeSequence(text) => push_payload_text(out, text.as_str()),
        _ => Ok(()),
    }
}

fn push_payload_text(out: &mut String, text: &str) -> Result<(), AllocError> {
    out.push_str(",\"payload\":")?;
    push_json_text(out, text)
}

/// Adds a text as JSON writes it.
pub(crate) fn push_json_text(out: &mut String, text: &str) -> Result<(), AllocError> {
    out.push('"')?;
    for c in text.chars() {
        push_json_char(out, c)?;
    }
    out.push('"')
}

fn push_json_char(out: &mut String, c: char) -> Result<(), AllocError> {
    match c {
        '"' => out.push_str("\\\""),
        '\\' => out.push_str("\\\\"),
        c if c < ' ' => write!(out, "\\u{:04x}", c as u32),
        c => out.push(c),
    }
}
