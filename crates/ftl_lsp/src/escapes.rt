//! Control characters in what is shown.

use std::alloc::{AllocError, Global};
use std::fmt::Write;

/// The text, with an escape for each control character: `\n` for a line end. `AllocError` where a growth was refused.
pub(crate) fn with_escapes(alloc: Global, text: &str) -> Result<String, AllocError> {
    let mut out = String::new(alloc);
    for c in text.chars() {
        match c {
            '\n' => out.push_str("\\n")?,
            '\r' => out.push_str("\\r")?,
            '\t' => out.push_str("\\t")?,
            c if is_control(c) => write!(out, "\\u{{{:x}}}", c as u32)?,
            c => out.push(c)?,
        }
    }
    Ok(out)
}

fn is_control(c: char) -> bool {
    c < ' ' || c > '~' && c < '\u{A0}'
}
