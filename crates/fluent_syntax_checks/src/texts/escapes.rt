//! The fields of a line.

use std::alloc::{AllocError, Global};

/// The text of a line.
pub(crate) fn text_of(alloc: Global, line: &str) -> Result<String, AllocError> {
    match line.split('\t').next() {
        Some(field) => unescaped_field(alloc, field),
        None => Ok(String::new(alloc)),
    }
}

/// The field with `\\`, `\n`, `\r`, `\t` and `\u{feff}` as what they represent.
pub(crate) fn unescaped_field(alloc: Global, field: &str) -> Result<String, AllocError> {
    let mut out = String::new(alloc);
    let mut escaped = false;
    let mut skipped = 0u8;
    for c in field.chars() {
        if skipped > 0 {
            skipped -= 1;
        } else if escaped {
            escaped = false;
            match c {
                'n' => out.push('\n')?,
                'r' => out.push('\r')?,
                't' => out.push('\t')?,
                'u' => {
                    out.push('\u{feff}')?;
                    skipped = 6;
                }
                other => out.push(other)?,
            }
        } else if c == '\\' {
            escaped = true;
        } else {
            out.push(c)?;
        }
    }
    Ok(out)
}
