//! Texts, and their errors with all that these hold.

use crate::tables::no_row;
use fluent_syntax::parser::{parse, recovered};
use std::alloc::Global;
use std::fmt::Write;

/// The errors of the text, each with its place, that of its junk, and its kind.
pub(crate) fn answer(alloc: Global, fields: &[String]) -> anyhow::Result<String> {
    let [_, text, _] = fields else {
        return no_row(alloc);
    };
    let (_tree, errors) = recovered(alloc, parse(alloc, text.as_str()))?;
    let mut out = String::new(alloc);
    for error in &errors {
        let (start, end, kind) = (error.pos.start, error.pos.end, &error.kind);
        write!(out, "{start}..{end}")?;
        if let Some(junk) = &error.slice {
            let (start, end) = (junk.start, junk.end);
            write!(out, " {start}..{end}")?;
        }
        write!(out, " {kind:?}\n")?;
    }
    Ok(out)
}
