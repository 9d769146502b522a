//! Texts, and what they represent.

use crate::tables::no_row;
use fluent_syntax::unicode::{unescape_unicode, unescape_unicode_to_string};
use std::alloc::Global;

/// What the text represents, where both calls agree.
pub(crate) fn answer(alloc: Global, fields: &[String]) -> anyhow::Result<String> {
    let [text, _] = fields else {
        return no_row(alloc);
    };
    let given = unescape_unicode_to_string(alloc, text.as_str())?.into_owned(alloc)?;
    let mut sink = String::new(alloc);
    match unescape_unicode(&mut sink, text.as_str()) {
        Ok(()) if sink == given => Ok(given),
        _ => Ok(format!(in alloc; "{given:?} and {sink:?}")?),
    }
}
