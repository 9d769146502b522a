//! Texts, and how many placeables and argument lists are open in them at most at once.

use crate::tables::no_row;
use fluent_syntax::parser::{
    Edition, TooDeep, parse_edition, parse_runtime_edition, parse_runtime_within, parse_within,
};
use fluent_syntax::spans::{
    parse_runtime_spans_edition, parse_runtime_spans_within, parse_spans_edition,
    parse_spans_within,
};
use std::alloc::Global;

/// The least bound within which the text is read; each call reads it there as without a bound, and none within less.
pub(crate) fn answer(alloc: Global, fields: &[String]) -> anyhow::Result<String> {
    let [_, text, _] = fields else {
        return no_row(alloc);
    };
    let text = text.as_str();
    for bound in 0..=text.len() {
        if is_read(alloc, text, Edition::One, bound) && is_read(alloc, text, Edition::Two, bound) {
            return Ok(format!(in alloc; "{bound}")?);
        }
        let refused = is_refused(alloc, text, Edition::One, bound)
            && is_refused(alloc, text, Edition::Two, bound);
        if !refused {
            return Ok(format!(in alloc; "read in part within {bound}")?);
        }
    }
    Ok(String::from_str(alloc, "never read")?)
}

/// Whether each call reads the text within the bound as without one.
fn is_read(alloc: Global, text: &str, edition: Edition, bound: usize) -> bool {
    parse_within(alloc, text, edition, bound) == Ok(parse_edition(alloc, text, edition))
        && parse_runtime_within(alloc, text, edition, bound)
            == Ok(parse_runtime_edition(alloc, text, edition))
        && parse_spans_within(alloc, text, edition, bound)
            == Ok(parse_spans_edition(alloc, text, edition))
        && parse_runtime_spans_within(alloc, text, edition, bound)
            == Ok(parse_runtime_spans_edition(alloc, text, edition))
}

/// Whether no call reads it within the bound.
fn is_refused(alloc: Global, text: &str, edition: Edition, bound: usize) -> bool {
    parse_within(alloc, text, edition, bound) == Err(TooDeep)
        && parse_runtime_within(alloc, text, edition, bound) == Err(TooDeep)
        && parse_spans_within(alloc, text, edition, bound) == Err(TooDeep)
        && parse_runtime_spans_within(alloc, text, edition, bound) == Err(TooDeep)
}
