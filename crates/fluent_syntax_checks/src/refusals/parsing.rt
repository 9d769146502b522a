//! The parsers, and trees of spans with the texts put back.

use crate::refusals::tally::Tally;
use crate::refusals::turns::{nothing, over, refuse_each_request};
use fluent_syntax::parser::{ParseFault, parse, parse_runtime};
use fluent_syntax::spans::{parse_runtime_spans, parse_spans, resolve};
use std::alloc::{AllocError, Global};
use std::io;

/// Texts of blank lines alone, which take no memory.
const BLANK: [&str; 3] = ["", "\n", "\n  \n"];

pub(crate) fn calls<R: Print + AllocGlobal>(rt: &R, texts: &[&str]) -> io::Result<Tally> {
    let blank = over(rt, "parse of blank texts", BLANK.as_slice(), read_blank)?;
    let lent = over(rt, "parse of lent texts", texts, read_tree)?;
    let owned = over(rt, "parse of owned texts", texts, read_owned)?;
    let spans = over(rt, "parse_spans", texts, read_spans)?;
    let resolved = over(rt, "resolve", texts, resolve_spans)?;
    Ok(blank.and(lent).and(owned).and(spans).and(resolved))
}

/// Both parsers over a lent text that takes no memory.
fn read_blank(alloc: Global, text: &str) -> Result<Tally, AllocError> {
    let tally = read_tree(alloc, text)?;
    Ok(tally.wrong_if(tally.refused > 0))
}

/// Both parsers over a lent text.
fn read_tree(alloc: Global, text: &str) -> Result<Tally, AllocError> {
    let whole = refuse_each_request(alloc, nothing, |_| parse(alloc, text))?;
    let runtime = refuse_each_request(alloc, nothing, |_| parse_runtime(alloc, text))?;
    Ok(whole.and(runtime))
}

/// Both parsers over an owned text.
fn read_owned(alloc: Global, text: &str) -> Result<Tally, AllocError> {
    let owned = || String::from_str(alloc, text);
    let whole = refuse_each_request(alloc, owned, |input: String| parse(alloc, input))?;
    let runtime = refuse_each_request(alloc, owned, |input: String| parse_runtime(alloc, input))?;
    Ok(whole.and(runtime))
}

/// Both parsers to spans.
fn read_spans(alloc: Global, text: &str) -> Result<Tally, AllocError> {
    let whole = refuse_each_request(alloc, nothing, |_| parse_spans(alloc, text))?;
    let runtime = refuse_each_request(alloc, nothing, |_| parse_runtime_spans(alloc, text))?;
    Ok(whole.and(runtime))
}

/// The texts put back, lent and owned, in a tree of spans.
fn resolve_spans(alloc: Global, text: &str) -> Result<Tally, AllocError> {
    let tree = match parse_spans(alloc, text) {
        Ok(tree) => tree,
        Err(ParseFault::Syntax(tree, _errors)) => tree,
        Err(ParseFault::Memory) => return Err(AllocError),
    };
    let source = String::from_str(alloc, text)?;
    let lent = refuse_each_request(alloc, nothing, |_| resolve(alloc, &text, &tree))?;
    let owned = refuse_each_request(alloc, nothing, |_| resolve(alloc, &source, &tree))?;
    Ok(lent.and(owned))
}
