//! Takes each text of the corpus through each call that takes memory, with its first request for memory
//! refused, then its second and so on, and counts the answers that are neither the answer with ample
//! memory nor want of memory.
//!
//! A library that is loaded before the C library refuses the requests (`tests/refuse.c`). Without it
//! none is refused, and each call has to answer the same twice.

mod answers;
mod json;
mod parsing;
mod program;
mod requests;
mod tally;
mod trees;
mod turns;
mod writing;

use crate::refusals::tally::Tally;
use crate::tables::{column, lent};
use std::fs::Files;
use std::io;

/// Prints what was seen of each call, and gives what was seen in all.
pub(crate) fn calls<R: Files + Print + AllocGlobal>(rt: &R) -> io::Result<Tally> {
    let corpus = column(rt, "corpus.tsv", 0)?;
    let escaped = column(rt, "unescaped.tsv", 0)?;
    let values = column(rt, "values.tsv", 1)?;
    let texts = lent(rt.alloc(), &corpus)?;
    let total = parsing::calls(rt, &texts)?
        .and(trees::calls(rt, &texts)?)
        .and(writing::calls(rt, &texts, &lent(rt.alloc(), &escaped)?)?)
        .and(json::calls(rt, &texts, &lent(rt.alloc(), &values)?)?)
        .and(program::calls(rt, &texts)?);
    let Tally { refused, wrong } = total;
    println!(rt; "in all: {refused} requests refused, {wrong} wrong answers")?;
    Ok(total)
}
