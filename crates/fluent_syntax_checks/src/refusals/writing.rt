//! The serializer, unescaping, and trees that are joined, or written and read again.

use crate::refusals::answers::{HELD, Sunk};
use crate::refusals::tally::Tally;
use crate::refusals::trees::borrowed_tree;
use crate::refusals::turns::{nothing, over, refuse_each_request};
use fluent_syntax::laws::{joined, reparse};
use fluent_syntax::serializer::{Options, serialize, serialize_to, serialize_with_options};
use fluent_syntax::unicode::{unescape_unicode, unescape_unicode_to_string};
use std::alloc::{AllocError, Global};
use std::io;

pub(crate) fn calls<R: Print + AllocGlobal>(
    rt: &R,
    texts: &[&str],
    escaped: &[&str],
) -> io::Result<Tally> {
    let trees = over(rt, "serializing", texts, write_text)?;
    let escaped = over(rt, "unescaping", escaped, unescape)?;
    let corpus = over(rt, "unescaping the corpus", texts, unescape)?;
    let again = over(rt, "reparse", texts, read_again)?;
    let whole = over(rt, "joined", texts, joined_once)?;
    Ok(trees.and(escaped).and(corpus).and(again).and(whole))
}

/// The three ways to write a text's tree.
fn write_text(alloc: Global, text: &str) -> Result<Tally, AllocError> {
    let (tree, _errors) = borrowed_tree(alloc, text)?;
    let options = Options { with_junk: true };
    let plain = refuse_each_request(alloc, nothing, |_| serialize(alloc, &tree))?;
    let with_junk = refuse_each_request(
        alloc,
        nothing,
        |_| serialize_with_options(alloc, &tree, options),
    )?;
    let sunk = refuse_each_request(
        alloc,
        || String::from_str(alloc, HELD),
        |mut sink| Sunk {
            answer: serialize_to(&mut sink, &tree, options),
            sink,
        },
    )?;
    Ok(plain.and(with_junk).and(sunk))
}

/// A text's tree written and read again.
fn read_again(alloc: Global, text: &str) -> Result<Tally, AllocError> {
    let (tree, _errors) = borrowed_tree(alloc, text)?;
    refuse_each_request(alloc, nothing, |_| reparse(alloc, &tree))
}

/// A text's tree joined.
fn joined_once(alloc: Global, text: &str) -> Result<Tally, AllocError> {
    let (tree, _errors) = borrowed_tree(alloc, text)?;
    refuse_each_request(alloc, nothing, |_| joined(alloc, &tree))
}

/// Both ways to unescape a text.
fn unescape(alloc: Global, text: &str) -> Result<Tally, AllocError> {
    let sunk = refuse_each_request(
        alloc,
        || String::from_str(alloc, HELD),
        |mut sink| Sunk {
            answer: unescape_unicode(&mut sink, text),
            sink,
        },
    )?;
    let given = refuse_each_request(alloc, nothing, |_| unescape_unicode_to_string(alloc, text))?;
    Ok(sunk.and(given))
}
