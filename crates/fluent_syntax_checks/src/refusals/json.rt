//! JSON values of trees, JSON texts of trees, and trees of values.

use crate::refusals::answers::{HELD, Sunk};
use crate::refusals::tally::Tally;
use crate::refusals::trees::{borrowed_tree, owned_tree};
use crate::refusals::turns::{nothing, over, refuse_each_request};
use fluent_syntax_json::{from_value, to_value, write_to};
use serde_json::Value;
use std::alloc::{AllocError, Global};
use std::io;

pub(crate) fn calls<R: Print + AllocGlobal>(
    rt: &R,
    texts: &[&str],
    values: &[&str],
) -> io::Result<Tally> {
    let formed = over(rt, "to_value", texts, write_form)?;
    let forms = over(rt, "from_value of forms", texts, read_form)?;
    let values = over(rt, "from_value", values, read_value)?;
    let texts = over(rt, "write_to", texts, write_text)?;
    Ok(formed.and(forms).and(values).and(texts))
}

/// The value of a text's tree.
fn write_form(alloc: Global, text: &str) -> Result<Tally, AllocError> {
    let tree = owned_tree(alloc, text)?;
    refuse_each_request(alloc, nothing, |_| to_value(alloc, &tree))
}

/// The JSON text of a text's tree.
fn write_text(alloc: Global, text: &str) -> Result<Tally, AllocError> {
    let (tree, _errors) = borrowed_tree(alloc, text)?;
    refuse_each_request(
        alloc,
        || String::from_str(alloc, HELD),
        |mut sink| Sunk {
            answer: write_to(&mut sink, &tree),
            sink,
        },
    )
}

/// The tree of the form of a text's tree.
fn read_form(alloc: Global, text: &str) -> Result<Tally, AllocError> {
    read_tree(alloc, &to_value(alloc, &owned_tree(alloc, text)?)?)
}

/// The tree of a value that is given as JSON, if it spells one.
fn read_value(alloc: Global, json: &str) -> Result<Tally, AllocError> {
    match Value::from_str(alloc, json) {
        Ok(value) => read_tree(alloc, &value),
        Err(_) => Err(AllocError),
    }
}

/// The tree of a value.
fn read_tree(alloc: Global, value: &Value) -> Result<Tally, AllocError> {
    refuse_each_request(alloc, nothing, |_| from_value(alloc, value))
}
