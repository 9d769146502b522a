//! Writes trees, which come as JSON from standard input, one a line, and reads them back: just the canonical ones are
//! read back as they are, once they are joined.

use crate::texts::round_trips::reads_as;
use fluent_syntax::ast::Resource;
use fluent_syntax::laws::{is_canonical, joined};
use fluent_syntax::parser::Edition;
use fluent_syntax_json::{from_value, to_value};
use serde_json::Value;
use std::alloc::{AllocError, Global};
use std::io;

/// What was seen of trees.
#[derive(Clone, Copy)]
struct Seen {
    trees: u64,
    /// How many are canonical by edition one, and by edition two.
    by_one: u64,
    by_two: u64,
    broken: u64,
}

/// Prints each tree for which that doesn't hold, and what was seen of all; whether there was one.
pub(crate) fn read_back<R: Input + Print + AllocGlobal>(rt: &R) -> anyhow::Result<bool> {
    let text = io::read_to_string(rt.alloc(), rt.reader())?;
    let mut seen = Seen {
        trees: 0,
        by_one: 0,
        by_two: 0,
        broken: 0,
    };
    for line in text.lines() {
        let value = Value::from_str(rt.alloc(), line)?;
        let Ok(tree) = from_value(rt.alloc(), &value) else {
            anyhow::bail!("no tree: {line}");
        };
        let is_same = to_value(rt.alloc(), &tree)? == value;
        let (by_one, is_one_kept) = is_kept(rt.alloc(), &tree, Edition::One)?;
        let (by_two, is_two_kept) = is_kept(rt.alloc(), &tree, Edition::Two)?;
        let is_broken = !(is_same && is_one_kept && is_two_kept);
        if is_broken {
            println!(rt; "not so: {line}")?;
        }
        seen = Seen {
            trees: seen.trees.saturating_add(1),
            by_one: seen.by_one.saturating_add(u64::from(by_one)),
            by_two: seen.by_two.saturating_add(u64::from(by_two)),
            broken: seen.broken.saturating_add(u64::from(is_broken)),
        };
    }
    let Seen {
        trees,
        by_one,
        by_two,
        broken,
    } = seen;
    println!(rt;
        "{trees} trees, {by_one} canonical by edition one, {by_two} by edition two, {broken} broken"
    )?;
    Ok(broken > 0)
}

/// Whether the joined tree is canonical, and whether it is read back just then.
fn is_kept(
    alloc: Global,
    tree: &Resource<String>,
    edition: Edition,
) -> Result<(bool, bool), AllocError> {
    let whole = joined(alloc, tree)?;
    let canonical = is_canonical(&whole, edition);
    let is_kept = canonical == reads_as(alloc, &whole, &whole, edition)?;
    Ok((canonical, is_kept))
}
