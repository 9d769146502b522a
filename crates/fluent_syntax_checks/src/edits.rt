//! Edits of many texts: each value can be set, and hardly any other edit is refused, which no clause says.

use crate::tables::column;
use crate::tables::edits::{made, tree_of};
use fluent_syntax::ast::{Entry, Resource};
use std::alloc::Global;
use std::fs::Files;

/// What is new, in turn.
const NEW: [&str; 4] = [
    "x = y",
    "x =\n    y { $z }\n    w",
    "x = { $y ->\n *[z] w\n }",
    "# c\nx = { \"\" } y\n    .z = w",
];

/// The edits that were made, and all that were tried.
#[derive(Clone, Copy)]
struct Count {
    made: u64,
    tried: u64,
}

impl Count {
    const NONE: Count = Count { made: 0, tried: 0 };

    /// With one edit more.
    fn with(self, made: bool) -> Count {
        Count {
            made: self.made.saturating_add(u64::from(made)),
            tried: self.tried.saturating_add(1),
        }
    }
}

/// How many texts of the corpus are put before others.
const BEFORE: usize = 107;

/// Makes edits of each text of the corpus after another, and prints how many were made; whether a value was not set,
/// or half of the other edits were refused.
pub(crate) fn many<R: Files + Print + AllocGlobal>(rt: &R) -> anyhow::Result<bool> {
    let texts = column(rt, "corpus.tsv", 0)?;
    let (mut values, mut entries) = (Count::NONE, Count::NONE);
    for (number, text) in texts.iter().enumerate() {
        let Some(before) = texts.get(number.wrapping_mul(7) % BEFORE) else {
            anyhow::bail!("the corpus is short");
        };
        let both = format!(in rt.alloc(); "{before}\n{text}")?;
        let new = tree_of(rt.alloc(), NEW[number % 4])?;
        let tree = tree_of(rt.alloc(), both.as_str())?;
        for (index, entry) in tree.body.iter().enumerate() {
            values = with_values(rt.alloc(), both.as_str(), index, entry, &new, values);
            for call in ["replace", "insert", "remove"] {
                let is_made = is_made(rt.alloc(), both.as_str(), call, index, 0, &new);
                entries = entries.with(is_made);
            }
        }
    }
    let (set, there, made, tried) = (values.made, values.tried, entries.made, entries.tried);
    println!(rt; "{set} of {there} values set, {made} of {tried} edits of entries made")?;
    Ok(set < there || made <= tried / 2)
}

/// With the settings of each value of the entry.
fn with_values(
    alloc: Global,
    text: &str,
    index: usize,
    entry: &Entry<&str>,
    new: &Resource<&str>,
    before: Count,
) -> Count {
    let (has_value, attributes) = match entry {
        Entry::Message(message) => (message.value.is_some(), message.attributes.len()),
        Entry::Term(term) => (true, term.attributes.len()),
        _ => (false, 0),
    };
    let mut count = before;
    if has_value {
        count = count.with(is_made(alloc, text, "set_value", index, 0, new));
    }
    for attribute in 0..attributes {
        count = count.with(is_made(alloc, text, "set_attribute", index, attribute, new));
    }
    count
}

fn is_made(
    alloc: Global,
    text: &str,
    call: &str,
    index: usize,
    attribute: usize,
    new: &Resource<&str>,
) -> bool {
    match made(alloc, text, call, index, attribute, new) {
        Some(made) => made.is_ok(),
        None => false,
    }
}
