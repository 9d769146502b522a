//! Replays tables of rows with known answers, and counts the rows that are answered otherwise.
//!
//! A table is a file `NAME.tsv`. A row is a line of fields as in `texts.tsv`: first what it shows, then what is asked,
//! and last the answer.

pub(crate) mod edits;
mod errors;
mod nesting;
mod places;
mod trees;
mod unescaped;
mod values;

use crate::texts::escapes::unescaped_field;
use std::alloc::{AllocError, Global};
use std::fs::{self, Files};
use std::io;

const NAMES: [&str; 10] = [
    "edits",
    "entries",
    "errors",
    "nesting",
    "ranges",
    "spans",
    "tiles",
    "trees",
    "unescaped",
    "values",
];

/// Replays each table, and gives how many rows are answered otherwise.
pub(crate) fn replay<R: Files + Print + AllocGlobal>(rt: &R) -> anyhow::Result<u64> {
    let mut different = 0u64;
    for name in NAMES {
        different = different.saturating_add(replay_table(rt, name)?);
    }
    Ok(different)
}

/// Prints each row of the table that is answered otherwise, and how many they are, which it gives.
fn replay_table<R: Files + Print + AllocGlobal>(rt: &R, name: &str) -> anyhow::Result<u64> {
    let file = format!(in rt.alloc(); "{name}.tsv")?;
    let table = fs::read_to_string(rt, file.as_str())?;
    let (mut rows, mut different) = (0u64, 0u64);
    for line in table.lines() {
        rows = rows.saturating_add(1);
        let fields = fields_of(rt.alloc(), line)?;
        let got = answer_of(rt.alloc(), name, &fields)?;
        if fields.last() != Some(&got) {
            different = different.saturating_add(1);
            println!(rt; "{name}: {got:?} in place of: {line}")?;
        }
    }
    println!(rt; "{name}: {rows} rows, {different} differences")?;
    Ok(different)
}

/// The field of that number of each row of a file.
pub(crate) fn column<R: Files + AllocGlobal>(
    rt: &R,
    file: &str,
    number: usize,
) -> io::Result<Vec<String>> {
    let table = fs::read_to_string(rt, file)?;
    let mut column = Vec::new(rt.alloc());
    for line in table.lines() {
        if let Some(field) = line.split('\t').skip(number).next() {
            column.push(unescaped_field(rt.alloc(), field)?)?;
        }
    }
    Ok(column)
}

/// The texts, lent.
pub(crate) fn lent(alloc: Global, texts: &[String]) -> Result<Vec<&str>, AllocError> {
    let mut lent = Vec::new(alloc);
    for text in texts {
        lent.push(text.as_str())?;
    }
    Ok(lent)
}

/// The fields of a line.
fn fields_of(alloc: Global, line: &str) -> Result<Vec<String>, AllocError> {
    let mut fields = Vec::new(alloc);
    for field in line.split('\t') {
        fields.push(unescaped_field(alloc, field)?)?;
    }
    Ok(fields)
}

/// What the library answers to a row of the table.
fn answer_of(alloc: Global, name: &str, fields: &[String]) -> anyhow::Result<String> {
    match name {
        "edits" => edits::answer(alloc, fields),
        "entries" => places::entries(alloc, fields),
        "errors" => errors::answer(alloc, fields),
        "nesting" => nesting::answer(alloc, fields),
        "ranges" => places::ranges(alloc, fields),
        "spans" => places::spans(alloc, fields),
        "tiles" => places::tiles(alloc, fields),
        "trees" => trees::answer(alloc, fields),
        "unescaped" => unescaped::answer(alloc, fields),
        "values" => values::answer(alloc, fields),
        _ => no_row(alloc),
    }
}

/// The answer to what is no row of a table.
fn no_row(alloc: Global) -> anyhow::Result<String> {
    Ok(String::from_str(alloc, "no row of this table")?)
}
