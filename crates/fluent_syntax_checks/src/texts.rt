//! Replays the texts of `texts.tsv` through the engine of `ftl`, and counts the answers that differ; and reads back
//! what is written of them, by both editions of the grammar.
//!
//! A line holds a text and its answers, separated by tabs and escaped: the text, then for `check`,
//! `format`, `runtime`, `check-two`, `format-two` and `json` the exit status, a colon and the output.
//! The outputs of `json` are compared as values, since an object's keys may come in any order.

pub(crate) mod escapes;
pub(crate) mod round_trips;

use crate::texts::escapes::{text_of, unescaped_field};
use crate::texts::round_trips::RoundTrips;
use fluent_syntax::parser::Edition;
use ftl::{Command, answer};
use serde_json::Value;
use std::alloc::{AllocError, Global};
use std::fs::{self, Files};

/// The commands in the order of the columns, up to that of `json`.
const COMMANDS: [Command; 5] = [
    Command::Check,
    Command::Format,
    Command::Runtime,
    Command::CheckTwo,
    Command::FormatTwo,
];

pub(crate) fn replay<R: Files + Print + AllocGlobal>(rt: &R) -> anyhow::Result<()> {
    let table = fs::read_to_string(rt, "texts.tsv")?;
    let mut texts = 0u64;
    let mut differences = 0u64;
    let mut by_one = RoundTrips::new(Edition::One);
    let mut by_two = RoundTrips::new(Edition::Two);
    for line in table.lines() {
        texts = texts.saturating_add(1);
        let text = text_of(rt.alloc(), line)?;
        let different = count_differing(rt.alloc(), text.as_str(), line)?;
        if different > 0 {
            println!(rt; "{different} answers differ: {line}")?;
        }
        differences = differences.saturating_add(different);
        let breaks_by_one = by_one.breaks_a_law(rt.alloc(), text.as_str())?;
        let breaks_by_two = by_two.breaks_a_law(rt.alloc(), text.as_str())?;
        if breaks_by_one || breaks_by_two {
            println!(rt; "a round trip is broken: {line}")?;
        }
    }
    println!(rt; "{texts} texts, {differences} differences")?;
    print_round_trips(rt, "one", by_one)?;
    print_round_trips(rt, "two", by_two)
}

fn print_round_trips<R: Print>(rt: &R, edition: &str, counted: RoundTrips) -> anyhow::Result<()> {
    let RoundTrips {
        canonical,
        broken,
        ..
    } = counted;
    println!(rt;
        "edition {edition}: {canonical} texts with a canonical tree, {broken} round trips broken"
    )?;
    Ok(())
}

/// How many answers of a line differ from those that the engine gives for its text.
fn count_differing(alloc: Global, text: &str, line: &str) -> anyhow::Result<u64> {
    let mut fields = line.split('\t').skip(1);
    let mut different = 0u64;
    for command in COMMANDS {
        let got = answer_text(alloc, command, text)?;
        let same = match fields.next() {
            Some(field) => unescaped_field(alloc, field)?.as_str() == got.as_str(),
            None => false,
        };
        if !same {
            different = different.saturating_add(1);
        }
    }
    let got = answer_text(alloc, Command::Json, text)?;
    let same = match fields.next() {
        Some(field) => is_same_value(alloc, unescaped_field(alloc, field)?.as_str(), got.as_str())?,
        None => false,
    };
    if !same {
        different = different.saturating_add(1);
    }
    Ok(different)
}

/// Whether both have one status, and values that are equal.
fn is_same_value(alloc: Global, expected: &str, got: &str) -> anyhow::Result<bool> {
    let Some((status, output)) = got.split_once(':') else {
        return Ok(false);
    };
    let Some((expected_status, expected_output)) = expected.split_once(':') else {
        return Ok(false);
    };
    if status != expected_status || !output.ends_with('\n') {
        return Ok(false);
    }
    Ok(Value::from_str(alloc, output)? == Value::from_str(alloc, expected_output)?)
}

/// What the engine answers: the exit status, a colon and the output.
fn answer_text(alloc: Global, command: Command, text: &str) -> Result<String, AllocError> {
    match answer(alloc, command, text.as_bytes()) {
        Ok((output, outcome)) => {
            let status = outcome.status();
            format!(in alloc; "{status}:{output}")
        }
        Err(fault) => fault.line().to_string(alloc),
    }
}
