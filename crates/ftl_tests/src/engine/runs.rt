//! What each command writes of a text, as an answer and over a reader and a writer.

use crate::engine::ends::{Drip, Narrow, end_within, ends_so};
use fluent_syntax_tests::alike::{assert_holds, assert_same, assert_same_text};
use ftl::{Command, Outcome, answer, answer_within};
use serde_json::Value;
use std::alloc::Global;
use std::test::Fail;

/// The command, what it shows, the input, the text, and how it ends.
type Row = (Command, &'static str, &'static str, &'static str, Outcome);

const ROWS: [Row; 3] = [
    (
        Command::Check,
        "errors by line and column",
        "\nkey1 = Value 1\n\ng@Rb@ge = #2y ds\n\nkey2 = Value 2\n\n",
        "4:2 18..19 17..35 ExpectedToken\n",
        Outcome::SyntaxErrors,
    ),
    (
        Command::Runtime,
        "comments are dropped",
        "## g\n\n# f\n\n# m\nkey = v\n",
        "key = v\n",
        Outcome::Clean,
    ),
    (
        Command::FormatTwo,
        "a placeable at column 0",
        "key =\n{x}\n    b\n",
        "key =\n    { x }\n        b\n",
        Outcome::Clean,
    ),
];

fn assert_answered(alloc: Global, row: &Row) -> Result<(), Fail> {
    let (command, shows, input, expected, end) = row;
    let Ok((text, outcome)) = answer(alloc, *command, input.as_bytes()) else {
        return Err("no answer".into());
    };
    assert_same(alloc, *shows, &outcome, end)?;
    assert_same_text(alloc, *shows, text.as_str(), *expected)
}

#[test]
fn answers(rt: HostRuntime) -> Result<(), Fail> {
    for row in &ROWS {
        assert_answered(rt.alloc(), row)?;
    }
    Ok(())
}

fn assert_run(alloc: Global, row: &Row) -> Result<(), Fail> {
    let (command, shows, input, expected, end) = row;
    let reader = Drip::whole(input.as_bytes());
    let writer = Narrow::wide(alloc);
    let is_so = ends_so(
        alloc,
        *command,
        reader,
        writer,
        Ok(*end),
        expected.as_bytes(),
    );
    assert_holds(alloc, *shows, is_so)
}

#[test]
fn runs(rt: HostRuntime) -> Result<(), Fail> {
    for row in &ROWS {
        assert_run(rt.alloc(), row)?;
    }
    Ok(())
}

/// A text with an argument list in a placeable.
const NESTED: &str = "key = { F($x) }\n";

#[test]
fn answers_within_a_bound(rt: HostRuntime) -> Result<(), Fail> {
    let alloc = rt.alloc();
    let input = NESTED.as_bytes();
    match answer_within(alloc, Command::Format, input, 2) {
        Ok(Ok((text, Outcome::Clean))) => {
            assert_same_text(alloc, "within 2", text.as_str(), NESTED)?
        }
        _ => assert_holds(alloc, "an answer within 2", false)?,
    }
    let is_refused = answer_within(alloc, Command::Json, input, 1).is_err();
    assert_holds(alloc, "within 1", is_refused)
}

#[test]
fn runs_within_a_bound(rt: HostRuntime) -> Result<(), Fail> {
    let alloc = rt.alloc();
    let (ended, written) = end_within(alloc, Command::Runtime, 2, NESTED);
    assert_holds(alloc, "within 2", ended == Ok(Ok(Outcome::Clean)))?;
    assert_holds(alloc, "written", written.as_slice() == NESTED.as_bytes())?;
    let (refused, none) = end_within(alloc, Command::Runtime, 1, NESTED);
    assert_holds(alloc, "within 1", refused.is_err() && none.is_empty())
}

/// A text, and the value of its tree.
const TEXT: &str = "key = { $x }";

const VALUE: &str =
    "{\"body\":[{\"type\":\"Message\",\"id\":{\"name\":\"key\"},\"value\":{\"elements\":[{\"type\":\"Placeable\",\
    \"expression\":{\"type\":\"VariableReference\",\"id\":{\"name\":\"x\"}}}]},\"attributes\":[],\"comment\":null}]}";

/// Whether the text is one line of the value.
fn is_line_of_value(alloc: Global, text: &str) -> Result<bool, Fail> {
    let Some((_, rest)) = text.split_once('\n') else {
        return Ok(false);
    };
    Ok(rest.is_empty() && Value::from_str(alloc, text)? == Value::from_str(alloc, VALUE)?)
}

/// Whether a run writes the text.
fn is_written(alloc: Global, text: &str) -> bool {
    let reader = Drip::whole(TEXT.as_bytes());
    let writer = Narrow::wide(alloc);
    let end = Ok(Outcome::Clean);
    ends_so(alloc, Command::Json, reader, writer, end, text.as_bytes())
}

#[test]
fn a_value_on_one_line(rt: HostRuntime) -> Result<(), Fail> {
    let alloc = rt.alloc();
    let Ok((text, Outcome::Clean)) = answer(alloc, Command::Json, TEXT.as_bytes()) else {
        return Err("no answer".into());
    };
    let is_so = is_line_of_value(alloc, text.as_str())? && is_written(alloc, text.as_str());
    assert_holds(alloc, "one line", is_so)
}
