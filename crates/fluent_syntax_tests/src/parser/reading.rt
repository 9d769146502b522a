//! The calls that read a whole text: the tree, and the errors of what is junk.

use crate::alike::{assert_holds, assert_same};
use crate::made::{comment, message_with_value};
use fluent_syntax::ast::{Entry, Resource};
use fluent_syntax::parser::{
    Edition, ErrorKind, ParserError, Result as Answer, parse, parse_edition, parse_runtime,
    parse_runtime_edition, recovered,
};
use std::alloc::{AllocError, Global};
use std::test::Fail;

/// Fails where the answer has another tree, or other errors.
fn assert_answer(
    alloc: Global,
    shows: &str,
    answer: Answer<&'static str>,
    body: Vec<Entry<&'static str>>,
    errors: &[ParserError],
) -> Result<(), Fail> {
    let is_clean = answer.is_ok();
    let (tree, found) = recovered(alloc, answer)?;
    assert_same(alloc, shows, &tree, &Resource { body })?;
    let are_same = found.as_slice() == errors && is_clean == errors.is_empty();
    assert_holds(alloc, shows, are_same)
}

#[test]
fn entries(rt: HostRuntime) -> Result<(), Fail> {
    let alloc = rt.alloc();
    let body = vec![in alloc;
        Entry::GroupComment(comment(alloc, &["c"])?),
        message_with_value(alloc, "key", &["a", "$x"])?,
    ]?;
    let answer = parse(alloc, "## c\n\nkey = a{ $x }\n");
    assert_answer(alloc, "a comment and a message", answer, body, &[])?;
    let blank = parse(alloc, "\n  \r\n");
    assert_answer(alloc, "blank lines", blank, Vec::new(alloc), &[])
}

/// The error of a stretch of junk.
fn error_of(
    alloc: Global,
    place: usize,
    junk: (usize, usize),
    range: Option<&str>,
) -> Result<ParserError, AllocError> {
    let kind = match range {
        Some(range) => ErrorKind::ExpectedCharRange {
            range: String::from_str(alloc, range)?,
        },
        None => ErrorKind::ExpectedToken('='),
    };
    Ok(ParserError {
        pos: place..place.saturating_add(1),
        slice: Some(junk.0..junk.1),
        kind,
    })
}

#[test]
fn errors(rt: HostRuntime) -> Result<(), Fail> {
    let alloc = rt.alloc();
    let body = vec![in alloc;
        message_with_value(alloc, "a", &["b"])?,
        Entry::Junk { content: "c\n" },
        message_with_value(alloc, "d", &["e"])?,
        Entry::Junk { content: "1\n" },
    ]?;
    let errors = [
        error_of(alloc, 7, (6, 8), None)?,
        error_of(alloc, 14, (14, 16), Some("a-zA-Z"))?,
    ];
    let answer = parse(alloc, "a = b\nc\nd = e\n1\n");
    assert_answer(alloc, "two of four", answer, body, &errors)
}

/// A malformed comment is dropped with its line.
#[test]
fn without_comments(rt: HostRuntime) -> Result<(), Fail> {
    let alloc = rt.alloc();
    let body = vec![in alloc;
        Entry::Junk { content: "  foo\n" },
        message_with_value(alloc, "key", &["a"])?,
    ]?;
    let errors = [error_of(alloc, 3, (3, 9), Some("a-zA-Z"))?];
    let answer = parse_runtime(alloc, "#x\n  foo\nkey = a");
    assert_answer(alloc, "a malformed comment", answer, body, &errors)
}

/// Fails where the answer is not just a message of these elements.
fn assert_elements(
    alloc: Global,
    shows: &str,
    answer: Answer<&'static str>,
    elements: &[&'static str],
) -> Result<(), Fail> {
    let body = vec![in alloc; message_with_value(alloc, "key", elements)?]?;
    assert_answer(alloc, shows, answer, body, &[])
}

/// Surplus spaces before a placeable are a text in edition two.
#[test]
fn by_edition(rt: HostRuntime) -> Result<(), Fail> {
    let alloc = rt.alloc();
    let text = "key =\n    a\n      {x}\n";
    let (one, two) = (["a\n", "@x"], ["a\n", "  ", "@x"]);
    let answer = parse_edition(alloc, text, Edition::One);
    assert_elements(alloc, "edition one", answer, &one)?;
    let answer = parse_runtime_edition(alloc, text, Edition::One);
    assert_elements(alloc, "edition one without comments", answer, &one)?;
    let answer = parse_edition(alloc, text, Edition::Two);
    assert_elements(alloc, "edition two", answer, &two)?;
    let answer = parse_runtime_edition(alloc, text, Edition::Two);
    assert_elements(alloc, "edition two without comments", answer, &two)
}
