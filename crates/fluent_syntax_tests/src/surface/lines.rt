//! Lines and columns of errors, as a caller asks for them: nothing has to be shown of a place.

use crate::alike::{assert_holds, assert_same};
use fluent_syntax::parser::{ParseFault, parse, parse_runtime, recovered};
use fluent_syntax::spans::{Lines, line_column, parse_spans};
use std::alloc::Global;
use std::test::Fail;

/// Line and column of the last error of the text, or (0, 0) where it has none.
fn last_place(alloc: Global, text: &str) -> (usize, usize) {
    let mut last = (0, 0);
    if let Err(ParseFault::Syntax(_, errors)) = parse(alloc, text) {
        for error in &errors {
            last = line_column(text, error.pos.start);
        }
    }
    last
}

/// The same of the text without comments.
fn last_runtime_place(alloc: Global, text: &str) -> (usize, usize) {
    let mut last = (0, 0);
    if let Err(ParseFault::Syntax(_, errors)) = parse_runtime(alloc, text) {
        for error in &errors {
            last = line_column(text, error.pos.start);
        }
    }
    last
}

/// The same of the errors of the tree of spans.
fn last_place_of_spans(alloc: Global, text: &str) -> (usize, usize) {
    let mut last = (0, 0);
    if let Err(ParseFault::Syntax(_, errors)) = parse_spans(alloc, text) {
        for error in &errors {
            last = line_column(text, error.pos.start);
        }
    }
    last
}

#[test]
fn places_of_errors(rt: HostRuntime) -> Result<(), Fail> {
    let alloc = rt.alloc();
    for (text, place) in [
        ("key = { \"a\nb\" }", (2, 2)),
        ("key = é }", (1, 10)),
        ("a = b\n", (0, 0)),
    ] {
        assert_same(alloc, text, &last_place(alloc, text), &place)?;
        assert_same(alloc, text, &last_runtime_place(alloc, text), &place)?;
        assert_same(alloc, text, &last_place_of_spans(alloc, text), &place)?;
    }
    Ok(())
}

/// How many entries the recovered tree has, and how many errors come with it.
fn recovered_counts(alloc: Global, text: &str) -> Result<(usize, usize), Fail> {
    let (tree, errors) = recovered(alloc, parse(alloc, text))?;
    Ok((tree.body.len(), errors.len()))
}

#[test]
fn a_tree_and_its_errors(rt: HostRuntime) -> Result<(), Fail> {
    let alloc = rt.alloc();
    let broken = recovered_counts(alloc, "key = a\nbro ken = b\n")?;
    assert_holds(alloc, "one error", broken == (2, 1))?;
    let whole = recovered_counts(alloc, "key = a\n")?;
    assert_holds(alloc, "none", whole == (1, 0))
}

#[test]
fn places_in_any_order(rt: HostRuntime) -> Result<(), Fail> {
    let alloc = rt.alloc();
    let mut lines = Lines::new("ab\ncd\n");
    assert_same(alloc, "byte 0", &lines.line_column(0), &(1, 1))?;
    assert_same(alloc, "byte 4", &lines.line_column(4), &(2, 2))?;
    assert_same(alloc, "byte 6", &lines.line_column(6), &(3, 1))?;
    assert_same(alloc, "byte 2", &lines.line_column(2), &(1, 3))
}
