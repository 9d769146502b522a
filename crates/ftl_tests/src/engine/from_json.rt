//! Trees as JSON, and the texts that they are written as.

use fluent_syntax::ast::Resource;
use fluent_syntax::laws::Rule;
use fluent_syntax::parser::{Edition, parse};
use fluent_syntax_tests::alike::{assert_holds, assert_same, assert_same_text};
use ftl::{JsonFault, first_lossy_entry, text_of_json, tree_of_json};
use std::alloc::Global;
use std::test::Fail;

const MESSAGE: &str =
    "{\"body\":[{\"type\":\"Message\",\"id\":{\"name\":\"close\"},\"value\":{\"elements\":\
    [{\"type\":\"TextElement\",\"value\":\"Close\"}]},\"attributes\":[],\"comment\":null}]}";

#[test]
fn texts(rt: HostRuntime) -> Result<(), Fail> {
    let alloc = rt.alloc();
    match text_of_json(alloc, MESSAGE) {
        Ok(text) => assert_same_text(alloc, "a message", text.as_str(), "close = Close\n")?,
        Err(_) => assert_holds(alloc, "a message", false)?,
    }
    match tree_of_json(alloc, "{\"body\":[]}") {
        Ok(tree) => assert_holds(alloc, "no entry", tree.body.is_empty()),
        Err(_) => assert_holds(alloc, "no entry", false),
    }
}

#[test]
fn faults(rt: HostRuntime) -> Result<(), Fail> {
    let alloc = rt.alloc();
    match text_of_json(alloc, "{\"body\":1}") {
        Err(JsonFault::Shape) => assert_same(alloc, "the status", &JsonFault::Shape.status(), &3)?,
        _ => assert_holds(alloc, "another shape", false)?,
    }
    let mut deep = String::new(alloc);
    for _ in 0..200 {
        deep.push('[')?;
    }
    match text_of_json(alloc, deep.as_str()) {
        Err(JsonFault::TooDeep) => (),
        _ => assert_holds(alloc, "too deep", false)?,
    }
    match text_of_json(alloc, "{\"body\":[}") {
        Err(JsonFault::Syntax(1, _)) => Ok(()),
        _ => assert_holds(alloc, "no JSON", false),
    }
}

/// A text, and the rule by which it would not read back.
type Lossy = (&'static str, Option<(usize, Rule)>);

const LOSSY: [Lossy; 3] = [
    ("a = b\n", None),
    ("a = b\nc = { $x ->\n *}\n", Some((1, Rule::NoDefault))),
    ("key =\n{$x}\n    b\n", Some((0, Rule::CommonIndent))),
];

fn assert_lossy(alloc: Global, row: &Lossy) -> Result<(), Fail> {
    let (text, wanted) = row;
    let Ok(tree) = parse(alloc, *text) else {
        return assert_holds(alloc, *text, false);
    };
    assert_first(alloc, *text, &tree, wanted)
}

fn assert_first(
    alloc: Global,
    text: &str,
    tree: &Resource<&str>,
    wanted: &Option<(usize, Rule)>,
) -> Result<(), Fail> {
    let found = first_lossy_entry(alloc, tree, Edition::One)?;
    let found = found.map(|found| (found.entry, found.rule));
    assert_same(alloc, text, &found, wanted)
}

#[test]
fn lossy_entries(rt: HostRuntime) -> Result<(), Fail> {
    for row in &LOSSY {
        assert_lossy(rt.alloc(), row)?;
    }
    Ok(())
}
