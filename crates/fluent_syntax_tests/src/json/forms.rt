//! JSON values of trees, and trees of JSON values.

use crate::alike::assert_holds;
use crate::made::owned_tree;
use fluent_syntax::ast::Resource;
use fluent_syntax_json::{ValueFault, form_reads, from_value, to_value};
use serde_json::Value;
use std::alloc::Global;
use std::test::Fail;

/// Whether the tree has the form.
fn has_form(alloc: Global, tree: &Resource<String>, form: &str) -> Result<bool, Fail> {
    let value = to_value(alloc, tree)?;
    Ok(value == Value::from_str(alloc, form)?)
}

/// Whether the tree is what its own form is read as.
fn is_read_back(alloc: Global, tree: &Resource<String>) -> Result<bool, Fail> {
    let value = to_value(alloc, tree)?;
    match from_value(alloc, &value) {
        Ok(back) => Ok(back == *tree),
        Err(_) => Ok(false),
    }
}

/// A text, and the JSON form of its tree.
const TEXT: &str = "# a\n\nk = b{ $x }\n";

const FORM: &str =
    r#"{"body":[{"type":"Comment","content":["a"]},{"type":"Message","id":{"name":"k"},
    "value":{"elements":[{"type":"TextElement","value":"b"},{"type":"Placeable",
    "expression":{"type":"VariableReference","id":{"name":"x"}}}]},"attributes":[],"comment":null}]}"#;

#[test]
fn forms_there_and_back(rt: HostRuntime) -> Result<(), Fail> {
    let alloc = rt.alloc();
    let tree = owned_tree(alloc, TEXT)?;
    let is_so = has_form(alloc, &tree, FORM)? && is_read_back(alloc, &tree)?;
    assert_holds(alloc, "a comment and a message", is_so)
}

/// What the text of a value spells.
fn read(alloc: Global, text: &str) -> Result<Result<Resource<String>, ValueFault>, Fail> {
    let value = Value::from_str(alloc, text)?;
    Ok(from_value(alloc, &value))
}

#[test]
fn values_that_are_no_forms(rt: HostRuntime) -> Result<(), Fail> {
    let alloc = rt.alloc();
    let Ok(tree) = read(
        alloc,
        r#"{"body":[{"type":"Comment","content":"a"}],"x":1}"#,
    )?
    else {
        return assert_holds(alloc, "no tree", false);
    };
    form_reads(&tree);
    let form = r#"{"body":[{"type":"Comment","content":["a"]}]}"#;
    assert_holds(alloc, "an unknown key", has_form(alloc, &tree, form)?)?;
    let is_refused = read(alloc, "{}")? == Err(ValueFault::Shape);
    assert_holds(alloc, "an object without the key", is_refused)
}

/// A message of so many placeables in one another.
fn deep_text(alloc: Global, depth: usize) -> Result<String, Fail> {
    let mut text = String::from_str(alloc, "key = ")?;
    for _ in 0..depth {
        text.push_str("{ ")?;
    }
    text.push_str("$x")?;
    for _ in 0..depth {
        text.push_str(" }")?;
    }
    Ok(text)
}

/// Whether the form's text has more than so many bytes, and is refused by `serde_json`.
fn is_refused(alloc: Global, tree: &Resource<String>, bytes: usize) -> Result<bool, Fail> {
    let written = to_value(alloc, tree)?.to_string(alloc)?;
    Ok(written.len() > bytes && Value::from_str(alloc, written.as_str()).is_err())
}

/// Nested deeper than `serde_json` reads.
#[test]
fn a_deep_value(rt: HostRuntime) -> Result<(), Fail> {
    let alloc = rt.alloc();
    let tree = owned_tree(alloc, deep_text(alloc, 200)?.as_str())?;
    let is_so = is_refused(alloc, &tree, 200 * 20)? && is_read_back(alloc, &tree)?;
    assert_holds(alloc, "a deep value", is_so)
}
