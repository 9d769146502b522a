//! Trees that are written and read again, and trees that are joined.

use crate::alike::assert_holds;
use crate::made::{owned_tree, owned_tree_without_errors};
use fluent_syntax::ast::Resource;
use fluent_syntax::laws::{
    is_canonical, is_readable, joined, parse_is_readable, reads_back, reparse, same_texts,
};
use fluent_syntax::parser::Edition;
use std::alloc::Global;
use std::test::Fail;

/// Whether the tree, once it is written, is read as that tree.
fn is_reparsed(alloc: Global, tree: &Resource<String>, back: &Resource<String>) -> bool {
    match reparse(alloc, tree) {
        Ok(read) => same_texts(&read, back),
        Err(_) => false,
    }
}

#[test]
fn reads_the_same_tree(rt: HostRuntime) -> Result<(), Fail> {
    let alloc = rt.alloc();
    let text = "# a\n\nkey =\n    { $var ->\n        [b] c\n       *[other] d\n    }\n";
    let tree = owned_tree_without_errors(alloc, text)?;
    reads_back(&tree);
    parse_is_readable(text);
    assert_holds(
        alloc,
        "a comment and a select",
        is_reparsed(alloc, &tree, &tree),
    )
}

/// The LF of a CRLF is joined to the text before it.
#[test]
fn reads_another_tree(rt: HostRuntime) -> Result<(), Fail> {
    let alloc = rt.alloc();
    let tree = owned_tree(alloc, "key = a\r\n    b")?;
    let other = owned_tree(alloc, "key =\n    a\n    b\n")?;
    let is_so = is_reparsed(alloc, &tree, &other) && !is_reparsed(alloc, &tree, &tree);
    assert_holds(alloc, "a CRLF", is_so)
}

/// A comment without lines is readable, and not canonical.
#[test]
fn reports_what_is_only_readable(rt: HostRuntime) -> Result<(), Fail> {
    let alloc = rt.alloc();
    let tree = joined(alloc, &owned_tree(alloc, "#")?)?;
    let is_so = is_readable(&tree, Edition::One) && !is_canonical(&tree, Edition::One);
    assert_holds(alloc, "a comment without lines", is_so)
}

/// A text of one LF is joined to the text before it, if that does not end in LF; junk is left out.
#[test]
fn joins_texts(rt: HostRuntime) -> Result<(), Fail> {
    let alloc = rt.alloc();
    let tree = owned_tree(alloc, "# c\n?\nkey = a\r\n\r\n    b{x}\r\n    d")?;
    let other = owned_tree(alloc, "# c\n\nkey = a\n\n    b{x}\n    d")?;
    assert_holds(
        alloc,
        "CRLFs and junk",
        same_texts(&joined(alloc, &tree)?, &other),
    )
}
