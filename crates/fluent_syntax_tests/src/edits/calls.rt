//! Each edit once, and what no text has.

use crate::alike::{assert_same, assert_same_text};
use crate::made::{comment, message_with_value, pattern};
use fluent_syntax::ast::Entry;
use fluent_syntax::laws::Rule;
use fluent_syntax::parser::Edition;
use fluent_syntax_edits::{EditFault, insert, remove, replace, set_attribute, set_value};
use std::alloc::Global;
use std::test::Fail;

const TEXT: &str = "a = b\n# c\nd = e\n    .f = g\nh@\n";

fn assert_made(
    alloc: Global,
    shows: &str,
    made: Result<String, EditFault>,
    expected: &str,
) -> Result<(), Fail> {
    match made {
        Ok(made) => assert_same_text(alloc, shows, made.as_str(), expected),
        Err(fault) => Err(format!(in alloc; "{shows}: {fault:?}")?.into()),
    }
}

#[test]
fn edits(rt: HostRuntime) -> Result<(), Fail> {
    let (alloc, edition) = (rt.alloc(), Edition::One);
    let entry = message_with_value(alloc, "x", &["y"])?;
    let value = pattern(alloc, &["y"])?;
    let made = replace(alloc, TEXT, edition, 1, &entry);
    assert_made(alloc, "replace", made, "a = b\nx = y\nh@\n")?;
    let made = insert(alloc, TEXT, edition, 1, &entry);
    let expected = "a = b\nx = y\n# c\nd = e\n    .f = g\nh@\n";
    assert_made(alloc, "insert", made, expected)?;
    let made = remove(alloc, TEXT, edition, 1);
    assert_made(alloc, "remove", made, "a = b\nh@\n")?;
    let made = set_value(alloc, TEXT, edition, 1, &value);
    let expected = "a = b\n# c\nd = y\n    .f = g\nh@\n";
    assert_made(alloc, "set_value", made, expected)?;
    let made = set_attribute(alloc, TEXT, edition, 1, 0, &value);
    let expected = "a = b\n# c\nd = e\n    .f = y\nh@\n";
    assert_made(alloc, "set_attribute", made, expected)
}

/// No text has such a line of a comment.
#[test]
fn line_feed_in_a_comment(rt: HostRuntime) -> Result<(), Fail> {
    let alloc = rt.alloc();
    let comment = Entry::Comment(comment(alloc, &["a\nb"])?);
    let fault = insert(alloc, "c = d\n", Edition::One, 0, &comment).err();
    let expected = Some(EditFault::NotCanonical(Rule::LfInComment));
    assert_same(alloc, "a line feed in a comment", &fault, &expected)
}
