//! Texts in their normal form, and whether their trees are canonical.

use fluent_syntax::parser::Edition;
use fluent_syntax::spans::Halt;
use fluent_syntax_tests::alike::{assert_holds, assert_same, assert_same_text};
use ftl::{Outcome, formatted_keeping, formatted_within};
use std::alloc::Global;
use std::test::Fail;

/// A text, its normal form, what was found in it, and whether its tree is canonical.
type Row = (&'static str, &'static str, Outcome, bool);

const ROWS: [Row; 5] = [
    ("", "", Outcome::Clean, true),
    ("a=b\n", "a = b\n", Outcome::Clean, true),
    ("a = b\nbro ken\n", "a = b\n", Outcome::SyntaxErrors, false),
    (
        "a = { $x ->\n *}\n",
        "a =\n    { $x ->\n    }\n",
        Outcome::Clean,
        false,
    ),
    (
        "key =\n{$x}\n    b\n",
        "key =\n    { $x }\n        b\n",
        Outcome::Clean,
        false,
    ),
];

fn assert_formatted(alloc: Global, row: &Row) -> Result<(), Fail> {
    let (text, normal, outcome, is_canonical) = row;
    match formatted_within(alloc, *text, Edition::One, 2) {
        Ok(given) => {
            assert_same_text(alloc, *text, given.text.as_str(), *normal)?;
            assert_same(alloc, *text, &given.outcome, outcome)?;
            assert_same(alloc, *text, &given.is_canonical, is_canonical)
        }
        _ => assert_holds(alloc, *text, false),
    }
}

#[test]
fn normal_forms(rt: HostRuntime) -> Result<(), Fail> {
    let alloc = rt.alloc();
    for row in &ROWS {
        assert_formatted(alloc, row)?;
    }
    match formatted_within(alloc, "a = {{{ $x }}}\n", Edition::One, 2) {
        Err(Halt::TooDeep) => Ok(()),
        _ => assert_holds(alloc, "three open at once", false),
    }
}

/// Texts, and what is kept of them.
const KEPT: [(&str, &str); 6] = [
    ("a=b\n\n\nc=d\n", "a = b\n\nc = d\n"),
    ("\na=b\nc=d\n\n", "a = b\nc = d\n"),
    ("a=b\n  \n# c\n-c=d\n", "a = b\n\n# c\n-c = d\n"),
    ("a=b\r\n\r\nc=d\r\n", "a = b\n\nc = d\n"),
    ("a=b\n# c\n\nc=d\n", "a = b\n\n# c\n\nc = d\n"),
    ("a=b\n\nbro ken\nc=d\n", "a = b\n\nc = d\n"),
];

#[test]
fn kept_forms(rt: HostRuntime) -> Result<(), Fail> {
    let alloc = rt.alloc();
    for (text, kept) in &KEPT {
        match formatted_keeping(alloc, *text, Edition::One, 2) {
            Ok(given) => assert_same_text(alloc, *text, given.text.as_str(), *kept)?,
            _ => assert_holds(alloc, *text, false)?,
        }
    }
    match formatted_keeping(alloc, "a = {{{ $x }}}\n", Edition::One, 2) {
        Err(Halt::TooDeep) => Ok(()),
        _ => assert_holds(alloc, "three open at once", false),
    }
}
