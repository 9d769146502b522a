//! The words of the program, its statuses and its lines.

use fluent_syntax_tests::alike::{assert_same, assert_same_text};
use ftl::{Command, Outcome, RunFault};
use std::test::Fail;

#[test]
fn words(rt: HostRuntime) -> Result<(), Fail> {
    let alloc = rt.alloc();
    let named = Command::from_word("check-two");
    assert_same(alloc, "check-two", &named, &Some(Command::CheckTwo))?;
    assert_same(alloc, "JSON", &Command::from_word("JSON"), &None)
}

#[test]
fn statuses_and_lines(rt: HostRuntime) -> Result<(), Fail> {
    let alloc = rt.alloc();
    assert_same(alloc, "clean", &Outcome::Clean.status(), &0)?;
    assert_same(alloc, "errors", &Outcome::SyntaxErrors.status(), &1)?;
    assert_same(alloc, "output", &RunFault::Output.status(), &5)?;
    assert_same_text(
        alloc,
        "its line",
        RunFault::Output.line(),
        "ftl: output failed",
    )
}
