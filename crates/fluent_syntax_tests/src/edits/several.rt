//! Several edits of a text at once.

use crate::alike::{assert_same, assert_same_text};
use crate::made::{comment, message_with_value, pattern};
use fluent_syntax::ast::Entry;
use fluent_syntax::parser::Edition;
use fluent_syntax::spans::Span;
use fluent_syntax_edits::{EditFault, NumberedEdit, Replacement, edit_all, replacements};
use std::alloc::{AllocError, Global};
use std::test::Fail;

const TEXT: &str = "a = b\n# c\nd = e\n    .f = g\nh@\n";

/// An edit whose new entry is `x = y`, or `# z`, and whose new value is `y`.
#[derive(Clone, Copy)]
enum Step {
    Insert(usize),
    InsertComment(usize),
    Replace(usize),
    Remove(usize),
    SetValue(usize),
    SetAttribute(usize, usize),
}

use Step::{Insert, InsertComment, Remove, Replace, SetAttribute, SetValue};

const JUNK: Span = Span { start: 27, end: 30 };

const MADE: [(&str, &[Step], &str); 10] = [
    (TEXT, &[], TEXT),
    (
        TEXT,
        &[Insert(0), SetValue(0), Remove(1), Insert(3)],
        "x = y\na = y\nh@\nx = y\n",
    ),
    (
        TEXT,
        &[SetValue(1), SetAttribute(1, 0)],
        "a = b\n# c\nd = y\n    .f = y\nh@\n",
    ),
    (
        TEXT,
        &[InsertComment(1), Insert(1)],
        "a = b\n# z\n\nx = y\n# c\nd = e\n    .f = g\nh@\n",
    ),
    (
        TEXT,
        &[Insert(1), InsertComment(1)],
        "a = b\nx = y\n# z\n\n# c\nd = e\n    .f = g\nh@\n",
    ),
    ("a = b", &[Insert(1), Insert(1)], "a = b\nx = y\nx = y\n"),
    ("# c", &[Insert(1)], "# c\n\nx = y\n"),
    ("## c", &[Insert(1)], "## c\nx = y\n"),
    ("a = b\nc = d\n", &[Remove(0), Remove(1)], ""),
    (
        "a = b\n\nc = d",
        &[Replace(0), Replace(1)],
        "x = y\n\nx = y\n",
    ),
];

const REFUSED: [(&str, &[Step], EditFault); 6] = [
    (TEXT, &[SetValue(0), Remove(0)], EditFault::Overlap),
    (TEXT, &[Remove(1), Remove(0)], EditFault::Overlap),
    (TEXT, &[Remove(0), Remove(3)], EditFault::NoEntry),
    (TEXT, &[Remove(0), Replace(2)], EditFault::IsJunk(JUNK)),
    (TEXT, &[SetAttribute(1, 1), Remove(9)], EditFault::NoValue),
    (
        "# a\n## b\nc = d\n",
        &[Insert(0), Replace(1)],
        EditFault::ReadsOtherwise,
    ),
];

fn edit_of(alloc: Global, step: Step) -> Result<NumberedEdit, AllocError> {
    let entry = message_with_value(alloc, "x", &["y"])?;
    let value = pattern(alloc, &["y"])?;
    match step {
        Insert(index) => NumberedEdit::insert(alloc, index, &entry),
        InsertComment(index) => {
            NumberedEdit::insert(alloc, index, &Entry::Comment(comment(alloc, &["z"])?))
        }
        Replace(index) => NumberedEdit::replace(alloc, index, &entry),
        Remove(index) => Ok(NumberedEdit::remove(index)),
        SetValue(index) => NumberedEdit::set_value(alloc, index, &value),
        SetAttribute(index, number) => NumberedEdit::set_attribute(alloc, index, number, &value),
    }
}

fn edits_of(alloc: Global, steps: &[Step]) -> Result<Vec<NumberedEdit>, AllocError> {
    let mut edits = Vec::new(alloc);
    for step in steps {
        edits.push(edit_of(alloc, *step)?)?;
    }
    Ok(edits)
}

fn assert_made(alloc: Global, text: &str, steps: &[Step], expected: &str) -> Result<(), Fail> {
    match edit_all(alloc, text, Edition::One, &edits_of(alloc, steps)?) {
        Ok(made) => assert_same_text(alloc, text, made.as_str(), expected),
        Err(fault) => Err(format!(in alloc; "{expected:?}: {fault:?}")?.into()),
    }
}

fn assert_refused(
    alloc: Global,
    text: &str,
    steps: &[Step],
    expected: EditFault,
) -> Result<(), Fail> {
    let fault = edit_all(alloc, text, Edition::One, &edits_of(alloc, steps)?).err();
    assert_same(alloc, text, &fault, &Some(expected))
}

fn assert_replacement(
    alloc: Global,
    replacement: &Replacement,
    span: Span,
    text: &str,
) -> Result<(), Fail> {
    assert_same(alloc, text, &replacement.span, &span)?;
    assert_same_text(alloc, "what comes", replacement.text.as_str(), text)
}

#[test]
fn edits(rt: HostRuntime) -> Result<(), Fail> {
    let alloc = rt.alloc();
    for (text, steps, expected) in MADE {
        assert_made(alloc, text, steps, expected)?;
    }
    for (text, steps, expected) in REFUSED {
        assert_refused(alloc, text, steps, expected)?;
    }
    Ok(())
}

const STRETCHES: [(Span, &str); 4] = [
    (Span { start: 0, end: 0 }, "x = y\n"),
    (Span { start: 3, end: 6 }, " y\n"),
    (Span { start: 6, end: 27 }, ""),
    (Span { start: 30, end: 30 }, "x = y\n"),
];

#[test]
fn stretches(rt: HostRuntime) -> Result<(), Fail> {
    let alloc = rt.alloc();
    let edits = edits_of(alloc, &[Insert(0), SetValue(0), Remove(1), Insert(3)])?;
    match replacements(alloc, TEXT, Edition::One, &edits) {
        Ok(found) => {
            assert_same(alloc, "how many", &found.len(), &STRETCHES.len())?;
            for (replacement, (span, text)) in found.iter().zip(STRETCHES) {
                assert_replacement(alloc, replacement, span, text)?;
            }
            Ok(())
        }
        Err(fault) => Err(format!(in alloc; "{fault:?}")?.into()),
    }
}
