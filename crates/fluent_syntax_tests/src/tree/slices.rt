//! What a text of a tree can do, lent and owned: the text of a range of it, its end trimmed, and its copy.

use crate::alike::assert_same_text;
use fluent_syntax::parser::Slice;
use std::alloc::Global;
use std::ops::Range;
use std::test::Fail;

/// A text, the ends of a range of it, and the text there.
const PARTS: &[(&str, usize, usize, &str)] = table! {
    "key = \u{e9}\r\n", 0, 3, "key";
    "key = \u{e9}\r\n", 4, 8, "= \u{e9}";
    "key = \u{e9}\r\n", 5, 5, "";
    "key = \u{e9}\r\n", 0, 10, "key = \u{e9}\r\n";
};

/// A text, and what is left of it once it is trimmed.
const TRIMMED: &[(&str, &str)] = table! {
    "a \r\n \n", "a";
    " \r\na\nb \r", " \r\na\nb";
    "a\t \t\n", "a\t \t";
    "\u{e9}\u{a0} ", "\u{e9}\u{a0}";
    " \r\n", "";
    "", "";
};

/// The text of the range.
fn part_of<'s, S: Slice<'s>>(alloc: Global, text: &S, range: Range<usize>) -> Result<S, Fail> {
    let whole = text.as_str();
    let is_range = range.start <= range.end
        && whole.is_char_boundary(range.start)
        && whole.is_char_boundary(range.end);
    if !is_range {
        return Err("no range of the text".into());
    }
    Ok(text.slice(alloc, range)?)
}

fn assert_part<'s, S: Slice<'s>>(
    alloc: Global,
    text: &S,
    range: Range<usize>,
    expected: &str,
) -> Result<(), Fail> {
    let part = part_of(alloc, text, range)?;
    assert_same_text(alloc, "the part", part.as_str(), expected)?;
    let copy = text.try_clone(alloc)?;
    assert_same_text(alloc, "a copy", copy.as_str(), text.as_str())
}

#[test]
fn parts_and_copies(rt: HostRuntime) -> Result<(), Fail> {
    let alloc = rt.alloc();
    for (text, start, end, expected) in PARTS {
        let owned = String::from_str(alloc, *text)?;
        assert_part(alloc, text, *start..*end, *expected)?;
        assert_part(alloc, &owned, *start..*end, *expected)?;
    }
    Ok(())
}

fn assert_trimmed<'s, S: Slice<'s>>(alloc: Global, text: S, expected: &str) -> Result<(), Fail> {
    let mut trimmed = text;
    trimmed.trim();
    assert_same_text(alloc, "trimmed", trimmed.as_str(), expected)
}

#[test]
fn trimmed_endings(rt: HostRuntime) -> Result<(), Fail> {
    let alloc = rt.alloc();
    for (text, expected) in TRIMMED {
        assert_trimmed(alloc, *text, *expected)?;
        assert_trimmed(alloc, String::from_str(alloc, *text)?, *expected)?;
    }
    Ok(())
}
