//! The two lines that show a place, where no error is.

use fluent_syntax_tests::alike::assert_same_text;
use ftl_project::push_excerpt;
use std::alloc::Global;
use std::test::Fail;

/// What is shown, the text, the place, and the two lines.
type Row = (&'static str, &'static str, usize, &'static str);

const ROWS: [Row; 9] = [
    (
        "a line's end of two bytes, at its first",
        "a\r\nb = {\r\nc",
        8,
        "b = {\n     ^\n",
    ),
    (
        "a line's end of two bytes, at its second",
        "a\r\nb = {\r\nc",
        9,
        "b = {\n     ^\n",
    ),
    ("a place after the end", "abc", 99, "abc\n   ^\n"),
    ("no text", "", 0, "\n^\n"),
    ("a tab", "a\tb = {", 2, "a\tb = {\n \t^\n"),
    ("wide characters", "漢字 = {", 7, "漢字 = {\n     ^\n"),
    ("the middle of a character", "漢字", 4, "漢字\n  ^\n"),
    (
        "a character without a width",
        "e\u{301}x = {",
        3,
        "e\u{301}x = {\n ^\n",
    ),
    (
        "what a terminal would obey",
        "a\u{1B}[2J\rb = {",
        6,
        "a\u{FFFD}[2J\u{FFFD}b = {\n      ^\n",
    ),
];

fn assert_shown(alloc: Global, row: &Row) -> Result<(), Fail> {
    let (shows, text, place, expected) = row;
    let mut out = String::new(alloc);
    push_excerpt(&mut out, text, *place, "^")?;
    assert_same_text(alloc, *shows, out.as_str(), *expected)
}

#[test]
fn excerpts(rt: HostRuntime) -> Result<(), Fail> {
    for row in &ROWS {
        assert_shown(rt.alloc(), row)?;
    }
    Ok(())
}
