//! Lines and columns of bytes, bytes of lines and columns, and the changes of a text.

use fluent_syntax_tests::alike::{assert_holds, assert_same, assert_same_text};
use ftl_lsp::{Change, Position, Positions, byte_of, text_after};
use std::alloc::Global;
use std::test::Fail;

/// A text, a byte of it, and the byte's line and column.
type PlaceRow = (&'static str, usize, usize, usize);

const PLACES: [PlaceRow; 5] = [
    ("a\nb\n", 4, 2, 0),
    // CRLF ends one line, and a CR alone ends one too
    ("a\r\nb", 3, 1, 0),
    ("a\rb", 2, 1, 0),
    // characters of two, three and four bytes
    ("é日😀b", 9, 0, 4),
    ("x\n😀é", 8, 1, 3),
];

fn place(line: usize, character: usize) -> Position {
    Position { line, character }
}

fn assert_placed(alloc: Global, row: &PlaceRow) -> Result<(), Fail> {
    let (text, byte, line, character) = row;
    let position = Positions::new(*text).position_or_end(*byte);
    assert_holds(alloc, *text, position == place(*line, *character))?;
    assert_same(alloc, *text, &byte_of(*text, position), byte)
}

#[test]
fn places_and_their_bytes(rt: HostRuntime) -> Result<(), Fail> {
    for row in &PLACES {
        assert_placed(rt.alloc(), row)?;
    }
    // a line that is not there, and the middle of a character
    assert_same(rt.alloc(), "the end", &byte_of("ab", place(3, 0)), &2)?;
    assert_same(rt.alloc(), "its begin", &byte_of("a😀b", place(0, 2)), &1)
}

#[test]
fn changes_of_a_text(rt: HostRuntime) -> Result<(), Fail> {
    let alloc = rt.alloc();
    let between = Change::Between {
        start: place(0, 6),
        end: place(1, 1),
        text: " d",
    };
    let made = text_after(alloc, "a = 😀\r\nc\r\n", &[between])?;
    assert_same_text(alloc, "between two places", made.as_str(), "a = 😀 d\r\n")?;
    let whole = text_after(alloc, "a = b\n", &[between, Change::Whole("c")])?;
    assert_same_text(alloc, "the whole after it", whole.as_str(), "c")
}
