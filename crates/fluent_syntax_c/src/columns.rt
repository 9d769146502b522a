//! Lines and columns of places.
ghost use Rattle.std.specs.Prelude.{◌≡◌, ◌+◌, ◌<◌, ◌≤◌, ◌^◌, ℕ, List, length, min, slice_range};
ghost use Rattle.std.specs.List.{sum_by};
ghost use Rattle.fluent_syntax.specs.Lines.{column_at};
ghost use Rattle.fluent_syntax_c.specs.Columns.{IsOnLine, IsPositionOf, characters, column_characters, column_utf16};
ghost use Rattle.fluent_syntax_c.specs.Columns.{position_at, utf16_units};

use fluent_syntax::spans::Lines;
use std::marker::Model;

/// The line and the columns of a place, all from 1.
#[derive(Clone, Copy)]
pub(crate) struct Position {
    pub(crate) line: usize,
    /// In bytes.
    pub(crate) column: usize,
    pub(crate) column_utf16: usize,
    pub(crate) column_characters: usize,
}

/// A place of a text, in bytes.
#[derive(Clone, Copy)]
pub(crate) struct LastPosition {
    byte: usize,
    position: Position,
}

/// The places of one text. Where they come in order, the text is read once or twice for all of them. In a clause it is
/// the bytes of the text.
#[derive(Drop)]
pub(crate) struct Positions<'t> {
    text: &'t str,
    lines: Lines<'t>,
    last: LastPosition,
    ghost same: { lines ≡ text.now },
    ghost short: { length text.now < 2 ^ 63 },
    ghost placed: { IsPositionOf text.now last },
}

impl<'t> Model for Positions<'t> {
    ghost Value = { List ℕ };

    ghost view = { λ positions. positions.text.now };
}

impl<'t> Positions<'t> {
    /// The places of a text.
    pub(crate) fn new(text: &'t str) -> Self
        requires { length text.now + 1 < 2 ^ 63 }
        ensures { result ≡ text.now }
    {
        Positions {
            text,
            lines: Lines::new(text),
            last: LastPosition {
                byte: 0,
                position: Position {
                    line: 1,
                    column: 1,
                    column_utf16: 1,
                    column_characters: 1,
                },
            },
        }
    }

    /// The line and the columns of a byte of the text, or of its end. It reads what lies between the last place and
    /// this one, and where this one lies before it or on another line, what lies before this one on its line, and what
    /// `Lines` reads.
    pub(crate) fn position(&mut self, byte: usize) -> Position
        requires { byte ≤ length self.old }
        ensures text { self.new ≡ self.old }
        ensures position { result ≡ position_at self.old byte }
    {
        let (line, column) = self.lines.line_column(byte);
        let (column_utf16, column_characters) = wide_columns(self.text, self.last, byte, column);
        let position = Position {
            line,
            column,
            column_utf16,
            column_characters,
        };
        self.last = LastPosition { byte, position };
        position
    }

    /// The line and the columns of a byte of the text, or of the text's end where it lies beyond.
    pub(crate) fn position_within(&mut self, byte: usize) -> Position
        ensures text { self.new ≡ self.old }
        ensures position { result ≡ position_at self.old (min byte (length self.old)) }
    {
        self.position(byte.min(self.text.len()))
    }
}

/// A place on a line, and the columns there.
#[derive(Clone, Copy)]
pub(crate) struct OnLine {
    byte: usize,
    column_utf16: usize,
    column_characters: usize,
}

/// The columns of a place in UTF-16 units and in characters, by its column in bytes. They are counted on from the last
/// place where that is before it on the same line.
fn wide_columns(text: &str, last: LastPosition, byte: usize, column: usize) -> (usize, usize)
    requires in_text { byte ≤ length text.now }
    requires short { length text.now < 2 ^ 63 }
    requires column { column ≡ column_at text.now byte }
    requires placed { IsPositionOf text.now last }
    ensures utf16 { result.0 ≡ column_utf16 text.now byte }
    ensures characters { result.1 ≡ column_characters text.now byte }
{
    let start = byte - (column - 1);
    columns_from(text, start, start_on_line(text, last, start, byte), byte)
}

/// A place on the line that begins at `start`, no farther than `byte`: the last one, or the line's start.
fn start_on_line(text: &str, last: LastPosition, start: usize, byte: usize) -> OnLine
    requires in_text { byte ≤ length text.now }
    requires before { start ≤ byte }
    requires placed { IsPositionOf text.now last }
    ensures on_line { IsOnLine text.now start result }
    ensures before { result.byte ≤ byte }
{
    if last.byte <= byte && last.byte - (last.position.column - 1) == start {
        OnLine {
            byte: last.byte,
            column_utf16: last.position.column_utf16,
            column_characters: last.position.column_characters,
        }
    } else {
        OnLine {
            byte: start,
            column_utf16: 1,
            column_characters: 1,
        }
    }
}

/// The columns of a place in UTF-16 units and in characters, counted on from an earlier place of its line.
fn columns_from(text: &str, start: usize, from: OnLine, byte: usize) -> (usize, usize)
    requires in_text { byte ≤ length text.now }
    requires short { length text.now < 2 ^ 63 }
    requires on_line { IsOnLine text.now start from }
    requires before { from.byte ≤ byte }
    ensures utf16 { result.0 ≡ 1 + sum_by utf16_units (slice_range text.now start byte) }
    ensures characters { result.1 ≡ 1 + sum_by characters (slice_range text.now start byte) }
{
    let mut column_utf16 = from.column_utf16;
    let mut column_characters = from.column_characters;
    for byte in &text.as_bytes()[from.byte..byte] {
        column_utf16 += utf16_units(*byte);
        column_characters += characters(*byte);
    }
    (column_utf16, column_characters)
}

/// How many UTF-16 units the characters are that begin with the byte.
fn utf16_units(byte: u8) -> usize
    ensures { result ≡ utf16_units byte }
{
    match byte {
        0x80..=0xBF => 0,
        0xF0..=0xFF => 2,
        _ => 1,
    }
}

/// How many characters begin with the byte: none where it goes on with one.
fn characters(byte: u8) -> usize
    ensures { result ≡ characters byte }
{
    match byte {
        0x80..=0xBF => 0,
        _ => 1,
    }
}
