//! Places as the protocol counts them: lines, and UTF-16 units from the line's begin.
ghost use Rattle.std.specs.Prelude.{◌≡◌, ◌+◌, ◌^◌, ◌<◌, ◌≤◌, ℕ, List, length, min};
ghost use Rattle.ftl_lsp.specs.Positions.{begins_line, ends_line, utf16_units, position_at, line_at, character_at};
ghost use Rattle.ftl_lsp.specs.Positions.{IsPosition};

use fluent_syntax::spans::Span;
use std::marker::Model;

/// A line and a column, both from 0. The column counts UTF-16 units.
#[derive(Clone, Copy, PartialEq, Eq)]
pub struct Position {
    pub line: usize,
    pub character: usize,
}

/// From one place to another.
#[derive(Clone, Copy)]
pub struct PositionRange {
    pub start: Position,
    pub end: Position,
}

/// Where a text begins.
pub(crate) const START: Position = Position {
    line: 0,
    character: 0,
};

/// The places of one text. Where the bytes come in order, the text is read once for all of them; a step back reads no
/// more than lies between, and a line. In a clause it is the bytes of the text.
#[derive(Drop)]
pub struct Positions<'t> {
    text: &'t [u8],
    /// The last byte that was asked for, and its place.
    byte: usize,
    here: Position,
    ghost within: { byte ≤ length text.now },
    ghost position: { here ≡ position_at text.now byte },
}

impl<'t> Model for Positions<'t> {
    ghost Value = { List ℕ };

    ghost view = { λ positions. positions.text.now };
}

impl<'t> Positions<'t> {
    /// The places of a text.
    pub fn new(text: &'t str) -> Self
        ensures { result ≡ text.now }
    {
        Positions {
            text: text.as_bytes(),
            byte: 0,
            here: START,
        }
    }

    /// The place of a byte of the text, or of its end. It reads what lies between the last byte that was asked for and
    /// this one; where this one lies before the last, twice, and the line up to it.
    pub fn position(&mut self, byte: usize) -> Position
        requires { byte ≤ length self.old }
        ensures text { self.new ≡ self.old }
        ensures position { result ≡ position_at self.old byte }
        ensures meaning { IsPosition self.old byte result }
    {
        let (mut here, from) = if byte < self.byte {
            line_start_before(self.text, byte, self.byte, self.here.line)
        } else {
            (self.here, self.byte)
        };
        for at in from..byte {
            here = next_position(self.text, at, here);
        }
        *self = Positions {
            text: self.text,
            byte,
            here,
        };
        here
    }
}

impl Positions<'_> {
    /// The place of a byte, or of the text's end where the byte lies beyond.
    pub fn position_or_end(&mut self, byte: usize) -> Position
        ensures text { self.new ≡ self.old }
        ensures position { result ≡ position_at self.old (min byte (length self.old)) }
    {
        let size = self.text.len();
        self.position(byte.min(size))
    }

    /// Where a range of the text begins and ends.
    pub fn range(&mut self, span: Span) -> PositionRange
        ensures { self.new ≡ self.old }
    {
        PositionRange {
            start: self.position_or_end(span.start),
            end: self.position_or_end(span.end),
        }
    }
}

/// Where the line begins in which a byte is: its place and its byte. It is read back from a byte after that one,
/// or from that one itself, which is in the line of the number.
fn line_start_before(text: &[u8], byte: usize, from: usize, line: usize) -> (Position, usize)
    requires order { byte ≤ from }
    requires within { from ≤ length text.now }
    requires line { line ≡ line_at text.now from }
    ensures before { result.1 ≤ byte }
    ensures position { result.0 ≡ position_at text.now result.1 }
{
    let (mut at, mut line) = (from, line);
    while at > byte || !begins_line(text, at) {
        at -= 1;
        if is_line_end(text, at) {
            line -= 1;
        }
    }
    (Position { line, character: 0 }, at)
}

/// Whether a line begins with the byte, or at the text's end.
fn begins_line(text: &[u8], at: usize) -> bool
    requires { at ≤ length text.now }
    ensures { result ≡ begins_line text.now at }
{
    at == 0 || is_line_end(text, at - 1)
}

/// The place after a byte of the text that has this one.
pub(crate) fn next_position(text: &[u8], at: usize, here: Position) -> Position
    requires byte { at < length text.now }
    requires small { length text.now < 2 ^ 63 }
    requires position { here ≡ position_at text.now at }
    ensures { result ≡ position_at text.now (at + 1) }
{
    if is_line_end(text, at) {
        Position {
            line: here.line + 1,
            character: 0,
        }
    } else {
        Position {
            line: here.line,
            character: here.character + units(text[at]),
        }
    }
}

/// Whether a line ends with the byte: an LF, or a CR before anything but an LF.
pub(crate) fn is_line_end(text: &[u8], at: usize) -> bool
    requires { at < length text.now }
    ensures { result ≡ ends_line text.now at }
{
    match text[at] {
        b'\n' => true,
        b'\r' => at + 1 == text.len() || text[at + 1] != b'\n',
        _ => false,
    }
}

/// How many UTF-16 units begin with a byte of a text: two for a character of four bytes, one for any other, and none
/// for the bytes that go on with a character.
pub(crate) fn units(byte: u8) -> usize
    ensures { result ≡ utf16_units byte }
{
    match byte {
        0x80..=0xBF => 0,
        0xF0..=0xFF => 2,
        _ => 1,
    }
}
