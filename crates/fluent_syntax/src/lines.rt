//! Lines and columns.
ghost use Rattle.std.specs.Prelude.{◌≡◌, ◌≢◌, ◌-◌, ◌+◌, ◌^◌, ◌<◌, ◌≤◌, ℕ, List, length, slice_index};
ghost use Rattle.fluent_syntax.specs.Lines.{line_at, column_at};
ghost use Rattle.fluent_syntax_grammar.specs.Bytes.{lf};

use std::marker::Model;

/// The line and the column of a place of the source, both from 1. The line is 1 and the number of LFs before the place;
/// the column is 1 and the number of bytes from the line's start to the place. For many places `Lines` takes less time.
pub fn line_column(source: &str, place: usize) -> (usize, usize)
    requires in_text { place ≤ length source.now }
    requires short { length source.now + 1 < 2 ^ 64 }
    ensures line { result.0 ≡ line_at source.now place }
    ensures column { result.1 ≡ column_at source.now place }
{
    Lines::new(source).line_column(place)
}

/// Lines and columns of places of one source. Where the places come in order, as those of errors do, the source is read
/// once for all of them. In a clause it is the bytes of the source.
#[derive(Drop)]
pub struct Lines<'t> {
    text: &'t [u8],
    /// The last place, and the line and the line's start that are its own.
    place: usize,
    line: usize,
    start: usize,
    ghost short: { length text.now + 1 < 2 ^ 64 },
    ghost within: { place ≤ length text.now },
    ghost counted: { line ≡ line_at text.now place },
    ghost few: { line ≤ place + 1 },
    ghost before: { start ≤ place },
    ghost starts: { 0 < start → slice_index text.now (start - 1) ≡ lf },
    ghost same_line: { (k : ℕ) → start ≤ k → k < place → slice_index text.now k ≢ lf },
}

impl<'t> Model for Lines<'t> {
    ghost Value = { List ℕ };

    ghost view = { λ lines. lines.text.now };
}

impl<'t> Lines<'t> {
    /// The lines of a source.
    pub fn new(source: &'t str) -> Self
        requires { length source.now + 1 < 2 ^ 64 }
        ensures { result ≡ source.now }
    {
        Lines {
            text: source.as_bytes(),
            place: 0,
            line: 1,
            start: 0,
        }
    }

    /// The line and the column of a place, both from 1, as the function `line_column` gives them. It reads what lies
    /// between the last place and this one, or all before this one where it lies before the last.
    pub fn line_column(&mut self, place: usize) -> (usize, usize)
        requires { place ≤ length self.old }
        ensures source { self.new ≡ self.old }
        ensures line { result.0 ≡ line_at self.old place }
        ensures column { result.1 ≡ column_at self.old place }
    {
        let (mut line, mut start, from) = if place < self.place {
            (1, 0, 0)
        } else {
            (self.line, self.start, self.place)
        };
        for at in from..place {
            if self.text[at] == b'\n' {
                line += 1;
                start = at + 1;
            }
        }
        *self = Lines {
            text: self.text,
            place,
            line,
            start,
        };
        (line, 1 + place - start)
    }
}
