//! Where reading goes on after what was refused.
ghost use Rattle.std.specs.Prelude.{◌≡◌, ◌<◌, ◌≤◌, length, false, ℕ};
ghost use Rattle.fluent_syntax_grammar.specs.Places.{starts_line};
ghost use Rattle.fluent_syntax_grammar.specs.Tiling.{JunkEnd, starts_entry};

use crate::source::Source;

impl<'s> Source<'s> {
    /// Whether an entry may start at a place: a line starts there, with a letter, `-` or `#`.
    fn is_entry_start(&self, place: usize) -> bool
        requires { place < length self.now.bytes.now }
        ensures { result ≡ starts_entry self.now.bytes.now place }
    {
        let byte = self.bytes[place];
        (place == 0 || self.bytes[place - 1] == b'\n')
            && (byte.is_ascii_alphabetic() || byte == b'-' || byte == b'#')
    }

    /// The start of the next line, or the text's end.
    fn next_line(&self, ptr: usize) -> usize
        requires { ptr < length self.now.bytes.now }
        ensures line { (k : ℕ) → ptr < k → k < result → starts_line self.now.bytes.now k ≡ false }
        ensures within { (ptr < result) × (result ≤ length self.now.bytes.now) }
    {
        let end = self.next_lf(ptr);
        if end < self.bytes.len() { end + 1 } else { end }
    }

    /// The first entry start at or after a place, or the text's end.
    pub(crate) fn next_entry_start(&self, ptr: usize) -> usize
        requires { ptr ≤ length self.now.bytes.now }
        ensures junk { JunkEnd self.now.bytes.now ptr result }
    {
        let mut place = ptr;
        while place < self.bytes.len() && !self.is_entry_start(place) {
            place = self.next_line(place);
        }
        place
    }
}
