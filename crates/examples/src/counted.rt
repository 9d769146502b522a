//! A sink that counts lines.
ghost use Rattle.std.specs.Prelude.{◌≡◌, [], string_bytes};

use fluent_syntax::unicode::{SinkError, TextSink};
use std::alloc::Global;

/// A text, and how many lines were written to it.
#[derive(Drop)]
pub struct Counted {
    pub text: String,
    pub lines: usize,
}

impl Counted {
    /// Of nothing yet.
    pub(crate) fn new(alloc: Global) -> Counted
        ensures text { string_bytes result.text ≡ [] }
        ensures lines { result.lines ≡ 0 }
    {
        Counted {
            text: String::new(alloc),
            lines: 0,
        }
    }
}

impl TextSink for Counted {
    ghost text = { λ s. string_bytes s.text };

    ghost room = { λ _. 0 };

    fn write_str(&mut self, s: &str) -> Result<(), SinkError> {
        self.lines = self.lines.saturating_add(s.matches('\n').count());
        self.text.push_str(s).map_err(|_| SinkError)
    }

    fn write_char(&mut self, c: char) -> Result<(), SinkError> {
        self.lines = self.lines.saturating_add(usize::from(c == '\n'));
        self.text.push(c).map_err(|_| SinkError)
    }
}
