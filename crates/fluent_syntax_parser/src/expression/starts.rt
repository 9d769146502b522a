//! What an inline expression begins with.
ghost use Rattle.std.specs.Prelude.{◌≡◌, ◌≤◌, length};
ghost use Rattle.fluent_syntax_grammar.specs.Starts.{start};
ghost use Rattle.fluent_syntax_parser.specs.Starts.{start_view};

use crate::source::Source;

/// What the bytes at a place can begin.
#[derive(Clone, Copy, Debug, PartialEq, Eq)]
pub(crate) enum Start {
    Quote,
    Digit,
    /// `-` before a letter.
    Term,
    /// `-` otherwise.
    Minus,
    Dollar,
    Letter,
    Brace,
    Other,
}

impl<'s> Source<'s> {
    pub(crate) fn start(&self, ptr: usize) -> Start
        requires { ptr ≤ length self.now.bytes.now }
        ensures { start_view result ≡ start self.now.bytes.now ptr }
    {
        match self.byte_at(ptr) {
            Some(b'"') => Start::Quote,
            Some(b'0'..=b'9') => Start::Digit,
            Some(b'-') if self.is_letter_at(ptr + 1) => Start::Term,
            Some(b'-') => Start::Minus,
            Some(b'$') => Start::Dollar,
            Some(b'{') => Start::Brace,
            Some(byte) if byte.is_ascii_alphabetic() => Start::Letter,
            _ => Start::Other,
        }
    }
}
