//! Lines, and where they end.
ghost use Rattle.std.specs.Prelude.{◌≡◌, ◌<◌, ◌≤◌, length, true};
ghost use Rattle.fluent_syntax_grammar.specs.Bytes.{hash};
ghost use Rattle.fluent_syntax_grammar.specs.Construct.{Read};
ghost use Rattle.fluent_syntax_grammar.specs.Places.{has_byte, is_line_place, LongestRun, ByteRun};
ghost use Rattle.fluent_syntax_grammar.specs.Tiling.{whole_line};
ghost use Rattle.fluent_syntax_grammar.specs.Tokens.{optional_eol};
ghost use Rattle.fluent_syntax_parser.specs.CommentLines.{is_not_lf};

use crate::source::Source;
use memchr::memchr;

impl<'s> Source<'s> {
    /// The place of the next LF, or the text's end.
    pub(crate) fn next_lf(&self, ptr: usize) -> usize
        requires { ptr ≤ length self.now.bytes.now }
        ensures line { ByteRun self.now.bytes.now is_not_lf ptr result }
        ensures within { result ≤ length self.now.bytes.now }
    {
        let rest = &self.bytes[ptr..];
        ptr + memchr(b'\n', rest).unwrap_or(rest.len())
    }

    /// The place of the next LF or CRLF, or the text's end.
    pub(crate) fn line_end(&self, ptr: usize) -> usize
        requires { ptr ≤ length self.now.bytes.now }
        ensures line { LongestRun (is_line_place self.now.bytes.now) ptr result }
        ensures within { result ≤ length self.now.bytes.now }
    {
        let end = self.next_lf(ptr);
        if ptr < end && end < self.bytes.len() && self.bytes[end - 1] == b'\r' {
            end - 1
        } else {
            end
        }
    }

    /// The place after the line end, if one begins at the place.
    pub(crate) fn skip_eol(&self, ptr: usize) -> usize
        requires { ptr ≤ length self.now.bytes.now }
        ensures parses { optional_eol self.now.bytes.now ptr (Read tt result) }
        ensures within { (ptr ≤ result) × (result ≤ length self.now.bytes.now) }
    {
        self.eol_end(ptr).unwrap_or(ptr)
    }

    /// The place after a line that begins with `#`.
    pub(crate) fn skip_comment(&self, ptr: usize) -> usize
        requires { has_byte self.now.bytes.now hash ptr ≡ true }
        ensures line { whole_line self.now.bytes.now ptr (Read tt result) }
        ensures within { (ptr < result) × (result ≤ length self.now.bytes.now) }
    {
        self.skip_eol(self.line_end(ptr))
    }
}
