//! String literals.
ghost use Rattle.std.specs.Prelude.{◌<◌, ◌≤◌, length, IfOk};
ghost use Rattle.fluent_syntax_grammar.specs.Places.{ByteRun};
ghost use Rattle.fluent_syntax_grammar.specs.Strings.{hex_digits, HexDigits, string_literal, string_units};
ghost use Rattle.fluent_syntax_parser.specs.Outcomes.{HasOutcome, ParsesEnd};
ghost use Rattle.fluent_syntax_parser.specs.Strings.{escape, is_plain};

use crate::fault::{Fault, Refusal};
use crate::source::Source;
use fluent_syntax_tree::spans::Span;
use memchr::memchr3;

impl<'s> Source<'s> {
    /// The end of the hexadecimal digits, at most `most` of them.
    fn hex_end(&self, ptr: usize, most: usize) -> usize
        requires { ptr ≤ length self.now.bytes.now }
        ensures digits { HexDigits self.now.bytes.now ptr most result }
        ensures within { result ≤ length self.now.bytes.now }
    {
        let mut end = ptr;
        while end - ptr < most && end < self.bytes.len() && self.bytes[end].is_ascii_hexdigit() {
            end += 1;
        }
        end
    }

    fn skip_hex(&self, ptr: usize, most: usize) -> Result<usize, Refusal>
        requires { ptr ≤ length self.now.bytes.now }
        ensures parses { ParsesEnd self.now.bytes.now (hex_digits self.now.bytes.now most) ptr result }
        ensures within { IfOk result (λ end. (ptr ≤ end) × (end ≤ length self.now.bytes.now)) }
    {
        let end = self.hex_end(ptr, most);
        if end - ptr < most {
            Err(Refusal {
                fault: Fault::UnicodeEscape,
                from: ptr,
                place: end,
            })
        } else {
            Ok(end)
        }
    }

    /// Passes over an escape, at its backslash.
    fn skip_escape(&self, ptr: usize) -> Result<usize, Refusal>
        requires { ptr < length self.now.bytes.now }
        ensures parses { ParsesEnd self.now.bytes.now (escape self.now.bytes.now) ptr result }
        ensures within { IfOk result (λ end. (ptr < end) × (end ≤ length self.now.bytes.now)) }
    {
        match self.byte_at(ptr + 1) {
            None => Err(Refusal {
                fault: Fault::UnknownEscape(b' '),
                from: ptr,
                place: ptr,
            }),
            Some(b'\\' | b'"' | b'{') => Ok(ptr + 2),
            Some(b'u') => self.skip_hex(ptr + 2, 4),
            Some(b'U') => self.skip_hex(ptr + 2, 6),
            Some(byte) => Err(Refusal {
                fault: Fault::UnknownEscape(byte),
                from: ptr,
                place: ptr,
            }),
        }
    }

    /// The end of the bytes that represent themselves.
    fn plain_end(&self, ptr: usize) -> usize
        requires { ptr ≤ length self.now.bytes.now }
        ensures text { ByteRun self.now.bytes.now is_plain ptr result }
        ensures within { result ≤ length self.now.bytes.now }
    {
        let rest = &self.bytes[ptr..];
        ptr + memchr3(b'"', b'\\', b'\n', rest).unwrap_or(rest.len())
    }

    /// Passes over the units of a string literal, up to its closing quote.
    fn skip_string_units(&self, ptr: usize) -> Result<usize, Refusal>
        requires { ptr ≤ length self.now.bytes.now }
        ensures parses { ParsesEnd self.now.bytes.now (string_units self.now.bytes.now) ptr result }
        ensures within { IfOk result (λ end. (ptr ≤ end) × (end ≤ length self.now.bytes.now)) }
    {
        let mut unit = ptr;
        loop {
            let end = self.plain_end(unit);
            match self.byte_at(end) {
                None => return Err(Refusal {
                    fault: Fault::Token(b'"'),
                    from: end,
                    place: end,
                }),
                Some(b'"') => return Ok(end),
                Some(b'\\') => unit = self.skip_escape(end)?,
                Some(_) => return Err(Refusal {
                    fault: Fault::UnterminatedString,
                    from: end,
                    place: end,
                }),
            }
        }
    }

    pub(crate) fn get_string_literal(&self, ptr: usize) -> Result<(Span, usize), Refusal>
        requires { ptr ≤ length self.now.bytes.now }
        ensures parses { HasOutcome self.now.bytes.now (string_literal self.now.bytes.now) (λ s. s) ptr result }
        ensures within { IfOk result (λ read. (ptr < read.1) × (read.1 ≤ length self.now.bytes.now)) }
    {
        let start = self.expect_byte(b'"', ptr)?;
        let end = self.skip_string_units(start)?;
        let ptr = self.expect_byte(b'"', end)?;
        Ok((Span { start, end }, ptr))
    }
}
