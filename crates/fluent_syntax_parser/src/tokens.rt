//! Marks, names and numbers.
ghost use Rattle.std.specs.Prelude.{◌≡◌, ◌<◌, ◌≤◌, ℕ, length, IfOk, IfSome, IsTrue, Some};
ghost use Rattle.fluent_syntax_tree.specs.declared.spans.Span.{Span};
ghost use Rattle.fluent_syntax_grammar.specs.Bytes.{is_digit, is_name_byte};
ghost use Rattle.fluent_syntax_grammar.specs.Construct.{Read};
ghost use Rattle.fluent_syntax_grammar.specs.Places.{ByteRun};
ghost use Rattle.fluent_syntax_grammar.specs.Tokens.{digits, identifier, number, optional, token};
ghost use Rattle.fluent_syntax_parser.specs.Outcomes.{ParsesEnd, ParsesText, name_text};

pub(crate) mod blanks;
pub(crate) mod line_ends;
pub(crate) mod strings;

use crate::fault::{Fault, Refusal};
use crate::source::Source;
use fluent_syntax_grammar::lanes::{LANES, is_name_byte, name_run};
use fluent_syntax_tree::spans::Span;

impl<'s> Source<'s> {
    pub(crate) fn expect_byte(&self, byte: u8, ptr: usize) -> Result<usize, Refusal>
        requires { ptr ≤ length self.now.bytes.now }
        ensures parses { ParsesEnd self.now.bytes.now (token self.now.bytes.now byte) ptr result }
        ensures within { IfOk result (λ end. (ptr < end) × (end ≤ length self.now.bytes.now)) }
    {
        if self.is_byte_at(byte, ptr) {
            Ok(ptr + 1)
        } else {
            Err(Refusal {
                fault: Fault::Token(byte),
                from: ptr,
                place: ptr,
            })
        }
    }

    /// Whether the byte is at a place, and the place after it if it is.
    pub(crate) fn take_byte_if(&self, byte: u8, ptr: usize) -> (bool, usize)
        requires { ptr ≤ length self.now.bytes.now }
        ensures parses { optional self.now.bytes.now byte ptr (Read result.0 result.1) }
        ensures forward { ptr ≤ result.1 }
        ensures taken { IsTrue result.0 → ptr < result.1 }
        ensures within { result.1 ≤ length self.now.bytes.now }
    {
        if self.is_byte_at(byte, ptr) {
            (true, ptr + 1)
        } else {
            (false, ptr)
        }
    }

    /// The end of the longest run of name bytes.
    fn name_end(&self, ptr: usize) -> usize
        requires { ptr ≤ length self.now.bytes.now }
        ensures name { ByteRun self.now.bytes.now is_name_byte ptr result }
        ensures within { result ≤ length self.now.bytes.now }
    {
        let mut end = ptr;
        while self.bytes.len() - end >= LANES {
            let run = name_run(self.bytes, end);
            end += run;
            if run < LANES {
                return end;
            }
        }
        while end < self.bytes.len() && is_name_byte(self.bytes[end]) {
            end += 1;
        }
        end
    }

    /// The end of an identifier, whose text is the bytes from the place up to it.
    pub(crate) fn identifier_end(&self, ptr: usize) -> Result<usize, Refusal>
        requires { ptr ≤ length self.now.bytes.now }
        ensures parses { ParsesText self.now.bytes.now (identifier self.now.bytes.now) ptr result }
        ensures within { IfOk result (λ end. (ptr < end) × (end ≤ length self.now.bytes.now)) }
    {
        if !self.is_letter_at(ptr) {
            return Err(Refusal {
                fault: Fault::Letter,
                from: ptr,
                place: ptr,
            });
        }
        Ok(self.name_end(ptr))
    }

    /// The name bytes from a place on.
    pub(crate) fn name_text(&self, start: usize) -> &[u8]
        ensures { result.now ≡ name_text self.now.bytes.now start }
    {
        let start = start.min(self.bytes.len());
        let end = self.name_end(start);
        &self.bytes[start..end]
    }

    /// The name at a place, if there is one.
    pub(crate) fn name_at(&self, start: usize) -> Option<Span>
        requires { start ≤ length self.now.bytes.now }
        ensures name { (name : Span) (end : ℕ) →
            identifier self.now.bytes.now start (Read name end) → result ≡ Some name }
        ensures in_place { IfSome result (λ name. (end : ℕ) × identifier self.now.bytes.now start (Read name end)) }
    {
        match self.identifier_end(start) {
            Ok(end) => Some(Span { start, end }),
            Err(_) => None,
        }
    }

    /// The end of the longest run of digits.
    fn digit_run_end(&self, ptr: usize) -> usize
        requires { ptr ≤ length self.now.bytes.now }
        ensures digits { ByteRun self.now.bytes.now is_digit ptr result }
        ensures within { result ≤ length self.now.bytes.now }
    {
        let mut end = ptr;
        while end < self.bytes.len() && self.bytes[end].is_ascii_digit() {
            end += 1;
        }
        end
    }

    /// The end of the digits that have to be at a place.
    fn digits_end(&self, ptr: usize) -> Result<usize, Refusal>
        requires { ptr ≤ length self.now.bytes.now }
        ensures parses { ParsesEnd self.now.bytes.now (digits self.now.bytes.now) ptr result }
        ensures within { IfOk result (λ end. (ptr < end) × (end ≤ length self.now.bytes.now)) }
    {
        if self.is_digit_at(ptr) {
            Ok(self.digit_run_end(ptr))
        } else {
            Err(Refusal {
                fault: Fault::Digit,
                from: ptr,
                place: ptr,
            })
        }
    }

    /// The end of a number, whose text is the bytes from the place up to it.
    pub(crate) fn number_end(&self, start: usize) -> Result<usize, Refusal>
        requires { start ≤ length self.now.bytes.now }
        ensures parses { ParsesText self.now.bytes.now (number self.now.bytes.now) start result }
        ensures within { IfOk result (λ end. (start < end) × (end ≤ length self.now.bytes.now)) }
    {
        let (_, ptr) = self.take_byte_if(b'-', start);
        let ptr = self.digits_end(ptr)?;
        let (point, ptr) = self.take_byte_if(b'.', ptr);
        if point {
            let end = self.digits_end(ptr)?;
            return Ok(end);
        }
        Ok(ptr)
    }
}
