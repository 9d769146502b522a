//! Line ends and blanks.
ghost use Rattle.std.specs.Prelude.{◌≡◌, ◌<◌, ◌≤◌, length, IfSome};
ghost use Rattle.fluent_syntax_grammar.specs.Places.{after_eol, has_eol, Blank, BlankBlock, InlineBlank};

use crate::source::Source;

/// Where a line begins, and where its leading spaces end.
#[derive(Clone, Copy, Debug)]
pub(crate) struct LineStart {
    pub(crate) start: usize,
    pub(crate) first: usize,
}

impl<'s> Source<'s> {
    /// Whether there is an LF or a CRLF at a place.
    pub(crate) fn is_eol_at(&self, place: usize) -> bool
        requires { place ≤ length self.now.bytes.now }
        ensures { result ≡ has_eol self.now.bytes.now place }
    {
        self.is_byte_at(b'\n', place)
            || self.is_byte_at(b'\r', place) && self.is_byte_at(b'\n', place + 1)
    }

    /// Where the line end that begins at a place ends.
    #[inline(always)]
    pub(crate) fn eol_end(&self, ptr: usize) -> Option<usize>
        requires { ptr ≤ length self.now.bytes.now }
        ensures eol { result ≡ after_eol self.now.bytes.now ptr }
        ensures within { IfSome result (λ end. (ptr < end) × (end ≤ length self.now.bytes.now)) }
    {
        if self.is_byte_at(b'\n', ptr) {
            Some(ptr + 1)
        } else if self.is_byte_at(b'\r', ptr) && self.is_byte_at(b'\n', ptr + 1) {
            Some(ptr + 2)
        } else {
            None
        }
    }

    pub(crate) fn skip_blank_inline(&self, ptr: usize) -> usize
        requires { ptr ≤ length self.now.bytes.now }
        ensures blank { InlineBlank self.now.bytes.now ptr result }
        ensures within { result ≤ length self.now.bytes.now }
    {
        let mut end = ptr;
        while end < self.bytes.len() && self.bytes[end] == b' ' {
            end += 1;
        }
        end
    }

    pub(crate) fn skip_blank(&self, ptr: usize) -> usize
        requires { ptr ≤ length self.now.bytes.now }
        ensures blank { Blank self.now.bytes.now ptr result }
        ensures within { result ≤ length self.now.bytes.now }
    {
        let mut end = ptr;
        loop {
            let line = self.skip_blank_inline(end);
            match self.eol_end(line) {
                Some(next) => end = next,
                None => return line,
            }
        }
    }

    /// Passes over blank lines, and gives the line after them. That is not blank.
    #[inline(always)]
    pub(crate) fn past_blank_lines(&self, ptr: usize) -> LineStart
        requires { ptr ≤ length self.now.bytes.now }
        ensures blank { BlankBlock self.now.bytes.now ptr result.start }
        ensures spaces { InlineBlank self.now.bytes.now result.start result.first }
        ensures within { (ptr ≤ result.start) × (result.first ≤ length self.now.bytes.now) }
    {
        let mut start = ptr;
        loop {
            let first = self.skip_blank_inline(start);
            match self.eol_end(first) {
                Some(next) => start = next,
                None => return LineStart { start, first },
            }
        }
    }

    #[inline(always)]
    pub(crate) fn skip_blank_block(&self, ptr: usize) -> usize
        requires { ptr ≤ length self.now.bytes.now }
        ensures blank { BlankBlock self.now.bytes.now ptr result }
        ensures forward { ptr ≤ result }
        ensures within { result ≤ length self.now.bytes.now }
    {
        self.past_blank_lines(ptr).start
    }
}
