//! Patterns.
ghost use Rattle.std.specs.Prelude.{◌≡◌, ◌≤◌, [], length, option_map, IfOk, IfSome};
ghost use Rattle.fluent_syntax_tree.specs.Tree.{pattern_map};
ghost use Rattle.fluent_syntax_tree.specs.View.{pattern_view};
ghost use Rattle.fluent_syntax_grammar.specs.Grammar.{within};
ghost use Rattle.fluent_syntax_grammar.specs.Patterns.{pattern};
ghost use Rattle.fluent_syntax_grammar.specs.Places.{BlankBlock, InlineBlank};
ghost use Rattle.fluent_syntax_parser.specs.Made.{Parses};
ghost use Rattle.fluent_syntax_parser.specs.OneLine.{EndsBlank, EndsLine, OpensAs, text_pattern};
ghost use Rattle.fluent_syntax_parser.specs.Opened.{IsRest, Opens};

pub(crate) mod elements;
pub(crate) mod indents;
pub(crate) mod line;
pub(crate) mod lines;
pub(crate) mod tails;

use crate::fault::{Fault, ReadFault};
use crate::pattern::line::{Ending, OpeningEnd};
use crate::reader::Reader;
use crate::source::Source;
use crate::texts::MakeTexts;
use fluent_syntax_tree::ast::{Pattern, PatternElement};
use fluent_syntax_tree::edition::Edition;
use fluent_syntax_tree::spans::Span;
use std::alloc::AllocError;

impl<'s> Source<'s> {
    /// Where a text ends whose line ends at a place, with the LF there, and where the next line begins. `None`,
    /// where no line ends there.
    #[inline(always)]
    fn line_ending(&self, to: usize) -> Option<(usize, usize)>
        requires { to ≤ length self.now.bytes.now }
        ensures ending { IfSome result (λ read. EndsLine self.now.bytes.now to read.0 read.1) }
        ensures within { IfSome result
            (λ read. (to ≤ read.0) × (read.0 ≤ read.1) × (read.1 ≤ length self.now.bytes.now)) }
    {
        match self.eol_end(to) {
            Some(next) => {
                if next == to + 1 {
                    Some((next, next))
                } else {
                    Some((to, next))
                }
            }
            None => {
                if to == self.bytes.len() {
                    Some((to, to))
                } else {
                    None
                }
            }
        }
    }

    /// Where a pattern ends whose lines from a line's start on are all blank.
    #[inline(always)]
    fn end_after_blank_lines(&self, edition: Edition, ptr: usize) -> Option<usize>
        requires { ptr ≤ length self.now.bytes.now }
        ensures lines { IfSome result (EndsBlank edition self.now.bytes.now ptr) }
        ensures beyond { IfSome result (λ end. BlankBlock self.now.bytes.now end end) }
        ensures within { IfSome result (λ end. (ptr ≤ end) × (end ≤ length self.now.bytes.now)) }
    {
        let line = self.past_blank_lines(ptr);
        match self.byte_at(line.first) {
            None => Some(line.first),
            Some(byte) => {
                if self.belongs(byte, line.first > line.start, line.first) {
                    None
                } else {
                    Some(line.start)
                }
            }
        }
    }

    /// Reads a pattern of one line without placeable, after the inline blank that opens it, if there is one: its
    /// text, if it holds one.
    #[inline(always)]
    pub(crate) fn one_line_text(
        &self,
        edition: Edition,
        start: usize,
    ) -> Option<(Option<Span>, usize)>
        requires { start ≤ length self.now.bytes.now }
        ensures opens { IfSome result
            (λ read. OpensAs edition self.now.bytes.now start (option_map text_pattern read.0) read.1) }
        ensures beyond { IfSome result (λ read. BlankBlock self.now.bytes.now read.1 read.1) }
        ensures within { IfSome result (λ read. (start ≤ read.1) × (read.1 ≤ length self.now.bytes.now)) }
    {
        let to = self.run_end(start);
        let (text_end, next) = self.line_ending(to)?;
        let end = self.end_after_blank_lines(edition, next)?;
        if start < to {
            let value = Span {
                start,
                end: self.trimmed_end(start, text_end),
            };
            Some((Some(value), end))
        } else {
            Some((None, end))
        }
    }
}

impl<'s, 't, M: MakeTexts> Reader<'s, 't, M> {
    /// The pattern that is one text, if there is one.
    fn short_pattern(&self, text: Option<Span>) -> Result<Option<Pattern<M::Text>>, AllocError>
        ensures { IfOk result (λ pattern. option_map (pattern_view M.made) pattern
            ≡ option_map (pattern_map (M.source self.now.texts.now)) (option_map text_pattern text)) }
    {
        let Some(text) = text else {
            return Ok(None);
        };
        let value = self.text(text)?;
        let mut elements = Vec::with_capacity(self.alloc, 1)?;
        elements.push_reserved(PatternElement::TextElement { value });
        Ok(Some(Pattern { elements }))
    }

    /// Reads the line on which a pattern opens, after the inline blank there: adds its elements up to its last
    /// placeable, and gives what is left of it, and where the other lines begin.
    #[cycle(readers)]
    #[inline(always)]
    fn add_opening(
        &self,
        nesting: usize,
        ptr: usize,
        elements: &mut Vec<PatternElement<M::Text>>,
    ) -> Result<(OpeningEnd, usize), ReadFault>
        requires within { ptr ≤ length self.now.source.bytes.now }
        requires empty { elements.old.items ≡ [] }
        ensures opens { let t = self.now.source.bytes.now in let R = within self.now.edition t nesting in
            Opens t R (M.source self.now.texts.now) M.made ptr elements.new.items result }
        ensures rest { IfOk result (λ read. IsRest self.now.source.bytes.now read.0) }
        ensures within { IfOk result (λ read. (ptr ≤ read.1) × (read.1 ≤ length self.now.source.bytes.now)) }
    {
        if let Some(next) = self.source.eol_end(ptr) {
            let run = Span {
                start: ptr,
                end: ptr,
            };
            let ending = Ending::TextEnd;
            let line = self.source.skip_blank_block(next);
            return Ok((OpeningEnd { run, ending }, line));
        }
        let mut place = ptr;
        loop {
            let to = self.source.run_end(place);
            let run = Span {
                start: place,
                end: to,
            };
            match self.source.byte_at(to) {
                Some(b'{') => {
                    self.add_text_run(run, elements)?;
                    place = self.add_placeable(nesting, to, elements)?;
                }
                Some(b'}') => {
                    return Err(ReadFault::Refused {
                        fault: Fault::UnbalancedBrace,
                        from: to,
                        place: to,
                    });
                }
                _ => {
                    let (ending, next) = self.source.get_ending(to);
                    return Ok((OpeningEnd { run, ending }, next));
                }
            }
        }
    }

    /// Reads a pattern that is not on one line, or that has a placeable. The inline blank that opens it ends at
    /// `start`.
    #[cycle(readers)]
    #[inline(never)]
    fn get_long_pattern(
        &self,
        nesting: usize,
        ptr: usize,
        start: usize,
    ) -> Result<(Option<Pattern<M::Text>>, usize), ReadFault>
        requires within { start ≤ length self.now.source.bytes.now }
        requires blank { InlineBlank self.now.source.bytes.now ptr start }
        ensures parses { let t = self.now.source.bytes.now in
            Parses t (option_map (pattern_map (M.source self.now.texts.now)))
            (pattern self.now.edition t (within self.now.edition t nesting)) (option_map (pattern_view M.made)) ptr
            result }
        ensures beyond { IfOk result (λ read. BlankBlock self.now.source.bytes.now read.1 read.1) }
        ensures within { IfOk result (λ read. (ptr ≤ read.1) × (read.1 ≤ length self.now.source.bytes.now)) }
    {
        let mut elements = Vec::new(self.alloc);
        let mut lines = Vec::new(self.alloc);
        let (opening, next) = self.add_opening(nesting, start, &mut elements)?;
        let end = self.gather_lines(nesting, next, &mut lines)?;
        self.end_elements(opening, lines, &mut elements)?;
        if elements.is_empty() {
            Ok((None, end))
        } else {
            Ok((Some(Pattern { elements }), end))
        }
    }

    /// Reads a pattern, if there is one. No blank line comes after it. That of one line without placeable is read
    /// by itself, and takes one allocation.
    #[cycle(readers)]
    #[inline(always)]
    pub(crate) fn get_pattern(
        &self,
        nesting: usize,
        ptr: usize,
    ) -> Result<(Option<Pattern<M::Text>>, usize), ReadFault>
        requires { ptr ≤ length self.now.source.bytes.now }
        ensures parses { let t = self.now.source.bytes.now in
            Parses t (option_map (pattern_map (M.source self.now.texts.now)))
            (pattern self.now.edition t (within self.now.edition t nesting)) (option_map (pattern_view M.made)) ptr
            result }
        ensures beyond { IfOk result (λ read. BlankBlock self.now.source.bytes.now read.1 read.1) }
        ensures within { IfOk result (λ read. (ptr ≤ read.1) × (read.1 ≤ length self.now.source.bytes.now)) }
    {
        let start = self.source.skip_blank_inline(ptr);
        match self.source.one_line_text(self.edition, start) {
            Some((text, end)) => {
                let pattern = self.short_pattern(text)?;
                Ok((pattern, end))
            }
            None => self.get_long_pattern(nesting, ptr, start),
        }
    }
}
