//! The lines of a pattern.
ghost use Rattle.std.specs.Prelude.{◌≡◌, ◌+◌, ◌-◌, ◌<◌, ◌≤◌, length, map, slice_get, IfOk, None, Some, false};
ghost use Rattle.std.specs.Prelude.{List, ◌==◌, ◌++◌, ◌∷◌, ◌^◌, [], true, if◌then◌else◌, IfErr, OnOk};
ghost use Rattle.fluent_syntax_tree.specs.Tree.{ExpressionTree};
ghost use Rattle.fluent_syntax_tree.specs.declared.ast.PatternElement.{PatternElement};
ghost use Rattle.fluent_syntax_grammar.specs.Construct.{Read};
ghost use Rattle.fluent_syntax_grammar.specs.Grammar.{within};
ghost use Rattle.fluent_syntax_grammar.specs.Layout.{crlf_at, lf_at, placed};
ghost use Rattle.fluent_syntax_grammar.specs.Lines.{belongs, ending, is_run_place, line, more_lines, more_pieces};
ghost use Rattle.fluent_syntax_grammar.specs.Places.{BlankBlock, has_eol, InlineBlank, LongestRun, ByteRun};
ghost use Rattle.fluent_syntax_parser.specs.Last.{AddsPlaced, EndsPlaced};
ghost use Rattle.fluent_syntax_parser.specs.Made.{AddsParsed, Fills};
ghost use Rattle.fluent_syntax_parser.specs.Endings.{EndsWithin};
ghost use Rattle.fluent_syntax_grammar.specs.Lanes.{is_passed};
ghost use Rattle.fluent_syntax_parser.specs.Layouts.{line_of, piece_of};
ghost use Rattle.fluent_syntax_parser.specs.Lines.{ending_view, line_view, piece_view};
ghost use Rattle.fluent_syntax_parser.specs.declared.pattern.line.Line.{Line};
ghost use Rattle.fluent_syntax_parser.specs.declared.pattern.line.Piece.{Piece};
ghost use Rattle.fluent_syntax_parser.specs.declared.pattern.line.Piece.TheVariants.{Run};

use crate::expression::last::take_expression;
use crate::fault::{Fault, ReadFault, Refusal};
use crate::lists::add;
use crate::pattern::line::{Ending, Line, Piece};
use crate::reader::Reader;
use crate::source::Source;
use crate::texts::MakeTexts;
use fluent_syntax_grammar::lanes::{LANES, text_run};
use fluent_syntax_tree::ast::PatternElement;
use memchr::memchr3;
use std::alloc::{AllocError, Global};

/// The ending at a place, by where it ends.
fn ending_at(place: usize, next: usize) -> Ending
    requires { place < next }
    ensures seen { ending_view result ≡ (if next == place + 1 then lf_at place else crlf_at place) }
    ensures ends { EndsWithin result }
{
    if next == place + 1 {
        Ending::Lf(place)
    } else {
        Ending::Crlf(place)
    }
}

/// How often sixteen bytes are looked at before a search that is dear to begin with.
const SHORT: usize = 5;

impl<'s> Source<'s> {
    /// The place of the next LF or brace, or the text's end.
    fn text_end(&self, ptr: usize) -> usize
        requires { ptr ≤ length self.now.bytes.now }
        ensures text { ByteRun self.now.bytes.now is_passed ptr result }
        ensures within { result ≤ length self.now.bytes.now }
    {
        let mut end = ptr;
        let mut looks = 0;
        while looks < SHORT && self.bytes.len() - end >= LANES {
            let run = text_run(self.bytes, end);
            end += run;
            if run < LANES {
                return end;
            }
            looks += 1;
        }
        let rest = &self.bytes[end..];
        end + memchr3(b'\n', b'{', b'}', rest).unwrap_or(rest.len())
    }

    /// Where the run ends that begins at a place: at LF, CRLF, a brace or the text's end.
    #[inline(always)]
    pub(crate) fn run_end(&self, ptr: usize) -> usize
        requires { ptr ≤ length self.now.bytes.now }
        ensures run { LongestRun (is_run_place self.now.bytes.now) ptr result }
        ensures within { result ≤ length self.now.bytes.now }
    {
        let end = self.text_end(ptr);
        if end > ptr && self.is_byte_at(b'\n', end) && self.is_byte_at(b'\r', end - 1) {
            end - 1
        } else {
            end
        }
    }

    /// Whether a line belongs to a pattern, by the byte after its leading spaces, if it has any.
    #[inline(always)]
    pub(crate) fn belongs(&self, byte: u8, indented: bool, ptr: usize) -> bool
        requires within { ptr ≤ length self.now.bytes.now }
        requires byte { slice_get self.now.bytes.now ptr ≡ Some byte }
        ensures { result ≡ belongs self.now.bytes.now indented ptr }
    {
        if self.is_eol_at(ptr) {
            true
        } else if indented {
            !matches!(byte, b'.' | b'}' | b'[' | b'*')
        } else {
            byte == b'{' || byte == b'\r'
        }
    }

    /// A line's ending, and where the next line begins.
    pub(crate) fn get_ending(&self, ptr: usize) -> (Ending, usize)
        requires { ptr ≤ length self.now.bytes.now }
        ensures parses { ending self.now.bytes.now ptr (Read (ending_view result.0) result.1) }
        ensures within { (ptr ≤ result.1) × (result.1 ≤ length self.now.bytes.now) }
        ensures further { has_eol self.now.bytes.now ptr ≡ true → ptr < result.1 }
        ensures ends { EndsWithin result.0 }
    {
        match self.eol_end(ptr) {
            Some(next) => (ending_at(ptr, next), next),
            None => (Ending::TextEnd, ptr),
        }
    }
}

/// Adds a run of text to the pieces of a line.
#[inline(never)]
fn add_run<T: Drop>(from: usize, to: usize, pieces: &mut Vec<Piece<T>>) -> Result<(), AllocError>
    ensures { OnOk result (pieces.new.items ≡ pieces.old.items ++ Run from to ∷ []) }
{
    add(pieces, Piece::Run { from, to })
}

/// Takes off the placeable that was read last, and adds it to the pieces of a line.
#[inline(never)]
fn add_placed<M: MakeTexts>(
    alloc: Global,
    elements: &mut Vec<PatternElement<M::Text>>,
    pieces: &mut Vec<Piece<M::Text>>,
) -> Result<(), AllocError>
    requires { EndsPlaced M.made elements.old.items }
    ensures { OnOk result ((piece : Piece M.Text) × (pieces.new.items ≡ pieces.old.items ++ piece ∷ [])
        × ((old : List (PatternElement M.Text)) (tree : ExpressionTree _) →
        AddsPlaced M.made old elements.old.items tree → piece_view M.made piece ≡ placed tree)) }
{
    let expression = Box::new(alloc, take_expression::<M>(elements))?;
    add(pieces, Piece::Placed { expression })
}

impl<'s, 't, M: MakeTexts> Reader<'s, 't, M> {
    /// Gathers the pieces of the rest of a line, up to its ending, in an empty list.
    #[cycle(readers)]
    #[inline(always)]
    pub(crate) fn gather_pieces(
        &self,
        nesting: usize,
        ptr: usize,
        pieces: &mut Vec<Piece<M::Text>>,
    ) -> Result<usize, ReadFault>
        requires within { ptr ≤ length self.now.source.bytes.now }
        requires empty { pieces.old.items ≡ [] }
        ensures parses { let t = self.now.source.bytes.now in
            Fills t (map (piece_of (M.source self.now.texts.now))) (more_pieces t (within self.now.edition t nesting))
            (map (piece_view M.made)) pieces.new.items ptr result }
        ensures within { IfOk result (λ end. (ptr ≤ end) × (end ≤ length self.now.source.bytes.now)) }
        ensures stops { let t = self.now.source.bytes.now in
            IfOk result (λ end. has_eol t end ≡ false → slice_get t end ≡ None) }
    {
        let mut elements = Vec::new(self.alloc);
        let mut place = ptr;
        loop {
            match self.source.byte_at(place) {
                None => return Ok(place),
                Some(byte) => {
                    if self.source.is_eol_at(place) {
                        return Ok(place);
                    }
                    if byte == b'}' {
                        return Err(ReadFault::Refused {
                            fault: Fault::UnbalancedBrace,
                            from: place,
                            place,
                        });
                    }
                    if byte == b'{' {
                        place = self.add_placeable(nesting, place, &mut elements)?;
                        add_placed::<M>(self.alloc, &mut elements, pieces)?;
                    } else {
                        let to = self.source.run_end(place);
                        add_run(place, to, pieces)?;
                        place = to;
                    }
                }
            }
        }
    }

    /// Adds the line whose pieces end at a place, and gives where the next line begins.
    #[inline(never)]
    fn end_line(
        &self,
        start: usize,
        spaces: usize,
        pieces: Vec<Piece<M::Text>>,
        end: usize,
        lines: &mut Vec<Line<M::Text>>,
    ) -> Result<usize, AllocError>
        requires fits { start + spaces < 2 ^ 64 }
        requires within { end ≤ length self.now.source.bytes.now }
        ensures adds { let t = self.now.source.bytes.now in let seen = map (piece_view M.made) pieces.items in
            IfOk result (λ next. (added : Line M.Text) × (found : _)
            × (lines.new.items ≡ lines.old.items ++ added ∷ [])
            × (line_view M.made added ≡ record { start = start; spaces = spaces; pieces = seen; ending = found })
            × ending t end (Read found next)) }
        ensures within { IfOk result (λ next. (end ≤ next) × (next ≤ length self.now.source.bytes.now)) }
        ensures further { let t = self.now.source.bytes.now in
            IfOk result (λ next. has_eol t end ≡ true → end < next) }
        ensures stays { IfErr result (λ _. lines.new.items ≡ lines.old.items) }
    {
        let (ending, next) = self.source.get_ending(end);
        let line = Line {
            start,
            spaces,
            pieces,
            ending,
        };
        add(lines, line)?;
        Ok(next)
    }

    /// Reads the line that begins at `start`, whose leading spaces end at `first`, and adds it. There is a byte.
    #[cycle(readers)]
    #[inline(never)]
    fn gather_line(
        &self,
        nesting: usize,
        start: usize,
        first: usize,
        lines: &mut Vec<Line<M::Text>>,
    ) -> Result<usize, ReadFault>
        requires within { first < length self.now.source.bytes.now }
        requires blank { InlineBlank self.now.source.bytes.now start first }
        ensures adds { let t = self.now.source.bytes.now in
            AddsParsed t (line_of (M.source self.now.texts.now)) (line t (within self.now.edition t nesting))
            (line_view M.made) lines.old.items lines.new.items start result }
        ensures within { IfOk result (λ next. (start < next) × (next ≤ length self.now.source.bytes.now)) }
    {
        let mut pieces = Vec::new(self.alloc);
        let end = self.gather_pieces(nesting, first, &mut pieces)?;
        let next = self.end_line(start, first - start, pieces, end, lines)?;
        Ok(next)
    }

    /// Gathers the lines that belong to a pattern, from a line's start on, in an empty list.
    #[cycle(readers)]
    pub(crate) fn gather_lines(
        &self,
        nesting: usize,
        ptr: usize,
        lines: &mut Vec<Line<M::Text>>,
    ) -> Result<usize, ReadFault>
        requires within { ptr ≤ length self.now.source.bytes.now }
        requires empty { lines.old.items ≡ [] }
        ensures parses { let t = self.now.source.bytes.now in
            Fills t (map (line_of (M.source self.now.texts.now))) (more_lines t (within self.now.edition t nesting))
            (map (line_view M.made)) lines.new.items ptr result }
        ensures beyond { IfOk result (λ end. BlankBlock self.now.source.bytes.now end end) }
        ensures within { IfOk result (λ end. (ptr ≤ end) × (end ≤ length self.now.source.bytes.now)) }
    {
        let mut start = ptr;
        loop {
            let first = self.source.skip_blank_inline(start);
            match self.source.byte_at(first) {
                None => return Ok(first),
                Some(byte) => {
                    if !self.source.belongs(byte, first > start, first) {
                        return Ok(start);
                    }
                    start = self.gather_line(nesting, start, first, lines)?;
                }
            }
        }
    }
}
