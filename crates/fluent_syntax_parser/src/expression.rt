//! Inline expressions, placeables and selects.
ghost use Rattle.std.specs.Prelude.{◌≡◌, ◌-◌, ◌<◌, ◌≤◌, List, length, IfOk, OnOk};
ghost use Rattle.fluent_syntax_tree.specs.Tree.{ExpressionTree, expression_map, inline, inline_placeable};
ghost use Rattle.fluent_syntax_tree.specs.declared.ast.PatternElement.{PatternElement};
ghost use Rattle.fluent_syntax_grammar.specs.Construct.{peek};
ghost use Rattle.fluent_syntax_grammar.specs.Family.{placeable};
ghost use Rattle.fluent_syntax_grammar.specs.Grammar.{within};
ghost use Rattle.fluent_syntax_grammar.specs.Inline.{inline_expression};
ghost use Rattle.fluent_syntax_grammar.specs.Expressions.{arrow_line_end, expression, has_arrow};
ghost use Rattle.fluent_syntax_grammar.specs.Places.{after_eol};
ghost use Rattle.fluent_syntax_grammar.specs.Starts.{brace, letter, start, term};
ghost use Rattle.fluent_syntax_parser.specs.Boxed.{mapped_inline};
ghost use Rattle.fluent_syntax_parser.specs.Last.{AddsPlaced, EndsPlaced, Pushes};
ghost use Rattle.fluent_syntax_parser.specs.Outcomes.{ParsesEnd};

pub(crate) mod argument_names;
pub(crate) mod arguments;
pub(crate) mod forms;
pub(crate) mod last;
pub(crate) mod literals;
pub(crate) mod references;
pub(crate) mod selects;
pub(crate) mod starts;
pub(crate) mod variants;

use crate::expression::last::{add_inline, last_inline, take_expression};
use crate::expression::starts::Start;
use crate::fault::{Fault, ReadFault, Refusal};
use crate::reader::Reader;
use crate::source::Source;
use crate::texts::MakeTexts;
use fluent_syntax_tree::ast::{Expression, InlineExpression, PatternElement};
use fluent_syntax_tree::spans::Span;
use std::alloc::AllocError;

impl<'s> Source<'s> {
    /// Whether there is a `->` at the place.
    pub(crate) fn is_arrow(&self, ptr: usize) -> bool
        requires { ptr ≤ length self.now.bytes.now }
        ensures { result ≡ has_arrow self.now.bytes.now ptr }
    {
        self.is_byte_at(b'-', ptr) && self.is_byte_at(b'>', ptr + 1)
    }

    /// The end of the line end that has to follow an arrow.
    pub(crate) fn arrow_line_end(&self, ptr: usize) -> Result<usize, Refusal>
        requires { ptr ≤ length self.now.bytes.now }
        ensures parses { let t = self.now.bytes.now in
            ParsesEnd t (peek (after_eol t) arrow_line_end) ptr result }
        ensures within { IfOk result (λ end. (ptr < end) × (end ≤ length self.now.bytes.now)) }
    {
        match self.eol_end(ptr) {
            Some(end) => Ok(end),
            None => Err(Refusal {
                fault: Fault::LineEnd,
                from: ptr,
                place: ptr,
            }),
        }
    }
}

impl<'s, 't, M: MakeTexts> Reader<'s, 't, M> {
    /// Reads a reference to a term, and adds it: `-`, its name, an attribute if `.` follows, and arguments if `(`
    /// follows.
    #[cycle(readers)]
    #[inline(never)]
    fn add_term_reference(
        &self,
        nesting: usize,
        ptr: usize,
        elements: &mut Vec<PatternElement<M::Text>>,
    ) -> Result<usize, ReadFault>
        requires within { ptr ≤ length self.now.source.bytes.now }
        requires starts { term ≡ start self.now.source.bytes.now ptr }
        ensures parses { let t = self.now.source.bytes.now in
            Pushes M.made t (mapped_inline (M.source self.now.texts.now))
            (inline_expression t (within self.now.edition t nesting)) elements.old.items elements.new.items ptr
            result }
        ensures within { IfOk result (λ end. (ptr < end) × (end ≤ length self.now.source.bytes.now)) }
    {
        let start = self.source.expect_byte(b'-', ptr)?;
        let end = self.source.identifier_end(start)?;
        let (attribute, ptr) = self.source.get_attribute_accessor(end)?;
        let (arguments, ptr) = self.get_call_arguments(nesting, ptr)?;
        self.add_term_named(Span { start, end }, attribute, arguments, elements)?;
        Ok(ptr)
    }

    /// Reads a reference to a function or to a message, by its name and what follows it, and adds it.
    #[cycle(readers)]
    #[inline(never)]
    fn add_reference(
        &self,
        nesting: usize,
        ptr: usize,
        elements: &mut Vec<PatternElement<M::Text>>,
    ) -> Result<usize, ReadFault>
        requires within { ptr ≤ length self.now.source.bytes.now }
        requires starts { letter ≡ start self.now.source.bytes.now ptr }
        ensures parses { let t = self.now.source.bytes.now in
            Pushes M.made t (mapped_inline (M.source self.now.texts.now))
            (inline_expression t (within self.now.edition t nesting)) elements.old.items elements.new.items ptr
            result }
        ensures within { IfOk result (λ end. (ptr < end) × (end ≤ length self.now.source.bytes.now)) }
    {
        let end = self.source.identifier_end(ptr)?;
        let name = Span { start: ptr, end };
        let (arguments, ptr) = self.get_call_arguments(nesting, end)?;
        self.add_named_reference(name, arguments, ptr, elements)
    }

    /// Puts the expression that was added last into a placeable of its own.
    #[inline(never)]
    fn wrap_last(&self, elements: &mut Vec<PatternElement<M::Text>>) -> Result<(), AllocError>
        requires { EndsPlaced M.made elements.old.items }
        ensures { OnOk result ((old : List (PatternElement M.Text)) (tree : ExpressionTree _) →
            AddsPlaced M.made old elements.old.items tree →
            AddsPlaced M.made old elements.new.items (inline (inline_placeable tree))) }
    {
        let expression = Box::new(self.alloc, take_expression::<M>(elements))?;
        add_inline(InlineExpression::Placeable { expression }, elements)
    }

    /// Reads a placeable that is an inline expression, and adds it.
    #[cycle(readers)]
    #[inline(never)]
    fn add_inner_placeable(
        &self,
        nesting: usize,
        ptr: usize,
        elements: &mut Vec<PatternElement<M::Text>>,
    ) -> Result<usize, ReadFault>
        requires within { ptr ≤ length self.now.source.bytes.now }
        requires starts { brace ≡ start self.now.source.bytes.now ptr }
        ensures parses { let t = self.now.source.bytes.now in
            Pushes M.made t (mapped_inline (M.source self.now.texts.now))
            (inline_expression t (within self.now.edition t nesting)) elements.old.items elements.new.items ptr
            result }
        ensures within { IfOk result (λ end. (ptr < end) × (end ≤ length self.now.source.bytes.now)) }
    {
        let end = self.add_placeable(nesting, ptr, elements)?;
        self.wrap_last(elements)?;
        Ok(end)
    }

    /// Reads an inline expression, and adds it: what is at the place decides its form.
    #[cycle(readers)]
    #[inline(always)]
    pub(crate) fn add_inline_expression(
        &self,
        nesting: usize,
        ptr: usize,
        elements: &mut Vec<PatternElement<M::Text>>,
    ) -> Result<usize, ReadFault>
        requires { ptr ≤ length self.now.source.bytes.now }
        ensures parses { let t = self.now.source.bytes.now in
            Pushes M.made t (mapped_inline (M.source self.now.texts.now))
            (inline_expression t (within self.now.edition t nesting)) elements.old.items elements.new.items ptr
            result }
        ensures within { IfOk result (λ end. (ptr < end) × (end ≤ length self.now.source.bytes.now)) }
    {
        match self.source.start(ptr) {
            Start::Quote => self.add_string(ptr, elements),
            Start::Digit | Start::Minus => self.add_number(ptr, elements),
            Start::Term => self.add_term_reference(nesting, ptr, elements),
            Start::Dollar => self.add_variable(ptr, elements),
            Start::Letter => self.add_reference(nesting, ptr, elements),
            Start::Brace => self.add_inner_placeable(nesting, ptr, elements),
            Start::Other => Err(ReadFault::Refused {
                fault: Fault::InlineExpression,
                from: ptr,
                place: ptr,
            }),
        }
    }

    /// Reads an inline expression or a select, and adds it.
    #[cycle(readers)]
    fn add_expression(
        &self,
        nesting: usize,
        ptr: usize,
        elements: &mut Vec<PatternElement<M::Text>>,
    ) -> Result<usize, ReadFault>
        requires { ptr ≤ length self.now.source.bytes.now }
        ensures parses { let t = self.now.source.bytes.now in
            Pushes M.made t (expression_map (M.source self.now.texts.now))
            (expression self.now.edition t (within self.now.edition t nesting)) elements.old.items elements.new.items
            ptr result }
        ensures within { IfOk result (λ end. (ptr < end) × (end ≤ length self.now.source.bytes.now)) }
    {
        let ptr = self.add_inline_expression(nesting, ptr, elements)?;
        let ptr = self.source.skip_blank(ptr);
        if self.source.is_arrow(ptr) {
            return self.end_select(nesting, ptr, elements);
        }
        if self.is_term_attribute(last_inline::<M>(elements)) {
            return Err(ReadFault::Refused {
                fault: Fault::TermAttribute,
                from: ptr,
                place: ptr,
            });
        }
        Ok(ptr)
    }

    /// Reads an expression in braces, and adds the placeable.
    #[cycle(readers)]
    pub(crate) fn add_placeable(
        &self,
        nesting: usize,
        ptr: usize,
        elements: &mut Vec<PatternElement<M::Text>>,
    ) -> Result<usize, ReadFault>
        requires { ptr ≤ length self.now.source.bytes.now }
        ensures parses { let t = self.now.source.bytes.now in
            Pushes M.made t (expression_map (M.source self.now.texts.now))
            (placeable t (within self.now.edition t nesting)) elements.old.items elements.new.items ptr result }
        ensures within { IfOk result (λ end. (ptr < end) × (end ≤ length self.now.source.bytes.now)) }
    {
        let start = self.source.expect_byte(b'{', ptr)?;
        if nesting == 0 {
            return Err(ReadFault::TooDeep);
        }
        let start = self.source.skip_blank(start);
        let ptr = self.add_expression(nesting - 1, start, elements)?;
        let ptr = self.source.skip_blank_inline(ptr);
        let end = self.source.expect_byte(b'}', ptr)?;
        Ok(end)
    }
}
