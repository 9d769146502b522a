//! Selects, from the arrow on.
ghost use Rattle.std.specs.Prelude.{◌≡◌, ◌<◌, ◌≤◌, List, length, true, IfOk, OnOk};
ghost use Rattle.fluent_syntax_tree.specs.Tree.{InlineTree, expression_map, inline, select};
ghost use Rattle.fluent_syntax_tree.specs.View.{inline_view};
ghost use Rattle.fluent_syntax_tree.specs.declared.ast.PatternElement.{PatternElement};
ghost use Rattle.fluent_syntax_tree.specs.declared.spans.Span.{Span};
ghost use Rattle.fluent_syntax_grammar.specs.Grammar.{within};
ghost use Rattle.fluent_syntax_grammar.specs.Expressions.{has_arrow, select_with, selector_fault};
ghost use Rattle.fluent_syntax_parser.specs.Boxed.{mapped_inline};
ghost use Rattle.fluent_syntax_parser.specs.Gathered.{variants_view};
ghost use Rattle.fluent_syntax_parser.specs.Last.{AddsPlaced, EndsInline, Pushes};
ghost use Rattle.fluent_syntax_parser.specs.Outcomes.{ParsesEnd};
ghost use Rattle.fluent_syntax_parser.specs.Selects.{select_start};

use crate::expression::last::{last_inline, take_inline};
use crate::fault::{ReadFault, Refusal};
use crate::lists::add;
use crate::reader::Reader;
use crate::texts::MakeTexts;
use fluent_syntax_tree::ast::{Expression, InlineExpression, PatternElement, Variant};
use std::alloc::AllocError;

impl<'s, 't, M: MakeTexts> Reader<'s, 't, M> {
    /// Where the first variant of a select is, whose arrow is at the place; or why it is no select.
    #[inline(never)]
    fn variants_start(
        &self,
        selector: &InlineExpression<M::Text>,
        ptr: usize,
    ) -> Result<usize, Refusal>
        requires within { ptr ≤ length self.now.source.bytes.now }
        requires arrow { has_arrow self.now.source.bytes.now ptr ≡ true }
        ensures parses { let t = self.now.source.bytes.now in
            ParsesEnd t (select_start t (selector_fault (inline_view M.made selector.now))) ptr result }
        ensures within { IfOk result (λ start. (ptr < start) × (start ≤ length self.now.source.bytes.now)) }
    {
        match self.selector_fault(selector) {
            Some(fault) => Err(Refusal {
                fault,
                from: ptr,
                place: ptr,
            }),
            None => {
                let ptr = self.source.skip_blank_inline(ptr + 2);
                let ptr = self.source.arrow_line_end(ptr)?;
                Ok(self.source.skip_blank(ptr))
            }
        }
    }

    /// Makes the inline expression that was added last the selector of a select.
    #[inline(never)]
    fn add_variants(
        &self,
        variants: Vec<Variant<M::Text>>,
        elements: &mut Vec<PatternElement<M::Text>>,
    ) -> Result<(), AllocError>
        requires { EndsInline M.made elements.old.items }
        ensures { OnOk result ((old : List (PatternElement M.Text)) (tree : InlineTree _) →
            AddsPlaced M.made old elements.old.items (inline tree) →
            AddsPlaced M.made old elements.new.items (select tree (variants_view M.made variants.items))) }
    {
        let selector = take_inline::<M>(elements);
        let expression = Expression::Select { selector, variants };
        add(elements, PatternElement::Placeable { expression })
    }

    /// Reads a select from its arrow on, whose selector was added last, and adds it in place of that.
    #[cycle(readers)]
    #[inline(never)]
    pub(crate) fn end_select(
        &self,
        nesting: usize,
        ptr: usize,
        elements: &mut Vec<PatternElement<M::Text>>,
    ) -> Result<usize, ReadFault>
        requires within { ptr ≤ length self.now.source.bytes.now }
        requires arrow { has_arrow self.now.source.bytes.now ptr ≡ true }
        requires selector { EndsInline M.made elements.old.items }
        ensures parses { let t = self.now.source.bytes.now in let f = M.source self.now.texts.now in
            (old : List (PatternElement M.Text)) (e : InlineTree Span) →
            AddsPlaced M.made old elements.old.items (mapped_inline f e) →
            Pushes M.made t (expression_map f)
            (select_with self.now.edition t (within self.now.edition t nesting) e (selector_fault e)) old
            elements.new.items ptr result }
        ensures within { IfOk result (λ end. (ptr < end) × (end ≤ length self.now.source.bytes.now)) }
    {
        let start = self.variants_start(last_inline::<M>(elements), ptr)?;
        let mut variants = Vec::new(self.alloc);
        let end = self.gather_variants(nesting, start, &mut variants)?;
        self.add_variants(variants, elements)?;
        Ok(end)
    }
}
