//! The tail of a pattern's items, and the elements that are left.
ghost use Rattle.std.specs.Prelude.{◌≡◌, ◌++◌, ◌∷◌, [], map, OnOk};
ghost use Rattle.fluent_syntax_tree.specs.Spans.{bytes_at};
ghost use Rattle.fluent_syntax_tree.specs.Tree.{text_element};
ghost use Rattle.fluent_syntax_tree.specs.View.{element_view};
ghost use Rattle.fluent_syntax_grammar.specs.Elements.{is_nonblank, trimmed_end, stays};
ghost use Rattle.fluent_syntax_parser.specs.Elements.{AddsRest, CutsTo, element_of, item_view, last_of, rest_end};
ghost use Rattle.fluent_syntax_parser.specs.Elements.{run_of};
ghost use Rattle.fluent_syntax_parser.specs.Lines.{ending_view};
ghost use Rattle.fluent_syntax_parser.specs.Opened.{IsRest, piece_element};

use crate::lists::add;
use crate::pattern::elements::{add_lines, add_opening_end};
use crate::pattern::indents::common_indent;
use crate::pattern::line::{Ending, Line, OpeningEnd, Piece};
use crate::reader::Reader;
use crate::source::Source;
use crate::texts::MakeTexts;
use fluent_syntax_grammar::texts;
use fluent_syntax_tree::ast::PatternElement;
use fluent_syntax_tree::spans::Span;
use fluent_syntax_tree::trimming::trimmed_len;
use std::alloc::AllocError;

impl<'s> Source<'s> {
    /// Whether a text holds a byte other than space apart from an ending LF.
    pub(crate) fn is_nonblank(&self, text: Span) -> bool
        ensures { result ≡ is_nonblank (bytes_at self.now.bytes.now text) }
    {
        texts::is_nonblank(self.bytes_of(text))
    }

    /// The end of a text without its ending spaces, CRs and LFs.
    pub(crate) fn trimmed_end(&self, from: usize, to: usize) -> usize
        ensures { result ≡ trimmed_end self.now.bytes.now from to }
    {
        from + trimmed_len(self.bytes_of(Span {
            start: from,
            end: to,
        }))
    }
}

impl OpeningEnd {
    /// Where the text ends that is left: an LF that ends the line belongs to it.
    pub(crate) fn text_end(&self) -> usize
        ensures { result ≡ rest_end self.now.run.end (ending_view self.now.ending) }
    {
        match self.ending {
            Ending::Lf(place) => place + 1,
            _ => self.run.end,
        }
    }
}

impl<'s, 't, M: MakeTexts> Reader<'s, 't, M> {
    /// Whether it is a placeable, or a nonblank text.
    fn stays(&self, item: &Piece<M::Text>) -> bool
        ensures { result ≡ stays self.now.source.bytes.now (item_view M.made item.now) }
    {
        match item {
            Piece::Placed { .. } => true,
            Piece::Run { from, to } => self.source.is_nonblank(Span {
                start: *from,
                end: *to,
            }),
        }
    }

    /// Takes the items from the end on, up to the last one that stays there.
    fn pop_last(&self, items: &mut Vec<Piece<M::Text>>) -> Option<Piece<M::Text>>
        ensures { CutsTo M.made self.now.source.bytes.now items.old.items items.new.items result }
    {
        while let Some(last) = items.pop() {
            if self.stays(&last) {
                return Some(last);
            }
        }
        None
    }

    /// Adds a text.
    #[inline(never)]
    pub(crate) fn add_text(
        &self,
        text: Span,
        elements: &mut Vec<PatternElement<M::Text>>,
    ) -> Result<(), AllocError>
        ensures { OnOk result (map (element_view M.made) elements.new.items ≡ map (element_view M.made)
            elements.old.items ++ text_element (M.source self.now.texts.now text) ∷ []) }
    {
        let value = self.text(text)?;
        add(elements, PatternElement::TextElement { value })
    }

    /// Adds the text of a run, if it holds a byte.
    #[inline(always)]
    pub(crate) fn add_text_run(
        &self,
        run: Span,
        elements: &mut Vec<PatternElement<M::Text>>,
    ) -> Result<(), AllocError>
        ensures { OnOk result (map (element_view M.made) elements.new.items ≡ map (element_view M.made)
            elements.old.items ++ map (piece_element (M.source self.now.texts.now)) (run_of run)) }
    {
        let start = run.start;
        let end = run.end;
        if start < end {
            self.add_text(run, elements)
        } else {
            Ok(())
        }
    }

    /// Adds the element that an item is which others follow.
    fn add_element(
        &self,
        item: Piece<M::Text>,
        elements: &mut Vec<PatternElement<M::Text>>,
    ) -> Result<(), AllocError>
        ensures { OnOk result (map (element_view M.made) elements.new.items ≡ map (element_view M.made)
            elements.old.items ++ element_of (M.source self.now.texts.now) (item_view M.made item) ∷ []) }
    {
        match item {
            Piece::Run { from, to } => {
                let text = Span {
                    start: from,
                    end: to,
                };
                self.add_text(text, elements)
            }
            Piece::Placed { expression } => {
                let expression = Box::into_inner(expression);
                add(elements, PatternElement::Placeable { expression })
            }
        }
    }

    /// Adds the elements that items are which one more follows, with room for that.
    fn add_elements(
        &self,
        items: Vec<Piece<M::Text>>,
        elements: &mut Vec<PatternElement<M::Text>>,
    ) -> Result<(), AllocError>
        ensures { OnOk result (map (element_view M.made) elements.new.items ≡ map (element_view M.made)
            elements.old.items ++ map (element_of (M.source self.now.texts.now)) (map (item_view M.made) items.items)) }
    {
        elements.reserve(items.len().saturating_add(1))?;
        for item in items {
            self.add_element(item, elements)?;
        }
        Ok(())
    }

    /// Adds the element that the last item is: a text is trimmed at its end.
    fn add_last_element(
        &self,
        item: Piece<M::Text>,
        elements: &mut Vec<PatternElement<M::Text>>,
    ) -> Result<(), AllocError>
        ensures { OnOk result (map (element_view M.made) elements.new.items ≡ map (element_view M.made)
            elements.old.items
            ++ last_of (M.source self.now.texts.now) self.now.source.bytes.now (item_view M.made item) ∷ []) }
    {
        match item {
            Piece::Run { from, to } => {
                let end = self.source.trimmed_end(from, to);
                self.add_text(Span { start: from, end }, elements)
            }
            placed => self.add_element(placed, elements),
        }
    }

    /// Adds the elements that what is left of the opening line, and the other lines spell.
    #[inline(never)]
    fn add_tail(
        &self,
        opening: OpeningEnd,
        lines: Vec<Line<M::Text>>,
        elements: &mut Vec<PatternElement<M::Text>>,
    ) -> Result<(), AllocError>
        ensures { OnOk result (AddsRest (M.source self.now.texts.now) M.made self.now.edition
            self.now.source.bytes.now opening lines.items elements.old.items elements.new.items) }
    {
        let common = common_indent::<M>(self.edition, &lines);
        let mut items = Vec::new(self.alloc);
        add_opening_end(opening, &mut items)?;
        add_lines(self.edition, common, lines, &mut items)?;
        match self.pop_last(&mut items) {
            None => Ok(()),
            Some(last) => {
                self.add_elements(items, elements)?;
                self.add_last_element(last, elements)
            }
        }
    }

    /// The same; where there are no other lines, a text alone is left, and what follows is not gathered.
    #[inline(always)]
    pub(crate) fn end_elements(
        &self,
        opening: OpeningEnd,
        lines: Vec<Line<M::Text>>,
        elements: &mut Vec<PatternElement<M::Text>>,
    ) -> Result<(), AllocError>
        requires { IsRest self.now.source.bytes.now opening }
        ensures { OnOk result (AddsRest (M.source self.now.texts.now) M.made self.now.edition
            self.now.source.bytes.now opening lines.items elements.old.items elements.new.items) }
    {
        if !lines.is_empty() {
            return self.add_tail(opening, lines, elements);
        }
        let start = opening.run.start;
        let end = opening.text_end();
        if !self.source.is_nonblank(Span { start, end }) {
            return Ok(());
        }
        let end = self.source.trimmed_end(start, end);
        self.add_text(Span { start, end }, elements)
    }
}
