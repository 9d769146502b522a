//! Argument lists.
ghost use Rattle.std.specs.Prelude.{◌≡◌, ◌-◌, ◌<◌, ◌≤◌, ◌++◌, ◌∷◌, [], List, length, IfOk, OnOk};
ghost use Rattle.fluent_syntax_tree.specs.Spans.{bytes_at};
ghost use Rattle.fluent_syntax_tree.specs.Tree.{InlineTree, arguments_map, inline, maybe_map};
ghost use Rattle.fluent_syntax_tree.specs.View.{arguments_view, inline_view};
ghost use Rattle.fluent_syntax_tree.specs.declared.ast.InlineExpression.{InlineExpression};
ghost use Rattle.fluent_syntax_tree.specs.declared.ast.NamedArgument.{NamedArgument};
ghost use Rattle.fluent_syntax_tree.specs.declared.ast.PatternElement.{PatternElement};
ghost use Rattle.fluent_syntax_grammar.specs.Arguments.{argument_value, is_used, more_arguments, separator};
ghost use Rattle.fluent_syntax_grammar.specs.Construct.{Read, peek};
ghost use Rattle.fluent_syntax_grammar.specs.Family.{call_arguments};
ghost use Rattle.fluent_syntax_grammar.specs.Grammar.{within};
ghost use Rattle.fluent_syntax_grammar.specs.Starts.{start};
ghost use Rattle.fluent_syntax_parser.specs.Boxed.{mapped_inline};
ghost use Rattle.fluent_syntax_parser.specs.Gathered.{maybe_view, names_in_order};
ghost use Rattle.fluent_syntax_parser.specs.Last.{AddsPlaced, EndsInline, Pushes};
ghost use Rattle.fluent_syntax_parser.specs.Made.{Parses};

use crate::expression::argument_names::SeenNames;
use crate::expression::last::{last_inline, take_inline};
use crate::expression::starts::Start;
use crate::fault::{Fault, ReadFault, Refusal};
use crate::lists::add;
use crate::reader::Reader;
use crate::source::Source;
use crate::texts::MakeTexts;
use fluent_syntax_tree::ast::{CallArguments, InlineExpression, NamedArgument, PatternElement};
use fluent_syntax_tree::spans::Span;
use std::alloc::AllocError;

impl<'s> Source<'s> {
    /// Whether a name is one of the names, by its bytes.
    pub(crate) fn has_name(&self, names: &[Span], name: Span) -> bool
        ensures { let t = self.now.bytes.now in
            result ≡ is_used (bytes_at t name) (names_in_order t names.now) }
    {
        for other in names {
            if self.bytes_of(name) == self.bytes_of(*other) {
                return true;
            }
        }
        false
    }

    /// Passes over a blank, perhaps a comma, and a blank.
    pub(crate) fn skip_separator(&self, ptr: usize) -> usize
        requires { ptr ≤ length self.now.bytes.now }
        ensures parses { separator self.now.bytes.now ptr (Read tt result) }
        ensures within { (ptr ≤ result) × (result ≤ length self.now.bytes.now) }
    {
        let ptr = self.skip_blank(ptr);
        let (_, ptr) = self.take_byte_if(b',', ptr);
        self.skip_blank(ptr)
    }
}

impl<'s, 't, M: MakeTexts> Reader<'s, 't, M> {
    /// Takes off the inline expression that was read last, and adds it as a positional argument.
    #[inline(never)]
    fn add_positional(
        &self,
        elements: &mut Vec<PatternElement<M::Text>>,
        positional: &mut Vec<InlineExpression<M::Text>>,
    ) -> Result<(), AllocError>
        requires { EndsInline M.made elements.old.items }
        ensures { OnOk result ((argument : InlineExpression M.Text)
            × (positional.new.items ≡ positional.old.items ++ argument ∷ [])
            × ((old : List (PatternElement M.Text)) (tree : InlineTree _) →
            AddsPlaced M.made old elements.old.items (inline tree) → inline_view M.made argument ≡ tree)) }
    {
        add(positional, take_inline::<M>(elements))
    }

    /// Takes off the inline expression that was read last, and adds it as the value of a named argument.
    #[inline(never)]
    fn add_named(
        &self,
        name: Span,
        elements: &mut Vec<PatternElement<M::Text>>,
        named: &mut Vec<NamedArgument<M::Text>>,
    ) -> Result<(), AllocError>
        requires { EndsInline M.made elements.old.items }
        ensures { let f = M.source self.now.texts.now in OnOk result ((argument : NamedArgument M.Text)
            × (named.new.items ≡ named.old.items ++ argument ∷ []) × (M.made argument.name.name ≡ f name)
            × ((old : List (PatternElement M.Text)) (tree : InlineTree _) →
            AddsPlaced M.made old elements.old.items (inline tree) → inline_view M.made argument.value ≡ tree)) }
    {
        let name = self.identifier(name)?;
        let value = take_inline::<M>(elements);
        add(named, NamedArgument { name, value })
    }

    /// Reads the value of a named argument, and adds it: a string, a number without `-`, a function or a message
    /// reference.
    #[cycle(readers)]
    fn add_argument_value(
        &self,
        nesting: usize,
        ptr: usize,
        elements: &mut Vec<PatternElement<M::Text>>,
    ) -> Result<usize, ReadFault>
        requires { ptr ≤ length self.now.source.bytes.now }
        ensures parses { let t = self.now.source.bytes.now in
            Pushes M.made t (mapped_inline (M.source self.now.texts.now))
            (peek (start t) (argument_value t (within self.now.edition t nesting))) elements.old.items
            elements.new.items ptr result }
        ensures within { IfOk result (λ end. (ptr < end) × (end ≤ length self.now.source.bytes.now)) }
    {
        match self.source.start(ptr) {
            Start::Quote | Start::Digit | Start::Letter => {
                let end = self.add_inline_expression(nesting, ptr, elements)?;
                Ok(end)
            }
            _ => Err(ReadFault::Refused {
                fault: Fault::Literal,
                from: ptr,
                place: ptr,
            }),
        }
    }

    /// Reads the rest of an argument list with its `)`, after the `(` and the blank there.
    #[cycle(readers)]
    #[inline(never)]
    fn get_arguments(
        &self,
        nesting: usize,
        ptr: usize,
    ) -> Result<(CallArguments<M::Text>, usize), ReadFault>
        requires { ptr ≤ length self.now.source.bytes.now }
        ensures parses { let t = self.now.source.bytes.now in
            Parses t (arguments_map (M.source self.now.texts.now))
            (more_arguments t (within self.now.edition t nesting) []) (arguments_view M.made) ptr result }
        ensures within { IfOk result (λ read. (ptr < read.1) × (read.1 ≤ length self.now.source.bytes.now)) }
    {
        let mut elements = Vec::new(self.alloc);
        let mut positional = Vec::new(self.alloc);
        let mut named = Vec::new(self.alloc);
        let mut noted = SeenNames::new(self.alloc);
        let mut place = ptr;
        while !self.source.is_byte_at(b')', place) {
            if place == self.source.bytes.len() {
                return Err(ReadFault::Refused {
                    fault: Fault::Token(b')'),
                    from: place,
                    place,
                });
            }
            elements.clear();
            let next = self.add_inline_expression(nesting, place, &mut elements)?;
            match self.argument_name(last_inline::<M>(&elements), place) {
                Some(name) if self.source.is_byte_at(b':', next) => {
                    let is_new = noted.note_new(&self.source, name)?;
                    if !is_new {
                        return Err(ReadFault::Refused {
                            fault: Fault::Duplicated,
                            from: place,
                            place: next,
                        });
                    }
                    let start = self.source.skip_blank(next + 1);
                    let end = self.add_argument_value(nesting, start, &mut elements)?;
                    self.add_named(name, &mut elements, &mut named)?;
                    place = self.source.skip_separator(end);
                }
                _ => {
                    if !noted.is_empty() {
                        return Err(ReadFault::Refused {
                            fault: Fault::PositionalAfterNamed,
                            from: next,
                            place: next,
                        });
                    }
                    self.add_positional(&mut elements, &mut positional)?;
                    place = self.source.skip_separator(next);
                }
            }
        }
        Ok((CallArguments { positional, named }, place + 1))
    }

    /// Reads a blank and, if `(` follows, the arguments up to `)`.
    #[cycle(readers)]
    pub(crate) fn get_call_arguments(
        &self,
        nesting: usize,
        ptr: usize,
    ) -> Result<(Option<CallArguments<M::Text>>, usize), ReadFault>
        requires { ptr ≤ length self.now.source.bytes.now }
        ensures parses { let t = self.now.source.bytes.now in
            Parses t (maybe_map (M.source self.now.texts.now)) (call_arguments t (within self.now.edition t nesting))
            (maybe_view M.made) ptr result }
        ensures within { IfOk result (λ read. (ptr ≤ read.1) × (read.1 ≤ length self.now.source.bytes.now)) }
    {
        let start = self.source.skip_blank(ptr);
        let (bracket, start) = self.source.take_byte_if(b'(', start);
        if !bracket {
            return Ok((None, start));
        }
        if nesting == 0 {
            return Err(ReadFault::TooDeep);
        }
        let start = self.source.skip_blank(start);
        let (arguments, end) = self.get_arguments(nesting - 1, start)?;
        Ok((Some(arguments), end))
    }
}
