//! References: the attribute that one may name, and what a name with its arguments is.
ghost use Rattle.std.specs.Prelude.{◌≡◌, ◌≤◌, length, option_map, IfOk, OnOk};
ghost use Rattle.std.specs.List.{list_all};
ghost use Rattle.fluent_syntax_tree.specs.Spans.{bytes_at};
ghost use Rattle.fluent_syntax_tree.specs.Tree.{MaybeArguments, inline, maybe_map, option_texts, term_reference};
ghost use Rattle.fluent_syntax_tree.specs.View.{identifier_view};
ghost use Rattle.fluent_syntax_tree.specs.declared.spans.Span.{Span};
ghost use Rattle.fluent_syntax_grammar.specs.Arguments.{accessor};
ghost use Rattle.fluent_syntax_grammar.specs.Inline.{is_callee_byte, named_reference};
ghost use Rattle.fluent_syntax_parser.specs.Boxed.{mapped_inline};
ghost use Rattle.fluent_syntax_parser.specs.Gathered.{maybe_view};
ghost use Rattle.fluent_syntax_parser.specs.Last.{AddsPlaced, Pushes};
ghost use Rattle.fluent_syntax_parser.specs.Outcomes.{HasOutcome};

use crate::expression::last::add_inline;
use crate::fault::{Fault, ReadFault, Refusal};
use crate::reader::Reader;
use crate::source::Source;
use crate::texts::MakeTexts;
use fluent_syntax_tree::ast::{CallArguments, Identifier, InlineExpression, PatternElement};
use fluent_syntax_tree::spans::Span;
use std::alloc::AllocError;

impl<'s> Source<'s> {
    /// Whether a name holds only `A` to `Z`, digits, `_` and `-`.
    fn is_callee(&self, name: Span) -> bool
        ensures { result ≡ list_all is_callee_byte (bytes_at self.now.bytes.now name) }
    {
        self.bytes_of(name).iter().all(|c| c.is_ascii_uppercase()
            || c.is_ascii_digit()
            || *c == b'_'
            || *c == b'-')
    }

    /// Reads `.` and an identifier, if there is a `.`.
    pub(crate) fn get_attribute_accessor(
        &self,
        ptr: usize,
    ) -> Result<(Option<Identifier<Span>>, usize), Refusal>
        requires { ptr ≤ length self.now.bytes.now }
        ensures parses { let t = self.now.bytes.now in
            HasOutcome t (accessor t) (option_map (identifier_view (λ s. s))) ptr result }
        ensures within { IfOk result (λ read. (ptr ≤ read.1) × (read.1 ≤ length self.now.bytes.now)) }
    {
        let (dot, start) = self.take_byte_if(b'.', ptr);
        if dot {
            let end = self.identifier_end(start)?;
            let name = Span { start, end };
            Ok((Some(Identifier { name }), end))
        } else {
            Ok((None, start))
        }
    }
}

impl<'s, 't, M: MakeTexts> Reader<'s, 't, M> {
    /// Adds the reference that a name with its arguments is: of a function with arguments, and without of a message,
    /// perhaps with an attribute.
    #[inline(never)]
    pub(crate) fn add_named_reference(
        &self,
        name: Span,
        arguments: Option<CallArguments<M::Text>>,
        ptr: usize,
        elements: &mut Vec<PatternElement<M::Text>>,
    ) -> Result<usize, ReadFault>
        requires { ptr ≤ length self.now.source.bytes.now }
        ensures parses { let t = self.now.source.bytes.now in let f = M.source self.now.texts.now in
            (given : MaybeArguments Span) → maybe_view M.made arguments ≡ maybe_map f given →
            Pushes M.made t (mapped_inline f) (named_reference t name given) elements.old.items
            elements.new.items ptr result }
        ensures within { IfOk result (λ end. (ptr ≤ end) × (end ≤ length self.now.source.bytes.now)) }
    {
        match arguments {
            Some(arguments) => {
                if !self.source.is_callee(name) {
                    return Err(ReadFault::Refused {
                        fault: Fault::Callee,
                        from: ptr,
                        place: ptr,
                    });
                }
                let id = self.identifier(name)?;
                let reference = InlineExpression::FunctionReference { id, arguments };
                add_inline(reference, elements)?;
                Ok(ptr)
            }
            None => {
                let (attribute, ptr) = self.source.get_attribute_accessor(ptr)?;
                let id = self.identifier(name)?;
                let attribute = self.attribute(attribute)?;
                let reference = InlineExpression::MessageReference { id, attribute };
                add_inline(reference, elements)?;
                Ok(ptr)
            }
        }
    }

    /// Adds the reference to a term of that name.
    #[inline(never)]
    pub(crate) fn add_term_named(
        &self,
        name: Span,
        attribute: Option<Identifier<Span>>,
        arguments: Option<CallArguments<M::Text>>,
        elements: &mut Vec<PatternElement<M::Text>>,
    ) -> Result<(), AllocError>
        ensures { let f = M.source self.now.texts.now in OnOk result (AddsPlaced M.made elements.old.items
            elements.new.items
            (inline (term_reference (f name) (option_texts f (option_map (identifier_view (λ s. s)) attribute))
            (maybe_view M.made arguments)))) }
    {
        let id = self.identifier(name)?;
        let attribute = self.attribute(attribute)?;
        let reference = InlineExpression::TermReference {
            id,
            attribute,
            arguments,
        };
        add_inline(reference, elements)
    }
}
