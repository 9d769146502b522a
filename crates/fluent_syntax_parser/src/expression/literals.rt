//! Inline expressions that hold no other: strings, numbers and variables.
//!
//! They have functions of their own so that those which nest take little of the stack.
ghost use Rattle.std.specs.Prelude.{◌≡◌, ◌⊎◌, ◌<◌, ◌≤◌, ℕ, length, IfOk};
ghost use Rattle.fluent_syntax_grammar.specs.Grammar.{within};
ghost use Rattle.fluent_syntax_grammar.specs.Inline.{inline_expression};
ghost use Rattle.fluent_syntax_grammar.specs.Starts.{digit, dollar, minus, quote, start};
ghost use Rattle.fluent_syntax_parser.specs.Boxed.{mapped_inline};
ghost use Rattle.fluent_syntax_parser.specs.Last.{Pushes};

use crate::expression::last::add_inline;
use crate::fault::ReadFault;
use crate::reader::Reader;
use crate::texts::MakeTexts;
use fluent_syntax_tree::ast::{InlineExpression, PatternElement};
use fluent_syntax_tree::spans::Span;

impl<'s, 't, M: MakeTexts> Reader<'s, 't, M> {
    /// Reads a string, with its quotes, and adds it.
    #[inline(never)]
    pub(crate) fn add_string(
        &self,
        ptr: usize,
        elements: &mut Vec<PatternElement<M::Text>>,
    ) -> Result<usize, ReadFault>
        requires within { ptr ≤ length self.now.source.bytes.now }
        requires starts { quote ≡ start self.now.source.bytes.now ptr }
        ensures parses { let t = self.now.source.bytes.now in (n : ℕ) →
            Pushes M.made t (mapped_inline (M.source self.now.texts.now))
            (inline_expression t (within self.now.edition t n)) elements.old.items elements.new.items ptr result }
        ensures within { IfOk result (λ end. (ptr < end) × (end ≤ length self.now.source.bytes.now)) }
    {
        let (value, end) = self.source.get_string_literal(ptr)?;
        let value = self.text(value)?;
        add_inline(InlineExpression::StringLiteral { value }, elements)?;
        Ok(end)
    }

    /// Reads a number, and adds it.
    #[inline(never)]
    pub(crate) fn add_number(
        &self,
        ptr: usize,
        elements: &mut Vec<PatternElement<M::Text>>,
    ) -> Result<usize, ReadFault>
        requires within { ptr ≤ length self.now.source.bytes.now }
        requires starts { let t = self.now.source.bytes.now in (digit ≡ start t ptr) ⊎ (minus ≡ start t ptr) }
        ensures parses { let t = self.now.source.bytes.now in (n : ℕ) →
            Pushes M.made t (mapped_inline (M.source self.now.texts.now))
            (inline_expression t (within self.now.edition t n)) elements.old.items elements.new.items ptr result }
        ensures within { IfOk result (λ end. (ptr < end) × (end ≤ length self.now.source.bytes.now)) }
    {
        let end = self.source.number_end(ptr)?;
        let value = self.text(Span { start: ptr, end })?;
        add_inline(InlineExpression::NumberLiteral { value }, elements)?;
        Ok(end)
    }

    /// Reads a variable, `$` and its name, and adds it.
    #[inline(never)]
    pub(crate) fn add_variable(
        &self,
        ptr: usize,
        elements: &mut Vec<PatternElement<M::Text>>,
    ) -> Result<usize, ReadFault>
        requires within { ptr ≤ length self.now.source.bytes.now }
        requires starts { dollar ≡ start self.now.source.bytes.now ptr }
        ensures parses { let t = self.now.source.bytes.now in (n : ℕ) →
            Pushes M.made t (mapped_inline (M.source self.now.texts.now))
            (inline_expression t (within self.now.edition t n)) elements.old.items elements.new.items ptr result }
        ensures within { IfOk result (λ end. (ptr < end) × (end ≤ length self.now.source.bytes.now)) }
    {
        let start = self.source.expect_byte(b'$', ptr)?;
        let end = self.source.identifier_end(start)?;
        let id = self.identifier(Span { start, end })?;
        add_inline(InlineExpression::VariableReference { id }, elements)?;
        Ok(end)
    }
}
