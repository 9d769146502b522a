//! What is asked of an inline expression that was read.
ghost use Rattle.std.specs.Prelude.{◌≡◌, ◌≤◌, ℕ, List, length};
ghost use Rattle.fluent_syntax_tree.specs.Tree.{InlineTree, inline, inline_map};
ghost use Rattle.fluent_syntax_tree.specs.View.{inline_view};
ghost use Rattle.fluent_syntax_tree.specs.declared.spans.Span.{Span};
ghost use Rattle.fluent_syntax_grammar.specs.Arguments.{argument_name};
ghost use Rattle.fluent_syntax_grammar.specs.Construct.{Read};
ghost use Rattle.fluent_syntax_grammar.specs.Grammar.{within};
ghost use Rattle.fluent_syntax_grammar.specs.Inline.{inline_expression};
ghost use Rattle.fluent_syntax_grammar.specs.Expressions.{is_term_attribute, selector_fault};
ghost use Rattle.fluent_syntax_parser.specs.Outcomes.{FaultIs};

use crate::fault::Fault;
use crate::reader::Reader;
use crate::texts::MakeTexts;
use fluent_syntax_tree::ast::{Expression, InlineExpression};
use fluent_syntax_tree::spans::Span;

impl<'s, 't, M: MakeTexts> Reader<'s, 't, M> {
    /// The name of an argument that is a message reference without attribute, and begins at the place.
    pub(crate) fn argument_name(
        &self,
        expression: &InlineExpression<M::Text>,
        place: usize,
    ) -> Option<Span>
        requires { place ≤ length self.now.source.bytes.now }
        ensures { let t = self.now.source.bytes.now in (n end : ℕ) (e : InlineTree Span) →
            inline_expression t (within self.now.edition t n) place (Read e end) →
            inline_view M.made expression.now ≡ inline_map (M.source self.now.texts.now) e →
            result ≡ argument_name e }
    {
        match expression {
            InlineExpression::MessageReference { attribute, .. } => match attribute {
                None => self.source.name_at(place),
                Some(_) => None,
            },
            _ => None,
        }
    }

    /// Why an expression is no selector.
    pub(crate) fn selector_fault(&self, expression: &InlineExpression<M::Text>) -> Option<Fault>
        ensures { (t : List ℕ) (i : ℕ) → FaultIs t i result (selector_fault (inline_view M.made expression.now)) }
    {
        match expression {
            InlineExpression::MessageReference { attribute, .. } => match attribute {
                None => Some(Fault::MessageAsSelector),
                Some(_) => Some(Fault::MessageAttributeAsSelector),
            },
            InlineExpression::TermReference { attribute, .. } => match attribute {
                None => Some(Fault::TermAsSelector),
                Some(_) => None,
            },
            InlineExpression::Placeable { .. } => Some(Fault::PlaceableAsSelector),
            _ => None,
        }
    }

    pub(crate) fn is_term_attribute(&self, expression: &InlineExpression<M::Text>) -> bool
        ensures { result ≡ is_term_attribute (inline_view M.made expression.now) }
    {
        match expression {
            InlineExpression::TermReference { attribute, .. } => attribute.is_some(),
            _ => false,
        }
    }
}
