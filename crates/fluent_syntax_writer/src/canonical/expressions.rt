//! Selectors, default variants, and terms with attribute.
#![tactic(auto, using(fluent_syntax_tree::proofs::Views::views))]

ghost use Rattle.std.specs.Prelude.{◌≡◌, is_none, map};
ghost use Rattle.fluent_syntax_tree.specs.Tree.{variants_of};
ghost use Rattle.fluent_syntax_tree.specs.View.{inline_view, variant_view};
ghost use Rattle.fluent_syntax_grammar.specs.Expressions.{selector_fault, is_term_attribute};
ghost use Rattle.fluent_syntax_grammar.specs.Readable.{defaults};

use fluent_syntax_tree::ast::*;
use fluent_syntax_tree::texts::ReadTexts;

/// Whether the expression is a string, a number, a variable, a function, or a term reference with attribute.
pub fn is_selector<X, T: ReadTexts<X>>(selector: &InlineExpression<X>) -> bool
    ensures { result ≡ is_none (selector_fault (inline_view T.text selector.now)) }
{
    match selector {
        InlineExpression::StringLiteral { .. } => true,
        InlineExpression::NumberLiteral { .. } => true,
        InlineExpression::FunctionReference { .. } => true,
        InlineExpression::MessageReference { .. } => false,
        InlineExpression::TermReference { attribute, .. } => attribute.is_some(),
        InlineExpression::VariableReference { .. } => true,
        InlineExpression::Placeable { .. } => false,
    }
}

pub fn is_term_attribute<X, T: ReadTexts<X>>(content: &InlineExpression<X>) -> bool
    ensures { result ≡ is_term_attribute (inline_view T.text content.now) }
{
    match content {
        InlineExpression::StringLiteral { .. } => false,
        InlineExpression::NumberLiteral { .. } => false,
        InlineExpression::FunctionReference { .. } => false,
        InlineExpression::MessageReference { .. } => false,
        InlineExpression::TermReference { attribute, .. } => attribute.is_some(),
        InlineExpression::VariableReference { .. } => false,
        InlineExpression::Placeable { .. } => false,
    }
}

/// How many of the variants are defaults.
pub fn defaults<X, T: ReadTexts<X>>(variants: &[Variant<X>]) -> usize
    ensures { result ≡ defaults (variants_of (map (variant_view T.text) variants.now)) }
{
    let mut count = 0;
    for variant in variants {
        if variant.default {
            count += 1;
        }
    }
    count
}
