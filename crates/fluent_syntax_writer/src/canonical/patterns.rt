//! How a pattern is laid out: which patterns span lines.
#![tactic(auto, using(fluent_syntax_tree::proofs::Views::views))]

ghost use Rattle.std.specs.Prelude.{◌≡◌};
ghost use Rattle.fluent_syntax_tree.specs.View.{expression_view, inline_view, element_view, pattern_view};
ghost use Rattle.fluent_syntax_grammar.specs.Written.{is_select, holds_select, spans_lines, is_multiline};
ghost use Rattle.fluent_syntax_grammar.specs.Written.{element_begins_with_mark, has_leading_mark};

use crate::canonical::texts::{begins_with_mark, has_lf};
use fluent_syntax_tree::ast::*;
use fluent_syntax_tree::texts::ReadTexts;

/// Whether the expression is a select, or placeables nested around a select.
#[cycle(selects)]
fn is_select<X, T: ReadTexts<X>>(expression: &Expression<X>) -> bool
    ensures { result ≡ is_select (expression_view T.text expression.now) }
{
    match expression {
        Expression::Select { .. } => true,
        Expression::Inline(inline) => holds_select::<X, T>(inline),
    }
}

#[cycle(selects)]
fn holds_select<X, T: ReadTexts<X>>(content: &InlineExpression<X>) -> bool
    ensures { result ≡ holds_select (inline_view T.text content.now) }
{
    match content {
        InlineExpression::Placeable { expression } => is_select::<X, T>(expression),
        _ => false,
    }
}

/// Whether some text holds an LF, or some placeable is of a select.
pub fn is_multiline<X, T: ReadTexts<X>>(pattern: &Pattern<X>) -> bool
    ensures { result ≡ is_multiline (pattern_view T.text pattern.now) }
{
    pattern
        .elements
        .iter()
        .any(|element| spans_lines::<X, T>(element))
}

fn spans_lines<X, T: ReadTexts<X>>(element: &PatternElement<X>) -> bool
    ensures { result ≡ spans_lines (element_view T.text element.now) }
{
    match element {
        PatternElement::TextElement { value } => has_lf(T::as_str(value).as_bytes()),
        PatternElement::Placeable { expression } => is_select::<X, T>(expression),
    }
}

/// Whether the first element is a text that begins with `.`, `[` or `*`. At the start of a line it would be read as an
/// attribute, a variant or a default variant.
pub fn has_leading_mark<X, T: ReadTexts<X>>(pattern: &Pattern<X>) -> bool
    ensures { result ≡ has_leading_mark (pattern_view T.text pattern.now) }
{
    match pattern.elements.first() {
        Some(element) => is_leading_mark::<X, T>(element),
        None => false,
    }
}

fn is_leading_mark<X, T: ReadTexts<X>>(element: &PatternElement<X>) -> bool
    ensures { result ≡ element_begins_with_mark (element_view T.text element.now) }
{
    match element {
        PatternElement::TextElement { value } => begins_with_mark(T::as_str(value)),
        PatternElement::Placeable { .. } => false,
    }
}
