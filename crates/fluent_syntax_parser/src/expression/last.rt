//! The placeable that was added last to the elements of a pattern.
//!
//! An expression is added where it is read, so that no reader that nests holds one. What is to hold it takes it off.
ghost use Rattle.std.specs.Prelude.{◌≡◌, ◌∷◌, ◌++◌, [], List, OnOk};
ghost use Rattle.fluent_syntax_tree.specs.Tree.{ExpressionTree, InlineTree, inline};
ghost use Rattle.fluent_syntax_tree.specs.View.{expression_view, inline_view};
ghost use Rattle.fluent_syntax_tree.specs.declared.ast.Expression.{Inline};
ghost use Rattle.fluent_syntax_tree.specs.declared.ast.PatternElement.{PatternElement, Placeable};
ghost use Rattle.fluent_syntax_parser.specs.Last.{AddsPlaced, EndsInline, EndsPlaced};

use crate::lists::add;
use crate::texts::MakeTexts;
use fluent_syntax_tree::ast::{Expression, InlineExpression, PatternElement};
use std::alloc::AllocError;

/// Adds the placeable of an inline expression.
#[inline(always)]
pub(crate) fn add_inline<T: Drop>(
    inline: InlineExpression<T>,
    elements: &mut Vec<PatternElement<T>>,
) -> Result<(), AllocError>
    ensures { OnOk result (elements.new.items ≡ elements.old.items ++ Placeable (Inline inline) ∷ []) }
{
    let expression = Expression::Inline(inline);
    add(elements, PatternElement::Placeable { expression })
}

/// The inline expression that was added last.
pub(crate) fn last_inline<M: MakeTexts>(
    elements: &[PatternElement<M::Text>],
) -> &InlineExpression<M::Text>
    requires { EndsInline M.made elements.now }
    ensures { (old : List (PatternElement M.Text)) (tree : InlineTree _) →
        AddsPlaced M.made old elements.now (inline tree) → inline_view M.made result.now ≡ tree }
{
    match elements.last() {
        Some(PatternElement::Placeable { expression }) => match expression {
            Expression::Inline(inline) => inline,
            Expression::Select { .. } => unreachable!(),
        },
        Some(PatternElement::TextElement { .. }) => unreachable!(),
        None => unreachable!(),
    }
}

/// Takes off the placeable that was added last, and gives its expression.
pub(crate) fn take_expression<M: MakeTexts>(
    elements: &mut Vec<PatternElement<M::Text>>,
) -> Expression<M::Text>
    requires { EndsPlaced M.made elements.old.items }
    ensures { (old : List (PatternElement M.Text)) (tree : ExpressionTree _) →
        AddsPlaced M.made old elements.old.items tree →
        (elements.new.items ≡ old) × (expression_view M.made result ≡ tree) }
{
    match elements.pop() {
        Some(PatternElement::Placeable { expression }) => expression,
        Some(PatternElement::TextElement { .. }) => unreachable!(),
        None => unreachable!(),
    }
}

/// The same, where it is an inline expression.
pub(crate) fn take_inline<M: MakeTexts>(
    elements: &mut Vec<PatternElement<M::Text>>,
) -> InlineExpression<M::Text>
    requires { EndsInline M.made elements.old.items }
    ensures { (old : List (PatternElement M.Text)) (tree : InlineTree _) →
        AddsPlaced M.made old elements.old.items (inline tree) →
        (elements.new.items ≡ old) × (inline_view M.made result ≡ tree) }
{
    match take_expression::<M>(elements) {
        Expression::Inline(inline) => inline,
        Expression::Select { .. } => unreachable!(),
    }
}
