//! The values of named arguments.
#![tactic(auto, using(fluent_syntax_tree::proofs::Views::views))]

ghost use Rattle.std.specs.Prelude.{◌≡◌, map};
ghost use Rattle.fluent_syntax_tree.specs.Tree.{nameds_of};
ghost use Rattle.fluent_syntax_tree.specs.View.{inline_view, named_view};
ghost use Rattle.fluent_syntax_grammar.specs.Readable.{is_argument_value};
ghost use Rattle.fluent_syntax_writer.specs.SingleRule.{have_values};

use crate::canonical::spellings::is_unsigned;
use fluent_syntax_tree::ast::*;
use fluent_syntax_tree::texts::ReadTexts;

/// Whether each value is one that a named argument may have.
pub fn have_values<X, T: ReadTexts<X>>(named: &[NamedArgument<X>]) -> bool
    ensures { result ≡ have_values (nameds_of (map (named_view T.text) named.now)) }
{
    for argument in named {
        if !is_argument_value::<X, T>(&argument.value) {
            return false;
        }
    }
    true
}

/// Whether the value is a string, a number without `-`, a function or a message reference.
fn is_argument_value<X, T: ReadTexts<X>>(value: &InlineExpression<X>) -> bool
    ensures { result ≡ is_argument_value (inline_view T.text value.now) }
{
    match value {
        InlineExpression::StringLiteral { .. } => true,
        InlineExpression::NumberLiteral { value } => is_unsigned(T::as_str(value).as_bytes()),
        InlineExpression::FunctionReference { .. } => true,
        InlineExpression::MessageReference { .. } => true,
        InlineExpression::TermReference { .. } => false,
        InlineExpression::VariableReference { .. } => false,
        InlineExpression::Placeable { .. } => false,
    }
}
