//! The rules that a node breaks by itself, but for the layout of patterns.
#![tactic(auto, using(fluent_syntax_tree::proofs::Views::views))]

ghost use Rattle.std.specs.Prelude.{◌≡◌, ◌&&◌, map, option_map};
ghost use Rattle.fluent_syntax_tree.specs.Tree.{select, inline, variants_of};
ghost use Rattle.fluent_syntax_tree.specs.View.{identifier_view, comment_view, message_view};
ghost use Rattle.fluent_syntax_tree.specs.View.{inline_view, arguments_view, variant_view};
ghost use Rattle.fluent_syntax_grammar.specs.Rules.{option_obeys};
ghost use Rattle.fluent_syntax_grammar.specs.Readable.{is_message};
ghost use Rattle.fluent_syntax_writer.specs.RuleSets.{HoldsBroken};
ghost use Rattle.fluent_syntax_writer.specs.SingleRule.{comment_keeps, expression_keeps, arguments_keep};
ghost use Rattle.fluent_syntax_writer.specs.SingleRule.{callee_keeps, string_keeps, number_keeps, name_keeps};

use crate::canonical::argument_names::have_new_names;
use crate::canonical::arguments::have_values;
use crate::canonical::comments::{are_lines, are_plain_lines};
use crate::canonical::expressions::{defaults, is_selector, is_term_attribute};
use crate::canonical::rule_set::RuleSet;
use crate::canonical::rules::Rule;
use crate::canonical::spellings::{is_callee, is_name, is_number, is_string};
use fluent_syntax_tree::ast::*;
use fluent_syntax_tree::texts::ReadTexts;
use std::alloc::Global;

/// Whether the message has a value or an attribute.
pub fn is_message<X, T: ReadTexts<X>>(message: &Message<X>) -> bool
    ensures { result ≡ is_message (message_view T.text message.now) }
{
    message.value.is_some() || !message.attributes.is_empty()
}

/// Of the comment of a message or a term, where it has one.
pub fn own_comment_breaks<X, T: ReadTexts<X>>(comment: &Option<Comment<X>>) -> RuleSet
    ensures { HoldsBroken result (λ rule. option_obeys (comment_keeps rule)
        (option_map (comment_view T.text) comment.now)) }
{
    match comment {
        Some(comment) => comment_breaks::<X, T>(comment),
        None => RuleSet::none(),
    }
}

pub fn comment_breaks<X, T: ReadTexts<X>>(comment: &Comment<X>) -> RuleSet
    ensures { HoldsBroken result (λ rule. comment_keeps rule (comment_view T.text comment.now)) }
{
    let content = &comment.content;
    RuleSet::unless(are_lines::<X, T>(content), Rule::LfInComment)
        .union(RuleSet::unless(!content.is_empty(), Rule::EmptyComment))
        .union(RuleSet::unless(are_plain_lines::<X, T>(content), Rule::BlankCommentLine))
}

/// Of the select itself, not of what it holds.
pub fn select_breaks<X, T: ReadTexts<X>>(
    selector: &InlineExpression<X>,
    variants: &[Variant<X>],
) -> RuleSet
    ensures { HoldsBroken result (λ rule. expression_keeps rule (select (inline_view T.text selector.now)
        (variants_of (map (variant_view T.text) variants.now)))) }
{
    let defaults = defaults::<X, T>(variants);
    RuleSet::unless(is_selector::<X, T>(selector), Rule::ForbiddenSelector)
        .union(RuleSet::unless(defaults <= 1, Rule::SecondDefault))
        .union(RuleSet::unless(1 <= defaults, Rule::NoDefault))
}

/// Of the expression in braces itself, not of what it holds.
pub fn content_breaks<X, T: ReadTexts<X>>(content: &InlineExpression<X>) -> RuleSet
    ensures { HoldsBroken result (λ rule. expression_keeps rule (inline (inline_view T.text content.now))) }
{
    RuleSet::unless(!is_term_attribute::<X, T>(content), Rule::TermAttribute)
}

/// Of the named arguments of a list, not of what they hold.
pub fn argument_list_breaks<X, T: ReadTexts<X>>(
    alloc: Option<Global>,
    arguments: &CallArguments<X>,
) -> RuleSet
    ensures { HoldsBroken result (λ rule. arguments_keep rule (arguments_view T.text arguments.now)) }
{
    let named = &arguments.named;
    let values = RuleSet::unless(have_values::<X, T>(named), Rule::ForbiddenArgument);
    let names = RuleSet::unless(have_new_names::<X, T>(alloc, named), Rule::RepeatedArgument);
    values.union(names)
}

/// Of the name of a reference, and that of its attribute.
pub fn reference_breaks<X, T: ReadTexts<X>>(
    id: &Identifier<X>,
    attribute: &Option<Identifier<X>>,
) -> RuleSet
    ensures { HoldsBroken result (λ rule. name_keeps rule (T.text id.now.name)
        && option_obeys (name_keeps rule) (option_map (identifier_view T.text) attribute.now)) }
{
    name_breaks(T::as_str(&id.name)).union(attribute_name_breaks::<X, T>(attribute))
}

fn attribute_name_breaks<X, T: ReadTexts<X>>(attribute: &Option<Identifier<X>>) -> RuleSet
    ensures { HoldsBroken result (λ rule. option_obeys (name_keeps rule)
        (option_map (identifier_view T.text) attribute.now)) }
{
    match attribute {
        Some(id) => name_breaks(T::as_str(&id.name)),
        None => RuleSet::none(),
    }
}

pub fn function_name_breaks(name: &str) -> RuleSet
    ensures { HoldsBroken result (λ rule. name_keeps rule name.now && callee_keeps rule name.now) }
{
    name_breaks(name).union(RuleSet::unless(is_callee(name), Rule::ForbiddenCallee))
}

pub fn string_breaks(text: &str) -> RuleSet
    ensures { HoldsBroken result (λ rule. string_keeps rule text.now) }
{
    RuleSet::unless(is_string(text), Rule::MisspelledString)
}

pub fn number_breaks(text: &str) -> RuleSet
    ensures { HoldsBroken result (λ rule. number_keeps rule text.now) }
{
    RuleSet::unless(is_number(text), Rule::MisspelledNumber)
}

pub fn name_breaks(text: &str) -> RuleSet
    ensures { HoldsBroken result (λ rule. name_keeps rule text.now) }
{
    RuleSet::unless(is_name(text), Rule::MisspelledName)
}
