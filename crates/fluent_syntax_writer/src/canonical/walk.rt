//! The walk over a tree: the rules that its nodes break, together.
#![tactic(auto, using(fluent_syntax_tree::proofs::Views::views))]

ghost use Rattle.std.specs.Prelude.{map, option_map};
ghost use Rattle.std.specs.List.{list_all};
ghost use Rattle.fluent_syntax_tree.specs.Tree.{arguments_of, elements_of, inlines_of, nameds_of, variants_of};
ghost use Rattle.fluent_syntax_tree.specs.View.{key_view, expression_view, inline_view};
ghost use Rattle.fluent_syntax_tree.specs.View.{arguments_view, named_view, element_view, pattern_view, variant_view};
ghost use Rattle.fluent_syntax_tree.specs.View.{attribute_view, message_view, term_view, entry_view};
ghost use Rattle.fluent_syntax_grammar.specs.Rules.{option_obeys, key_obeys, expression_obeys, inline_obeys};
ghost use Rattle.fluent_syntax_grammar.specs.Rules.{optional_arguments_obey, arguments_obey, inlines_obey};
ghost use Rattle.fluent_syntax_grammar.specs.Rules.{named_arguments_obey};
ghost use Rattle.fluent_syntax_grammar.specs.Rules.{named_obeys, pattern_obeys, elements_obey, element_obeys};
ghost use Rattle.fluent_syntax_grammar.specs.Rules.{variants_obey, variant_obeys, attribute_obeys, message_obeys};
ghost use Rattle.fluent_syntax_grammar.specs.Rules.{term_obeys, entry_obeys};
ghost use Rattle.fluent_syntax_writer.specs.RuleSets.{HoldsBroken};
ghost use Rattle.fluent_syntax_writer.specs.SingleRule.{single_rule};

use crate::canonical::layout::layout_breaks;
use crate::canonical::nodes::*;
use crate::canonical::rule_set::RuleSet;
use crate::canonical::rules::Rule;
use fluent_syntax_tree::ast::*;
use fluent_syntax_tree::edition::Edition;
use fluent_syntax_tree::texts::ReadTexts;
use std::alloc::Global;

/// The edition by which a tree is tested, and memory for that, where it may be taken.
#[derive(Clone, Copy)]
pub struct RuleCheck {
    pub edition: Edition,
    pub alloc: Option<Global>,
}

pub fn entry_breaks<X, T: ReadTexts<X>>(check: RuleCheck, entry: &Entry<X>) -> RuleSet
    ensures { HoldsBroken result (λ rule. entry_obeys (single_rule check.edition rule)
        (entry_view T.text entry.now)) }
{
    match entry {
        Entry::Message(message) => message_breaks::<X, T>(check, message),
        Entry::Term(term) => term_breaks::<X, T>(check, term),
        Entry::Comment(comment) => comment_breaks::<X, T>(comment),
        Entry::GroupComment(comment) => comment_breaks::<X, T>(comment),
        Entry::ResourceComment(comment) => comment_breaks::<X, T>(comment),
        Entry::Junk { .. } => RuleSet::unless(false, Rule::Junk),
    }
}

fn message_breaks<X, T: ReadTexts<X>>(check: RuleCheck, message: &Message<X>) -> RuleSet
    ensures { HoldsBroken result (λ rule. message_obeys (single_rule check.edition rule)
        (message_view T.text message.now)) }
{
    RuleSet::unless(is_message::<X, T>(message), Rule::EmptyMessage)
        .union(own_comment_breaks::<X, T>(&message.comment))
        .union(name_breaks(T::as_str(&message.id.name)))
        .union(value_breaks::<X, T>(check, &message.value))
        .union(attributes_break::<X, T>(check, &message.attributes))
}

fn term_breaks<X, T: ReadTexts<X>>(check: RuleCheck, term: &Term<X>) -> RuleSet
    ensures { HoldsBroken result (λ rule. term_obeys (single_rule check.edition rule) (term_view T.text term.now)) }
{
    own_comment_breaks::<X, T>(&term.comment)
        .union(name_breaks(T::as_str(&term.id.name)))
        .union(pattern_breaks::<X, T>(check, &term.value))
        .union(attributes_break::<X, T>(check, &term.attributes))
}

fn value_breaks<X, T: ReadTexts<X>>(check: RuleCheck, value: &Option<Pattern<X>>) -> RuleSet
    ensures { HoldsBroken result (λ rule. option_obeys (pattern_obeys (single_rule check.edition rule))
        (option_map (pattern_view T.text) value.now)) }
{
    match value {
        Some(pattern) => pattern_breaks::<X, T>(check, pattern),
        None => RuleSet::none(),
    }
}

fn attributes_break<X, T: ReadTexts<X>>(check: RuleCheck, attributes: &[Attribute<X>]) -> RuleSet
    ensures { HoldsBroken result (λ rule. list_all (attribute_obeys (single_rule check.edition rule))
        (map (attribute_view T.text) attributes.now)) }
{
    let mut broken = RuleSet::none();
    for attribute in attributes {
        broken = broken.union(attribute_breaks::<X, T>(check, attribute));
    }
    broken
}

fn attribute_breaks<X, T: ReadTexts<X>>(check: RuleCheck, attribute: &Attribute<X>) -> RuleSet
    ensures { HoldsBroken result (λ rule. attribute_obeys (single_rule check.edition rule)
        (attribute_view T.text attribute.now)) }
{
    let name = name_breaks(T::as_str(&attribute.id.name));
    name.union(pattern_breaks::<X, T>(check, &attribute.value))
}

#[cycle(breaks)]
fn pattern_breaks<X, T: ReadTexts<X>>(check: RuleCheck, pattern: &Pattern<X>) -> RuleSet
    ensures { HoldsBroken result (λ rule. pattern_obeys (single_rule check.edition rule)
        (pattern_view T.text pattern.now)) }
{
    let layout = layout_breaks::<X, T>(check.edition, pattern);
    layout.union(elements_break::<X, T>(check, &pattern.elements))
}

#[cycle(breaks)]
fn elements_break<X, T: ReadTexts<X>>(check: RuleCheck, elements: &[PatternElement<X>]) -> RuleSet
    ensures { HoldsBroken result (λ rule. elements_obey (single_rule check.edition rule)
        (elements_of (map (element_view T.text) elements.now))) }
{
    let mut broken = RuleSet::none();
    for element in elements {
        broken = broken.union(element_breaks::<X, T>(check, element));
    }
    broken
}

#[cycle(breaks)]
fn element_breaks<X, T: ReadTexts<X>>(check: RuleCheck, element: &PatternElement<X>) -> RuleSet
    ensures { HoldsBroken result (λ rule. element_obeys (single_rule check.edition rule)
        (element_view T.text element.now)) }
{
    match element {
        PatternElement::TextElement { .. } => RuleSet::none(),
        PatternElement::Placeable { expression } => expression_breaks::<X, T>(check, expression),
    }
}

#[cycle(breaks)]
fn expression_breaks<X, T: ReadTexts<X>>(check: RuleCheck, expression: &Expression<X>) -> RuleSet
    ensures { HoldsBroken result (λ rule. expression_obeys (single_rule check.edition rule)
        (expression_view T.text expression.now)) }
{
    match expression {
        Expression::Select { selector, variants } => select_breaks::<X, T>(selector, variants)
            .union(inline_breaks::<X, T>(check, selector))
            .union(variants_break::<X, T>(check, variants)),
        Expression::Inline(inline) => {
            content_breaks::<X, T>(inline).union(inline_breaks::<X, T>(check, inline))
        }
    }
}

#[cycle(breaks)]
fn variants_break<X, T: ReadTexts<X>>(check: RuleCheck, variants: &[Variant<X>]) -> RuleSet
    ensures { HoldsBroken result (λ rule. variants_obey (single_rule check.edition rule)
        (variants_of (map (variant_view T.text) variants.now))) }
{
    let mut broken = RuleSet::none();
    for variant in variants {
        broken = broken.union(variant_breaks::<X, T>(check, variant));
    }
    broken
}

#[cycle(breaks)]
fn variant_breaks<X, T: ReadTexts<X>>(check: RuleCheck, variant: &Variant<X>) -> RuleSet
    ensures { HoldsBroken result (λ rule. variant_obeys (single_rule check.edition rule)
        (variant_view T.text variant.now)) }
{
    key_breaks::<X, T>(check, &variant.key).union(pattern_breaks::<X, T>(check, &variant.value))
}

fn key_breaks<X, T: ReadTexts<X>>(check: RuleCheck, key: &VariantKey<X>) -> RuleSet
    ensures { HoldsBroken result (λ rule. key_obeys (single_rule check.edition rule) (key_view T.text key.now)) }
{
    match key {
        VariantKey::Identifier { name } => name_breaks(T::as_str(name)),
        VariantKey::NumberLiteral { value } => number_breaks(T::as_str(value)),
    }
}

#[cycle(breaks)]
fn inline_breaks<X, T: ReadTexts<X>>(check: RuleCheck, inline: &InlineExpression<X>) -> RuleSet
    ensures { HoldsBroken result (λ rule. inline_obeys (single_rule check.edition rule)
        (inline_view T.text inline.now)) }
{
    match inline {
        InlineExpression::StringLiteral { value } => string_breaks(T::as_str(value)),
        InlineExpression::NumberLiteral { value } => number_breaks(T::as_str(value)),
        InlineExpression::FunctionReference { id, arguments } => {
            function_name_breaks(T::as_str(&id.name)).union(arguments_break::<X, T>(
                check, arguments,
            ))
        }
        InlineExpression::MessageReference { id, attribute } => {
            reference_breaks::<X, T>(id, attribute)
        }
        InlineExpression::TermReference {
            id,
            attribute,
            arguments,
        } => reference_breaks::<X, T>(id, attribute).union(optional_arguments_break::<X, T>(
            check, arguments,
        )),
        InlineExpression::VariableReference { id } => name_breaks(T::as_str(&id.name)),
        InlineExpression::Placeable { expression } => expression_breaks::<X, T>(check, expression),
    }
}

#[cycle(breaks)]
fn optional_arguments_break<X, T: ReadTexts<X>>(
    check: RuleCheck,
    arguments: &Option<CallArguments<X>>,
) -> RuleSet
    ensures { HoldsBroken result (λ rule. optional_arguments_obey (single_rule check.edition rule)
        (arguments_of (option_map (arguments_view T.text) arguments.now))) }
{
    match arguments {
        Some(arguments) => arguments_break::<X, T>(check, arguments),
        None => RuleSet::none(),
    }
}

#[cycle(breaks)]
fn arguments_break<X, T: ReadTexts<X>>(check: RuleCheck, arguments: &CallArguments<X>) -> RuleSet
    ensures { HoldsBroken result (λ rule. arguments_obey (single_rule check.edition rule)
        (arguments_view T.text arguments.now)) }
{
    argument_list_breaks::<X, T>(check.alloc, arguments)
        .union(inlines_break::<X, T>(check, &arguments.positional))
        .union(named_arguments_break::<X, T>(check, &arguments.named))
}

#[cycle(breaks)]
fn inlines_break<X, T: ReadTexts<X>>(check: RuleCheck, inlines: &[InlineExpression<X>]) -> RuleSet
    ensures { HoldsBroken result (λ rule. inlines_obey (single_rule check.edition rule)
        (inlines_of (map (inline_view T.text) inlines.now))) }
{
    let mut broken = RuleSet::none();
    for inline in inlines {
        broken = broken.union(inline_breaks::<X, T>(check, inline));
    }
    broken
}

#[cycle(breaks)]
fn named_arguments_break<X, T: ReadTexts<X>>(
    check: RuleCheck,
    nameds: &[NamedArgument<X>],
) -> RuleSet
    ensures { HoldsBroken result (λ rule. named_arguments_obey (single_rule check.edition rule)
        (nameds_of (map (named_view T.text) nameds.now))) }
{
    let mut broken = RuleSet::none();
    for named in nameds {
        broken = broken.union(named_breaks::<X, T>(check, named));
    }
    broken
}

#[cycle(breaks)]
fn named_breaks<X, T: ReadTexts<X>>(check: RuleCheck, named: &NamedArgument<X>) -> RuleSet
    ensures { HoldsBroken result (λ rule. named_obeys (single_rule check.edition rule)
        (named_view T.text named.now)) }
{
    name_breaks(T::as_str(&named.name.name)).union(inline_breaks::<X, T>(check, &named.value))
}
