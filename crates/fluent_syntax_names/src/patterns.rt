//! The mentions of patterns, and of all that nests in them.
ghost use Rattle.std.specs.Prelude.{◌≡◌, OnOk, option_map, map};
ghost use Rattle.fluent_syntax_tree.specs.Tree.{elements_of, inlines_of, nameds_of, variants_of};
ghost use Rattle.fluent_syntax_tree.specs.View.{identifier_view, expression_view, inline_view, element_view};
ghost use Rattle.fluent_syntax_tree.specs.View.{arguments_view, key_view, named_view, pattern_view, variant_view};
ghost use Rattle.fluent_syntax_names.specs.Growing.{Adds};
ghost use Rattle.fluent_syntax_names.specs.Mentions.{expression_mentions, inline_mentions, element_mentions};
ghost use Rattle.fluent_syntax_names.specs.Mentions.{arguments_mentions, pattern_mentions, inlines_mentions};
ghost use Rattle.fluent_syntax_names.specs.Mentions.{key_text, nameds_mentions, select_mentions};

use crate::mention::Mention;
use fluent_syntax_tree::ast::*;
use std::alloc::AllocError;

/// The name, where there is one.
pub(crate) fn name_of<X: Copy>(id: &Option<Identifier<X>>) -> Option<X>
    ensures { result ≡ option_map (identifier_view (λ x. x)) id.now }
{
    match id {
        Some(id) => Some(id.name),
        None => None,
    }
}

/// The key, as it is spelled.
fn key_text<X: Copy>(key: &VariantKey<X>) -> X
    ensures { result ≡ key_text (key_view (λ x. x) key.now) }
{
    match key {
        VariantKey::Identifier { name } => *name,
        VariantKey::NumberLiteral { value } => *value,
    }
}

/// Adds the mentions of the pattern.
#[cycle(mentions)]
pub(crate) fn add_pattern<X: Copy>(
    list: &mut Vec<Mention<X>>,
    pattern: &Pattern<X>,
) -> Result<(), AllocError>
    ensures { OnOk result (Adds list.old.items list.new.items (pattern_mentions (pattern_view (λ x. x) pattern.now))) }
{
    add_elements(list, &pattern.elements)
}

#[cycle(mentions)]
fn add_elements<X: Copy>(
    list: &mut Vec<Mention<X>>,
    elements: &[PatternElement<X>],
) -> Result<(), AllocError>
    ensures { OnOk result
        (Adds list.old.items list.new.items
        (pattern_mentions (elements_of (map (element_view (λ x. x)) elements.now)))) }
{
    for element in elements {
        add_element(list, element)?;
    }
    Ok(())
}

#[cycle(mentions)]
fn add_element<X: Copy>(
    list: &mut Vec<Mention<X>>,
    element: &PatternElement<X>,
) -> Result<(), AllocError>
    ensures { OnOk result (Adds list.old.items list.new.items (element_mentions (element_view (λ x. x) element.now))) }
{
    match element {
        PatternElement::TextElement { .. } => Ok(()),
        PatternElement::Placeable { expression } => add_expression(list, expression),
    }
}

#[cycle(mentions)]
fn add_expression<X: Copy>(
    list: &mut Vec<Mention<X>>,
    expression: &Expression<X>,
) -> Result<(), AllocError>
    ensures { OnOk result
        (Adds list.old.items list.new.items (expression_mentions (expression_view (λ x. x) expression.now))) }
{
    match expression {
        Expression::Select { selector, variants } => {
            add_inline(list, selector)?;
            add_variants(list, variants)
        }
        Expression::Inline(inline) => add_inline(list, inline),
    }
}

#[cycle(mentions)]
fn add_variants<X: Copy>(
    list: &mut Vec<Mention<X>>,
    variants: &[Variant<X>],
) -> Result<(), AllocError>
    ensures { OnOk result
        (Adds list.old.items list.new.items
        (select_mentions (variants_of (map (variant_view (λ x. x)) variants.now)))) }
{
    let Some(first_variant) = variants.first() else {
        return Ok(());
    };
    let first = key_text(&first_variant.key);
    for variant in variants {
        let key = key_text(&variant.key);
        list.push(Mention::VariantKey { key, first })?;
        add_pattern(list, &variant.value)?;
    }
    Ok(())
}

#[cycle(mentions)]
fn add_inline<X: Copy>(
    list: &mut Vec<Mention<X>>,
    inline: &InlineExpression<X>,
) -> Result<(), AllocError>
    ensures { OnOk result (Adds list.old.items list.new.items (inline_mentions (inline_view (λ x. x) inline.now))) }
{
    match inline {
        InlineExpression::StringLiteral { .. } => Ok(()),
        InlineExpression::NumberLiteral { .. } => Ok(()),
        InlineExpression::FunctionReference { id, arguments } => {
            list.push(Mention::Function { name: id.name })?;
            add_arguments(list, arguments)
        }
        InlineExpression::MessageReference { id, attribute } => {
            let attribute = name_of(attribute);
            list.push(Mention::MessageReference {
                name: id.name,
                attribute,
            })?;
            Ok(())
        }
        InlineExpression::TermReference {
            id,
            attribute,
            arguments,
        } => {
            let attribute = name_of(attribute);
            list.push(Mention::TermReference {
                name: id.name,
                attribute,
            })?;
            match arguments {
                Some(arguments) => add_arguments(list, arguments),
                None => Ok(()),
            }
        }
        InlineExpression::VariableReference { id } => {
            list.push(Mention::Variable { name: id.name })?;
            Ok(())
        }
        InlineExpression::Placeable { expression } => add_expression(list, expression),
    }
}

#[cycle(mentions)]
fn add_arguments<X: Copy>(
    list: &mut Vec<Mention<X>>,
    arguments: &CallArguments<X>,
) -> Result<(), AllocError>
    ensures { OnOk result
        (Adds list.old.items list.new.items (arguments_mentions (arguments_view (λ x. x) arguments.now))) }
{
    add_inlines(list, &arguments.positional)?;
    add_named_arguments(list, &arguments.named)
}

#[cycle(mentions)]
fn add_inlines<X: Copy>(
    list: &mut Vec<Mention<X>>,
    inlines: &[InlineExpression<X>],
) -> Result<(), AllocError>
    ensures { OnOk result
        (Adds list.old.items list.new.items (inlines_mentions (inlines_of (map (inline_view (λ x. x)) inlines.now)))) }
{
    for inline in inlines {
        add_inline(list, inline)?;
    }
    Ok(())
}

#[cycle(mentions)]
fn add_named_arguments<X: Copy>(
    list: &mut Vec<Mention<X>>,
    nameds: &[NamedArgument<X>],
) -> Result<(), AllocError>
    ensures { OnOk result
        (Adds list.old.items list.new.items (nameds_mentions (nameds_of (map (named_view (λ x. x)) nameds.now)))) }
{
    for named in nameds {
        add_inline(list, &named.value)?;
    }
    Ok(())
}
