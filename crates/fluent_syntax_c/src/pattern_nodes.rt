//! The nodes of patterns, and of all that nests in them, as rows.
ghost use Rattle.std.specs.Prelude.{◌≡◌, ◌≤◌, OnOk, option_map, map};
ghost use Rattle.fluent_syntax_tree.specs.Tree.{arguments_of, elements_of, inlines_of, nameds_of, variants_of};
ghost use Rattle.fluent_syntax_tree.specs.View.{identifier_view, expression_view, inline_view, element_view};
ghost use Rattle.fluent_syntax_tree.specs.View.{arguments_view, key_view, named_view, pattern_view, variant_view};
ghost use Rattle.fluent_syntax_names.specs.Growing.{Adds};
ghost use Rattle.fluent_syntax_c.specs.Nodes.{arguments_nodes, element_nodes, elements_nodes, expression_nodes};
ghost use Rattle.fluent_syntax_c.specs.Nodes.{inline_nodes, inlines_nodes, key_node, maybe_count, maybe_nodes};
ghost use Rattle.fluent_syntax_c.specs.Nodes.{name_nodes, named_nodes, nameds_nodes, option_count, pattern_nodes};
ghost use Rattle.fluent_syntax_c.specs.Nodes.{variant_kind, variant_nodes, variants_nodes};

use crate::nodes::{FtlNode, NodeKind, bare_node, node};
use fluent_syntax::ast::*;
use fluent_syntax::spans::Span;
use std::alloc::AllocError;

/// Adds a pattern.
#[cycle(nodes)]
pub(crate) fn add_pattern(
    rows: &mut Vec<FtlNode>,
    pattern: &Pattern<Span>,
) -> Result<(), AllocError>
    ensures { OnOk result (Adds rows.old.items rows.new.items (pattern_nodes (pattern_view (λ s. s) pattern.now))) }
{
    rows.push(bare_node(NodeKind::Pattern, pattern.elements.len()))?;
    add_elements(rows, &pattern.elements)
}

#[cycle(nodes)]
fn add_elements(
    rows: &mut Vec<FtlNode>,
    elements: &[PatternElement<Span>],
) -> Result<(), AllocError>
    ensures { OnOk result (Adds rows.old.items rows.new.items
        (elements_nodes (elements_of (map (element_view (λ s. s)) elements.now)))) }
{
    for element in elements {
        add_element(rows, element)?;
    }
    Ok(())
}

#[cycle(nodes)]
fn add_element(rows: &mut Vec<FtlNode>, element: &PatternElement<Span>) -> Result<(), AllocError>
    ensures { OnOk result (Adds rows.old.items rows.new.items (element_nodes (element_view (λ s. s) element.now))) }
{
    match element {
        PatternElement::TextElement { value } => {
            rows.push(node(NodeKind::Text, *value, 0))?;
            Ok(())
        }
        PatternElement::Placeable { expression } => {
            rows.push(bare_node(NodeKind::Placeable, 1))?;
            add_expression(rows, expression)
        }
    }
}

#[cycle(nodes)]
fn add_expression(rows: &mut Vec<FtlNode>, expression: &Expression<Span>) -> Result<(), AllocError>
    ensures { OnOk result (Adds rows.old.items rows.new.items
        (expression_nodes (expression_view (λ s. s) expression.now))) }
{
    match expression {
        Expression::Select { selector, variants } => {
            rows.push(bare_node(NodeKind::Select, 1 + variants.len()))?;
            add_inline(rows, selector)?;
            add_variants(rows, variants)
        }
        Expression::Inline(inline) => add_inline(rows, inline),
    }
}

#[cycle(nodes)]
fn add_variants(rows: &mut Vec<FtlNode>, variants: &[Variant<Span>]) -> Result<(), AllocError>
    ensures { OnOk result (Adds rows.old.items rows.new.items
        (variants_nodes (variants_of (map (variant_view (λ s. s)) variants.now)))) }
{
    for variant in variants {
        add_variant(rows, variant)?;
    }
    Ok(())
}

#[cycle(nodes)]
fn add_variant(rows: &mut Vec<FtlNode>, variant: &Variant<Span>) -> Result<(), AllocError>
    ensures { OnOk result (Adds rows.old.items rows.new.items (variant_nodes (variant_view (λ s. s) variant.now))) }
{
    rows.push(bare_node(variant_kind(variant.default), 2))?;
    rows.push(key_node(&variant.key))?;
    add_pattern(rows, &variant.value)
}

fn variant_kind(default: bool) -> NodeKind
    ensures { result ≡ variant_kind default }
{
    if default {
        NodeKind::DefaultVariant
    } else {
        NodeKind::Variant
    }
}

fn key_node(key: &VariantKey<Span>) -> FtlNode
    ensures { result ≡ key_node (key_view (λ s. s) key.now) }
{
    match key {
        VariantKey::Identifier { name } => node(NodeKind::Identifier, *name, 0),
        VariantKey::NumberLiteral { value } => node(NodeKind::NumberLiteral, *value, 0),
    }
}

#[cycle(nodes)]
fn add_inline(rows: &mut Vec<FtlNode>, inline: &InlineExpression<Span>) -> Result<(), AllocError>
    ensures { OnOk result (Adds rows.old.items rows.new.items (inline_nodes (inline_view (λ s. s) inline.now))) }
{
    match inline {
        InlineExpression::StringLiteral { value } => {
            rows.push(node(NodeKind::StringLiteral, *value, 0))?;
            Ok(())
        }
        InlineExpression::NumberLiteral { value } => {
            rows.push(node(NodeKind::NumberLiteral, *value, 0))?;
            Ok(())
        }
        InlineExpression::FunctionReference { id, arguments } => {
            rows.push(node(NodeKind::FunctionReference, id.name, 1))?;
            add_arguments(rows, arguments)
        }
        InlineExpression::MessageReference { id, attribute } => {
            let held = name_count(attribute);
            rows.push(node(NodeKind::MessageReference, id.name, held))?;
            add_name(rows, attribute)
        }
        InlineExpression::TermReference {
            id,
            attribute,
            arguments,
        } => {
            let held = name_count(attribute) + arguments_count(arguments);
            rows.push(node(NodeKind::TermReference, id.name, held))?;
            add_name(rows, attribute)?;
            match arguments {
                Some(arguments) => add_arguments(rows, arguments),
                None => Ok(()),
            }
        }
        InlineExpression::VariableReference { id } => {
            rows.push(node(NodeKind::VariableReference, id.name, 0))?;
            Ok(())
        }
        InlineExpression::Placeable { expression } => {
            rows.push(bare_node(NodeKind::Placeable, 1))?;
            add_expression(rows, expression)
        }
    }
}

/// How many attributes are referred to: one or none.
fn name_count(attribute: &Option<Identifier<Span>>) -> usize
    ensures count { result ≡ option_count (option_map (identifier_view (λ s. s)) attribute.now) }
    ensures small { result ≤ 1 }
{
    match attribute {
        Some(_) => 1,
        None => 0,
    }
}

/// How many lists of arguments there are: one or none.
fn arguments_count(arguments: &Option<CallArguments<Span>>) -> usize
    ensures count { result ≡ maybe_count (arguments_of (option_map (arguments_view (λ s. s)) arguments.now)) }
    ensures small { result ≤ 1 }
{
    match arguments {
        Some(_) => 1,
        None => 0,
    }
}

/// Adds the attribute that is referred to, if one is.
fn add_name(rows: &mut Vec<FtlNode>, attribute: &Option<Identifier<Span>>) -> Result<(), AllocError>
    ensures { OnOk result (Adds rows.old.items rows.new.items
        (name_nodes (option_map (identifier_view (λ s. s)) attribute.now))) }
{
    if let Some(id) = attribute {
        rows.push(node(NodeKind::Identifier, id.name, 0))?;
    }
    Ok(())
}

#[cycle(nodes)]
fn add_arguments(rows: &mut Vec<FtlNode>, arguments: &CallArguments<Span>) -> Result<(), AllocError>
    ensures { OnOk result (Adds rows.old.items rows.new.items
        (arguments_nodes (arguments_view (λ s. s) arguments.now))) }
{
    let held = arguments.positional.len() + arguments.named.len();
    rows.push(bare_node(NodeKind::CallArguments, held))?;
    add_inlines(rows, &arguments.positional)?;
    add_named_arguments(rows, &arguments.named)
}

#[cycle(nodes)]
fn add_inlines(
    rows: &mut Vec<FtlNode>,
    inlines: &[InlineExpression<Span>],
) -> Result<(), AllocError>
    ensures { OnOk result (Adds rows.old.items rows.new.items
        (inlines_nodes (inlines_of (map (inline_view (λ s. s)) inlines.now)))) }
{
    for inline in inlines {
        add_inline(rows, inline)?;
    }
    Ok(())
}

#[cycle(nodes)]
fn add_named_arguments(
    rows: &mut Vec<FtlNode>,
    nameds: &[NamedArgument<Span>],
) -> Result<(), AllocError>
    ensures { OnOk result (Adds rows.old.items rows.new.items
        (nameds_nodes (nameds_of (map (named_view (λ s. s)) nameds.now)))) }
{
    for named in nameds {
        add_named_argument(rows, named)?;
    }
    Ok(())
}

#[cycle(nodes)]
fn add_named_argument(
    rows: &mut Vec<FtlNode>,
    argument: &NamedArgument<Span>,
) -> Result<(), AllocError>
    ensures { OnOk result (Adds rows.old.items rows.new.items (named_nodes (named_view (λ s. s) argument.now))) }
{
    rows.push(node(NodeKind::NamedArgument, argument.name.name, 1))?;
    add_inline(rows, &argument.value)
}
