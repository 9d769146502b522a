//! Patterns, and all that nests in them.
ghost use Rattle.std.specs.Prelude.{◌≡◌, IfOk, string_bytes};
ghost use Rattle.serde_json.specs.View.{view};
ghost use Rattle.fluent_syntax_tree.specs.View.{expression_view, inline_view, element_view, arguments_view, named_view};
ghost use Rattle.fluent_syntax_tree.specs.View.{pattern_view, variant_view};
ghost use Rattle.fluent_syntax_json.specs.Form.{expression_form, inline_form, element_form, arguments_form, named_form};
ghost use Rattle.fluent_syntax_json.specs.Form.{pattern_form, variant_form};

use super::names::{attribute_name, identifier, key, text};
use crate::object::Object;
use fluent_syntax_tree::ast::*;
use serde_json::Value;
use std::alloc::{AllocError, Global};

#[cycle(form)]
#[tactic(auto, using(fluent_syntax_tree::proofs::Views::views))]
pub fn pattern(alloc: Global, pattern: &Pattern<String>) -> Result<Value, AllocError>
    ensures { IfOk result (λ v. view v ≡ pattern_form (pattern_view string_bytes pattern.now)) }
{
    let mut list = Vec::new(alloc);
    for item in &pattern.elements {
        list.push(element(alloc, item)?)?;
    }
    Ok(
        Object::new(alloc)
            .with("elements", Value::Array(list))?
            .into_value(),
    )
}

#[cycle(form)]
#[tactic(auto, using(fluent_syntax_tree::proofs::Views::views))]
fn element(alloc: Global, element: &PatternElement<String>) -> Result<Value, AllocError>
    ensures { IfOk result (λ v. view v ≡ element_form (element_view string_bytes element.now)) }
{
    match element {
        PatternElement::TextElement { value } => Ok(
            Object::of_type(alloc, "TextElement")?
                .with("value", text(alloc, value)?)?
                .into_value(),
        ),
        PatternElement::Placeable { expression: inner } => Ok(
            Object::of_type(alloc, "Placeable")?
                .with("expression", expression(alloc, inner)?)?
                .into_value(),
        ),
    }
}

#[cycle(form)]
#[tactic(auto, using(fluent_syntax_tree::proofs::Views::views))]
fn expression(alloc: Global, expression: &Expression<String>) -> Result<Value, AllocError>
    ensures { IfOk result (λ v. view v ≡ expression_form (expression_view string_bytes expression.now)) }
{
    match expression {
        Expression::Select { selector, variants } => {
            let mut list = Vec::new(alloc);
            for item in variants {
                list.push(variant(alloc, item)?)?;
            }
            Ok(
                Object::new(alloc)
                    .with("selector", inline(alloc, selector)?)?
                    .with("variants", Value::Array(list))?
                    .into_value(),
            )
        }
        Expression::Inline(inner) => inline(alloc, inner),
    }
}

#[cycle(form)]
#[tactic(auto, using(fluent_syntax_tree::proofs::Views::views))]
fn variant(alloc: Global, variant: &Variant<String>) -> Result<Value, AllocError>
    ensures { IfOk result (λ v. view v ≡ variant_form (variant_view string_bytes variant.now)) }
{
    Ok(
        Object::of_type(alloc, "Variant")?
            .with("key", key(alloc, &variant.key)?)?
            .with("value", pattern(alloc, &variant.value)?)?
            .with("default", Value::Bool(variant.default))?
            .into_value(),
    )
}

#[cycle(form)]
#[tactic(auto, using(fluent_syntax_tree::proofs::Views::views))]
fn named_argument(alloc: Global, argument: &NamedArgument<String>) -> Result<Value, AllocError>
    ensures { IfOk result (λ v. view v ≡ named_form (named_view string_bytes argument.now)) }
{
    Ok(
        Object::of_type(alloc, "NamedArgument")?
            .with("name", identifier(alloc, &argument.name)?)?
            .with("value", inline(alloc, &argument.value)?)?
            .into_value(),
    )
}

#[cycle(form)]
#[tactic(auto, using(fluent_syntax_tree::proofs::Views::views))]
fn arguments(alloc: Global, arguments: &CallArguments<String>) -> Result<Value, AllocError>
    ensures { IfOk result (λ v. view v ≡ arguments_form (arguments_view string_bytes arguments.now)) }
{
    let mut positional = Vec::new(alloc);
    for item in &arguments.positional {
        positional.push(inline(alloc, item)?)?;
    }
    let mut nameds = Vec::new(alloc);
    for item in &arguments.named {
        nameds.push(named_argument(alloc, item)?)?;
    }
    Ok(
        Object::of_type(alloc, "CallArguments")?
            .with("positional", Value::Array(positional))?
            .with("named", Value::Array(nameds))?
            .into_value(),
    )
}

#[cycle(form)]
#[tactic(auto, using(fluent_syntax_tree::proofs::Views::views))]
fn inline(alloc: Global, inline: &InlineExpression<String>) -> Result<Value, AllocError>
    ensures { IfOk result (λ v. view v ≡ inline_form (inline_view string_bytes inline.now)) }
{
    match inline {
        InlineExpression::StringLiteral { value } => Ok(
            Object::of_type(alloc, "StringLiteral")?
                .with("value", text(alloc, value)?)?
                .into_value(),
        ),
        InlineExpression::NumberLiteral { value } => Ok(
            Object::of_type(alloc, "NumberLiteral")?
                .with("value", text(alloc, value)?)?
                .into_value(),
        ),
        InlineExpression::FunctionReference {
            id,
            arguments: given,
        } => Ok(
            Object::of_type(alloc, "FunctionReference")?
                .with("id", identifier(alloc, id)?)?
                .with("arguments", arguments(alloc, given)?)?
                .into_value(),
        ),
        InlineExpression::MessageReference { id, attribute } => {
            Ok(
                Object::of_type(alloc, "MessageReference")?
                    .with("id", identifier(alloc, id)?)?
                    .with("attribute", attribute_name(alloc, attribute)?)?
                    .into_value(),
            )
        }
        InlineExpression::TermReference {
            id,
            attribute,
            arguments: given,
        } => {
            let object = Object::of_type(alloc, "TermReference")?
                .with("id", identifier(alloc, id)?)?
                .with("attribute", attribute_name(alloc, attribute)?)?;
            match given {
                None => Ok(object.with("arguments", Value::Null)?.into_value()),
                Some(given) => Ok(
                    object
                        .with("arguments", arguments(alloc, given)?)?
                        .into_value(),
                ),
            }
        }
        InlineExpression::VariableReference { id } => {
            Ok(
                Object::of_type(alloc, "VariableReference")?
                    .with("id", identifier(alloc, id)?)?
                    .into_value(),
            )
        }
        InlineExpression::Placeable { expression: inner } => {
            Ok(
                Object::of_type(alloc, "Placeable")?
                    .with("expression", expression(alloc, inner)?)?
                    .into_value(),
            )
        }
    }
}
