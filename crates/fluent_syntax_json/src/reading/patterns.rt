//! Patterns, and all that nests in them.
ghost use Rattle.std.specs.Prelude.{string_bytes};
ghost use Rattle.serde_json.specs.View.{view};
ghost use Rattle.fluent_syntax_tree.specs.View.{expression_view, inline_view, element_view, arguments_view, named_view};
ghost use Rattle.fluent_syntax_tree.specs.View.{pattern_view, variant_view};
ghost use Rattle.fluent_syntax_json.specs.Answer.{ReadsValue};
ghost use Rattle.fluent_syntax_json.specs.Reading.{expression_in, inline_in, element_in, arguments_in, named_in};
ghost use Rattle.fluent_syntax_json.specs.Reading.{pattern_in, variant_in};

use super::fields::{field, list, optional, text, truth, type_name};
use super::names::{attribute_name, identifier, key};
use crate::fault::ValueFault;
use fluent_syntax_tree::ast::*;
use serde_json::Value;
use std::alloc::Global;

#[cycle(reading)]
pub fn pattern(alloc: Global, v: &Value) -> Result<Pattern<String>, ValueFault>
    ensures { ReadsValue (pattern_view string_bytes) (pattern_in (view v.now)) result }
{
    let mut elements = Vec::new(alloc);
    for item in list(field(v, "elements")?)? {
        elements.push(element(alloc, item)?)?;
    }
    Ok(Pattern { elements })
}

#[cycle(reading)]
fn element(alloc: Global, v: &Value) -> Result<PatternElement<String>, ValueFault>
    ensures { ReadsValue (element_view string_bytes) (element_in (view v.now)) result }
{
    match type_name(v)? {
        "TextElement" => Ok(PatternElement::TextElement {
            value: text(alloc, field(v, "value")?)?,
        }),
        "Placeable" => Ok(PatternElement::Placeable {
            expression: expression(alloc, field(v, "expression")?)?,
        }),
        _ => Err(ValueFault::Shape),
    }
}

/// An expression: a select where there is a key `selector`, whatever else is there.
#[cycle(reading)]
fn expression(alloc: Global, v: &Value) -> Result<Expression<String>, ValueFault>
    ensures { ReadsValue (expression_view string_bytes) (expression_in (view v.now)) result }
{
    match v.get("selector") {
        None => Ok(Expression::Inline(inline(alloc, v)?)),
        Some(found) => {
            let selector = inline(alloc, found)?;
            let mut variants = Vec::new(alloc);
            for item in list(field(v, "variants")?)? {
                variants.push(variant(alloc, item)?)?;
            }
            Ok(Expression::Select { selector, variants })
        }
    }
}

#[cycle(reading)]
fn variant(alloc: Global, v: &Value) -> Result<Variant<String>, ValueFault>
    ensures { ReadsValue (variant_view string_bytes) (variant_in (view v.now)) result }
{
    Ok(Variant {
        key: key(alloc, field(v, "key")?)?,
        value: pattern(alloc, field(v, "value")?)?,
        default: truth(field(v, "default")?)?,
    })
}

#[cycle(reading)]
fn named_argument(alloc: Global, v: &Value) -> Result<NamedArgument<String>, ValueFault>
    ensures { ReadsValue (named_view string_bytes) (named_in (view v.now)) result }
{
    Ok(NamedArgument {
        name: identifier(alloc, field(v, "name")?)?,
        value: inline(alloc, field(v, "value")?)?,
    })
}

#[cycle(reading)]
fn arguments(alloc: Global, v: &Value) -> Result<CallArguments<String>, ValueFault>
    ensures { ReadsValue (arguments_view string_bytes) (arguments_in (view v.now)) result }
{
    let mut positional = Vec::new(alloc);
    for item in list(field(v, "positional")?)? {
        positional.push(inline(alloc, item)?)?;
    }
    let mut nameds = Vec::new(alloc);
    for item in list(field(v, "named")?)? {
        nameds.push(named_argument(alloc, item)?)?;
    }
    Ok(CallArguments {
        positional,
        named: nameds,
    })
}

#[cycle(reading)]
fn inline(alloc: Global, v: &Value) -> Result<InlineExpression<String>, ValueFault>
    ensures { ReadsValue (inline_view string_bytes) (inline_in (view v.now)) result }
{
    match type_name(v)? {
        "StringLiteral" => Ok(InlineExpression::StringLiteral {
            value: text(alloc, field(v, "value")?)?,
        }),
        "NumberLiteral" => Ok(InlineExpression::NumberLiteral {
            value: text(alloc, field(v, "value")?)?,
        }),
        "FunctionReference" => Ok(InlineExpression::FunctionReference {
            id: identifier(alloc, field(v, "id")?)?,
            arguments: arguments(alloc, field(v, "arguments")?)?,
        }),
        "MessageReference" => Ok(InlineExpression::MessageReference {
            id: identifier(alloc, field(v, "id")?)?,
            attribute: attribute_name(alloc, v)?,
        }),
        "TermReference" => {
            let id = identifier(alloc, field(v, "id")?)?;
            let attribute = attribute_name(alloc, v)?;
            match optional(v, "arguments") {
                None => Ok(InlineExpression::TermReference {
                    id,
                    attribute,
                    arguments: None,
                }),
                Some(given) => Ok(InlineExpression::TermReference {
                    id,
                    attribute,
                    arguments: Some(arguments(alloc, given)?),
                }),
            }
        }
        "VariableReference" => Ok(InlineExpression::VariableReference {
            id: identifier(alloc, field(v, "id")?)?,
        }),
        "Placeable" => Ok(InlineExpression::Placeable {
            expression: Box::new(alloc, expression(alloc, field(v, "expression")?)?)?,
        }),
        _ => Err(ValueFault::Shape),
    }
}
