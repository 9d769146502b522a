//! The tokens of patterns, and of all that nests in them.

use crate::requests::token::{Token, TokenKind};
use fluent_syntax::ast::*;
use fluent_syntax::spans::Span;
use std::alloc::AllocError;

/// Adds a token.
pub(crate) fn add_token(
    list: &mut Vec<Token>,
    kind: TokenKind,
    span: Span,
) -> Result<(), AllocError> {
    list.push(Token { kind, span })?;
    Ok(())
}

/// Adds the name of an attribute that is referred to, where there is one.
fn add_attribute_reference(
    list: &mut Vec<Token>,
    attribute: &Option<Identifier<Span>>,
) -> Result<(), AllocError> {
    match attribute {
        Some(id) => add_token(list, TokenKind::AttributeReference, id.name),
        None => Ok(()),
    }
}

/// Adds the key of a variant.
fn add_key(list: &mut Vec<Token>, key: &VariantKey<Span>) -> Result<(), AllocError> {
    match key {
        VariantKey::Identifier { name } => add_token(list, TokenKind::VariantKey, *name),
        VariantKey::NumberLiteral { value } => add_token(list, TokenKind::VariantKey, *value),
    }
}

/// Adds the tokens of the pattern.
#[cycle(tokens)]
pub(crate) fn add_pattern(
    list: &mut Vec<Token>,
    pattern: &Pattern<Span>,
) -> Result<(), AllocError> {
    for element in &pattern.elements {
        if let PatternElement::Placeable { expression } = element {
            add_expression(list, expression)?;
        }
    }
    Ok(())
}

#[cycle(tokens)]
fn add_expression(list: &mut Vec<Token>, expression: &Expression<Span>) -> Result<(), AllocError> {
    match expression {
        Expression::Select { selector, variants } => {
            add_inline(list, selector)?;
            for variant in variants {
                add_key(list, &variant.key)?;
                add_pattern(list, &variant.value)?;
            }
            Ok(())
        }
        Expression::Inline(inline) => add_inline(list, inline),
    }
}

#[cycle(tokens)]
fn add_inline(list: &mut Vec<Token>, inline: &InlineExpression<Span>) -> Result<(), AllocError> {
    match inline {
        InlineExpression::StringLiteral { value } => {
            add_token(list, TokenKind::StringLiteral, *value)
        }
        InlineExpression::NumberLiteral { value } => {
            add_token(list, TokenKind::NumberLiteral, *value)
        }
        InlineExpression::FunctionReference { id, arguments } => {
            add_token(list, TokenKind::Function, id.name)?;
            add_arguments(list, arguments)
        }
        InlineExpression::MessageReference { id, attribute } => {
            add_token(list, TokenKind::MessageReference, id.name)?;
            add_attribute_reference(list, attribute)
        }
        InlineExpression::TermReference {
            id,
            attribute,
            arguments,
        } => {
            add_token(list, TokenKind::TermReference, id.name)?;
            add_attribute_reference(list, attribute)?;
            match arguments {
                Some(arguments) => add_arguments(list, arguments),
                None => Ok(()),
            }
        }
        InlineExpression::VariableReference { id } => {
            add_token(list, TokenKind::Variable, id.name)
        }
        InlineExpression::Placeable { expression } => add_expression(list, expression),
    }
}

#[cycle(tokens)]
fn add_arguments(list: &mut Vec<Token>, arguments: &CallArguments<Span>) -> Result<(), AllocError> {
    for inline in &arguments.positional {
        add_inline(list, inline)?;
    }
    for named in &arguments.named {
        add_token(list, TokenKind::ArgumentName, named.name.name)?;
        add_inline(list, &named.value)?;
    }
    Ok(())
}
