//! What an entry refers to.

use crate::lint::names::Name;
use fluent_syntax::ast::{
    Attribute, CallArguments, Entry, Expression, InlineExpression, Pattern, PatternElement,
};
use std::alloc::{AllocError, Global};

/// The messages and terms that the entry refers to, in the order of the file, as often as it does.
pub(crate) fn references<'s>(
    alloc: Global,
    entry: &Entry<&'s str>,
) -> Result<Vec<Name<'s>>, AllocError> {
    let mut names = Vec::new(alloc);
    match entry {
        Entry::Message(message) => {
            if let Some(value) = &message.value {
                add_pattern(&mut names, value)?;
            }
            add_attributes(&mut names, message.attributes.as_slice())?;
        }
        Entry::Term(term) => {
            add_pattern(&mut names, &term.value)?;
            add_attributes(&mut names, term.attributes.as_slice())?;
        }
        _ => {}
    }
    Ok(names)
}

fn add_attributes<'s>(
    names: &mut Vec<Name<'s>>,
    attributes: &[Attribute<&'s str>],
) -> Result<(), AllocError> {
    for attribute in attributes {
        add_pattern(names, &attribute.value)?;
    }
    Ok(())
}

#[cycle(walk)]
fn add_pattern<'s>(
    names: &mut Vec<Name<'s>>,
    pattern: &Pattern<&'s str>,
) -> Result<(), AllocError> {
    for element in &pattern.elements {
        if let PatternElement::Placeable { expression } = element {
            add_expression(names, expression)?;
        }
    }
    Ok(())
}

#[cycle(walk)]
fn add_expression<'s>(
    names: &mut Vec<Name<'s>>,
    expression: &Expression<&'s str>,
) -> Result<(), AllocError> {
    match expression {
        Expression::Inline(inline) => add_inline(names, inline),
        Expression::Select { selector, variants } => {
            add_inline(names, selector)?;
            for variant in variants {
                add_pattern(names, &variant.value)?;
            }
            Ok(())
        }
    }
}

#[cycle(walk)]
fn add_inline<'s>(
    names: &mut Vec<Name<'s>>,
    inline: &InlineExpression<&'s str>,
) -> Result<(), AllocError> {
    match inline {
        InlineExpression::MessageReference { id, .. } => Ok(names.push(Name::Message(id.name))?),
        InlineExpression::TermReference { id, arguments, .. } => {
            names.push(Name::Term(id.name))?;
            match arguments {
                Some(arguments) => add_arguments(names, arguments),
                None => Ok(()),
            }
        }
        InlineExpression::FunctionReference { arguments, .. } => add_arguments(names, arguments),
        InlineExpression::Placeable { expression } => add_expression(names, expression),
        _ => Ok(()),
    }
}

#[cycle(walk)]
fn add_arguments<'s>(
    names: &mut Vec<Name<'s>>,
    arguments: &CallArguments<&'s str>,
) -> Result<(), AllocError> {
    for argument in &arguments.positional {
        add_inline(names, argument)?;
    }
    for argument in &arguments.named {
        add_inline(names, &argument.value)?;
    }
    Ok(())
}
