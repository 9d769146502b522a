//! The places of the elements of patterns, put into their JSON form.

use fluent_syntax::ast::*;
use fluent_syntax::spans::Span;
use serde_json::{Value, json};
use std::alloc::{AllocError, Global};

/// Adds a member to an object.
pub(crate) fn put_member(
    alloc: Global,
    value: &mut Value,
    name: &str,
    member: Value,
) -> Result<(), AllocError> {
    if let Some(members) = value.as_object_mut() {
        drop(members.insert(String::from_str(alloc, name)?, member)?);
    }
    Ok(())
}

/// Adds where an object's node begins and ends, in bytes.
pub(crate) fn put_span(alloc: Global, value: &mut Value, span: Span) -> Result<(), AllocError> {
    let form = json!(in alloc; [(span.start as u64), (span.end as u64)])?;
    put_member(alloc, value, "span", form)
}

/// Adds the places of the elements of an entry's patterns.
pub(crate) fn put_entry_spans(
    alloc: Global,
    text: &[u8],
    value: &mut Value,
    entry: &Entry<Span>,
) -> Result<(), AllocError> {
    match entry {
        Entry::Message(message) => {
            if let Some(pattern) = &message.value {
                put_value_spans(alloc, text, value, pattern, message.id.name.end)?;
            }
            put_attribute_spans(alloc, text, value, &message.attributes)
        }
        Entry::Term(term) => {
            put_value_spans(alloc, text, value, &term.value, term.id.name.end)?;
            put_attribute_spans(alloc, text, value, &term.attributes)
        }
        _ => Ok(()),
    }
}

fn put_attribute_spans(
    alloc: Global,
    text: &[u8],
    value: &mut Value,
    attributes: &[Attribute<Span>],
) -> Result<(), AllocError> {
    let Some(values) = value.get_mut("attributes") else {
        return Ok(());
    };
    for (number, attribute) in attributes.iter().enumerate() {
        if let Some(value) = values.get_mut(number) {
            put_value_spans(alloc, text, value, &attribute.value, attribute.id.name.end)?;
        }
    }
    Ok(())
}

/// Adds the places of the elements of an entry's or an attribute's pattern, which begins after the place.
fn put_value_spans(
    alloc: Global,
    text: &[u8],
    value: &mut Value,
    pattern: &Pattern<Span>,
    from: usize,
) -> Result<(), AllocError> {
    if let Some(value) = value.get_mut("value") {
        put_pattern_spans(alloc, text, pattern, value, from)?;
    }
    Ok(())
}

/// Where the byte is next, from the place on; the text's end where it isn't.
fn place_of(text: &[u8], byte: u8, from: usize) -> usize {
    for at in from..text.len() {
        if text[at] == byte {
            return at;
        }
    }
    text.len()
}

/// Adds the places of a pattern's elements, which begin after the place, and gives where the last of them ends. From
/// what is before a placeable to its brace there are only blanks, and from its last name, literal or element to its
/// closing brace only blanks, quotes and parentheses.
#[cycle(spans)]
fn put_pattern_spans(
    alloc: Global,
    text: &[u8],
    pattern: &Pattern<Span>,
    value: &mut Value,
    from: usize,
) -> Result<usize, AllocError> {
    let mut at = from;
    let Some(values) = value.get_mut("elements") else {
        return Ok(at);
    };
    for (number, element) in pattern.elements.iter().enumerate() {
        let Some(value) = values.get_mut(number) else {
            return Ok(at);
        };
        let span = match element {
            PatternElement::TextElement { value } => *value,
            PatternElement::Placeable { expression } => {
                put_placeable_spans(alloc, text, expression, value, at)?
            }
        };
        put_span(alloc, value, span)?;
        at = span.end;
    }
    Ok(at)
}

/// Adds the places in a placeable that begins after the place, and gives its own.
#[cycle(spans)]
fn put_placeable_spans(
    alloc: Global,
    text: &[u8],
    expression: &Expression<Span>,
    value: &mut Value,
    from: usize,
) -> Result<Span, AllocError> {
    let start = place_of(text, b'{', from);
    let last = match value.get_mut("expression") {
        Some(value) => {
            let after = start.saturating_add(1);
            put_expression_spans(alloc, text, expression, value, after)?
        }
        None => start,
    };
    let end = place_of(text, b'}', last).saturating_add(1);
    Ok(Span { start, end })
}

#[cycle(spans)]
fn put_expression_spans(
    alloc: Global,
    text: &[u8],
    expression: &Expression<Span>,
    value: &mut Value,
    from: usize,
) -> Result<usize, AllocError> {
    match expression {
        Expression::Inline(inline) => put_inline_spans(alloc, text, inline, value, from),
        Expression::Select { selector, variants } => {
            let mut at = from;
            if let Some(value) = value.get_mut("selector") {
                at = put_inline_spans(alloc, text, selector, value, at)?;
            }
            let Some(values) = value.get_mut("variants") else {
                return Ok(at);
            };
            for (number, variant) in variants.iter().enumerate() {
                let key = match &variant.key {
                    VariantKey::Identifier { name } => *name,
                    VariantKey::NumberLiteral { value } => *value,
                };
                if let Some(value) = values.get_mut(number).and_then(|v| v.get_mut("value")) {
                    at = put_pattern_spans(alloc, text, &variant.value, value, key.end)?;
                }
            }
            Ok(at)
        }
    }
}

/// Adds the places in an expression, and gives where its last name, literal or element ends.
#[cycle(spans)]
fn put_inline_spans(
    alloc: Global,
    text: &[u8],
    inline: &InlineExpression<Span>,
    value: &mut Value,
    from: usize,
) -> Result<usize, AllocError> {
    match inline {
        InlineExpression::StringLiteral { value } | InlineExpression::NumberLiteral { value } => {
            Ok(value.end)
        }
        InlineExpression::VariableReference { id } => Ok(id.name.end),
        InlineExpression::MessageReference { id, attribute } => Ok(end_of_name(id, attribute)),
        InlineExpression::FunctionReference { id, arguments } => {
            put_argument_spans(alloc, text, arguments, value, id.name.end)
        }
        InlineExpression::TermReference {
            id,
            attribute,
            arguments,
        } => {
            let end = end_of_name(id, attribute);
            match arguments {
                Some(arguments) => put_argument_spans(alloc, text, arguments, value, end),
                None => Ok(end),
            }
        }
        InlineExpression::Placeable { expression } => {
            let span = put_placeable_spans(alloc, text, expression, value, from)?;
            put_span(alloc, value, span)?;
            Ok(span.end)
        }
    }
}

/// Where a name ends, with that of an attribute.
fn end_of_name(id: &Identifier<Span>, attribute: &Option<Identifier<Span>>) -> usize {
    match attribute {
        Some(attribute) => attribute.name.end,
        None => id.name.end,
    }
}

#[cycle(spans)]
fn put_argument_spans(
    alloc: Global,
    text: &[u8],
    arguments: &CallArguments<Span>,
    value: &mut Value,
    from: usize,
) -> Result<usize, AllocError> {
    let Some(value) = value.get_mut("arguments") else {
        return Ok(from);
    };
    let mut at = from;
    if let Some(values) = value.get_mut("positional") {
        for (number, inline) in arguments.positional.iter().enumerate() {
            if let Some(value) = values.get_mut(number) {
                at = put_inline_spans(alloc, text, inline, value, at)?;
            }
        }
    }
    if let Some(values) = value.get_mut("named") {
        for (number, named) in arguments.named.iter().enumerate() {
            if let Some(value) = values
                .get_mut(number)
                .and_then(|named| named.get_mut("value"))
            {
                at = put_inline_spans(alloc, text, &named.value, value, named.name.name.end)?;
            }
        }
    }
    Ok(at)
}
