//! Entries and resources.
ghost use Rattle.std.specs.Prelude.{◌≡◌, [], ◌∷◌, IfOk, codes, map, option_map, string_bytes};
ghost use Rattle.serde_json.specs.View.{view};
ghost use Rattle.fluent_syntax_tree.specs.View.{comment_view, pattern_view, attribute_view, message_view, term_view};
ghost use Rattle.fluent_syntax_tree.specs.View.{entry_view, resource_view};
ghost use Rattle.fluent_syntax_json.specs.Object.{object_of};
ghost use Rattle.fluent_syntax_json.specs.Form.{or_null, list_form, lines_form, comment_form, pattern_form};
ghost use Rattle.fluent_syntax_json.specs.Form.{attribute_form, message_form, term_form, entry_form};
ghost use Rattle.fluent_syntax_json.specs.Json.{JsonForm};

use super::names::{identifier, lines, text};
use super::patterns::pattern;
use crate::object::Object;
use fluent_syntax_tree::ast::*;
use serde_json::Value;
use std::alloc::{AllocError, Global};

/// The JSON form of a resource, or `AllocError` where a growth was refused.
pub fn to_value(alloc: Global, r: &Resource<String>) -> Result<Value, AllocError>
    ensures { IfOk result (λ v. JsonForm (resource_view string_bytes r.now) (view v)) }
{
    let mut list = Vec::new(alloc);
    for item in &r.body {
        list.push(entry(alloc, item)?)?;
    }
    Ok(
        Object::new(alloc)
            .with("body", Value::Array(list))?
            .into_value(),
    )
}

fn entry(alloc: Global, entry: &Entry<String>) -> Result<Value, AllocError>
    ensures { IfOk result (λ v. view v ≡ entry_form (entry_view string_bytes entry.now)) }
{
    match entry {
        Entry::Message(inner) => message(alloc, inner),
        Entry::Term(inner) => term(alloc, inner),
        Entry::Comment(inner) => comment(alloc, "Comment", inner),
        Entry::GroupComment(inner) => comment(alloc, "GroupComment", inner),
        Entry::ResourceComment(inner) => comment(alloc, "ResourceComment", inner),
        Entry::Junk { content } => Ok(
            Object::of_type(alloc, "Junk")?
                .with("content", text(alloc, content)?)?
                .into_value(),
        ),
    }
}

fn message(alloc: Global, message: &Message<String>) -> Result<Value, AllocError>
    ensures { IfOk result (λ v. view v ≡ message_form (message_view string_bytes message.now)) }
{
    Ok(
        Object::of_type(alloc, "Message")?
            .with("id", identifier(alloc, &message.id)?)?
            .with("value", value(alloc, &message.value)?)?
            .with("attributes", attributes(alloc, &message.attributes)?)?
            .with("comment", comment_or_null(alloc, &message.comment)?)?
            .into_value(),
    )
}

fn term(alloc: Global, term: &Term<String>) -> Result<Value, AllocError>
    ensures { IfOk result (λ v. view v ≡ term_form (term_view string_bytes term.now)) }
{
    Ok(
        Object::of_type(alloc, "Term")?
            .with("id", identifier(alloc, &term.id)?)?
            .with("value", pattern(alloc, &term.value)?)?
            .with("attributes", attributes(alloc, &term.attributes)?)?
            .with("comment", comment_or_null(alloc, &term.comment)?)?
            .into_value(),
    )
}

/// A comment that is an entry of its own, under the name of its level.
fn comment(alloc: Global, name: &str, comment: &Comment<String>) -> Result<Value, AllocError>
    ensures { IfOk result (λ v. view v
        ≡ object_of name.now ((codes "content", lines_form (comment_view string_bytes comment.now)) ∷ [])) }
{
    Ok(
        Object::of_type(alloc, name)?
            .with("content", lines(alloc, comment)?)?
            .into_value(),
    )
}

fn value(alloc: Global, value: &Option<Pattern<String>>) -> Result<Value, AllocError>
    ensures { IfOk result (λ v. view v ≡ or_null pattern_form (option_map (pattern_view string_bytes) value.now)) }
{
    match value {
        None => Ok(Value::Null),
        Some(value) => pattern(alloc, value),
    }
}

fn attributes(alloc: Global, attributes: &Vec<Attribute<String>>) -> Result<Value, AllocError>
    ensures { IfOk result
        (λ v. view v ≡ list_form attribute_form (map (attribute_view string_bytes) attributes.now.items)) }
{
    let mut list = Vec::new(alloc);
    for item in attributes {
        list.push(attribute(alloc, item)?)?;
    }
    Ok(Value::Array(list))
}

fn attribute(alloc: Global, attribute: &Attribute<String>) -> Result<Value, AllocError>
    ensures { IfOk result (λ v. view v ≡ attribute_form (attribute_view string_bytes attribute.now)) }
{
    Ok(
        Object::new(alloc)
            .with("id", identifier(alloc, &attribute.id)?)?
            .with("value", pattern(alloc, &attribute.value)?)?
            .into_value(),
    )
}

/// The comment of a message or a term.
fn comment_or_null(alloc: Global, comment: &Option<Comment<String>>) -> Result<Value, AllocError>
    ensures { IfOk result (λ v. view v ≡ or_null comment_form (option_map (comment_view string_bytes) comment.now)) }
{
    match comment {
        None => Ok(Value::Null),
        Some(comment) => Ok(
            Object::new(alloc)
                .with("content", lines(alloc, comment)?)?
                .into_value(),
        ),
    }
}
