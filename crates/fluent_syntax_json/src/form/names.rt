//! Texts, names, keys and comments.
ghost use Rattle.std.specs.Prelude.{◌≡◌, IfOk, option_map, string_bytes};
ghost use Rattle.serde_json.specs.Data.{string};
ghost use Rattle.serde_json.specs.View.{view};
ghost use Rattle.fluent_syntax_tree.specs.View.{identifier_view, key_view, comment_view};
ghost use Rattle.fluent_syntax_json.specs.Form.{name_form, or_null, key_form, lines_form};

use crate::object::Object;
use fluent_syntax_tree::ast::{Comment, Identifier, VariantKey};
use serde_json::Value;
use std::alloc::{AllocError, Global};

pub fn text(alloc: Global, text: &String) -> Result<Value, AllocError>
    ensures { IfOk result (λ v. view v ≡ string (string_bytes text.now)) }
{
    Value::try_from_str(alloc, text.as_str())
}

pub fn identifier(alloc: Global, id: &Identifier<String>) -> Result<Value, AllocError>
    ensures { IfOk result (λ v. view v ≡ name_form (identifier_view string_bytes id.now)) }
{
    Ok(
        Object::new(alloc)
            .with("name", text(alloc, &id.name)?)?
            .into_value(),
    )
}

pub fn attribute_name(
    alloc: Global,
    attribute: &Option<Identifier<String>>,
) -> Result<Value, AllocError>
    ensures { IfOk result (λ v. view v ≡ or_null name_form (option_map (identifier_view string_bytes) attribute.now)) }
{
    match attribute {
        None => Ok(Value::Null),
        Some(id) => identifier(alloc, id),
    }
}

pub fn key(alloc: Global, key: &VariantKey<String>) -> Result<Value, AllocError>
    ensures { IfOk result (λ v. view v ≡ key_form (key_view string_bytes key.now)) }
{
    match key {
        VariantKey::Identifier { name } => Ok(
            Object::of_type(alloc, "Identifier")?
                .with("name", text(alloc, name)?)?
                .into_value(),
        ),
        VariantKey::NumberLiteral { value } => Ok(
            Object::of_type(alloc, "NumberLiteral")?
                .with("value", text(alloc, value)?)?
                .into_value(),
        ),
    }
}

/// The lines of a comment, as a list.
pub fn lines(alloc: Global, comment: &Comment<String>) -> Result<Value, AllocError>
    ensures { IfOk result (λ v. view v ≡ lines_form (comment_view string_bytes comment.now)) }
{
    let mut list = Vec::new(alloc);
    for line in &comment.content {
        list.push(text(alloc, line)?)?;
    }
    Ok(Value::Array(list))
}
