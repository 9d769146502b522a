//! Names, keys and comments.
ghost use Rattle.std.specs.Prelude.{option_map, string_bytes};
ghost use Rattle.serde_json.specs.View.{view};
ghost use Rattle.fluent_syntax_tree.specs.View.{identifier_view, key_view, comment_view};
ghost use Rattle.fluent_syntax_json.specs.Answer.{ReadsValue};
ghost use Rattle.fluent_syntax_json.specs.Reading.{name_in, attribute_name_in, key_in, comment_in};

use super::fields::{field, list, optional, text, type_name};
use crate::fault::ValueFault;
use fluent_syntax_tree::ast::{Comment, Identifier, VariantKey};
use serde_json::Value;
use std::alloc::Global;

pub fn identifier(alloc: Global, v: &Value) -> Result<Identifier<String>, ValueFault>
    ensures { ReadsValue (identifier_view string_bytes) (name_in (view v.now)) result }
{
    Ok(Identifier {
        name: text(alloc, field(v, "name")?)?,
    })
}

pub fn attribute_name(alloc: Global, v: &Value) -> Result<Option<Identifier<String>>, ValueFault>
    ensures { ReadsValue (option_map (identifier_view string_bytes)) (attribute_name_in (view v.now)) result }
{
    match optional(v, "attribute") {
        None => Ok(None),
        Some(id) => Ok(Some(identifier(alloc, id)?)),
    }
}

pub fn key(alloc: Global, v: &Value) -> Result<VariantKey<String>, ValueFault>
    ensures { ReadsValue (key_view string_bytes) (key_in (view v.now)) result }
{
    match type_name(v)? {
        "Identifier" => Ok(VariantKey::Identifier {
            name: text(alloc, field(v, "name")?)?,
        }),
        "NumberLiteral" => Ok(VariantKey::NumberLiteral {
            value: text(alloc, field(v, "value")?)?,
        }),
        _ => Err(ValueFault::Shape),
    }
}

/// A comment, whose content is a list of lines or one line.
pub fn comment(alloc: Global, v: &Value) -> Result<Comment<String>, ValueFault>
    ensures { ReadsValue (comment_view string_bytes) (comment_in (view v.now)) result }
{
    let content = field(v, "content")?;
    let mut lines = Vec::new(alloc);
    if content.is_string() {
        lines.push(text(alloc, content)?)?;
    } else {
        for line in list(content)? {
            lines.push(text(alloc, line)?)?;
        }
    }
    Ok(Comment { content: lines })
}
