//! Entries and resources.
ghost use Rattle.std.specs.Prelude.{◌≡◌, ◌⊎◌, IfOk, Err, map, option_map, string_bytes};
ghost use Rattle.serde_json.specs.View.{view};
ghost use Rattle.fluent_syntax_tree.specs.View.{comment_view, pattern_view, attribute_view, message_view, term_view};
ghost use Rattle.fluent_syntax_tree.specs.View.{entry_view, resource_view};
ghost use Rattle.fluent_syntax_tree.specs.Entry.{BodyTree};
ghost use Rattle.fluent_syntax_json.specs.Object.{Text};
ghost use Rattle.fluent_syntax_json.specs.Json.{JsonReads};
ghost use Rattle.fluent_syntax_json.specs.Answer.{ReadsValue};
ghost use Rattle.fluent_syntax_json.specs.Reading.{list_by, value_in, attached_in, attribute_in, message_in, term_in};
ghost use Rattle.fluent_syntax_json.specs.Reading.{entry_in, body_in};

use super::fields::{field, list, optional, text, type_name};
use super::names::{comment, identifier};
use super::patterns::pattern;
use crate::fault::ValueFault;
use fluent_syntax_tree::ast::*;
use serde_json::Value;
use std::alloc::Global;

/// The resource that a value spells: `Shape` where it spells none, `Memory` where a growth was
/// refused.
pub fn from_value(alloc: Global, v: &Value) -> Result<Resource<String>, ValueFault>
    ensures spelled { IfOk result (λ r. JsonReads (view v.now) (resource_view string_bytes r)) }
    ensures none { result ≡ Err ValueFault.Shape → (r : BodyTree Text) → ¬ (JsonReads (view v.now) r) }
    ensures refused { ((r : BodyTree Text) → ¬ (JsonReads (view v.now) r))
        → (result ≡ Err ValueFault.Shape) ⊎ (result ≡ Err ValueFault.Memory) }
{
    resource(alloc, v)
}

fn resource(alloc: Global, v: &Value) -> Result<Resource<String>, ValueFault>
    ensures { ReadsValue (resource_view string_bytes) (body_in (view v.now)) result }
{
    let mut body = Vec::new(alloc);
    for item in list(field(v, "body")?)? {
        body.push(entry(alloc, item)?)?;
    }
    Ok(Resource { body })
}

fn entry(alloc: Global, v: &Value) -> Result<Entry<String>, ValueFault>
    ensures { ReadsValue (entry_view string_bytes) (entry_in (view v.now)) result }
{
    match type_name(v)? {
        "Message" => Ok(Entry::Message(message(alloc, v)?)),
        "Term" => Ok(Entry::Term(term(alloc, v)?)),
        "Comment" => Ok(Entry::Comment(comment(alloc, v)?)),
        "GroupComment" => Ok(Entry::GroupComment(comment(alloc, v)?)),
        "ResourceComment" => Ok(Entry::ResourceComment(comment(alloc, v)?)),
        "Junk" => Ok(Entry::Junk {
            content: text(alloc, field(v, "content")?)?,
        }),
        _ => Err(ValueFault::Shape),
    }
}

fn message(alloc: Global, v: &Value) -> Result<Message<String>, ValueFault>
    ensures { ReadsValue (message_view string_bytes) (message_in (view v.now)) result }
{
    Ok(Message {
        id: identifier(alloc, field(v, "id")?)?,
        value: value(alloc, v)?,
        attributes: attributes(alloc, field(v, "attributes")?)?,
        comment: comment_of(alloc, v)?,
    })
}

fn term(alloc: Global, v: &Value) -> Result<Term<String>, ValueFault>
    ensures { ReadsValue (term_view string_bytes) (term_in (view v.now)) result }
{
    Ok(Term {
        id: identifier(alloc, field(v, "id")?)?,
        value: pattern(alloc, field(v, "value")?)?,
        attributes: attributes(alloc, field(v, "attributes")?)?,
        comment: comment_of(alloc, v)?,
    })
}

/// The value of a message, which may have none.
fn value(alloc: Global, v: &Value) -> Result<Option<Pattern<String>>, ValueFault>
    ensures { ReadsValue (option_map (pattern_view string_bytes)) (value_in (view v.now)) result }
{
    match optional(v, "value") {
        None => Ok(None),
        Some(found) => Ok(Some(pattern(alloc, found)?)),
    }
}

fn attributes(alloc: Global, v: &Value) -> Result<Vec<Attribute<String>>, ValueFault>
    ensures { ReadsValue (λ l. map (attribute_view string_bytes) l.items) (list_by attribute_in (view v.now)) result }
{
    let mut attributes = Vec::new(alloc);
    for item in list(v)? {
        attributes.push(attribute(alloc, item)?)?;
    }
    Ok(attributes)
}

fn attribute(alloc: Global, v: &Value) -> Result<Attribute<String>, ValueFault>
    ensures { ReadsValue (attribute_view string_bytes) (attribute_in (view v.now)) result }
{
    Ok(Attribute {
        id: identifier(alloc, field(v, "id")?)?,
        value: pattern(alloc, field(v, "value")?)?,
    })
}

/// The comment of a message or a term.
fn comment_of(alloc: Global, v: &Value) -> Result<Option<Comment<String>>, ValueFault>
    ensures { ReadsValue (option_map (comment_view string_bytes)) (attached_in (view v.now)) result }
{
    match optional(v, "comment") {
        None => Ok(None),
        Some(found) => Ok(Some(comment(alloc, found)?)),
    }
}
