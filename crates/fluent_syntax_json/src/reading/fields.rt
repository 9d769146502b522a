//! What a value has at its keys, and what kind of value it is.
ghost use Rattle.std.specs.Prelude.{◌≡◌, option_map, string_bytes};
ghost use Rattle.serde_json.specs.Find.{get, as_array, as_bool, as_str};
ghost use Rattle.serde_json.specs.View.{view, items_view};
ghost use Rattle.fluent_syntax_json.specs.Answer.{ReadsValue};
ghost use Rattle.fluent_syntax_json.specs.Reading.{present, type_in};

use crate::fault::ValueFault;
use serde_json::Value;
use std::alloc::Global;

/// What is at a key, which has to be there.
pub fn field<'v>(v: &'v Value, key: &str) -> Result<&'v Value, ValueFault>
    ensures { ReadsValue (λ f. view f.now) (get key.now (view v.now)) result }
{
    v.get(key).ok_or(ValueFault::Shape)
}

/// What is at a key that may be absent or null.
pub fn optional<'v>(v: &'v Value, key: &str) -> Option<&'v Value>
    ensures { option_map (λ f. view f.now) result ≡ present key.now (view v.now) }
{
    match v.get(key) {
        None | Some(Value::Null) => None,
        Some(found) => Some(found),
    }
}

pub fn list(v: &Value) -> Result<&Vec<Value>, ValueFault>
    ensures { ReadsValue (λ l. items_view l.now.items) (as_array (view v.now)) result }
{
    v.as_array().ok_or(ValueFault::Shape)
}

pub fn truth(v: &Value) -> Result<bool, ValueFault>
    ensures { ReadsValue (λ b. b) (as_bool (view v.now)) result }
{
    v.as_bool().ok_or(ValueFault::Shape)
}

/// The name of the node, at the key `type`.
pub fn type_name(v: &Value) -> Result<&str, ValueFault>
    ensures { ReadsValue (λ t. t.now) (type_in (view v.now)) result }
{
    field(v, "type")?.as_str().ok_or(ValueFault::Shape)
}

pub fn text(alloc: Global, v: &Value) -> Result<String, ValueFault>
    ensures { ReadsValue string_bytes (as_str (view v.now)) result }
{
    match v.as_str() {
        None => Err(ValueFault::Shape),
        Some(text) => Ok(String::from_str(alloc, text)?),
    }
}
