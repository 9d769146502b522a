//! What kind of message a JSON value is.
ghost use Rattle.std.specs.Prelude.{◌≡◌};
ghost use Rattle.serde_json.specs.View.{view};
ghost use Rattle.ftl_lsp.specs.Messages.{is_identifier, message_in, message_kind};

use serde_json::Value;

/// A message of the protocol, by its kind.
pub enum Message<'v> {
    /// It has an identifier and a method, and wants an answer.
    Request { id: &'v Value, method: &'v str },
    /// It has a method alone.
    Notification { method: &'v str },
    /// It answers a request of this server's.
    Response,
    /// It is none of these.
    Invalid,
}

/// The kind of message that the value is.
pub fn message_of(value: &Value) -> Message<'_>
    ensures { message_kind result ≡ message_in (view value.now) }
{
    if value.get("jsonrpc").and_then(Value::as_str) != Some("2.0") {
        return Message::Invalid;
    }
    let method = value.get("method").and_then(Value::as_str);
    match (value.get("id"), method) {
        (None, Some(method)) => Message::Notification { method },
        (Some(id), Some(method)) if is_identifier(id) => Message::Request { id, method },
        (Some(id), None) if is_identifier(id) && value.get("method").is_none() => Message::Response,
        _ => Message::Invalid,
    }
}

/// Whether the value may identify a request: a text or a whole number.
fn is_identifier(value: &Value) -> bool
    ensures { result ≡ is_identifier (view value.now) }
{
    value.is_string() || value.is_i64() || value.is_u64()
}
