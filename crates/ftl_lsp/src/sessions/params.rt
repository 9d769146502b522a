//! The parameters of a message.
ghost use Rattle.std.specs.Prelude.{◌≡◌, option_map};
ghost use Rattle.serde_json.specs.View.{items_view, view};
ghost use Rattle.ftl_lsp.specs.Edits.{position_param_in};
ghost use Rattle.ftl_lsp.specs.Params.{changes_in, new_name_in, opened_text_in, uri_in};
ghost use Rattle.ftl_lsp.specs.Params.{version_in};

use crate::documents::changes::position_of;
use crate::documents::index::OccurrenceFilter;
use crate::documents::offsets::byte_of;
use crate::documents::positions::Position;
use fluent_syntax::spans::Span;
use serde_json::Value;

/// Whether an editor that says this of itself takes related information of a diagnostic.
pub fn takes_related(message: &Value) -> bool {
    message
        .pointer("/params/capabilities/textDocument/publishDiagnostics/relatedInformation")
        .and_then(Value::as_bool)
        .unwrap_or(false)
}

/// Whether such an editor takes Markdown where it shows what is hovered over, before plain text.
pub fn takes_markdown(message: &Value) -> bool {
    let format = message
        .pointer("/params/capabilities/textDocument/hover/contentFormat/0")
        .and_then(Value::as_str);
    format == Some("markdown")
}

/// Whether such an editor takes edits of documents in their versions.
pub fn takes_versions(message: &Value) -> bool {
    message
        .pointer("/params/capabilities/workspace/workspaceEdit/documentChanges")
        .and_then(Value::as_bool)
        .unwrap_or(false)
}

/// Whether such an editor takes symbols in symbols.
pub fn takes_hierarchy(message: &Value) -> bool {
    message
        .pointer(
            "/params/capabilities/textDocument/documentSymbol/hierarchicalDocumentSymbolSupport",
        )
        .and_then(Value::as_bool)
        .unwrap_or(false)
}

/// Whether such an editor asks what is to be renamed before it renames it.
pub fn prepares_renaming(message: &Value) -> bool {
    message
        .pointer("/params/capabilities/textDocument/rename/prepareSupport")
        .and_then(Value::as_bool)
        .unwrap_or(false)
}

/// The name of the document that a message speaks of.
pub fn uri_of(message: &Value) -> Option<&str>
    ensures { option_map (λ uri. uri.now) result ≡ uri_in (view message.now) }
{
    message
        .pointer("/params/textDocument/uri")
        .and_then(Value::as_str)
}

/// The text of a document that is opened.
pub fn opened_text(message: &Value) -> Option<&str>
    ensures { option_map (λ text. text.now) result ≡ opened_text_in (view message.now) }
{
    message
        .pointer("/params/textDocument/text")
        .and_then(Value::as_str)
}

/// The changes that a message gives.
pub fn changes_in(message: &Value) -> Option<&Vec<Value>>
    ensures { option_map (λ changes. items_view changes.now.items) result ≡ changes_in (view message.now) }
{
    message
        .pointer("/params/contentChanges")
        .and_then(Value::as_array)
}

/// The number of the document's version.
pub fn version_of(message: &Value) -> Option<i64>
    ensures { result ≡ version_in (view message.now) }
{
    message
        .pointer("/params/textDocument/version")
        .and_then(Value::as_i64)
}

/// The place that a message asks of.
pub fn position_param(message: &Value) -> Option<Position>
    ensures { result ≡ position_param_in (view message.now) }
{
    match message.pointer("/params/position") {
        Some(value) => position_of(value),
        None => None,
    }
}

/// The places that a message asks of, as values.
pub fn positions_param(message: &Value) -> &[Value] {
    match message
        .pointer("/params/positions")
        .and_then(Value::as_array)
    {
        Some(values) => values.as_slice(),
        None => &[],
    }
}

/// Which places of a name are asked for.
pub fn occurrence_filter(message: &Value) -> OccurrenceFilter {
    let declared = message
        .pointer("/params/context/includeDeclaration")
        .and_then(Value::as_bool);
    match declared {
        Some(false) => OccurrenceFilter::References,
        _ => OccurrenceFilter::All,
    }
}

/// The name that is wanted.
pub fn new_name(message: &Value) -> Option<&str>
    ensures { option_map (λ name. name.now) result ≡ new_name_in (view message.now) }
{
    message.pointer("/params/newName").and_then(Value::as_str)
}

/// The bytes of the text that a message asks of: all where it names no range.
pub fn asked_span(message: &Value, text: &str) -> Span {
    let start = message.pointer("/params/range/start").and_then(position_of);
    let end = message.pointer("/params/range/end").and_then(position_of);
    Span {
        start: start.map_or(0, |position| byte_of(text, position)),
        end: end.map_or(text.len(), |position| byte_of(text, position)),
    }
}

/// Whether a request asks for what mends mistakes, among others or by itself.
pub fn wants_mending(message: &Value) -> bool {
    let only = message
        .pointer("/params/context/only")
        .and_then(Value::as_array);
    match only {
        Some(kinds) => kinds
            .iter()
            .any(|kind| matches!(kind.as_str(), Some("" | "quickfix"))),
        None => true,
    }
}
