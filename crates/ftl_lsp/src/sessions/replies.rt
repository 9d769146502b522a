//! The messages that a server sends, as JSON values.
ghost use Rattle.std.specs.Prelude.{◌≡◌, IfOk, map};
ghost use Rattle.serde_json.specs.Data.{null};
ghost use Rattle.serde_json.specs.View.{members_view, view};
ghost use Rattle.ftl_lsp.specs.Locations.{edit_form, position_form, range_form, span_form};
ghost use Rattle.ftl_lsp.specs.Renaming.{changes_form, document_edits_form, renaming_form, version_form};
ghost use Rattle.ftl_lsp.specs.Replies.{answer_form, diagnostics_form, diagnostics_params, refusal_form, register_form};

use crate::documents::positions::{Position, Positions};
use crate::sessions::phases::ErrorCode;
use fluent_syntax::spans::Span;
use serde_json::{Map, Value, json};
use std::alloc::{AllocError, Global};

/// The answer to the request with the identifier.
pub fn answer(alloc: Global, id: Value, answer: Value) -> Result<Value, AllocError>
    ensures { IfOk result (λ value. view value ≡ answer_form (view id) (view answer)) }
{
    json!(in alloc; {"jsonrpc": "2.0", "id": id, "result": answer})
}

/// The answer that refuses the request with the identifier, or null where it has none.
pub fn refusal(alloc: Global, id: Value, code: ErrorCode) -> Result<Value, AllocError>
    ensures { IfOk result (λ value. view value ≡ refusal_form (view id) code) }
{
    json!(in alloc; {"jsonrpc": "2.0", "id": id, "error": {"code": (code.number()), "message": (code.text())}})
}

/// The value of what there is none of.
pub fn null() -> Value
    ensures { view result ≡ null }
{
    Value::Null
}

/// The version of the server.
const VERSION: &str = "2.4.0";

/// What the server can do, for an editor that asks before it renames or not.
pub fn capabilities(alloc: Global, prepares_renaming: bool) -> Result<Value, AllocError> {
    let able = provider_capabilities(alloc, prepares_renaming)?;
    json!(in alloc; {"capabilities": able, "serverInfo": {"name": "ftl", "version": VERSION}})
}

/// That the server is notified of folders that come and go.
fn workspace_capabilities(alloc: Global) -> Result<Value, AllocError> {
    json!(in alloc; {"workspaceFolders": {"supported": true, "changeNotifications": true}})
}

/// The parts of the protocol that the server answers, each by its name.
fn provider_capabilities(alloc: Global, prepares_renaming: bool) -> Result<Value, AllocError> {
    json!(in alloc; {
        "positionEncoding": "utf-16",
        "textDocumentSync": (document_sync(alloc)?),
        "documentSymbolProvider": true,
        "documentFormattingProvider": true,
        "documentRangeFormattingProvider": true,
        "codeActionProvider": {"codeActionKinds": ["quickfix"]},
        "foldingRangeProvider": true,
        "definitionProvider": true,
        "referencesProvider": true,
        "documentHighlightProvider": true,
        "selectionRangeProvider": true,
        "hoverProvider": true,
        "renameProvider": (rename_provider(alloc, prepares_renaming)?),
        "completionProvider": (completion_provider(alloc)?),
        "workspace": (workspace_capabilities(alloc)?),
        "workspaceSymbolProvider": true,
        "semanticTokensProvider": (tokens_provider(alloc)?)
    })
}

/// Of which changes of a document the server is notified.
fn document_sync(alloc: Global) -> Result<Value, AllocError> {
    json!(in alloc; {"openClose": true, "change": 2, "save": true})
}

/// What is said of renaming: that it can be asked before what would be renamed, if the editor knows of that.
fn rename_provider(alloc: Global, prepares: bool) -> Result<Value, AllocError> {
    if prepares {
        json!(in alloc; {"prepareProvider": true})
    } else {
        json!(in alloc; true)
    }
}

/// The characters after which names are proposed.
fn completion_provider(alloc: Global) -> Result<Value, AllocError> {
    json!(in alloc; {"triggerCharacters": (text_list(alloc, &["{", "-", "$", ".", "["])?)})
}

/// The kinds of tokens, by whose places in the list the tokens name them.
fn tokens_provider(alloc: Global) -> Result<Value, AllocError> {
    let types = [
        "property",
        "macro",
        "variable",
        "function",
        "parameter",
        "string",
        "number",
        "enumMember",
        "comment",
    ];
    json!(in alloc; {
        "legend": {
            "tokenTypes": (text_list(alloc, &types)?),
            "tokenModifiers": ["declaration"]
        },
        "full": true
    })
}

/// A list of texts.
fn text_list(alloc: Global, texts: &[&str]) -> Result<Value, AllocError> {
    let mut list = Vec::new(alloc);
    for text in texts {
        list.push(json!(in alloc; (*text))?)?;
    }
    Ok(Value::Array(list))
}

/// The request to be notified of something, by what it asks for.
pub fn register_request(alloc: Global, params: Value) -> Result<Value, AllocError>
    ensures { IfOk result (λ value. view value ≡ register_form (view params)) }
{
    json!(in alloc; {
        "jsonrpc": "2.0",
        "id": "ftl-watch",
        "method": "client/registerCapability",
        "params": params
    })
}

/// What asks to be notified of changes of the files in the editor's folders.
pub fn watch_params(alloc: Global) -> Result<Value, AllocError> {
    let texts = json!(in alloc; {"globPattern": "**/*.ftl"})?;
    let settings = json!(in alloc; {"globPattern": "**/ftl.toml"})?;
    let registration = json!(in alloc; {
        "id": "ftl-files",
        "method": "workspace/didChangeWatchedFiles",
        "registerOptions": {"watchers": [texts, settings]}
    })?;
    json!(in alloc; {"registrations": [registration]})
}

/// The notification of the diagnostics of a document in one of its versions, if it has such.
pub fn diagnostics_notification(
    alloc: Global,
    uri: &str,
    version: Option<i64>,
    diagnostics: Vec<Value>,
) -> Result<Value, AllocError>
    ensures { IfOk result (λ value. view value ≡ diagnostics_form uri.now version (map view diagnostics.items)) }
{
    let params = diagnostics_params(alloc, uri, version, Value::Array(diagnostics))?;
    json!(in alloc; {
        "jsonrpc": "2.0",
        "method": "textDocument/publishDiagnostics",
        "params": params
    })
}

fn diagnostics_params(
    alloc: Global,
    uri: &str,
    version: Option<i64>,
    diagnostics: Value,
) -> Result<Value, AllocError>
    ensures { IfOk result (λ value. view value ≡ diagnostics_params uri.now version (view diagnostics)) }
{
    match version {
        Some(version) => {
            json!(in alloc; {"uri": uri, "version": version, "diagnostics": diagnostics})
        }
        None => json!(in alloc; {"uri": uri, "diagnostics": diagnostics}),
    }
}

/// The tokens of a text, by their numbers.
pub fn token_list(alloc: Global, numbers: &[usize]) -> Result<Value, AllocError> {
    let mut list = Vec::new(alloc);
    for number in numbers {
        list.push(json!(in alloc; (*number as u64))?)?;
    }
    let list = Value::Array(list);
    json!(in alloc; {"data": list})
}

/// The range of a stretch of the text whose places these are.
fn span_form(alloc: Global, positions: &mut Positions<'_>, span: Span) -> Result<Value, AllocError>
    ensures text { positions.new ≡ positions.old }
    ensures form { IfOk result (λ value. view value ≡ span_form positions.old span) }
{
    let start = positions.position_or_end(span.start);
    let end = positions.position_or_end(span.end);
    range_form(alloc, start, end)
}

/// A place in a document. `AllocError` where a growth was refused.
pub fn location_form(
    alloc: Global,
    uri: &str,
    positions: &mut Positions<'_>,
    span: Span,
) -> Result<Value, AllocError> {
    let range = span_form(alloc, positions, span)?;
    json!(in alloc; {"uri": uri, "range": range})
}

/// A place that is marked. `AllocError` where a growth was refused.
pub fn highlight_form(
    alloc: Global,
    positions: &mut Positions<'_>,
    span: Span,
) -> Result<Value, AllocError> {
    let range = span_form(alloc, positions, span)?;
    json!(in alloc; {"range": range})
}

/// A name that can be renamed, with its place. `AllocError` where a growth was refused.
pub fn named_range_form(
    alloc: Global,
    positions: &mut Positions<'_>,
    span: Span,
    name: &str,
) -> Result<Value, AllocError> {
    let range = span_form(alloc, positions, span)?;
    json!(in alloc; {"range": range, "placeholder": name})
}

/// A range in another, or in none. `AllocError` where a growth was refused.
pub fn nested_range_form(
    alloc: Global,
    positions: &mut Positions<'_>,
    span: Span,
    parent: Value,
) -> Result<Value, AllocError> {
    let range = span_form(alloc, positions, span)?;
    if parent.is_null() {
        return json!(in alloc; {"range": range});
    }
    json!(in alloc; {"range": range, "parent": parent})
}

/// The edit that puts a text in place of a stretch. `AllocError` where a growth was refused.
pub fn edit_form(
    alloc: Global,
    positions: &mut Positions<'_>,
    span: Span,
    text: &str,
) -> Result<Value, AllocError>
    ensures text { positions.new ≡ positions.old }
    ensures form { IfOk result (λ value. view value ≡ edit_form positions.old text.now span) }
{
    let range = span_form(alloc, positions, span)?;
    json!(in alloc; {"range": range, "newText": text})
}

/// The edits of documents by their names, in one value. `AllocError` where a growth was refused.
pub fn changes_form(alloc: Global, changes: Map<String, Value>) -> Result<Value, AllocError>
    ensures { IfOk result (λ value. view value ≡ changes_form (members_view changes.entries)) }
{
    let changes = Value::Object(changes);
    json!(in alloc; {"changes": changes})
}

/// The edits of documents in their versions, in one value. `AllocError` where a growth was refused.
pub fn renaming_form(alloc: Global, changes: Vec<Value>) -> Result<Value, AllocError>
    ensures { IfOk result (λ value. view value ≡ renaming_form (map view changes.items)) }
{
    let changes = Value::Array(changes);
    json!(in alloc; {"documentChanges": changes})
}

/// The edits of a document in one of its versions. `AllocError` where a growth was refused.
pub fn edits_of_document(
    alloc: Global,
    uri: &str,
    version: Option<i64>,
    edits: Vec<Value>,
) -> Result<Value, AllocError>
    ensures { IfOk result
        (λ value. view value ≡ document_edits_form uri.now version (map view edits.items)) }
{
    let edits = Value::Array(edits);
    let version = version_form(alloc, version)?;
    json!(in alloc; {"textDocument": {"uri": uri, "version": version}, "edits": edits})
}

/// The number of a version; null where there is none.
fn version_form(alloc: Global, version: Option<i64>) -> Result<Value, AllocError>
    ensures { IfOk result (λ value. view value ≡ version_form version) }
{
    match version {
        Some(version) => json!(in alloc; version),
        None => Ok(Value::Null),
    }
}

/// A range, by its two places.
pub(crate) fn range_form(alloc: Global, start: Position, end: Position) -> Result<Value, AllocError>
    ensures { IfOk result (λ value. view value ≡ range_form start end) }
{
    let start = position_form(alloc, start)?;
    let end = position_form(alloc, end)?;
    json!(in alloc; {"start": start, "end": end})
}

/// A place.
fn position_form(alloc: Global, position: Position) -> Result<Value, AllocError>
    ensures { IfOk result (λ value. view value ≡ position_form position) }
{
    let (line, character) = (position.line as u64, position.character as u64);
    json!(in alloc; {"line": line, "character": character})
}
