//! What a request asks for.
ghost use Rattle.std.specs.Prelude.{◌≡◌, is_some, option_and_then, option_map, true, IfErr, IfOk, IfSome, OnOk};
ghost use Rattle.serde_json.specs.View.{view};
ghost use Rattle.ftl_lsp.specs.Asking.{IsFormattingOf, IsResult, names_open};
ghost use Rattle.ftl_lsp.specs.OpenDocuments.{open_text, texts};
ghost use Rattle.ftl_lsp.specs.Params.{uri_in};
ghost use Rattle.ftl_lsp.specs.Sessions.{RefusesFor, fits, session_of};

use crate::documents::Document;
use crate::documents::index::{Scope, indexed_documents};
use crate::documents::occurrences::bytes_of;
use crate::documents::open_documents::OpenDocument;
use crate::documents::positions::Positions;
use crate::requests::folding::folding_ranges_in;
use crate::requests::formatting::{formatted_text, formatting_edit};
use crate::requests::selection_ranges::selection_range_list;
use crate::requests::semantic_tokens::{encoded_tokens, semantic_tokens_of};
use crate::requests::symbol_forms::{folding_range_list, symbol_list, workspace_symbol};
use crate::requests::symbols::symbols_in;
use crate::requests::tokens::tokens_of;
use crate::sessions::methods::Method;
use crate::sessions::notices::Notice;
use crate::sessions::params::{
    positions_param, prepares_renaming, takes_hierarchy, takes_markdown, takes_related,
    takes_versions, uri_of,
};
use crate::sessions::phases::ErrorCode;
use crate::sessions::replies::{capabilities, null, token_list};
use crate::sessions::server::Server;
use crate::workspace::Workspace;
use serde_json::Value;
use std::alloc::{AllocError, Global};

impl Server {
    /// What a request of the method asks for, or why it is refused.
    pub(crate) fn response(
        &mut self,
        method: Option<Method>,
        message: &Value,
    ) -> Result<Result<Value, ErrorCode>, AllocError>
        ensures same { OnOk result (session_of self.new ≡ session_of self.old) }
        ensures fitting { let fitting = fits (texts self.old.documents) (view message.now) method in
            IfOk result (λ response. IfOk response (λ value. fitting ≡ true)) }
        ensures result { IfOk result (λ response. IfOk response (λ value.
            IsResult (texts self.old.documents) (view message.now) method (view value))) }
        ensures refused { let fitting = fits (texts self.old.documents) (view message.now) method in
            IfOk result (λ response. IfErr response (RefusesFor method fitting)) }
    {
        match method {
            Some(Method::Initialize) => {
                self.related = takes_related(message);
                self.versioned = takes_versions(message);
                self.markdown = takes_markdown(message);
                self.hierarchy = takes_hierarchy(message);
                self.workspace = Workspace::from_initialize(self.alloc, message)?;
                Ok(Ok(capabilities(self.alloc, prepares_renaming(message))?))
            }
            Some(Method::CodeAction) => Ok(
                self.code_actions(message)?.ok_or(ErrorCode::InvalidParams),
            ),
            Some(Method::WorkspaceSymbol) => Ok(Ok(self.workspace_symbols(message)?)),
            Some(Method::Rename) => {
                let edits = self.rename(message)?;
                if edits.is_ok() {
                    self.note_unrenamed(message)?;
                }
                Ok(edits)
            }
            Some(Method::Formatting) => Ok(
                self.formatting(message)?.ok_or(ErrorCode::InvalidParams),
            ),
            Some(Method::RangeFormatting) => Ok(
                self.range_formatting(message)?
                    .ok_or(ErrorCode::InvalidParams),
            ),
            Some(
                Method::DocumentSymbol
                | Method::FoldingRange
                | Method::SemanticTokens
                | Method::SelectionRange,
            ) => {
                let found = self.document_response(method, message)?;
                Ok(found.ok_or(ErrorCode::InvalidParams))
            }
            Some(
                Method::Definition
                | Method::References
                | Method::DocumentHighlight
                | Method::Hover
                | Method::PrepareRename
                | Method::Completion,
            ) => {
                let found = self.place_response(method, message)?;
                Ok(found.ok_or(ErrorCode::InvalidParams))
            }
            _ => Ok(Ok(Value::Null)),
        }
    }

    /// The open document that the message names.
    pub(crate) fn document_of(&self, message: &Value) -> Option<&OpenDocument>
        ensures { option_map (λ response. open_text response.now) result
            ≡ option_and_then (texts self.now.documents) (uri_in (view message.now)) }
    {
        self.documents.get(uri_of(message)?)
    }

    /// What a request of the method, which is no formatting, asks of the open document that it names. None where it
    /// names none.
    fn document_response(
        &self,
        method: Option<Method>,
        message: &Value,
    ) -> Result<Option<Value>, AllocError>
        ensures { IfOk result (λ response. is_some response
            ≡ names_open (texts self.now.documents) (view message.now)) }
    {
        match self.document_of(message) {
            Some(open) => {
                let (document, grouped) = (&open.document, self.hierarchy);
                Ok(Some(document_value(self.alloc, method, message, document, grouped)?))
            }
            None => Ok(None),
        }
    }

    /// The edit that formats the document; null where it stays as it is. Why it is left is to be shown.
    fn formatting(&mut self, message: &Value) -> Result<Option<Value>, AllocError>
        ensures same { OnOk result (session_of self.new ≡ session_of self.old) }
        ensures response { IfOk result
            (λ response. is_some response ≡ names_open (texts self.old.documents) (view message.now)) }
        ensures formats { let here = option_and_then (texts self.old.documents) (uri_in (view message.now)) in
            IfOk result (λ response. IfSome response (λ value. IsFormattingOf here (view value))) }
    {
        let Some(open) = self.document_of(message) else {
            return Ok(None);
        };
        let text = open.document.text();
        let blank_lines = self.workspace.blank_lines_at(open.path.as_deref());
        let Some(formatted) = formatted_text(self.alloc, text, blank_lines)? else {
            let name = uri_of(message).unwrap_or("");
            let notice = Notice::of_unformatted(self.alloc, name, open, &self.workspace, true)?;
            self.notices.push(notice)?;
            return Ok(Some(null()));
        };
        Ok(Some(formatting_edit(self.alloc, text, formatted.as_str())?))
    }

    /// What the open documents and the closed files define whose name has the text that is asked for in it, a term's
    /// with its `-`.
    fn workspace_symbols(&self, message: &Value) -> Result<Value, AllocError> {
        let query = message
            .pointer("/params/query")
            .and_then(Value::as_str)
            .unwrap_or("");
        let mut list = Vec::new(self.alloc);
        let documents = self.documents.by_name();
        let all = indexed_documents(self.alloc, documents, &self.workspace, Scope::All)?;
        for document in &all {
            let mut positions = Positions::new(document.text);
            for occurrence in document.occurrences() {
                let label = bytes_of(document.text, occurrence.labelled_span());
                if occurrence.defines && has_in_any_case(label, query) {
                    list.push(workspace_symbol(
                        self.alloc,
                        document,
                        &mut positions,
                        *occurrence,
                    )?)?;
                }
            }
        }
        Ok(Value::Array(list))
    }
}

/// Whether the query is in the text, in whichever case its ASCII letters are.
fn has_in_any_case(text: &str, query: &str) -> bool {
    let (text, query) = (text.as_bytes(), query.as_bytes());
    query.is_empty()
        || text
            .windows(query.len())
            .any(|part| part.eq_ignore_ascii_case(query))
}

/// What a request of the method asks of a document; symbols are `grouped` where the editor takes that. `AllocError`
/// where a growth was refused.
fn document_value(
    alloc: Global,
    method: Option<Method>,
    message: &Value,
    document: &Document,
    grouped: bool,
) -> Result<Value, AllocError> {
    match method {
        Some(Method::DocumentSymbol) => {
            let symbols = symbols_in(alloc, document, grouped)?;
            symbol_list(alloc, document.text(), &symbols)
        }
        Some(Method::FoldingRange) => {
            let folds = folding_ranges_in(alloc, document)?;
            folding_range_list(alloc, &folds)
        }
        Some(Method::SemanticTokens) => {
            let tokens = tokens_of(alloc, document.body())?;
            let highlights = semantic_tokens_of(alloc, document.text(), &tokens)?;
            token_list(alloc, &encoded_tokens(alloc, &highlights)?)
        }
        Some(Method::SelectionRange) => selection_range_list(
            alloc,
            document,
            positions_param(message),
        ),
        _ => Ok(Value::Null),
    }
}
