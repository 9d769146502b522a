//! What a request asks of a place in an open document.
ghost use Rattle.std.specs.Prelude.{◌≡◌, is_some, true, IfErr, IfOk, IfSome, OnOk, Some};
ghost use Rattle.serde_json.specs.View.{view};
ghost use Rattle.ftl_lsp.specs.Asking.{names_position, renames_position};
ghost use Rattle.ftl_lsp.specs.Contexts.{IsContextOf};
ghost use Rattle.ftl_lsp.specs.OpenDocuments.{texts};
ghost use Rattle.ftl_lsp.specs.Renaming.{RenamesName};
ghost use Rattle.ftl_lsp.specs.Sessions.{RefusesFor, session_of};

use crate::documents::index::{IndexedDocument, Scope, indexed_document_at, indexed_documents};
use crate::documents::offsets::byte_of;
use crate::requests::completion::completion;
use crate::requests::hover::hover;
use crate::requests::renaming::{rename_edits, rename_range};
use crate::requests::request_context::RequestContext;
use crate::sessions::methods::Method;
use crate::sessions::params::{new_name, occurrence_filter, position_param, uri_of};
use crate::sessions::phases::ErrorCode;
use crate::sessions::server::Server;
use crate::workspace::Workspace;
use serde_json::Value;
use std::alloc::{AllocError, Global};

impl Server {
    /// What a request of the method asks of. None where it names no open document, or no place.
    fn context_of<'s>(
        &'s self,
        method: Option<Method>,
        message: &'s Value,
    ) -> Result<Option<RequestContext<'s>>, AllocError>
        ensures found { IfOk result
            (λ found. is_some found ≡ names_position (texts self.now.documents) (view message.now)) }
        ensures context { IfOk result (λ found. IfSome found
            (IsContextOf (texts self.now.documents) (view message.now))) }
    {
        let Some(uri) = uri_of(message) else {
            return Ok(None);
        };
        let Some(open) = self.documents.get(uri) else {
            return Ok(None);
        };
        let Some(position) = position_param(message) else {
            return Ok(None);
        };
        let (documents, workspace) = (self.documents.by_name(), &self.workspace);
        let path = open.path_or(uri);
        let scope = scope_of(method, workspace, path);
        Ok(Some(RequestContext {
            documents: indexed_documents(self.alloc, documents, workspace, scope)?,
            uri,
            byte: byte_of(open.document.text(), position),
            original: self.indexed_original(path)?,
            workspace,
        }))
    }

    /// The original of the file at the path, if there is one.
    fn indexed_original(&self, path: &str) -> Result<Option<IndexedDocument<'_>>, AllocError> {
        let (documents, workspace) = (self.documents.by_name(), &self.workspace);
        match workspace.original_of(self.alloc, path)? {
            Some(there) => indexed_document_at(self.alloc, documents, workspace, there.as_str()),
            None => Ok(None),
        }
    }

    /// What a request of the method, which is no renaming, asks of the place that it names. None where it names no open
    /// document, or no place.
    pub(crate) fn place_response(
        &self,
        method: Option<Method>,
        message: &Value,
    ) -> Result<Option<Value>, AllocError>
        ensures { IfOk result
            (λ found. is_some found ≡ names_position (texts self.now.documents) (view message.now)) }
    {
        match self.context_of(method, message)? {
            Some(context) => {
                let value = place_value(self.alloc, method, message, &context, self.markdown)?;
                Ok(Some(value))
            },
            None => Ok(None),
        }
    }

    /// Notes which files a renaming that the message asks for leaves as they are, since they are left out.
    pub(crate) fn note_unrenamed(&mut self, message: &Value) -> Result<(), AllocError>
        ensures { OnOk result (session_of self.new ≡ session_of self.old) }
    {
        let Some(uri) = uri_of(message) else {
            return Ok(());
        };
        let Some(open) = self.documents.get(uri) else {
            return Ok(());
        };
        let workspace = &self.workspace;
        let scope = scope_of(Some(Method::Rename), workspace, open.path_or(uri));
        let mut notices = workspace.unrenamed_notices(self.alloc, scope)?;
        self.notices.append(&mut notices)?;
        Ok(())
    }

    /// The edits by which the name at the place has the new name of the request, or why it can't have it.
    pub(crate) fn rename(&self, message: &Value) -> Result<Result<Value, ErrorCode>, AllocError>
        ensures found { let fitting = renames_position (texts self.now.documents) (view message.now) in
            IfOk result (λ found. IfOk found (λ edits. fitting ≡ true)) }
        ensures renames { IfOk result (λ found. IfOk found
            (λ edits. RenamesName (texts self.now.documents) (view message.now) (view edits))) }
        ensures refused { let fitting = renames_position (texts self.now.documents) (view message.now) in
            IfOk result (λ found. IfErr found (RefusesFor (Some Method.Rename) fitting)) }
    {
        let Some(context) = self.context_of(Some(Method::Rename), message)? else {
            return Ok(Err(ErrorCode::InvalidParams));
        };
        let Some(name) = new_name(message) else {
            return Ok(Err(ErrorCode::InvalidParams));
        };
        match rename_edits(self.alloc, &context, name, self.versioned)? {
            Ok(edits) => Ok(Ok(edits)),
            Err(fault) => Ok(Err(ErrorCode::Rename(fault))),
        }
    }
}

/// Which documents and files a request of the method asks of, at the document of the path: those of its set, but of all
/// languages where it renames in the reference language.
fn scope_of<'p>(method: Option<Method>, workspace: &Workspace, path: &'p str) -> Scope<'p> {
    let set = workspace.set_of(path);
    match workspace.languages_of_reference(set) {
        Some(languages) if method == Some(Method::Rename) => Scope::Languages(languages),
        _ => Scope::Set(set),
    }
}

/// What a request of the method asks of a place; what is shown may be Markdown where the editor takes that.
/// `AllocError` where a growth was refused.
fn place_value(
    alloc: Global,
    method: Option<Method>,
    message: &Value,
    context: &RequestContext<'_>,
    markdown: bool,
) -> Result<Value, AllocError> {
    match method {
        Some(Method::Definition) => context.definitions(alloc),
        Some(Method::References) => context.locations(alloc, occurrence_filter(message)),
        Some(Method::DocumentHighlight) => context.highlights(alloc),
        Some(Method::Hover) => hover(alloc, context, markdown),
        Some(Method::PrepareRename) => rename_range(alloc, context),
        Some(Method::Completion) => completion(alloc, context),
        _ => Ok(Value::Null),
    }
}
