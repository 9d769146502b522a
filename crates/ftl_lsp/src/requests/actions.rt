//! What can be mended of a document.
ghost use Rattle.std.specs.Prelude.{◌≡◌, All, IfOk, IfSome, is_some, map};
ghost use Rattle.serde_json.specs.View.{view};
ghost use Rattle.ftl_lsp.specs.Actions.{AreActions, IsAction};
ghost use Rattle.ftl_lsp.specs.Asking.{names_open};
ghost use Rattle.ftl_lsp.specs.OpenDocuments.{open_text, texts};

pub mod additions;
pub mod mended_document;
pub mod removals;
pub mod respellings;

use crate::diagnostics::publishing::is_linted;
use crate::documents::open_documents::OpenDocument;
use crate::requests::actions::additions::addition_list;
use crate::requests::actions::mended_document::MendedDocument;
use crate::requests::actions::removals::{removal_list, removed_names};
use crate::requests::actions::respellings::respelling_list;
use crate::sessions::params::{asked_span, uri_of, wants_mending};
use crate::sessions::server::Server;
use crate::workspace::originals::Original;
use ftl_files::CommentRules;
use serde_json::Value;
use std::alloc::AllocError;

impl Server {
    /// What can be mended of the open document that the message names, in the range that it asks of. None where it
    /// names none.
    pub(crate) fn code_actions(&self, message: &Value) -> Result<Option<Value>, AllocError>
        ensures some { IfOk result (λ found. is_some found ≡ names_open (texts self.now.documents) (view message.now)) }
        ensures actions { IfOk result (λ found. IfSome found
            (λ value. AreActions (texts self.now.documents) (view message.now) (view value))) }
    {
        let Some(uri) = uri_of(message) else {
            return Ok(None);
        };
        let Some(open) = self.documents.get(uri) else {
            return Ok(None);
        };
        let list = self.action_list(uri, open, message)?;
        Ok(Some(Value::Array(list)))
    }

    /// What can be mended of the document, as far as the message asks for that. Nothing of one that is too long or
    /// nests too deeply.
    fn action_list(
        &self,
        uri: &str,
        open: &OpenDocument,
        message: &Value,
    ) -> Result<Vec<Value>, AllocError>
        ensures { IfOk result (λ list. All (IsAction uri.now (open_text open.now)) (map view list.items)) }
    {
        if !wants_mending(message) || !is_linted(&open.document) {
            return Ok(Vec::new(self.alloc));
        }
        let mended = MendedDocument {
            alloc: self.alloc,
            uri,
            open,
            asked: asked_span(message, open.document.text()),
            versioned: self.versioned,
        };
        let name_index = open.document.name_index(self.alloc)?;
        let comments = CommentRules::of(self.alloc, &name_index)?;
        let ignored = self.ignored_of(open)?;
        let findings = self.reported_findings(uri, open, &comments, &ignored)?;
        let original = self.original_of(open)?;
        let original = original.as_ref();
        let removed = removed_names(&mended, &findings, &comments, original, &ignored)?;
        let mut list = respelling_list(&mended, &self.respellings(&mended, &findings)?)?;
        let mut additions = addition_list(&mended, &comments, original, &ignored)?;
        list.append(&mut additions)?;
        let mut removals = removal_list(&mended, &removed)?;
        list.append(&mut removals)?;
        Ok(list)
    }

    /// The document's original, if it has one that is not too long.
    fn original_of(&self, open: &OpenDocument) -> Result<Option<Original<'_>>, AllocError> {
        let Some(path) = &open.path else {
            return Ok(None);
        };
        match self.workspace.original_of(self.alloc, path.as_str())? {
            Some(there) => self.linted_original(there.as_str()),
            None => Ok(None),
        }
    }
}
