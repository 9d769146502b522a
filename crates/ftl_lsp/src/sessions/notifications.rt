//! What a notification does to the open documents, and what is sent for it.
ghost use Rattle.std.specs.Prelude.{◌≡◌, ◌⊎◌, option_map, IfOk, OnOk, Some};
ghost use Rattle.serde_json.specs.View.{view};
ghost use Rattle.ftl_lsp.specs.OpenDocuments.{texts};
ghost use Rattle.ftl_lsp.specs.Replies.{IsSent, silence, watch};
ghost use Rattle.ftl_lsp.specs.Sessions.{SendsWhileRunning};

use crate::documents::changes::changes_of;
use crate::sessions::methods::Method;
use crate::sessions::params::{changes_in, opened_text, uri_of, version_of};
use crate::sessions::replies::{diagnostics_notification, register_request, watch_params};
use crate::sessions::server::Server;
use serde_json::Value;
use std::alloc::AllocError;

impl Server {
    /// Follows a notification of the method while the session runs; one that is not known is None.
    pub(crate) fn handle_notification(
        &mut self,
        method: Option<Method>,
        message: &Value,
    ) -> Result<Option<Value>, AllocError>
        ensures phase { OnOk result (self.new.phase ≡ self.old.phase) }
        ensures follows { let old = texts self.old.documents in
            IfOk result (λ sent. SendsWhileRunning
            old (view message.now) method (option_map view sent) (texts self.new.documents)) }
    {
        let Some(method) = method else {
            return Ok(None);
        };
        match method {
            Method::Initialized => self.watch(),
            Method::DidOpen => self.open(message),
            Method::DidChange => self.change(message),
            Method::DidSave => self.save(message),
            Method::DidClose => self.close(message),
            _ => Ok(None),
        }
    }

    /// Asks the editor to watch the files of the workspace, if it can.
    fn watch(&self) -> Result<Option<Value>, AllocError>
        ensures { IfOk result (λ sent.
            IsSent watch (option_map view sent) ⊎ IsSent silence (option_map view sent)) }
    {
        if self.workspace.wants_watch() {
            let params = watch_params(self.alloc)?;
            return Ok(Some(register_request(self.alloc, params)?));
        }
        Ok(None)
    }

    /// Opens a document, and reports its diagnostics.
    fn open(&mut self, message: &Value) -> Result<Option<Value>, AllocError>
        ensures phase { OnOk result (self.new.phase ≡ self.old.phase) }
        ensures follows { let old = texts self.old.documents in
            IfOk result (λ sent. SendsWhileRunning
            old (view message.now) (Some Method.DidOpen) (option_map view sent) (texts self.new.documents)) }
    {
        let Some(uri) = uri_of(message) else {
            return Ok(None);
        };
        let Some(text) = opened_text(message) else {
            return Ok(None);
        };
        self.documents
            .open(self.alloc, uri, version_of(message), text)?;
        drop(self.defined.remove(uri));
        self.workspace.forget_defined_names(self.alloc);
        self.publish(uri)
    }

    /// Makes the changes of an open document, in order, and reports its diagnostics. Nothing is changed where one of
    /// them is none.
    fn change(&mut self, message: &Value) -> Result<Option<Value>, AllocError>
        ensures phase { OnOk result (self.new.phase ≡ self.old.phase) }
        ensures follows { let old = texts self.old.documents in
            IfOk result (λ sent. SendsWhileRunning
            old (view message.now) (Some Method.DidChange) (option_map view sent) (texts self.new.documents)) }
    {
        let Some(uri) = uri_of(message) else {
            return Ok(None);
        };
        let Some(values) = changes_in(message) else {
            return Ok(None);
        };
        if !self.documents.contains(uri) {
            return Ok(None);
        }
        let Some(changes) = changes_of(self.alloc, values)? else {
            return Ok(None);
        };
        drop(self.defined.remove(uri));
        self.documents
            .change(self.alloc, uri, version_of(message), &changes)?;
        self.publish(uri)
    }

    /// Reports the diagnostics of an open document.
    fn save(&mut self, message: &Value) -> Result<Option<Value>, AllocError>
        ensures phase { OnOk result (self.new.phase ≡ self.old.phase) }
        ensures follows { let old = texts self.old.documents in
            IfOk result (λ sent. SendsWhileRunning
            old (view message.now) (Some Method.DidSave) (option_map view sent) (texts self.new.documents)) }
    {
        match uri_of(message) {
            Some(uri) => self.publish(uri),
            None => Ok(None),
        }
    }

    /// Closes a document, and takes its diagnostics back.
    fn close(&mut self, message: &Value) -> Result<Option<Value>, AllocError>
        ensures phase { OnOk result (self.new.phase ≡ self.old.phase) }
        ensures follows { let old = texts self.old.documents in
            IfOk result (λ sent. SendsWhileRunning
            old (view message.now) (Some Method.DidClose) (option_map view sent) (texts self.new.documents)) }
    {
        let Some(uri) = uri_of(message) else {
            return Ok(None);
        };
        if !self.documents.contains(uri) {
            return Ok(None);
        }
        self.documents.close(uri);
        drop(self.defined.remove(uri));
        self.workspace.forget_defined_names(self.alloc);
        let none = Vec::new(self.alloc);
        Ok(Some(diagnostics_notification(self.alloc, uri, None, none)?))
    }
}
