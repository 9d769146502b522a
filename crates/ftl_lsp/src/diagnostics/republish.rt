//! What is published again of documents, since others changed.
ghost use Rattle.std.specs.Prelude.{◌≡◌, IfOk, IfSome, OnOk};
ghost use Rattle.serde_json.specs.View.{view};
ghost use Rattle.ftl_lsp.specs.Sessions.{Republishes, session_of};

use crate::documents::open_documents::OpenDocument;
use crate::sessions::methods::Method;
use crate::sessions::params::uri_of;
use crate::sessions::phases::Phase;
use crate::sessions::server::Server;
use serde_json::Value;
use std::alloc::AllocError;

impl Server {
    /// Notes which documents are stale after a notification of the method, since other findings may be in them now:
    /// all that are open in the workspace, but for the one that it names; where folders come and go, or files changed,
    /// all that are open, since the workspace itself may be another.
    pub(crate) fn mark_stale(
        &mut self,
        method: Option<Method>,
        message: &Value,
    ) -> Result<(), AllocError>
        ensures { OnOk result (session_of self.new ≡ session_of self.old) }
    {
        if affects_others(method) {
            self.stale = self.other_open_documents(uri_of(message), affects_workspace(method))?;
        }
        Ok(())
    }

    /// The names of the documents that are open in the workspace, or everywhere, but for this one.
    fn other_open_documents(
        &self,
        uri: Option<&str>,
        everywhere: bool,
    ) -> Result<Vec<String>, AllocError> {
        let mut names = Vec::new(self.alloc);
        for (name, open) in self.documents.by_name().iter() {
            if uri != Some(name.as_str()) && (everywhere || self.is_in_workspace(open)) {
                names.push(String::from_str(self.alloc, name.as_str())?)?;
            }
        }
        Ok(names)
    }

    /// Whether the document is that of a file where the workspace's files are looked for.
    fn is_in_workspace(&self, open: &OpenDocument) -> bool {
        match &open.path {
            Some(path) => self.workspace.covers(path.as_str()),
            None => false,
        }
    }

    /// The diagnostics of a document of which is to be published again, as long as the session runs and no message
    /// waits. None where there is none left.
    pub(crate) fn republish_next(&mut self, is_idle: bool) -> Result<Option<Value>, AllocError>
        ensures same { OnOk result (session_of self.new ≡ session_of self.old) }
        ensures diagnostics { IfOk result (λ sent. IfSome sent
            (λ value. Republishes (session_of self.old) (view value))) }
    {
        let Phase::Running = self.phase else {
            return Ok(None);
        };
        if !is_idle {
            return Ok(None);
        }
        match self.stale.pop() {
            Some(uri) => self.publish(uri.as_str()),
            None => Ok(None),
        }
    }
}

/// Whether a notification may change which files are in the workspace: its folders, or the settings there.
fn affects_workspace(method: Option<Method>) -> bool {
    matches!(
        method,
        Some(Method::DidChangeWatchedFiles | Method::DidChangeWorkspaceFolders)
    )
}

/// Whether a notification may change what is found in documents that it doesn't name.
fn affects_others(method: Option<Method>) -> bool {
    matches!(
        method,
        Some(
            Method::DidOpen
                | Method::DidSave
                | Method::DidClose
                | Method::DidChangeWatchedFiles
                | Method::DidChangeWorkspaceFolders
        )
    )
}
