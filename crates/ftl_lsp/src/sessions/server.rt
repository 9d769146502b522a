//! How far a session is, and what it does with each message.
ghost use Rattle.std.specs.Prelude.{◌≡◌, ℕ, List, option_map, IfOk, OnOk, None};
ghost use Rattle.serde_json.specs.Data.{null};
ghost use Rattle.serde_json.specs.View.{view};
ghost use Rattle.ftl_lsp.specs.OpenDocuments.{texts};
ghost use Rattle.ftl_lsp.specs.Phases.{ending_of};
ghost use Rattle.ftl_lsp.specs.Replies.{IsSent, refused};
ghost use Rattle.ftl_lsp.specs.Sessions.{SendsForMessage, SendsForNotification, SendsForRequest, session_of};

use crate::documents::open_documents::Documents;
use crate::sessions::endings::Ending;
use crate::sessions::messages::{Message, message_of};
use crate::sessions::methods::Method;
use crate::sessions::notices::Notice;
use crate::sessions::params::uri_of;
use crate::sessions::phases::{ErrorCode, Phase};
use crate::sessions::replies::{answer, null, refusal};
use crate::workspace::Workspace;
use fluent_syntax_names::DefinedNames;
use ftl_files::Folders;
use serde_json::{Category, Value};
use std::alloc::{AllocError, Global};
use std::collections::BTreeMap;

/// The open documents, the files of the workspace, and how far the session is.
#[derive(Drop)]
pub struct Server {
    pub(crate) alloc: Global,
    pub(crate) phase: Phase,
    /// Whether the editor takes related information of a diagnostic.
    pub(crate) related: bool,
    /// Whether it takes edits of documents in their versions.
    pub(crate) versioned: bool,
    /// Whether it takes Markdown where it shows what is hovered over.
    pub(crate) markdown: bool,
    /// Whether it takes symbols in symbols.
    pub(crate) hierarchy: bool,
    pub(crate) documents: Documents,
    /// The names of documents of which is still to be published again.
    pub(crate) stale: Vec<String>,
    /// What is still to be shown to the user.
    pub(crate) notices: Vec<Notice>,
    /// The names that the open documents define, by the documents' names, as far as they were looked up since the
    /// documents changed.
    pub(crate) defined: BTreeMap<String, DefinedNames>,
    /// The files that may be closed.
    pub(crate) workspace: Workspace,
}

impl Server {
    /// One that waits for `initialize`.
    pub fn new(alloc: Global) -> Self
        ensures phase { result.phase ≡ Phase.Fresh }
        ensures none { (name : List ℕ) → texts result.documents name ≡ None }
    {
        Server {
            alloc,
            phase: Phase::Fresh,
            related: false,
            versioned: false,
            markdown: false,
            hierarchy: false,
            documents: Documents::new(alloc),
            stale: Vec::new(alloc),
            notices: Vec::new(alloc),
            defined: BTreeMap::new(alloc),
            workspace: Workspace::new(alloc),
        }
    }

    /// How the session ends. None where it goes on.
    pub fn ending(&self) -> Option<Ending>
        ensures { result ≡ ending_of self.now.phase }
    {
        self.phase.ending()
    }

    /// Takes a message, and gives the one to send for it. None where there is none. Closed files are read where it
    /// says that they may be others now, and before a renaming.
    ///
    /// `AllocError` where a growth was refused.
    pub fn take<F: Folders>(&mut self, body: &[u8], files: &F) -> Result<Option<Value>, AllocError>
        ensures { IfOk result (λ sent.
            SendsForMessage (session_of self.old) body.now (option_map view sent)
            (session_of self.new)) }
    {
        let value = match Value::from_slice(self.alloc, body) {
            Ok(value) => value,
            Err(error) => {
                return match error.classify() {
                    Category::Memory => Err(AllocError),
                    _ => self.refuse_unnamed(ErrorCode::ParseError),
                };
            }
        };
        match message_of(&value) {
            Message::Request { id, method } => {
                let id = id.clone()?;
                let method = Method::from_name(method);
                self.read_files(method == Some(Method::Rename), files)?;
                self.request(id, method, &value)
            }
            Message::Notification { method } => {
                self.notification(Method::from_name(method), &value, files)
            }
            Message::Response => Ok(None),
            Message::Invalid => self.refuse_unnamed(ErrorCode::InvalidRequest),
        }
    }

    /// Reads the files of the workspace, if they may be others now. What is wrong with its settings is to be shown.
    fn read_files<F: Folders>(&mut self, anew: bool, files: &F) -> Result<(), AllocError>
        ensures { OnOk result (session_of self.new ≡ session_of self.old) }
    {
        if anew {
            let mut faults = self.workspace.read(self.alloc, files)?;
            self.notices.append(&mut faults)?;
        }
        Ok(())
    }

    /// Whether the files are read after a notification of the method: they may be others now, or a document is saved
    /// whose file was left out.
    fn reads_files_after(&self, method: Option<Method>, message: &Value) -> bool {
        let open = uri_of(message).and_then(|uri| self.documents.get(uri));
        changes_files(method)
            || method == Some(Method::DidSave)
                && open.is_some_and(|open| self.left_out_reason(open).is_some())
    }

    /// Takes the folders that come and go, if a notification of the method names such.
    fn change_folders(&mut self, method: Option<Method>, message: &Value) -> Result<(), AllocError>
        ensures { OnOk result (session_of self.new ≡ session_of self.old) }
    {
        if method == Some(Method::DidChangeWorkspaceFolders) {
            self.workspace.change_folders(self.alloc, message)?;
        }
        Ok(())
    }

    /// Refuses the request with the identifier.
    fn refuse(&self, id: Value, code: ErrorCode) -> Result<Option<Value>, AllocError>
        ensures { IfOk result (λ sent. IsSent (refused (view id) code) (option_map view sent)) }
    {
        Ok(Some(refusal(self.alloc, id, code)?))
    }

    /// Refuses a message that has no identifier.
    fn refuse_unnamed(&self, code: ErrorCode) -> Result<Option<Value>, AllocError>
        ensures { IfOk result (λ sent. IsSent (refused null code) (option_map view sent)) }
    {
        self.refuse(null(), code)
    }

    /// Answers a request of the method; one that is not known is None.
    fn request(
        &mut self,
        id: Value,
        method: Option<Method>,
        message: &Value,
    ) -> Result<Option<Value>, AllocError>
        ensures { IfOk result (λ sent. SendsForRequest (session_of self.old)
            (view id) (view message.now) method (option_map view sent) (session_of self.new)) }
    {
        if let Some(code) = self.phase.refusal(method) {
            return self.refuse(id, code);
        }
        let response = match self.response(method, message)? {
            Ok(response) => response,
            Err(code) => return self.refuse(id, code),
        };
        let reply = answer(self.alloc, id, response)?;
        self.phase = self.phase.after_request(method);
        Ok(Some(reply))
    }

    /// Follows a notification of the method; one that is not known is None.
    fn notification<F: Folders>(
        &mut self,
        method: Option<Method>,
        message: &Value,
        files: &F,
    ) -> Result<Option<Value>, AllocError>
        ensures { IfOk result (λ sent. SendsForNotification
            (session_of self.old) (view message.now) method (option_map view sent) (session_of self.new)) }
    {
        let Phase::Running = self.phase else {
            self.phase = self.phase.after_notification(method);
            return Ok(None);
        };
        self.change_folders(method, message)?;
        self.read_files(self.reads_files_after(method, message), files)?;
        let sent = self.handle_notification(method, message)?;
        self.mark_stale(method, message)?;
        self.phase = self.phase.after_notification(method);
        Ok(sent)
    }
}

/// Whether the files of the workspace may be others after a notification.
fn changes_files(method: Option<Method>) -> bool {
    matches!(
        method,
        Some(
            Method::Initialized
                | Method::DidClose
                | Method::DidChangeWatchedFiles
                | Method::DidChangeWorkspaceFolders
        )
    )
}
