//! What is shown to the user besides answers and diagnostics.
ghost use Rattle.std.specs.Prelude.{◌≡◌, string_bytes, IfOk};
ghost use Rattle.serde_json.specs.View.{view};
ghost use Rattle.ftl_lsp.specs.Notices.{notice_form, sentence_of, severity_of};

use crate::diagnostics::diagnostic_forms::severity_number;
use crate::documents::open_documents::OpenDocument;
use crate::workspace::Workspace;
use crate::workspace::left_out::LeftOutReason;
use fluent_syntax_names::Severity;
use serde_json::{Value, json};
use std::alloc::{AllocError, Global};

/// What is shown to the user: that a document with this name is not formatted, that a file is left out or not renamed
/// in, or what is wrong with settings.
#[derive(Clone, PartialEq, Drop)]
pub enum Notice {
    /// The document nests too deep.
    TooDeep(String),
    /// It has an error, on the line of the number.
    HasError(String, usize),
    /// What would be written does not read back.
    NotReadBack(String),
    /// The file of this name is left out where names are looked for, and why.
    LeftOut(String, LeftOutReason),
    /// The file of this name is left out, so a renaming doesn't change it.
    NotRenamed(String),
    /// The `ftl.toml` of the folder can't be gone by, and why.
    WrongSettings(String, String),
}

impl Notice {
    /// That the document is left as it is where it was to be formatted, as a `whole` or a range of it, and why.
    ///
    /// `AllocError` where a growth was refused.
    pub fn of_unformatted(
        alloc: Global,
        uri: &str,
        open: &OpenDocument,
        workspace: &Workspace,
        whole: bool,
    ) -> Result<Notice, AllocError> {
        let name = String::from_str(alloc, workspace.display_path(open.path_or(uri)))?;
        let document = &open.document;
        match document.diagnostics().first() {
            Some(_) if document.is_too_deep() => Ok(Notice::TooDeep(name)),
            Some(error) if whole => {
                Ok(Notice::HasError(name, error.start.line.saturating_add(1)))
            }
            _ => Ok(Notice::NotReadBack(name)),
        }
    }

    /// That the settings of the folder can't be gone by, and why. `AllocError` where a growth was refused.
    pub fn of_settings(alloc: Global, folder: &str, fault: &str) -> Result<Notice, AllocError> {
        let folder = String::from_str(alloc, folder)?;
        Ok(Notice::WrongSettings(folder, String::from_str(alloc, fault)?))
    }

    fn severity(&self) -> Severity
        ensures { result ≡ severity_of self.now }
    {
        match self {
            Notice::WrongSettings(_, _) => Severity::Error,
            _ => Severity::Warning,
        }
    }

    /// Its sentence. `AllocError` where a growth was refused.
    fn sentence(&self, alloc: Global) -> Result<String, AllocError>
        ensures { IfOk result (λ sentence. string_bytes sentence ≡ sentence_of self.now) }
    {
        match self {
            Notice::TooDeep(name) => {
                format!(in alloc; "{name} is not formatted: it nests too deep")
            }
            Notice::HasError(name, line) => {
                format!(in alloc; "{name} is not formatted: line {line} has an error")
            }
            Notice::NotReadBack(name) => format!(in alloc;
                "{name} is not formatted: what would be written does not read back"
            ),
            Notice::LeftOut(name, reason) => reason.sentence(alloc, name.as_str()),
            Notice::NotRenamed(name) => {
                format!(in alloc; "{name} is left out, so nothing is renamed there")
            }
            Notice::WrongSettings(folder, fault) => format!(in alloc; "{folder}/ftl.toml: {fault}"),
        }
    }

    /// The notification that shows it. `AllocError` where a growth was refused.
    pub fn form(&self, alloc: Global) -> Result<Value, AllocError>
        ensures { IfOk result (λ value. view value ≡ notice_form self.now) }
    {
        let sentence = self.sentence(alloc)?;
        let kind = severity_number(self.severity());
        json!(in alloc; {
            "jsonrpc": "2.0",
            "method": "window/showMessage",
            "params": {"type": kind, "message": (sentence.as_str())}
        })
    }
}
