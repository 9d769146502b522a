//! How far a session is, and what it refuses there.
ghost use Rattle.std.specs.Prelude.{◌≡◌};
ghost use Rattle.ftl_lsp.specs.Phases.{after_notification, after_request, ending_of, number_of, refusal_of};
ghost use Rattle.ftl_lsp.specs.Phases.{text_of, text_of_rename};

use crate::sessions::endings::Ending;
use crate::sessions::methods::Method;

/// How far a session is.
#[derive(Clone, Copy, PartialEq, Eq)]
pub enum Phase {
    /// `initialize` has not come.
    Fresh,
    Running,
    /// `shutdown` has come.
    ShutDown,
    /// `exit` has come after `shutdown`.
    Exited,
    /// `exit` has come without it.
    Left,
}

/// Why a message is refused.
#[derive(Clone, Copy, PartialEq, Eq)]
pub enum ErrorCode {
    /// The body is no JSON text.
    ParseError,
    /// It is no message, or one that has no place there.
    InvalidRequest,
    /// The method is not known, or is none of requests.
    MethodNotFound,
    /// The parameters name no document that is open, or no position or new name there.
    InvalidParams,
    /// `initialize` has not come.
    NotInitialized,
    /// What is at the place can't have the new name.
    Rename(RenameFault),
}

/// Why a name can't have another.
#[derive(Clone, Copy, PartialEq, Eq)]
pub enum RenameFault {
    /// There is no name at the place.
    NoName,
    /// The name there is that of a variable or a function, which nothing defines.
    VariableOrFunction,
    /// The new name is no identifier.
    NoIdentifier,
    /// A document or a file defines something of the new name.
    Taken,
}

impl RenameFault {
    /// Its text.
    pub fn text(&self) -> &'static str
        ensures { result.now ≡ text_of_rename self.now }
    {
        match self {
            RenameFault::NoName => "there is no name at this place",
            RenameFault::VariableOrFunction => "a variable or a function can't be renamed",
            RenameFault::NoIdentifier => {
                "the new name is no identifier: a letter, and then letters, digits, - and _"
            }
            RenameFault::Taken => "the new name is taken: a document or a file defines it",
        }
    }
}

impl ErrorCode {
    /// Its number in the protocol.
    pub fn number(&self) -> i64
        ensures { result ≡ number_of self.now }
    {
        match self {
            ErrorCode::ParseError => -32700,
            ErrorCode::InvalidRequest => -32600,
            ErrorCode::MethodNotFound => -32601,
            ErrorCode::InvalidParams | ErrorCode::Rename(_) => -32602,
            ErrorCode::NotInitialized => -32002,
        }
    }

    /// Its text.
    pub fn text(&self) -> &'static str
        ensures { result.now ≡ text_of self.now }
    {
        match self {
            ErrorCode::ParseError => "the message is no JSON text",
            ErrorCode::InvalidRequest => "the request has no place here",
            ErrorCode::MethodNotFound => "the method is not known",
            ErrorCode::InvalidParams =>
                "the parameters name no open document, or no position or new name there",
            ErrorCode::NotInitialized => "the server is not initialized",
            ErrorCode::Rename(fault) => fault.text(),
        }
    }
}

impl Phase {
    /// Why a request is refused; None where it is answered. A method that is not known is None.
    pub fn refusal(&self, method: Option<Method>) -> Option<ErrorCode>
        ensures { result ≡ refusal_of self.now method }
    {
        match (self, method) {
            (Phase::Fresh, Some(Method::Initialize)) => None,
            (Phase::Fresh, _) => Some(ErrorCode::NotInitialized),
            (Phase::Running, Some(Method::Initialize)) => Some(ErrorCode::InvalidRequest),
            (
                Phase::Running,
                Some(
                    Method::Shutdown
                    | Method::DocumentSymbol
                    | Method::Formatting
                    | Method::FoldingRange
                    | Method::Definition
                    | Method::References
                    | Method::DocumentHighlight
                    | Method::Hover
                    | Method::Rename
                    | Method::Completion
                    | Method::WorkspaceSymbol
                    | Method::SemanticTokens
                    | Method::PrepareRename
                    | Method::SelectionRange
                    | Method::CodeAction
                    | Method::RangeFormatting,
                ),
            ) => None,
            (Phase::Running, _) => Some(ErrorCode::MethodNotFound),
            (Phase::ShutDown | Phase::Exited | Phase::Left, _) => Some(ErrorCode::InvalidRequest),
        }
    }

    /// The phase after a request.
    pub fn after_request(&self, method: Option<Method>) -> Phase
        ensures { result ≡ after_request self.now method }
    {
        match (self, method) {
            (Phase::Fresh, Some(Method::Initialize)) => Phase::Running,
            (Phase::Running, Some(Method::Shutdown)) => Phase::ShutDown,
            _ => *self,
        }
    }

    /// The phase after a notification.
    pub fn after_notification(&self, method: Option<Method>) -> Phase
        ensures { result ≡ after_notification self.now method }
    {
        match (self, method) {
            (Phase::ShutDown, Some(Method::Exit)) => Phase::Exited,
            (Phase::Fresh | Phase::Running, Some(Method::Exit)) => Phase::Left,
            _ => *self,
        }
    }

    /// How the session ends in this phase. None where it goes on.
    pub fn ending(&self) -> Option<Ending>
        ensures { result ≡ ending_of self.now }
    {
        match self {
            Phase::Exited => Some(Ending::Exited),
            Phase::Left => Some(Ending::Left),
            Phase::Fresh | Phase::Running | Phase::ShutDown => None,
        }
    }
}
