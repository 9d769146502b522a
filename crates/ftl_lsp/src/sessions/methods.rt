//! What a message may ask for.
ghost use Rattle.std.specs.Prelude.{◌≡◌, ◌≢◌, IfSome, IfNone};
ghost use Rattle.ftl_lsp.specs.Methods.{name_of};

/// A request or a notification that is known.
#[derive(Clone, Copy, PartialEq, Eq)]
pub enum Method {
    Initialize,
    Shutdown,
    DocumentSymbol,
    Formatting,
    FoldingRange,
    Definition,
    References,
    DocumentHighlight,
    Hover,
    Rename,
    Completion,
    WorkspaceSymbol,
    SemanticTokens,
    DidOpen,
    DidChange,
    DidClose,
    DidSave,
    Exit,
    Initialized,
    DidChangeWatchedFiles,
    DidChangeWorkspaceFolders,
    PrepareRename,
    SelectionRange,
    CodeAction,
    RangeFormatting,
}

impl Method {
    /// The method of the name. None where no method that is known has it.
    pub fn from_name(name: &str) -> Option<Method>
        ensures named { IfSome result (λ method. name_of method ≡ name.now) }
        ensures other { IfNone result ((method : Method) → name_of method ≢ name.now) }
    {
        match name {
            "initialize" => Some(Method::Initialize),
            "shutdown" => Some(Method::Shutdown),
            "textDocument/documentSymbol" => Some(Method::DocumentSymbol),
            "textDocument/formatting" => Some(Method::Formatting),
            "textDocument/foldingRange" => Some(Method::FoldingRange),
            "textDocument/definition" => Some(Method::Definition),
            "textDocument/references" => Some(Method::References),
            "textDocument/documentHighlight" => Some(Method::DocumentHighlight),
            "textDocument/hover" => Some(Method::Hover),
            "textDocument/rename" => Some(Method::Rename),
            "textDocument/completion" => Some(Method::Completion),
            "workspace/symbol" => Some(Method::WorkspaceSymbol),
            "textDocument/semanticTokens/full" => Some(Method::SemanticTokens),
            "textDocument/didOpen" => Some(Method::DidOpen),
            "textDocument/didChange" => Some(Method::DidChange),
            "textDocument/didClose" => Some(Method::DidClose),
            "textDocument/didSave" => Some(Method::DidSave),
            "exit" => Some(Method::Exit),
            "initialized" => Some(Method::Initialized),
            "workspace/didChangeWatchedFiles" => Some(Method::DidChangeWatchedFiles),
            "workspace/didChangeWorkspaceFolders" => Some(Method::DidChangeWorkspaceFolders),
            "textDocument/prepareRename" => Some(Method::PrepareRename),
            "textDocument/selectionRange" => Some(Method::SelectionRange),
            "textDocument/codeAction" => Some(Method::CodeAction),
            "textDocument/rangeFormatting" => Some(Method::RangeFormatting),
            _ => None,
        }
    }
}
