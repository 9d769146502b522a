//! Names of a document that no file defines, and those that may be meant.
ghost use Rattle.std.specs.Prelude.{All, IfOk, map};
ghost use Rattle.serde_json.specs.View.{view};
ghost use Rattle.ftl_lsp.specs.Actions.{IsAction};
ghost use Rattle.ftl_lsp.specs.OpenDocuments.{open_text};

use crate::documents::index::{IndexedDocument, Scope, indexed_documents};
use crate::documents::occurrences::{NameKind, bytes_of, name_of};
use crate::requests::actions::mended_document::MendedDocument;
use crate::requests::renaming::is_identifier;
use crate::sessions::server::Server;
use fluent_syntax::spans::Span;
use fluent_syntax_names::{Finding, Kind};
use ftl_files::nearest_name;
use serde_json::Value;
use std::alloc::{AllocError, Global};

/// A name that no file defines, and the one that may be meant.
#[derive(Drop)]
pub struct Respelling {
    span: Span,
    name: String,
    /// What is written before it.
    mark: &'static str,
}

impl Server {
    /// The messages and terms in the range that no file defines, each with the one of its set that is spelled most like
    /// it. `AllocError` where a growth was refused.
    pub(crate) fn respellings(
        &self,
        mended: &MendedDocument<'_>,
        findings: &[Finding],
    ) -> Result<Vec<Respelling>, AllocError> {
        let mut found = Vec::new(self.alloc);
        for finding in findings {
            if let (Some(kind), Some(span)) = (undefined_kind(finding.kind), finding.place) {
                let mark = if kind == NameKind::Term { "-" } else { "" };
                let start = span.start.saturating_sub(mark.len());
                if mended.asks_of(Span { start, ..span }) {
                    if let Some(name) = self.nearest_to(mended, kind, span)? {
                        found.push(Respelling { span, name, mark })?;
                    }
                }
            }
        }
        Ok(found)
    }

    /// The name of the kind that is spelled most like the one at the span, of those that the document's set defines.
    fn nearest_to(
        &self,
        mended: &MendedDocument<'_>,
        kind: NameKind,
        span: Span,
    ) -> Result<Option<String>, AllocError> {
        let scope = Scope::Set(self.workspace.set_of(mended.open.path_or(mended.uri)));
        let documents = self.documents.by_name();
        let all = indexed_documents(self.alloc, documents, &self.workspace, scope)?;
        let names = defined_names(self.alloc, &all, kind)?;
        match nearest_name(bytes_of(mended.open.document.text(), span), &names) {
            Some(name) => Ok(Some(String::from_str(self.alloc, name)?)),
            None => Ok(None),
        }
    }
}

/// The actions that put the names that may be meant in place of those. `AllocError` where a growth was refused.
pub fn respelling_list(
    mended: &MendedDocument<'_>,
    respellings: &[Respelling],
) -> Result<Vec<Value>, AllocError>
    ensures { IfOk result
        (λ list. All (IsAction mended.now.uri.now (open_text mended.now.open.now)) (map view list.items)) }
{
    let mut list = Vec::new(mended.alloc);
    for respelling in respellings {
        let old = bytes_of(mended.open.document.text(), respelling.span);
        let name = respelling.name.as_str();
        if is_identifier(old) && is_identifier(name) {
            let title = format!(in mended.alloc; "Change to `{}{name}`", respelling.mark)?;
            list.push(mended.respelling(title.as_str(), respelling.span, old, name)?)?;
        }
    }
    Ok(list)
}

/// What the finding says no file defines, if it is a message or a term.
fn undefined_kind(kind: Kind) -> Option<NameKind> {
    match kind {
        Kind::UndefinedMessage => Some(NameKind::Message),
        Kind::UndefinedTerm => Some(NameKind::Term),
        _ => None,
    }
}

/// The names of the messages or terms that the documents define.
fn defined_names<'d>(
    alloc: Global,
    documents: &'d [IndexedDocument<'_>],
    kind: NameKind,
) -> Result<Vec<&'d str>, AllocError> {
    let mut names = Vec::new(alloc);
    for document in documents {
        for occurrence in document.occurrences() {
            let name = name_of(document.text, *occurrence);
            if occurrence.defines && name.kind == kind && name.attribute.is_none() {
                names.push(name.name)?;
            }
        }
    }
    Ok(names)
}
