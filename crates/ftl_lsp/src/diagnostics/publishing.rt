//! What is reported of a document.
ghost use Rattle.std.specs.Prelude.{◌≡◌, map, option_map, All, IfOk, OnOk};
ghost use Rattle.serde_json.specs.View.{view};
ghost use Rattle.ftl_lsp.specs.OpenDocuments.{texts};
ghost use Rattle.ftl_lsp.specs.Replies.{IsSent};
ghost use Rattle.ftl_lsp.specs.Sessions.{published, session_of};
ghost use Rattle.ftl_lsp.specs.DiagnosticForms.{IsLintDiagnostic};

use crate::diagnostics::diagnostic_forms::{
    LintDiagnostic, count_list, error_list, left_out_list, lint_diagnostic_list,
};
use crate::diagnostics::differences::differences_of;
use crate::diagnostics::lint_diagnostics::finding_diagnostics;
use crate::documents::Document;
use crate::documents::open_documents::{Documents, OpenDocument};
use crate::limits::{DIAGNOSTICS_LIMIT, FINDINGS_LIMIT};
use crate::sessions::replies::diagnostics_notification;
use crate::sessions::server::Server;
use crate::workspace::Workspace;
use crate::workspace::file_sets::FileSet;
use crate::workspace::left_out::LeftOutReason;
use crate::workspace::originals::{Original, original_at};
use crate::workspace::others::{look_up_others, name_indexes_of, others_of};
use fluent_syntax_names::{
    Finding, NameIndex, findings_in_language, local_findings_in_language, shown_name,
};
use ftl_files::{CommentRules, IgnoreRule, Levels, ReportedKind, is_ignored};
use serde_json::Value;
use std::alloc::{AllocError, Global};
use std::slice::from_ref;

impl Server {
    /// The diagnostics of a document; None where it is not open.
    pub(crate) fn publish(&mut self, uri: &str) -> Result<Option<Value>, AllocError>
        ensures same { OnOk result (session_of self.new ≡ session_of self.old) }
        ensures sent { let found = texts self.old.documents uri.now in
            IfOk result (λ sent. IsSent (published uri.now found) (option_map view sent)) }
    {
        self.look_up_names(uri)?;
        let Some(open) = self.documents.get(uri) else {
            return Ok(None);
        };
        let errors = open.document.diagnostics();
        let mut list = error_list(self.alloc, uri, errors, self.related)?;
        let room = DIAGNOSTICS_LIMIT.saturating_sub(errors.len());
        let (mut others, more) = self.lint_diagnostics(uri, open, room)?;
        let more = open.document.more_errors().saturating_add(more);
        let mut count = count_list(self.alloc, more)?;
        others.append(&mut count)?;
        list.append(&mut others)?;
        Ok(Some(diagnostics_notification(self.alloc, uri, open.version, list)?))
    }

    /// Looks up what is defined next to a document, if its findings are sought there.
    fn look_up_names(&mut self, uri: &str) -> Result<(), AllocError>
        ensures same { OnOk result (session_of self.new ≡ session_of self.old) }
    {
        if let Some(set) = searched_set(&self.documents, &self.workspace, uri) {
            look_up_others(
                self.alloc,
                uri,
                set,
                self.documents.by_name(),
                &mut self.defined,
                &mut self.workspace,
            )?;
        }
        Ok(())
    }

    /// What is reported of a document besides its errors: what is found in it, and then how it differs from its
    /// original. The first of these, as many as there is room for, and how many there are more. Nothing of a document
    /// that is too long or nests too deeply.
    fn lint_diagnostics<'u>(
        &'u self,
        uri: &'u str,
        open: &'u OpenDocument,
        room: usize,
    ) -> Result<(Vec<Value>, usize), AllocError>
        ensures { IfOk result (λ found. All IsLintDiagnostic (map view found.0.items)) }
    {
        if !is_linted(&open.document) {
            return Ok((Vec::new(self.alloc), 0));
        }
        let name_index = open.document.name_index(self.alloc)?;
        let comments = CommentRules::of(self.alloc, &name_index)?;
        let ignored = self.ignored_of(open)?;
        let mut differences = self.differences(open, &comments, &ignored)?;
        let findings = self.reported_findings(uri, open, &comments, &ignored)?;
        let mut all = finding_diagnostics(self.alloc, uri, open.document.text(), &findings)?;
        all.append(&mut differences)?;
        let shown = all.len().min(room);
        let first = all.get(..shown).unwrap_or(&[]);
        let mut list = lint_diagnostic_list(self.alloc, first, self.related, self.levels_of(open))?;
        let mut left_out = left_out_list(self.alloc, self.left_out_reason(open))?;
        list.append(&mut left_out)?;
        Ok((list, all.len() - shown))
    }

    /// What a document and its original don't have alike, but for this; nothing of one that has none, or one that is
    /// too long.
    fn differences(
        &self,
        open: &OpenDocument,
        comments: &CommentRules<'_, '_>,
        ignored: &[IgnoreRule],
    ) -> Result<Vec<LintDiagnostic<'_>>, AllocError> {
        let none = Vec::new(self.alloc);
        let Some(path) = &open.path else {
            return Ok(none);
        };
        let Some(there) = self.workspace.original_of(self.alloc, path.as_str())? else {
            return Ok(none);
        };
        let Some(original) = self.linted_original(there.as_str())? else {
            return Ok(none);
        };
        let shown = self.workspace.display_path(there.as_str());
        differences_of(self.alloc, comments, &original, shown, ignored)
    }

    /// The original at the path. None where there is none, or it is too long.
    pub(crate) fn linted_original(&self, there: &str) -> Result<Option<Original<'_>>, AllocError> {
        let (documents, files) = (self.documents.by_name(), self.workspace.files());
        let found = original_at(self.alloc, there, documents, files)?;
        Ok(found.filter(|original| original.name_index.text.len() <= FINDINGS_LIMIT))
    }

    /// Why the document's file is left out where names are looked for, if it is.
    pub(crate) fn left_out_reason(&self, open: &OpenDocument) -> Option<LeftOutReason> {
        self.workspace.left_out_reason(open.path.as_deref()?)
    }

    /// How grave what is reported of a document is.
    fn levels_of(&self, open: &OpenDocument) -> Levels<'_> {
        let path = open.path.as_deref();
        self.workspace.levels_at(path)
    }

    /// What is not reported of a document.
    pub(crate) fn ignored_of(&self, open: &OpenDocument) -> Result<Vec<IgnoreRule>, AllocError> {
        match &open.path {
            Some(path) => self.workspace.ignored_at(self.alloc, path.as_str()),
            None => Ok(Vec::new(self.alloc)),
        }
    }

    /// What is found in a document, but for this and what its comments leave out.
    pub(crate) fn reported_findings(
        &self,
        uri: &str,
        open: &OpenDocument,
        comments: &CommentRules<'_, '_>,
        ignored: &[IgnoreRule],
    ) -> Result<Vec<Finding>, AllocError> {
        self.findings(uri, open.document.name_index(self.alloc)?)?
            .iter()
            .copied()
            .filter(|finding| is_reported(ignored, comments, finding))
            .collect(self.alloc)
    }

    /// What is found in a document: by itself; where all others of its set are known, among them, or next to them where
    /// they are long.
    fn findings(&self, uri: &str, name_index: NameIndex<'_>) -> Result<Vec<Finding>, AllocError> {
        let (alloc, workspace) = (self.alloc, &self.workspace);
        let documents = self.documents.by_name();
        let categories = self.categories_at(uri);
        if let Some(set) = searched_set(&self.documents, workspace, uri) {
            if let Some(others) = name_indexes_of(alloc, uri, set, documents, workspace)? {
                return workspace_findings(alloc, name_index, others, categories);
            }
            if let Some(others) = others_of(alloc, uri, set, documents, &self.defined, workspace)? {
                return findings_in_language(alloc, from_ref(&name_index), &others, categories);
            }
        }
        local_findings_in_language(alloc, &name_index, categories)
    }

    /// The plural categories of a document's language; None where they are not known.
    fn categories_at(&self, uri: &str) -> Option<&'static [&'static str]> {
        let path = self.documents.get(uri)?.path.as_deref()?;
        self.workspace.set_of(path).categories()
    }
}

/// The set in which is looked for what a document refers to. None where its findings are not sought, or not all files
/// are known that may define that.
fn searched_set<'d>(
    documents: &'d Documents,
    workspace: &Workspace,
    uri: &str,
) -> Option<FileSet<'d>> {
    let OpenDocument { path, document, .. } = documents.get(uri)?;
    match path {
        Some(path) if is_linted(document) && workspace.is_complete_for(path.as_str()) => {
            Some(workspace.set_of(path.as_str()))
        }
        _ => None,
    }
}

/// What is found in a file where it and others are one set.
fn workspace_findings<'o>(
    alloc: Global,
    file: NameIndex<'o>,
    mut others: Vec<NameIndex<'o>>,
    categories: Option<&'o [&'o str]>,
) -> Result<Vec<Finding>, AllocError> {
    let mut files = Vec::new(alloc);
    files.push(file)?;
    files.append(&mut others)?;
    findings_in_language(alloc, &files, &[], categories)?
        .iter()
        .copied()
        .filter(|finding| finding.file == 0)
        .collect(alloc)
}

/// Whether no rule and no comment leaves out the finding.
fn is_reported(ignored: &[IgnoreRule], comments: &CommentRules<'_, '_>, finding: &Finding) -> bool {
    let kind = ReportedKind::Finding(finding.kind);
    let text = comments.name_index.text;
    let name = finding.place.map_or("", |place| shown_name(text, place));
    !is_ignored(ignored, kind, name) && !comments.leave_out(finding.place, kind, name)
}

/// Whether the findings of a document are sought, which takes the longer the longer it is.
pub(crate) fn is_linted(document: &Document) -> bool {
    document.text().len() <= FINDINGS_LIMIT && !document.is_too_deep()
}
