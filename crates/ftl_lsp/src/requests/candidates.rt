//! The names that are offered where one is typed.

use crate::documents::occurrences::{Name, NameKind};
use crate::documents::positions::Positions;
use crate::sessions::replies::edit_form;
use fluent_syntax::spans::Span;
use serde_json::{Value, json};
use std::alloc::{AllocError, Global};
use std::collections::BTreeMap;

/// What is offered, as the protocol counts its kinds.
#[derive(Clone, Copy)]
pub enum CandidateKind {
    Message,
    /// A term or a variable.
    Variable,
    Function,
    Attribute,
    VariantKey,
}

/// How a name is offered.
#[derive(Drop)]
struct Candidate {
    kind: CandidateKind,
    /// Those of a lesser number are offered first.
    rank: u64,
    /// What is inserted, if that is not the name.
    inserted: Option<String>,
}

/// The names that are offered, each once.
#[derive(Drop)]
pub struct Candidates {
    alloc: Global,
    /// How the lines of the document end.
    line_end: &'static str,
    by_label: BTreeMap<String, Candidate>,
}

impl Candidates {
    /// None, for a document of that text.
    pub fn new(alloc: Global, text: &str) -> Self {
        Candidates {
            alloc,
            line_end: line_end_of(text),
            by_label: BTreeMap::new(alloc),
        }
    }

    /// Offers a name after those of a lesser rank, if it isn't offered with that one or a lesser. `AllocError` where a
    /// growth was refused.
    pub fn offer(
        &mut self,
        label: String,
        kind: CandidateKind,
        rank: u64,
    ) -> Result<(), AllocError> {
        let is_offered = match self.by_label.get(label.as_str()) {
            Some(there) => there.rank <= rank,
            None => false,
        };
        if !is_offered {
            let inserted = None;
            let candidate = Candidate {
                kind,
                rank,
                inserted,
            };
            drop(self.by_label.insert(label, candidate)?);
        }
        Ok(())
    }

    /// Offers a name in whose place a text is inserted, with the line ends of the document in place of its own.
    /// `AllocError` where a growth was refused.
    pub fn offer_text(
        &mut self,
        label: &str,
        kind: CandidateKind,
        inserted: &str,
    ) -> Result<(), AllocError> {
        let candidate = Candidate {
            kind,
            rank: 0,
            inserted: Some(with_line_ends(self.alloc, inserted, self.line_end)?),
        };
        let label = String::from_str(self.alloc, label)?;
        drop(self.by_label.insert(label, candidate)?);
        Ok(())
    }

    /// Offers the name no more.
    pub fn withdraw(&mut self, label: &str) {
        drop(self.by_label.remove(label));
    }

    /// The names in the order of their bytes, each with the edit that puts it in place of what is typed. `AllocError`
    /// where a growth was refused.
    pub fn item_list(&self, text: &str, typed: Span) -> Result<Value, AllocError> {
        let mut positions = Positions::new(text);
        let mut list = Vec::new(self.alloc);
        for (label, candidate) in self.by_label.iter() {
            list.push(item_form(self.alloc, &mut positions, typed, label.as_str(), candidate)?)?;
        }
        Ok(Value::Array(list))
    }
}

/// A name that may be chosen. Of a text of several lines it says that the editor is not to indent them.
fn item_form(
    alloc: Global,
    positions: &mut Positions<'_>,
    typed: Span,
    label: &str,
    candidate: &Candidate,
) -> Result<Value, AllocError> {
    let (kind, rank) = (kind_number(candidate.kind), candidate.rank);
    let sort = format!(in alloc; "{rank}{label}")?;
    let sort = sort.as_str();
    match &candidate.inserted {
        None => {
            let edit = edit_form(alloc, positions, typed, label)?;
            json!(in alloc; {"label": label, "kind": kind, "sortText": sort, "textEdit": edit})
        }
        Some(inserted) => {
            let edit = edit_form(alloc, positions, typed, inserted.as_str())?;
            json!(in alloc; {
                "label": label,
                "kind": kind,
                "sortText": sort,
                "textEdit": edit,
                "insertTextMode": 1
            })
        }
    }
}

/// How the first line of the text ends; as LF where there is but one.
fn line_end_of(text: &str) -> &'static str {
    match text.split_once('\n') {
        Some((line, _)) if line.ends_with('\r') => "\r\n",
        _ => "\n",
    }
}

/// The lines of a text, with such line ends between them.
fn with_line_ends(alloc: Global, text: &str, line_end: &str) -> Result<String, AllocError> {
    let mut out = String::new(alloc);
    for (number, line) in text.lines().enumerate() {
        if number > 0 {
            out.push_str(line_end)?;
        }
        out.push_str(line)?;
    }
    Ok(out)
}

/// A name as it is written where it is referred to or used, without its attribute. `AllocError` where a growth was
/// refused.
pub fn label_of(alloc: Global, name: Name<'_>) -> Result<String, AllocError> {
    let mut label = String::new(alloc);
    match name.kind {
        NameKind::Term => label.push('-')?,
        NameKind::Variable => label.push('$')?,
        NameKind::Message | NameKind::Function => {}
    }
    label.push_str(name.name)?;
    Ok(label)
}

/// The number of a kind in the protocol.
fn kind_number(kind: CandidateKind) -> u64 {
    match kind {
        CandidateKind::Message => 21,
        CandidateKind::Variable => 6,
        CandidateKind::Function => 3,
        CandidateKind::Attribute => 10,
        CandidateKind::VariantKey => 20,
    }
}
