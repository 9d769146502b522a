//! A document: its text, and what was read of it.
ghost use Rattle.std.specs.Prelude.{◌≡◌, IfOk, map, string_bytes};
ghost use Rattle.ftl_lsp.specs.Diagnostics.{DiagnosesText, shown};

pub mod changes;
pub mod entry_ranges;
pub mod index;
pub mod occurrences;
pub mod offsets;
pub mod open_documents;
pub mod positions;
pub mod trees;

use crate::diagnostics::{Diagnostic, diagnostics_of, first_errors, too_deep};
use crate::documents::entry_ranges::entry_range_at;
use crate::limits::{DIAGNOSTICS_LIMIT, NESTING_LIMIT};
use fluent_syntax::ast::{Entry, Resource};
use fluent_syntax::parser::{Edition, ParseFault, TooDeep};
use fluent_syntax::spans::{Span, parse_spans_within};
use fluent_syntax_names::{NameIndex, name_index_of};
use std::alloc::{AllocError, Global};

/// A text with what was read of it. After each change it is made anew.
#[derive(Drop)]
pub struct Document {
    text: String,
    /// The entries of the text; none where it nests too deeply.
    body: Vec<Entry<Span>>,
    /// One for each of the first errors of the text, in order; a lone one where it nests too deeply.
    diagnostics: Vec<Diagnostic>,
    /// How many errors it has besides.
    more_errors: usize,
    is_too_deep: bool,
    ghost diagnosed: { ∥ DiagnosesText (string_bytes text) (map shown diagnostics.items) more_errors ∥₁ },
}

impl Document {
    ghost use Rattle.std.specs.Prelude.{◌≡◌, IfOk, map, string_bytes};
    ghost use Rattle.ftl_lsp.specs.Diagnostics.{DiagnosesText, shown};

    /// Reads the text: its placeables and argument lists may nest `NESTING_LIMIT` deep. `AllocError` where a growth was
    /// refused.
    pub fn new(alloc: Global, text: String) -> Result<Document, AllocError>
        ensures { IfOk result (λ document. string_bytes document.text ≡ string_bytes text) }
    {
        match parse_spans_within(alloc, text.as_str(), Edition::One, NESTING_LIMIT) {
            Ok(Ok(Resource { body })) => Ok(Document {
                text,
                body,
                diagnostics: Vec::new(alloc),
                more_errors: 0,
                is_too_deep: false,
            }),
            Ok(Err(ParseFault::Syntax(tree, errors))) => {
                let Resource { body } = tree;
                let first = first_errors(&errors);
                let diagnostics = diagnostics_of(alloc, text.as_str(), first)?;
                let more_errors = errors.len().saturating_sub(DIAGNOSTICS_LIMIT);
                Ok(Document {
                    text,
                    body,
                    diagnostics,
                    more_errors,
                    is_too_deep: false,
                })
            }
            Ok(Err(ParseFault::Memory)) => Err(AllocError),
            Err(TooDeep) => {
                let diagnostics = too_deep(alloc)?;
                Ok(Document {
                    text,
                    body: Vec::new(alloc),
                    diagnostics,
                    more_errors: 0,
                    is_too_deep: true,
                })
            }
        }
    }

    /// The text.
    pub fn text(&self) -> &str
        ensures { result.now ≡ string_bytes self.now.text }
    {
        self.text.as_str()
    }

    /// The text alone.
    pub fn into_text(self) -> String {
        let Document { text, .. } = self;
        text
    }

    /// The entries of the text, in order; none where it nests too deeply.
    pub fn body(&self) -> &[Entry<Span>] {
        self.body.as_slice()
    }

    /// A diagnostic for each of the text's first errors, in order; a lone one where it nests too deeply.
    pub fn diagnostics(&self) -> &[Diagnostic]
        ensures { ∥ DiagnosesText (string_bytes self.now.text) (map shown result.now) self.now.more_errors ∥₁ }
    {
        self.diagnostics.as_slice()
    }

    /// How many errors the text has besides.
    pub fn more_errors(&self) -> usize
        ensures { result ≡ self.now.more_errors }
    {
        self.more_errors
    }

    /// Whether the text nests deeper than `NESTING_LIMIT`.
    pub fn is_too_deep(&self) -> bool {
        self.is_too_deep
    }

    /// The text with what its entries say of names. `AllocError` where a growth was refused.
    pub fn name_index(&self, alloc: Global) -> Result<NameIndex<'_>, AllocError> {
        name_index_of(alloc, self.text.as_str(), &self.body)
    }

    /// The message or term in which the byte is, with its comment. None where there is none.
    pub fn entry_at(&self, byte: usize) -> Option<&str> {
        let Span { start, end } = entry_range_at(self.text.as_str(), &self.body, byte)?;
        self.text.get(start..end)
    }
}
