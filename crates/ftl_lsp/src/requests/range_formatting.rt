//! The formatted entries of a range of a document.
ghost use Rattle.std.specs.Prelude.{◌≡◌, List, All, IfOk, IfSome, OnOk, Ok, is_some, map, option_and_then};
ghost use Rattle.std.specs.Prelude.{string_bytes};
ghost use Rattle.serde_json.specs.View.{view};
ghost use Rattle.fluent_syntax_edits.specs.SeveralEdits.{AreReplacements, NumberedChange, numbered_change};
ghost use Rattle.fluent_syntax_grammar.specs.RoundTrip.{tree_of};
ghost use Rattle.fluent_syntax_grammar.specs.Tiling.{Tile, Tiling};
ghost use Rattle.fluent_syntax_tree.specs.View.{entry_view};
ghost use Rattle.fluent_syntax_tree.specs.declared.edition.Edition.TheVariants.{One};
ghost use Rattle.ftl_lsp.specs.Asking.{IsRangeFormattingOf, names_open};
ghost use Rattle.ftl_lsp.specs.OpenDocuments.{texts};
ghost use Rattle.ftl_lsp.specs.Params.{uri_in};
ghost use Rattle.ftl_lsp.specs.RangeFormatting.{FormatsRange, Rewrites};
ghost use Rattle.ftl_lsp.specs.Sessions.{session_of};

use crate::documents::Document;
use crate::documents::entry_ranges::entry_range_of;
use crate::documents::occurrences::bytes_of;
use crate::documents::trees::tree_of_text;
use crate::requests::actions::mended_document::edit_list;
use crate::sessions::notices::Notice;
use crate::sessions::params::{asked_span, uri_of};
use crate::sessions::replies::null;
use crate::sessions::server::Server;
use fluent_syntax::ast::{Entry, Resource};
use fluent_syntax::parser::Edition;
use fluent_syntax::spans::Span;
use fluent_syntax_edits::{EditFault, NumberedEdit, Replacement, replacements};
use serde_json::Value;
use std::alloc::{AllocError, Global};

impl Server {
    /// The edits that format what the range that is asked of meets of the document; null where that stays as it is. Why
    /// it is left is to be shown.
    pub(crate) fn range_formatting(&mut self, message: &Value) -> Result<Option<Value>, AllocError>
        ensures same { OnOk result (session_of self.new ≡ session_of self.old) }
        ensures response { IfOk result
            (λ response. is_some response ≡ names_open (texts self.old.documents) (view message.now)) }
        ensures formats { let here = option_and_then (texts self.old.documents) (uri_in (view message.now)) in
            IfOk result (λ response. IfSome response (λ value. IsRangeFormattingOf here (view value))) }
    {
        let Some(open) = self.document_of(message) else {
            return Ok(None);
        };
        let asked = asked_span(message, open.document.text());
        let Some(edits) = range_edits(self.alloc, &open.document, asked)? else {
            let name = uri_of(message).unwrap_or("");
            let notice = Notice::of_unformatted(self.alloc, name, open, &self.workspace, false)?;
            self.notices.push(notice)?;
            return Ok(Some(null()));
        };
        Ok(Some(edits))
    }
}

/// The edits that format the messages, terms and comments that the range meets, as the protocol has them; null where
/// they stay as they are. None where the document nests too deeply, or would be read otherwise with the edits.
/// `AllocError` where a growth was refused.
fn range_edits(alloc: Global, document: &Document, asked: Span) -> Result<Option<Value>, AllocError>
    ensures { IfOk result (λ found. IfSome found
        (λ value. FormatsRange (string_bytes document.now.text) (view value))) }
{
    let text = document.text();
    let Some(tree) = tree_of_text(alloc, text)? else {
        return Ok(None);
    };
    let met = numbers_in(alloc, document, asked)?;
    let Some(all) = rewritten(alloc, text, &tree, &met)? else {
        return Ok(None);
    };
    let numbers = changing(alloc, text, &met, &all)?;
    if numbers.is_empty() {
        return Ok(Some(null()));
    }
    let Some(found) = rewritten(alloc, text, &tree, &numbers)? else {
        return Ok(None);
    };
    Ok(Some(Value::Array(edit_list(alloc, text, &found)?)))
}

/// The numbers of the messages, terms and comments that the range meets: it begins in them or at their ends, or they
/// begin before it ends.
fn numbers_in(alloc: Global, document: &Document, asked: Span) -> Result<Vec<usize>, AllocError> {
    let mut numbers = Vec::new(alloc);
    for (number, entry) in document.body().iter().enumerate() {
        let range = entry_range_of(document.text(), document.body(), number);
        let is_met = range.is_some_and(|Span { start, end }| {
            asked.start <= end && (start <= asked.start || start < asked.end)
        });
        if is_met && !matches!(entry, Entry::Junk { .. }) {
            numbers.push(number)?;
        }
    }
    Ok(numbers)
}

/// What comes in the place of the entries of these numbers when each is written. None where the text with that would be
/// read otherwise.
fn rewritten(
    alloc: Global,
    text: &str,
    tree: &Resource<&str>,
    numbers: &[usize],
) -> Result<Option<Vec<Replacement>>, AllocError>
    ensures { let entries = map (entry_view (λ s. s.now)) tree.now.body.items in
        IfOk result (λ found. IfSome found (λ replacements. (changes : List NumberedChange)
        × All (Rewrites entries) changes × AreReplacements One text.now changes (Ok replacements))) }
{
    let edits = rewriting_edits(alloc, tree, numbers)?;
    match replacements(alloc, text, Edition::One, &edits) {
        Ok(found) => Ok(Some(found)),
        Err(EditFault::Memory) => Err(AllocError),
        Err(_) => Ok(None),
    }
}

/// The edits that put the entries of these numbers in their own places.
fn rewriting_edits(
    alloc: Global,
    tree: &Resource<&str>,
    numbers: &[usize],
) -> Result<Vec<NumberedEdit>, AllocError>
    ensures { IfOk result (λ edits. All (Rewrites (map (entry_view (λ s. s.now)) tree.now.body.items))
        (map numbered_change edits.items)) }
{
    let mut edits = Vec::new(alloc);
    for number in numbers {
        if let Some(entry) = tree.body.get(*number) {
            edits.push(NumberedEdit::replace(alloc, *number, entry)?)?;
        }
    }
    Ok(edits)
}

/// The numbers of the entries of which a line is written otherwise than it is.
fn changing(
    alloc: Global,
    text: &str,
    numbers: &[usize],
    found: &[Replacement],
) -> Result<Vec<usize>, AllocError> {
    let mut changing = Vec::new(alloc);
    for (number, replacement) in numbers.iter().zip(found) {
        if !has_lines_of(bytes_of(text, replacement.span), replacement.text.as_str()) {
            changing.push(*number)?;
        }
    }
    Ok(changing)
}

/// Whether both have the same lines, but for line ends and for blank lines after them.
fn has_lines_of(old: &str, new: &str) -> bool {
    let line_ends = ['\n', '\r'];
    let (old, new) = (
        old.trim_end_matches(line_ends),
        new.trim_end_matches(line_ends),
    );
    old.lines().count() == new.lines().count()
        && old.lines().zip(new.lines()).all(|(old, new)| old == new)
}
