//! The entry by which a text would not read back once it is formatted.
ghost use Rattle.std.specs.Prelude.{◌≡◌, ◌+◌, ◌<◌, ◌^◌, ℕ, List, Option, IfErr, IfOk, length, map, slice_get};
ghost use Rattle.std.specs.Prelude.{string_bytes};
ghost use Rattle.fluent_syntax_tree.specs.View.{entry_view};
ghost use Rattle.ftl_project.specs.Faults.{IsTooDeep, IsUnparsed};
ghost use Rattle.ftl_project.specs.Rewriting.{FindsLossy, IsEntryAt, first_start, named_at, place_of_entry};
ghost use Rattle.ftl_project.specs.Summaries.{lossy_entry_line_of, lossy_note_of};
ghost use Rattle.ftl_project.specs.declared.formatting.lossy_entry.LossyEntry.{LossyEntry};

use crate::fault::Fault;
use crate::formatting::replacement::{FormatOptions, Replacement, replacement_for};
use crate::reporting::terminal_text::push_shown_text;
use fluent_syntax::ast::{Comment, Entry};
use fluent_syntax::laws::{Rule, Uncanonical};
use fluent_syntax::parser::recovered;
use fluent_syntax::spans::{Lines, Span, parse_spans_within};
use ftl_files::{BlankLines, Reading};
use std::alloc::{AllocError, Global};

/// An entry of a text by which its normal form would not read back.
#[derive(Clone, Copy, Debug, Drop, PartialEq, Eq)]
pub struct LossyEntry {
    /// The line of its name, or of its text where it is a comment, from 1.
    pub line: usize,
    /// The column of that in bytes, from 1.
    pub column: usize,
    /// The rule of trees that read back which it breaks.
    pub rule: Rule,
}

/// The first entry of the text by which its normal form would not read back; `None` where it would, or where the text
/// has errors.
///
/// `Memory`: a growth was refused, or the text is as long as the greatest `usize`. `TooDeep`: it nests deeper than it
/// may.
pub fn lossy_entry_in(
    alloc: Global,
    text: &str,
    reading: Reading,
) -> Result<Option<LossyEntry>, Fault>
    ensures found { IfOk result (FindsLossy reading text.now) }
    ensures fault { IfErr result (IsUnparsed (IsTooDeep reading text.now)) }
{
    let text = String::from_str(alloc, text)?;
    let options = FormatOptions {
        reading,
        blank_lines: BlankLines::Normal,
    };
    match replacement_for(alloc, text, options)? {
        Replacement::Lossy(entry) => Ok(Some(entry)),
        _ => Ok(None),
    }
}

/// By which entry the normal form of the text, which was written, does not read back, on a line; nothing where it does.
///
/// `AllocError`: a growth was refused, or the text nests deeper than it may.
pub fn lossy_note(
    alloc: Global,
    path: &str,
    text: &str,
    reading: Reading,
) -> Result<String, AllocError>
    ensures { IfOk result (λ note. (found : Option LossyEntry) × FindsLossy reading text.now found
        × (rule : List ℕ) × (string_bytes note ≡ lossy_note_of path.now found rule)) }
{
    match lossy_entry_in(alloc, text, reading) {
        Ok(Some(entry)) => {
            lossy_entry_line(alloc, path, entry, "what is written does not read back")
        }
        Ok(None) => Ok(String::new(alloc)),
        Err(_) => Err(AllocError),
    }
}

/// `PATH:LINE:COLUMN: NOTE: RULE`, on a line.
///
/// `AllocError`: a growth was refused.
pub fn lossy_entry_line(
    alloc: Global,
    path: &str,
    entry: LossyEntry,
    note: &str,
) -> Result<String, AllocError>
    ensures { IfOk result (λ line. (rule : List ℕ)
        × (string_bytes line ≡ lossy_entry_line_of path.now entry note.now rule)) }
{
    let LossyEntry { line, column, rule } = entry;
    let mut shown = String::new(alloc);
    push_shown_text(&mut shown, path)?;
    let rule = format!(in alloc; "{rule}")?;
    format!(in alloc; "{shown}:{line}:{column}: {note}: {rule}\n")
}

/// The entry of that number, with its place in the text, which was read before.
pub(crate) fn lossy_entry(
    alloc: Global,
    text: &str,
    reading: Reading,
    broken: Uncanonical,
) -> Result<LossyEntry, AllocError>
    requires { length text.now + 1 < 2 ^ 64 }
    ensures { IfOk result (IsEntryAt reading.edition text.now broken) }
{
    let Ok(answer) = parse_spans_within(alloc, text, reading.edition, reading.nesting) else {
        // it nested no deeper when it was read before
        return Err(AllocError);
    };
    let (tree, _) = recovered(alloc, answer)?;
    let place = entry_place(&tree.body, broken.entry).min(text.len());
    let (line, column) = Lines::new(text).line_column(place);
    Ok(LossyEntry {
        line,
        column,
        rule: broken.rule,
    })
}

/// Where the entry of that number, from 0, has its name, or its text where it is a comment.
fn entry_place(body: &[Entry<Span>], number: usize) -> usize
    ensures { result ≡ place_of_entry (slice_get (map (entry_view (λ s. s)) body.now) number) }
{
    match body.get(number) {
        Some(entry) => named_at(entry),
        None => 0,
    }
}

/// Where the entry has its name, or its text where it has none.
fn named_at(entry: &Entry<Span>) -> usize
    ensures { result ≡ named_at (entry_view (λ s. s) entry.now) }
{
    match entry {
        Entry::Message(message) => message.id.name.start,
        Entry::Term(term) => term.id.name.start,
        Entry::Comment(comment) | Entry::GroupComment(comment) | Entry::ResourceComment(comment) =>
            first_start(comment),
        Entry::Junk { content } => content.start,
    }
}

/// Where the comment's first line is.
fn first_start(comment: &Comment<Span>) -> usize
    ensures { result ≡ first_start (map (λ s. s) comment.now.content.items) }
{
    match comment.content.first() {
        Some(line) => line.start,
        None => 0,
    }
}
