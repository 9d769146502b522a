//! New texts as they are written, edit by edit.
ghost use Rattle.std.specs.Prelude.{◌≡◌, ◌+◌, ◌<◌, ◌≤◌, ◌⊎◌, ◌++◌, ◌∷◌, ℕ, drop, length, take, map, IfOk, MatchResult};
ghost use Rattle.std.specs.Prelude.{OnOk, string_bytes};
ghost use Rattle.std.specs.Str.{IsCharBoundary};
ghost use Rattle.fluent_syntax_edits.specs.Changes.{after_line_ends, attempts, change_of};
ghost use Rattle.fluent_syntax_edits.specs.Drafts.{IsAdded};
ghost use Rattle.fluent_syntax_edits.specs.SeveralEdits.{FirstFault, Replaces, numbered_change, spliced};
ghost use Rattle.fluent_syntax_edits.specs.declared.fault.EditFault.TheVariants.{Memory};

use crate::edit::{Edit, replacement_text, with_line_ends};
use crate::edited_ranges::range_by;
use crate::entry_places::entry_places;
use crate::fault::EditFault;
use crate::numbered_edits::NumberedEdit;
use fluent_syntax_tree::edition::Edition;
use fluent_syntax_tree::spans::Span;
use std::alloc::{AllocError, Global};

/// A stretch of a text, and what comes in its place.
#[derive(Debug, Drop)]
pub struct Replacement {
    pub span: Span,
    pub text: String,
}

/// A new text up to where a place of the source is in it, and what came in the place of what.
#[derive(Drop)]
pub(crate) struct Draft {
    pub(crate) text: String,
    pub(crate) replacements: Vec<Replacement>,
    /// The place.
    pub(crate) end: usize,
}

/// The last line, without its line end.
fn last_line(text: &[u8]) -> &[u8] {
    let end = match text.last() {
        Some(b'\n') => text.len() - 1,
        _ => text.len(),
    };
    let mut start = end;
    while start > 0 && text[start - 1] != b'\n' {
        start -= 1;
    }
    &text[start..end]
}

/// The level of the comment that the line is of, or that begins there; 0 if it is not one.
fn comment_level(line: &[u8]) -> usize {
    let mut level = 0;
    while level < line.len() && line[level] == b'#' {
        level += 1;
    }
    match line.get(level) {
        None | Some(b' ' | b'\n') => level,
        // of its line end
        Some(b'\r') if line.len() - level == 1 => level,
        Some(_) => 0,
    }
}

/// How many line ends come before a new entry: one to end the line before it, and one as a blank line after a comment
/// that would be attached to it, or that it would go on.
fn line_ends_before_entry(before: &[u8], entry: &[u8]) -> usize
    ensures { result < 3 }
{
    let ends_line = matches!(before.last(), None | Some(b'\n'));
    let goes_on = match (comment_level(last_line(before)), comment_level(entry)) {
        (0, _) => false,
        (1, 0) => true,
        (level, other) => level == other,
    };
    usize::from(!ends_line) + usize::from(goes_on)
}

/// What comes in the place of a stretch of the source that ends there, if the new text goes so before it.
fn text_after(
    alloc: Global,
    before: &[u8],
    source: &[u8],
    end: usize,
    edit: &Edit,
) -> Result<String, AllocError>
    requires { end ≤ length source.now }
    ensures { IfOk result (λ text. (k : ℕ) × (k < attempts (change_of edit.now))
        × (string_bytes text ≡ after_line_ends k (change_of edit.now) source.now end)) }
{
    let new = replacement_text(alloc, source, end, edit)?;
    let line_ends = match edit {
        Edit::Insert(_) => line_ends_before_entry(before, new.as_bytes()),
        Edit::Replace(_) | Edit::Remove | Edit::Set(_, _) => 0,
    };
    let mut text = with_line_ends(String::new(alloc), line_ends)?;
    text.push_str(new.as_str())?;
    Ok(text)
}

/// Writes the source up to the stretch, and what comes in its place.
fn add_edit(
    alloc: Global,
    source: &str,
    draft: &mut Draft,
    span: Span,
    edit: &Edit,
) -> Result<(), AllocError>
    requires from { IsCharBoundary source.now draft.old.end }
    requires start { IsCharBoundary source.now span.start }
    requires end { IsCharBoundary source.now span.end }
    requires order { draft.old.end ≤ span.start }
    ensures { OnOk result (IsAdded source.now (change_of edit.now) span draft.old draft.new) }
{
    draft.text.push_str(&source[draft.end..span.start])?;
    let text = text_after(
        alloc,
        draft.text.as_bytes(),
        source.as_bytes(),
        span.end,
        edit,
    )?;
    draft.text.push_str(text.as_str())?;
    draft.replacements.push(Replacement { span, text })?;
    draft.end = span.end;
    Ok(())
}

/// The new text, however it is read.
pub(crate) fn draft_of(
    alloc: Global,
    source: &str,
    edition: Edition,
    edits: &[NumberedEdit],
) -> Result<Draft, EditFault>
    ensures { let cs = map numbered_change edits.now in MatchResult result
        (λ draft. Replaces edition source.now 0 cs draft.replacements.items
        × (string_bytes draft.text ≡ spliced source.now 0 draft.replacements.items))
        (λ fault. (fault ≡ Memory) ⊎ FirstFault edition source.now 0 cs fault) }
{
    let entry_places = entry_places(alloc, source, edition)?;
    let mut draft = Draft {
        text: String::new(alloc),
        replacements: Vec::new(alloc),
        end: 0,
    };
    for edit in edits {
        let span = range_by(
            alloc,
            source,
            edition,
            edit.index,
            &edit.edit,
            &entry_places,
        )?;
        if span.start < draft.end {
            return Err(EditFault::Overlap);
        }
        let cuts = source.is_char_boundary(span.start) && source.is_char_boundary(span.end);
        if !cuts {
            // entries and values begin and end between characters
            return Err(EditFault::Memory);
        }
        add_edit(alloc, source, &mut draft, span, &edit.edit)?;
    }
    draft.text.push_str(&source[draft.end..])?;
    Ok(draft)
}
