//! What of a document can be folded.

use crate::documents::Document;
use crate::documents::entry_ranges::{entry_range_of, own_start_of};
use crate::documents::positions::Positions;
use crate::requests::nesting::placeables_in;
use crate::requests::symbols::group_title;
use fluent_syntax::ast::{Comment, Entry};
use fluent_syntax::spans::Span;
use std::alloc::{AllocError, Global};

/// What is folded.
#[derive(Clone, Copy, PartialEq, Eq)]
pub enum FoldKind {
    Comment,
    /// The entries after a comment of a group.
    Group,
    Entry,
    Placeable,
}

/// Lines that can be folded, both from 0.
#[derive(Clone, Copy)]
pub struct FoldingRange {
    pub kind: FoldKind,
    pub first: usize,
    pub last: usize,
}

/// Adds a fold, if it has several lines.
fn add_fold(
    found: &mut Vec<FoldingRange>,
    kind: FoldKind,
    first: usize,
    last: usize,
) -> Result<(), AllocError> {
    if first < last {
        found.push(FoldingRange { kind, first, last })?;
    }
    Ok(())
}

/// The comments and entries of several lines, and the placeables in these; and from each comment of a group on what
/// comes before the next one; an empty one only ends a group. No entry and no group begins with the line of another
/// fold.
pub fn folding_ranges_in(
    alloc: Global,
    document: &Document,
) -> Result<Vec<FoldingRange>, AllocError> {
    let (text, body) = (document.text(), document.body());
    let mut found = Vec::new(alloc);
    let mut positions = Positions::new(text);
    let mut group = None;
    let mut last = 0;
    for (number, entry) in body.iter().enumerate() {
        if let (Entry::GroupComment(_), Some(first)) = (entry, group) {
            add_fold(&mut found, FoldKind::Group, first, last)?;
        }
        if let Some(comment) = comment_of(entry) {
            last = add_comment(&mut found, &mut positions, comment)?;
        }
        if let Entry::GroupComment(comment) = entry {
            group = match group_title(comment) {
                Some(_) => Some(last),
                None => None,
            };
        }
        if let (Some(start), Some(whole)) = (
            own_start_of(entry),
            entry_range_of(text, body, number),
        ) {
            let own = Span {
                start,
                end: whole.end,
            };
            last = add_entry(alloc, &mut found, &mut positions, text, own)?;
        }
    }
    if let Some(first) = group {
        add_fold(&mut found, FoldKind::Group, first, last)?;
    }
    Ok(found)
}

/// The comment that an entry is, or that is attached to it.
fn comment_of(entry: &Entry<Span>) -> Option<&Comment<Span>> {
    match entry {
        Entry::Comment(comment) | Entry::GroupComment(comment) | Entry::ResourceComment(comment) =>
            Some(comment),
        Entry::Message(message) => message.comment.as_ref(),
        Entry::Term(term) => term.comment.as_ref(),
        Entry::Junk { content: _ } => None,
    }
}

/// Adds the fold of a comment. Gives its last line.
fn add_comment(
    found: &mut Vec<FoldingRange>,
    positions: &mut Positions<'_>,
    comment: &Comment<Span>,
) -> Result<usize, AllocError> {
    let (Some(first), Some(last)) = (comment.content.first(), comment.content.last()) else {
        return Ok(0);
    };
    let first = positions.position_or_end(first.start).line;
    let last = positions.position_or_end(last.start).line;
    add_fold(found, FoldKind::Comment, first, last)?;
    Ok(last)
}

/// Adds the fold of a message or term without its comment, and those of the placeables in it that begin in other lines.
/// Gives its last line.
fn add_entry(
    alloc: Global,
    found: &mut Vec<FoldingRange>,
    positions: &mut Positions<'_>,
    text: &str,
    own: Span,
) -> Result<usize, AllocError> {
    let begin = positions.position_or_end(own.start).line;
    for placeable in &placeables_in(alloc, text.as_bytes(), own)? {
        let first = positions.position_or_end(placeable.start).line;
        let last = positions.position_or_end(placeable.end).line;
        if first > begin {
            add_fold(found, FoldKind::Placeable, first, last.saturating_sub(1))?;
        }
    }
    let end = positions.position_or_end(own.end).line;
    add_fold(found, FoldKind::Entry, begin, end)?;
    Ok(end)
}
