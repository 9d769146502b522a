//! The messages and terms of a document, with their attributes, and its groups.

use crate::documents::Document;
use crate::documents::entry_ranges::{entry_range_of, trimmed_end};
use fluent_syntax::ast::{Attribute, Comment, Entry};
use fluent_syntax::spans::Span;
use std::alloc::{AllocError, Global};

/// What a symbol is of.
#[derive(Clone, Copy)]
pub enum SymbolKind {
    Message,
    Term,
    Attribute,
    /// The entries after a comment of a group.
    Group,
}

/// A message or a term of a document, with its attributes, or a group.
#[derive(Drop)]
pub struct Symbol {
    pub kind: SymbolKind,
    /// The entry with its comment, without blanks after it; a group with all that is in it.
    pub whole: Span,
    /// With the `-` of a term; of a group the first line of its comment that isn't empty.
    pub name: Span,
    pub attributes: Vec<Span>,
    /// How many of the symbols after a group are in it.
    pub members: usize,
}

impl Symbol {
    /// Where its name is with its value, and then where each attribute is, from its `.` on. `AllocError` where a growth
    /// was refused.
    pub fn parts(&self, alloc: Global, text: &str) -> Result<Vec<Span>, AllocError> {
        let mut parts = Vec::new(alloc);
        let mut start = self.name.start;
        for attribute in &self.attributes {
            let next = attribute.start.saturating_sub(1);
            let end = trimmed_end(text.as_bytes(), next);
            parts.push(Span { start, end })?;
            start = next;
        }
        let end = self.whole.end;
        parts.push(Span { start, end })?;
        Ok(parts)
    }
}

/// The symbols of a document, in order; with its groups, each before what is in it, if it is to be `grouped`. None of
/// one that nests deeper than `NESTING_LIMIT`.
pub fn symbols_in(
    alloc: Global,
    document: &Document,
    grouped: bool,
) -> Result<Vec<Symbol>, AllocError> {
    let (text, body) = (document.text(), document.body());
    let mut found = Vec::new(alloc);
    let mut group = None;
    for (number, entry) in body.iter().enumerate() {
        let Some(whole) = entry_range_of(text, body, number) else {
            continue;
        };
        if let (true, Entry::GroupComment(comment)) = (grouped, entry) {
            group = add_group(alloc, &mut found, comment, whole)?;
        }
        if let Some(symbol) = symbol_of(alloc, entry, whole)? {
            extend_group(&mut found, group, whole.end);
            found.push(symbol)?;
        }
    }
    Ok(found)
}

/// The first line of a group's comment that isn't empty. None where all are: such a comment ends a group.
pub fn group_title(comment: &Comment<Span>) -> Option<Span> {
    comment
        .content
        .iter()
        .find(|line| line.start < line.end)
        .copied()
}

/// Adds the group that the comment begins, and gives its number. None where it begins none.
fn add_group(
    alloc: Global,
    found: &mut Vec<Symbol>,
    comment: &Comment<Span>,
    whole: Span,
) -> Result<Option<usize>, AllocError> {
    let Some(name) = group_title(comment) else {
        return Ok(None);
    };
    let number = found.len();
    found.push(Symbol {
        kind: SymbolKind::Group,
        whole,
        name,
        attributes: Vec::new(alloc),
        members: 0,
    })?;
    Ok(Some(number))
}

/// Lets the group of the number, if there is one, go on to the end of a symbol more.
fn extend_group(found: &mut Vec<Symbol>, group: Option<usize>, end: usize) {
    let Some(number) = group else {
        return;
    };
    if let Some(symbol) = found.get_mut(number) {
        symbol.whole.end = end;
        symbol.members = symbol.members.saturating_add(1);
    }
}

/// The symbol of an entry. None of comments and junk. `AllocError` where a growth was refused.
pub fn symbol_of(
    alloc: Global,
    entry: &Entry<Span>,
    whole: Span,
) -> Result<Option<Symbol>, AllocError> {
    let (kind, name, attributes) = match entry {
        Entry::Message(message) => (SymbolKind::Message, message.id.name, &message.attributes),
        Entry::Term(term) => {
            let Span { start, end } = term.id.name;
            let start = start.saturating_sub(1);
            (SymbolKind::Term, Span { start, end }, &term.attributes)
        }
        _ => return Ok(None),
    };
    Ok(Some(Symbol {
        kind,
        whole,
        name,
        attributes: names_of(alloc, attributes)?,
        members: 0,
    }))
}

/// The names of attributes.
fn names_of(alloc: Global, attributes: &[Attribute<Span>]) -> Result<Vec<Span>, AllocError> {
    let mut names = Vec::new(alloc);
    for attribute in attributes {
        names.push(attribute.id.name)?;
    }
    Ok(names)
}
