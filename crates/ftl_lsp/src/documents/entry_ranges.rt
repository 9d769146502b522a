//! Where the entries of a document are, with their comments.

use fluent_syntax::ast::{Comment, Entry};
use fluent_syntax::spans::Span;

/// Where the entry begins, with the comment that is attached to it.
fn start_of(text: &str, entry: &Entry<Span>) -> usize {
    match entry {
        Entry::Message(message) => start_with(text, &message.comment, message.id.name.start),
        Entry::Term(term) => start_with(text, &term.comment, term.id.name.start.saturating_sub(1)),
        Entry::Comment(comment) | Entry::GroupComment(comment) | Entry::ResourceComment(comment) =>
            start_of_comment(text, comment),
        Entry::Junk { content } => content.start,
    }
}

/// Where what begins at the place begins with its comment, if it has one.
fn start_with(text: &str, comment: &Option<Comment<Span>>, own: usize) -> usize {
    match comment {
        Some(comment) => start_of_comment(text, comment),
        None => own,
    }
}

/// Where the first line of the comment begins.
fn start_of_comment(text: &str, comment: &Comment<Span>) -> usize {
    match comment.content.first() {
        Some(line) => start_of_line(text.as_bytes(), line.start),
        None => 0,
    }
}

/// Where the line begins in which the byte is.
pub fn start_of_line(text: &[u8], byte: usize) -> usize {
    for at in (0..byte.min(text.len())).rev() {
        if text[at] == b'\n' {
            return at + 1;
        }
    }
    0
}

/// Where what ends at the byte ends without spaces and line ends.
pub fn trimmed_end(text: &[u8], end: usize) -> usize {
    for at in (0..end.min(text.len())).rev() {
        if !matches!(text[at], b' ' | b'\n' | b'\r') {
            return at + 1;
        }
    }
    0
}

/// Where the entry of that number is, with its comment and without blanks after it: nothing else is between it
/// and the next one.
pub fn entry_range_of(text: &str, body: &[Entry<Span>], number: usize) -> Option<Span> {
    let start = start_of(text, body.get(number)?);
    let next = match number.checked_add(1).and_then(|next| body.get(next)) {
        Some(next) => start_of(text, next),
        None => text.len(),
    };
    Some(Span {
        start,
        end: trimmed_end(text.as_bytes(), next),
    })
}

/// Where the message or term begins without its comment. None of others.
pub fn own_start_of(entry: &Entry<Span>) -> Option<usize> {
    match entry {
        Entry::Message(message) => Some(message.id.name.start),
        Entry::Term(term) => Some(term.id.name.start.saturating_sub(1)),
        _ => None,
    }
}

/// The number of the entry that is the last to begin before the byte or there. None where none does.
pub fn entry_number_at(text: &str, body: &[Entry<Span>], byte: usize) -> Option<usize> {
    let beyond = body.partition_point(|entry| start_of(text, entry) <= byte);
    beyond.checked_sub(1)
}

/// Where that entry is. None where there is none.
pub fn entry_range_at(text: &str, body: &[Entry<Span>], byte: usize) -> Option<Span> {
    entry_range_of(text, body, entry_number_at(text, body, byte)?)
}

/// Where the line begins that may begin the entry in which the byte is, as its first byte shows: it is a letter, a `-`
/// or a `#`. So it is also found while the entry is typed.
pub fn entry_line_start(text: &[u8], byte: usize) -> usize {
    for before in (0..byte.min(text.len())).rev() {
        if text[before] == b'\n' && may_begin_entry(text, before + 1) {
            return before + 1;
        }
    }
    0
}

/// Where the first line after the byte begins that may begin an entry, or the text's end.
pub fn next_entry_line_start(text: &[u8], byte: usize) -> usize {
    for before in byte..text.len() {
        if text[before] == b'\n' && may_begin_entry(text, before + 1) {
            return before + 1;
        }
    }
    text.len()
}

/// Whether the byte may begin an entry.
fn may_begin_entry(text: &[u8], at: usize) -> bool {
    text.get(at).is_some_and(|first| first.is_ascii_alphabetic() || matches!(*first, b'-' | b'#'))
}
