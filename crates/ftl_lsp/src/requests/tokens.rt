//! The tokens of the entries of a text.

use crate::requests::token::{Token, TokenKind};
use crate::requests::token_patterns::{add_pattern, add_token};
use fluent_syntax::ast::*;
use fluent_syntax::spans::Span;
use std::alloc::{AllocError, Global};

/// The tokens of the entries, in order. `AllocError` where a growth was refused.
pub fn tokens_of(alloc: Global, body: &[Entry<Span>]) -> Result<Vec<Token>, AllocError> {
    let mut list = Vec::new(alloc);
    for entry in body {
        add_entry(&mut list, entry)?;
    }
    Ok(list)
}

fn add_entry(list: &mut Vec<Token>, entry: &Entry<Span>) -> Result<(), AllocError> {
    match entry {
        Entry::Message(message) => {
            add_attached(list, &message.comment)?;
            add_token(list, TokenKind::Message, message.id.name)?;
            if let Some(pattern) = &message.value {
                add_pattern(list, pattern)?;
            }
            add_attributes(list, &message.attributes)
        }
        Entry::Term(term) => {
            add_attached(list, &term.comment)?;
            add_token(list, TokenKind::Term, term.id.name)?;
            add_pattern(list, &term.value)?;
            add_attributes(list, &term.attributes)
        }
        Entry::Comment(comment) | Entry::GroupComment(comment) | Entry::ResourceComment(comment) =>
            add_comment(list, comment),
        Entry::Junk { .. } => Ok(()),
    }
}

/// Adds the comment that is attached to an entry, if there is one.
fn add_attached(list: &mut Vec<Token>, comment: &Option<Comment<Span>>) -> Result<(), AllocError> {
    match comment {
        Some(comment) => add_comment(list, comment),
        None => Ok(()),
    }
}

fn add_comment(list: &mut Vec<Token>, comment: &Comment<Span>) -> Result<(), AllocError> {
    for line in &comment.content {
        add_token(list, TokenKind::Comment, *line)?;
    }
    Ok(())
}

fn add_attributes(list: &mut Vec<Token>, attributes: &[Attribute<Span>]) -> Result<(), AllocError> {
    for attribute in attributes {
        add_token(list, TokenKind::Attribute, attribute.id.name)?;
        add_pattern(list, &attribute.value)?;
    }
    Ok(())
}
