//! Tokens as the protocol counts them.

use crate::documents::positions::{Position, Positions, START};
use crate::requests::token::{Token, TokenKind};
use std::alloc::{AllocError, Global};

/// A token where the protocol has it: in one line.
#[derive(Clone, Copy)]
pub struct SemanticToken {
    pub start: Position,
    /// How many UTF-16 units it has.
    pub length: usize,
    pub kind: TokenKind,
}

/// The highlights of the tokens of a text, in order. An empty token has none, nor has one with a lone CR in it: that
/// ends a line in the protocol, and none in Fluent. `AllocError` where a growth was refused.
pub fn semantic_tokens_of(
    alloc: Global,
    text: &str,
    tokens: &[Token],
) -> Result<Vec<SemanticToken>, AllocError> {
    let mut positions = Positions::new(text);
    let mut list = Vec::new(alloc);
    for token in tokens {
        match semantic_token_of(&mut positions, *token) {
            Some(highlight) => list.push(highlight)?,
            None => {}
        }
    }
    Ok(list)
}

fn semantic_token_of(positions: &mut Positions<'_>, token: Token) -> Option<SemanticToken> {
    let range = positions.range(token.with_mark());
    if range.start.line == range.end.line && range.start.character < range.end.character {
        Some(SemanticToken {
            start: range.start,
            length: range.end.character - range.start.character,
            kind: token.kind,
        })
    } else {
        None
    }
}

/// Five numbers for each highlight, as the protocol wants them: the lines and columns from the one before it, its
/// length, its type and its modifiers. `AllocError` where a growth was refused.
pub fn encoded_tokens(
    alloc: Global,
    highlights: &[SemanticToken],
) -> Result<Vec<usize>, AllocError> {
    let mut list = Vec::new(alloc);
    let mut before = START;
    for highlight in highlights {
        add_row(&mut list, before, *highlight)?;
        before = highlight.start;
    }
    Ok(list)
}

/// Adds the numbers of a highlight after one that begins at `before`.
fn add_row(
    list: &mut Vec<usize>,
    before: Position,
    highlight: SemanticToken,
) -> Result<(), AllocError> {
    list.push(highlight.start.line.saturating_sub(before.line))?;
    list.push(columns_between(before, highlight.start))?;
    list.push(highlight.length)?;
    list.push(type_number(highlight.kind))?;
    list.push(modifier_bits(highlight.kind))?;
    Ok(())
}

/// The column of a place, from that of one before it where they are in the same line.
fn columns_between(before: Position, position: Position) -> usize {
    if before.line == position.line {
        position.character.saturating_sub(before.character)
    } else {
        position.character
    }
}

/// The number of its type in the legend.
fn type_number(kind: TokenKind) -> usize {
    match kind {
        TokenKind::Message | TokenKind::MessageReference => 0,
        TokenKind::Attribute | TokenKind::AttributeReference => 0,
        TokenKind::Term | TokenKind::TermReference => 1,
        TokenKind::Variable => 2,
        TokenKind::Function => 3,
        TokenKind::ArgumentName => 4,
        TokenKind::StringLiteral => 5,
        TokenKind::NumberLiteral => 6,
        TokenKind::VariantKey => 7,
        TokenKind::Comment => 8,
    }
}

/// Its modifiers: the one of the legend where an entry defines it.
fn modifier_bits(kind: TokenKind) -> usize {
    if kind.defines() { 1 } else { 0 }
}
