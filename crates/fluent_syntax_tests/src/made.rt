//! Parts of trees that are made by hand, and trees of texts.

use fluent_syntax::ast::*;
use fluent_syntax::parser::{ParseFault, parse};
use std::alloc::{AllocError, Global};
use std::test::Fail;

pub type Text = &'static str;

pub type Made<T> = Result<T, AllocError>;

fn id(name: Text) -> Identifier<Text> {
    Identifier { name }
}

fn variable(name: Text) -> InlineExpression<Text> {
    InlineExpression::VariableReference { id: id(name) }
}

fn reference(name: Text) -> InlineExpression<Text> {
    InlineExpression::MessageReference {
        id: id(name),
        attribute: None,
    }
}

/// A placeable of the variable after a `$`, or of the message after an `@`; or a text.
fn element(text: Text) -> PatternElement<Text> {
    let inline = if let Some(name) = text.strip_prefix('$') {
        variable(name)
    } else if let Some(name) = text.strip_prefix('@') {
        reference(name)
    } else {
        return PatternElement::TextElement { value: text };
    };
    PatternElement::Placeable {
        expression: Expression::Inline(inline),
    }
}

pub fn pattern(alloc: Global, texts: &[Text]) -> Made<Pattern<Text>> {
    let mut elements = Vec::new(alloc);
    for text in texts {
        elements.push(element(*text))?;
    }
    Ok(Pattern { elements })
}

/// A message that has just a value of these elements.
pub fn message_with_value(alloc: Global, name: Text, texts: &[Text]) -> Made<Entry<Text>> {
    Ok(Entry::Message(Message {
        id: id(name),
        value: Some(pattern(alloc, texts)?),
        attributes: Vec::new(alloc),
        comment: None,
    }))
}

pub fn comment(alloc: Global, lines: &[Text]) -> Made<Comment<Text>> {
    Ok(Comment {
        content: Vec::from_slice(alloc, lines)?,
    })
}

/// The tree of a text, whether it has errors or not.
pub fn lent_tree(alloc: Global, text: Text) -> Made<Resource<Text>> {
    match parse(alloc, text) {
        Ok(tree) => Ok(tree),
        Err(ParseFault::Syntax(tree, _errors)) => Ok(tree),
        Err(ParseFault::Memory) => Err(AllocError),
    }
}

/// The same, over texts of its own.
pub fn owned_tree(alloc: Global, text: &str) -> Made<Resource<String>> {
    match parse(alloc, String::from_str(alloc, text)?) {
        Ok(tree) => Ok(tree),
        Err(ParseFault::Syntax(tree, _errors)) => Ok(tree),
        Err(ParseFault::Memory) => Err(AllocError),
    }
}

/// The tree of a text without errors.
pub fn lent_tree_without_errors(alloc: Global, text: Text) -> Result<Resource<Text>, Fail> {
    match parse(alloc, text) {
        Ok(tree) => Ok(tree),
        Err(_) => Err("a text without errors was refused".into()),
    }
}

/// The same, over texts of its own.
pub fn owned_tree_without_errors(alloc: Global, text: &str) -> Result<Resource<String>, Fail> {
    match parse(alloc, String::from_str(alloc, text)?) {
        Ok(tree) => Ok(tree),
        Err(_) => Err("a text without errors was refused".into()),
    }
}
