//! Copies of trees and of errors.

use crate::refusals::tally::Tally;
use crate::refusals::turns::{nothing, over, refuse_each_request};
use fluent_syntax::ast::Resource;
use fluent_syntax::parser::{ParserError, parse, recovered};
use std::alloc::{AllocError, Global};
use std::io;

pub(crate) fn calls<R: Print + AllocGlobal>(rt: &R, texts: &[&str]) -> io::Result<Tally> {
    let lent = over(rt, "try_clone of trees of lent texts", texts, copy_borrowed)?;
    let owned = over(rt, "try_clone of trees of owned texts", texts, copy_owned)?;
    let errors = over(rt, "try_clone of errors", texts, copies_of_errors)?;
    Ok(lent.and(owned).and(errors))
}

/// The tree of a text, and its errors.
pub(crate) fn borrowed_tree(
    alloc: Global,
    text: &str,
) -> Result<(Resource<&str>, Vec<ParserError>), AllocError> {
    recovered(alloc, parse(alloc, text))
}

/// The tree of a text over `String`.
pub(crate) fn owned_tree(alloc: Global, text: &str) -> Result<Resource<String>, AllocError> {
    let source = String::from_str(alloc, text)?;
    let (tree, _errors) = recovered(alloc, parse(alloc, source))?;
    Ok(tree)
}

/// Copies of the text's tree of lent texts.
fn copy_borrowed(alloc: Global, text: &str) -> Result<Tally, AllocError> {
    let (tree, _errors) = borrowed_tree(alloc, text)?;
    refuse_each_request(alloc, nothing, |_| tree.try_clone(alloc))
}

/// Copies of the text's tree of owned texts.
fn copy_owned(alloc: Global, text: &str) -> Result<Tally, AllocError> {
    let tree = owned_tree(alloc, text)?;
    refuse_each_request(alloc, nothing, |_| tree.try_clone(alloc))
}

/// Copies of the text's errors.
fn copies_of_errors(alloc: Global, text: &str) -> Result<Tally, AllocError> {
    let (_tree, errors) = borrowed_tree(alloc, text)?;
    let mut total = Tally::NONE;
    for error in &errors {
        total = total.and(refuse_each_request(alloc, nothing, |_| error.try_clone(alloc))?);
    }
    Ok(total)
}
