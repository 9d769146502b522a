//! Edits of texts, and the texts that they give.

use crate::tables::no_row;
use fluent_syntax::ast::{Entry, Pattern, Resource};
use fluent_syntax::parser::{Edition, parse, recovered};
use fluent_syntax_edits::{EditFault, insert, remove, replace, set_attribute, set_value};
use std::alloc::{AllocError, Global};

/// The text with the edit made, or why it isn't. The call is made of the entry of that number, and of the attribute of
/// the second number; what is new is the first entry of a text, or the value of this entry.
pub(crate) fn answer(alloc: Global, fields: &[String]) -> anyhow::Result<String> {
    let [_, text, call, index, attribute, new, _] = fields else {
        return no_row(alloc);
    };
    let (Ok(index), Ok(attribute)) = (index.parse::<usize>(), attribute.parse::<usize>()) else {
        return no_row(alloc);
    };
    let tree = tree_of(alloc, new.as_str())?;
    match made(alloc, text.as_str(), call.as_str(), index, attribute, &tree) {
        Some(Ok(made)) => Ok(made),
        Some(Err(fault)) => Ok(format!(in alloc; "{fault:?}")?),
        None => no_row(alloc),
    }
}

/// The tree that a text is read as, with its errors left out.
pub(crate) fn tree_of(alloc: Global, text: &str) -> Result<Resource<&str>, AllocError> {
    let (tree, _errors) = recovered(alloc, parse(alloc, text))?;
    Ok(tree)
}

/// The edit by the call's name; none where there is no such call, and where there is nothing new for it.
pub(crate) fn made(
    alloc: Global,
    text: &str,
    call: &str,
    index: usize,
    attribute: usize,
    new: &Resource<&str>,
) -> Option<Result<String, EditFault>> {
    let edition = Edition::One;
    if call == "remove" {
        return Some(remove(alloc, text, edition, index));
    }
    let entry = new.body.first()?;
    match call {
        "replace" => Some(replace(alloc, text, edition, index, entry)),
        "insert" => Some(insert(alloc, text, edition, index, entry)),
        "set_value" => Some(set_value(alloc, text, edition, index, value_of(entry)?)),
        "set_attribute" => Some(set_attribute(
            alloc,
            text,
            edition,
            index,
            attribute,
            value_of(entry)?,
        )),
        _ => None,
    }
}

fn value_of<'t, 's>(entry: &'t Entry<&'s str>) -> Option<&'t Pattern<&'s str>> {
    match entry {
        Entry::Message(message) => message.value.as_ref(),
        _ => None,
    }
}
