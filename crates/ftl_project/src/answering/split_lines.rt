//! Texts of several lines in a tree as JSON.

use serde_json::{Value, json};
use std::alloc::{AllocError, Global};
use std::collections::BTreeMap;

/// The form of a tree, with one text for each line of a text in a pattern or a comment.
#[cycle(split)]
pub(crate) fn with_split_lines(alloc: Global, value: &Value) -> Result<Value, AllocError> {
    match value {
        Value::Array(items) => Ok(Value::Array(split_items(alloc, items)?)),
        Value::Object(members) => {
            let mut split = BTreeMap::new(alloc);
            for (name, member) in members.iter() {
                let member = with_split_lines(alloc, member)?;
                drop(split.insert(String::from_str(alloc, name.as_str())?, member)?);
            }
            Ok(Value::Object(split))
        }
        other => other.clone(),
    }
}

#[cycle(split)]
fn split_items(alloc: Global, items: &Vec<Value>) -> Result<Vec<Value>, AllocError> {
    let mut split = Vec::new(alloc);
    for item in items {
        match (item, text_of_element(item)) {
            (Value::String(line), _) => push_comment_lines(alloc, &mut split, line.as_str())?,
            (_, Some(text)) => push_lines(alloc, &mut split, text)?,
            _ => split.push(with_split_lines(alloc, item)?)?,
        }
    }
    Ok(split)
}

/// The text of a text element.
fn text_of_element(value: &Value) -> Option<&str> {
    match value.get("type")?.as_str()? {
        "TextElement" => value.get("value")?.as_str(),
        _ => None,
    }
}

/// Adds a text element for each line of the text.
fn push_lines(alloc: Global, elements: &mut Vec<Value>, text: &str) -> Result<(), AllocError> {
    for line in text.split_inclusive('\n') {
        elements.push(json!(in alloc; {"type": "TextElement", "value": line})?)?;
    }
    Ok(())
}

/// Adds each line of a comment's text. Only comments have texts in lists.
fn push_comment_lines(alloc: Global, lines: &mut Vec<Value>, text: &str) -> Result<(), AllocError> {
    for line in text.split('\n') {
        lines.push(json!(in alloc; line)?)?;
    }
    Ok(())
}
