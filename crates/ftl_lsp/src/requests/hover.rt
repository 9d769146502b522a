//! What is shown of a name: the entries that define it, as they are in the text, or who uses it.

use crate::documents::index::IndexedDocument;
use crate::documents::occurrences::{Name, NameKind, name_of};
use crate::requests::request_context::RequestContext;
use serde_json::{Value, json};
use std::alloc::{AllocError, Global};

/// How many of those that use a variable or a function are named.
const USERS_SHOWN: usize = 20;

/// The entries of a file that define a name, with their comments.
#[derive(Drop)]
struct Quote<'d> {
    /// The path of the file, as it is shown.
    path: &'d str,
    is_reference: bool,
    entries: Vec<String>,
}

/// The entries that define the name at the place: those of the documents and files that are nearest, and then those of
/// the original. Of a variable or a function, which entries of the set use it. Null where there are none. As Markdown,
/// if it is to be that. `AllocError` where a growth was refused.
pub fn hover(
    alloc: Global,
    context: &RequestContext<'_>,
    markdown: bool,
) -> Result<Value, AllocError> {
    let Some(name) = context.name() else {
        return Ok(Value::Null);
    };
    let shown = match name.kind {
        NameKind::Variable | NameKind::Function => users_text(alloc, context, name, markdown)?,
        NameKind::Message | NameKind::Term => {
            let quotes = quotes_of(alloc, context, name)?;
            if quotes.is_empty() {
                return Ok(Value::Null);
            }
            if markdown {
                markdown_of(alloc, &quotes)?
            } else {
                text_of(alloc, &quotes)?
            }
        }
    };
    let kind = if markdown { "markdown" } else { "plaintext" };
    json!(in alloc; {"contents": {"kind": kind, "value": (shown.as_str())}})
}

/// What a variable or a function is, and the entries of the set that use it, each once in a row.
fn users_text(
    alloc: Global,
    context: &RequestContext<'_>,
    name: Name<'_>,
    markdown: bool,
) -> Result<String, AllocError> {
    let mark = if markdown { "`" } else { "" };
    let (sign, sort) = match (name.kind, name.name) {
        (NameKind::Variable, _) => ("$", "a variable"),
        (_, "NUMBER") => (
            "",
            "a function of Fluent, which writes a number as the language does",
        ),
        (_, "DATETIME") => (
            "",
            "a function of Fluent, which writes a date or a time as the language does",
        ),
        _ => ("", "a function of the program"),
    };
    let own = name.name;
    let mut text = format!(in alloc; "{mark}{sign}{own}{mark} is {sort}. It is used by")?;
    let mut count: usize = 0;
    for document in &context.documents {
        let mut user = None;
        for occurrence in document.occurrences() {
            let found = name_of(document.text, *occurrence);
            if occurrence.defines && found.attribute.is_none() {
                user = Some(found);
            } else if let (true, Some(entry)) = (found == name, user) {
                push_user(&mut text, entry, count, mark)?;
                count = count.saturating_add(1);
                user = None;
            }
        }
    }
    Ok(text)
}

/// Adds an entry that uses something, after so many others.
fn push_user(
    text: &mut String,
    entry: Name<'_>,
    count: usize,
    mark: &str,
) -> Result<(), AllocError> {
    if count > USERS_SHOWN {
        return Ok(());
    }
    if count == USERS_SHOWN {
        return text.push_str(" and more");
    }
    text.push_str(if count == 0 { " " } else { ", " })?;
    text.push_str(mark)?;
    if entry.kind == NameKind::Term {
        text.push_str("-")?;
    }
    text.push_str(entry.name)?;
    text.push_str(mark)
}

/// The same as Markdown: a line before the entries of each file says whose they are. No text is read as Markdown.
fn markdown_of(alloc: Global, quotes: &[Quote<'_>]) -> Result<String, AllocError> {
    let mut text = String::new(alloc);
    for quote in quotes {
        if !text.is_empty() {
            text.push_str("\n\n")?;
        }
        if quote.is_reference {
            text.push_str("the reference, ")?;
        }
        push_fenced(&mut text, quote.path, 1)?;
        text.push_str(":")?;
        for entry in &quote.entries {
            text.push_str("\n\n")?;
            push_fenced(&mut text, entry.as_str(), 3)?;
        }
    }
    Ok(text)
}

/// Adds a text between more backticks than it has in a row, at least so many; from 3 on on lines of its own.
fn push_fenced(text: &mut String, inner: &str, least: usize) -> Result<(), AllocError> {
    let mut longest: usize = 0;
    let mut row: usize = 0;
    for byte in inner.bytes() {
        row = if byte == b'`' {
            row.saturating_add(1)
        } else {
            0
        };
        longest = row.max(longest);
    }
    let fence = least.max(longest.saturating_add(1));
    push_backticks(text, fence)?;
    if least > 1 {
        text.push_str("fluent\n")?;
    }
    text.push_str(inner)?;
    if least > 1 {
        text.push_str("\n")?;
    }
    push_backticks(text, fence)
}

fn push_backticks(text: &mut String, count: usize) -> Result<(), AllocError> {
    for _ in 0..count {
        text.push('`')?;
    }
    Ok(())
}

/// What each of the files has that defines the name.
fn quotes_of<'c>(
    alloc: Global,
    context: &'c RequestContext<'_>,
    name: Name<'_>,
) -> Result<Vec<Quote<'c>>, AllocError> {
    let mut quotes = Vec::new(alloc);
    for number in context.nearest(alloc, name)?.iter() {
        if let Some(document) = context.documents.get(*number) {
            if !is_original(context, document) {
                add_quote(alloc, &mut quotes, context, document, name)?;
            }
        }
    }
    if let Some(original) = &context.original {
        add_quote(alloc, &mut quotes, context, original, name)?;
    }
    Ok(quotes)
}

/// Whether the document that is named is to be a translation of this one.
fn is_original(context: &RequestContext<'_>, document: &IndexedDocument<'_>) -> bool {
    match &context.original {
        Some(original) => original.path == document.path,
        None => false,
    }
}

/// Adds what the document or file has that defines the name, if it has something.
fn add_quote<'c>(
    alloc: Global,
    quotes: &mut Vec<Quote<'c>>,
    context: &'c RequestContext<'_>,
    document: &'c IndexedDocument<'_>,
    name: Name<'_>,
) -> Result<(), AllocError> {
    let entries = document.definitions_of(alloc, name)?;
    if !entries.is_empty() {
        quotes.push(Quote {
            path: context.workspace.display_path(document.path),
            is_reference: is_original(context, document),
            entries,
        })?;
    }
    Ok(())
}

/// The entries, one below the other. If they are of several files, or of the reference, a line before those of each
/// file says whose they are.
fn text_of(alloc: Global, quotes: &[Quote<'_>]) -> Result<String, AllocError> {
    let mut text = String::new(alloc);
    let is_labelled = quotes.len() > 1 || quotes.iter().any(|quote| quote.is_reference);
    for quote in quotes {
        if is_labelled {
            push_label(&mut text, quote)?;
        }
        for entry in &quote.entries {
            push_line(&mut text, entry.as_str())?;
        }
    }
    Ok(text)
}

/// Adds whose the entries are, after an empty line if it isn't the first line.
fn push_label(text: &mut String, quote: &Quote<'_>) -> Result<(), AllocError> {
    if !text.is_empty() {
        text.push('\n')?;
    }
    let before = if quote.is_reference {
        "the reference, "
    } else {
        ""
    };
    push_line(text, before)?;
    text.push_str(quote.path)?;
    text.push(':')?;
    Ok(())
}

/// Adds a line, or the beginning of one.
fn push_line(text: &mut String, line: &str) -> Result<(), AllocError> {
    if !text.is_empty() {
        text.push('\n')?;
    }
    text.push_str(line)?;
    Ok(())
}
