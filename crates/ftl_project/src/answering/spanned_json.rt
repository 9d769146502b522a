//! Trees as JSON with their places, on standard output.
ghost use Rattle.ftl_project.specs.Answered.{IsOfNoError};
ghost use Rattle.ftl_project.specs.Faults.{IsUnplaced};

use crate::answering::element_spans::{put_entry_spans, put_member, put_span};
use crate::answering::printing::outcome_note;
use crate::answering::{Answer, FileTask};
use crate::fault::Fault;
use fluent_syntax::ast::{Entry, Resource};
use fluent_syntax::parser::{Edition, ParserError};
use fluent_syntax::spans::{Comments, Entries, Halt, Options, Span, resolve_entry};
use fluent_syntax_json::to_value;
use ftl::Outcome;
use serde_json::{Value, json};
use std::alloc::{AllocError, Global};

/// Writes the tree of each file as JSON with the file's path: each entry and each element of a pattern has its `span`,
/// where it begins and ends in bytes, and junk its error. A file that has errors is reported.
#[derive(Clone, Copy)]
pub struct SpannedJsonTask {
    /// How deep placeables and argument lists may nest.
    pub nesting: usize,
}

impl FileTask for SpannedJsonTask {
    ghost answers = { λ _. IsOfNoError };

    ghost refuses = { λ _. IsUnplaced };

    fn answer(&self, alloc: Global, path: &str, text: String) -> Result<Answer, Fault> {
        let (body, outcome) = match spanned_entries(alloc, &text, self.nesting) {
            Ok(read) => read,
            Err(Halt::Memory) => return Err(Fault::Memory),
            Err(Halt::TooDeep) => return Err(Fault::TooDeep),
        };
        let tree = json!(in alloc; {"path": path, "body": (Value::Array(body))})?;
        let mut line = tree.to_string(alloc)?;
        line.push('\n')?;
        Ok(Answer {
            errors: 0,
            has_problems: outcome == Outcome::SyntaxErrors,
            text: line,
            note: outcome_note(alloc, path, text.as_str(), outcome)?,
        })
    }
}

/// The entries of the text as JSON, each with its places, and what was found in it.
fn spanned_entries(
    alloc: Global,
    text: &String,
    nesting: usize,
) -> Result<(Vec<Value>, Outcome), Halt> {
    let options = Options {
        edition: Edition::One,
        comments: Comments::Kept,
        nesting,
    };
    let mut entries = Entries::new(text.as_str(), options);
    let mut outcome = Outcome::Clean;
    let mut body = Vec::new(alloc);
    while let Some((entry, error)) = entries.next_entry(alloc)? {
        let resolved = resolve_entry(alloc, text, &entry)?;
        let mut value = entry_value(alloc, resolved)?;
        put_span(alloc, &mut value, entries.span())?;
        put_entry_spans(alloc, text.as_bytes(), &mut value, &entry)?;
        if let Some(error) = error {
            outcome = Outcome::SyntaxErrors;
            put_error(alloc, &mut value, &error)?;
        }
        body.push(value)?;
    }
    Ok((body, outcome))
}

/// The JSON form of an entry.
fn entry_value(alloc: Global, entry: Entry<String>) -> Result<Value, AllocError> {
    let mut body = Vec::new(alloc);
    body.push(entry)?;
    let mut tree = to_value(alloc, &Resource { body })?;
    match tree.pointer_mut("/body/0") {
        Some(value) => Ok(value.take()),
        None => Ok(Value::Null),
    }
}

/// Adds the error of junk, with its place.
fn put_error(alloc: Global, value: &mut Value, error: &ParserError) -> Result<(), AllocError> {
    let message = format!(in alloc; "{}", error.kind)?;
    let form = json!(in alloc; {
        "kind": (error.kind.name()),
        "start": (error.pos.start as u64),
        "end": (error.pos.end as u64),
        "message": (message.as_str())
    })?;
    put_member(alloc, value, "error", form)
}
