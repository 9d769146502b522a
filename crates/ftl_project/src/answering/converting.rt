//! Trees as JSON are written as their texts, on standard output.
ghost use Rattle.std.specs.Prelude.{◌≡◌, IfErr, IfOk, false, string_bytes};
ghost use Rattle.fluent_syntax_tree.specs.View.{resource_view};
ghost use Rattle.ftl.specs.FromJson.{IsSpelled};
ghost use Rattle.ftl_project.specs.Answered.{IsConverted};
ghost use Rattle.ftl_project.specs.Faults.{IsMisspelled};

use crate::answering::split_lines::with_split_lines;
use crate::answering::{Answer, FileTask};
use crate::fault::Fault;
use crate::streams::note_line;
use fluent_syntax::ast::{Entry, Resource};
use fluent_syntax::laws::Uncanonical;
use fluent_syntax::parser::Edition;
use fluent_syntax::serializer::{Options, serialize_with_options};
use fluent_syntax_json::{from_value, to_value};
use ftl::{JsonFault, first_lossy_entry, tree_of_json};
use std::alloc::{AllocError, Global};

/// Writes the text of the tree that each file spells as JSON. A tree that would not read back is written, and reported
/// as a problem. A file that spells none is reported.
#[derive(Clone, Copy)]
pub struct ConvertTask {
    /// Whether junk is written too. Else it is left out, and reported.
    pub with_junk: bool,
    /// Whether a text of several lines, in a pattern or a comment, is written as one for each line.
    pub splits_lines: bool,
}

impl FileTask for ConvertTask {
    ghost answers = { λ task. IsConverted task.with_junk task.splits_lines };

    ghost refuses = { λ _. IsMisspelled };

    fn answer(&self, alloc: Global, path: &str, text: String) -> Result<Answer, Fault> {
        let tree = self.tree_of(alloc, text.as_str())?;
        let options = Options {
            with_junk: self.with_junk,
        };
        let broken = first_lossy_entry(alloc, &tree, Edition::One)?;
        let mut note = lossy_entry_note(alloc, path, &broken)?;
        if !self.with_junk {
            note.push_str(junk_note(alloc, path, &tree)?.as_str())?;
        }
        Ok(Answer {
            errors: 0,
            has_problems: broken.is_some(),
            text: serialize_with_options(alloc, &tree, options)?,
            note,
        })
    }
}

impl ConvertTask {
    /// The tree that is written.
    fn tree_of(&self, alloc: Global, json: &str) -> Result<Resource<String>, Fault>
        ensures spelled { self.now.splits_lines ≡ false →
            IfOk result (λ tree. IsSpelled json.now (resource_view string_bytes tree)) }
        ensures fault { IfErr result (IsMisspelled json.now) }
    {
        let tree = match tree_of_json(alloc, json) {
            Ok(tree) => tree,
            Err(JsonFault::Memory) => return Err(Fault::Memory),
            Err(fault) => return Err(Fault::Json(fault)),
        };
        if !self.splits_lines {
            return Ok(tree);
        }
        let form = with_split_lines(alloc, &to_value(alloc, &tree)?)?;
        // it is a tree's form still
        from_value(alloc, &form).map_err(|_| Fault::Memory)
    }
}

/// What is reported of junk that is not written: how much there is.
fn junk_note(alloc: Global, path: &str, tree: &Resource<String>) -> Result<String, AllocError> {
    let junk = tree
        .body
        .iter()
        .filter(|entry| matches!(entry, Entry::Junk { .. }))
        .count();
    let left_out = match junk {
        0 => return Ok(String::new(alloc)),
        1 => String::from_str(alloc, "1 entry is junk, which is left out")?,
        _ => format!(in alloc; "{junk} entries are junk, which is left out")?,
    };
    note_line(alloc, path, &left_out)
}

/// What is reported of a tree whose text would not read back: by which entry, counted from 1.
fn lossy_entry_note(
    alloc: Global,
    path: &str,
    broken: &Option<Uncanonical>,
) -> Result<String, AllocError> {
    let Some(Uncanonical { entry, rule }) = broken else {
        return Ok(String::new(alloc));
    };
    let number = entry.saturating_add(1);
    let note = format!(in alloc; "entry {number} would not read back: {rule}")?;
    note_line(alloc, path, &note)
}
