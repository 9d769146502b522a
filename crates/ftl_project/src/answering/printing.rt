//! Files are answered on standard output.
ghost use Rattle.std.specs.Prelude.{IfErr, IfOk, string_bytes};
ghost use Rattle.ftl.specs.Answer.{IsAnswer, ReadsDeeper};
ghost use Rattle.ftl_project.specs.Answered.{IsPrinted};
ghost use Rattle.ftl_project.specs.Faults.{IsUnparsed};

use crate::answering::{Answer, FileTask};
use crate::fault::Fault;
use crate::streams::{byte_order_mark_note, note_line};
use ftl::{Command, Outcome, answer_within};
use ftl_files::Form;
use std::alloc::{AllocError, Global};

/// What is written of a file.
#[derive(Drop)]
struct Printed {
    text: String,
    outcome: Outcome,
}

/// Writes the command's text of each file. A file that has errors is reported.
#[derive(Clone, Copy)]
pub struct PrintTask {
    pub command: Command,
    /// How deep placeables and argument lists may nest.
    pub nesting: usize,
}

impl FileTask for PrintTask {
    ghost answers = { λ printing. IsPrinted printing.command };

    ghost refuses = { λ printing text. IsUnparsed (ReadsDeeper printing.command text printing.nesting) };

    fn answer(&self, alloc: Global, path: &str, text: String) -> Result<Answer, Fault> {
        let printed = self.printed(alloc, text.as_str())?;
        let note = outcome_note(alloc, path, text.as_str(), printed.outcome)?;
        Ok(Answer {
            errors: 0,
            has_problems: printed.outcome == Outcome::SyntaxErrors,
            text: printed.text,
            note,
        })
    }
}

impl PrintTask {
    /// The command's text.
    fn printed(&self, alloc: Global, text: &str) -> Result<Printed, Fault>
        ensures printed { IfOk result (λ printed. IsAnswer self.now.command text.now (string_bytes printed.text)
            printed.outcome) }
        ensures fault { IfErr result (IsUnparsed (ReadsDeeper self.now.command text.now self.now.nesting)) }
    {
        match answer_within(alloc, self.command, text.as_bytes(), self.nesting) {
            Ok(Ok((text, outcome))) => Ok(Printed { text, outcome }),
            Ok(Err(_)) => Err(Fault::Memory),
            Err(_) => Err(Fault::TooDeep),
        }
    }
}

/// What is reported of a file that was written without what became junk; nothing, where none did.
pub(crate) fn outcome_note(
    alloc: Global,
    path: &str,
    text: &str,
    outcome: Outcome,
) -> Result<String, AllocError> {
    if outcome == Outcome::Clean {
        return Ok(String::new(alloc));
    }
    let mut note = note_line(alloc, path, &"has syntax errors")?;
    let mark = byte_order_mark_note(alloc, path, text, Form::Full)?;
    note.push_str(mark.as_str())?;
    Ok(note)
}
