//! Files in their normal form, on standard output.
ghost use Rattle.std.specs.Prelude.{◌≡◌, IfErr, IfOk, List, string_bytes};
ghost use Rattle.fluent_syntax_grammar.specs.Nesting.{NestsDeeper};
ghost use Rattle.fluent_syntax_grammar.specs.Tiling.{Tile, Tiling};
ghost use Rattle.fluent_syntax_parser.specs.Halts.{OnHalt};
ghost use Rattle.ftl.specs.Answer.{normal_text, outcome_of};
ghost use Rattle.ftl_project.specs.Faults.{IsTooDeep, IsUnparsed};
ghost use Rattle.ftl_project.specs.Formatting.{IsPrintedAs, IsFormatted};
ghost use Rattle.ftl_project.specs.Lossless.{IsWritten};

use crate::answering::printing::outcome_note;
use crate::answering::{Answer, FileTask};
use crate::fault::Fault;
use crate::formatting::lossy_entry::lossy_note;
use crate::formatting::replacement::FormatOptions;
use fluent_syntax::spans::Halt;
use ftl::{Formatted, Outcome, formatted_keeping, formatted_within};
use ftl_files::{BlankLines, Reading};
use std::alloc::{AllocError, Global};

/// Writes the normal form of each file, with the blank lines that are kept. A file that has errors, or whose normal
/// form does not read back, is reported.
#[derive(Clone, Copy)]
pub struct FormatTask {
    pub options: FormatOptions,
}

impl FileTask for FormatTask {
    ghost answers = { λ formatting. IsFormatted formatting.options };

    ghost refuses = { λ formatting text. IsUnparsed (IsTooDeep formatting.options.reading text) };

    fn answer(&self, alloc: Global, path: &str, text: String) -> Result<Answer, Fault> {
        let formatted = printed_form(alloc, text.as_str(), self.options)?;
        let note = note(alloc, path, text.as_str(), &formatted, self.options.reading)?;
        Ok(Answer {
            errors: 0,
            has_problems: formatted.outcome == Outcome::SyntaxErrors,
            text: formatted.text,
            note,
        })
    }
}

/// The text's normal form, with the blank lines that are kept.
fn printed_form(alloc: Global, text: &str, options: FormatOptions) -> Result<Formatted, Fault>
    ensures printed { IfOk result (λ given. IsPrintedAs options text.now (string_bytes given.text) given.outcome) }
    ensures fault { IfErr result (IsUnparsed (IsTooDeep options.reading text.now)) }
{
    match formatted_as(alloc, text, options) {
        Ok(formatted) => Ok(formatted),
        Err(Halt::Memory) => Err(Fault::Memory),
        Err(Halt::TooDeep) => Err(Fault::TooDeep),
    }
}

fn formatted_as(alloc: Global, text: &str, options: FormatOptions) -> Result<Formatted, Halt>
    ensures text { let t = text.now in let edition = options.reading.edition in
        IfOk result (λ given. (tiles : List Tile) × Tiling edition t tiles
        × IsWritten options.blank_lines edition t (normal_text t tiles) (string_bytes given.text)
        × (given.outcome ≡ outcome_of tiles)) }
    ensures deeper { IfErr result (OnHalt (NestsDeeper options.reading.edition text.now options.reading.nesting)) }
{
    let Reading { edition, nesting } = options.reading;
    match options.blank_lines {
        BlankLines::Normal => formatted_within(alloc, text, edition, nesting),
        BlankLines::Keep => formatted_keeping(alloc, text, edition, nesting),
    }
}

/// What is reported of a file: that it has errors, or by which entry what is written does not read back.
fn note(
    alloc: Global,
    path: &str,
    text: &str,
    formatted: &Formatted,
    reading: Reading,
) -> Result<String, AllocError> {
    if formatted.outcome == Outcome::Clean && !formatted.is_canonical {
        lossy_note(alloc, path, text, reading)
    } else {
        outcome_note(alloc, path, text, formatted.outcome)
    }
}
