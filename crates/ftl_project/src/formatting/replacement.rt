//! What is to come in the place of a file's text.
ghost use Rattle.std.specs.Prelude.{◌≡◌, ◌+◌, ◌<◌, ◌^◌, IfErr, IfOk, length, string_bytes};
ghost use Rattle.fluent_syntax_grammar.specs.RoundTrip.{ReadsAs};
ghost use Rattle.fluent_syntax_tree.specs.View.{resource_view};
ghost use Rattle.ftl_project.specs.Faults.{IsTooDeep, IsUnparsed};
ghost use Rattle.ftl_project.specs.Lossless.{IsWritten};
ghost use Rattle.ftl_project.specs.Rewriting.{IsReplacement};

use crate::fault::Fault;
use crate::formatting::lossy_entry::{LossyEntry, lossy_entry};
use crate::reporting::text_with_errors::TextWithErrors;
use fluent_syntax::ast::Resource;
use fluent_syntax::laws::reads_back;
use fluent_syntax::parser::{ParseFault, parse_within};
use fluent_syntax::serializer::serialize;
use ftl::laws::formatting_is_idempotent;
use ftl::{first_lossy_entry, with_blank_lines};
use ftl_files::{BlankLines, Reading};
use std::alloc::{AllocError, Global};

/// How files are formatted.
#[derive(Clone, Copy, Debug, PartialEq, Eq)]
pub struct FormatOptions {
    /// How their texts are read.
    pub reading: Reading,
    /// What becomes of blank lines between messages and terms.
    pub blank_lines: BlankLines,
}

/// What is to come in the place of a file's text.
#[derive(Debug, Drop)]
pub enum Replacement {
    /// The text itself.
    Same,
    /// This text.
    Text(String),
    /// The text: it has these syntax errors, and its normal form would lack their junk.
    Errors(TextWithErrors),
    /// The text: its normal form would not read back, by this entry.
    Lossy(LossyEntry),
}

/// What is to come in the place of the text: its normal form, with the blank lines that are kept, where it has no error
/// and reads back.
///
/// `Memory`: a growth was refused, or the text is as long as the greatest `usize`. `TooDeep`: it nests deeper than it
/// may.
pub fn replacement_for(
    alloc: Global,
    text: String,
    options: FormatOptions,
) -> Result<Replacement, Fault>
    ensures is { IfOk result (IsReplacement options (string_bytes text)) }
    ensures fault { IfErr result (IsUnparsed (IsTooDeep options.reading (string_bytes text))) }
{
    let FormatOptions { reading, .. } = options;
    if text.len() == usize::MAX {
        return Err(Fault::Memory);
    }
    let errors = match parse_within(alloc, text.as_str(), reading.edition, reading.nesting) {
        Ok(Ok(tree)) => return replacement_of(alloc, text.as_str(), &tree, options),
        Ok(Err(ParseFault::Syntax(_, errors))) => errors,
        Ok(Err(ParseFault::Memory)) => return Err(Fault::Memory),
        Err(_) => return Err(Fault::TooDeep),
    };
    Ok(Replacement::Errors(TextWithErrors {
        text,
        errors,
        reading,
    }))
}

/// What is to come in the place of the text that was read as the tree, without errors.
fn replacement_of(
    alloc: Global,
    text: &str,
    tree: &Resource<&str>,
    options: FormatOptions,
) -> Result<Replacement, Fault>
    requires reads { ReadsAs options.reading.edition text.now (resource_view (λ s. s.now) tree.now) }
    requires short { length text.now + 1 < 2 ^ 64 }
    ensures is { IfOk result (IsReplacement options text.now) }
    ensures fault { IfErr result (λ fault. fault ≡ Fault.Memory) }
{
    let FormatOptions { reading, .. } = options;
    formatting_is_idempotent(text.as_bytes());
    reads_back(tree);
    if let Some(broken) = first_lossy_entry(alloc, tree, reading.edition)? {
        return Ok(Replacement::Lossy(lossy_entry(alloc, text, reading, broken)?));
    }
    let normal = serialize(alloc, tree)?;
    let formatted = written(alloc, text, normal, options)?;
    if formatted.as_str() == text {
        Ok(Replacement::Same)
    } else {
        Ok(Replacement::Text(formatted))
    }
}

/// The normal form of the text, with the blank lines that are kept.
fn written(
    alloc: Global,
    text: &str,
    normal: String,
    options: FormatOptions,
) -> Result<String, AllocError>
    ensures { IfOk result (λ written.
        IsWritten options.blank_lines options.reading.edition text.now (string_bytes normal) (string_bytes written)) }
{
    let Reading { edition, nesting } = options.reading;
    match options.blank_lines {
        BlankLines::Normal => Ok(normal),
        BlankLines::Keep => with_blank_lines(alloc, text, normal, edition, nesting),
    }
}
