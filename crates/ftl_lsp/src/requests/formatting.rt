//! The formatted text of a document.
ghost use Rattle.std.specs.Prelude.{◌≡◌, IfOk, MatchOption, string_bytes};
ghost use Rattle.ftl_files.specs.declared.options.BlankLines.{BlankLines};
ghost use Rattle.serde_json.specs.View.{view};
ghost use Rattle.ftl_lsp.specs.Formatting.{FormatsText, IsFormatted, IsLeft, IsWritten, whole_edit_form};

use crate::documents::positions::Positions;
use crate::limits::NESTING_LIMIT;
use crate::sessions::replies::{edit_form, null};
use fluent_syntax::parser::{Edition, ParseFault, TooDeep, parse_within};
use fluent_syntax::serializer::serialize;
use fluent_syntax::spans::Span;
use ftl::{first_lossy_entry, with_blank_lines};
use ftl_files::BlankLines;
use serde_json::{Value, json};
use std::alloc::{AllocError, Global};

/// The text formatted, with the blank lines that are kept. None of a text that has an error, since its junk would be
/// lost, of one that would not read back once it is formatted, and of one that nests deeper than `NESTING_LIMIT`.
/// `AllocError` where a growth was refused.
pub fn formatted_text(
    alloc: Global,
    text: &str,
    blank_lines: BlankLines,
) -> Result<Option<String>, AllocError>
    ensures { IfOk result (λ found. MatchOption found (IsLeft text.now)
        (λ written. IsFormatted blank_lines text.now (string_bytes written))) }
{
    match parse_within(alloc, text, Edition::One, NESTING_LIMIT) {
        Ok(Ok(tree)) => match first_lossy_entry(alloc, &tree, Edition::One)? {
            None => {
                let normal = serialize(alloc, &tree)?;
                Ok(Some(written(alloc, text, normal, blank_lines)?))
            }
            Some(_) => Ok(None),
        },
        Ok(Err(ParseFault::Memory)) => Err(AllocError),
        Ok(Err(ParseFault::Syntax(_tree, _errors))) => Ok(None),
        Err(TooDeep) => Ok(None),
    }
}

/// What is written of the text, which has that normal form.
fn written(
    alloc: Global,
    text: &str,
    normal: String,
    blank_lines: BlankLines,
) -> Result<String, AllocError>
    ensures { IfOk result (λ written. IsWritten blank_lines text.now (string_bytes normal) (string_bytes written)) }
{
    match blank_lines {
        BlankLines::Normal => Ok(normal),
        BlankLines::Keep => with_blank_lines(alloc, text, normal, Edition::One, NESTING_LIMIT),
    }
}

/// The edit that makes of the text its formatted text, as the protocol has it; null where they are the same.
/// `AllocError` where a growth was refused.
pub fn formatting_edit(alloc: Global, text: &str, formatted: &str) -> Result<Value, AllocError>
    requires { (blank_lines : BlankLines) × IsFormatted blank_lines text.now formatted.now }
    ensures { IfOk result (λ value. FormatsText text.now (view value)) }
{
    if formatted == text {
        return Ok(null());
    }
    whole_edit(alloc, text, formatted)
}

/// The edit that sets the whole text.
fn whole_edit(alloc: Global, text: &str, written: &str) -> Result<Value, AllocError>
    ensures { IfOk result (λ value. view value ≡ whole_edit_form text.now written.now) }
{
    let whole = Span {
        start: 0,
        end: text.len(),
    };
    let edit = edit_form(alloc, &mut Positions::new(text), whole, written)?;
    json!(in alloc; [edit])
}
