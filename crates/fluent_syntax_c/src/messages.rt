//! What is said of errors: the names of their kinds, and their messages.
ghost use Rattle.std.specs.Prelude.{◌≡◌, ◌↔◌, ◌++◌, ◌<◌, length, Err, IfOk, OnOk};
ghost use Rattle.std.specs.List.{flat_map};
ghost use Rattle.std.specs.Str.{IsUtf8};
ghost use Rattle.fluent_syntax_tree.specs.Kind.{kind_of};
ghost use Rattle.fluent_syntax_c.specs.Depth.{EditionReadsDeeper};
ghost use Rattle.fluent_syntax_c.specs.Kinds.{IsNoKind};
ghost use Rattle.fluent_syntax_c.specs.Messages.{IsKindName, are_messages, kind_message, message_line, shown};
ghost use Rattle.fluent_syntax_c.specs.Messages.{shown_byte};
ghost use Rattle.fluent_syntax_c.specs.Output.{LeavesOutput};
ghost use Rattle.fluent_syntax_c.specs.Rows.{AreRows, Gives};
ghost use Rattle.fluent_syntax_c.specs.Status.{EndsAs};

use crate::kinds::kind_at;
use crate::outputs::give;
use crate::readings::Reading;
use crate::rows::{TextRows, give_rows};
use crate::status::Refusal;
use fluent_syntax::parser::{ErrorKind, ParserError};
use ftl::Outcome;
use std::alloc::{AllocError, Global};

/// Writes the name of the kind of the number, as `ExpectedToken`, to the front of `out`, and the number of its bytes to
/// `needed`.
///
/// Returns 0. Where it returns 5 the name has more bytes than `out`: `needed` says how many, and `out` is as it was.
/// Otherwise `needed` is 0 and `out` as it was: 2 where no kind has the number, 4 where a growth was refused.
#[unsafe(no_mangle)]
pub extern "C" fn ftl_kind_name(alloc: Global, kind: u32, out: &mut [u8], needed: &mut usize) -> u32
    ensures leaves { EndsAs result (LeavesOutput (IsKindName kind) out.old out.new needed.new) }
    ensures argument { (result ≡ 2) ↔ IsNoKind kind }
{
    give(name_bytes(alloc, kind), out, needed)
}

/// The bytes of the name of the kind of the number.
fn name_bytes(alloc: Global, kind: u32) -> Result<(Vec<u8>, Outcome), Refusal>
    ensures name { IfOk result (λ answer. IsKindName kind answer.0.items answer.1) }
    ensures argument { (result ≡ Err Refusal.Argument) ↔ IsNoKind kind }
{
    let Some(kind) = kind_at(alloc, kind) else {
        return Err(Refusal::Argument);
    };
    match String::from_str(alloc, kind.name()) {
        Ok(name) => Ok((name.into_bytes(), Outcome::Clean)),
        Err(_) => Err(Refusal::Memory),
    }
}

/// Writes the messages of the errors of the input, read by the edition of the number, to the front of `out`, in order
/// and each on a line of its own, and the number of their bytes to `needed`. A line end in a message is written as `\n`
/// or `\r`, so that each message is one line.
///
/// Returns 0 where there are none, and 1 where there are some. Where it returns 5 they have more bytes than `out`:
/// `needed` says how many, and `out` is as it was. Otherwise `needed` is 0 and `out` as it was: 2 where no edition has
/// the number, 3 where the input is not UTF-8, 4 where a growth was refused, 6 where the input's placeables and
/// argument lists nest more than `nesting` deep.
#[unsafe(no_mangle)]
pub extern "C" fn ftl_error_messages(
    alloc: Global,
    edition: u32,
    nesting: usize,
    input: &[u8],
    out: &mut [u8],
    needed: &mut usize,
) -> u32
    ensures gives { Gives edition (AreRows are_messages edition input.now) (IsUtf8 input.now)
        (nesting < length input.now) (EditionReadsDeeper edition input.now nesting)
        out.old out.new needed.new result }
{
    give_rows::<Messages>(alloc, edition, nesting, input, out, needed)
}

/// The messages of the errors of a text, as bytes.
struct Messages;

impl TextRows for Messages {
    type Row = u8;

    ghost are = { are_messages };

    fn rows_of(
        alloc: Global,
        _nesting: usize,
        reading: &Reading<'_>,
    ) -> Result<Vec<u8>, AllocError> {
        message_lines(alloc, &reading.errors)
    }
}

/// A line for each of the errors.
fn message_lines(alloc: Global, errors: &Vec<ParserError>) -> Result<Vec<u8>, AllocError>
    ensures { IfOk result (λ lines. lines.items ≡ flat_map (λ e. message_line (kind_of e.kind)) errors.now.items) }
{
    let mut lines = Vec::new(alloc);
    for error in errors {
        add_line(alloc, &mut lines, &error.kind)?;
    }
    Ok(lines)
}

/// Adds the line of an error of the kind.
fn add_line(alloc: Global, lines: &mut Vec<u8>, kind: &ErrorKind) -> Result<(), AllocError>
    ensures { OnOk result (lines.new.items ≡ lines.old.items ++ message_line (kind_of kind.now)) }
{
    add_message(alloc, lines, kind)?;
    lines.push(b'\n')?;
    Ok(())
}

/// Adds the message of an error of the kind.
fn add_message(alloc: Global, lines: &mut Vec<u8>, kind: &ErrorKind) -> Result<(), AllocError>
    ensures { OnOk result (lines.new.items ≡ lines.old.items ++ kind_message (kind_of kind.now)) }
{
    match kind {
        ErrorKind::ExpectedToken(token) => {
            let mut text = String::new(alloc);
            text.push(*token)?;
            add_with(
                lines,
                "Expected a token starting with \"",
                text.as_str(),
                "\"",
            )
        }
        ErrorKind::ExpectedCharRange { range } => {
            add_with(lines, "Expected one of \"", range.as_str(), "\"")
        }
        ErrorKind::ExpectedMessageField { entry_id } => {
            add_with(
                lines,
                "Expected a message field for \"",
                entry_id.as_str(),
                "\"",
            )
        }
        ErrorKind::ExpectedTermField { entry_id } => {
            add_with(
                lines,
                "Expected a term field for \"",
                entry_id.as_str(),
                "\"",
            )
        }
        ErrorKind::DuplicatedNamedArgument(name) => {
            add_with(lines, "The \"", name.as_str(), "\" argument appears twice")
        }
        ErrorKind::InvalidUnicodeEscapeSequence(digits) => {
            add_with(
                lines,
                "Invalid unicode escape sequence, \"",
                digits.as_str(),
                "\"",
            )
        }
        ErrorKind::ForbiddenCallee => add_text(lines, "Callee is not allowed here"),
        ErrorKind::MissingDefaultVariant => add_text(
            lines,
            "The select expression must have a default variant",
        ),
        ErrorKind::MissingValue => add_text(lines, "Expected a value"),
        ErrorKind::MultipleDefaultVariants => add_text(
            lines,
            "A select expression can only have one default variant",
        ),
        ErrorKind::MessageReferenceAsSelector => add_text(
            lines,
            "Message references can't be used as a selector",
        ),
        ErrorKind::TermReferenceAsSelector => add_text(
            lines,
            "Term references can't be used as a selector",
        ),
        ErrorKind::MessageAttributeAsSelector => add_text(
            lines,
            "Message attributes can't be used as a selector",
        ),
        ErrorKind::TermAttributeAsPlaceable => add_text(
            lines,
            "Term attributes can't be used as a selector",
        ),
        ErrorKind::UnterminatedStringLiteral => add_text(lines, "Unterminated string literal"),
        ErrorKind::PositionalArgumentFollowsNamed => add_text(
            lines,
            "Positional arguments must come before named arguments",
        ),
        ErrorKind::UnknownEscapeSequence(_) => add_text(lines, "Unknown escape sequence"),
        ErrorKind::UnbalancedClosingBrace => add_text(lines, "Unbalanced closing brace"),
        ErrorKind::ExpectedInlineExpression => add_text(lines, "Expected an inline expression"),
        ErrorKind::ExpectedSimpleExpressionAsSelector => add_text(
            lines,
            "Expected a simple expression as selector",
        ),
        ErrorKind::ExpectedLiteral => add_text(lines, "Expected a string or number literal"),
    }
}

/// Adds a text with what is reported between its two parts.
fn add_with(lines: &mut Vec<u8>, before: &str, detail: &str, after: &str) -> Result<(), AllocError>
    ensures { OnOk result (lines.new.items ≡ lines.old.items ++ before.now ++ shown detail.now ++ after.now) }
{
    add_text(lines, before)?;
    add_shown(lines, detail)?;
    add_text(lines, after)
}

/// Adds what is reported, with `\n` and `\r` for its line ends.
pub(crate) fn add_shown(lines: &mut Vec<u8>, detail: &str) -> Result<(), AllocError>
    ensures { OnOk result (lines.new.items ≡ lines.old.items ++ shown detail.now) }
{
    for byte in detail.as_bytes() {
        add_byte(lines, *byte)?;
    }
    Ok(())
}

fn add_byte(lines: &mut Vec<u8>, byte: u8) -> Result<(), AllocError>
    ensures { OnOk result (lines.new.items ≡ lines.old.items ++ shown_byte byte) }
{
    match byte {
        b'\n' => add_text(lines, "\\n"),
        b'\r' => add_text(lines, "\\r"),
        _ => {
            lines.push(byte)?;
            Ok(())
        }
    }
}

fn add_text(lines: &mut Vec<u8>, text: &str) -> Result<(), AllocError>
    ensures { OnOk result (lines.new.items ≡ lines.old.items ++ text.now) }
{
    lines.extend_from_slice(text.as_bytes())
}
