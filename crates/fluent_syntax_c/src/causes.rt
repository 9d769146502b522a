//! Causes of errors, as rows and as lines.
ghost use Rattle.std.specs.Prelude.{◌≡◌, ◌+◌, ◌++◌, ◌<◌, ◌^◌, length, map, min, IfOk, OnOk};
ghost use Rattle.std.specs.List.{flat_map};
ghost use Rattle.std.specs.Str.{IsUtf8};
ghost use Rattle.fluent_syntax_c.specs.Causes.{AreCauseMessages, AreCauses, cause_line, cause_row, kind_number_or_none};
ghost use Rattle.fluent_syntax_c.specs.Columns.{position_at};
ghost use Rattle.fluent_syntax_c.specs.Depth.{EditionReadsDeeper};
ghost use Rattle.fluent_syntax_c.specs.Rows.{AreRows, Gives};

use crate::columns::{Position, Positions};
use crate::kinds::kind_number;
use crate::messages::add_shown;
use crate::readings::Reading;
use crate::rows::{TextRows, give_rows};
use fluent_syntax::parser::ErrorKind;
use ftl::{Cause, lead_of};
use std::alloc::{AllocError, Global};

/// The cause of an error: `struct ftl_cause` of `include/fluent.h`. Where none is known all are 0.
#[repr(C)]
#[derive(Clone, Copy)]
pub struct FtlCause {
    /// The line and the column of the cause's place, both from 1; the column counts bytes.
    pub line: usize,
    pub column: usize,
    /// The column in UTF-16 units and in characters, both from 1.
    pub column_utf16: usize,
    pub column_characters: usize,
    /// The cause's place, in bytes of the input.
    pub start: usize,
    pub end: usize,
    /// What the grammar wanted there, or 0.
    pub kind: u32,
}

/// Writes the causes of the errors of the input, read by the edition of the number, to the front of `rows`, and their
/// number to `count`. They are as many as the errors that `ftl_errors` gives, and come in the same order.
///
/// Returns 0 where there are none, and 1 where there are some. Where it returns 5 there are more than `rows` has room
/// for: `count` says how many, and `rows` is as it was. Otherwise `count` is 0 and `rows` as it was: 2 where no
/// edition has the number, 3 where the input is not UTF-8, 4 where a growth was refused, 6 where the input's placeables
/// and argument lists nest more than `nesting` deep.
#[unsafe(no_mangle)]
pub extern "C" fn ftl_causes(
    alloc: Global,
    edition: u32,
    nesting: usize,
    input: &[u8],
    rows: &mut [FtlCause],
    count: &mut usize,
) -> u32
    ensures gives { Gives edition (AreRows AreCauses edition input.now) (IsUtf8 input.now)
        (nesting < length input.now) (EditionReadsDeeper edition input.now nesting)
        rows.old rows.new count.new result }
{
    give_rows::<Causes>(alloc, edition, nesting, input, rows, count)
}

/// The causes of the errors of a text.
struct Causes;

impl TextRows for Causes {
    type Row = FtlCause;

    ghost are = { AreCauses };

    fn rows_of(
        alloc: Global,
        nesting: usize,
        reading: &Reading<'_>,
    ) -> Result<Vec<FtlCause>, AllocError> {
        let causes = causes_of(alloc, nesting, reading)?;
        cause_rows(alloc, reading.text, &causes)
    }
}

/// Writes what is said of the causes of the errors of the input, read by the edition of the number, to the front of
/// `out`, in order and each on a line of its own, and the number of their bytes to `needed`. The line is empty where no
/// cause is known. A line end in a message is written as `\n` or `\r`, so that each message is one line.
///
/// Returns 0 where there are no errors, and 1 where there are some. Where it returns 5 they have more bytes than `out`:
/// `needed` says how many, and `out` is as it was. Otherwise `needed` is 0 and `out` as it was: 2 where no edition has
/// the number, 3 where the input is not UTF-8, 4 where a growth was refused, 6 where the input's placeables and
/// argument lists nest more than `nesting` deep.
#[unsafe(no_mangle)]
pub extern "C" fn ftl_cause_messages(
    alloc: Global,
    edition: u32,
    nesting: usize,
    input: &[u8],
    out: &mut [u8],
    needed: &mut usize,
) -> u32
    ensures gives { Gives edition (AreRows AreCauseMessages edition input.now) (IsUtf8 input.now)
        (nesting < length input.now) (EditionReadsDeeper edition input.now nesting)
        out.old out.new needed.new result }
{
    give_rows::<CauseMessages>(alloc, edition, nesting, input, out, needed)
}

/// The messages of the causes of the errors of a text, as bytes.
struct CauseMessages;

impl TextRows for CauseMessages {
    type Row = u8;

    ghost are = { AreCauseMessages };

    fn rows_of(
        alloc: Global,
        nesting: usize,
        reading: &Reading<'_>,
    ) -> Result<Vec<u8>, AllocError> {
        let causes = causes_of(alloc, nesting, reading)?;
        cause_lines(alloc, &causes)
    }
}

/// The cause of each of the errors, where one is known.
fn causes_of(
    alloc: Global,
    nesting: usize,
    reading: &Reading<'_>,
) -> Result<Vec<Option<Cause>>, AllocError>
    ensures { IfOk result (λ causes. length causes.items ≡ length reading.now.errors.items) }
{
    let mut causes = Vec::with_capacity(alloc, reading.errors.len())?;
    for error in &reading.errors {
        let lead = lead_of(alloc, reading.text, reading.edition, nesting, error)?;
        causes.push(lead.cause)?;
    }
    Ok(causes)
}

/// A row for each of the causes.
fn cause_rows(
    alloc: Global,
    text: &str,
    causes: &Vec<Option<Cause>>,
) -> Result<Vec<FtlCause>, AllocError>
    requires { length text.now + 1 < 2 ^ 63 }
    ensures { IfOk result (λ rows. rows.items ≡ map (cause_row text.now) causes.now.items) }
{
    let mut rows = Vec::with_capacity(alloc, causes.len())?;
    let mut in_attributes = Positions::new(text);
    let mut elsewhere = Positions::new(text);
    for cause in causes {
        rows.push(row_of(&mut in_attributes, &mut elsewhere, cause))?;
    }
    Ok(rows)
}

fn row_of<'t>(
    in_attributes: &mut Positions<'t>,
    elsewhere: &mut Positions<'t>,
    cause: &Option<Cause>,
) -> FtlCause
    requires { in_attributes.old ≡ elsewhere.old }
    ensures row { result ≡ cause_row elsewhere.old cause.now }
    ensures attributes { in_attributes.new ≡ in_attributes.old }
    ensures text { elsewhere.new ≡ elsewhere.old }
{
    let Some(cause) = cause else {
        return FtlCause {
            line: 0,
            column: 0,
            column_utf16: 0,
            column_characters: 0,
            start: 0,
            end: 0,
            kind: 0,
        };
    };
    let position = position_of(in_attributes, elsewhere, cause);
    FtlCause {
        line: position.line,
        column: position.column,
        column_utf16: position.column_utf16,
        column_characters: position.column_characters,
        start: cause.start,
        end: cause.end,
        kind: kind_number_or_none(&cause.kind),
    }
}

/// The line and the columns of a cause. An attribute may be refused beyond the next error's cause, so the places in
/// attributes are looked up apart: each of both come in order.
fn position_of<'t>(
    in_attributes: &mut Positions<'t>,
    elsewhere: &mut Positions<'t>,
    cause: &Cause,
) -> Position
    requires { in_attributes.old ≡ elsewhere.old }
    ensures position { result ≡ position_at elsewhere.old (min cause.now.start (length elsewhere.old)) }
    ensures attributes { in_attributes.new ≡ in_attributes.old }
    ensures text { elsewhere.new ≡ elsewhere.old }
{
    if cause.kind.is_some() {
        in_attributes.position_within(cause.start)
    } else {
        elsewhere.position_within(cause.start)
    }
}

/// The number of the kind; 0 where there is none.
fn kind_number_or_none(kind: &Option<ErrorKind>) -> u32
    ensures { result ≡ kind_number_or_none kind.now }
{
    match kind {
        Some(kind) => kind_number(kind),
        None => 0,
    }
}

/// A line for each of the causes.
fn cause_lines(alloc: Global, causes: &Vec<Option<Cause>>) -> Result<Vec<u8>, AllocError>
    ensures { IfOk result (λ lines. lines.items ≡ flat_map cause_line causes.now.items) }
{
    let mut lines = Vec::new(alloc);
    for cause in causes {
        add_line(&mut lines, cause)?;
    }
    Ok(lines)
}

/// Adds the line of a cause, which is empty where there is none.
fn add_line(lines: &mut Vec<u8>, cause: &Option<Cause>) -> Result<(), AllocError>
    ensures { OnOk result (lines.new.items ≡ lines.old.items ++ cause_line cause.now) }
{
    if let Some(cause) = cause {
        add_shown(lines, cause.message.as_str())?;
    }
    lines.push(b'\n')?;
    Ok(())
}
