//! Errors as rows.
ghost use Rattle.std.specs.Prelude.{◌≡◌, ◌+◌, ◌<◌, ◌≤◌, ◌^◌, length, map, All, IfOk};
ghost use Rattle.std.specs.Str.{IsUtf8};
ghost use Rattle.ftl.specs.Answer.{error_fault};
ghost use Rattle.fluent_syntax_c.specs.Depth.{EditionReadsDeeper};
ghost use Rattle.fluent_syntax_c.specs.Errors.{are_errors, error_row, row_at};
ghost use Rattle.fluent_syntax_c.specs.Rows.{AreRows, Gives};

use crate::columns::{Position, Positions};
use crate::kinds::kind_number;
use crate::readings::Reading;
use crate::rows::{TextRows, give_rows};
use fluent_syntax::parser::ParserError;
use std::alloc::{AllocError, Global};

/// An error: `struct ftl_error` of `include/fluent.h`.
#[repr(C)]
#[derive(Clone, Copy)]
pub struct FtlError {
    /// The line and the column of the error's place, both from 1; the column counts bytes.
    pub line: usize,
    pub column: usize,
    /// The column in UTF-16 units and in characters, both from 1.
    pub column_utf16: usize,
    pub column_characters: usize,
    /// The error's place, in bytes of the input.
    pub start: usize,
    pub end: usize,
    /// The stretch that became junk.
    pub junk_start: usize,
    pub junk_end: usize,
    /// What the grammar wanted.
    pub kind: u32,
}

/// Writes the errors of the input, read by the edition of the number, to the front of `rows`, in order, and their
/// number to `count`.
///
/// Returns 0 where there are none, and 1 where there are some. Where it returns 5 there are more than `rows` has room
/// for: `count` says how many, and `rows` is as it was. Otherwise `count` is 0 and `rows` as it was: 2 where no
/// edition has the number, 3 where the input is not UTF-8, 4 where a growth was refused, 6 where the input's placeables
/// and argument lists nest more than `nesting` deep.
#[unsafe(no_mangle)]
pub extern "C" fn ftl_errors(
    alloc: Global,
    edition: u32,
    nesting: usize,
    input: &[u8],
    rows: &mut [FtlError],
    count: &mut usize,
) -> u32
    ensures gives { Gives edition (AreRows are_errors edition input.now) (IsUtf8 input.now)
        (nesting < length input.now) (EditionReadsDeeper edition input.now nesting)
        rows.old rows.new count.new result }
{
    give_rows::<Errors>(alloc, edition, nesting, input, rows, count)
}

/// The errors of a text.
struct Errors;

impl TextRows for Errors {
    type Row = FtlError;

    ghost are = { are_errors };

    fn rows_of(
        alloc: Global,
        _nesting: usize,
        reading: &Reading<'_>,
    ) -> Result<Vec<FtlError>, AllocError> {
        error_rows(alloc, reading.text, &reading.errors)
    }
}

/// A row for each of the errors, which lie within the text.
fn error_rows(
    alloc: Global,
    text: &str,
    errors: &Vec<ParserError>,
) -> Result<Vec<FtlError>, AllocError>
    requires short { length text.now + 1 < 2 ^ 63 }
    requires within { All (λ e. e.pos.start ≤ length text.now) errors.now.items }
    ensures { IfOk result (λ rows. rows.items ≡ map (λ e. error_row text.now (error_fault e)) errors.now.items) }
{
    let mut rows = Vec::with_capacity(alloc, errors.len())?;
    let mut positions = Positions::new(text);
    for error in errors {
        rows.push(row_of(positions.position(error.pos.start), error))?;
    }
    Ok(rows)
}

fn row_of(position: Position, error: &ParserError) -> FtlError
    ensures { result ≡ row_at position (error_fault error.now) }
{
    let junk = error.slice.as_ref().unwrap_or(&error.pos);
    FtlError {
        line: position.line,
        column: position.column,
        column_utf16: position.column_utf16,
        column_characters: position.column_characters,
        start: error.pos.start,
        end: error.pos.end,
        junk_start: junk.start,
        junk_end: junk.end,
        kind: kind_number(&error.kind),
    }
}
