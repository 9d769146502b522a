//! Where the values of messages, terms and attributes are, as rows.
ghost use Rattle.std.specs.Prelude.{◌≡◌, ◌+◌, ◌++◌, ◌<◌, ◌≤◌, ◌^◌, length, IfOk, OnOk};
ghost use Rattle.std.specs.Str.{IsUtf8};
ghost use Rattle.fluent_syntax_c.specs.Depth.{EditionReadsDeeper};
ghost use Rattle.fluent_syntax_c.specs.Rows.{AreRows, Gives};
ghost use Rattle.fluent_syntax_c.specs.Values.{AddsValues, TilesValues, ValuesTiling, entry_values, value_row};

use crate::readings::Reading;
use crate::rows::{TextRows, give_rows};
use fluent_syntax::parser::Edition;
use fluent_syntax::spans::{EntryRanges, Halt, Span, SpannedTile, Tiles, entry_ranges};
use std::alloc::{AllocError, Global};

/// Where a value is: `struct ftl_value` of `include/fluent.h`.
#[repr(C)]
#[derive(Clone, Copy)]
pub struct FtlValue {
    /// The bytes of the input from directly after the `=` up to the value's end, with the blank lines after it. Both
    /// are 0 where a message has no value.
    pub start: usize,
    pub end: usize,
}

/// Writes where the values of the messages, terms and attributes of the input are, read by the edition of the number,
/// to the front of `rows`, and their number to `count`. They are as many as the names that `ftl_names` gives, and come
/// in the same order.
///
/// Returns 0, or 1 where the input has syntax errors. Where it returns 5 there are more than `rows` has room for:
/// `count` says how many, and `rows` is as it was. Otherwise `count` is 0 and `rows` as it was: 2 where no edition has
/// the number, 3 where the input is not UTF-8, 4 where a growth was refused, 6 where the input's placeables and
/// argument lists nest more than `nesting` deep.
#[unsafe(no_mangle)]
pub extern "C" fn ftl_values(
    alloc: Global,
    edition: u32,
    nesting: usize,
    input: &[u8],
    rows: &mut [FtlValue],
    count: &mut usize,
) -> u32
    ensures gives { Gives edition (AreRows TilesValues edition input.now) (IsUtf8 input.now)
        (nesting < length input.now) (EditionReadsDeeper edition input.now nesting)
        rows.old rows.new count.new result }
{
    give_rows::<Values>(alloc, edition, nesting, input, rows, count)
}

/// Where the values of a text are.
struct Values;

impl TextRows for Values {
    type Row = FtlValue;

    ghost are = { TilesValues };

    fn rows_of(
        alloc: Global,
        nesting: usize,
        reading: &Reading<'_>,
    ) -> Result<Vec<FtlValue>, AllocError> {
        value_rows(alloc, reading.text, reading.edition, nesting)
    }
}

/// The rows of the values of a text that nests no deeper than that.
fn value_rows(
    alloc: Global,
    text: &str,
    edition: Edition,
    nesting: usize,
) -> Result<Vec<FtlValue>, AllocError>
    requires { length text.now + 1 < 2 ^ 63 }
    ensures { IfOk result (λ rows. ValuesTiling edition text.now rows.items) }
{
    let mut rows = Vec::new(alloc);
    let mut tiles = Tiles::new(text, edition, nesting, 0);
    loop {
        match tiles.next_tile(alloc) {
            Ok(Some(found)) => add_tile(&mut rows, alloc, text, edition, nesting, found)?,
            Ok(None) => return Ok(rows),
            // it was read before, so it is not too deep
            Err(Halt::TooDeep | Halt::Memory) => return Err(AllocError),
        }
    }
}

/// Adds the rows of what was found, which is dropped here and not on each way out of the loop.
fn add_tile(
    rows: &mut Vec<FtlValue>,
    alloc: Global,
    text: &str,
    edition: Edition,
    nesting: usize,
    found: SpannedTile,
) -> Result<(), AllocError>
    requires { found.span.start ≤ length text.now }
    ensures { OnOk result (AddsValues edition text.now found.span.start rows.old.items rows.new.items) }
{
    add_values_at(rows, alloc, text, edition, nesting, found.span.start)
}

/// Adds the rows of the message or the term that begins at the place, if one does, and nests no deeper than that.
fn add_values_at(
    rows: &mut Vec<FtlValue>,
    alloc: Global,
    text: &str,
    edition: Edition,
    nesting: usize,
    start: usize,
) -> Result<(), AllocError>
    requires { start ≤ length text.now }
    ensures { OnOk result (AddsValues edition text.now start rows.old.items rows.new.items) }
{
    match entry_ranges(alloc, text, edition, nesting, start) {
        Ok(Some(ranges)) => add_values(rows, &ranges),
        Ok(None) => Ok(()),
        // it was read before, so it is not too deep
        Err(Halt::TooDeep | Halt::Memory) => Err(AllocError),
    }
}

/// Adds the rows of a message or a term with these parts.
fn add_values(rows: &mut Vec<FtlValue>, ranges: &EntryRanges) -> Result<(), AllocError>
    ensures { OnOk result (rows.new.items ≡ rows.old.items ++ entry_values ranges.now) }
{
    rows.push(value_row(ranges.value))?;
    for attribute in &ranges.attributes {
        rows.push(value_row(Some(attribute.value)))?;
    }
    Ok(())
}

fn value_row(value: Option<Span>) -> FtlValue
    ensures { result ≡ value_row value }
{
    match value {
        Some(Span { start, end }) => FtlValue { start, end },
        None => FtlValue { start: 0, end: 0 },
    }
}
