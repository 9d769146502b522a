//! What one of two texts has and the other lacks, as rows.
ghost use Rattle.std.specs.Prelude.{◌≡◌, ◌⊎◌, ◌++◌, ◌+◌, ◌<◌, ◌^◌, length, IfOk, OnOk};
ghost use Rattle.std.specs.List.{flat_map};
ghost use Rattle.std.specs.Str.{IsUtf8};
ghost use Rattle.fluent_syntax_c.specs.Comparison.{AreDifferences, compared_rows, missing_part_rows, side_number};
ghost use Rattle.fluent_syntax_c.specs.Depth.{EditionReadsDeeper};
ghost use Rattle.fluent_syntax_c.specs.NameIndexes.{IsShort};
ghost use Rattle.fluent_syntax_c.specs.Rows.{IsCallResult, Gives};

use crate::arguments::edition_of;
use crate::columns::Positions;
use crate::finding_kinds::FindingKind;
use crate::findings::{FtlFinding, finding_row_of};
use crate::name_indexes::{either_outcome, name_index};
use crate::outputs::give;
use crate::status::Refusal;
use fluent_syntax_names::{MissingPart, NameIndex, Side, missing_parts};
use ftl::Outcome;
use std::alloc::{AllocError, Global};

/// The number of the text of a side.
fn side_number(side: Side) -> usize
    ensures { result ≡ side_number side }
{
    match side {
        Side::Reference => 0,
        Side::Other => 1,
    }
}

/// Writes what the other text lacks of the reference, and after it what is obsolete or unknown in the other text, to
/// the front of `rows`, and their number to `count`. Both are read by the edition of the number. A row's text is 0 for
/// the reference and 1 for the other; each part is in the order of the text that has it.
///
/// Returns 0, or 1 where one of the texts has syntax errors. Where it returns 5 there are more than `rows` has room
/// for: `count` says how many, and `rows` is as it was. Otherwise `count` is 0 and `rows` as it was: 2 where no
/// edition has the number, 3 where one of the texts is not UTF-8, 4 where a growth was refused, 6 where placeables and
/// argument lists of one of them nest more than `nesting` deep.
#[unsafe(no_mangle)]
pub extern "C" fn ftl_comparison(
    alloc: Global,
    edition: u32,
    nesting: usize,
    reference: &[u8],
    other: &[u8],
    rows: &mut [FtlFinding],
    count: &mut usize,
) -> u32
    ensures gives { Gives edition (AreDifferences edition reference.now other.now)
        (IsUtf8 reference.now × IsUtf8 other.now)
        ((nesting < length reference.now) ⊎ (nesting < length other.now))
        (EditionReadsDeeper edition reference.now nesting ⊎ EditionReadsDeeper edition other.now nesting)
        rows.old rows.new count.new result }
{
    give(
        edition_differences(alloc, edition, nesting, reference, other),
        rows,
        count,
    )
}

/// The differences by the edition of the number.
fn edition_differences(
    alloc: Global,
    edition: u32,
    nesting: usize,
    reference: &[u8],
    other: &[u8],
) -> Result<(Vec<FtlFinding>, Outcome), Refusal>
    ensures answers { IsCallResult edition (AreDifferences edition reference.now other.now)
        (IsUtf8 reference.now × IsUtf8 other.now)
        ((nesting < length reference.now) ⊎ (nesting < length other.now))
        (EditionReadsDeeper edition reference.now nesting ⊎ EditionReadsDeeper edition other.now nesting) result }
{
    if edition_of(edition).is_none() {
        return Err(Refusal::Argument);
    }
    if str::from_utf8(reference).is_err() || str::from_utf8(other).is_err() {
        return Err(Refusal::Input);
    }
    let (reference, found) = name_index(alloc, edition, nesting, reference)?;
    let (other, more) = name_index(alloc, edition, nesting, other)?;
    match compared_rows(alloc, &reference, &other) {
        Ok(rows) => Ok((rows, either_outcome(found, more))),
        Err(AllocError) => Err(Refusal::Memory),
    }
}

/// A row for each difference.
fn compared_rows(
    alloc: Global,
    reference: &NameIndex<'_>,
    other: &NameIndex<'_>,
) -> Result<Vec<FtlFinding>, AllocError>
    requires reference { IsShort reference.now }
    requires other { IsShort other.now }
    ensures { IfOk result (λ rows. rows.items ≡ compared_rows reference.now other.now) }
{
    let mut rows = Vec::new(alloc);
    let missing = missing_parts(alloc, reference, other)?;
    add_missing_parts(&mut rows, Side::Reference, reference.text, &missing)?;
    let more = missing_parts(alloc, other, reference)?;
    add_missing_parts(&mut rows, Side::Other, other.text, &more)?;
    Ok(rows)
}

/// Adds the rows of what this text has and the other one lacks.
fn add_missing_parts(
    rows: &mut Vec<FtlFinding>,
    side: Side,
    text: &str,
    missing_parts: &[MissingPart],
) -> Result<(), AllocError>
    requires { length text.now + 1 < 2 ^ 63 }
    ensures { OnOk result (rows.new.items ≡ rows.old.items
        ++ flat_map (missing_part_rows side text.now) missing_parts.now) }
{
    let mut positions = Positions::new(text);
    for missing in missing_parts {
        add_missing_part(rows, &mut positions, side, missing)?;
    }
    Ok(())
}

/// Adds the row of what this text has and the other one lacks, if it is reported.
fn add_missing_part<'t>(
    rows: &mut Vec<FtlFinding>,
    positions: &mut Positions<'t>,
    side: Side,
    missing: &MissingPart,
) -> Result<(), AllocError>
    ensures rows { OnOk result (rows.new.items ≡ rows.old.items ++ missing_part_rows side positions.old missing.now) }
    ensures text { positions.new ≡ positions.old }
{
    let Some(difference) = side.difference(missing.part) else {
        return Ok(());
    };
    let kind = FindingKind::Between(difference);
    rows.push(finding_row_of(positions, kind, side_number(side), missing.name, None))?;
    Ok(())
}
