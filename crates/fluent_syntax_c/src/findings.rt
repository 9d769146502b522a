//! What is found in the texts of one language, as rows.
ghost use Rattle.std.specs.Prelude.{◌≡◌, ◌↔◌, ◌+◌, ◌<◌, ◌^◌, length, map, Err, IfOk};
ghost use Rattle.std.specs.List.{All, Any};
ghost use Rattle.fluent_syntax_names.specs.Findings.{all_findings};
ghost use Rattle.fluent_syntax_c.specs.Depth.{EditionReadsDeeper};
ghost use Rattle.fluent_syntax_c.specs.Findings.{AreFindings, finding_row, finding_row_of, place_or_none, span_or_none};
ghost use Rattle.fluent_syntax_c.specs.Findings.{text_at};
ghost use Rattle.fluent_syntax_c.specs.FindingKinds.{IsFindingKindName, IsNoFindingKind};
ghost use Rattle.fluent_syntax_c.specs.Output.{LeavesOutput};
ghost use Rattle.fluent_syntax_c.specs.NameIndexes.{IsShort, IsText};
ghost use Rattle.fluent_syntax_c.specs.Rows.{IsCallResult, Gives};
ghost use Rattle.fluent_syntax_c.specs.Status.{EndsAs};

use crate::arguments::edition_of;
use crate::columns::Positions;
use crate::finding_kinds::{FindingKind, finding_kind_at};
use crate::name_indexes::{FtlText, are_texts, name_indexes};
use crate::outputs::give;
use crate::status::Refusal;
use fluent_syntax::spans::Span;
use fluent_syntax_names::{Finding, NameIndex, Place, findings};
use ftl::Outcome;
use std::alloc::{AllocError, Global};

/// What is found at a name: `struct ftl_finding` of `include/fluent.h`.
#[repr(C)]
#[derive(Clone, Copy)]
pub struct FtlFinding {
    /// The number of the text that has the name, from 0.
    pub text: usize,
    /// The line and the column of the name, both from 1; the column counts bytes.
    pub line: usize,
    pub column: usize,
    /// The column in UTF-16 units and in characters, both from 1.
    pub column_utf16: usize,
    pub column_characters: usize,
    /// The bytes of the text that spell the name.
    pub start: usize,
    pub end: usize,
    /// The other name that it speaks of: the number of its text, and the bytes there. Where there is none all are 0.
    pub other_text: usize,
    pub other_start: usize,
    pub other_end: usize,
    /// What is found.
    pub kind: u32,
    /// How grave it is.
    pub severity: u32,
}

/// Writes what is found in the texts, which are one set and are read by the edition of the number, to the front of
/// `rows`, and their number to `count`. The findings come in the order of the texts and of the places in each.
///
/// Returns 0, or 1 where a text has syntax errors. Where it returns 5 there are more than `rows` has room for: `count`
/// says how many, and `rows` is as it was. Otherwise `count` is 0 and `rows` as it was: 2 where no edition has the
/// number, 3 where a text is not UTF-8, 4 where a growth was refused, 6 where placeables and argument lists of a text
/// nest more than `nesting` deep.
#[unsafe(no_mangle)]
pub extern "C" fn ftl_findings(
    alloc: Global,
    edition: u32,
    nesting: usize,
    texts: &[FtlText<'_>],
    rows: &mut [FtlFinding],
    count: &mut usize,
) -> u32
    ensures gives { Gives edition (AreFindings edition texts.now) (All IsText texts.now)
        (Any (λ text. nesting < length text.text.now) texts.now)
        (Any (λ text. EditionReadsDeeper edition text.text.now nesting) texts.now)
        rows.old rows.new count.new result }
{
    give(
        edition_findings(alloc, edition, nesting, texts),
        rows,
        count,
    )
}

/// What is found by the edition of the number.
fn edition_findings(
    alloc: Global,
    edition: u32,
    nesting: usize,
    texts: &[FtlText<'_>],
) -> Result<(Vec<FtlFinding>, Outcome), Refusal>
    ensures answers { IsCallResult edition (AreFindings edition texts.now) (All IsText texts.now)
        (Any (λ text. nesting < length text.text.now) texts.now)
        (Any (λ text. EditionReadsDeeper edition text.text.now nesting) texts.now) result }
{
    if edition_of(edition).is_none() {
        return Err(Refusal::Argument);
    }
    if !are_texts(texts) {
        return Err(Refusal::Input);
    }
    let (name_indexes, outcome) = name_indexes(alloc, edition, nesting, texts)?;
    match finding_rows(alloc, &name_indexes) {
        Ok(rows) => Ok((rows, outcome)),
        Err(AllocError) => Err(Refusal::Memory),
    }
}

/// A row for each finding in the texts.
fn finding_rows(
    alloc: Global,
    name_indexes: &[NameIndex<'_>],
) -> Result<Vec<FtlFinding>, AllocError>
    requires { All IsShort name_indexes.now }
    ensures { IfOk result (λ rows. rows.items ≡ map (finding_row name_indexes.now) (all_findings name_indexes.now)) }
{
    let found = findings(alloc, name_indexes)?;
    let mut rows = Vec::with_capacity(alloc, found.len())?;
    let mut last = 0;
    let mut positions = Positions::new(text_at(name_indexes, 0));
    for finding in &found {
        positions = positions_in(name_indexes, last, positions, finding.file);
        last = finding.file;
        rows.push(finding_row(&mut positions, finding))?;
    }
    Ok(rows)
}

/// The places of the text of the number; those of the last one where it is the same.
fn positions_in<'t>(
    name_indexes: &[NameIndex<'t>],
    last: usize,
    positions: Positions<'t>,
    number: usize,
) -> Positions<'t>
    requires last { positions ≡ text_at name_indexes.now last }
    requires short { All IsShort name_indexes.now }
    ensures { result ≡ text_at name_indexes.now number }
{
    if number == last {
        positions
    } else {
        Positions::new(text_at(name_indexes, number))
    }
}

/// The text of the number; none where there is no such text.
fn text_at<'t>(name_indexes: &[NameIndex<'t>], number: usize) -> &'t str
    requires { All IsShort name_indexes.now }
    ensures text { result.now ≡ text_at name_indexes.now number }
    ensures short { length result.now + 1 < 2 ^ 63 }
{
    match name_indexes.get(number) {
        Some(name_index) => name_index.text,
        None => "",
    }
}

fn finding_row<'t>(positions: &mut Positions<'t>, finding: &Finding) -> FtlFinding
    ensures row { result ≡ finding_row_of (FindingKind.Within finding.now.kind) finding.now.file positions.old
        (span_or_none finding.now.place) finding.now.other }
    ensures text { positions.new ≡ positions.old }
{
    let name = span_or_none(finding.place);
    finding_row_of(
        positions,
        FindingKind::Within(finding.kind),
        finding.file,
        name,
        finding.other,
    )
}

/// The row of what is found at a name of the text of the number.
pub(crate) fn finding_row_of<'t>(
    positions: &mut Positions<'t>,
    kind: FindingKind,
    text: usize,
    name: Span,
    other: Option<Place>,
) -> FtlFinding
    ensures row { result ≡ finding_row_of kind text positions.old name other }
    ensures text { positions.new ≡ positions.old }
{
    let place = positions.position_within(name.start);
    let other = place_or_none(other);
    FtlFinding {
        text,
        line: place.line,
        column: place.column,
        column_utf16: place.column_utf16,
        column_characters: place.column_characters,
        start: name.start,
        end: name.end,
        other_text: other.file,
        other_start: other.span.start,
        other_end: other.span.end,
        kind: kind.number(),
        severity: kind.severity_number(),
    }
}

const NOWHERE: Span = Span { start: 0, end: 0 };

fn span_or_none(span: Option<Span>) -> Span
    ensures { result ≡ span_or_none span }
{
    match span {
        Some(span) => span,
        None => NOWHERE,
    }
}

fn place_or_none(place: Option<Place>) -> Place
    ensures { result ≡ place_or_none place }
{
    match place {
        Some(place) => place,
        None => Place {
            file: 0,
            span: NOWHERE,
        },
    }
}

/// Writes the name of the kind of findings of the number, as `defined-twice`, to the front of `out`, and the number of
/// its bytes to `needed`.
///
/// Returns 0. Where it returns 5 the name has more bytes than `out`: `needed` says how many, and `out` is as it was.
/// Otherwise `needed` is 0 and `out` as it was: 2 where no kind has the number, 4 where a growth was refused.
#[unsafe(no_mangle)]
pub extern "C" fn ftl_finding_kind_name(
    alloc: Global,
    kind: u32,
    out: &mut [u8],
    needed: &mut usize,
) -> u32
    ensures leaves { EndsAs result (LeavesOutput (IsFindingKindName kind) out.old out.new needed.new) }
    ensures argument { (result ≡ 2) ↔ IsNoFindingKind kind }
{
    give(name_bytes(alloc, kind), out, needed)
}

/// The bytes of the name of the kind of findings of the number.
fn name_bytes(alloc: Global, kind: u32) -> Result<(Vec<u8>, Outcome), Refusal>
    ensures name { IfOk result (λ answer. IsFindingKindName kind answer.0.items answer.1) }
    ensures argument { (result ≡ Err Refusal.Argument) ↔ IsNoFindingKind kind }
{
    let Some(kind) = finding_kind_at(kind) else {
        return Err(Refusal::Argument);
    };
    match String::from_str(alloc, kind.name()) {
        Ok(name) => Ok((name.into_bytes(), Outcome::Clean)),
        Err(_) => Err(Refusal::Memory),
    }
}
