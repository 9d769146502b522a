//! Rows of one text.
ghost use Rattle.std.specs.Prelude.{◌+◌, ◌<◌, ◌≤◌, ◌^◌, ℕ, List, length, All, IfOk};
ghost use Rattle.std.specs.Str.{IsUtf8};
ghost use Rattle.fluent_syntax_tree.specs.declared.edition.Edition.{Edition as ByEdition};
ghost use Rattle.fluent_syntax_grammar.specs.Tiling.{Tile};
ghost use Rattle.fluent_syntax_parser.specs.Parts.{ResourceParts};
ghost use Rattle.fluent_syntax_c.specs.Depth.{EditionReadsDeeper};
ghost use Rattle.fluent_syntax_c.specs.Reading.{IsReading};
ghost use Rattle.fluent_syntax_c.specs.Rows.{IsCallResult, AreRows, Gives};

use crate::outputs::give;
use crate::readings::{Reading, outcome_of, read};
use crate::status::Refusal;
use ftl::Outcome;
use std::alloc::{AllocError, Global};

/// What is listed of a text: its errors, the names in it, or what else a call gives.
pub(crate) trait TextRows {
    type Row: Copy;

    /// Whether the rows are those of the tiling of a text by an edition.
    ghost are: { ByEdition → List ℕ → List Tile → List Self.Row → Type 0 };

    /// The rows of a text that nests no deeper than that.
    fn rows_of(
        alloc: Global,
        nesting: usize,
        reading: &Reading<'_>,
    ) -> Result<Vec<Self::Row>, AllocError>
        requires short { length reading.now.text.now + 1 < 2 ^ 63 }
        requires positions { All (λ e. e.pos.start ≤ length reading.now.text.now) reading.now.errors.items }
        requires parts { ResourceParts reading.now.text.now reading.now.tree }
        ensures rows { (edition : ByEdition) (t : List ℕ) (read : IsReading edition t reading.now) →
            IfOk result (λ rows. are edition t read.tiles rows.items) };
}

/// Gives the rows of the input, read by the edition of the number, as far as there is room for all of them.
pub(crate) fn give_rows<T: TextRows>(
    alloc: Global,
    edition: u32,
    nesting: usize,
    input: &[u8],
    rows: &mut [T::Row],
    count: &mut usize,
) -> u32
    ensures gives { Gives edition (AreRows T.are edition input.now) (IsUtf8 input.now) (nesting < length input.now)
        (EditionReadsDeeper edition input.now nesting) rows.old rows.new count.new result }
{
    give(text_rows::<T>(alloc, edition, nesting, input), rows, count)
}

/// The rows of the input, read by the edition of the number.
fn text_rows<T: TextRows>(
    alloc: Global,
    edition: u32,
    nesting: usize,
    input: &[u8],
) -> Result<(Vec<T::Row>, Outcome), Refusal>
    ensures answers { IsCallResult edition (AreRows T.are edition input.now) (IsUtf8 input.now)
        (nesting < length input.now) (EditionReadsDeeper edition input.now nesting) result }
{
    let reading = read(alloc, edition, nesting, input)?;
    match T::rows_of(alloc, nesting, &reading) {
        Ok(rows) => Ok((rows, outcome_of(&reading.errors))),
        Err(AllocError) => Err(Refusal::Memory),
    }
}
