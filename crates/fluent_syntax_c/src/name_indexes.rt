//! What texts say of names.
ghost use Rattle.std.specs.Prelude.{◌≡◌, ◌≢◌, ◌↔◌, ◌⊎◌, ◌++◌, ◌<◌, [], ◌∷◌, length, true, Err, IfErr, IfOk};
ghost use Rattle.std.specs.Prelude.{OnOk};
ghost use Rattle.std.specs.List.{All, Any};
ghost use Rattle.std.specs.Str.{IsUtf8};
ghost use Rattle.fluent_syntax_c.specs.Arguments.{IsNoEdition};
ghost use Rattle.fluent_syntax_c.specs.Depth.{EditionReadsDeeper};
ghost use Rattle.fluent_syntax_c.specs.NameIndexes.{AreNameIndexes, IsEditionNameIndex, IsShort, IsText};
ghost use Rattle.fluent_syntax_c.specs.NameIndexes.{either_outcome};

use crate::readings::{outcome_of, read};
use crate::status::Refusal;
use fluent_syntax_names::{NameIndex, name_index_of};
use ftl::Outcome;
use std::alloc::{AllocError, Global};

/// A text: `struct ftl_text` of `include/fluent.h`.
#[repr(C)]
#[derive(Clone, Copy)]
pub struct FtlText<'t> {
    pub text: &'t [u8],
}

/// Whether each text is UTF-8.
pub(crate) fn are_texts(texts: &[FtlText<'_>]) -> bool
    ensures { (result ≡ true) ↔ All IsText texts.now }
{
    for text in texts {
        if !is_text(text) {
            return false;
        }
    }
    true
}

fn is_text(text: &FtlText<'_>) -> bool
    ensures { (result ≡ true) ↔ IsText text.now }
{
    str::from_utf8(text.text).is_ok()
}

/// What the texts say of names, read by the edition of the number, and whether a text has errors.
///
/// `Memory` where a growth was refused, `Depth` where placeables and argument lists of a text nest more than `nesting`
/// deep.
pub(crate) fn name_indexes<'t>(
    alloc: Global,
    edition: u32,
    nesting: usize,
    texts: &[FtlText<'t>],
) -> Result<(Vec<NameIndex<'t>>, Outcome), Refusal>
    requires edition { ¬ (IsNoEdition edition) }
    requires utf8 { All IsText texts.now }
    ensures name_indexes { IfOk result (λ found. AreNameIndexes edition texts.now found.0.items found.1) }
    ensures short { IfOk result (λ found. All IsShort found.0.items) }
    ensures err { IfErr result (λ refusal. (refusal ≡ Refusal.Memory) ⊎ (refusal ≡ Refusal.Depth)) }
    ensures deep { result ≡ Err Refusal.Depth → Any (λ text. nesting < length text.text.now) texts.now }
    ensures deeper { result ≡ Err Refusal.Depth →
        Any (λ text. EditionReadsDeeper edition text.text.now nesting) texts.now }
    ensures shallow { IfOk result (λ found.
        Any (λ text. EditionReadsDeeper edition text.text.now nesting) texts.now → ⊥) }
{
    let mut name_indexes = Vec::new(alloc);
    let mut outcome = Outcome::Clean;
    for text in texts {
        let (name_index, found) = name_index(alloc, edition, nesting, text.text)?;
        let Ok(()) = add_name_index(&mut name_indexes, name_index) else {
            return Err(Refusal::Memory);
        };
        outcome = either_outcome(outcome, found);
    }
    Ok((name_indexes, outcome))
}

fn add_name_index<'t>(
    name_indexes: &mut Vec<NameIndex<'t>>,
    name_index: NameIndex<'t>,
) -> Result<(), AllocError>
    ensures { OnOk result (name_indexes.new.items ≡ name_indexes.old.items ++ name_index.entry ∷ []) }
{
    name_indexes.push(name_index)?;
    Ok(())
}

/// What a text says of names, read by the edition of the number, and whether it has errors; refused as `name indexes`.
pub(crate) fn name_index<'t>(
    alloc: Global,
    edition: u32,
    nesting: usize,
    input: &'t [u8],
) -> Result<(NameIndex<'t>, Outcome), Refusal>
    requires edition { ¬ (IsNoEdition edition) }
    requires utf8 { IsUtf8 input.now }
    ensures name_index { IfOk result (λ found. IsEditionNameIndex edition input.now found.0 found.1) }
    ensures short { IfOk result (λ found. IsShort found.0) }
    ensures err { IfErr result (λ refusal. (refusal ≡ Refusal.Memory) ⊎ (refusal ≡ Refusal.Depth)) }
    ensures deep { result ≡ Err Refusal.Depth → nesting < length input.now }
    ensures deeper { result ≡ Err Refusal.Depth → EditionReadsDeeper edition input.now nesting }
    ensures shallow { IfOk result (λ found. EditionReadsDeeper edition input.now nesting → ⊥) }
{
    let reading = read(alloc, edition, nesting, input)?;
    match name_index_of(alloc, reading.text, &reading.tree.body) {
        Ok(name_index) => Ok((name_index, outcome_of(&reading.errors))),
        Err(AllocError) => Err(Refusal::Memory),
    }
}

/// Errors, where either has some.
pub(crate) fn either_outcome(one: Outcome, other: Outcome) -> Outcome
    ensures { result ≡ either_outcome one other }
{
    match one {
        Outcome::Clean => other,
        Outcome::SyntaxErrors => Outcome::SyntaxErrors,
    }
}
