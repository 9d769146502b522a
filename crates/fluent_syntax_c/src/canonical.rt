//! Whether a tree reads back.
ghost use Rattle.std.specs.Prelude.{◌≡◌, ◌≢◌, ◌↔◌, Err, IfOk};
ghost use Rattle.std.specs.Str.{IsUtf8};
ghost use Rattle.fluent_syntax_c.specs.Answer.{SpellsNone};
ghost use Rattle.fluent_syntax_c.specs.Arguments.{IsNoEdition};
ghost use Rattle.fluent_syntax_c.specs.Canonical.{IsCanonicalJson, IsFirstUncanonical, LeavesCanonical};
ghost use Rattle.fluent_syntax_c.specs.Canonical.{LeavesUncanonical};
ghost use Rattle.fluent_syntax_c.specs.Status.{EndsAs};

use crate::answers::refusal_of;
use crate::arguments::edition_of;
use crate::status::{EditRefusal, Refusal, Status};
use crate::texts::text_of;
use fluent_syntax::laws::{Uncanonical, first_uncanonical_with};
use ftl::tree_of_json;
use std::alloc::Global;

/// Writes to `canonical` whether the tree that the input spells as JSON is canonical in the edition of the number: 1 if
/// it is, and otherwise 0. The text that a canonical tree is written as is read as that tree.
///
/// Returns 0. Otherwise `canonical` is 0: 2 where no edition has the number, 3 where the input is not UTF-8, 4 where a
/// growth was refused, 6 where arrays and objects nest more than 127 deep, 7 where the input is no JSON, or JSON that
/// spells no tree.
#[unsafe(no_mangle)]
pub extern "C" fn ftl_is_canonical(
    alloc: Global,
    edition: u32,
    input: &[u8],
    canonical: &mut usize,
) -> u32
    ensures leaves { EndsAs result (LeavesCanonical edition input.now canonical.new) }
    ensures argument { (result ≡ 2) ↔ IsNoEdition edition }
    ensures input { ¬ (IsNoEdition edition) → ((result ≡ 3) ↔ ¬ (IsUtf8 input.now)) }
    ensures tree { result ≡ 7 → SpellsNone input.now }
    ensures json { result ≡ 6 → SpellsNone input.now }
{
    match is_canonical_json(alloc, edition, input) {
        Ok(is) => {
            *canonical = usize::from(is);
            Status::Clean.number()
        }
        Err(refusal) => {
            *canonical = 0;
            Status::Refused(refusal).number()
        }
    }
}

/// Writes to `entry` the number, from 0, of the first entry that is not canonical in the edition of the number, of the
/// tree that the input spells as JSON.
///
/// Returns the number of the first rule of canonical trees that this entry breaks, which is above 100; or 0 where the
/// tree is canonical: then `entry` is 0. For the rest it returns what `ftl_is_canonical` does.
#[unsafe(no_mangle)]
pub extern "C" fn ftl_first_uncanonical(
    alloc: Global,
    edition: u32,
    input: &[u8],
    entry: &mut usize,
) -> u32
    ensures leaves { EndsAs result (LeavesUncanonical edition input.now entry.new) }
    ensures argument { (result ≡ 2) ↔ IsNoEdition edition }
    ensures input { ¬ (IsNoEdition edition) → ((result ≡ 3) ↔ ¬ (IsUtf8 input.now)) }
    ensures tree { result ≡ 7 → SpellsNone input.now }
    ensures json { result ≡ 6 → SpellsNone input.now }
{
    *entry = 0;
    match first_uncanonical_json(alloc, edition, input) {
        Ok(Some(found)) => {
            *entry = found.entry;
            Status::NotEdited(EditRefusal::NotCanonical(found.rule)).number()
        }
        Ok(None) => Status::Clean.number(),
        Err(refusal) => Status::Refused(refusal).number(),
    }
}

/// Whether the tree that the input spells as JSON is canonical in the edition of the number.
fn is_canonical_json(alloc: Global, edition: u32, input: &[u8]) -> Result<bool, Refusal>
    ensures canonical { IfOk result (λ is. IsCanonicalJson edition input.now is) }
    ensures argument { (result ≡ Err Refusal.Argument) ↔ IsNoEdition edition }
    ensures input { ¬ (IsNoEdition edition) → ((result ≡ Err Refusal.Input) ↔ ¬ (IsUtf8 input.now)) }
    ensures tree { result ≡ Err Refusal.Tree → SpellsNone input.now }
    ensures json { result ≡ Err Refusal.Depth → SpellsNone input.now }
{
    Ok(first_uncanonical_json(alloc, edition, input)?.is_none())
}

/// The first entry that is not canonical, and the rule that it breaks.
fn first_uncanonical_json(
    alloc: Global,
    edition: u32,
    input: &[u8],
) -> Result<Option<Uncanonical>, Refusal>
    ensures found { IfOk result (IsFirstUncanonical edition input.now) }
    ensures argument { (result ≡ Err Refusal.Argument) ↔ IsNoEdition edition }
    ensures input { ¬ (IsNoEdition edition) → ((result ≡ Err Refusal.Input) ↔ ¬ (IsUtf8 input.now)) }
    ensures tree { result ≡ Err Refusal.Tree → SpellsNone input.now }
    ensures json { result ≡ Err Refusal.Depth → SpellsNone input.now }
{
    let Some(edition) = edition_of(edition) else {
        return Err(Refusal::Argument);
    };
    let json = text_of(input)?;
    match tree_of_json(alloc, json) {
        Ok(tree) => Ok(first_uncanonical_with(alloc, &tree, edition)),
        Err(fault) => Err(refusal_of(fault)),
    }
}
