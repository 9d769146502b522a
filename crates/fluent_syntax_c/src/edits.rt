//! The calls that change one entry of a text and leave all else as it is.
ghost use Rattle.std.specs.Prelude.{◌≡◌, ◌≢◌, ◌↔◌, ◌⊎◌, ◌<◌, ℕ, List, [], length, Err, IfErr, IfOk};
ghost use Rattle.std.specs.Str.{IsUtf8};
ghost use Rattle.fluent_syntax_tree.specs.declared.edition.Edition.{Edition as ByEdition};
ghost use Rattle.fluent_syntax_c.specs.Arguments.{IsNoEdition, edition_number};
ghost use Rattle.fluent_syntax_c.specs.Depth.{EditionReadsDeeper};
ghost use Rattle.fluent_syntax_c.specs.Edits.{GivesEdit, IsEdited, IsNotEdited, IsTextTree, edit_refusal};
ghost use Rattle.fluent_syntax_c.specs.Edits.{part_source};

use crate::arguments::edition_of;
use crate::edited::{Action, edited_source, part_source, place_of};
use crate::outputs::give_edited;
use crate::status::{EditRefusal, Refusal};
use crate::text_trees::{TextTree, text_tree};
use fluent_syntax_edits::EditFault;
use ftl::Outcome;
use std::alloc::Global;

/// Writes the input with another value for the first message or term of the name, which is written with the `-` of a
/// term, to the front of `out`, and the number of its bytes to `needed`. The value is written as it is after a
/// `=`.
///
/// Returns 0, or 1 where the input has syntax errors: the new text has as many. Where it returns 5 the new text has
/// more bytes than `out`: `needed` says how many, and `out` is as it was. Otherwise `needed` is 0 and `out` as it was:
/// 2 where no edition has the number, 3 where the input, the name or the value is not UTF-8, 4 where a growth was
/// refused, 6 where placeables and argument lists of the input or the value nest more than `nesting` deep; 8 where no
/// message and no term has the name, 11 where it has no value, 12 where the value has syntax errors, and 9 where it is
/// not one value. Where the new text would be read otherwise than as the input with that value it returns the number of
/// the first rule of canonical trees that the value breaks, which is above 100, or 10 where it breaks none.
#[unsafe(no_mangle)]
pub extern "C" fn ftl_set_value(
    alloc: Global,
    edition: u32,
    nesting: usize,
    input: &[u8],
    name: &[u8],
    value: &[u8],
    out: &mut [u8],
    needed: &mut usize,
) -> u32
    ensures gives { GivesEdit edition input.now name.now Action.SetValue value.now nesting out.old out.new needed.new
        result }
{
    let made = edited_bytes(
        alloc,
        Action::SetValue,
        edition,
        nesting,
        input,
        name,
        value,
    );
    give_edited(made, out, needed)
}

/// Writes the input with another value for the first attribute of that name of the first message or term of the name;
/// returns what `ftl_set_value` does, and 11 where there is no such attribute.
#[unsafe(no_mangle)]
pub extern "C" fn ftl_set_attribute(
    alloc: Global,
    edition: u32,
    nesting: usize,
    input: &[u8],
    name: &[u8],
    attribute: &[u8],
    value: &[u8],
    out: &mut [u8],
    needed: &mut usize,
) -> u32
    ensures gives { GivesEdit edition input.now name.now (Action.SetAttribute attribute.entry) value.now nesting out.old
        out.new needed.new result }
{
    let action = Action::SetAttribute(attribute);
    let made = edited_bytes(alloc, action, edition, nesting, input, name, value);
    give_edited(made, out, needed)
}

/// Writes the input with the entry in place of the first message or term of the name and of the comment that is
/// attached to that; returns what `ftl_set_value` does.
#[unsafe(no_mangle)]
pub extern "C" fn ftl_replace(
    alloc: Global,
    edition: u32,
    nesting: usize,
    input: &[u8],
    name: &[u8],
    entry: &[u8],
    out: &mut [u8],
    needed: &mut usize,
) -> u32
    ensures gives { GivesEdit edition input.now name.now Action.Replace entry.now nesting out.old out.new needed.new
        result }
{
    let made = edited_bytes(alloc, Action::Replace, edition, nesting, input, name, entry);
    give_edited(made, out, needed)
}

/// Writes the input with the entry before the first message or term of the name and before the comment that is attached
/// to that, or, of no name, at its end; returns what `ftl_set_value` does.
#[unsafe(no_mangle)]
pub extern "C" fn ftl_insert(
    alloc: Global,
    edition: u32,
    nesting: usize,
    input: &[u8],
    name: &[u8],
    entry: &[u8],
    out: &mut [u8],
    needed: &mut usize,
) -> u32
    ensures gives { GivesEdit edition input.now name.now Action.Insert entry.now nesting out.old out.new needed.new
        result }
{
    let made = edited_bytes(alloc, Action::Insert, edition, nesting, input, name, entry);
    give_edited(made, out, needed)
}

/// Writes the input without the first message or term of the name, the comment that is attached to it and the blank
/// lines after it; returns what `ftl_set_value` does.
#[unsafe(no_mangle)]
pub extern "C" fn ftl_remove(
    alloc: Global,
    edition: u32,
    nesting: usize,
    input: &[u8],
    name: &[u8],
    out: &mut [u8],
    needed: &mut usize,
) -> u32
    ensures gives { GivesEdit edition input.now name.now Action.Remove [] nesting out.old out.new needed.new result }
{
    let made = edited_bytes(alloc, Action::Remove, edition, nesting, input, name, b"");
    give_edited(made, out, needed)
}

/// The bytes of the input with the edit made.
fn edited_bytes(
    alloc: Global,
    action: Action<'_>,
    edition: u32,
    nesting: usize,
    input: &[u8],
    name: &[u8],
    part: &[u8],
) -> Result<Result<(Vec<u8>, Outcome), EditRefusal>, Refusal>
    ensures edited { IfOk result (λ answer. IfOk answer (λ given.
        IsEdited edition input.now name.now action.entry part.now given.0.items given.1)) }
    ensures not_edited { IfOk result (λ answer. IfErr answer
        (IsNotEdited edition input.now name.now action.entry part.now)) }
    ensures argument { (result ≡ Err Refusal.Argument) ↔ IsNoEdition edition }
    ensures input { ¬ (IsNoEdition edition) →
        ((result ≡ Err Refusal.Input) ↔ ¬ (IsUtf8 input.now × IsUtf8 name.now × IsUtf8 part.now)) }
    ensures deep { result ≡ Err Refusal.Depth →
        (nesting < length input.now) ⊎ (nesting < length (part_source action.entry part.now)) }
    ensures deeper { result ≡ Err Refusal.Depth → EditionReadsDeeper edition input.now nesting
        ⊎ EditionReadsDeeper edition (part_source action.entry part.now) nesting }
    ensures shallow { IfOk result (λ answer. EditionReadsDeeper edition input.now nesting
        ⊎ EditionReadsDeeper edition (part_source action.entry part.now) nesting → ⊥) }
    ensures tree { result ≢ Err Refusal.Tree }
{
    if edition_of(edition).is_none() {
        return Err(Refusal::Argument);
    }
    if str::from_utf8(input).is_err() {
        return Err(Refusal::Input);
    }
    let (Ok(name), Ok(part)) = (str::from_utf8(name), str::from_utf8(part)) else {
        return Err(Refusal::Input);
    };
    let Ok(new) = part_source(alloc, action, part) else {
        return Err(Refusal::Memory);
    };
    let source = text_tree(alloc, edition, nesting, input)?;
    let part = text_tree(alloc, edition, nesting, new.as_bytes())?;
    edited_text(alloc, &source, name, action, &part)
}

/// The text of the source with the edit made, and its outcome.
fn edited_text(
    alloc: Global,
    source: &TextTree<'_>,
    name: &str,
    action: Action<'_>,
    part: &TextTree<'_>,
) -> Result<Result<(Vec<u8>, Outcome), EditRefusal>, Refusal>
    ensures edited { (edition : ByEdition) (t p : List ℕ) → IsTextTree edition t source.now →
        IsTextTree edition (part_source action.entry p) part.now → IfOk result (λ answer. IfOk answer (λ given.
        IsEdited (edition_number edition) t name.now action.entry p given.0.items given.1)) }
    ensures not_edited { (edition : ByEdition) (t p : List ℕ) → IsTextTree edition t source.now →
        IsTextTree edition (part_source action.entry p) part.now → IfOk result (λ answer. IfErr answer
        (IsNotEdited (edition_number edition) t name.now action.entry p)) }
    ensures memory { IfErr result (λ refusal. refusal ≡ Refusal.Memory) }
{
    match place_of(action, name, &source.tree) {
        Some(index) => match edited_source(alloc, source, index, action, part) {
            Some(Ok(text)) => Ok(Ok((text.into_bytes(), source.outcome))),
            Some(Err(fault)) => match edit_refusal(fault) {
                Some(refusal) => Ok(Err(refusal)),
                None => Err(Refusal::Memory),
            },
            None => match part.outcome {
                Outcome::Clean => Ok(Err(EditRefusal::NotOneEntry)),
                Outcome::SyntaxErrors => Ok(Err(EditRefusal::PartHasErrors)),
            },
        },
        None => Ok(Err(EditRefusal::NotFound)),
    }
}

/// Why an edit is not made; `None` for want of memory.
pub(crate) fn edit_refusal(fault: EditFault) -> Option<EditRefusal>
    ensures { result ≡ edit_refusal fault }
{
    match fault {
        EditFault::NoEntry | EditFault::IsJunk(_) => Some(EditRefusal::NotFound),
        EditFault::NoValue => Some(EditRefusal::NoValue),
        EditFault::NotCanonical(rule) => Some(EditRefusal::NotCanonical(rule)),
        EditFault::ReadsOtherwise => Some(EditRefusal::ReadsOtherwise),
        EditFault::Overlap => Some(EditRefusal::Overlap),
        EditFault::Memory => None,
    }
}
