//! The call that changes several entries of a text at once.
ghost use Rattle.std.specs.Prelude.{◌≡◌, ◌↔◌, ◌⊎◌, List, ℕ, map, true, Err, IfErr, IfOk};
ghost use Rattle.std.specs.List.{All, Any};
ghost use Rattle.std.specs.Str.{IsUtf8};
ghost use Rattle.fluent_syntax_tree.specs.declared.edition.Edition.{Edition as ByEdition};
ghost use Rattle.fluent_syntax_edits.specs.SeveralEdits.{numbered_change};
ghost use Rattle.fluent_syntax_c.specs.Arguments.{IsNoEdition, edition_number};
ghost use Rattle.fluent_syntax_c.specs.Depth.{EditionReadsDeeper};
ghost use Rattle.fluent_syntax_c.specs.Edits.{IsTextTree};
ghost use Rattle.fluent_syntax_c.specs.SeveralEdits.{AreEdited, AreNotEdited, AskFor, GivesEdits, HasAction, HasTexts};
ghost use Rattle.fluent_syntax_c.specs.SeveralEdits.{PartReadsDeeper, action_of};
ghost use Rattle.fluent_syntax_c.specs.declared.several_edits.FtlEdit.{FtlEdit as Edit};

use crate::arguments::edition_of;
use crate::asked_edits::asked_edits;
use crate::edited::Action;
use crate::edits::edit_refusal;
use crate::outputs::give_edited;
use crate::status::{EditRefusal, Refusal};
use crate::text_trees::{TextTree, text_tree};
use fluent_syntax_edits::{NumberedEdit, edit_all};
use ftl::Outcome;
use std::alloc::Global;

/// An edit: `struct ftl_edit` of `include/fluent.h`.
#[repr(C)]
#[derive(Clone, Copy)]
pub struct FtlEdit<'t> {
    /// The name of the message or the term; of an insertion at the end none.
    pub name: &'t [u8],
    /// The name of the attribute whose value is set.
    pub attribute: &'t [u8],
    /// The value or the entry.
    pub part: &'t [u8],
    /// What is done.
    pub kind: u32,
}

/// Writes the input with each edit made to the front of `out`, and the number of its bytes to `needed`. Each is made as
/// the call of its kind makes it, at the entry that has the name in the input, and they come in the order of the input.
///
/// Returns what `ftl_set_value` does, of the first edit for which there is something to return; 2 also where a kind has
/// no such number, and 13 where two edits change the same stretch, or are not in the order of the input.
#[unsafe(no_mangle)]
pub extern "C" fn ftl_edit_all(
    alloc: Global,
    edition: u32,
    nesting: usize,
    input: &[u8],
    edits: &[FtlEdit<'_>],
    out: &mut [u8],
    needed: &mut usize,
) -> u32
    ensures gives { GivesEdits edition input.now edits.now nesting out.old out.new needed.new result }
{
    let made = all_edited_bytes(alloc, edition, nesting, input, edits);
    give_edited(made, out, needed)
}

/// What the kind of the edit says is done.
pub(crate) fn action_of<'t>(edit: &FtlEdit<'t>) -> Option<Action<'t>>
    ensures { result ≡ action_of edit.now }
{
    match edit.kind {
        1 => Some(Action::SetValue),
        2 => Some(Action::SetAttribute(edit.attribute)),
        3 => Some(Action::Replace),
        4 => Some(Action::Insert),
        5 => Some(Action::Remove),
        _ => None,
    }
}

/// Whether the kind of each edit is known.
fn have_actions(edits: &[FtlEdit<'_>]) -> bool
    ensures { (result ≡ true) ↔ All HasAction edits.now }
{
    for edit in edits {
        if !has_action(edit) {
            return false;
        }
    }
    true
}

fn has_action(edit: &FtlEdit<'_>) -> bool
    ensures { (result ≡ true) ↔ HasAction edit.now }
{
    action_of(edit).is_some()
}

/// Whether the name and the part of each edit are UTF-8.
fn have_texts(edits: &[FtlEdit<'_>]) -> bool
    ensures { (result ≡ true) ↔ All HasTexts edits.now }
{
    for edit in edits {
        if !has_texts(edit) {
            return false;
        }
    }
    true
}

fn has_texts(edit: &FtlEdit<'_>) -> bool
    ensures { (result ≡ true) ↔ HasTexts edit.now }
{
    str::from_utf8(edit.name).is_ok() && str::from_utf8(edit.part).is_ok()
}

/// The bytes of the input with each edit made.
fn all_edited_bytes(
    alloc: Global,
    edition: u32,
    nesting: usize,
    input: &[u8],
    edits: &[FtlEdit<'_>],
) -> Result<Result<(Vec<u8>, Outcome), EditRefusal>, Refusal>
    ensures edited { IfOk result (λ answer. IfOk answer (λ given.
        AreEdited edition input.now edits.now given.0.items given.1)) }
    ensures not_edited { IfOk result (λ answer. IfErr answer (AreNotEdited edition input.now edits.now)) }
    ensures argument { (result ≡ Err Refusal.Argument) ↔ (IsNoEdition edition ⊎ ¬ (All HasAction edits.now)) }
    ensures input { ¬ (IsNoEdition edition) → All HasAction edits.now →
        ((result ≡ Err Refusal.Input) ↔ ¬ (IsUtf8 input.now × All HasTexts edits.now)) }
    ensures deeper { result ≡ Err Refusal.Depth →
        EditionReadsDeeper edition input.now nesting ⊎ Any (PartReadsDeeper edition input.now nesting) edits.now }
{
    if edition_of(edition).is_none() {
        return Err(Refusal::Argument);
    }
    if !have_actions(edits) {
        return Err(Refusal::Argument);
    }
    if str::from_utf8(input).is_err() {
        return Err(Refusal::Input);
    }
    if !have_texts(edits) {
        return Err(Refusal::Input);
    }
    let source = text_tree(alloc, edition, nesting, input)?;
    edited_source(alloc, &source, edition, nesting, edits)
}

/// The text of the source with each edit made, and its outcome.
fn edited_source(
    alloc: Global,
    source: &TextTree<'_>,
    edition: u32,
    nesting: usize,
    edits: &[FtlEdit<'_>],
) -> Result<Result<(Vec<u8>, Outcome), EditRefusal>, Refusal>
    requires edition { ¬ (IsNoEdition edition) }
    ensures edited { (by : ByEdition) (t : List ℕ) → IsTextTree by t source.now → edition_number by ≡ edition →
        IfOk result (λ answer. IfOk answer (λ given. AreEdited edition t edits.now given.0.items given.1)) }
    ensures not_edited { (by : ByEdition) (t : List ℕ) → IsTextTree by t source.now → edition_number by ≡ edition →
        IfOk result (λ answer. IfErr answer (AreNotEdited edition t edits.now)) }
    ensures err { IfErr result (λ refusal. (refusal ≡ Refusal.Memory) ⊎ (refusal ≡ Refusal.Depth)) }
    ensures deeper { (t : List ℕ) → result ≡ Err Refusal.Depth → Any (PartReadsDeeper edition t nesting) edits.now }
{
    let asked = asked_edits(alloc, source, edition, nesting, edits)?;
    match asked {
        Ok(asked) => edited_text(alloc, source, &asked),
        Err(refusal) => Ok(Err(refusal)),
    }
}

/// The same, of what they ask for.
fn edited_text(
    alloc: Global,
    source: &TextTree<'_>,
    edits: &[NumberedEdit],
) -> Result<Result<(Vec<u8>, Outcome), EditRefusal>, Refusal>
    ensures edited { (by : ByEdition) (t : List ℕ) (is : IsTextTree by t source.now) (es : List Edit) →
        AskFor (edition_number by) t by is.tiles es (map numbered_change edits.now) →
        IfOk result (λ answer. IfOk answer (λ given. AreEdited (edition_number by) t es given.0.items given.1)) }
    ensures not_edited { (by : ByEdition) (t : List ℕ) (is : IsTextTree by t source.now) (es : List Edit) →
        AskFor (edition_number by) t by is.tiles es (map numbered_change edits.now) →
        IfOk result (λ answer. IfErr answer (AreNotEdited (edition_number by) t es)) }
    ensures memory { IfErr result (λ refusal. refusal ≡ Refusal.Memory) }
{
    match edit_all(alloc, source.text, source.edition, edits) {
        Ok(text) => Ok(Ok((text.into_bytes(), source.outcome))),
        Err(fault) => match edit_refusal(fault) {
            Some(refusal) => Ok(Err(refusal)),
            None => Err(Refusal::Memory),
        },
    }
}
