//! What several edits of a text ask for.
ghost use Rattle.std.specs.Prelude.{◌≡◌, ◌⊎◌, ◌++◌, ◌∷◌, [], List, ℕ, map, Err, IfErr, IfOk, IfSome, IfNone, OnOk};
ghost use Rattle.std.specs.List.{Any};
ghost use Rattle.fluent_syntax_tree.specs.Entry.{AttributeTree};
ghost use Rattle.fluent_syntax_tree.specs.View.{resource_view};
ghost use Rattle.fluent_syntax_tree.specs.declared.edition.Edition.{Edition as ByEdition};
ghost use Rattle.fluent_syntax_edits.specs.Changes.{Change};
ghost use Rattle.fluent_syntax_edits.specs.SeveralEdits.{numbered_change};
ghost use Rattle.fluent_syntax_c.specs.Arguments.{IsNoEdition, edition_number};
ghost use Rattle.fluent_syntax_c.specs.Edits.{Asks, IsTextTree, Spells, attributes_at, part_source};
ghost use Rattle.fluent_syntax_c.specs.SeveralEdits.{AskFor, AsksFor, AsksForNone, EditAsksForNone, PartReadsDeeper};

use crate::edited::{Action, attribute_number, one_entry, one_value, part_source, place_of};
use crate::several_edits::{FtlEdit, action_of};
use crate::status::{EditRefusal, Refusal};
use crate::text_trees::{TextTree, text_tree};
use fluent_syntax_edits::NumberedEdit;
use ftl::Outcome;
use std::alloc::{AllocError, Global};

/// What the edits ask for, at the numbers that the entries have in the source.
pub(crate) fn asked_edits(
    alloc: Global,
    source: &TextTree<'_>,
    edition: u32,
    nesting: usize,
    edits: &[FtlEdit<'_>],
) -> Result<Result<Vec<NumberedEdit>, EditRefusal>, Refusal>
    requires edition { ¬ (IsNoEdition edition) }
    ensures asked { (by : ByEdition) (t : List ℕ) (is : IsTextTree by t source.now) → edition_number by ≡ edition →
        IfOk result (λ answer. IfOk answer (λ asked.
        AskFor (edition_number by) t by is.tiles edits.now (map numbered_change asked.items))) }
    ensures none { (by : ByEdition) (t : List ℕ) (is : IsTextTree by t source.now) → edition_number by ≡ edition →
        IfOk result (λ answer. IfErr answer (λ why.
        Any (λ edit. EditAsksForNone (edition_number by) t edit why) edits.now)) }
    ensures err { IfErr result (λ refusal. (refusal ≡ Refusal.Memory) ⊎ (refusal ≡ Refusal.Depth)) }
    ensures deeper { (t : List ℕ) → result ≡ Err Refusal.Depth →
        Any (PartReadsDeeper edition t nesting) edits.now }
{
    let mut asked = Vec::new(alloc);
    for edit in edits {
        let new = match asked_edit(alloc, source, edition, nesting, edit)? {
            Ok(new) => new,
            Err(refusal) => return Ok(Err(refusal)),
        };
        let Ok(()) = add_edit(&mut asked, new) else {
            return Err(Refusal::Memory);
        };
    }
    Ok(Ok(asked))
}

fn add_edit(edits: &mut Vec<NumberedEdit>, edit: NumberedEdit) -> Result<(), AllocError>
    ensures { OnOk result (edits.new.items ≡ edits.old.items ++ edit ∷ []) }
{
    edits.push(edit)?;
    Ok(())
}

/// What the edit asks for.
fn asked_edit(
    alloc: Global,
    source: &TextTree<'_>,
    edition: u32,
    nesting: usize,
    edit: &FtlEdit<'_>,
) -> Result<Result<NumberedEdit, EditRefusal>, Refusal>
    requires edition { ¬ (IsNoEdition edition) }
    ensures asked { (by : ByEdition) (t : List ℕ) (is : IsTextTree by t source.now) → edition_number by ≡ edition →
        IfOk result (λ answer. IfOk answer (λ asked.
        AsksFor (edition_number by) t by is.tiles edit.now (numbered_change asked))) }
    ensures none { (by : ByEdition) (t : List ℕ) (is : IsTextTree by t source.now) → edition_number by ≡ edition →
        IfOk result (λ answer. IfErr answer (EditAsksForNone (edition_number by) t edit.now)) }
    ensures err { IfErr result (λ refusal. (refusal ≡ Refusal.Memory) ⊎ (refusal ≡ Refusal.Depth)) }
    ensures deeper { (t : List ℕ) → result ≡ Err Refusal.Depth → PartReadsDeeper edition t nesting edit.now }
{
    // the kind and the texts of each edit were looked at before
    let Some(action) = action_of(edit) else {
        return Err(Refusal::Memory);
    };
    let (Ok(name), Ok(part)) = (str::from_utf8(edit.name), str::from_utf8(edit.part)) else {
        return Err(Refusal::Memory);
    };
    let Ok(new) = part_source(alloc, action, part) else {
        return Err(Refusal::Memory);
    };
    let part = text_tree(alloc, edition, nesting, new.as_bytes())?;
    edit_of_part(alloc, source, name, action, &part)
}

/// The same, of what was read of the part.
fn edit_of_part(
    alloc: Global,
    source: &TextTree<'_>,
    name: &str,
    action: Action<'_>,
    part: &TextTree<'_>,
) -> Result<Result<NumberedEdit, EditRefusal>, Refusal>
    ensures asked { (by : ByEdition) (t p : List ℕ) (is : IsTextTree by t source.now) →
        IsTextTree by (part_source action.entry p) part.now → IfOk result (λ answer. IfOk answer (λ asked.
        Asks (edition_number by) t name.now action.entry p by is.tiles (numbered_change asked).number
        (numbered_change asked).change)) }
    ensures none { (by : ByEdition) (t p : List ℕ) → IsTextTree by t source.now →
        IsTextTree by (part_source action.entry p) part.now → IfOk result (λ answer. IfErr answer
        (AsksForNone (edition_number by) t name.now action.entry p)) }
    ensures memory { IfErr result (λ refusal. refusal ≡ Refusal.Memory) }
{
    match place_of(action, name, &source.tree) {
        Some(index) => match new_edit(alloc, source, index, action, part) {
            Some(Ok(edit)) => Ok(Ok(edit)),
            Some(Err(AllocError)) => Err(Refusal::Memory),
            None => match part.outcome {
                Outcome::Clean => Ok(Err(EditRefusal::NotOneEntry)),
                Outcome::SyntaxErrors => Ok(Err(EditRefusal::PartHasErrors)),
            },
        },
        None => Ok(Err(EditRefusal::NotFound)),
    }
}

/// The change that the part spells, at the entry of that number; `None` where it spells none.
fn new_edit(
    alloc: Global,
    source: &TextTree<'_>,
    index: usize,
    action: Action<'_>,
    part: &TextTree<'_>,
) -> Option<Result<NumberedEdit, AllocError>>
    ensures some { (by : ByEdition) (p : List ℕ) → IsTextTree by (part_source action.entry p) part.now →
        IfSome result (λ made. IfOk made (λ edit. (change : Change)
        × (numbered_change edit ≡ record { number = index; change = change })
        × Spells by action.entry (attributes_at index (resource_view (λ text. text.now) source.now.tree)) p change)) }
    ensures none { (by : ByEdition) (p : List ℕ) → IsTextTree by (part_source action.entry p) part.now →
        IfNone result ((own : List (AttributeTree (List ℕ))) (change : Change) →
        Spells by action.entry own p change → ⊥) }
{
    match action {
        Action::SetValue => Some(NumberedEdit::set_value(alloc, index, one_value(part)?)),
        Action::SetAttribute(name) => {
            let number = attribute_number(&source.tree, index, name);
            Some(NumberedEdit::set_attribute(alloc, index, number, one_value(part)?))
        }
        Action::Replace => Some(NumberedEdit::replace(alloc, index, one_entry(part)?)),
        Action::Insert => Some(NumberedEdit::insert(alloc, index, one_entry(part)?)),
        Action::Remove => Some(Ok(NumberedEdit::remove(index))),
    }
}
