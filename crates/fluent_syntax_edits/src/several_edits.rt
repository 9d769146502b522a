//! Several edits of one text.
ghost use Rattle.std.specs.Prelude.{◌≡◌, ◌↔◌, map, IfOk, IsTrue, string_bytes};
ghost use Rattle.fluent_syntax_edits.specs.SeveralEdits.{AreReplacements, IsDraftOfReplacements};
ghost use Rattle.fluent_syntax_edits.specs.SeveralEdits.{IsTextOfReplacements, ReadsAllChanged, first_refusal};
ghost use Rattle.fluent_syntax_edits.specs.SeveralEdits.{numbered_change};

use crate::apply_edit::apply_all;
use crate::drafts::{Draft, Replacement, draft_of};
use crate::edit::refusal;
use crate::fault::EditFault;
use crate::moved_errors::are_moved_by;
use crate::numbered_edits::NumberedEdit;
use crate::reading::read;
use fluent_syntax_tree::edition::Edition;
use fluent_syntax_tree::laws::same_texts;
use std::alloc::{AllocError, Global};

/// Why the new text is read otherwise, if it is, as far as it is known of what is new.
fn first_refusal(
    alloc: Global,
    edition: Edition,
    edits: &[NumberedEdit],
) -> Result<EditFault, AllocError>
    ensures { IfOk result (λ fault. fault ≡ first_refusal edition (map numbered_change edits.now)) }
{
    for edit in edits {
        match refusal(alloc, edition, &edit.edit)? {
            EditFault::ReadsOtherwise => {}
            fault => return Ok(fault),
        }
    }
    Ok(EditFault::ReadsOtherwise)
}

/// Whether the new text is read as the tree of the source with each edit made, and with the source's errors.
fn reads_all_changed(
    alloc: Global,
    source: &str,
    edition: Edition,
    edits: &[NumberedEdit],
    draft: &Draft,
) -> Result<bool, AllocError>
    ensures { IfOk result (λ so. IsTrue so ↔ ReadsAllChanged edition source.now (map numbered_change edits.now)
        draft.now.replacements.items (string_bytes draft.now.text)) }
{
    let source = String::from_str(alloc, source)?;
    let (mut tree, errors) = read(alloc, &source, edition)?;
    let (new_tree, new_errors) = read(alloc, &draft.text, edition)?;
    apply_all(alloc, edits, &mut tree.body)?;
    if same_texts(&tree, &new_tree) {
        are_moved_by(&draft.replacements, &errors, &new_errors)
    } else {
        Ok(false)
    }
}

/// The new text, if it is read as the source with each edit made.
fn edited(
    alloc: Global,
    source: &str,
    edition: Edition,
    edits: &[NumberedEdit],
) -> Result<Draft, EditFault>
    ensures { IsDraftOfReplacements edition source.now (map numbered_change edits.now) result }
{
    let draft = draft_of(alloc, source, edition, edits)?;
    if reads_all_changed(alloc, source, edition, edits, &draft)? {
        Ok(draft)
    } else {
        Err(first_refusal(alloc, edition, edits)?)
    }
}

/// What comes in the place of which stretches of the source when each edit is made, in the order of the text. The
/// numbers are those of the source's tree. The edits are in the order of the text: the stretch of each ends where that
/// of the next one begins, or before. Entries that are inserted with one number come in their order.
pub fn replacements(
    alloc: Global,
    source: &str,
    edition: Edition,
    edits: &[NumberedEdit],
) -> Result<Vec<Replacement>, EditFault>
    ensures { AreReplacements edition source.now (map numbered_change edits.now) result }
{
    let draft = edited(alloc, source, edition, edits)?;
    Ok(draft.replacements)
}

/// The source with each edit made, under the same rules.
pub fn edit_all(
    alloc: Global,
    source: &str,
    edition: Edition,
    edits: &[NumberedEdit],
) -> Result<String, EditFault>
    ensures { IsTextOfReplacements edition source.now (map numbered_change edits.now) result }
{
    let draft = edited(alloc, source, edition, edits)?;
    Ok(draft.text)
}
