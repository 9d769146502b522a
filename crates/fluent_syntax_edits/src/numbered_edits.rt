//! Edits with the numbers of the entries that they are made at.
ghost use Rattle.std.specs.Prelude.{◌≡◌, IfOk};
ghost use Rattle.fluent_syntax_edits.specs.Changes.{inserts, joined_part, removes, replaces, sets};
ghost use Rattle.fluent_syntax_edits.specs.SeveralEdits.{numbered_change};
ghost use Rattle.fluent_syntax_edits.specs.declared.edited_ranges.ValueTarget.TheVariants.{Attribute, Value};
ghost use Rattle.fluent_syntax_grammar.specs.Joined.{joined_pattern};
ghost use Rattle.fluent_syntax_tree.specs.View.{entry_view, pattern_view};

use crate::edit::Edit;
use crate::edited_ranges::ValueTarget;
use crate::own_parts::{own_entry, own_pattern};
use fluent_syntax_tree::ast::{Entry, Pattern};
use fluent_syntax_tree::slice::Slice;
use std::alloc::{AllocError, Global};

/// What is done at the entry of a number, counted from 0 as in the tree of the source.
#[derive(Drop)]
pub struct NumberedEdit {
    pub(crate) index: usize,
    pub(crate) edit: Edit,
}

impl NumberedEdit {
    /// The entry comes in the place of that one, and of the comment that is attached to it.
    pub fn replace<'s, S: Slice<'s>>(
        alloc: Global,
        index: usize,
        entry: &Entry<S>,
    ) -> Result<Self, AllocError>
        ensures { IfOk result (λ e. numbered_change e
            ≡ record { number = index; change = replaces (joined_part (entry_view S.text entry.now)) }) }
    {
        let edit = Edit::Replace(own_entry(alloc, entry)?);
        Ok(NumberedEdit { index, edit })
    }

    /// The entry comes before that one, and before the comment that is attached to it; with the number after the last
    /// it comes at the end.
    pub fn insert<'s, S: Slice<'s>>(
        alloc: Global,
        index: usize,
        entry: &Entry<S>,
    ) -> Result<Self, AllocError>
        ensures { IfOk result (λ e. numbered_change e
            ≡ record { number = index; change = inserts (joined_part (entry_view S.text entry.now)) }) }
    {
        let edit = Edit::Insert(own_entry(alloc, entry)?);
        Ok(NumberedEdit { index, edit })
    }

    /// The entry goes, with the comment that is attached to it and the blank lines after it.
    pub fn remove(index: usize) -> Self
        ensures { numbered_change result ≡ record { number = index; change = removes } }
    {
        NumberedEdit {
            index,
            edit: Edit::Remove,
        }
    }

    /// The pattern comes in the place of the value of the message or the term.
    pub fn set_value(alloc: Global, index: usize, value: &Pattern<&str>) -> Result<Self, AllocError>
        ensures { let v = joined_pattern (pattern_view (λ text. text.now) value.now) in
            IfOk result (λ e. numbered_change e ≡ record { number = index; change = sets Value v }) }
    {
        let edit = Edit::Set(ValueTarget::Value, own_pattern(alloc, value)?);
        Ok(NumberedEdit { index, edit })
    }

    /// The pattern comes in the place of the value of an attribute, which has that number among those of the message or
    /// the term.
    pub fn set_attribute(
        alloc: Global,
        index: usize,
        attribute: usize,
        value: &Pattern<&str>,
    ) -> Result<Self, AllocError>
        ensures { let v = joined_pattern (pattern_view (λ text. text.now) value.now) in
            IfOk result (λ e. numbered_change e ≡ record { number = index; change = sets (Attribute attribute) v }) }
    {
        let target = ValueTarget::Attribute(attribute);
        let edit = Edit::Set(target, own_pattern(alloc, value)?);
        Ok(NumberedEdit { index, edit })
    }
}
