//! Edits of a text: an entry in another's place, before another, or away, or a value in another's place; all else stays
//! as it is.
#![tactic(auto)]

mod apply_edit;
mod drafts;
mod edit;
mod edited_ranges;
#[tactic(auto, using(crate::proofs::Answered::memory_error_is_edit_result))]
mod edits;
mod entry_places;
pub mod fault;
mod missing_attributes;
mod missing_entries;
mod moved_errors;
mod numbered_edits;
pub mod numbers;
mod own_parts;
mod reading;
#[tactic(auto, using(crate::proofs::Refused::memory_error_is_draft_of_replacements))]
mod several_edits;

pub use drafts::Replacement;
pub use edits::{insert, remove, replace, set_attribute, set_value};
pub use fault::EditFault;
pub use missing_entries::additions;
pub use numbered_edits::NumberedEdit;
pub use numbers::{EntryName, number_of};
pub use several_edits::{edit_all, replacements};
