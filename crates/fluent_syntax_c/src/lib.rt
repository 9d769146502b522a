//! Fluent Translation Lists for C, and for all that calls C: a static library.
//!
//! `include/fluent.h` declares what is exported here, and `docs/C.md` explains it. An exported function takes a text
//! and the caller's memory, and returns the number of a status; nothing of a call is kept.
#![tactic(auto)]

mod answers;
mod arguments;
mod asked_edits;
mod canonical;
mod causes;
mod columns;
mod comparison;
mod edited;
mod edits;
mod errors;
mod finding_kinds;
mod findings;
mod kinds;
mod messages;
mod name_indexes;
mod names;
mod nodes;
mod outputs;
mod pattern_nodes;
mod readings;
mod rows;
mod rules;
mod several_edits;
mod status;
mod status_names;
mod text_trees;
mod texts;
mod values;

pub use answers::ftl_answer;
pub use canonical::{ftl_first_uncanonical, ftl_is_canonical};
pub use causes::{FtlCause, ftl_cause_messages, ftl_causes};
pub use comparison::ftl_comparison;
pub use edits::{ftl_insert, ftl_remove, ftl_replace, ftl_set_attribute, ftl_set_value};
pub use errors::{FtlError, ftl_errors};
pub use findings::{FtlFinding, ftl_finding_kind_name, ftl_findings};
pub use messages::{ftl_error_messages, ftl_kind_name};
pub use name_indexes::FtlText;
pub use names::{FtlName, ftl_names};
pub use nodes::{FtlNode, ftl_nodes};
pub use several_edits::{FtlEdit, ftl_edit_all};
pub use status_names::{ftl_status_name, ftl_version};
pub use values::{FtlValue, ftl_values};
