//! What Fluent files say of names: which messages, terms and attributes they define, which they refer to, and which
//! variables and functions they use; and the mistakes that this shows.
#![tactic(auto)]

mod comparison;
mod comparison_tables;
mod cycles;
mod defined_names;
mod defined_so_far;
mod definitions;
mod differences;
mod entries;
mod entry_places;
mod files;
mod finding;
mod first_places;
mod graph;
mod known_names;
mod mention;
mod mention_findings;
mod message;
mod message_references;
mod missing_part;
mod name_index;
mod named_lists;
mod pattern_references;
mod patterns;
mod plural_categories;
mod qualified_names;
mod reference_graph;
mod select_counts;
mod selects;
mod shifted_mentions;
mod shown_names;
mod uses;

pub use comparison::missing_parts;
pub use defined_names::DefinedNames;
pub use differences::{Difference, Side};
pub use entries::{defined, mentions, references, variables};
pub use entry_places::entry_count;
pub use files::{
    findings, findings_in_language, findings_with_externals, local_findings,
    local_findings_in_language,
};
pub use finding::{Finding, Kind, Place, Severity};
pub use graph::components;
pub use mention::Mention;
pub use missing_part::{MissingPart, Part};
pub use name_index::{NameIndex, name_index_of};
pub use plural_categories::{LANGUAGE_GROUPS, LanguageGroup, plural_categories_of};
pub use selects::unchosen_keys;
pub use shown_names::{full_name, shown_name};
