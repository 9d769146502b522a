//! Runs over the files of a project: they are checked, or formatted in place.
#![tactic(auto)]

mod adding;
mod answering;
mod comparing;
mod fault;
mod formatting;
mod linting;
mod locations;
mod name_indexes;
mod reporting;
mod streams;
mod tally;

pub use adding::{AddCounts, AddOptions, Addition, add_missing, add_summary};
pub use answering::checking::CheckTask;
pub use answering::converting::ConvertTask;
pub use answering::printing::PrintTask;
pub use answering::spanned_json::SpannedJsonTask;
pub use answering::{Answer, FileTask, answer_files};
pub use comparing::pair::{Pair, Presence};
pub use comparing::share::{Share, share_json, share_line};
pub use comparing::{CompareOptions, compare_files};
pub use fault::{Fault, InvalidText};
pub use formatting::diffing::DiffTask;
pub use formatting::format_task::FormatTask;
pub use formatting::lossy_entry::{LossyEntry, lossy_entry_in, lossy_entry_line, lossy_note};
pub use formatting::replacement::{FormatOptions, Replacement, replacement_for};
pub use formatting::rewrite_counts::{RewriteCounts, write_summary};
pub use formatting::rewriting::rewrite;
pub use formatting::{NameTask, write_files};
pub use ftl_files::{BlankLines, Form, Reading};
pub use linting::{LintFile, LintOptions, lint_files};
pub use reporting::excerpt::push_excerpt;
pub use reporting::report;
pub use reporting::text_with_errors::TextWithErrors;
pub use streams::{Streams, note_line, report_fault};
pub use tally::{Tally, check_summary, format_summary};
