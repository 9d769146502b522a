//! The engine of `ftl`: checks, formats and converts a text that a reader gives.
#![tactic(auto)]

mod answers;
mod blank_lines;
mod causes;
mod command;
mod error_advice;
mod errors;
mod from_json;
pub mod laws;
mod look_alikes;
mod lossless;
mod one_by_one;
mod open_bracket;
mod outcome;
mod refused_text;
mod runs;
mod watched;
mod writers;

pub use answers::{Formatted, answer, answer_within, formatted_within};
pub use blank_lines::{formatted_keeping, with_blank_lines};
pub use causes::{Cause, Lead, lead_of};
pub use command::{Command, usage};
pub use error_advice::advice;
pub use errors::errors_within;
pub use from_json::{JsonFault, text_of_json, tree_of_json};
pub use look_alikes::is_unseen;
pub use lossless::first_lossy_entry;
pub use open_bracket::OpenBracket;
pub use outcome::{Outcome, RunFault};
pub use runs::{run, run_within, write_all};
pub use watched::Watched;
