//! What the words of a command line ask of `ftl`.
#![tactic(auto)]

mod commands;
mod compare_args;
mod lint_args;
mod mistakes;
mod options;
mod request;
mod requested;
mod usage;

pub use compare_args::Compare;
pub use lint_args::Lint;
pub use mistakes::{mistake, status_of};
pub use options::Options;
pub use request::{Change, Conversion, Request, Task, Work};
pub use requested::request_of;
pub use usage::usage_of;
