//! The tree of a Fluent resource, the texts that it may hold, and the errors of its parser.
#![tactic(auto)]

pub mod ast;
pub mod capacity;
#[tactic(auto, using(crate::proofs::Every::always))]
mod clones;
pub mod copied;
pub mod edition;
pub mod errors;
pub mod laws;
pub mod slice;
pub mod spans;
pub mod texts;
pub mod trimming;
