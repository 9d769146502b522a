//! What trees are written as, and what can be written.

mod canonical;
pub(crate) mod sinks;
mod unescaped;
mod written;
