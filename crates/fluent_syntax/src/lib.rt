//! Fluent Translation Lists: the tree, both parsers, the serializer, and unescaping.
//!
//! `parser` reads a text as a tree of texts, `spans` as a tree of ranges of it; `serializer` writes a
//! tree; `unicode` resolves the escapes of string literals; `ast` has the nodes of the tree.
#![tactic(auto)]

mod entries;
mod flat;
pub mod laws;
mod lines;
pub mod parser;
mod recovered;
mod resolved;
pub mod spans;
pub mod unicode;

pub use fluent_syntax_tree::ast;
pub use fluent_syntax_writer::serializer;
