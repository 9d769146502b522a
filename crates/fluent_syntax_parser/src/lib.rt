//! The parser of Fluent resources, in the form of its grammar: a reader for each construct, written in the order of
//! the construct's parts. A place of the text is a number that a reader is given, and where it ends is part of its
//! answer; the text itself never changes.
#![tactic(auto)]

pub mod entries;
mod entry;
mod error;
mod expression;
pub mod fault;
mod lists;
pub mod options;
mod pattern;
pub mod ranges;
mod reader;
pub mod refusals;
mod source;
mod spans;
pub mod texts;
pub mod tiles;
mod tokens;

pub use spans::{
    parse_runtime_spans, parse_runtime_spans_edition, parse_runtime_spans_within, parse_spans,
    parse_spans_edition, parse_spans_within, parse_texts,
};
