//! Tests of the engine: commands, runs over a reader and a writer, and JSON as text.
pub(crate) mod ends;
mod formatted;
mod from_json;
mod runs;
mod words;
