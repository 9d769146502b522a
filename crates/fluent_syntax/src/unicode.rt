//! Unescaping the texts of string literals, and what text is written to.

pub use fluent_syntax_grammar::sink::{SinkError, TextSink};
pub use fluent_syntax_writer::unicode::{unescape_unicode, unescape_unicode_to_string};
