//! A text that has syntax errors.
ghost use Rattle.std.specs.Prelude.{◌+◌, ◌<◌, ◌^◌, length, string_bytes};

use fluent_syntax::parser::ParserError;
use ftl_files::Reading;

/// A text and its syntax errors, in order.
#[derive(Debug, Drop)]
pub struct TextWithErrors {
    /// The text.
    pub text: String,
    /// Its errors.
    pub errors: Vec<ParserError>,
    /// How it was read.
    pub reading: Reading,
    ghost short: { length (string_bytes text) + 1 < 2 ^ 64 },
}
