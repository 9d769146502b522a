//! Trees of ranges of their source.

pub use crate::lines::{Lines, line_column};
pub use crate::resolved::{resolve, resolve_entry};
pub use fluent_syntax_parser::entries::Entries;
pub use fluent_syntax_parser::options::{Comments, Halt, Options};
pub use fluent_syntax_parser::ranges::{AttributeRanges, EntryRanges, entry_ranges};
pub use fluent_syntax_parser::refusals::attribute_refusal;
pub use fluent_syntax_parser::texts::{AsSpans, MakeTexts, Slices};
pub use fluent_syntax_parser::tiles::{SpannedTile, Tiles};
pub use fluent_syntax_parser::{
    parse_runtime_spans, parse_runtime_spans_edition, parse_runtime_spans_within, parse_spans,
    parse_spans_edition, parse_spans_within,
};
pub use fluent_syntax_tree::spans::Span;
