//! Ranges of a text whose places are asked for in any order.

use crate::documents::positions::{PositionRange, Positions};
use fluent_syntax::spans::Span;
use std::alloc::{AllocError, Global};

/// A range of a text, in bytes and in places.
#[derive(Clone, Copy)]
struct MappedRange {
    span: Span,
    range: PositionRange,
}

/// Ranges of a text with their places, in its order: so it is read once for all of them.
#[derive(Drop)]
pub struct MappedRanges<'t> {
    text: &'t str,
    ranges: Vec<MappedRange>,
}

impl<'t> MappedRanges<'t> {
    /// Those of these ranges. `AllocError` where a growth was refused.
    pub fn of(
        alloc: Global,
        text: &'t str,
        mut spans: Vec<Span>,
    ) -> Result<MappedRanges<'t>, AllocError> {
        spans.sort_by_key(|span| span.start)?;
        let mut positions = Positions::new(text);
        let mut ranges = Vec::new(alloc);
        for span in &spans {
            let range = positions.range(*span);
            ranges.push(MappedRange { span: *span, range })?;
        }
        Ok(MappedRanges { text, ranges })
    }

    /// The places of a range of the text: as they were noted, or else read from the begin of the text.
    pub fn range(&self, span: Span) -> PositionRange {
        let mapped = &self.ranges;
        if let Ok(number) = mapped.binary_search_by_key(&span.start, |one| one.span.start) {
            if mapped[number].span == span {
                return mapped[number].range;
            }
        }
        Positions::new(self.text).range(span)
    }
}
