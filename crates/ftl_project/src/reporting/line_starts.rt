//! Where the lines of a text begin, for places that come in any order.

use std::alloc::{AllocError, Global};

/// Where the lines of a text begin, in bytes.
#[derive(Drop)]
pub(crate) struct LineStarts {
    starts: Vec<usize>,
}

impl LineStarts {
    pub(crate) fn of(alloc: Global, text: &str) -> Result<Self, AllocError> {
        let mut starts = Vec::new(alloc);
        starts.push(0)?;
        for (index, byte) in text.as_bytes().iter().enumerate() {
            if *byte == b'\n' {
                starts.push(index.saturating_add(1))?;
            }
        }
        Ok(LineStarts { starts })
    }

    /// The line and the column of the place, both from 1 and the column in bytes.
    pub(crate) fn line_column(&self, place: usize) -> (usize, usize) {
        match self.starts.binary_search(&place) {
            Ok(index) => (index.saturating_add(1), 1),
            Err(line) => {
                let start = self
                    .starts
                    .get(line.saturating_sub(1))
                    .copied()
                    .unwrap_or(0);
                (line, place.saturating_sub(start).saturating_add(1))
            }
        }
    }
}
