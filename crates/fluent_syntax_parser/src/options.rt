//! How a text is read.

use fluent_syntax_tree::edition::Edition;
use std::alloc::{AllocError, AllocFailed};
use thiserror::Error;

/// Whether comments are read.
#[derive(Clone, Copy, Debug)]
pub enum Comments {
    /// They are entries, or are attached to the entries after them.
    Kept,
    /// Where an entry would begin with `#`, the rest of that line is dropped.
    Dropped,
}

/// By which edition, with which comments, and how deeply nested a text is read.
#[derive(Clone, Copy, Debug)]
pub struct Options {
    pub edition: Edition,
    pub comments: Comments,
    /// How many placeables and argument lists may be open at once.
    pub nesting: usize,
}

/// Why reading stops before the text's end.
#[derive(Clone, Copy, Debug, Drop, Error)]
pub enum Halt {
    /// It nests more deeply than was allowed.
    #[error("the text nests too deeply")]
    TooDeep,
    /// A growth was refused.
    #[error("no memory")]
    Memory,
}

impl From<AllocError> for Halt {
    ghost use Rattle.fluent_syntax_parser.specs.declared.options.Halt.TheVariants.{Memory};
    ghost use Rattle.std.specs.Prelude.{◌≡◌};

    ghost from_gives = { λ _ halt. halt ≡ Memory };

    fn from(_error: AllocError) -> Self {
        Halt::Memory
    }
}

impl<T: Drop> From<AllocFailed<T>> for Halt {
    ghost use Rattle.fluent_syntax_parser.specs.declared.options.Halt.TheVariants.{Memory};
    ghost use Rattle.std.specs.Prelude.{◌≡◌};

    ghost from_gives = { λ _ halt. halt ≡ Memory };

    fn from(_error: AllocFailed<T>) -> Self {
        Halt::Memory
    }
}
