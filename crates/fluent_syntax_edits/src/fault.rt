//! Why an edit is refused.

use fluent_syntax_tree::spans::Span;
use fluent_syntax_writer::canonical::Rule;
use std::alloc::AllocError;
use thiserror::Error;

/// Why an edit was refused. Then there is no new text.
#[derive(Clone, Copy, Debug, Drop, Eq, Error, PartialEq)]
pub enum EditFault {
    /// The text has no entry of that number. (An entry may be inserted with the number after the last.)
    #[error("there is no such entry")]
    NoEntry,
    /// What has that number is junk, which is there in the source.
    #[error("it is junk")]
    IsJunk(Span),
    /// What has that number has no such value: it is a comment by itself, a message without a value, or has
    /// fewer attributes.
    #[error("there is no such value")]
    NoValue,
    /// The text would be read otherwise, and what is new is not canonical: the first rule that it breaks.
    #[error("what is new would not read back: {0}")]
    NotCanonical(Rule),
    /// The text would be read otherwise than as the source with the edit made, or with other errors.
    #[error("the text would be read otherwise")]
    ReadsOtherwise,
    /// Of several edits, two change the same stretch, or they are not in the order of the text.
    #[error("two edits change the same stretch, or they are not in the order of the text")]
    Overlap,
    /// A growth was refused.
    #[error("no memory")]
    Memory,
}

impl From<AllocError> for EditFault {
    ghost use Rattle.fluent_syntax_edits.specs.declared.fault.EditFault.TheVariants.{Memory};
    ghost use Rattle.std.specs.Prelude.{◌≡◌};

    ghost from_gives = { λ _ fault. fault ≡ Memory };

    fn from(_error: AllocError) -> Self {
        EditFault::Memory
    }
}
