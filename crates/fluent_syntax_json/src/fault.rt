//! Why no tree came of a value.
ghost use Rattle.std.specs.Prelude.{◌≡◌};

use std::alloc::{AllocError, AllocFailed};

/// Why no tree came of a value.
#[derive(Debug, Drop, PartialEq)]
pub enum ValueFault {
    /// The value spells no tree.
    Shape,
    /// A growth was refused.
    Memory,
}

impl From<AllocError> for ValueFault {
    ghost use Rattle.fluent_syntax_json.specs.declared.fault.ValueFault.TheVariants.{Memory};

    ghost from_gives = { λ _ fault. fault ≡ Memory };

    fn from(_error: AllocError) -> Self {
        ValueFault::Memory
    }
}

impl<T: Drop> From<AllocFailed<T>> for ValueFault {
    ghost use Rattle.fluent_syntax_json.specs.declared.fault.ValueFault.TheVariants.{Memory};

    ghost from_gives = { λ _ fault. fault ≡ Memory };

    fn from(_error: AllocFailed<T>) -> Self {
        ValueFault::Memory
    }
}
