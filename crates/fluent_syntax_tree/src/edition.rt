//! Which of the two grammars.

/// An edition of the grammar.
#[derive(Clone, Copy, Debug, PartialEq, Eq)]
pub enum Edition {
    /// The grammar of the Rust crate.
    One,
    /// The grammar in which placeables count for the common indent and keep the spaces beyond it,
    /// and in which a lone `*` is no default variant.
    Two,
}
