//! Files of a reference, each with its translation.

use fluent_syntax_names::Side;
use ftl_files::IgnoreRule;

/// A file of the reference, and the one that is to be its translation.
#[derive(Debug, Drop)]
pub struct Pair<'a> {
    pub reference: String,
    pub other: String,
    pub presence: Presence,
    /// What is not reported of the pair, nor counted.
    pub ignored: &'a [IgnoreRule],
}

/// Which files of a pair are there.
#[derive(Clone, Copy, Debug, PartialEq, Eq)]
pub enum Presence {
    Both,
    ReferenceAlone,
    OtherAlone,
}

impl Pair<'_> {
    /// The path of the file of this side.
    pub(crate) fn path(&self, side: Side) -> &str {
        match side {
            Side::Reference => self.reference.as_str(),
            Side::Other => self.other.as_str(),
        }
    }
}
