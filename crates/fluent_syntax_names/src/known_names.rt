//! Names that are known to be defined.
ghost use Rattle.std.specs.Prelude.{◌≡◌};
ghost use Rattle.fluent_syntax_names.specs.Knowing.{knows, others_define};

use crate::defined_names::DefinedNames;
use crate::first_places::FirstPlaces;
use fluent_syntax_tree::spans::Span;

/// The names that files define, and those that others do.
#[derive(Clone, Copy)]
pub(crate) struct KnownNames<'a> {
    pub(crate) own: &'a FirstPlaces<Span>,
    pub(crate) others: &'a [&'a DefinedNames],
}

impl KnownNames<'_> {
    /// Whether one of them defines the name that is spelled so.
    pub(crate) fn has(&self, name: &[u8]) -> bool
        ensures { result ≡ knows self.now name.now }
    {
        self.own.place_of(name).is_some() || others_define(self.others, name)
    }
}

fn others_define(others: &[&DefinedNames], name: &[u8]) -> bool
    ensures { result ≡ others_define others.now name.now }
{
    others.iter().any(|other| other.has(name))
}
