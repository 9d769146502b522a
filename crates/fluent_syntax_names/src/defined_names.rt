//! The names that some files define.
ghost use Rattle.std.specs.Prelude.{◌≡◌, List, ℕ, false, OnOk};
ghost use Rattle.fluent_syntax_names.specs.Knowing.{AddsDefined, defines_name};

use crate::definitions::note_definitions;
use crate::first_places::FirstPlaces;
use crate::mention::Mention;
use fluent_syntax_tree::spans::Span;
use std::alloc::{AllocError, Global};

/// The names that some files define, to look up references of others. `defines_name` in a clause says which they are.
#[derive(Drop)]
pub struct DefinedNames {
    places: FirstPlaces<Span>,
}

impl DefinedNames {
    /// Those of no file.
    pub fn new(alloc: Global) -> Self
        ensures { (name : List ℕ) → defines_name result name ≡ false }
    {
        DefinedNames {
            places: FirstPlaces::new(alloc),
        }
    }

    /// Adds what a file defines: `mentions` is what the entries of its text say of names.
    ///
    /// Takes the memory of the names that are new; `AllocError` where there is none.
    pub fn add(
        &mut self,
        alloc: Global,
        text: &str,
        mentions: &[Mention<Span>],
    ) -> Result<(), AllocError>
        ensures { OnOk result (AddsDefined self.old self.new text.now mentions.now) }
    {
        note_definitions(alloc, &mut self.places, text, mentions)
    }

    /// Whether a file defines the name that is spelled so.
    pub(crate) fn has(&self, name: &[u8]) -> bool
        ensures { result ≡ defines_name self.now name.now }
    {
        self.places.place_of(name).is_some()
    }
}
