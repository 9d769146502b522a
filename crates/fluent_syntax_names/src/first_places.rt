//! Names, each with the place where it was noted first.
ghost use Rattle.std.specs.Prelude.{◌≡◌, List, ℕ, None, OnOk, IfOk};
ghost use Rattle.fluent_syntax_names.specs.FirstPlaces.{place_of, Notes};

use std::alloc::{AllocError, Global};
use std::collections::BTreeMap;
use std::collections::btree_map::Entry;

/// Names, each with the place where it was noted first.
#[derive(Drop)]
pub(crate) struct FirstPlaces<X> {
    table: BTreeMap<Vec<u8>, X>,
}

impl<X: Copy> FirstPlaces<X> {
    /// No names.
    pub(crate) fn new(alloc: Global) -> Self
        ensures { (name : List ℕ) → place_of result.table name ≡ None }
    {
        FirstPlaces {
            table: BTreeMap::new(alloc),
        }
    }

    /// Where the name was noted first.
    pub(crate) fn place_of(&self, name: &[u8]) -> Option<X>
        ensures { result ≡ place_of self.now.table name.now }
    {
        self.table.get(name).copied()
    }

    /// Notes the name with its place, if it was not noted before: where it was.
    pub(crate) fn note(&mut self, name: Vec<u8>, place: X) -> Result<Option<X>, AllocError>
        ensures noted { OnOk result (Notes (place_of self.old.table) (place_of self.new.table) name.items place) }
        ensures first { IfOk result (λ first. first ≡ place_of self.old.table name.items) }
    {
        match self.table.entry(name)? {
            Entry::Occupied(entry) => Ok(Some(*entry.get())),
            Entry::Vacant(entry) => {
                entry.insert(place);
                Ok(None)
            }
        }
    }
}
