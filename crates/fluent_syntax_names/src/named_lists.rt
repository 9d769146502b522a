//! Names, each with a list.
ghost use Rattle.std.specs.Prelude.{◌≡◌, ◌<◌, List, ℕ, None, [], IfOk, OnOk, length};
ghost use Rattle.fluent_syntax_names.specs.NamedLists.{AddsItem, AddsName, lists_of, numbers_of};

use crate::first_places::FirstPlaces;
use std::alloc::{AllocError, Global};

/// Names, each with a list.
#[derive(Drop)]
pub(crate) struct NamedLists<T> {
    /// Which of the lists is that of a name.
    pub(crate) numbers: FirstPlaces<usize>,
    pub(crate) lists: Vec<Vec<T>>,
}

impl<T: Drop> NamedLists<T> {
    /// No names.
    pub(crate) fn new(alloc: Global) -> Self
        ensures numbers { (name : List ℕ) → numbers_of result name ≡ None }
        ensures lists { lists_of result ≡ [] }
    {
        NamedLists {
            numbers: FirstPlaces::new(alloc),
            lists: Vec::new(alloc),
        }
    }

    /// The number of the list of that name, which is added where it is new.
    pub(crate) fn number_for(&mut self, alloc: Global, name: Vec<u8>) -> Result<usize, AllocError>
        ensures { IfOk result (AddsName self.old self.new name.items) }
    {
        if let Some(number) = self.numbers.place_of(&name) {
            return Ok(number);
        }
        let number = self.lists.len();
        self.lists.push(Vec::new(alloc))?;
        self.numbers.note(name, number)?;
        Ok(number)
    }

    /// Adds the item to the list of that number.
    pub(crate) fn push(&mut self, number: usize, item: T) -> Result<(), AllocError>
        requires { number < length (lists_of self.old) }
        ensures { OnOk result (AddsItem self.old self.new number item) }
    {
        self.lists[number].push(item)?;
        Ok(())
    }
}
