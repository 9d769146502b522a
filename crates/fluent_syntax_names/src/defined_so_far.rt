//! What a file has defined so far.
ghost use Rattle.std.specs.Prelude.{◌≡◌, IfOk, OnOk};
ghost use Rattle.fluent_syntax_names.specs.Findings.{nothing};
ghost use Rattle.fluent_syntax_names.specs.FirstPlaces.{place_of};
ghost use Rattle.fluent_syntax_names.specs.QualifiedNames.{qualified_key, qualified_name, name_at};
ghost use Rattle.fluent_syntax_names.specs.Tables.{Holds, NotesEntry, NotesPart};

use crate::first_places::FirstPlaces;
use crate::qualified_names::{EntryName, name_at, qualified_key, qualified_name};
use fluent_syntax_tree::spans::Span;
use std::alloc::{AllocError, Global};

/// What a file has defined so far, each name with its first place.
#[derive(Drop)]
pub(crate) struct DefinedSoFar {
    /// Its messages and terms, as they are spelled.
    pub(crate) names: FirstPlaces<Span>,
    /// The attributes of the last of them, and the keys of the variants in it.
    pub(crate) parts: FirstPlaces<Span>,
}

impl DefinedSoFar {
    /// Nothing.
    pub(crate) fn new(alloc: Global) -> Self
        ensures { Holds (place_of result.names.table) (place_of result.parts.table) nothing }
    {
        DefinedSoFar {
            names: FirstPlaces::new(alloc),
            parts: FirstPlaces::new(alloc),
        }
    }

    /// Notes an entry, which has no parts yet: where its name was defined first, if it was.
    pub(crate) fn note_entry(
        &mut self,
        alloc: Global,
        text: &str,
        entry: EntryName,
    ) -> Result<Option<Span>, AllocError>
        ensures first { IfOk result (λ first. first ≡ place_of self.old.names.table (qualified_name text.now entry)) }
        ensures noted { OnOk result (NotesEntry (place_of self.old.names.table) (place_of self.new.names.table)
            (place_of self.new.parts.table) (qualified_name text.now entry) entry.name) }
    {
        let name = qualified_name(alloc, text, entry)?;
        let first = self.names.note(name, entry.name)?;
        self.parts = FirstPlaces::new(alloc);
        Ok(first)
    }

    /// Notes an attribute of the last entry: where its name was given first, if it was.
    pub(crate) fn note_attribute(
        &mut self,
        alloc: Global,
        text: &str,
        attribute: Span,
    ) -> Result<Option<Span>, AllocError>
        ensures first { IfOk result (λ first. first ≡ place_of self.old.parts.table (name_at text.now attribute)) }
        ensures noted { OnOk result (NotesPart (place_of self.old.names.table) (place_of self.new.names.table)
            (place_of self.old.parts.table) (place_of self.new.parts.table) (name_at text.now attribute)
            attribute) }
    {
        let name = Vec::from_slice(alloc, name_at(text, attribute))?;
        self.parts.note(name, attribute)
    }

    /// Notes the key of a variant in the select that has this first key: where the select had it first, if it did.
    pub(crate) fn note_key(
        &mut self,
        alloc: Global,
        text: &str,
        first: Span,
        key: Span,
    ) -> Result<Option<Span>, AllocError>
        ensures first { IfOk result (λ place.
            place ≡ place_of self.old.parts.table (qualified_key text.now first key)) }
        ensures noted { OnOk result (NotesPart (place_of self.old.names.table) (place_of self.new.names.table)
            (place_of self.old.parts.table) (place_of self.new.parts.table) (qualified_key text.now first key) key) }
    {
        let name = qualified_key(alloc, text, first, key)?;
        self.parts.note(name, key)
    }
}
