//! What is found at a mention.
ghost use Rattle.std.specs.Prelude.{◌≡◌, IfOk, OnOk, Some};
ghost use Rattle.fluent_syntax_names.specs.ReferenceGraphs.{same_part};
ghost use Rattle.fluent_syntax_names.specs.Findings.{cycle, cycle_to, finding_of, twice, undefined_entry};
ghost use Rattle.fluent_syntax_names.specs.Findings.{undefined_attribute};
ghost use Rattle.fluent_syntax_names.specs.Findings.{finding_at};
ghost use Rattle.fluent_syntax_names.specs.Findings.{undefined_reference, undefined_value};
ghost use Rattle.fluent_syntax_names.specs.Knowing.{knows};
ghost use Rattle.fluent_syntax_names.specs.FirstPlaces.{place_of};
ghost use Rattle.fluent_syntax_names.specs.QualifiedNames.{qualified_name, qualified_attribute, qualified_value};
ghost use Rattle.fluent_syntax_names.specs.Tables.{HoldsAfter, NotesEntry};

use crate::cycles::Cycles;
use crate::defined_so_far::DefinedSoFar;
use crate::definitions::{message_name, term_name};
use crate::finding::{Finding, Kind, Place};
use crate::known_names::KnownNames;
use crate::mention::Mention;
use crate::pattern_references::referenced_pattern;
use crate::qualified_names::{
    EntryName, PatternName, qualified_attribute, qualified_name, qualified_pattern, qualified_value,
};
use fluent_syntax_tree::spans::Span;
use std::alloc::{AllocError, Global};

/// A file as its findings are made: which names are known to be defined, which references come back, its number and its
/// text.
#[derive(Clone, Copy)]
pub(crate) struct FileContext<'a> {
    pub(crate) alloc: Global,
    pub(crate) known: KnownNames<'a>,
    pub(crate) cycles: &'a Cycles,
    pub(crate) file: usize,
    pub(crate) text: &'a str,
}

impl FileContext<'_> {
    /// What is found at the mention, where the file has defined so much before. What it defines is noted.
    pub(crate) fn finding_of(
        &self,
        noted: &mut DefinedSoFar,
        mention: &Mention<Span>,
    ) -> Result<Option<Finding>, AllocError>
        ensures finding { IfOk result (λ finding.
            finding ≡ finding_of (knows self.now.known) self.now.file self.now.text.now
            (record { names = place_of noted.old.names.table; parts = place_of noted.old.parts.table })
            mention.now) }
        ensures noted { OnOk result (HoldsAfter (place_of noted.old.names.table) (place_of noted.old.parts.table)
            (place_of noted.new.names.table) (place_of noted.new.parts.table) self.now.text.now mention.now) }
    {
        match mention {
            Mention::Message { name, .. } => self.duplicate_entry(noted, message_name(*name)),
            Mention::Term { name } => self.duplicate_entry(noted, term_name(*name)),
            Mention::Attribute { name } => {
                let first = noted.note_attribute(self.alloc, self.text, *name)?;
                Ok(self.twice(Kind::AttributeTwice, *name, first))
            }
            Mention::VariantKey { key, first } => {
                let earlier = noted.note_key(self.alloc, self.text, *first, *key)?;
                Ok(self.twice(Kind::VariantTwice, *key, earlier))
            }
            Mention::MessageReference { name, attribute } => {
                self.undefined_entry(Kind::UndefinedMessage, message_name(*name), *attribute)
            }
            Mention::TermReference { name, attribute } => {
                self.undefined_entry(Kind::UndefinedTerm, term_name(*name), *attribute)
            }
            _ => Ok(None),
        }
    }

    /// What is found at the mention, where it is in the pattern and comes back to it.
    pub(crate) fn cycle(
        &self,
        pattern: PatternName,
        mention: &Mention<Span>,
    ) -> Result<Option<Finding>, AllocError>
        ensures { IfOk result (λ finding.
            finding ≡ cycle (same_part self.now.cycles.now) self.now.file self.now.text.now pattern mention.now) }
    {
        match referenced_pattern(mention) {
            Some(target) => self.cycle_to(pattern, target),
            None => Ok(None),
        }
    }

    fn cycle_to(
        &self,
        pattern: PatternName,
        target: PatternName,
    ) -> Result<Option<Finding>, AllocError>
        ensures { IfOk result (λ finding.
            finding ≡ cycle_to (same_part self.now.cycles.now) self.now.file self.now.text.now pattern
            (Some target)) }
    {
        let from = qualified_pattern(self.alloc, self.text, pattern)?;
        let to = qualified_pattern(self.alloc, self.text, target)?;
        if self.cycles.is_cyclic(&from, &to) {
            let name = target.entry.name;
            return Ok(Some(self.finding_at(Kind::CyclicReference, name, None)));
        }
        Ok(None)
    }

    fn duplicate_entry(
        &self,
        noted: &mut DefinedSoFar,
        entry: EntryName,
    ) -> Result<Option<Finding>, AllocError>
        ensures finding { IfOk result (λ finding. finding ≡ twice Kind.DefinedTwice self.now.file entry.name
            (place_of noted.old.names.table (qualified_name self.now.text.now entry))) }
        ensures noted { OnOk result (NotesEntry (place_of noted.old.names.table) (place_of noted.new.names.table)
            (place_of noted.new.parts.table) (qualified_name self.now.text.now entry) entry.name) }
    {
        let first = noted.note_entry(self.alloc, self.text, entry)?;
        Ok(self.twice(Kind::DefinedTwice, entry.name, first))
    }

    /// A name that was given before, where it was.
    fn twice(&self, kind: Kind, place: Span, first: Option<Span>) -> Option<Finding>
        ensures { result ≡ twice kind self.now.file place first }
    {
        let first = Place {
            file: self.file,
            span: first?,
        };
        Some(self.finding_at(kind, place, Some(first)))
    }

    /// A reference to an entry that no file defines, or to an attribute of it.
    fn undefined_entry(
        &self,
        kind: Kind,
        entry: EntryName,
        attribute: Option<Span>,
    ) -> Result<Option<Finding>, AllocError>
        ensures { IfOk result (λ finding.
            finding ≡ undefined_entry (knows self.now.known) self.now.file self.now.text.now kind
            entry attribute) }
    {
        let name = qualified_name(self.alloc, self.text, entry)?;
        if !self.known.has(&name) {
            return Ok(Some(self.finding_at(kind, entry.name, None)));
        }
        self.undefined_reference(entry, attribute)
    }

    /// A reference to the value of an entry, or to an attribute of it, that no file defines.
    fn undefined_reference(
        &self,
        entry: EntryName,
        attribute: Option<Span>,
    ) -> Result<Option<Finding>, AllocError>
        ensures { IfOk result (λ finding.
            finding ≡ undefined_reference (knows self.now.known) self.now.file self.now.text.now
            entry attribute) }
    {
        match attribute {
            Some(attribute) => self.undefined_attribute(entry, attribute),
            None => self.undefined_value(entry),
        }
    }

    fn undefined_value(&self, entry: EntryName) -> Result<Option<Finding>, AllocError>
        ensures { IfOk result (λ finding.
            finding ≡ undefined_value (knows self.now.known) self.now.file
            self.now.text.now entry) }
    {
        if entry.is_term {
            return Ok(None);
        }
        let name = qualified_value(self.alloc, self.text, entry)?;
        if !self.known.has(&name) {
            return Ok(Some(self.finding_at(Kind::UndefinedValue, entry.name, None)));
        }
        Ok(None)
    }

    fn undefined_attribute(
        &self,
        entry: EntryName,
        attribute: Span,
    ) -> Result<Option<Finding>, AllocError>
        ensures { IfOk result (λ finding.
            finding ≡ undefined_attribute (knows self.now.known) self.now.file
            self.now.text.now entry attribute) }
    {
        let name = qualified_attribute(self.alloc, self.text, entry, attribute)?;
        if !self.known.has(&name) {
            return Ok(Some(self.finding_at(Kind::UndefinedAttribute, attribute, None)));
        }
        Ok(None)
    }

    fn finding_at(&self, kind: Kind, place: Span, other: Option<Place>) -> Finding
        ensures { result ≡ finding_at kind self.now.file place other }
    {
        Finding {
            kind,
            file: self.file,
            place: Some(place),
            other,
        }
    }
}
