//! What the other file lacks of a mention.
ghost use Rattle.std.specs.Prelude.{◌≡◌, Some, None, IfOk};
ghost use Rattle.fluent_syntax_names.specs.ComparisonTables.{other_by};
ghost use Rattle.fluent_syntax_names.specs.MissingParts.{missing_part_at, missing_entry, missing_value};
ghost use Rattle.fluent_syntax_names.specs.MissingParts.{missing_attribute, missing_part};
ghost use Rattle.fluent_syntax_names.specs.MissingParts.{missing_reference, missing_variable};
ghost use Rattle.fluent_syntax_names.specs.MissingParts.{may_use, some_may_use, one_may_use};
ghost use Rattle.fluent_syntax_names.specs.MissingParts.{is_built_in, may_call, missing_function};
ghost use Rattle.fluent_syntax_names.specs.FirstPlaces.{place_of};
ghost use Rattle.fluent_syntax_names.specs.Rows.{texts_at};
ghost use Rattle.fluent_syntax_names.specs.QualifiedNames.{qualified_attribute, qualified_reference};
ghost use Rattle.fluent_syntax_names.specs.QualifiedNames.{qualified_function, qualified_variable};

use crate::definitions::{message_name, term_name};
use crate::entry_places::is_first;
use crate::first_places::FirstPlaces;
use crate::mention::Mention;
use crate::message_references::MessageReferences;
use crate::missing_part::{MissingPart, Part};
use crate::qualified_names::{
    EntryName, name_at, qualified_attribute, qualified_function, qualified_name,
    qualified_reference, qualified_value, qualified_variable, variable_of,
};
use fluent_syntax_tree::spans::Span;
use std::alloc::{AllocError, Global};

/// A text next to another file: what that defines and uses, where its messages lead, and where both have their entries.
#[derive(Clone, Copy)]
pub(crate) struct ComparisonTables<'a> {
    pub(crate) alloc: Global,
    pub(crate) defined: &'a FirstPlaces<Span>,
    pub(crate) used: &'a FirstPlaces<Span>,
    pub(crate) message_references: &'a MessageReferences,
    pub(crate) places: &'a FirstPlaces<Span>,
    pub(crate) own_places: &'a FirstPlaces<Span>,
    pub(crate) text: &'a str,
}

impl ComparisonTables<'_> {
    /// What the other file lacks of the mention, which is in the entry of that name.
    pub(crate) fn missing_part_at(
        &self,
        owner: EntryName,
        mention: &Mention<Span>,
    ) -> Result<Option<MissingPart>, AllocError>
        ensures { IfOk result (λ missing. missing ≡ missing_part_at
            (other_by self.now) self.now.text.now owner mention.now) }
    {
        match mention {
            Mention::Message { name, has_value } => {
                self.missing_entry(message_name(*name), *has_value)
            }
            Mention::Term { name } => self.missing_entry(term_name(*name), false),
            Mention::Attribute { name } => self.missing_attribute(owner, *name),
            Mention::MessageReference { name, .. } => {
                self.missing_reference(owner, message_name(*name))
            }
            Mention::TermReference { name, .. } => self.missing_reference(owner, term_name(*name)),
            Mention::Variable { name } => self.missing_variable(owner, *name),
            Mention::Function { name } => self.missing_function(owner, *name),
            _ => Ok(None),
        }
    }

    fn missing_entry(
        &self,
        entry: EntryName,
        has_value: bool,
    ) -> Result<Option<MissingPart>, AllocError>
        ensures { IfOk result (λ missing. missing ≡ missing_entry
            (other_by self.now) self.now.text.now entry has_value) }
    {
        let name = qualified_name(self.alloc, self.text, entry)?;
        if self.defined.place_of(&name).is_some() {
            return self.missing_value(entry, has_value);
        }
        if !is_first(self.own_places.place_of(&name), entry.name) {
            return Ok(None);
        }
        Ok(Some(MissingPart {
            part: Part::Entry,
            name: entry.name,
            entry: entry.name,
            in_other: self.places.place_of(&name),
        }))
    }

    fn missing_value(
        &self,
        message: EntryName,
        has_value: bool,
    ) -> Result<Option<MissingPart>, AllocError>
        ensures { IfOk result (λ missing. missing ≡ missing_value
            (other_by self.now) self.now.text.now message has_value) }
    {
        if !has_value {
            return Ok(None);
        }
        let name = qualified_value(self.alloc, self.text, message)?;
        let is_there = self.defined.place_of(&name).is_some();
        self.missing_part(message, is_there, Part::Value, message.name)
    }

    fn missing_attribute(
        &self,
        owner: EntryName,
        attribute: Span,
    ) -> Result<Option<MissingPart>, AllocError>
        ensures { IfOk result (λ missing. missing ≡ missing_attribute
            (other_by self.now) self.now.text.now owner attribute) }
    {
        if owner.is_term {
            return Ok(None);
        }
        let name = qualified_attribute(self.alloc, self.text, owner, attribute)?;
        let is_there = self.defined.place_of(&name).is_some();
        self.missing_part(owner, is_there, Part::Attribute, attribute)
    }

    fn missing_reference(
        &self,
        owner: EntryName,
        target: EntryName,
    ) -> Result<Option<MissingPart>, AllocError>
        ensures { IfOk result (λ missing. missing ≡ missing_reference
            (other_by self.now) self.now.text.now owner target) }
    {
        let name = qualified_reference(self.alloc, self.text, owner, target)?;
        let is_there = self.used.place_of(&name).is_some();
        self.missing_part(owner, is_there, Part::Reference, target.name)
    }

    fn missing_variable(
        &self,
        owner: EntryName,
        variable: Span,
    ) -> Result<Option<MissingPart>, AllocError>
        ensures { IfOk result (λ missing. missing ≡ missing_variable
            (other_by self.now) self.now.text.now owner variable) }
    {
        if owner.is_term {
            return Ok(None);
        }
        let may_use = self.may_use(owner, variable)?;
        self.missing_part(owner, may_use, Part::Variable, variable)
    }

    /// Whether the other's message uses the variable, or one may that it leads to.
    fn may_use(&self, owner: EntryName, variable: Span) -> Result<bool, AllocError>
        ensures { IfOk result (λ may. may ≡ may_use (other_by self.now) self.now.text.now owner variable) }
    {
        let name = qualified_variable(self.alloc, self.text, owner, variable)?;
        if self.used.place_of(&name).is_some() {
            return Ok(true);
        }
        let owner = qualified_name(self.alloc, self.text, owner)?;
        match self
            .message_references
            .reachable_messages(self.alloc, &owner)?
        {
            Some(messages) => self.some_may_use(name_at(self.text, variable), &messages),
            None => Ok(true),
        }
    }

    fn some_may_use(&self, variable: &[u8], messages: &[&[u8]]) -> Result<bool, AllocError>
        ensures { IfOk result (λ may. may ≡ some_may_use (other_by self.now) variable.now
            (Some (texts_at messages.now))) }
    {
        for message in messages {
            if self.one_may_use(variable, message)? {
                return Ok(true);
            }
        }
        Ok(false)
    }

    /// Whether the message uses the variable, or is one that the other file doesn't define.
    fn one_may_use(&self, variable: &[u8], message: &[u8]) -> Result<bool, AllocError>
        ensures { IfOk result (λ may. may ≡ one_may_use (other_by self.now) variable.now message.now) }
    {
        if self.defined.place_of(message).is_none() {
            return Ok(true);
        }
        let name = variable_of(self.alloc, message, variable)?;
        Ok(self.used.place_of(&name).is_some())
    }

    fn missing_function(
        &self,
        owner: EntryName,
        function: Span,
    ) -> Result<Option<MissingPart>, AllocError>
        ensures { IfOk result (λ missing. missing ≡ missing_function
            (other_by self.now) self.now.text.now owner function) }
    {
        let may_call = self.may_call(function)?;
        self.missing_part(owner, may_call, Part::Function, function)
    }

    /// Whether the function is one of Fluent itself, or some entry of the other file calls it.
    fn may_call(&self, function: Span) -> Result<bool, AllocError>
        ensures { IfOk result (λ may. may ≡ may_call (other_by self.now) self.now.text.now function) }
    {
        if is_built_in(name_at(self.text, function)) {
            return Ok(true);
        }
        let name = qualified_function(self.alloc, self.text, function)?;
        Ok(self.used.place_of(&name).is_some())
    }

    /// A part of an entry, if the other file defines the entry and has no such part.
    fn missing_part(
        &self,
        owner: EntryName,
        is_there: bool,
        part: Part,
        name: Span,
    ) -> Result<Option<MissingPart>, AllocError>
        ensures { IfOk result (λ missing. missing ≡ missing_part
            (other_by self.now) self.now.text.now
            owner is_there part name) }
    {
        let entry = qualified_name(self.alloc, self.text, owner)?;
        if self.defined.place_of(&entry).is_none() || is_there {
            return Ok(None);
        }
        Ok(Some(MissingPart {
            part,
            name,
            entry: owner.name,
            in_other: self.places.place_of(&entry),
        }))
    }
}

fn is_built_in(function: &[u8]) -> bool
    ensures { result ≡ is_built_in function.now }
{
    function == b"NUMBER".as_slice() || function == b"DATETIME".as_slice()
}
