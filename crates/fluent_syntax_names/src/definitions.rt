//! What a set of files defines.
ghost use Rattle.std.specs.Prelude.{◌≡◌, true, false, Some, OnOk};
ghost use Rattle.fluent_syntax_names.specs.Findings.{owner_after, defines, defined_in, put, message_defines};
ghost use Rattle.fluent_syntax_names.specs.QualifiedNames.{nameless};
ghost use Rattle.fluent_syntax_names.specs.FirstPlaces.{Notes, place_of};
ghost use Rattle.fluent_syntax_names.specs.QualifiedNames.{qualified_name, qualified_attribute, qualified_value};
ghost use Rattle.fluent_syntax_names.specs.Tables.{NotesNames};

use crate::first_places::FirstPlaces;
use crate::mention::Mention;
use crate::qualified_names::{EntryName, qualified_attribute, qualified_name, qualified_value};
use fluent_syntax_tree::spans::Span;
use std::alloc::{AllocError, Global};

/// Before any entry.
pub(crate) const NAMELESS: EntryName = EntryName {
    is_term: false,
    name: Span { start: 0, end: 0 },
};

/// The name of a message.
pub(crate) fn message_name(name: Span) -> EntryName
    ensures { result ≡ record { is_term = false; name = name } }
{
    EntryName {
        is_term: false,
        name,
    }
}

/// The name of a term.
pub(crate) fn term_name(name: Span) -> EntryName
    ensures { result ≡ record { is_term = true; name = name } }
{
    EntryName {
        is_term: true,
        name,
    }
}

/// Notes the names of all that the mentions of a file define.
pub(crate) fn note_definitions(
    alloc: Global,
    table: &mut FirstPlaces<Span>,
    text: &str,
    mentions: &[Mention<Span>],
) -> Result<(), AllocError>
    ensures { OnOk result (NotesNames (place_of table.old.table) (place_of table.new.table)
        (defined_in text.now nameless mentions.now)) }
{
    let mut owner = NAMELESS;
    for mention in mentions {
        note_definition(alloc, table, text, owner, mention)?;
        owner = owner_after(owner, mention);
    }
    Ok(())
}

/// Notes the name that the mention defines, if it defines one.
fn note_definition(
    alloc: Global,
    table: &mut FirstPlaces<Span>,
    text: &str,
    owner: EntryName,
    mention: &Mention<Span>,
) -> Result<(), AllocError>
    ensures { OnOk result (NotesNames (place_of table.old.table) (place_of table.new.table)
        (defines text.now owner mention.now)) }
{
    match mention {
        Mention::Message { name, has_value } => {
            note_message(alloc, table, text, message_name(*name), *has_value)
        }
        Mention::Term { name } => note_entry(alloc, table, text, term_name(*name)),
        Mention::Attribute { name } => note_attribute(alloc, table, text, owner, *name),
        _ => Ok(()),
    }
}

fn note_message(
    alloc: Global,
    table: &mut FirstPlaces<Span>,
    text: &str,
    message: EntryName,
    has_value: bool,
) -> Result<(), AllocError>
    ensures { OnOk result (NotesNames (place_of table.old.table) (place_of table.new.table)
        (message_defines text.now message has_value)) }
{
    note_entry(alloc, table, text, message)?;
    if has_value {
        note_value(alloc, table, text, message)
    } else {
        Ok(())
    }
}

fn note_value(
    alloc: Global,
    table: &mut FirstPlaces<Span>,
    text: &str,
    message: EntryName,
) -> Result<(), AllocError>
    ensures { OnOk result (NotesNames (place_of table.old.table) (place_of table.new.table)
        (put (Some (qualified_value text.now message)))) }
{
    let name = qualified_value(alloc, text, message)?;
    table.note(name, message.name)?;
    Ok(())
}

/// Notes the name of a message or a term.
pub(crate) fn note_entry(
    alloc: Global,
    table: &mut FirstPlaces<Span>,
    text: &str,
    entry: EntryName,
) -> Result<(), AllocError>
    ensures noted { OnOk result (Notes (place_of table.old.table) (place_of table.new.table)
        (qualified_name text.now entry) entry.name) }
    ensures names { OnOk result (NotesNames (place_of table.old.table) (place_of table.new.table)
        (put (Some (qualified_name text.now entry)))) }
{
    let name = qualified_name(alloc, text, entry)?;
    table.note(name, entry.name)?;
    Ok(())
}

fn note_attribute(
    alloc: Global,
    table: &mut FirstPlaces<Span>,
    text: &str,
    owner: EntryName,
    attribute: Span,
) -> Result<(), AllocError>
    ensures { OnOk result (NotesNames (place_of table.old.table) (place_of table.new.table)
        (put (Some (qualified_attribute text.now owner attribute)))) }
{
    let name = qualified_attribute(alloc, text, owner, attribute)?;
    table.note(name, attribute)?;
    Ok(())
}

/// Whose attributes follow the mention.
pub(crate) fn owner_after(owner: EntryName, mention: &Mention<Span>) -> EntryName
    ensures { result ≡ owner_after owner mention.now }
{
    match mention {
        Mention::Message { name, .. } => message_name(*name),
        Mention::Term { name } => term_name(*name),
        _ => owner,
    }
}
