//! What the entries of a file use.
ghost use Rattle.std.specs.Prelude.{◌≡◌, Some, OnOk};
ghost use Rattle.fluent_syntax_names.specs.Findings.{put};
ghost use Rattle.fluent_syntax_names.specs.QualifiedNames.{nameless, message_name};
ghost use Rattle.fluent_syntax_names.specs.MissingParts.{uses, used_in};
ghost use Rattle.fluent_syntax_names.specs.FirstPlaces.{place_of};
ghost use Rattle.fluent_syntax_names.specs.QualifiedNames.{qualified_function, qualified_reference};
ghost use Rattle.fluent_syntax_names.specs.QualifiedNames.{qualified_variable};
ghost use Rattle.fluent_syntax_names.specs.Tables.{NotesNames};

use crate::definitions::{NAMELESS, message_name, owner_after, term_name};
use crate::first_places::FirstPlaces;
use crate::mention::Mention;
use crate::qualified_names::{
    EntryName, qualified_function, qualified_reference, qualified_variable,
};
use fluent_syntax_tree::spans::Span;
use std::alloc::{AllocError, Global};

/// Notes all that the entries of a file use, each with the entry's name.
pub(crate) fn note_uses(
    alloc: Global,
    table: &mut FirstPlaces<Span>,
    text: &str,
    mentions: &[Mention<Span>],
) -> Result<(), AllocError>
    ensures { OnOk result (NotesNames (place_of table.old.table) (place_of table.new.table)
        (used_in text.now nameless mentions.now)) }
{
    let mut owner = NAMELESS;
    for mention in mentions {
        note_use(alloc, table, text, owner, mention)?;
        owner = owner_after(owner, mention);
    }
    Ok(())
}

/// Notes what the mention uses, if it uses anything.
fn note_use(
    alloc: Global,
    table: &mut FirstPlaces<Span>,
    text: &str,
    owner: EntryName,
    mention: &Mention<Span>,
) -> Result<(), AllocError>
    ensures { OnOk result (NotesNames (place_of table.old.table) (place_of table.new.table)
        (uses text.now owner mention.now)) }
{
    match mention {
        Mention::MessageReference { name, .. } => {
            note_reference(alloc, table, text, owner, message_name(*name))
        }
        Mention::TermReference { name, .. } => {
            note_reference(alloc, table, text, owner, term_name(*name))
        }
        Mention::Variable { name } => note_variable(alloc, table, text, owner, *name),
        Mention::Function { name } => note_function(alloc, table, text, *name),
        _ => Ok(()),
    }
}

fn note_reference(
    alloc: Global,
    table: &mut FirstPlaces<Span>,
    text: &str,
    owner: EntryName,
    target: EntryName,
) -> Result<(), AllocError>
    ensures { OnOk result (NotesNames (place_of table.old.table) (place_of table.new.table)
        (put (Some (qualified_reference text.now owner target)))) }
{
    let name = qualified_reference(alloc, text, owner, target)?;
    table.note(name, target.name)?;
    Ok(())
}

fn note_variable(
    alloc: Global,
    table: &mut FirstPlaces<Span>,
    text: &str,
    owner: EntryName,
    variable: Span,
) -> Result<(), AllocError>
    ensures { OnOk result (NotesNames (place_of table.old.table) (place_of table.new.table)
        (put (Some (qualified_variable text.now owner variable)))) }
{
    let name = qualified_variable(alloc, text, owner, variable)?;
    table.note(name, variable)?;
    Ok(())
}

fn note_function(
    alloc: Global,
    table: &mut FirstPlaces<Span>,
    text: &str,
    function: Span,
) -> Result<(), AllocError>
    ensures { OnOk result (NotesNames (place_of table.old.table) (place_of table.new.table)
        (put (Some (qualified_function text.now function)))) }
{
    let name = qualified_function(alloc, text, function)?;
    table.note(name, function)?;
    Ok(())
}
