//! Where a file has its messages and terms.
ghost use Rattle.std.specs.Prelude.{◌≡◌, List, ℕ, IfOk, OnOk};
ghost use Rattle.fluent_syntax_names.specs.EntryPlaces.{definition_named, entry_place, is_name_byte, junk_named};
ghost use Rattle.fluent_syntax_names.specs.EntryPlaces.{entry_count, is_first, is_first_definition, name_prefix};
ghost use Rattle.fluent_syntax_names.specs.FirstPlaces.{NotesPlaces, place_of};

use crate::definitions::{message_name, note_entry, term_name};
use crate::first_places::FirstPlaces;
use crate::mention::Mention;
use crate::name_index::NameIndex;
use crate::qualified_names::{name_at, qualified_name};
use fluent_syntax_tree::spans::Span;
use std::alloc::{AllocError, Global};

/// Where the file has which messages and terms: the name at the first definition, or else the first junk that begins
/// with the name, a term's with its `-`. Such an entry has a syntax error.
pub(crate) fn entry_places(
    alloc: Global,
    text: &str,
    mentions: &[Mention<Span>],
) -> Result<FirstPlaces<Span>, AllocError>
    ensures { IfOk result (λ places. (entry : List ℕ) → place_of places.table entry
        ≡ entry_place text.now mentions.now entry) }
{
    let mut places = FirstPlaces::new(alloc);
    for mention in mentions {
        note_definition(alloc, &mut places, text, mention)?;
    }
    for mention in mentions {
        note_junk(alloc, &mut places, text, mention)?;
    }
    Ok(places)
}

/// Notes the message or the term, if the mention is that of one.
fn note_definition(
    alloc: Global,
    places: &mut FirstPlaces<Span>,
    text: &str,
    mention: &Mention<Span>,
) -> Result<(), AllocError>
    ensures { OnOk result (NotesPlaces (place_of places.old.table) (place_of places.new.table)
        (definition_named text.now mention.now)) }
{
    match mention {
        Mention::Message { name, .. } => note_entry(alloc, places, text, message_name(*name)),
        Mention::Term { name } => note_entry(alloc, places, text, term_name(*name)),
        _ => Ok(()),
    }
}

/// Notes the junk, if the mention is that of one. Junk that begins with no name is noted too: no entry has the name of
/// no bytes.
fn note_junk(
    alloc: Global,
    places: &mut FirstPlaces<Span>,
    text: &str,
    mention: &Mention<Span>,
) -> Result<(), AllocError>
    ensures { OnOk result (NotesPlaces (place_of places.old.table) (place_of places.new.table)
        (junk_named text.now mention.now)) }
{
    match mention {
        Mention::Junk { content } => {
            let name = name_prefix(alloc, name_at(text, *content))?;
            places.note(name, *content)?;
            Ok(())
        }
        _ => Ok(()),
    }
}

/// The name with which the bytes begin.
fn name_prefix(alloc: Global, bytes: &[u8]) -> Result<Vec<u8>, AllocError>
    ensures { IfOk result (λ name. name.items ≡ name_prefix bytes.now) }
{
    bytes
        .iter()
        .copied()
        .take_while(|byte| is_name_byte(*byte))
        .collect(alloc)
}

fn is_name_byte(byte: u8) -> bool
    ensures { result ≡ is_name_byte byte }
{
    byte.is_ascii_alphanumeric() || byte == b'-' || byte == b'_'
}

/// How many messages and terms the file defines, each name once.
///
/// Takes the memory of a table of their names; `AllocError` where there is none.
pub fn entry_count(alloc: Global, file: &NameIndex<'_>) -> Result<usize, AllocError>
    ensures { IfOk result (λ count. count ≡ entry_count file.now) }
{
    let places = entry_places(alloc, file.text, &file.mentions)?;
    let mentions = file.mentions.as_slice();
    let mut count: usize = 0;
    for mention in mentions {
        if is_first_definition(alloc, &places, file.text, mention)? {
            count += 1;
        }
    }
    Ok(count)
}

/// Whether the mention is the first definition of its name.
fn is_first_definition(
    alloc: Global,
    places: &FirstPlaces<Span>,
    text: &str,
    mention: &Mention<Span>,
) -> Result<bool, AllocError>
    ensures { IfOk result (λ is_first. is_first
        ≡ is_first_definition (place_of places.now.table) text.now mention.now) }
{
    let entry = match mention {
        Mention::Message { name, .. } => message_name(*name),
        Mention::Term { name } => term_name(*name),
        _ => return Ok(false),
    };
    let name = qualified_name(alloc, text, entry)?;
    Ok(is_first(places.place_of(&name), entry.name))
}

/// Whether the place begins where the first one does.
pub(crate) fn is_first(first: Option<Span>, place: Span) -> bool
    ensures { result ≡ is_first first place }
{
    match first {
        Some(first) => first.start == place.start,
        None => false,
    }
}
