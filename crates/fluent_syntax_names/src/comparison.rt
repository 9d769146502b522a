//! What one file says and another lacks.
ghost use Rattle.std.specs.List.{list_any};
ghost use Rattle.std.specs.Prelude.{◌≡◌, ◌↔◌, ℕ, List, [], Some, OnOk, IfOk, IsTrue};
ghost use Rattle.std.specs.Str.{bytes_eq};
ghost use Rattle.fluent_syntax_names.specs.ComparisonTables.{other_by};
ghost use Rattle.fluent_syntax_names.specs.Cycles.{Reaches};
ghost use Rattle.fluent_syntax_names.specs.Findings.{put};
ghost use Rattle.fluent_syntax_names.specs.Growing.{Adds};
ghost use Rattle.fluent_syntax_names.specs.MissingParts.{missing_parts_in, all_missing_parts};
ghost use Rattle.fluent_syntax_names.specs.MessageReferences.{reachable_messages, references_of};
ghost use Rattle.fluent_syntax_names.specs.QualifiedNames.{nameless};

use crate::comparison_tables::ComparisonTables;
use crate::definitions::{NAMELESS, note_definitions, owner_after};
use crate::entry_places::entry_places;
use crate::first_places::FirstPlaces;
use crate::mention::Mention;
use crate::message_references::message_references_of;
use crate::missing_part::MissingPart;
use crate::name_index::NameIndex;
use crate::uses::note_uses;
use fluent_syntax_tree::spans::Span;
use std::alloc::{AllocError, Global};

/// What the one file says and the other lacks, in the order of the one's text:
///
/// - messages and terms, each name once;
/// - of messages that both define the value, attributes, and each use of a variable that neither the other's message
///   uses nor any that it leads to;
/// - of messages and terms that both define each reference to a message or a term, and each call of a function that no
///   entry of the other calls and that is neither `NUMBER` nor `DATETIME`.
///
/// A message leads to those that it refers to, and to those that these do, and so on. Where one of them is not defined
/// in the other file, where there are more than 100, and where references come back, no variable is reported.
///
/// Attributes and variables of terms are for their own language alone. Of a reference and a translation it reports what
/// the translation lacks; the other way round what is obsolete or unknown there.
///
/// Takes the memory of five tables of names, and of the list; `AllocError` where there is none. The time is that of
/// looking each name up in a sorted table, and each variable for up to 100 messages.
pub fn missing_parts(
    alloc: Global,
    one: &NameIndex<'_>,
    other: &NameIndex<'_>,
) -> Result<Vec<MissingPart>, AllocError>
    ensures missing_parts { IfOk result (λ list. list.items ≡ all_missing_parts one.now other.now) }
    ensures reachable { (from to : List ℕ) (reachable : List (List ℕ))
        → reachable_messages (references_of other.now) from ≡ Some reachable →
        IsTrue (list_any (bytes_eq to) reachable) ↔ Reaches (references_of other.now) from to }
{
    let mut defined = FirstPlaces::new(alloc);
    note_definitions(alloc, &mut defined, other.text, &other.mentions)?;
    let mut used = FirstPlaces::new(alloc);
    note_uses(alloc, &mut used, other.text, &other.mentions)?;
    let message_references = message_references_of(alloc, other.text, &other.mentions)?;
    let places = entry_places(alloc, other.text, &other.mentions)?;
    let own_places = entry_places(alloc, one.text, &one.mentions)?;
    let tables = ComparisonTables {
        alloc,
        defined: &defined,
        used: &used,
        message_references: &message_references,
        places: &places,
        own_places: &own_places,
        text: one.text,
    };
    missing_parts_by(&tables, &one.mentions)
}

/// What the other file lacks of the mentions.
fn missing_parts_by(
    tables: &ComparisonTables<'_>,
    mentions: &[Mention<Span>],
) -> Result<Vec<MissingPart>, AllocError>
    ensures { IfOk result (λ list. list.items ≡ missing_parts_in
        (other_by tables.now) tables.now.text.now
        nameless mentions.now []) }
{
    let mut list = Vec::new(tables.alloc);
    let mut owner = NAMELESS;
    for mention in mentions {
        let missing = tables.missing_part_at(owner, mention)?;
        add_missing_part(&mut list, missing)?;
        owner = owner_after(owner, mention);
    }
    Ok(list)
}

fn add_missing_part(
    list: &mut Vec<MissingPart>,
    missing: Option<MissingPart>,
) -> Result<(), AllocError>
    ensures { OnOk result (Adds list.old.items list.new.items (put missing)) }
{
    match missing {
        Some(missing) => {
            list.push(missing)?;
            Ok(())
        }
        None => Ok(()),
    }
}
