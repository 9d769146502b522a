//! Where the entries of a text are.
ghost use Rattle.std.specs.Prelude.{◌≡◌, ◌∷◌, ◌++◌, List, Some, IfOk};
ghost use Rattle.fluent_syntax_edits.specs.EntryPlaces.{HasEntryPlaces, attaches_to, kind_of, entry_place};
ghost use Rattle.fluent_syntax_edits.specs.EntryPlaces.{entry_place_of};
ghost use Rattle.fluent_syntax_edits.specs.EntryPlaces.{entry_places_after};
ghost use Rattle.fluent_syntax_grammar.specs.Tiling.{Tile};
ghost use Rattle.fluent_syntax_parser.specs.Rest.{tree_of};

use fluent_syntax_parser::options::Halt;
use fluent_syntax_parser::tiles::{SpannedTile, Tiles};
use fluent_syntax_tree::ast::Entry;
use fluent_syntax_tree::edition::Edition;
use fluent_syntax_tree::spans::Span;
use std::alloc::{AllocError, Global};

/// What is at a place, as far as edits ask.
#[derive(Clone, Copy, Debug, Drop, Eq, PartialEq)]
pub enum EntryKind {
    /// A message or a term.
    Field,
    /// A comment of level 1. It is attached to a message or a term that begins where it ends.
    Comment,
    /// A comment of another level.
    OtherComment,
    Junk,
}

/// Where an entry or junk is.
#[derive(Clone, Copy, Debug, Drop)]
pub struct EntryPlace {
    /// Where it begins, with the comment that is attached to it.
    pub start: usize,
    /// Without that comment.
    pub span: Span,
    pub kind: EntryKind,
}

fn kind_of(entry: &Entry<Span>) -> EntryKind
    ensures { result ≡ kind_of (tree_of entry.now) }
{
    match entry {
        Entry::Message(_) | Entry::Term(_) => EntryKind::Field,
        Entry::Comment(_) => EntryKind::Comment,
        Entry::GroupComment(_) | Entry::ResourceComment(_) => EntryKind::OtherComment,
        Entry::Junk { .. } => EntryKind::Junk,
    }
}

fn entry_place(found: SpannedTile) -> EntryPlace
    ensures { result ≡ entry_place found.span (tree_of found.entry) }
{
    EntryPlace {
        start: found.span.start,
        span: found.span,
        kind: kind_of(&found.entry),
    }
}

fn attaches_to(comment: EntryPlace, place: EntryPlace) -> bool
    ensures { result ≡ attaches_to comment place }
{
    comment.kind == EntryKind::Comment
        && place.kind == EntryKind::Field
        && comment.span.end == place.span.start
}

/// Adds the place read before, unless it is that of a comment that is attached to what is at the next one. What is
/// the last place now.
fn add_place(
    entry_places: &mut Vec<EntryPlace>,
    last: Option<EntryPlace>,
    next: EntryPlace,
) -> Result<EntryPlace, AllocError>
    ensures { IfOk result (λ now. (tile : Tile) (more : List Tile) → entry_place_of tile ≡ next →
        entry_places.new.items ++ entry_places_after (Some now) more ≡ entry_places.old.items
        ++ entry_places_after last (tile ∷ more)) }
{
    match last {
        Some(comment) if attaches_to(comment, next) => Ok(EntryPlace {
            start: comment.start,
            ..next
        }),
        Some(before) => {
            entry_places.push(before)?;
            Ok(next)
        }
        None => Ok(next),
    }
}

/// The places of the entries of the text's tree, in order.
pub(crate) fn entry_places(
    alloc: Global,
    source: &str,
    edition: Edition,
) -> Result<Vec<EntryPlace>, AllocError>
    ensures { IfOk result (λ found. HasEntryPlaces edition source.now found.items) }
{
    let mut tiles = Tiles::new(source, edition, usize::MAX, 0);
    let mut entry_places = Vec::new(alloc);
    let mut last = None;
    loop {
        match tiles.next_tile(alloc) {
            Ok(Some(found)) => last = Some(add_place(&mut entry_places, last, entry_place(found))?),
            Ok(None) => {
                if let Some(place) = last {
                    entry_places.push(place)?;
                }
                return Ok(entry_places);
            }
            // no text is longer than the greatest usize, so none nests too deeply
            Err(Halt::TooDeep | Halt::Memory) => return Err(AllocError),
        }
    }
}
