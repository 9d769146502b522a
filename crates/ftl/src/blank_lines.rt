//! Normal forms that keep the blank lines of their texts.
ghost use Rattle.std.specs.Prelude.{◌≡◌, ◌==◌, ◌||◌, ◌≤◌, ◌∷◌, ◌++◌, ◌↔◌, List, IfErr, IfOk, IsTrue, OnOk, length};
ghost use Rattle.std.specs.Prelude.{option_map, string_bytes};
ghost use Rattle.fluent_syntax_tree.specs.Entry.{body_map};
ghost use Rattle.fluent_syntax_tree.specs.Spans.{bytes_at};
ghost use Rattle.fluent_syntax_tree.specs.View.{resource_view};
ghost use Rattle.fluent_syntax_grammar.specs.Body.{body};
ghost use Rattle.fluent_syntax_grammar.specs.Bytes.{cr, space};
ghost use Rattle.fluent_syntax_grammar.specs.Canonical.{is_canonical};
ghost use Rattle.fluent_syntax_grammar.specs.Nesting.{NestsDeeper};
ghost use Rattle.fluent_syntax_grammar.specs.RoundTrip.{tree_of};
ghost use Rattle.fluent_syntax_grammar.specs.Tiling.{Tile, Tiling};
ghost use Rattle.fluent_syntax_parser.specs.Halts.{HaltsWithin, OnHalt};
ghost use Rattle.fluent_syntax_parser.specs.Rest as rest;
ghost use Rattle.ftl.specs.Answer.{normal_text, outcome_of};
ghost use Rattle.ftl.specs.BlankLines.{HasGaps, HasPlaces, IsKept, ReadsAlike, ends_blank_line, gaps_after, is_field};
ghost use Rattle.ftl.specs.BlankLines.{place_in, places_of, seen_at, tile_place_of, with_line_ends};

use crate::answers::{Formatted, formatted_within};
use fluent_syntax::ast::{Entry, Resource};
use fluent_syntax::laws::same_texts;
use fluent_syntax::parser::{Edition, ParseFault, parse_within};
use fluent_syntax::spans::{Halt, Span, SpannedTile, Tiles};
use std::alloc::{AllocError, Global};

/// What is between a message or a term and the next one.
#[derive(Clone, Copy, Debug, Drop)]
struct Gap {
    /// Where the first one ends, with the blank lines directly after it.
    place: usize,
    /// Whether there is a blank line.
    is_blank: bool,
}

/// The normal form of a text, as `formatted_within` gives it, with the blank lines of the text between messages and
/// terms.
///
/// Where the text has blank lines between two of them, and the normal form has none, it gets one. The kept text is
/// the normal form with these LFs put in, and reads as the normal form does; where it would read otherwise, none is
/// put in. The law `keeping_is_idempotent` says when keeping again changes nothing.
///
/// `Memory`: a growth was refused. `TooDeep` where the text nests deeper than `nesting`.
pub fn formatted_keeping(
    alloc: Global,
    text: &str,
    edition: Edition,
    nesting: usize,
) -> Result<Formatted, Halt>
    ensures text { let t = text.now in IfOk result (λ given. (tiles : List Tile) × Tiling edition t tiles
        × IsKept edition t (normal_text t tiles) (string_bytes given.text) × (given.outcome ≡ outcome_of tiles)
        × (given.is_canonical ≡ is_canonical edition (body_map (bytes_at t) (body tiles)))) }
    ensures nests { IfErr result (HaltsWithin nesting (length text.now)) }
    ensures deeper { IfErr result (OnHalt (NestsDeeper edition text.now nesting)) }
    ensures shallow { IfOk result (λ given. NestsDeeper edition text.now nesting → ⊥) }
{
    let Formatted {
        text: normal,
        outcome,
        is_canonical,
    } = formatted_within(alloc, text, edition, nesting)?;
    let text = with_blank_lines(alloc, text, normal, edition, nesting)?;
    Ok(Formatted {
        text,
        outcome,
        is_canonical,
    })
}

/// The normal form of a text with the text's blank lines, as `formatted_keeping` gives it. The text nests no deeper
/// than `nesting`.
///
/// `AllocError`: a growth was refused, or one of these texts nests deeper.
pub fn with_blank_lines(
    alloc: Global,
    text: &str,
    normal: String,
    edition: Edition,
    nesting: usize,
) -> Result<String, AllocError>
    ensures { IfOk result (λ kept. IsKept edition text.now (string_bytes normal) (string_bytes kept)) }
{
    let there = gaps(alloc, normal.as_str(), edition, nesting)?;
    let there = there.as_slice();
    let places = blank_places(alloc, text, there, edition, nesting)?;
    let made = with_line_ends(alloc, normal.as_str(), places.as_slice())?;
    let places_now = blank_places(alloc, made.as_str(), there, edition, nesting)?;
    if !is_same(places_now.as_slice(), places.as_slice()) {
        return Ok(normal);
    }
    if reads_alike(alloc, made.as_str(), normal.as_str(), edition, nesting)? {
        Ok(made)
    } else {
        Ok(normal)
    }
}

/// Whether the byte may be in a blank line.
fn is_blank(byte: u8) -> bool
    ensures { result ≡ (byte == space || byte == cr) }
{
    byte == b' ' || byte == b'\r'
}

/// Whether a line that ends at the place is blank.
fn ends_blank_line(text: &[u8], place: usize) -> bool
    requires { place ≤ length text.now }
    ensures { result ≡ ends_blank_line text.now place }
{
    if place == 0 || text[place - 1] != b'\n' {
        return false;
    }
    let mut at = place - 1;
    while at > 0 && is_blank(text[at - 1]) {
        at -= 1;
    }
    at == 0 || text[at - 1] == b'\n'
}

/// Where a tile is, and whether it is a message or a term.
#[derive(Clone, Copy, Debug, Drop)]
struct TilePlace {
    span: Span,
    is_field: bool,
}

fn is_field(entry: &Entry<Span>) -> bool
    ensures { result ≡ is_field (rest.tree_of entry.now) }
{
    matches!(entry, Entry::Message(_) | Entry::Term(_))
}

fn tile_place(found: SpannedTile) -> TilePlace
    ensures { result ≡ record { span = found.span; is_field = is_field (rest.tree_of found.entry) } }
{
    TilePlace {
        span: found.span,
        is_field: is_field(&found.entry),
    }
}

/// The last gap, if there is one, once something begins at the place.
fn seen_at(text: &str, place: usize, last: Option<Gap>) -> Option<Gap>
    requires { place ≤ length text.now }
    ensures { result ≡ option_map (seen_at text.now place) last }
{
    match last {
        Some(gap) => Some(Gap {
            place: gap.place,
            is_blank: gap.is_blank || ends_blank_line(text.as_bytes(), place),
        }),
        None => None,
    }
}

/// Adds the last gap, if there is one, where a message or a term ends it. What is the last one after the tile.
fn add_gap(
    gaps: &mut Vec<Gap>,
    text: &str,
    last: Option<Gap>,
    place: TilePlace,
) -> Result<Option<Gap>, AllocError>
    requires { place.span.start ≤ length text.now }
    ensures { IfOk result (λ now. (tile : Tile) (more : List Tile) → tile_place_of tile ≡ place →
        gaps.new.items ++ gaps_after text.now now more
        ≡ gaps.old.items ++ gaps_after text.now last (tile ∷ more)) }
{
    let seen = seen_at(text, place.span.start, last);
    if !place.is_field {
        return Ok(seen);
    }
    if let Some(gap) = seen {
        gaps.push(gap)?;
    }
    Ok(Some(Gap {
        place: place.span.end,
        is_blank: false,
    }))
}

/// The gaps of the text.
fn gaps(alloc: Global, text: &str, edition: Edition, nesting: usize) -> Result<Vec<Gap>, AllocError>
    ensures { IfOk result (λ found. HasGaps edition text.now found.items) }
{
    let mut tiles = Tiles::new(text, edition, nesting, 0);
    let mut gaps = Vec::new(alloc);
    let mut last = None;
    loop {
        match tiles.next_tile(alloc) {
            Ok(Some(found)) => last = add_gap(&mut gaps, text, last, tile_place(found))?,
            Ok(None) => return Ok(gaps),
            // a normal form nests no deeper than its text
            Err(Halt::TooDeep | Halt::Memory) => return Err(AllocError),
        }
    }
}

/// Adds where the gap that is there begins, if it is not blank, and the wanted one is.
fn add_place(places: &mut Vec<usize>, wanted: Gap, there: Gap) -> Result<(), AllocError>
    ensures { OnOk result (places.new.items ≡ places.old.items ++ place_in wanted there) }
{
    if wanted.is_blank && !there.is_blank {
        places.push(there.place)?;
    }
    Ok(())
}

/// So for gaps of one number each.
fn places_of(alloc: Global, wanted: &[Gap], there: &[Gap]) -> Result<Vec<usize>, AllocError>
    ensures { IfOk result (λ places. places.items ≡ places_of wanted.now there.now) }
{
    let mut places = Vec::new(alloc);
    for index in 0..wanted.len().min(there.len()) {
        add_place(&mut places, wanted[index], there[index])?;
    }
    Ok(places)
}

/// Where the gaps begin that are blank in the text, and not among those that are there.
fn blank_places(
    alloc: Global,
    text: &str,
    there: &[Gap],
    edition: Edition,
    nesting: usize,
) -> Result<Vec<usize>, AllocError>
    ensures { IfOk result (λ places. HasPlaces edition text.now there.now places.items) }
{
    let wanted = gaps(alloc, text, edition, nesting)?;
    places_of(alloc, wanted.as_slice(), there)
}

fn is_same(places: &[usize], others: &[usize]) -> bool
    ensures { IsTrue result ↔ (places.now ≡ others.now) }
{
    places == others
}

/// The text with an LF put in at each of the places.
fn with_line_ends(alloc: Global, text: &str, places: &[usize]) -> Result<String, AllocError>
    ensures { IfOk result (λ made. string_bytes made ≡ with_line_ends 0 text.now places.now) }
{
    let bytes = text.as_bytes();
    let mut made = Vec::new(alloc);
    let mut next = 0;
    for at in 0..bytes.len() {
        if next < places.len() && places[next] == at {
            made.push(b'\n')?;
            next += 1;
        }
        made.push(bytes[at])?;
    }
    match String::from_utf8(made) {
        Ok(text) => Ok(text),
        // messages and terms end between characters
        Err(_) => Err(AllocError),
    }
}

/// The tree that the text is read as.
fn read_tree<'t>(
    alloc: Global,
    text: &'t str,
    edition: Edition,
    nesting: usize,
) -> Result<Resource<&'t str>, AllocError>
    ensures { IfOk result (λ tree. (tiles : List Tile) × Tiling edition text.now tiles
        × (resource_view (λ s. s.now) tree ≡ tree_of text.now tiles)) }
{
    match parse_within(alloc, text, edition, nesting) {
        Ok(Ok(tree)) => Ok(tree),
        Ok(Err(ParseFault::Syntax(tree, _))) => Ok(tree),
        // a normal form nests no deeper than its text
        Ok(Err(ParseFault::Memory)) | Err(_) => Err(AllocError),
    }
}

/// Whether both texts are read as one tree.
fn reads_alike(
    alloc: Global,
    text: &str,
    other: &str,
    edition: Edition,
    nesting: usize,
) -> Result<bool, AllocError>
    ensures { IfOk result (λ alike. IsTrue alike ↔ ReadsAlike edition text.now other.now) }
{
    let tree = read_tree(alloc, text, edition, nesting)?;
    let other = read_tree(alloc, other, edition, nesting)?;
    Ok(same_texts(&tree, &other))
}
