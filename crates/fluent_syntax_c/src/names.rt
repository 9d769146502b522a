//! The names of messages, terms and attributes as rows.
ghost use Rattle.std.specs.Prelude.{◌≡◌, ◌+◌, ◌++◌, ◌<◌, ◌≤◌, ◌^◌, length, map, vec_len, IfOk, OnOk};
ghost use Rattle.std.specs.Str.{IsUtf8};
ghost use Rattle.fluent_syntax_tree.specs.Every.{attribute_every, entry_every, list_every};
ghost use Rattle.fluent_syntax_tree.specs.Spans.{IsTextRange};
ghost use Rattle.fluent_syntax_tree.specs.View.{attribute_view};
ghost use Rattle.fluent_syntax_parser.specs.Rest.{tree_of};
ghost use Rattle.fluent_syntax_c.specs.Depth.{EditionReadsDeeper};
ghost use Rattle.fluent_syntax_c.specs.Names.{NamesTiles, are_names, entry_rows, name_row, named_number, owner_rows};
ghost use Rattle.fluent_syntax_c.specs.Rows.{AreRows, Gives};

use crate::columns::Positions;
use crate::readings::Reading;
use crate::rows::{TextRows, give_rows};
use fluent_syntax::ast::{Attribute, Entry};
use fluent_syntax::parser::Edition;
use fluent_syntax::spans::{Halt, Span, SpannedTile, Tiles};
use std::alloc::{AllocError, Global};

/// A name: `struct ftl_name` of `include/fluent.h`.
#[repr(C)]
#[derive(Clone, Copy)]
pub struct FtlName {
    /// The line and the column of the name, both from 1; the column counts bytes.
    pub line: usize,
    pub column: usize,
    /// The column in UTF-16 units and in characters, both from 1.
    pub column_utf16: usize,
    pub column_characters: usize,
    /// The bytes of the input that spell it. The `-` of a term and the `.` of an attribute come before them.
    pub start: usize,
    pub end: usize,
    /// The row of the message or the term whose name or attribute it is, from 0.
    pub owner: usize,
    /// The stretch of that message or term, with the blank lines directly after it, and without a comment before it.
    pub entry_start: usize,
    pub entry_end: usize,
    /// What is named.
    pub kind: u32,
}

/// What is named: `enum ftl_name_kind` of `include/fluent.h`.
#[derive(Clone, Copy)]
pub enum Named {
    Message,
    Term,
    Attribute,
}

impl Named {
    fn number(self) -> u32
        ensures { result ≡ named_number self }
    {
        match self {
            Named::Message => 1,
            Named::Term => 2,
            Named::Attribute => 3,
        }
    }
}

/// Writes the names of the messages, terms and attributes of the input, read by the edition of the number, to the front
/// of `rows`, and their number to `count`. They come in the order of the input, and what was refused has none.
///
/// Returns 0, or 1 where the input has syntax errors. Where it returns 5 there are more than `rows` has room for:
/// `count` says how many, and `rows` is as it was. Otherwise `count` is 0 and `rows` as it was: 2 where no edition has
/// the number, 3 where the input is not UTF-8, 4 where a growth was refused, 6 where the input's placeables and
/// argument lists nest more than `nesting` deep.
#[unsafe(no_mangle)]
pub extern "C" fn ftl_names(
    alloc: Global,
    edition: u32,
    nesting: usize,
    input: &[u8],
    rows: &mut [FtlName],
    count: &mut usize,
) -> u32
    ensures gives { Gives edition (AreRows are_names edition input.now) (IsUtf8 input.now)
        (nesting < length input.now) (EditionReadsDeeper edition input.now nesting)
        rows.old rows.new count.new result }
{
    give_rows::<Names>(alloc, edition, nesting, input, rows, count)
}

/// The names in a text.
struct Names;

impl TextRows for Names {
    type Row = FtlName;

    ghost are = { are_names };

    fn rows_of(
        alloc: Global,
        nesting: usize,
        reading: &Reading<'_>,
    ) -> Result<Vec<FtlName>, AllocError> {
        name_rows(alloc, reading.text, reading.edition, nesting)
    }
}

/// The rows of the names of a text that nests no deeper than that.
fn name_rows(
    alloc: Global,
    text: &str,
    edition: Edition,
    nesting: usize,
) -> Result<Vec<FtlName>, AllocError>
    requires { length text.now + 1 < 2 ^ 63 }
    ensures { IfOk result (λ rows. NamesTiles edition text.now rows.items) }
{
    let mut rows = Vec::new(alloc);
    let mut positions = Positions::new(text);
    let mut tiles = Tiles::new(text, edition, nesting, 0);
    loop {
        match tiles.next_tile(alloc) {
            Ok(Some(found)) => add_tile(&mut rows, &mut positions, found)?,
            Ok(None) => return Ok(rows),
            // it was read before, so it is not too deep
            Err(Halt::TooDeep | Halt::Memory) => return Err(AllocError),
        }
    }
}

/// Adds the rows of what was found, which is dropped here and not on each way out of the loop.
fn add_tile<'t>(
    rows: &mut Vec<FtlName>,
    positions: &mut Positions<'t>,
    found: SpannedTile,
) -> Result<(), AllocError>
    requires { entry_every (IsTextRange positions.old) (tree_of found.entry) }
    ensures rows { OnOk result (rows.new.items
        ≡ rows.old.items ++ entry_rows positions.old (vec_len rows.old) found.span (tree_of found.entry)) }
    ensures text { positions.new ≡ positions.old }
{
    add_entry(rows, positions, found.span, &found.entry)
}

/// Adds the rows of an entry that is there.
fn add_entry<'t>(
    rows: &mut Vec<FtlName>,
    positions: &mut Positions<'t>,
    whole: Span,
    entry: &Entry<Span>,
) -> Result<(), AllocError>
    requires { entry_every (IsTextRange positions.old) (tree_of entry.now) }
    ensures rows { OnOk result (rows.new.items
        ≡ rows.old.items ++ entry_rows positions.old (vec_len rows.old) whole (tree_of entry.now)) }
    ensures text { positions.new ≡ positions.old }
{
    match entry {
        Entry::Message(message) => {
            let name = message.id.name;
            add_owner(
                rows,
                positions,
                Named::Message,
                whole,
                name,
                &message.attributes,
            )
        }
        Entry::Term(term) => {
            let name = term.id.name;
            add_owner(rows, positions, Named::Term, whole, name, &term.attributes)
        }
        Entry::Comment(_)
        | Entry::GroupComment(_)
        | Entry::ResourceComment(_)
        | Entry::Junk { .. } => Ok(()),
    }
}

/// Adds the rows of a message or a term that is there, and of its attributes.
fn add_owner<'t>(
    rows: &mut Vec<FtlName>,
    positions: &mut Positions<'t>,
    named: Named,
    whole: Span,
    name: Span,
    attributes: &Vec<Attribute<Span>>,
) -> Result<(), AllocError>
    requires name { name.start ≤ length positions.old }
    requires attributes { list_every (attribute_every (IsTextRange positions.old))
        (map (attribute_view (λ s. s)) attributes.now.items) }
    ensures rows { OnOk result (rows.new.items ≡ rows.old.items ++
        owner_rows positions.old named (vec_len rows.old) whole name
        (map (attribute_view (λ s. s)) attributes.now.items)) }
    ensures text { positions.new ≡ positions.old }
{
    let owner = rows.len();
    rows.push(row_of(positions, named, owner, whole, name))?;
    for attribute in attributes {
        let name = attribute.id.name;
        rows.push(row_of(positions, Named::Attribute, owner, whole, name))?;
    }
    Ok(())
}

fn row_of<'t>(
    positions: &mut Positions<'t>,
    named: Named,
    owner: usize,
    whole: Span,
    name: Span,
) -> FtlName
    requires { name.start ≤ length positions.old }
    ensures row { result ≡ name_row positions.old named owner whole name }
    ensures text { positions.new ≡ positions.old }
{
    let position = positions.position(name.start);
    FtlName {
        line: position.line,
        column: position.column,
        column_utf16: position.column_utf16,
        column_characters: position.column_characters,
        start: name.start,
        end: name.end,
        owner,
        entry_start: whole.start,
        entry_end: whole.end,
        kind: named.number(),
    }
}
