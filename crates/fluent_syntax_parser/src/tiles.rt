//! What is in a text, one after the other, and where.
ghost use Rattle.std.specs.Prelude.{◌≡◌, ◌-◌, ◌^◌, ◌<◌, ◌≤◌, length, IfErr, IfOk, IfSome};
ghost use Rattle.fluent_syntax_grammar.specs.Nesting.{TextDeeper};
ghost use Rattle.fluent_syntax_grammar.specs.Tiling.{TileIn};
ghost use Rattle.fluent_syntax_parser.specs.Halts.{ComesTo, HaltsWithin, OnHalt, StaysUnread};

pub(crate) mod junk;
pub(crate) mod next;
pub(crate) mod tile;

use crate::options::Halt;
use crate::reader::Reader;
use crate::source::Source;
use crate::texts::AsSpans;
use crate::tiles::tile::only_item;
use fluent_syntax_tree::ast::Entry;
use fluent_syntax_tree::edition::Edition;
use fluent_syntax_tree::errors::ParserError;
use fluent_syntax_tree::spans::Span;
use std::alloc::Global;

/// An entry of a text, or junk with its error, and where it is.
#[derive(Debug, Drop)]
pub struct SpannedTile {
    /// From its first byte to its end. Blank lines directly after a message or a term are in it, those after a
    /// comment are not. Junk ends where the next line begins like an entry.
    pub span: Span,
    /// A comment is by itself, also where it is attached to the entry that begins where it ends.
    pub entry: Entry<Span>,
    /// The error, where it is junk.
    pub error: Option<ParserError>,
}

/// The entries and the junk of a text from a place on, read one by one: what is between its blank lines.
#[derive(Clone, Copy)]
pub struct Tiles<'s> {
    source: Source<'s>,
    edition: Edition,
    nesting: usize,
    ptr: usize,
    ghost within: { ptr ≤ length source.bytes.now },
    ghost small: { length source.bytes.now < 2 ^ 63 },
}

impl<'s> Tiles<'s> {
    ghost use Rattle.fluent_syntax_parser.specs.Tiles.{NextTile};

    /// Those of the text from the place on, with at most `nesting` placeables and argument lists open at once.
    pub fn new(text: &'s str, edition: Edition, nesting: usize, place: usize) -> Tiles<'s>
        requires { place ≤ length text.now }
        ensures text { result.source.bytes.now ≡ text.now }
        ensures edition { result.edition ≡ edition }
        ensures nesting { result.nesting ≡ nesting }
        ensures start { result.ptr ≡ place }
    {
        Tiles {
            source: Source {
                bytes: text.as_bytes(),
            },
            edition,
            nesting,
            ptr: place,
        }
    }

    /// Reads the next entry or junk; `None` where only blank lines are left.
    ///
    /// Where nothing is left, and after a `Halt`, it is as it was. It is never `TooDeep` where as many may nest as
    /// bytes are left.
    pub fn next_tile(&mut self, alloc: Global) -> Result<Option<SpannedTile>, Halt>
        ensures text { self.new.source ≡ self.old.source }
        ensures edition { self.new.edition ≡ self.old.edition }
        ensures nesting { self.new.nesting ≡ self.old.nesting }
        ensures next { let t = self.old.source.bytes.now in
            IfOk result (NextTile self.old.edition t self.old.ptr self.new.ptr) }
        ensures onward { IfOk result (λ found. IfSome found (λ read. self.old.ptr < self.new.ptr)) }
        ensures stays { StaysUnread self.old self.new result }
        ensures nests { let left = length self.old.source.bytes.now - self.old.ptr in
            IfErr result (HaltsWithin self.old.nesting left) }
        ensures deeper { let t = self.old.source.bytes.now in let edition = self.old.edition in
            IfErr result (OnHalt (TextDeeper edition t (TileIn edition t) self.old.nesting self.old.ptr)) }
        ensures shallow { let t = self.old.source.bytes.now in let edition = self.old.edition in
            let deeper = TextDeeper edition t (TileIn edition t) self.old.nesting in
            IfOk result (ComesTo deeper self.old.ptr self.new.ptr) }
    {
        let source = self.source;
        let start = source.skip_blank_block(self.ptr);
        if start == source.bytes.len() {
            return Ok(None);
        }
        let reader = Reader {
            source,
            alloc,
            edition: self.edition,
            texts: &AsSpans,
        };
        let mut body = Vec::new(alloc);
        let mut errors = Vec::new(alloc);
        let end = reader.add_tile(&mut body, &mut errors, self.nesting, start)?;
        self.ptr = end;
        let span = Span { start, end };
        let Some(entry) = only_item(body) else {
            return Ok(None);
        };
        let error = only_item(errors);
        Ok(Some(SpannedTile { span, entry, error }))
    }
}
