//! Where the parts of a message or a term are.
ghost use Rattle.std.specs.Prelude.{◌≡◌, ◌-◌, ◌<◌, ◌≤◌, length, option_map, IfErr, IfOk, IfSome};
ghost use Rattle.fluent_syntax_grammar.specs.Entries.{message_of, term_of};
ghost use Rattle.fluent_syntax_grammar.specs.Grammar.{within};
ghost use Rattle.fluent_syntax_grammar.specs.Nesting.{TooDeep};
ghost use Rattle.fluent_syntax_grammar.specs.Tiling.{entry_in};
ghost use Rattle.fluent_syntax_parser.specs.PartRanges.{
  FindsAttribute,
  FindsAttributes,
  FindsEntry,
  FindsFields,
  FindsParts,
  HasRanges,
  each_range,
};
ghost use Rattle.fluent_syntax_tree.specs.Spans.{IsTextRange};
ghost use Rattle.fluent_syntax_parser.specs.Halts.{HaltsWithin, OnHalt};

use crate::fault::{Fault, ReadFault, Refusal};
use crate::lists::add;
use crate::options::Halt;
use crate::reader::Reader;
use crate::source::Source;
use crate::texts::{AsSpans, MakeTexts};
use fluent_syntax_tree::ast::Pattern;
use fluent_syntax_tree::edition::Edition;
use fluent_syntax_tree::spans::Span;
use std::alloc::Global;

/// Where an attribute and its parts are.
#[derive(Clone, Copy, Debug, Drop, Eq, PartialEq)]
pub struct AttributeRanges {
    /// From the start of its line to the end of its value.
    pub span: Span,
    pub name: Span,
    /// Its pattern: from directly after the `=` to its end. Blank lines after it are in it.
    pub value: Span,
}

/// Where the parts of a message or a term are.
#[derive(Debug, Drop)]
pub struct EntryRanges {
    /// Of a term without its `-`.
    pub name: Span,
    /// Its pattern, if it has one: from directly after the `=` to its end. Blank lines after it are in it.
    pub value: Option<Span>,
    pub attributes: Vec<AttributeRanges>,
}

/// The place, if there is a value.
fn place_if<T>(value: &Option<T>, place: Span) -> Option<Span>
    ensures { result ≡ option_map (λ v. place) value.now }
{
    match value {
        Some(_) => Some(place),
        None => None,
    }
}

impl<'s, 't, M: MakeTexts> Reader<'s, 't, M> {
    /// Where an attribute and its parts are, and its value.
    pub(crate) fn attribute_parts(
        &self,
        nesting: usize,
        ptr: usize,
    ) -> Result<(AttributeRanges, Pattern<M::Text>), ReadFault>
        requires { ptr ≤ length self.now.source.bytes.now }
        ensures finds { let t = self.now.source.bytes.now in
            FindsAttribute self.now.edition t (within self.now.edition t nesting)
            (M.source self.now.texts.now) M.made ptr result }
        ensures within { IfOk result
            (λ read. (ptr < read.0.span.end) × (read.0.span.end ≤ length self.now.source.bytes.now)) }
    {
        let dot = self.source.skip_blank_inline(ptr);
        let letter = self.source.expect_byte(b'.', dot)?;
        let name_end = self.source.identifier_end(letter)?;
        let equals = self.source.skip_blank_inline(name_end);
        let start = self.source.expect_byte(b'=', equals)?;
        let (value, end) = self.get_pattern(nesting, start)?;
        match value {
            Some(value) => {
                let ranges = AttributeRanges {
                    span: Span { start: ptr, end },
                    name: Span {
                        start: letter,
                        end: name_end,
                    },
                    value: Span { start, end },
                };
                Ok((ranges, value))
            }
            None => Err(ReadFault::Refused {
                fault: Fault::Value,
                from: end,
                place: end,
            }),
        }
    }

    /// Where the attributes of the longest list of them are, and where it ends.
    fn attribute_list_parts(
        &self,
        nesting: usize,
        ptr: usize,
    ) -> Result<(Vec<AttributeRanges>, usize), ReadFault>
        requires { ptr ≤ length self.now.source.bytes.now }
        ensures finds { let t = self.now.source.bytes.now in
            FindsAttributes self.now.edition t (within self.now.edition t nesting) ptr result }
        ensures within { IfOk result (λ read. (ptr ≤ read.1) × (read.1 ≤ length self.now.source.bytes.now)) }
    {
        let mut attributes = Vec::new(self.alloc);
        let mut place = ptr;
        loop {
            match self.attribute_parts(nesting, place) {
                Ok((ranges, _)) => {
                    add(&mut attributes, ranges)?;
                    place = ranges.span.end;
                }
                Err(ReadFault::Refused { .. }) => return Ok((attributes, place)),
                Err(ReadFault::TooDeep) => return Err(ReadFault::TooDeep),
                Err(ReadFault::Memory) => return Err(ReadFault::Memory),
            }
        }
    }

    /// Where the value and the attributes after a name are, and where they end.
    fn field_parts(
        &self,
        nesting: usize,
        ptr: usize,
    ) -> Result<(Option<Span>, Vec<AttributeRanges>, usize), ReadFault>
        requires { ptr ≤ length self.now.source.bytes.now }
        ensures { let t = self.now.source.bytes.now in
            FindsFields self.now.edition t (within self.now.edition t nesting) ptr result }
    {
        let equals = self.source.skip_blank_inline(ptr);
        let start = self.source.expect_byte(b'=', equals)?;
        let (value, end) = self.get_pattern(nesting, start)?;
        let (attributes, place) = self.attribute_list_parts(nesting, end)?;
        Ok((place_if(&value, Span { start, end }), attributes, place))
    }

    fn message_parts(&self, nesting: usize, start: usize) -> Result<EntryRanges, ReadFault>
        requires { start ≤ length self.now.source.bytes.now }
        ensures { let t = self.now.source.bytes.now in
            let R = within self.now.edition t nesting in
            FindsParts self.now.edition t R (message_of self.now.edition t R) start result }
    {
        let end = self.source.identifier_end(start)?;
        let name = Span { start, end };
        let (value, attributes, place) = self.field_parts(nesting, end)?;
        if value.is_none() && attributes.is_empty() {
            return Err(ReadFault::Refused {
                fault: Fault::MessageField,
                from: start,
                place,
            });
        }
        Ok(EntryRanges {
            name,
            value,
            attributes,
        })
    }

    fn term_parts(&self, nesting: usize, start: usize) -> Result<EntryRanges, ReadFault>
        requires { start ≤ length self.now.source.bytes.now }
        ensures { let t = self.now.source.bytes.now in
            let R = within self.now.edition t nesting in
            FindsParts self.now.edition t R (term_of self.now.edition t R) start result }
    {
        let letter = self.source.expect_byte(b'-', start)?;
        let end = self.source.identifier_end(letter)?;
        let name = Span { start: letter, end };
        let (value, attributes, place) = self.field_parts(nesting, end)?;
        if value.is_none() {
            return Err(ReadFault::Refused {
                fault: Fault::TermField,
                from: letter,
                place,
            });
        }
        Ok(EntryRanges {
            name,
            value,
            attributes,
        })
    }

    /// Where the parts of the entry are, by its first byte. `None` where that is a `#`.
    fn entry_parts(&self, nesting: usize, start: usize) -> Result<Option<EntryRanges>, ReadFault>
        requires { start ≤ length self.now.source.bytes.now }
        ensures { let t = self.now.source.bytes.now in
            FindsEntry self.now.edition t (within self.now.edition t nesting) start result }
    {
        if self.source.is_byte_at(b'#', start) {
            Ok(None)
        } else if self.source.is_byte_at(b'-', start) {
            let ranges = self.term_parts(nesting, start)?;
            Ok(Some(ranges))
        } else {
            let ranges = self.message_parts(nesting, start)?;
            Ok(Some(ranges))
        }
    }
}

/// Where the parts of the message or the term are that begins at the place, with at most `nesting` placeables and
/// argument lists open at once. `None` where none is read there.
///
/// It is never `TooDeep` where as many may nest as bytes are left.
pub fn entry_ranges(
    alloc: Global,
    text: &str,
    edition: Edition,
    nesting: usize,
    start: usize,
) -> Result<Option<EntryRanges>, Halt>
    requires { start ≤ length text.now }
    ensures ranges { IfOk result (HasRanges edition text.now start) }
    ensures parts { IfOk result (λ found. IfSome found (each_range (IsTextRange text.now))) }
    ensures nests { IfErr result (HaltsWithin nesting (length text.now - start)) }
    ensures deeper { let R = within edition text.now nesting in
        IfErr result (OnHalt (TooDeep (entry_in edition text.now R) start)) }
{
    let texts = AsSpans;
    let reader = Reader {
        source: Source {
            bytes: text.as_bytes(),
        },
        alloc,
        edition,
        texts: &texts,
    };
    match reader.entry_parts(nesting, start) {
        Ok(found) => Ok(found),
        Err(ReadFault::Refused { .. }) => Ok(None),
        Err(ReadFault::TooDeep) => Err(Halt::TooDeep),
        Err(ReadFault::Memory) => Err(Halt::Memory),
    }
}
