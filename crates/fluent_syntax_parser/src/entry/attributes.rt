//! Attributes.
ghost use Rattle.std.specs.Prelude.{◌<◌, ◌≤◌, length, map, IfOk};
ghost use Rattle.fluent_syntax_tree.specs.Entry.{attribute_map};
ghost use Rattle.fluent_syntax_tree.specs.View.{attribute_view};
ghost use Rattle.fluent_syntax_grammar.specs.Entries.{attribute_of, attributes_of};
ghost use Rattle.fluent_syntax_grammar.specs.Grammar.{within};
ghost use Rattle.fluent_syntax_parser.specs.Made.{AddsParsed, Parses};

use crate::fault::ReadFault;
use crate::lists::add;
use crate::reader::Reader;
use crate::texts::MakeTexts;
use fluent_syntax_tree::ast::Attribute;

impl<'s, 't, M: MakeTexts> Reader<'s, 't, M> {
    /// Reads an attribute, and adds it.
    #[inline(always)]
    fn add_attribute(
        &self,
        attributes: &mut Vec<Attribute<M::Text>>,
        nesting: usize,
        ptr: usize,
    ) -> Result<usize, ReadFault>
        requires { ptr ≤ length self.now.source.bytes.now }
        ensures adds { let t = self.now.source.bytes.now in
            AddsParsed t (attribute_map (M.source self.now.texts.now))
            (attribute_of self.now.edition t (within self.now.edition t nesting)) (attribute_view M.made)
            attributes.old.items attributes.new.items ptr result }
        ensures within { IfOk result (λ end. (ptr < end) × (end ≤ length self.now.source.bytes.now)) }
    {
        let (ranges, value) = self.attribute_parts(nesting, ptr)?;
        let id = self.identifier(ranges.name)?;
        add(attributes, Attribute { id, value })?;
        Ok(ranges.span.end)
    }

    /// Reads the longest list of attributes. One that is refused ends it, where it would begin.
    #[inline(never)]
    fn get_listed_attributes(
        &self,
        nesting: usize,
        ptr: usize,
    ) -> Result<(Vec<Attribute<M::Text>>, usize), ReadFault>
        requires { ptr ≤ length self.now.source.bytes.now }
        ensures parses { let t = self.now.source.bytes.now in
            Parses t (map (attribute_map (M.source self.now.texts.now)))
            (attributes_of self.now.edition t (within self.now.edition t nesting))
            (λ found. map (attribute_view M.made) found.items) ptr result }
        ensures within { IfOk result (λ read. (ptr ≤ read.1) × (read.1 ≤ length self.now.source.bytes.now)) }
    {
        let mut attributes = Vec::with_capacity(self.alloc, 4)?;
        let mut place = ptr;
        loop {
            match self.add_attribute(&mut attributes, nesting, place) {
                Ok(next) => place = next,
                Err(ReadFault::Refused { .. }) => return Ok((attributes, place)),
                Err(ReadFault::TooDeep) => return Err(ReadFault::TooDeep),
                Err(ReadFault::Memory) => return Err(ReadFault::Memory),
            }
        }
    }

    /// Reads the longest list of attributes: of most messages, none.
    #[inline(always)]
    pub(crate) fn get_attributes(
        &self,
        nesting: usize,
        ptr: usize,
    ) -> Result<(Vec<Attribute<M::Text>>, usize), ReadFault>
        requires { ptr ≤ length self.now.source.bytes.now }
        ensures parses { let t = self.now.source.bytes.now in
            Parses t (map (attribute_map (M.source self.now.texts.now)))
            (attributes_of self.now.edition t (within self.now.edition t nesting))
            (λ found. map (attribute_view M.made) found.items) ptr result }
        ensures within { IfOk result (λ read. (ptr ≤ read.1) × (read.1 ≤ length self.now.source.bytes.now)) }
    {
        let dot = self.source.skip_blank_inline(ptr);
        match self.source.expect_byte(b'.', dot) {
            Ok(_) => self.get_listed_attributes(nesting, ptr),
            Err(_) => Ok((Vec::new(self.alloc), ptr)),
        }
    }
}
