//! Messages and terms.
ghost use Rattle.std.specs.Prelude.{◌<◌, ◌≤◌, length, IfOk};
ghost use Rattle.fluent_syntax_tree.specs.Entry.{entry_map};
ghost use Rattle.fluent_syntax_tree.specs.View.{entry_view};
ghost use Rattle.fluent_syntax_grammar.specs.Entries.{message_of, term_of};
ghost use Rattle.fluent_syntax_grammar.specs.Grammar.{within};
ghost use Rattle.fluent_syntax_parser.specs.Fields.{fields, fields_map, fields_view};
ghost use Rattle.fluent_syntax_parser.specs.Made.{AddsParsed, Parses};

use crate::fault::{Fault, ReadFault, Refusal};
use crate::lists::add;
use crate::reader::Reader;
use crate::texts::MakeTexts;
use fluent_syntax_tree::ast::{Attribute, Entry, Message, Pattern, Term};
use fluent_syntax_tree::spans::Span;

/// What comes after the name of a message or a term.
#[derive(Drop)]
pub(crate) struct Fields<T> {
    value: Option<Pattern<T>>,
    attributes: Vec<Attribute<T>>,
}

impl<'s, 't, M: MakeTexts> Reader<'s, 't, M> {
    /// Reads an inline blank, `=`, perhaps a pattern, a blank block and attributes.
    #[inline(always)]
    fn get_fields(&self, nesting: usize, ptr: usize) -> Result<(Fields<M::Text>, usize), ReadFault>
        requires { ptr ≤ length self.now.source.bytes.now }
        ensures parses { let t = self.now.source.bytes.now in
            Parses t (fields_map (M.source self.now.texts.now))
            (fields self.now.edition t (within self.now.edition t nesting)) (fields_view M.made) ptr result }
        ensures within { IfOk result (λ read. (ptr < read.1) × (read.1 ≤ length self.now.source.bytes.now)) }
    {
        let equals = self.source.skip_blank_inline(ptr);
        let start = self.source.expect_byte(b'=', equals)?;
        let (value, end) = self.get_pattern(nesting, start)?;
        // no blank line comes after a pattern
        let (attributes, place) = self.get_attributes(nesting, end)?;
        Ok((Fields { value, attributes }, place))
    }

    /// Reads a message, and adds it.
    #[inline(always)]
    pub(crate) fn add_message(
        &self,
        body: &mut Vec<Entry<M::Text>>,
        nesting: usize,
        start: usize,
    ) -> Result<usize, ReadFault>
        requires { start ≤ length self.now.source.bytes.now }
        ensures adds { let t = self.now.source.bytes.now in
            AddsParsed t (entry_map (M.source self.now.texts.now))
            (message_of self.now.edition t (within self.now.edition t nesting)) (entry_view M.made) body.old.items
            body.new.items start result }
        ensures within { IfOk result (λ end. (start < end) × (end ≤ length self.now.source.bytes.now)) }
    {
        let end = self.source.identifier_end(start)?;
        let name = Span { start, end };
        let (fields, place) = self.get_fields(nesting, end)?;
        let Fields { value, attributes } = fields;
        if value.is_none() && attributes.is_empty() {
            return Err(ReadFault::Refused {
                fault: Fault::MessageField,
                from: start,
                place,
            });
        }
        let id = self.identifier(name)?;
        let message = Message {
            id,
            value,
            attributes,
            comment: None,
        };
        add(body, Entry::Message(message))?;
        Ok(place)
    }

    /// Reads a term, and adds it.
    #[inline(never)]
    pub(crate) fn add_term(
        &self,
        body: &mut Vec<Entry<M::Text>>,
        nesting: usize,
        start: usize,
    ) -> Result<usize, ReadFault>
        requires { start ≤ length self.now.source.bytes.now }
        ensures adds { let t = self.now.source.bytes.now in
            AddsParsed t (entry_map (M.source self.now.texts.now))
            (term_of self.now.edition t (within self.now.edition t nesting)) (entry_view M.made) body.old.items
            body.new.items start result }
        ensures within { IfOk result (λ end. (start < end) × (end ≤ length self.now.source.bytes.now)) }
    {
        let letter = self.source.expect_byte(b'-', start)?;
        let end = self.source.identifier_end(letter)?;
        let name = Span { start: letter, end };
        let (fields, place) = self.get_fields(nesting, end)?;
        let Fields { value, attributes } = fields;
        match value {
            Some(value) => {
                let id = self.identifier(name)?;
                let term = Term {
                    id,
                    value,
                    attributes,
                    comment: None,
                };
                add(body, Entry::Term(term))?;
                Ok(place)
            }
            None => Err(ReadFault::Refused {
                fault: Fault::TermField,
                from: letter,
                place,
            }),
        }
    }
}
