//! The names of the named arguments of a list, looked up in a table where there are many.
ghost use Rattle.std.specs.Prelude.{◌≡◌, ◌==◌, ◌++◌, ◌∷◌, [], length, not, true, IfOk, OnOk};
ghost use Rattle.fluent_syntax_tree.specs.Spans.{bytes_at};
ghost use Rattle.fluent_syntax_grammar.specs.Arguments.{is_used};
ghost use Rattle.fluent_syntax_parser.specs.Gathered.{names_in_order};
ghost use Rattle.fluent_syntax_grammar.specs.NameKeys.{NotesAll};
ghost use Rattle.fluent_syntax_parser.specs.Noted.{Notes};

use crate::source::Source;
use fluent_syntax_tree::spans::Span;
use std::alloc::{AllocError, Global};
use std::collections::BTreeSet;

/// From so many names on they are looked up in a table. Fewer are compared one by one.
const TABLE_THRESHOLD: usize = 32;

/// The names of the named arguments of a list that were read so far, in order, and in a table where there are many.
#[derive(Drop)]
pub(crate) struct SeenNames<'s> {
    names: Vec<Span>,
    table: BTreeSet<&'s [u8], Global>,
}

impl<'s> SeenNames<'s> {
    /// No names.
    pub(crate) fn new(alloc: Global) -> Self
        ensures names { result.names.items ≡ [] }
        ensures noted { Notes (λ k. k.now) result.table.keys [] }
    {
        SeenNames {
            names: Vec::new(alloc),
            table: BTreeSet::new(alloc),
        }
    }

    pub(crate) fn is_empty(&self) -> bool
        ensures { result ≡ (length self.now.names.items == 0) }
    {
        self.names.is_empty()
    }

    /// Notes a name after the others, if it is none of them, and says whether it is new.
    pub(crate) fn note_new(&mut self, source: &Source<'s>, name: Span) -> Result<bool, AllocError>
        requires { Notes (λ k. k.now) self.old.table.keys (names_in_order source.now.bytes.now self.old.names.items) }
        ensures new { let t = source.now.bytes.now in
            IfOk result (λ is_new. is_used (bytes_at t name) (names_in_order t self.old.names.items) ≡ not is_new) }
        ensures noted { let t = source.now.bytes.now in IfOk result (λ is_new. is_new ≡ true →
            (self.new.names.items ≡ self.old.names.items ++ name ∷ [])
            × Notes (λ k. k.now) self.new.table.keys (names_in_order t self.new.names.items)) }
    {
        if self.names.len() < TABLE_THRESHOLD {
            if source.has_name(&self.names, name) {
                return Ok(false);
            }
            self.note_among_few(source, name)?;
            return Ok(true);
        }
        let is_new = self.table.insert(source.bytes_of(name))?;
        if !is_new {
            return Ok(false);
        }
        self.names.push(name)?;
        Ok(true)
    }

    /// Notes a name after few others, which then perhaps are many.
    fn note_among_few(&mut self, source: &Source<'s>, name: Span) -> Result<(), AllocError>
        requires { self.old.table.keys ≡ [] }
        ensures names { OnOk result (self.new.names.items ≡ self.old.names.items ++ name ∷ []) }
        ensures noted { let t = source.now.bytes.now in
            OnOk result (Notes (λ k. k.now) self.new.table.keys (names_in_order t self.new.names.items)) }
    {
        self.names.push(name)?;
        if self.names.len() < TABLE_THRESHOLD {
            return Ok(());
        }
        self.note_all(source)
    }

    /// Notes all names in the table, where none was noted there yet.
    fn note_all(&mut self, source: &Source<'s>) -> Result<(), AllocError>
        requires { self.old.table.keys ≡ [] }
        ensures names { self.new.names ≡ self.old.names }
        ensures noted { let t = source.now.bytes.now in
            OnOk result (NotesAll (λ k. k.now) self.new.table.keys (names_in_order t self.new.names.items)) }
    {
        for index in 0..self.names.len() {
            self.table.insert(source.bytes_of(self.names[index]))?;
        }
        Ok(())
    }
}
