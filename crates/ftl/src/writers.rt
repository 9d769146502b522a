//! Writers of a text's normal form and of its JSON form, to which entries come one by one.
ghost use Rattle.std.specs.Prelude.{◌≡◌, ◌&&◌, [], IfOk, false, string_bytes};
ghost use Rattle.fluent_syntax_tree.specs.Entry.{BodyTree};
ghost use Rattle.fluent_syntax_tree.specs.View.{entry_view};
ghost use Rattle.fluent_syntax_grammar.specs.Canonical.{canonical_rules};
ghost use Rattle.fluent_syntax_grammar.specs.Rules.{entry_obeys};
ghost use Rattle.fluent_syntax_grammar.specs.Written.{Text, written};
ghost use Rattle.ftl.specs.Formatting.{AddsJson, AddsNormal, HasNormal};

use crate::one_by_one::WriteEntries;
use fluent_syntax::ast::Entry;
use fluent_syntax::laws::broken_rule_with;
use fluent_syntax::parser::Edition;
use fluent_syntax::serializer::{EntryWriter, Options};
use fluent_syntax::unicode::SinkError;
use fluent_syntax_json::BodyWriter;
use std::alloc::{AllocError, Global};

/// An empty text, with room for so many bytes where there is memory for it. Where there is none, the first write asks
/// again.
fn string_with_room(alloc: Global, room: usize) -> String
    ensures { string_bytes result ≡ [] }
{
    match String::with_capacity(alloc, room) {
        Ok(text) => text,
        Err(_) => String::new(alloc),
    }
}

/// Writes entries in their normal form, without junk, and notes whether each of them is canonical.
#[derive(Drop)]
pub struct NormalWriter {
    writer: EntryWriter<String>,
    edition: Edition,
    all_canonical: bool,
}

impl NormalWriter {
    /// A writer to an empty text, to which no entry came yet. Only if `asks`, it asks whether entries are canonical.
    /// There is room for so many bytes, if there is memory for it.
    pub fn new(alloc: Global, edition: Edition, asks: bool, room: usize) -> NormalWriter
        ensures { HasNormal edition asks [] result }
    {
        NormalWriter {
            writer: EntryWriter::new(string_with_room(alloc, room), Options::default()),
            edition,
            all_canonical: asks,
        }
    }

    /// Whether each entry that came is canonical; `false` where it didn't ask.
    pub fn all_canonical(&self) -> bool
        ensures { result ≡ self.now.all_canonical }
    {
        self.all_canonical
    }

    /// Whether each entry that came is canonical, and this one, which is asked only where those are.
    fn are_canonical_with<'s>(&self, alloc: Global, entry: &Entry<&'s str>) -> bool
        ensures { result ≡ (self.now.all_canonical
            && entry_obeys (canonical_rules self.now.edition) (entry_view (λ s. s.now) entry.now)) }
    {
        self.all_canonical && broken_rule_with(alloc, entry, self.edition).is_none()
    }

    /// The text of the entries that came, or `AllocError` where a growth of it was refused.
    pub fn finish(self) -> Result<String, AllocError>
        ensures { (edition : _) (asks : _) (tree : BodyTree Text) → HasNormal edition asks tree self
            → IfOk result (λ text. string_bytes text ≡ written false tree) }
    {
        match self.writer.finish() {
            (text, Ok(())) => Ok(text),
            (_, Err(SinkError)) => Err(AllocError),
        }
    }
}

impl WriteEntries for NormalWriter {
    ghost writes = { λ old e new. AddsNormal old e new };

    fn write_next<'s>(&mut self, alloc: Global, entry: &Entry<&'s str>) {
        self.writer.write_entry(entry);
        self.all_canonical = self.are_canonical_with(alloc, entry);
    }
}

impl WriteEntries for BodyWriter<String> {
    ghost writes = { λ old e new. AddsJson old e new };

    fn write_next<'s>(&mut self, _alloc: Global, entry: &Entry<&'s str>) {
        self.write_entry(entry);
    }
}
