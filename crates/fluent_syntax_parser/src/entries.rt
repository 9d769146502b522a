//! Entries one by one.
ghost use Rattle.std.specs.Prelude.{◌≡◌, ◌^◌, ◌<◌, ◌≤◌, length, IfOk, IfSome};
ghost use Rattle.std.proofs.Props.{props};
ghost use Rattle.std.specs.Str.{IsUtf8};
ghost use Rattle.fluent_syntax_tree.specs.Every.{entry_every};
ghost use Rattle.fluent_syntax_tree.specs.Spans.{IsTextRange};
ghost use Rattle.fluent_syntax_tree.specs.View.{entry_view};
ghost use Rattle.fluent_syntax_parser.specs.MadeEntries.{AddsNext, NextMade};
ghost use Rattle.fluent_syntax_parser.specs.Rest.{NextError, NextTo, ReadSoFar};

use crate::options::{Halt, Options};
use crate::reader::Reader;
use crate::source::Source;
use crate::texts::{AsSpans, MakeTexts};
use crate::tiles::tile::only_item;
use fluent_syntax_tree::ast::Entry;
use fluent_syntax_tree::errors::ParserError;
use fluent_syntax_tree::spans::Span;
use std::alloc::Global;

/// The entries of a text from a place on, read one by one, with a span of the text in place of each text.
#[derive(Clone, Copy)]
pub struct Entries<'s> {
    source: Source<'s>,
    options: Options,
    /// Where what was read last begins.
    start: usize,
    ptr: usize,
    ghost within: { ptr ≤ length source.bytes.now },
    ghost small: { length source.bytes.now < 2 ^ 63 },
    ghost utf8: { IsUtf8 source.bytes.now } by { Prim.hlevel props },
    ghost reached: { ∥ ReadSoFar options.comments options.edition source.bytes.now ptr ∥₁ },
}

impl<'s> Entries<'s> {
    ghost use Rattle.fluent_syntax_parser.specs.Halts.{ReadsEntry};

    /// The entries of the whole text.
    pub fn new(text: &'s str, options: Options) -> Entries<'s>
        ensures text { result.source.bytes.now ≡ text.now }
        ensures options { result.options ≡ options }
        ensures start { result.ptr ≡ 0 }
        ensures span { result.start ≡ 0 }
    {
        Entries {
            source: Source {
                bytes: text.as_bytes(),
            },
            options,
            start: 0,
            ptr: 0,
        }
    }

    /// Where the entry or the junk that was read last is, in bytes: from its first byte, which is that of the
    /// comment that is attached to it, to its end. Blank lines directly after a message or a term are in it, those
    /// after a comment are not. Junk ends where the next line begins like an entry.
    ///
    /// Before anything was read it is empty, at 0.
    pub fn span(&self) -> Span
        ensures { result ≡ record { start = self.now.start; end = self.now.ptr } }
    {
        Span {
            start: self.start,
            end: self.ptr,
        }
    }

    /// Reads the next entry, with its error where it is junk. `None` where none is left.
    ///
    /// Each span is an ordered range of the text, at character boundaries. Where nothing is left, and after a `Halt`,
    /// it is as it was.
    pub fn next_entry(
        &mut self,
        alloc: Global,
    ) -> Result<Option<(Entry<Span>, Option<ParserError>)>, Halt>
        ensures reads { ReadsEntry self.old self.new result }
        ensures next { let t = self.old.source.bytes.now in let options = self.old.options in
            IfOk result (NextTo options.comments options.edition t self.old.ptr self.new.start self.new.ptr) }
        ensures parts { let t = self.old.source.bytes.now in
            IfOk result (λ found. IfSome found (λ read. entry_every (IsTextRange t) (entry_view (λ s. s) read.0))) }
        ensures places { let t = self.old.source.bytes.now in
            IfOk result (λ found. IfSome found (λ read. IfSome read.1 (λ error. error.pos.start ≤ length t))) }
    {
        self.next_entry_with(alloc, &AsSpans)
    }

    /// Reads the next entry as `next_entry` does, with the text that is made of each span in the span's place.
    pub fn next_entry_with<M: MakeTexts>(
        &mut self,
        alloc: Global,
        texts: &M,
    ) -> Result<Option<(Entry<M::Text>, Option<ParserError>)>, Halt>
        ensures reads { ReadsEntry self.old self.new result }
        ensures next { let t = self.old.source.bytes.now in let options = self.old.options in
            let f = M.source texts.now in IfOk result
            (NextMade f M.made options.comments options.edition t self.old.ptr self.new.start self.new.ptr) }
        ensures places { let t = self.old.source.bytes.now in
            IfOk result (λ found. IfSome found (λ read. IfSome read.1 (λ error. error.pos.start ≤ length t))) }
    {
        let mut body = Vec::new(alloc);
        let mut errors = Vec::new(alloc);
        let Some(_span) = self.add_next_entry(alloc, texts, &mut body, &mut errors)? else {
            return Ok(None);
        };
        let Some(entry) = only_item(body) else {
            return Ok(None);
        };
        Ok(Some((entry, only_item(errors))))
    }

    /// Reads the next entry as `next_entry_with` does, and adds it to the entries, and its error to the errors where it
    /// is junk; gives where it is. `None` where none is left. A loop that clears both lists asks for no new ones.
    #[inline(always)]
    pub fn add_next_entry<M: MakeTexts>(
        &mut self,
        alloc: Global,
        texts: &M,
        body: &mut Vec<Entry<M::Text>>,
        errors: &mut Vec<ParserError>,
    ) -> Result<Option<Span>, Halt>
        ensures reads { ReadsEntry self.old self.new result }
        ensures next { let t = self.old.source.bytes.now in let options = self.old.options in
            let f = M.source texts.now in IfOk result (AddsNext f M.made options.comments options.edition t
            self.old.ptr body.old.items body.new.items errors.old.items errors.new.items) }
        ensures in_place { IfOk result (λ found. IfSome found (λ span.
            span ≡ record { start = self.new.start; end = self.new.ptr })) }
    {
        let Options {
            edition,
            comments,
            nesting,
        } = self.options;
        let reader = Reader {
            source: self.source,
            alloc,
            edition,
            texts,
        };
        let Some(span) = reader.add_next(body, errors, comments, nesting, self.ptr)? else {
            return Ok(None);
        };
        self.start = span.start;
        self.ptr = span.end;
        Ok(Some(span))
    }

    /// Passes over the next entry, as `next_entry` would read it: gives its error, where it is junk. `None` where no
    /// entry is left.
    ///
    /// A message whose patterns are each one text on its line takes no memory. Where nothing is left, and after a
    /// `Halt`, it is as it was.
    pub fn next_error(&mut self, alloc: Global) -> Result<Option<Option<ParserError>>, Halt>
        ensures reads { ReadsEntry self.old self.new result }
        ensures next { let t = self.old.source.bytes.now in let options = self.old.options in
            IfOk result (NextError options.comments options.edition t self.old.ptr self.new.start self.new.ptr) }
        ensures places { let t = self.old.source.bytes.now in
            IfOk result (λ found. IfSome found (λ error. IfSome error (λ e. e.pos.start ≤ length t))) }
    {
        let source = self.source;
        if let Some(passed) = source.next_text_message(self.options, self.ptr) {
            self.start = passed.start;
            self.ptr = passed.end;
            return Ok(Some(None));
        }
        match self.next_entry(alloc)? {
            Some((_entry, error)) => Ok(Some(error)),
            None => Ok(None),
        }
    }
}
