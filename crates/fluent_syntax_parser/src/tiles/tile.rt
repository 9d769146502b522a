//! Entries and junk, each with the comment that is attached to it.
ghost use Rattle.std.specs.Prelude.{◌≡◌, ◌-◌, ◌<◌, ◌≤◌, ◌∷◌, ◌++◌, [], length, IfErr, IfOk, List, None, Option, Some};
ghost use Rattle.std.specs.Prelude.{option_to_list};
ghost use Rattle.fluent_syntax_tree.specs.declared.ast.Comment.{Comment};
ghost use Rattle.fluent_syntax_tree.specs.declared.ast.Entry.{Entry};
ghost use Rattle.fluent_syntax_tree.specs.declared.ast.Entry.TheVariants as entries;
ghost use Rattle.fluent_syntax_grammar.specs.Grammar.{within};
ghost use Rattle.fluent_syntax_grammar.specs.Nesting.{TextDeeper, TooDeep};
ghost use Rattle.fluent_syntax_grammar.specs.Tiling.{JunkEnd, TileIn, entry_in};
ghost use Rattle.fluent_syntax_parser.specs.Halts.{HaltsWithin, OnHalt};
ghost use Rattle.fluent_syntax_parser.specs.MadeEntries.{AddsJunk, AddsTile, AttachesLast, AttachedLast, commented};
ghost use Rattle.fluent_syntax_parser.specs.MadeEntries.{ends_with_comment, is_comment};

use crate::fault::{ReadFault, Refusal};
use crate::lists::add;
use crate::options::Halt;
use crate::reader::Reader;
use crate::texts::MakeTexts;
use fluent_syntax_tree::ast::{Comment, Entry, Message, Term};
use fluent_syntax_tree::errors::ParserError;
use fluent_syntax_tree::spans::Span;
use std::alloc::AllocError;

/// A message or a term with the comment, or the comment, if it can't be attached to the entry.
fn with_comment<S: Drop>(comment: Comment<S>, entry: Entry<S>) -> Result<Entry<S>, Comment<S>>
    ensures attached { IfOk result (λ e. commented comment entry ≡ Some e) }
    ensures other { IfErr result (λ c. (c ≡ comment) × (commented comment entry ≡ None)) }
{
    match entry {
        Entry::Message(message) => {
            let comment = Some(comment);
            Ok(Entry::Message(Message { comment, ..message }))
        }
        Entry::Term(term) => {
            let comment = Some(comment);
            Ok(Entry::Term(Term { comment, ..term }))
        }
        _ => Err(comment),
    }
}

/// The item of a list that holds one at most.
pub(crate) fn only_item<T: Drop>(items: Vec<T>) -> Option<T>
    ensures { (item : Option T) → items.items ≡ option_to_list item → result ≡ item }
{
    let mut items = items;
    items.pop()
}

fn is_comment<S: Drop>(entry: &Entry<S>) -> bool
    ensures { result ≡ is_comment entry.now }
{
    matches!(entry, Entry::Comment(_))
}

/// Whether the last entry is a comment of level 1.
pub(crate) fn ends_with_comment<S: Drop>(body: &[Entry<S>]) -> bool
    ensures { result ≡ ends_with_comment body.now }
{
    match body.last() {
        Some(entry) => is_comment(entry),
        None => false,
    }
}

/// The comment of level 1 that an entry is, if it is one.
fn as_comment<S: Drop>(entry: Entry<S>) -> Option<Comment<S>>
    ensures { (c : Comment S) → entry ≡ entries.Comment c → result ≡ Some c }
{
    match entry {
        Entry::Comment(comment) => Some(comment),
        _ => None,
    }
}

/// Takes the comment of level 1 that the entries end with.
fn take_comment<S: Drop>(body: &mut Vec<Entry<S>>) -> Option<Comment<S>>
    ensures { (before : List (Entry S)) (c : Comment S) → body.old.items ≡ before ++ entries.Comment c ∷ [] →
        (result ≡ Some c) × (body.new.items ≡ before) }
{
    match body.pop() {
        Some(entry) => as_comment(entry),
        None => None,
    }
}

/// Attaches the comment before the last entry to that, and says whether it can be attached there. Where it can't, the
/// entry is dropped.
fn attach_to_last<S: Drop>(body: &mut Vec<Entry<S>>) -> Result<bool, AllocError>
    ensures { (before : List (Entry S)) (c : Comment S) (e : Entry S) →
        body.old.items ≡ before ++ entries.Comment c ∷ [] ++ e ∷ [] →
        IfOk result (AttachedLast before c e body.new.items) }
{
    let Some(entry) = body.pop() else {
        return Ok(false);
    };
    let Some(comment) = take_comment(body) else {
        return Ok(false);
    };
    match with_comment(comment, entry) {
        Ok(entry) => {
            add(body, entry)?;
            Ok(true)
        }
        Err(comment) => {
            add(body, Entry::Comment(comment))?;
            Ok(false)
        }
    }
}

impl<'s, 't, M: MakeTexts> Reader<'s, 't, M> {
    /// Adds junk up to the next place where an entry may start, with its error, and says where it ends.
    #[inline(never)]
    fn add_junk(
        &self,
        body: &mut Vec<Entry<M::Text>>,
        errors: &mut Vec<ParserError>,
        refusal: Refusal,
        start: usize,
    ) -> Result<usize, AllocError>
        requires { refusal.place ≤ length self.now.source.bytes.now }
        ensures adds { let t = self.now.source.bytes.now in IfOk result (λ end.
            AddsJunk (M.source self.now.texts.now) M.made t refusal start end body.old.items body.new.items
            errors.old.items errors.new.items) }
        ensures ends { IfOk result (JunkEnd self.now.source.bytes.now refusal.place) }
    {
        let end = self.source.next_entry_start(refusal.place);
        let stretch = Span { start, end };
        let error = self.source.error_of(self.alloc, refusal, stretch)?;
        let content = self.text(stretch)?;
        add(body, Entry::Junk { content })?;
        add(errors, error)?;
        Ok(end)
    }

    /// Reads an entry and adds it, or junk up to the next place where one may start, with its error; says where it
    /// ends.
    #[inline(always)]
    pub(crate) fn add_tile(
        &self,
        body: &mut Vec<Entry<M::Text>>,
        errors: &mut Vec<ParserError>,
        nesting: usize,
        start: usize,
    ) -> Result<usize, Halt>
        requires { start < length self.now.source.bytes.now }
        ensures adds { let t = self.now.source.bytes.now in IfOk result (λ end.
            AddsTile (M.source self.now.texts.now) M.made self.now.edition t nesting start end body.old.items
            body.new.items errors.old.items errors.new.items) }
        ensures within { IfOk result (λ end. (start < end) × (end ≤ length self.now.source.bytes.now)) }
        ensures nests { IfErr result (HaltsWithin nesting (length self.now.source.bytes.now - start)) }
        ensures deeper { let t = self.now.source.bytes.now in
            let R = within self.now.edition t nesting in
            IfErr result (OnHalt (TooDeep (entry_in self.now.edition t R) start)) }
    {
        match self.add_entry(body, nesting, start) {
            Ok(end) => Ok(end),
            Err(ReadFault::Refused { fault, from, place }) => {
                let refusal = Refusal { fault, from, place };
                let end = self.add_junk(body, errors, refusal, start)?;
                Ok(end)
            }
            Err(ReadFault::TooDeep) => Err(Halt::TooDeep),
            Err(ReadFault::Memory) => Err(Halt::Memory),
        }
    }

    /// Attaches the comment that was added last, and ends at a place, to the entry there, if it is attached to one;
    /// says where that ends.
    #[inline(never)]
    pub(crate) fn attach_comment(
        &self,
        body: &mut Vec<Entry<M::Text>>,
        nesting: usize,
        ptr: usize,
    ) -> Result<usize, Halt>
        requires { ptr ≤ length self.now.source.bytes.now }
        ensures attaches { let t = self.now.source.bytes.now in IfOk result (λ end.
            AttachesLast (M.source self.now.texts.now) M.made self.now.edition t ptr end body.old.items
            body.new.items) }
        ensures within { IfOk result (λ end. (ptr ≤ end) × (end ≤ length self.now.source.bytes.now)) }
        ensures nests { IfErr result (HaltsWithin nesting (length self.now.source.bytes.now - ptr)) }
        ensures deeper { let t = self.now.source.bytes.now in let edition = self.now.edition in
            IfErr result (OnHalt (TextDeeper edition t (TileIn edition t) nesting ptr)) }
        ensures beyond { let t = self.now.source.bytes.now in let edition = self.now.edition in
            let deeper = TextDeeper edition t (TileIn edition t) nesting in
            IfOk result (λ end. deeper end → deeper ptr) }
        ensures shallow { let t = self.now.source.bytes.now in let edition = self.now.edition in
            let deeper = TextDeeper edition t (TileIn edition t) nesting in
            IfOk result (λ end. deeper ptr → deeper end) }
    {
        if self.source.is_byte_at(b'#', ptr) || self.source.skip_blank_block(ptr) != ptr {
            return Ok(ptr);
        }
        match self.add_entry(body, nesting, ptr) {
            Ok(end) => {
                let attaches = attach_to_last(body)?;
                if attaches { Ok(end) } else { Ok(ptr) }
            }
            Err(ReadFault::Refused { .. }) => Ok(ptr),
            Err(ReadFault::TooDeep) => Err(Halt::TooDeep),
            Err(ReadFault::Memory) => Err(Halt::Memory),
        }
    }
}
