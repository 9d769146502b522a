//! The next entry of a text.
ghost use Rattle.std.specs.Prelude.{◌≡◌, ◌-◌, ◌<◌, ◌≤◌, [], length, IfErr, IfOk, IfSome, None, Ok, false, true};
ghost use Rattle.std.specs.Prelude.{List, Option, Some, ℕ};
ghost use Rattle.fluent_syntax_tree.specs.Entry.{BodyTree, EntryTree};
ghost use Rattle.fluent_syntax_tree.specs.declared.edition.Edition.{Edition};
ghost use Rattle.fluent_syntax_grammar.specs.Bytes.{hash};
ghost use Rattle.fluent_syntax_grammar.specs.Nesting.{TextDeeper};
ghost use Rattle.fluent_syntax_grammar.specs.Places.{BlankBlock, has_byte};
ghost use Rattle.fluent_syntax_grammar.specs.Tiling.{Fault};
ghost use Rattle.fluent_syntax_parser.specs.Halts.{ComesNext, DeeperFrom, HaltsWithin, OnHalt};
ghost use Rattle.fluent_syntax_parser.specs.MadeEntries.{AddsNext};
ghost use Rattle.fluent_syntax_parser.specs.Rest.{EntryAt, Rest, RestAt, TileDeeper, TileIn, are_dropped};

use crate::options::{Comments, Halt, Options};
use crate::reader::Reader;
use crate::source::Source;
use crate::texts::MakeTexts;
use crate::tiles::tile::ends_with_comment;
use fluent_syntax_tree::ast::Entry;
use fluent_syntax_tree::edition::Edition;
use fluent_syntax_tree::errors::ParserError;
use fluent_syntax_tree::spans::Span;

impl Comments {
    fn are_dropped(self) -> bool
        ensures { result ≡ are_dropped self }
    {
        match self {
            Comments::Kept => false,
            Comments::Dropped => true,
        }
    }
}

impl<'s> Source<'s> {
    /// Where the next entry or junk begins, or the text's end.
    #[inline(always)]
    fn tile_start(&self, comments: Comments, ptr: usize) -> usize
        requires { ptr ≤ length self.now.bytes.now }
        ensures rest { (edition : Edition) (entries : BodyTree Span) (errors : List (Option Fault)) →
            RestAt comments edition self.now.bytes.now result entries errors →
            Rest comments edition self.now.bytes.now ptr entries errors }
        ensures deeper { (edition : Edition) (n : ℕ) →
            let t = self.now.bytes.now in let at = TileIn comments edition t in
            TileDeeper edition t at n result → TextDeeper edition t at n ptr }
        ensures shallow { (edition : Edition) (n : ℕ) →
            let t = self.now.bytes.now in let at = TileIn comments edition t in
            TextDeeper edition t at n ptr → TileDeeper edition t at n result }
        ensures dropped { are_dropped comments ≡ true → has_byte self.now.bytes.now hash result ≡ false }
        ensures blank { let t = self.now.bytes.now in BlankBlock t ptr (length t) → result ≡ length t }
        ensures within { (ptr ≤ result) × (result ≤ length self.now.bytes.now) }
    {
        let mut start = self.skip_blank_block(ptr);
        while comments.are_dropped() && self.is_byte_at(b'#', start) {
            start = self.skip_blank_block(self.skip_comment(start));
        }
        start
    }

    /// Where the next entry is from a place on, if it is a message to which no comment is attached and whose
    /// patterns are each one text on its line. `None` where another comes next, or none.
    pub(crate) fn next_text_message(&self, options: Options, ptr: usize) -> Option<Span>
        requires { ptr ≤ length self.now.bytes.now }
        ensures next { let t = self.now.bytes.now in IfSome result (λ span. (e : EntryTree Span)
            × EntryAt options.comments options.edition t ptr span.start span.end e []) }
        ensures within { IfSome result (λ span. span.end ≤ length self.now.bytes.now) }
        ensures blank { let t = self.now.bytes.now in BlankBlock t ptr (length t) → result ≡ None }
        ensures nests { IfSome result (λ span. ComesNext (DeeperFrom options self.now.bytes.now) ptr (Some span)) }
    {
        let start = self.tile_start(options.comments, ptr);
        if !self.is_letter_at(start) {
            return None;
        }
        let end = self.text_message_end(options.edition, start)?;
        Some(Span { start, end })
    }
}

impl<'s, 't, M: MakeTexts> Reader<'s, 't, M> {
    /// Reads the next entry from a place on and adds it, with its error where it is junk; says where it is. `None`
    /// where none is left.
    pub(crate) fn add_next(
        &self,
        body: &mut Vec<Entry<M::Text>>,
        errors: &mut Vec<ParserError>,
        comments: Comments,
        nesting: usize,
        ptr: usize,
    ) -> Result<Option<Span>, Halt>
        requires { ptr ≤ length self.now.source.bytes.now }
        ensures next { let t = self.now.source.bytes.now in IfOk result
            (AddsNext (M.source self.now.texts.now) M.made comments self.now.edition t ptr body.old.items
            body.new.items errors.old.items errors.new.items) }
        ensures blank { let t = self.now.source.bytes.now in BlankBlock t ptr (length t) → result ≡ Ok None }
        ensures within { let t = self.now.source.bytes.now in
            IfOk result (λ found. IfSome found (λ span. span.end ≤ length t)) }
        ensures nests { IfErr result (HaltsWithin nesting (length self.now.source.bytes.now - ptr)) }
        ensures deeper { let t = self.now.source.bytes.now in let at = TileIn comments self.now.edition t in
            IfErr result (OnHalt (TextDeeper self.now.edition t at nesting ptr)) }
        ensures shallow { let t = self.now.source.bytes.now in let at = TileIn comments self.now.edition t in
            let deeper = TextDeeper self.now.edition t at nesting in
            IfOk result (ComesNext deeper ptr) }
    {
        let start = self.source.tile_start(comments, ptr);
        if start == self.source.bytes.len() {
            return Ok(None);
        }
        let end = self.add_tile(body, errors, nesting, start)?;
        if !ends_with_comment(body) {
            return Ok(Some(Span { start, end }));
        }
        let end = self.attach_comment(body, nesting, end)?;
        Ok(Some(Span { start, end }))
    }
}
