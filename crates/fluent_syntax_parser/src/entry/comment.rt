//! Comments.
ghost use Rattle.std.specs.Prelude.{◌≡◌, ◌+◌, ◌++◌, ◌<◌, ◌≤◌, length, map, IfOk, OnOk};
ghost use Rattle.fluent_syntax_tree.specs.Entry.{comment, entry_map};
ghost use Rattle.fluent_syntax_tree.specs.View.{entry_view};
ghost use Rattle.fluent_syntax_grammar.specs.Comments.{comment_entry, comment_line, comment_of, hashes, level_of};
ghost use Rattle.fluent_syntax_parser.specs.CommentLines.{line_of};
ghost use Rattle.fluent_syntax_parser.specs.Made.{AddsParsed, Parses};
ghost use Rattle.fluent_syntax_parser.specs.Outcomes.{HasOutcome};

use crate::fault::{ReadFault, Refusal};
use crate::lists::add;
use crate::reader::Reader;
use crate::source::Source;
use crate::texts::MakeTexts;
use fluent_syntax_tree::ast::{Comment, Entry};
use fluent_syntax_tree::spans::Span;
use std::alloc::AllocError;

impl<'s> Source<'s> {
    /// The number of `#` at a place, at most 3.
    pub(crate) fn comment_level(&self, ptr: usize) -> usize
        requires { ptr ≤ length self.now.bytes.now }
        ensures level { result ≡ hashes self.now.bytes.now ptr }
        ensures within { ptr + result ≤ length self.now.bytes.now }
    {
        if !self.is_byte_at(b'#', ptr) {
            0
        } else if !self.is_byte_at(b'#', ptr + 1) {
            1
        } else if !self.is_byte_at(b'#', ptr + 2) {
            2
        } else {
            3
        }
    }

    /// Reads a comment line of that level: after its hashes a line end, or a space, a text and perhaps a line end.
    /// Hashes at the very end of the text add no line.
    fn get_comment_line(&self, level: usize, ptr: usize) -> Result<(Option<Span>, usize), Refusal>
        requires { ptr + level ≤ length self.now.bytes.now }
        ensures parses { HasOutcome self.now.bytes.now (comment_line self.now.bytes.now level) line_of ptr result }
        ensures within { IfOk result (λ read. (ptr + level ≤ read.1) × (read.1 ≤ length self.now.bytes.now)) }
    {
        let ptr = ptr + level;
        if ptr == self.bytes.len() {
            return Ok((None, ptr));
        }
        if self.is_eol_at(ptr) {
            let line = Span {
                start: ptr,
                end: ptr,
            };
            return Ok((Some(line), self.skip_eol(ptr)));
        }
        let start = self.expect_byte(b' ', ptr)?;
        let end = self.line_end(start);
        Ok((Some(Span { start, end }), self.skip_eol(end)))
    }
}

impl<'s, 't, M: MakeTexts> Reader<'s, 't, M> {
    /// Reads a comment, and adds it: the longest run of comment lines of one level, which is the number of their
    /// leading `#`.
    #[inline(never)]
    pub(crate) fn add_comment(
        &self,
        body: &mut Vec<Entry<M::Text>>,
        ptr: usize,
    ) -> Result<usize, ReadFault>
        requires within { ptr ≤ length self.now.source.bytes.now }
        requires hash { 0 < hashes self.now.source.bytes.now ptr }
        ensures adds { let t = self.now.source.bytes.now in
            AddsParsed t (entry_map (M.source self.now.texts.now)) (comment_entry t) (entry_view M.made) body.old.items
            body.new.items ptr result }
        ensures within { IfOk result (λ end. (ptr < end) × (end ≤ length self.now.source.bytes.now)) }
    {
        let level = self.source.comment_level(ptr);
        let (content, end) = self.get_comment_content(level, ptr)?;
        let comment = Comment { content };
        let entry = match level {
            1 => Entry::Comment(comment),
            2 => Entry::GroupComment(comment),
            _ => Entry::ResourceComment(comment),
        };
        add(body, entry)?;
        Ok(end)
    }

    /// Adds the text of a line, if there is one.
    fn add_line(&self, content: &mut Vec<M::Text>, line: Option<Span>) -> Result<(), AllocError>
        ensures { OnOk result (map M.made content.new.items
            ≡ map M.made content.old.items ++ map (M.source self.now.texts.now) (line_of line)) }
    {
        if let Some(line) = line {
            let text = self.text(line)?;
            add(content, text)?;
        }
        Ok(())
    }

    /// The lines of a comment of that level. A line that is none, or of another level, ends them.
    fn get_comment_content(
        &self,
        level: usize,
        ptr: usize,
    ) -> Result<(Vec<M::Text>, usize), ReadFault>
        requires hash { 0 < level }
        requires within { ptr + level ≤ length self.now.source.bytes.now }
        ensures parses { let t = self.now.source.bytes.now in
            Parses t (entry_map (M.source self.now.texts.now)) (comment_of t level)
            (λ lines. comment (level_of level) (map M.made lines.items)) ptr result }
        ensures within { IfOk result (λ read. (ptr < read.1) × (read.1 ≤ length self.now.source.bytes.now)) }
    {
        let (first, mut end) = self.source.get_comment_line(level, ptr)?;
        let mut content = Vec::new(self.alloc);
        self.add_line(&mut content, first)?;
        while self.source.comment_level(end) == level {
            match self.source.get_comment_line(level, end) {
                Ok((line, next)) => {
                    self.add_line(&mut content, line)?;
                    end = next;
                }
                Err(_) => return Ok((content, end)),
            }
        }
        Ok((content, end))
    }
}
