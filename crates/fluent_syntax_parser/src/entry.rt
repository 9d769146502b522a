//! Entries, by their first bytes.
ghost use Rattle.std.specs.Prelude.{◌<◌, ◌≤◌, length, IfOk};
ghost use Rattle.fluent_syntax_tree.specs.Entry.{entry_map};
ghost use Rattle.fluent_syntax_tree.specs.View.{entry_view};
ghost use Rattle.fluent_syntax_grammar.specs.Grammar.{within};
ghost use Rattle.fluent_syntax_grammar.specs.Tiling.{entry_in};
ghost use Rattle.fluent_syntax_parser.specs.Made.{AddsParsed};

pub(crate) mod attributes;
pub(crate) mod comment;
pub(crate) mod messages;
pub(crate) mod text_messages;

use crate::fault::ReadFault;
use crate::reader::Reader;
use crate::texts::MakeTexts;
use fluent_syntax_tree::ast::Entry;

impl<'s, 't, M: MakeTexts> Reader<'s, 't, M> {
    /// Reads an entry, and adds it: the first byte decides which.
    #[inline(always)]
    pub(crate) fn add_entry(
        &self,
        body: &mut Vec<Entry<M::Text>>,
        nesting: usize,
        start: usize,
    ) -> Result<usize, ReadFault>
        requires { start ≤ length self.now.source.bytes.now }
        ensures adds { let t = self.now.source.bytes.now in
            AddsParsed t (entry_map (M.source self.now.texts.now))
            (entry_in self.now.edition t (within self.now.edition t nesting)) (entry_view M.made) body.old.items
            body.new.items start result }
        ensures within { IfOk result (λ end. (start < end) × (end ≤ length self.now.source.bytes.now)) }
    {
        if self.source.is_byte_at(b'#', start) {
            self.add_comment(body, start)
        } else if self.source.is_byte_at(b'-', start) {
            self.add_term(body, nesting, start)
        } else {
            self.add_message(body, nesting, start)
        }
    }
}
