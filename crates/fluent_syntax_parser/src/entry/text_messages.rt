//! Messages whose patterns are each one text on its line, as most are: they are passed over without a tree.
ghost use Rattle.std.specs.Prelude.{◌<◌, ◌≤◌, length, IfSome};
ghost use Rattle.fluent_syntax_parser.specs.AnyDepth.{AttributesAtAnyDepth, MessageAtAnyDepth, OpensPattern};

use crate::source::Source;
use fluent_syntax_tree::edition::Edition;

impl<'s> Source<'s> {
    /// Where a pattern opens after a name, an inline blank, `=` and an inline blank. `None` where these are not there.
    fn pattern_start(&self, start: usize) -> Option<usize>
        requires { start ≤ length self.now.bytes.now }
        ensures opens { IfSome result (OpensPattern self.now.bytes.now start) }
        ensures within { IfSome result (λ opening. (start < opening) × (opening ≤ length self.now.bytes.now)) }
    {
        let Ok(end) = self.identifier_end(start) else {
            return None;
        };
        let equals = self.skip_blank_inline(end);
        let Ok(after_equals) = self.expect_byte(b'=', equals) else {
            return None;
        };
        Some(self.skip_blank_inline(after_equals))
    }

    /// Where a list of attributes ends, of which the pattern of each is one text on its line. `None` where one is not.
    fn text_attributes_end(&self, edition: Edition, ptr: usize) -> Option<usize>
        requires { ptr ≤ length self.now.bytes.now }
        ensures attributes { IfSome result (AttributesAtAnyDepth edition self.now.bytes.now ptr) }
        ensures within { IfSome result (λ end. (ptr ≤ end) × (end ≤ length self.now.bytes.now)) }
    {
        let mut place = ptr;
        loop {
            let dot = self.skip_blank_inline(place);
            let Ok(start) = self.expect_byte(b'.', dot) else {
                return Some(place);
            };
            let opening = self.pattern_start(start)?;
            let (text, end) = self.one_line_text(edition, opening)?;
            let Some(_text) = text else {
                return None;
            };
            place = end;
        }
    }

    /// Where a message ends whose patterns, of value and attributes, are each one text on its line. `None` where
    /// there is none.
    pub(crate) fn text_message_end(&self, edition: Edition, start: usize) -> Option<usize>
        requires { start ≤ length self.now.bytes.now }
        ensures message { IfSome result (MessageAtAnyDepth edition self.now.bytes.now start) }
        ensures within { IfSome result (λ end. (start < end) × (end ≤ length self.now.bytes.now)) }
    {
        let opening = self.pattern_start(start)?;
        let (text, line) = self.one_line_text(edition, opening)?;
        let end = self.text_attributes_end(edition, line)?;
        match text {
            Some(_) => Some(end),
            None => if end > line { Some(end) } else { None },
        }
    }
}
