//! The errors that are reported, with their texts.
ghost use Rattle.std.specs.Prelude.{◌≡◌, ◌+◌, ◌^◌, ◌<◌, IfOk, Some, string_bytes};
ghost use Rattle.fluent_syntax_grammar.specs.Strings.{after_character};
ghost use Rattle.fluent_syntax_tree.specs.Kind.{kind_of};
ghost use Rattle.fluent_syntax_parser.specs.Faults.{fault_of, refused_as};
ghost use Rattle.fluent_syntax_parser.specs.Outcomes.{from_of, kind_at, to_of};

use crate::fault::{Fault, Refusal};
use crate::source::Source;
use fluent_syntax_tree::errors::{ErrorKind, ParserError};
use fluent_syntax_tree::spans::Span;
use std::alloc::{AllocError, Global};
use std::ops::Range;

impl Refusal {
    /// The place of the error: one byte, but where a message or a term lacks its field.
    pub(crate) fn pos(&self) -> Range<usize>
        requires { self.now.place + 1 < 2 ^ 64 }
        ensures start { result.start ≡ from_of self.now.fault self.now.from self.now.place }
        ensures end { result.end ≡ to_of self.now.fault self.now.place }
    {
        match self.fault {
            Fault::MessageField => self.from..self.place,
            Fault::TermField => self.from.saturating_sub(1)..self.place,
            _ => self.place..self.place + 1,
        }
    }
}

/// The text of these bytes, which are UTF-8.
fn text_of(alloc: Global, bytes: &[u8]) -> Result<String, AllocError>
    ensures { IfOk result (λ text. string_bytes text ≡ bytes.now) }
{
    match str::from_utf8(bytes) {
        Ok(text) => String::from_str(alloc, text),
        Err(_) => Err(AllocError),
    }
}

impl<'s> Source<'s> {
    /// The place after the character at a place, or that place at the text's end.
    fn character_end(&self, place: usize) -> usize
        ensures { result ≡ after_character self.now.bytes.now place }
    {
        if place >= self.bytes.len() {
            return place;
        }
        match self.bytes[place] {
            0..=191 => place + 1,
            192..=223 => place + 2,
            224..=239 => place + 3,
            _ => place + 4,
        }
    }

    /// What was wanted, or is wrong, where a reader gave up.
    pub(crate) fn error_kind(
        &self,
        alloc: Global,
        refusal: Refusal,
    ) -> Result<ErrorKind, AllocError>
        ensures { IfOk result
            (λ kind. kind_of kind ≡ kind_at self.now.bytes.now refusal.fault refusal.from refusal.place) }
    {
        Ok(match refusal.fault {
            Fault::Token(byte) => ErrorKind::ExpectedToken(byte as char),
            Fault::Letter => ErrorKind::ExpectedCharRange {
                range: String::from_str(alloc, "a-zA-Z")?,
            },
            Fault::Digit => ErrorKind::ExpectedCharRange {
                range: String::from_str(alloc, "0-9")?,
            },
            Fault::LineEnd => ErrorKind::ExpectedCharRange {
                range: String::from_str(alloc, "\n | \r\n")?,
            },
            Fault::MessageField => ErrorKind::ExpectedMessageField {
                entry_id: text_of(alloc, self.name_text(refusal.from))?,
            },
            Fault::TermField => ErrorKind::ExpectedTermField {
                entry_id: text_of(alloc, self.name_text(refusal.from))?,
            },
            Fault::Callee => ErrorKind::ForbiddenCallee,
            Fault::Value => ErrorKind::MissingValue,
            Fault::NoDefault => ErrorKind::MissingDefaultVariant,
            Fault::SecondDefault => ErrorKind::MultipleDefaultVariants,
            Fault::MessageAsSelector => ErrorKind::MessageReferenceAsSelector,
            Fault::MessageAttributeAsSelector => ErrorKind::MessageAttributeAsSelector,
            Fault::TermAsSelector => ErrorKind::TermReferenceAsSelector,
            Fault::PlaceableAsSelector => ErrorKind::ExpectedSimpleExpressionAsSelector,
            Fault::TermAttribute => ErrorKind::TermAttributeAsPlaceable,
            Fault::UnterminatedString => ErrorKind::UnterminatedStringLiteral,
            Fault::PositionalAfterNamed => ErrorKind::PositionalArgumentFollowsNamed,
            Fault::Duplicated => {
                ErrorKind::DuplicatedNamedArgument(text_of(alloc, self.name_text(refusal.from))?)
            }
            Fault::UnknownEscape(byte) => ErrorKind::UnknownEscapeSequence(byte.to_string(alloc)?),
            Fault::UnicodeEscape => {
                let start = refusal.from;
                let end = self.character_end(refusal.place);
                let digits = text_of(alloc, self.bytes_of(Span { start, end }))?;
                ErrorKind::InvalidUnicodeEscapeSequence(digits)
            }
            Fault::UnbalancedBrace => ErrorKind::UnbalancedClosingBrace,
            Fault::InlineExpression => ErrorKind::ExpectedInlineExpression,
            Fault::Literal => ErrorKind::ExpectedLiteral,
        })
    }

    /// The error of a refusal, whose junk is that part of the text.
    #[inline(never)]
    pub(crate) fn error_of(
        &self,
        alloc: Global,
        refusal: Refusal,
        junk: Span,
    ) -> Result<ParserError, AllocError>
        requires { refusal.place + 1 < 2 ^ 64 }
        ensures { IfOk result (λ error. fault_of error ≡ Some (refused_as self.now.bytes.now refusal junk)) }
    {
        Ok(ParserError {
            pos: refusal.pos(),
            slice: Some(junk.start..junk.end),
            kind: self.error_kind(alloc, refusal)?,
        })
    }
}
