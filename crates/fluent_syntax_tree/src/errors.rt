//! Errors of the parser.
ghost use Rattle.std.specs.Prelude.{◌≡◌, IfOk, codes, string_bytes};
ghost use Rattle.fluent_syntax_tree.specs.Kind.{kind_name, kind_of};

use std::alloc::{AllocError, Global};
use std::ops::Range;
use thiserror::Error;

/// What the grammar wanted where a stretch was refused. Its `Display` text says so in a sentence.
#[derive(Debug, Drop, Error, Eq, PartialEq)]
pub enum ErrorKind {
    /// There is another character in the place of this one, or the text ends there.
    #[error("Expected a token starting with \"{0}\"")]
    ExpectedToken(char),
    /// None of these characters is there: `a-zA-Z` for a name, `0-9` for a number, and the line ends LF and CRLF,
    /// themselves and with ` | ` between them, after `->`.
    #[error("Expected one of \"{range}\"")]
    ExpectedCharRange { range: String },
    /// The message of this name has no value and no attribute.
    #[error("Expected a message field for \"{entry_id}\"")]
    ExpectedMessageField { entry_id: String },
    /// The term of this name has no value.
    #[error("Expected a term field for \"{entry_id}\"")]
    ExpectedTermField { entry_id: String },
    /// A function's name holds another character than `A` to `Z`, digits, `_` and `-`.
    #[error("Callee is not allowed here")]
    ForbiddenCallee,
    /// No variant of a select has a `*`.
    #[error("The select expression must have a default variant")]
    MissingDefaultVariant,
    /// A variant has no value.
    #[error("Expected a value")]
    MissingValue,
    /// A second variant of a select has a `*`.
    #[error("A select expression can only have one default variant")]
    MultipleDefaultVariants,
    /// The selector of a select is a message.
    #[error("Message references can't be used as a selector")]
    MessageReferenceAsSelector,
    /// The selector of a select is a term without attribute.
    #[error("Term references can't be used as a selector")]
    TermReferenceAsSelector,
    /// The selector of a select is a message's attribute.
    #[error("Message attributes can't be used as a selector")]
    MessageAttributeAsSelector,
    /// A term's attribute is in braces and is no selector.
    #[error("Term attributes can't be used as a selector")]
    TermAttributeAsPlaceable,
    /// A line ends within a string.
    #[error("Unterminated string literal")]
    UnterminatedStringLiteral,
    /// An argument without a name follows one with a name.
    #[error("Positional arguments must come before named arguments")]
    PositionalArgumentFollowsNamed,
    /// Two arguments of one list have this name.
    #[error("The \"{0}\" argument appears twice")]
    DuplicatedNamedArgument(String),
    /// In a string, another byte than `\`, `"`, `{`, `u` and `U` follows a backslash: its decimal number, or `32` where
    /// the text ends.
    #[error("Unknown escape sequence")]
    UnknownEscapeSequence(String),
    /// An escape has too few hexadecimal digits: those read, and the character after them.
    #[error("Invalid unicode escape sequence, \"{0}\"")]
    InvalidUnicodeEscapeSequence(String),
    /// A text has a `}`.
    #[error("Unbalanced closing brace")]
    UnbalancedClosingBrace,
    /// No inline expression begins there.
    #[error("Expected an inline expression")]
    ExpectedInlineExpression,
    /// The selector of a select is a placeable.
    #[error("Expected a simple expression as selector")]
    ExpectedSimpleExpressionAsSelector,
    /// The value of a named argument is no string, number without `-`, function or message.
    #[error("Expected a string or number literal")]
    ExpectedLiteral,
}

/// An error of the parser: a stretch of the source was refused.
#[derive(Debug, Drop, Error, Eq, PartialEq)]
#[error("{}", self.kind)]
pub struct ParserError {
    /// The place, in bytes from the source's start. `line_column` has it in lines and columns.
    pub pos: Range<usize>,
    /// The stretch that became junk, in bytes. Every error that parsing answers has it.
    pub slice: Option<Range<usize>>,
    /// What the grammar wanted.
    pub kind: ErrorKind,
}

impl ErrorKind {
    /// The name of the variant, as `ExpectedToken`.
    pub fn name(&self) -> &'static str
        ensures { result.now ≡ kind_name (kind_of self.now) }
    {
        match self {
            ErrorKind::ExpectedToken(_) => "ExpectedToken",
            ErrorKind::ExpectedCharRange { .. } => "ExpectedCharRange",
            ErrorKind::ExpectedMessageField { .. } => "ExpectedMessageField",
            ErrorKind::ExpectedTermField { .. } => "ExpectedTermField",
            ErrorKind::ForbiddenCallee => "ForbiddenCallee",
            ErrorKind::MissingDefaultVariant => "MissingDefaultVariant",
            ErrorKind::MissingValue => "MissingValue",
            ErrorKind::MultipleDefaultVariants => "MultipleDefaultVariants",
            ErrorKind::MessageReferenceAsSelector => "MessageReferenceAsSelector",
            ErrorKind::TermReferenceAsSelector => "TermReferenceAsSelector",
            ErrorKind::MessageAttributeAsSelector => "MessageAttributeAsSelector",
            ErrorKind::TermAttributeAsPlaceable => "TermAttributeAsPlaceable",
            ErrorKind::UnterminatedStringLiteral => "UnterminatedStringLiteral",
            ErrorKind::PositionalArgumentFollowsNamed => "PositionalArgumentFollowsNamed",
            ErrorKind::DuplicatedNamedArgument(_) => "DuplicatedNamedArgument",
            ErrorKind::UnknownEscapeSequence(_) => "UnknownEscapeSequence",
            ErrorKind::InvalidUnicodeEscapeSequence(_) => "InvalidUnicodeEscapeSequence",
            ErrorKind::UnbalancedClosingBrace => "UnbalancedClosingBrace",
            ErrorKind::ExpectedInlineExpression => "ExpectedInlineExpression",
            ErrorKind::ExpectedSimpleExpressionAsSelector => "ExpectedSimpleExpressionAsSelector",
            ErrorKind::ExpectedLiteral => "ExpectedLiteral",
        }
    }

    /// A copy with texts of its own; `AllocError` where a growth was refused.
    pub fn try_clone(&self, _alloc: Global) -> Result<ErrorKind, AllocError>
        ensures { IfOk result (λ copy. kind_of copy ≡ kind_of self.now) }
    {
        match self {
            ErrorKind::ExpectedToken(token) => Ok(ErrorKind::ExpectedToken(*token)),
            ErrorKind::ExpectedCharRange { range } => Ok(ErrorKind::ExpectedCharRange {
                range: range.clone()?,
            }),
            ErrorKind::ExpectedMessageField { entry_id } => Ok(ErrorKind::ExpectedMessageField {
                entry_id: entry_id.clone()?,
            }),
            ErrorKind::ExpectedTermField { entry_id } => Ok(ErrorKind::ExpectedTermField {
                entry_id: entry_id.clone()?,
            }),
            ErrorKind::ForbiddenCallee => Ok(ErrorKind::ForbiddenCallee),
            ErrorKind::MissingDefaultVariant => Ok(ErrorKind::MissingDefaultVariant),
            ErrorKind::MissingValue => Ok(ErrorKind::MissingValue),
            ErrorKind::MultipleDefaultVariants => Ok(ErrorKind::MultipleDefaultVariants),
            ErrorKind::MessageReferenceAsSelector => Ok(ErrorKind::MessageReferenceAsSelector),
            ErrorKind::TermReferenceAsSelector => Ok(ErrorKind::TermReferenceAsSelector),
            ErrorKind::MessageAttributeAsSelector => Ok(ErrorKind::MessageAttributeAsSelector),
            ErrorKind::TermAttributeAsPlaceable => Ok(ErrorKind::TermAttributeAsPlaceable),
            ErrorKind::UnterminatedStringLiteral => Ok(ErrorKind::UnterminatedStringLiteral),
            ErrorKind::PositionalArgumentFollowsNamed => Ok(
                ErrorKind::PositionalArgumentFollowsNamed,
            ),
            ErrorKind::DuplicatedNamedArgument(text) => Ok(ErrorKind::DuplicatedNamedArgument(
                text.clone()?,
            )),
            ErrorKind::UnknownEscapeSequence(text) => Ok(ErrorKind::UnknownEscapeSequence(
                text.clone()?,
            )),
            ErrorKind::InvalidUnicodeEscapeSequence(text) => Ok(
                ErrorKind::InvalidUnicodeEscapeSequence(text.clone()?),
            ),
            ErrorKind::UnbalancedClosingBrace => Ok(ErrorKind::UnbalancedClosingBrace),
            ErrorKind::ExpectedInlineExpression => Ok(ErrorKind::ExpectedInlineExpression),
            ErrorKind::ExpectedSimpleExpressionAsSelector => Ok(
                ErrorKind::ExpectedSimpleExpressionAsSelector,
            ),
            ErrorKind::ExpectedLiteral => Ok(ErrorKind::ExpectedLiteral),
        }
    }
}

impl ParserError {
    /// A copy with texts of its own; `AllocError` where a growth was refused.
    pub fn try_clone(&self, alloc: Global) -> Result<ParserError, AllocError>
        ensures pos { IfOk result (λ copy. copy.pos ≡ self.now.pos) }
        ensures slice { IfOk result (λ copy. copy.slice ≡ self.now.slice) }
        ensures kind { IfOk result (λ copy. kind_of copy.kind ≡ kind_of self.now.kind) }
    {
        let slice = match &self.slice {
            None => None,
            Some(range) => Some(range.start..range.end),
        };
        Ok(ParserError {
            pos: self.pos.start..self.pos.end,
            slice,
            kind: self.kind.try_clone(alloc)?,
        })
    }
}
