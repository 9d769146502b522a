//! Why a reader gives up.
//!
//! Each is a small value that copies, since what nests passes it on: what an error says of the text is kept as a place
//! of it, and its texts are made once, where the error is reported.
ghost use Rattle.std.specs.Prelude.{◌≡◌, ◌≢◌, [], Ok, Err};
ghost use Rattle.fluent_syntax_parser.specs.declared.fault.ParseFault.TheVariants.{Syntax};

use fluent_syntax_tree::ast::{Entry, Resource};
use fluent_syntax_tree::errors::ParserError;
use std::alloc::{AllocError, AllocFailed};
use thiserror::Error;

/// What was wanted, or is wrong.
#[derive(Clone, Copy, Debug)]
pub(crate) enum Fault {
    Token(u8),
    Letter,
    Digit,
    /// A line end after an arrow.
    LineEnd,
    /// A pattern or an attribute of the message whose name begins at the first place.
    MessageField,
    /// A pattern of the term whose name begins at the first place, after its `-`.
    TermField,
    Callee,
    Value,
    NoDefault,
    SecondDefault,
    MessageAsSelector,
    MessageAttributeAsSelector,
    TermAsSelector,
    PlaceableAsSelector,
    TermAttribute,
    UnterminatedString,
    PositionalAfterNamed,
    /// A name that was used, and begins at the first place.
    Duplicated,
    /// A backslash before that byte.
    UnknownEscape(u8),
    /// Too few digits, which begin at the first place.
    UnicodeEscape,
    UnbalancedBrace,
    InlineExpression,
    Literal,
}

/// The source is not what the grammar wants, at a place.
#[derive(Clone, Copy, Debug)]
pub(crate) struct Refusal {
    pub(crate) fault: Fault,
    /// Where that begins which the fault is about, or the place.
    pub(crate) from: usize,
    pub(crate) place: usize,
}

/// Why a reader gives up that nests or takes memory.
#[derive(Clone, Copy, Debug)]
pub(crate) enum ReadFault {
    /// As a refusal, whose fields take less room here.
    Refused {
        fault: Fault,
        from: usize,
        place: usize,
    },
    /// It nests more deeply than was allowed.
    TooDeep,
    /// A growth was refused.
    Memory,
}

impl From<Refusal> for ReadFault {
    ghost use Rattle.fluent_syntax_parser.specs.declared.fault.ReadFault.TheVariants.{Refused};
    ghost use Rattle.std.specs.Prelude.{◌≡◌};

    ghost from_gives = { λ refusal fault. fault ≡ Refused refusal.fault refusal.from refusal.place };

    fn from(refusal: Refusal) -> Self {
        let Refusal { fault, from, place } = refusal;
        ReadFault::Refused { fault, from, place }
    }
}

impl From<AllocError> for ReadFault {
    ghost use Rattle.fluent_syntax_parser.specs.declared.fault.ReadFault.TheVariants.{Memory};
    ghost use Rattle.std.specs.Prelude.{◌≡◌};

    ghost from_gives = { λ _ fault. fault ≡ Memory };

    fn from(_error: AllocError) -> Self {
        ReadFault::Memory
    }
}

impl<T: Drop> From<AllocFailed<T>> for ReadFault {
    ghost use Rattle.fluent_syntax_parser.specs.declared.fault.ReadFault.TheVariants.{Memory};
    ghost use Rattle.std.specs.Prelude.{◌≡◌};

    ghost from_gives = { λ _ fault. fault ≡ Memory };

    fn from(_error: AllocFailed<T>) -> Self {
        ReadFault::Memory
    }
}

/// Why no tree without errors came of parsing.
#[derive(PartialEq, Debug, Drop)]
pub enum ParseFault<S> {
    /// Parts of the source were refused: the tree, which has them as junk, and an error for each.
    Syntax(Resource<S>, Vec<ParserError>),
    /// A growth was refused.
    Memory,
}

/// The text nests more deeply than was allowed.
#[derive(Clone, Copy, PartialEq, Eq, Debug, Drop, Error)]
#[error("the text nests too deeply")]
pub struct TooDeep;

/// What parsing answers for the entries and the errors that were read of a text.
pub fn answer_of<S>(
    body: Vec<Entry<S>>,
    errors: Vec<ParserError>,
) -> Result<Resource<S>, ParseFault<S>>
    ensures clean { errors.items ≡ [] → result ≡ Ok (record { body = body }) }
    ensures syntax { errors.items ≢ [] → result ≡ Err (Syntax (record { body = body }) errors) }
{
    let resource = Resource { body };
    if errors.is_empty() {
        Ok(resource)
    } else {
        Err(ParseFault::Syntax(resource, errors))
    }
}
