//! Numbers of the kinds of errors.
ghost use Rattle.std.specs.Prelude.{◌≡◌, IfNone, IfSome};
ghost use Rattle.fluent_syntax_tree.specs.Kind.{kind_of};
ghost use Rattle.fluent_syntax_c.specs.Kinds.{IsNoKind, kind_number};

use fluent_syntax::parser::ErrorKind;
use std::alloc::Global;

/// The number of a kind: `enum ftl_error_kind` of `include/fluent.h`.
pub(crate) fn kind_number(kind: &ErrorKind) -> u32
    ensures { result ≡ kind_number (kind_of kind.now) }
{
    match kind {
        ErrorKind::ExpectedToken(_) => 1,
        ErrorKind::ExpectedCharRange { .. } => 2,
        ErrorKind::ExpectedMessageField { .. } => 3,
        ErrorKind::ExpectedTermField { .. } => 4,
        ErrorKind::ForbiddenCallee => 5,
        ErrorKind::MissingDefaultVariant => 6,
        ErrorKind::MissingValue => 7,
        ErrorKind::MultipleDefaultVariants => 8,
        ErrorKind::MessageReferenceAsSelector => 9,
        ErrorKind::TermReferenceAsSelector => 10,
        ErrorKind::MessageAttributeAsSelector => 11,
        ErrorKind::TermAttributeAsPlaceable => 12,
        ErrorKind::UnterminatedStringLiteral => 13,
        ErrorKind::PositionalArgumentFollowsNamed => 14,
        ErrorKind::DuplicatedNamedArgument(_) => 15,
        ErrorKind::UnknownEscapeSequence(_) => 16,
        ErrorKind::InvalidUnicodeEscapeSequence(_) => 17,
        ErrorKind::UnbalancedClosingBrace => 18,
        ErrorKind::ExpectedInlineExpression => 19,
        ErrorKind::ExpectedSimpleExpressionAsSelector => 20,
        ErrorKind::ExpectedLiteral => 21,
    }
}

/// The kind of the number, with an empty text where it has one.
pub(crate) fn kind_at(alloc: Global, number: u32) -> Option<ErrorKind>
    ensures some { IfSome result (λ kind. kind_number (kind_of kind) ≡ number) }
    ensures none { IfNone result (IsNoKind number) }
{
    let kind = match number {
        1 => ErrorKind::ExpectedToken(' '),
        2 => ErrorKind::ExpectedCharRange {
            range: String::new(alloc),
        },
        3 => ErrorKind::ExpectedMessageField {
            entry_id: String::new(alloc),
        },
        4 => ErrorKind::ExpectedTermField {
            entry_id: String::new(alloc),
        },
        5 => ErrorKind::ForbiddenCallee,
        6 => ErrorKind::MissingDefaultVariant,
        7 => ErrorKind::MissingValue,
        8 => ErrorKind::MultipleDefaultVariants,
        9 => ErrorKind::MessageReferenceAsSelector,
        10 => ErrorKind::TermReferenceAsSelector,
        11 => ErrorKind::MessageAttributeAsSelector,
        12 => ErrorKind::TermAttributeAsPlaceable,
        13 => ErrorKind::UnterminatedStringLiteral,
        14 => ErrorKind::PositionalArgumentFollowsNamed,
        15 => ErrorKind::DuplicatedNamedArgument(String::new(alloc)),
        16 => ErrorKind::UnknownEscapeSequence(String::new(alloc)),
        17 => ErrorKind::InvalidUnicodeEscapeSequence(String::new(alloc)),
        18 => ErrorKind::UnbalancedClosingBrace,
        19 => ErrorKind::ExpectedInlineExpression,
        20 => ErrorKind::ExpectedSimpleExpressionAsSelector,
        21 => ErrorKind::ExpectedLiteral,
        _ => return None,
    };
    Some(kind)
}
