//! The kinds of errors: their names, the texts that are shown of them, and their copies.

use crate::alike::{assert_holds, assert_same_text};
use fluent_syntax::parser::{ErrorKind, ParserError};
use std::alloc::Global;
use std::test::Fail;

/// The name of a kind, and the text of it with the payload `k`.
type Row = (&'static str, &'static str);

const KINDS: &[Row] = table! {
    "ExpectedToken", "Expected a token starting with \"k\"";
    "ExpectedCharRange", "Expected one of \"k\"";
    "ExpectedMessageField", "Expected a message field for \"k\"";
    "ExpectedTermField", "Expected a term field for \"k\"";
    "ForbiddenCallee", "Callee is not allowed here";
    "MissingDefaultVariant", "The select expression must have a default variant";
    "MissingValue", "Expected a value";
    "MultipleDefaultVariants", "A select expression can only have one default variant";
    "MessageReferenceAsSelector", "Message references can't be used as a selector";
    "TermReferenceAsSelector", "Term references can't be used as a selector";
    "MessageAttributeAsSelector", "Message attributes can't be used as a selector";
    "TermAttributeAsPlaceable", "Term attributes can't be used as a selector";
    "UnterminatedStringLiteral", "Unterminated string literal";
    "PositionalArgumentFollowsNamed", "Positional arguments must come before named arguments";
    "DuplicatedNamedArgument", "The \"k\" argument appears twice";
    "UnknownEscapeSequence", "Unknown escape sequence";
    "InvalidUnicodeEscapeSequence", "Invalid unicode escape sequence, \"k\"";
    "UnbalancedClosingBrace", "Unbalanced closing brace";
    "ExpectedInlineExpression", "Expected an inline expression";
    "ExpectedSimpleExpressionAsSelector", "Expected a simple expression as selector";
    "ExpectedLiteral", "Expected a string or number literal";
};

/// The kind of a name, with the payload `k`.
fn kind(alloc: Global, name: &str) -> Result<ErrorKind, Fail> {
    let payload = String::from_str(alloc, "k")?;
    Ok(match name {
        "ExpectedToken" => ErrorKind::ExpectedToken('k'),
        "ExpectedCharRange" => ErrorKind::ExpectedCharRange { range: payload },
        "ExpectedMessageField" => ErrorKind::ExpectedMessageField { entry_id: payload },
        "ExpectedTermField" => ErrorKind::ExpectedTermField { entry_id: payload },
        "ForbiddenCallee" => ErrorKind::ForbiddenCallee,
        "MissingDefaultVariant" => ErrorKind::MissingDefaultVariant,
        "MissingValue" => ErrorKind::MissingValue,
        "MultipleDefaultVariants" => ErrorKind::MultipleDefaultVariants,
        "MessageReferenceAsSelector" => ErrorKind::MessageReferenceAsSelector,
        "TermReferenceAsSelector" => ErrorKind::TermReferenceAsSelector,
        "MessageAttributeAsSelector" => ErrorKind::MessageAttributeAsSelector,
        "TermAttributeAsPlaceable" => ErrorKind::TermAttributeAsPlaceable,
        "UnterminatedStringLiteral" => ErrorKind::UnterminatedStringLiteral,
        "PositionalArgumentFollowsNamed" => ErrorKind::PositionalArgumentFollowsNamed,
        "DuplicatedNamedArgument" => ErrorKind::DuplicatedNamedArgument(payload),
        "UnknownEscapeSequence" => ErrorKind::UnknownEscapeSequence(payload),
        "InvalidUnicodeEscapeSequence" => ErrorKind::InvalidUnicodeEscapeSequence(payload),
        "UnbalancedClosingBrace" => ErrorKind::UnbalancedClosingBrace,
        "ExpectedInlineExpression" => ErrorKind::ExpectedInlineExpression,
        "ExpectedSimpleExpressionAsSelector" => ErrorKind::ExpectedSimpleExpressionAsSelector,
        "ExpectedLiteral" => ErrorKind::ExpectedLiteral,
        _ => return Err("no kind of that name".into()),
    })
}

/// Whether the copy of the kind is equal to it.
fn is_copied(alloc: Global, kind: &ErrorKind) -> Result<bool, Fail> {
    Ok(kind.try_clone(alloc)? == *kind)
}

/// Whether the copy of the error is equal to it.
fn is_error_copied(alloc: Global, error: &ParserError) -> Result<bool, Fail> {
    Ok(error.try_clone(alloc)? == *error)
}

fn assert_kind(alloc: Global, name: &str, shown: &str) -> Result<(), Fail> {
    let kind = kind(alloc, name)?;
    assert_same_text(alloc, name, kind.name(), name)?;
    assert_same_text(alloc, name, format!(in alloc; "{kind}")?.as_str(), shown)?;
    assert_holds(alloc, name, is_copied(alloc, &kind)?)
}

fn assert_error(alloc: Global, name: &str, shown: &str) -> Result<(), Fail> {
    let error = ParserError {
        pos: 1..2,
        slice: Some(0..3),
        kind: kind(alloc, name)?,
    };
    assert_same_text(alloc, name, format!(in alloc; "{error}")?.as_str(), shown)?;
    assert_holds(alloc, name, is_error_copied(alloc, &error)?)
}

#[test]
fn names_shown_texts_and_copies(rt: HostRuntime) -> Result<(), Fail> {
    for (name, shown) in KINDS {
        assert_kind(rt.alloc(), *name, *shown)?;
        assert_error(rt.alloc(), *name, *shown)?;
    }
    Ok(())
}
