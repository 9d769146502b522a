//! What to do about an error, in a sentence for people.

use fluent_syntax::parser::ErrorKind;

const SELECTOR: &str =
    "select by a variable, a number, a string, a function or the attribute of a term";

/// A sentence on what the grammar wants where it refused a text, to be shown next to the error's own text.
pub fn advice(kind: &ErrorKind) -> &'static str {
    match kind {
        ErrorKind::ExpectedToken(token) => token_advice(*token),
        ErrorKind::ExpectedCharRange { range } => range_advice(range.as_str()),
        ErrorKind::ExpectedMessageField { .. } => {
            "a message needs a value after its `=`, or an attribute on an indented line below it"
        }
        ErrorKind::ExpectedTermField { .. } => "a term needs a value after its `=`",
        ErrorKind::ForbiddenCallee => {
            "the name of a function has only the letters A to Z, digits, `_` and `-`"
        }
        ErrorKind::MissingDefaultVariant => {
            "one variant needs a `*`, as in `*[other]`: it is shown where no other key matches"
        }
        ErrorKind::MissingValue => "a variant needs a text after its key",
        ErrorKind::MultipleDefaultVariants => "only one variant has a `*`",
        ErrorKind::MessageReferenceAsSelector => SELECTOR,
        ErrorKind::TermReferenceAsSelector => SELECTOR,
        ErrorKind::MessageAttributeAsSelector => SELECTOR,
        ErrorKind::ExpectedSimpleExpressionAsSelector => SELECTOR,
        ErrorKind::TermAttributeAsPlaceable => {
            "the attribute of a term is never shown: it chooses a variant, before `->`"
        }
        ErrorKind::UnterminatedStringLiteral => {
            "a string ends with `\"` on the line on which it begins"
        }
        ErrorKind::PositionalArgumentFollowsNamed => {
            "arguments without a name come before those with one"
        }
        ErrorKind::DuplicatedNamedArgument(_) => "an argument of one name is given once",
        ErrorKind::UnknownEscapeSequence(_) => {
            "in a string, a backslash comes only before `\\`, `\"`, `{`, `u` and `U`"
        }
        ErrorKind::InvalidUnicodeEscapeSequence(_) => {
            "`\\u` needs four hexadecimal digits, and `\\U` six"
        }
        ErrorKind::UnbalancedClosingBrace => "a `}` to be shown is written as `{ \"}\" }`",
        ErrorKind::ExpectedInlineExpression => {
            "here comes a string, a number, a `$variable`, a message, a `-term` or a `FUNCTION()`"
        }
        ErrorKind::ExpectedLiteral => "the value of a named argument is a string or a number",
    }
}

fn token_advice(token: char) -> &'static str {
    match token {
        '=' => "the name of a message, a term or an attribute is followed by `=`",
        ' ' => "the text of a comment comes after its `#` and a space",
        '}' => "a placeable ends with `}`, unless a `->` follows its selector",
        ')' => "an argument is followed by `,` or by the `)` that ends the call",
        ']' => "the key of a variant is one name or number, and ends with `]`",
        '"' => "a string ends with `\"`",
        _ => "something else was expected here",
    }
}

fn range_advice(range: &str) -> &'static str {
    match range {
        "a-zA-Z" => "a name begins with one of the letters A to Z and a to z",
        "0-9" => "a number has a digit after its `-` or `.`",
        _ => "the first variant of a select begins on a new line after `->`",
    }
}
