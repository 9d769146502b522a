//! The rules of canonical trees by name.

use thiserror::Error;

/// A rule of canonical trees, by what breaks it. Its `Display` text says so in a sentence.
///
/// A text *begins a line* where it is the first element of its pattern, or directly follows a text that ends in LF. A
/// pattern is *multiline* where a text of it holds an LF, or a placeable of it is of a select.
#[derive(Clone, Copy, Debug, Drop, Eq, Error, PartialEq)]
pub enum Rule {
    /// There is junk.
    #[error("the entry is junk")]
    Junk,
    /// A message has no value and no attribute.
    #[error("the message has neither a value nor an attribute")]
    EmptyMessage,
    /// A line of a comment holds an LF.
    #[error("a line of a comment holds an LF")]
    LfInComment,
    /// A pattern has no element.
    #[error("a pattern has no element")]
    EmptyPattern,
    /// A text of a pattern is empty.
    #[error("a text of a pattern is empty")]
    EmptyText,
    /// A text of a pattern holds `{` or `}`.
    #[error("a text of a pattern holds a brace")]
    BraceInText,
    /// A text of a pattern holds a CR directly before an LF.
    #[error("a text of a pattern holds a CR directly before an LF")]
    CrBeforeLf,
    /// A text of a pattern holds an LF that is not its last byte.
    #[error("a text of a pattern goes on after an LF")]
    LfWithinText,
    /// A text directly follows a text that does not end in LF.
    #[error("a text of a pattern directly follows one that does not end in LF")]
    TextAfterText,
    /// A first text holds nothing but spaces, apart from an ending LF. In edition two spaces alone may be first in a
    /// multiline pattern, if a placeable directly follows them.
    #[error("the first text of a pattern is blank")]
    BlankFirstText,
    /// A pattern that is not multiline begins with a space.
    #[error("a pattern on one line begins with a space")]
    LeadingSpace,
    /// A last text ends in a space, a CR or an LF.
    #[error("a pattern ends in a space, a CR or an LF")]
    BlankEnd,
    /// A text that begins a line after the first is spaces alone. In edition two it may be, if a placeable directly
    /// follows it.
    #[error("a line of a pattern begins with a text of spaces alone")]
    LineOfSpaces,
    /// A text that begins a line after the first begins, after spaces, with `.`, `[` or `*`.
    #[error("a line of a pattern begins with `.`, `[` or `*`, which would be read as an attribute or a variant")]
    MarkedLine,
    /// A selector is no string, number, variable, function, or term reference with attribute.
    #[error("a selector is no string, number, variable, function or attribute of a term")]
    ForbiddenSelector,
    /// A select has more than one default variant.
    #[error("a select expression has more than one default variant")]
    SecondDefault,
    /// A term reference with attribute is in braces and is no selector.
    #[error("an attribute of a term stands in braces and is no selector")]
    TermAttribute,
    /// A function's name holds another character than `A` to `Z`, digits, `_` and `-`.
    #[error("the name of a function holds another character than A to Z, digits, _ and -")]
    ForbiddenCallee,
    /// The value of a named argument is no string, number without `-`, function or message reference.
    #[error("the value of a named argument is no string, number without -, function or message")]
    ForbiddenArgument,
    /// Two named arguments of one list have one name.
    #[error("two arguments of one list have the same name")]
    RepeatedArgument,
    /// A string is not spelled as one.
    #[error("a string holds a line end, or a quote or backslash without an escape")]
    MisspelledString,
    /// A number is not spelled as one.
    #[error("a number is not digits, perhaps with - before them and a fraction after them")]
    MisspelledNumber,
    /// A name is not spelled as one.
    #[error("a name is not a letter and then letters, digits, - and _")]
    MisspelledName,
    /// A comment has no line.
    #[error("a comment has no line")]
    EmptyComment,
    /// A line of a comment is not empty, and holds nothing but spaces and CRs.
    #[error("a line of a comment holds nothing but spaces")]
    BlankCommentLine,
    /// In a multiline pattern the first text begins with spaces and then `.`, `[` or `*`.
    #[error("a pattern of several lines begins with spaces and then `.`, `[` or `*`")]
    HiddenMark,
    /// In a multiline pattern each line that counts for the common indent begins with spaces, which would be read as
    /// indent. In edition one the lines that begin with text count, in edition two also those that begin with a
    /// placeable.
    #[error("the lines of a pattern that begin with text begin with spaces, which would be read as its indent")]
    CommonIndent,
    /// In a multiline pattern no line counts for the indent, and a text that begins a line is more than one LF.
    #[error("no line of a pattern begins with text, and a blank line of it holds spaces")]
    SpacesOnBlankLine,
    /// A select has no default variant.
    #[error("a select expression has no default variant")]
    NoDefault,
}

/// So many of the first rules are those of readable trees.
pub(crate) const READABLE_RULES: usize = 23;

/// Each rule once, in the order in which a broken one is looked for: those of readable trees come first.
pub(crate) const RULES: [Rule; 29] = [
    Rule::Junk,
    Rule::EmptyMessage,
    Rule::LfInComment,
    Rule::EmptyPattern,
    Rule::EmptyText,
    Rule::BraceInText,
    Rule::CrBeforeLf,
    Rule::LfWithinText,
    Rule::TextAfterText,
    Rule::BlankFirstText,
    Rule::LeadingSpace,
    Rule::BlankEnd,
    Rule::LineOfSpaces,
    Rule::MarkedLine,
    Rule::ForbiddenSelector,
    Rule::SecondDefault,
    Rule::TermAttribute,
    Rule::ForbiddenCallee,
    Rule::ForbiddenArgument,
    Rule::RepeatedArgument,
    Rule::MisspelledString,
    Rule::MisspelledNumber,
    Rule::MisspelledName,
    Rule::EmptyComment,
    Rule::BlankCommentLine,
    Rule::HiddenMark,
    Rule::CommonIndent,
    Rule::SpacesOnBlankLine,
    Rule::NoDefault,
];
