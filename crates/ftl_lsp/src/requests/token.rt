//! What an editor can highlight: a stretch of the text, and what is there.

use fluent_syntax::spans::Span;

/// What a token is.
#[derive(Clone, Copy, Debug)]
pub enum TokenKind {
    /// A line of a comment, without its marks.
    Comment,
    /// The name of a message where it is defined: `hello = Hello`
    Message,
    /// The name of a term where it is defined: `-brand = Firefox`
    Term,
    /// The name of an attribute where it is defined: `.title = Hello`
    Attribute,
    /// The name of a message that is referred to: `{ hello }`
    MessageReference,
    /// The name of a term that is referred to: `{ -brand }`
    TermReference,
    /// The name of an attribute that is referred to: `{ hello.title }`
    AttributeReference,
    /// `$count`
    Variable,
    /// The name of a function: `NUMBER($count)`
    Function,
    /// The name of an argument: `style: "short"`
    ArgumentName,
    /// `"text"`
    StringLiteral,
    /// `-3.14`
    NumberLiteral,
    /// The key of a variant: `[one]`
    VariantKey,
}

/// A token of a text.
#[derive(Clone, Copy)]
pub struct Token {
    pub kind: TokenKind,
    /// The name, the number or the text, without the `-` of a term, the `$` of a variable and the quotes of a string.
    pub span: Span,
}

impl TokenKind {
    /// Whether an entry defines what has the name.
    pub fn defines(self) -> bool {
        matches!(
            self,
            TokenKind::Message | TokenKind::Term | TokenKind::Attribute
        )
    }
}

impl Token {
    /// Its range with the `-` of a term, the `$` of a variable or the quotes of a string.
    pub fn with_mark(self) -> Span {
        let Span { start, end } = self.span;
        match self.kind {
            TokenKind::Term | TokenKind::TermReference | TokenKind::Variable => Span {
                start: start.saturating_sub(1),
                end,
            },
            TokenKind::StringLiteral => Span {
                start: start.saturating_sub(1),
                end: end.saturating_add(1),
            },
            _ => self.span,
        }
    }
}
