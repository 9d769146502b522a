//! Nodes of the tree.
//!
//! `S` is how a node holds its texts: `&str` and `String` from `parser`, `Span` from `spans`. Each node has equality,
//! which is that of its texts, and `try_clone`, which takes the allocator.
ghost use Rattle.std.specs.Prelude.{◌≡◌, []};
ghost use Rattle.fluent_syntax_tree.specs.declared.ast.CallArguments.{out-CallArguments};

use std::alloc::Global;

/// What a text is read as: its entries in order.
///
///     # A comment
///
///     hello = Hello
#[derive(PartialEq, Debug, Drop)]
pub struct Resource<S> {
    pub body: Vec<Entry<S>>,
}

/// An entry.
#[derive(PartialEq, Debug, Drop)]
pub enum Entry<S> {
    Message(Message<S>),
    Term(Term<S>),
    /// `# A comment` by itself. One on the line before a message or term is in that entry.
    Comment(Comment<S>),
    /// `## A comment of the entries after it`
    GroupComment(Comment<S>),
    /// `### A comment of the file`
    ResourceComment(Comment<S>),
    /// A stretch that was refused, up to the next line that may begin an entry, as it is in the source. There is an
    /// error for it.
    Junk { content: S },
}

/// A message: `hello = Hello`. It has a value, an attribute, or both.
#[derive(PartialEq, Debug, Drop)]
pub struct Message<S> {
    pub id: Identifier<S>,
    pub value: Option<Pattern<S>>,
    pub attributes: Vec<Attribute<S>>,
    /// The comment on the lines directly before it.
    pub comment: Option<Comment<S>>,
}

/// A term, for messages to refer to: `-brand = Firefox`. It has a value.
#[derive(PartialEq, Debug, Drop)]
pub struct Term<S> {
    /// Without its `-`.
    pub id: Identifier<S>,
    pub value: Pattern<S>,
    pub attributes: Vec<Attribute<S>>,
    /// The comment on the lines directly before it.
    pub comment: Option<Comment<S>>,
}

/// A value: texts and placeables. It has at least one, where it was read.
#[derive(PartialEq, Debug, Drop)]
#[cycle(tree)]
pub struct Pattern<S> {
    pub elements: Vec<PatternElement<S>>,
}

/// An element of a pattern.
#[derive(PartialEq, Debug, Drop)]
#[cycle(tree)]
pub enum PatternElement<S> {
    /// A text of one line, with the LF that ends it where the pattern goes on. The spaces that all lines have in common
    /// are not in it. The LF of a CRLF is a text of its own.
    TextElement { value: S },
    /// An expression in braces: `{ $name }`
    Placeable { expression: Expression<S> },
}

/// An attribute of a message or term: `.title = Hello`, on a line of its own.
#[derive(PartialEq, Debug, Drop)]
pub struct Attribute<S> {
    pub id: Identifier<S>,
    pub value: Pattern<S>,
}

/// A name: a letter, and letters, digits, `-` and `_` after it.
#[derive(PartialEq, Eq, Debug, Drop)]
pub struct Identifier<S> {
    pub name: S,
}

/// A variant of a select: `[one] One file`, or `*[other] Files`
#[derive(PartialEq, Debug, Drop)]
#[cycle(tree)]
pub struct Variant<S> {
    pub key: VariantKey<S>,
    pub value: Pattern<S>,
    /// Whether a `*` marks it.
    pub default: bool,
}

/// The key of a variant: a name or a number, spelled as in the source.
#[derive(PartialEq, Eq, Debug, Drop)]
pub enum VariantKey<S> {
    Identifier { name: S },
    NumberLiteral { value: S },
}

/// A comment.
#[derive(PartialEq, Eq, Debug, Drop)]
pub struct Comment<S> {
    /// Its lines, without the marks and the space before them, and without their line ends.
    pub content: Vec<S>,
}

/// The arguments of a function or a term: `("text", $count, style: "short")`. Positional ones come first, and the names
/// of the others are distinct.
#[derive(PartialEq, Debug, Drop)]
#[cycle(tree)]
pub struct CallArguments<S> {
    pub positional: Vec<InlineExpression<S>>,
    pub named: Vec<NamedArgument<S>>,
}

/// An argument with a name: `style: "short"`
#[derive(PartialEq, Debug, Drop)]
#[cycle(tree)]
pub struct NamedArgument<S> {
    pub name: Identifier<S>,
    /// A string, a number without `-`, a function or a message, where it was read.
    pub value: InlineExpression<S>,
}

/// An expression of one line.
#[derive(PartialEq, Debug, Drop)]
#[cycle(tree)]
pub enum InlineExpression<S> {
    /// `"text"`, without its quotes. Escapes are as in the source: `unicode` resolves them.
    StringLiteral {
        value: S,
    },
    /// `-3.14`, as it is spelled.
    NumberLiteral {
        value: S,
    },
    /// `NUMBER($count)`
    FunctionReference {
        id: Identifier<S>,
        arguments: CallArguments<S>,
    },
    /// `hello`, or `hello.title`
    MessageReference {
        id: Identifier<S>,
        attribute: Option<Identifier<S>>,
    },
    /// `-brand`, `-brand(case: "genitive")`, or, as a selector, `-brand.gender`
    TermReference {
        id: Identifier<S>,
        attribute: Option<Identifier<S>>,
        arguments: Option<CallArguments<S>>,
    },
    /// `$count`
    VariableReference {
        id: Identifier<S>,
    },
    /// Braces within braces: the inner ones of `{ { $count } }`
    Placeable {
        expression: Box<Expression<S>>,
    },
}

/// What is in braces.
#[derive(PartialEq, Debug, Drop)]
#[cycle(tree)]
pub enum Expression<S> {
    /// A choice by the value of the selector:
    ///
    ///     { $count ->
    ///         [one] One file
    ///        *[other] Files
    ///     }
    Select {
        selector: InlineExpression<S>,
        variants: Vec<Variant<S>>,
    },
    Inline(InlineExpression<S>),
}

impl<S> CallArguments<S> {
    /// No arguments. Takes no memory.
    pub fn empty(alloc: Global) -> Self
        ensures positional { (out-CallArguments S result).positional.items ≡ [] }
        ensures named { (out-CallArguments S result).named.items ≡ [] }
    {
        CallArguments {
            positional: Vec::new(alloc),
            named: Vec::new(alloc),
        }
    }
}
