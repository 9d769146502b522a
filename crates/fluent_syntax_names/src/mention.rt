//! What an entry says of a name.

/// What an entry says of a name. `X` is how the tree holds its texts: over `Span` a mention has its place.
#[derive(Clone, Copy, Debug, PartialEq, Eq)]
pub enum Mention<X> {
    /// The entry is a message of this name: `hello = Hello`
    Message {
        name: X,
        /// Whether it has a value, and not attributes alone.
        has_value: bool,
    },
    /// The entry is a term of this name, which is without its `-`: `-brand = Firefox`
    Term {
        name: X,
    },
    /// The message or term has an attribute of this name: `.title = Hello`
    Attribute {
        name: X,
    },
    /// The entry is junk.
    Junk {
        content: X,
    },
    /// A pattern refers to a message, `{ hello }`, or to an attribute of one, `{ hello.title }`.
    MessageReference {
        name: X,
        attribute: Option<X>,
    },
    /// A pattern refers to a term, `{ -brand }`, or to an attribute of one, `{ -brand.gender -> .. }`. The name is
    /// without its `-`.
    TermReference {
        name: X,
        attribute: Option<X>,
    },
    /// A pattern uses a variable of this name, which is without its `$`: `{ $count }`
    Variable {
        name: X,
    },
    /// A pattern calls a function: `{ NUMBER($count) }`
    Function {
        name: X,
    },
    /// A select has a variant with this key, a name or a number: `[one] One`
    VariantKey {
        key: X,
        /// The first key of the select, which may be this one.
        first: X,
    },
}
