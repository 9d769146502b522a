//! What one file says and another lacks.
ghost use Rattle.std.specs.Prelude.{◌≡◌};
ghost use Rattle.fluent_syntax_names.specs.MissingParts.{is_junk};

use fluent_syntax_tree::spans::Span;

/// What a file says and another one lacks.
#[derive(Clone, Copy, Debug, PartialEq, Eq)]
pub struct MissingPart {
    pub part: Part,
    /// The name in the file that has it: of the message or term, of the attribute, of what is referred to, of the
    /// variable, or of the function.
    pub name: Span,
    /// The name, in the file that has it, of the message or term that the part is in, or is.
    pub entry: Span,
    /// Where the other file has that entry: the name at its first definition, or else the first junk that begins with
    /// the name; none where it has neither.
    pub in_other: Option<Span>,
}

impl MissingPart {
    /// Whether the other file has it as junk: a message or a term, with a syntax error.
    pub fn is_junk(&self) -> bool
        ensures { result ≡ is_junk self.now }
    {
        matches!(self.part, Part::Entry) && self.in_other.is_some()
    }
}

/// What is lacked.
#[derive(Clone, Copy, Debug, PartialEq, Eq)]
pub enum Part {
    /// A message or a term.
    Entry,
    /// The value of a message that both define.
    Value,
    /// An attribute of a message that both define.
    Attribute,
    /// A reference to a message or a term, or to an attribute of it, from an entry that both define: the other's entry
    /// doesn't refer there.
    Reference,
    /// A variable of a message that both define: the other's message doesn't use it, and neither does any message that
    /// this leads to, which are at most 100 and all defined in the other file.
    Variable,
    /// A function that an entry calls that both define: no entry of the other file calls it, and it is neither `NUMBER`
    /// nor `DATETIME`.
    Function,
}
