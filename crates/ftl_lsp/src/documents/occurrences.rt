//! The names in a text, each where it is.
ghost use Rattle.std.specs.Prelude.{◌≡◌, true};
ghost use Rattle.ftl_lsp.specs.Occurrences.{IsAt, IsCut, IsMarked, is_mark, shown_of, span_of};

use fluent_syntax::spans::Span;
pub use fluent_syntax_grammar::lanes::is_name_byte;
use fluent_syntax_names::Mention;
use std::alloc::{AllocError, Global};

/// What a name is one of.
#[derive(Clone, Copy, PartialEq, Eq)]
pub enum NameKind {
    Message,
    Term,
    Variable,
    Function,
}

/// A name in a text, or that of an attribute.
#[derive(Clone, Copy)]
pub struct Occurrence {
    pub kind: NameKind,
    /// The name, without the `-` of a term or the `$` of a variable.
    pub name: Span,
    /// The name of the attribute, where it is one of the message or term.
    pub attribute: Option<Span>,
    /// Whether it is defined there, and not referred to or used.
    pub defines: bool,
}

impl Occurrence {
    /// A name without an attribute.
    fn of(kind: NameKind, name: Span, defines: bool) -> Self {
        Occurrence {
            kind,
            name,
            attribute: None,
            defines,
        }
    }

    /// Where it is.
    pub fn span(&self) -> Span
        ensures { result ≡ span_of self.now }
    {
        match self.attribute {
            None => self.name,
            Some(attribute) => attribute,
        }
    }

    /// Whether it is at the byte or ends there, or its mark is there.
    pub fn is_at(&self, text: &str, byte: usize) -> bool
        ensures { result ≡ true → IsAt text.now byte (span_of self.now) }
    {
        let span = self.span();
        span.start <= byte && byte <= span.end || is_marked(text.as_bytes(), byte, span)
    }

    /// Where it is, with the `-` of a term.
    pub fn labelled_span(&self) -> Span {
        let Span { start, end } = self.span();
        match (self.kind, self.attribute) {
            (NameKind::Term, None) => Span {
                start: start.saturating_sub(1),
                end,
            },
            _ => Span { start, end },
        }
    }
}

/// Whether the byte is a mark, right before the span.
fn is_marked(text: &[u8], byte: usize, span: Span) -> bool
    ensures { result ≡ true → IsMarked text.now byte span }
{
    byte < text.len() && byte + 1 == span.start && is_mark(text[byte])
}

/// Whether the byte is the `-` of a term, the `$` of a variable or the `.` of an attribute.
fn is_mark(byte: u8) -> bool
    ensures { result ≡ is_mark byte }
{
    byte == b'-' || byte == b'$' || byte == b'.'
}

/// What a name is one of, and its text: where these are the same, the names mean the same.
#[derive(Clone, Copy, PartialEq, Eq)]
pub struct Name<'t> {
    pub kind: NameKind,
    pub name: &'t str,
    pub attribute: Option<&'t str>,
}

impl<'t> Name<'t> {
    /// The text that is where it occurs: that of its attribute, if it has one.
    pub fn shown_text(&self) -> &'t str
        ensures { result.now ≡ shown_of self.now }
    {
        match self.attribute {
            None => self.name,
            Some(attribute) => attribute,
        }
    }
}

/// The bytes of a range of the text; none where it has no such range.
pub fn bytes_of(text: &str, span: Span) -> &str
    ensures { IsCut text.now span result.now }
{
    text.get(span.start..span.end).unwrap_or("")
}

/// Whether it is this name that occurs in the text.
pub fn is_named(text: &str, occurrence: &Occurrence, name: Name<'_>) -> bool
    ensures { result ≡ true → IsCut text.now (span_of occurrence.now) (shown_of name.entry) }
{
    name_of(text, *occurrence) == name
}

/// The name that occurs in the text.
pub fn name_of(text: &str, occurrence: Occurrence) -> Name<'_>
    ensures { IsCut text.now (span_of occurrence) (shown_of result) }
{
    Name {
        kind: occurrence.kind,
        name: bytes_of(text, occurrence.name),
        attribute: match occurrence.attribute {
            None => None,
            Some(span) => Some(bytes_of(text, span)),
        },
    }
}

/// The names of which these are the mentions, in order.
pub fn occurrences_of(
    alloc: Global,
    mentions: &[Mention<Span>],
) -> Result<Vec<Occurrence>, AllocError> {
    let mut found = Vec::new(alloc);
    let mut owner = None;
    for mention in mentions {
        owner = add_mention(&mut found, owner, *mention)?;
    }
    Ok(found)
}

/// Adds the names of a mention after the message or term whose attributes may follow; gives the one whose may follow
/// then.
fn add_mention(
    found: &mut Vec<Occurrence>,
    owner: Option<Occurrence>,
    mention: Mention<Span>,
) -> Result<Option<Occurrence>, AllocError> {
    match mention {
        Mention::Message { name, .. } => {
            let message = Occurrence::of(NameKind::Message, name, true);
            found.push(message)?;
            Ok(Some(message))
        }
        Mention::Term { name } => {
            let term = Occurrence::of(NameKind::Term, name, true);
            found.push(term)?;
            Ok(Some(term))
        }
        Mention::Attribute { name } => {
            add_attribute(found, owner, Some(name))?;
            Ok(owner)
        }
        Mention::Junk { .. } | Mention::VariantKey { .. } => Ok(owner),
        Mention::MessageReference { name, attribute } => {
            add_reference(found, NameKind::Message, name, attribute)?;
            Ok(owner)
        }
        Mention::TermReference { name, attribute } => {
            add_reference(found, NameKind::Term, name, attribute)?;
            Ok(owner)
        }
        Mention::Variable { name } => {
            found.push(Occurrence::of(NameKind::Variable, name, false))?;
            Ok(owner)
        }
        Mention::Function { name } => {
            found.push(Occurrence::of(NameKind::Function, name, false))?;
            Ok(owner)
        }
    }
}

/// Adds a name that is referred to, and then its attribute, if there is one.
fn add_reference(
    found: &mut Vec<Occurrence>,
    kind: NameKind,
    name: Span,
    attribute: Option<Span>,
) -> Result<(), AllocError> {
    let reference = Occurrence::of(kind, name, false);
    found.push(reference)?;
    add_attribute(found, Some(reference), attribute)
}

/// Adds an attribute of the message or term, if there are both.
fn add_attribute(
    found: &mut Vec<Occurrence>,
    owner: Option<Occurrence>,
    attribute: Option<Span>,
) -> Result<(), AllocError> {
    if let (Some(owner), Some(_)) = (owner, attribute) {
        found.push(Occurrence { attribute, ..owner })?;
    }
    Ok(())
}
