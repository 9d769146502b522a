//! What entries are called.

ghost use Rattle.std.specs.Prelude.{◌≡◌, ℕ, List, Some};
ghost use Rattle.std.specs.Borrow.{Bor};
ghost use Rattle.fluent_syntax_tree.specs.declared.ast.Message.{Message};
ghost use Rattle.fluent_syntax_tree.specs.declared.ast.Term.{Term};

use fluent_syntax::ast::{Entry, Resource};
use std::alloc::{AllocError, Global};
use std::fmt;

/// The name of a message or of a term.
#[derive(Clone, Copy, PartialEq)]
pub enum Name<'s> {
    Message(&'s str),
    Term(&'s str),
}

impl<'s> Name<'s> {
    /// The name of the entry; None of comments and junk.
    pub(crate) fn of(entry: &Entry<&'s str>) -> Option<Name<'s>>
        ensures message { (message : Message (Bor (List ℕ))) → entry.now ≡ Entry.Message message
            → result ≡ Some (Name.Message message.id.name) }
        ensures term { (term : Term (Bor (List ℕ))) → entry.now ≡ Entry.Term term →
            result ≡ Some (Name.Term term.id.name) }
    {
        match entry {
            Entry::Message(message) => Some(Name::Message(message.id.name)),
            Entry::Term(term) => Some(Name::Term(term.id.name)),
            _ => None,
        }
    }
}

impl<'s> fmt::Display for Name<'s> {
    fn fmt<W: fmt::Write>(&self, f: &mut fmt::Formatter<W>) -> fmt::Result {
        match self {
            Name::Message(name) => write!(f, "{name}"),
            Name::Term(name) => write!(f, "-{name}"),
        }
    }
}

/// The names of all messages and terms of a file.
pub(crate) fn definitions_of<'s>(
    alloc: Global,
    tree: &Resource<&'s str>,
) -> Result<Vec<Name<'s>>, AllocError> {
    let mut names = Vec::new(alloc);
    for entry in &tree.body {
        if let Some(name) = Name::of(entry) {
            names.push(name)?;
        }
    }
    Ok(names)
}
