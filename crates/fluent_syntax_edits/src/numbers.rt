//! The number of an entry by its name.
ghost use Rattle.std.specs.Prelude.{◌≡◌, map};
ghost use Rattle.fluent_syntax_edits.specs.Numbers.{first_named, is_named};
ghost use Rattle.fluent_syntax_tree.specs.View.{entry_view};

use fluent_syntax_tree::ast::{Entry, Resource};
use fluent_syntax_tree::slice::Slice;

/// The name of a message or a term.
#[derive(Clone, Copy, Debug, Drop, Eq, PartialEq)]
pub enum EntryName<'n> {
    Message(&'n str),
    /// Without its `-`.
    Term(&'n str),
}

/// Whether it is the message or the term of that name.
fn is_named<'s, S: Slice<'s>>(name: EntryName<'_>, entry: &Entry<S>) -> bool
    ensures { result ≡ is_named name.entry (entry_view S.text entry.now) }
{
    match (name, entry) {
        (EntryName::Message(name), Entry::Message(message)) => message.id.name.as_str() == name,
        (EntryName::Term(name), Entry::Term(term)) => term.id.name.as_str() == name,
        _ => false,
    }
}

/// The number of the first message or term of that name, counted from 0 as in the tree.
pub fn number_of<'s, S: Slice<'s>>(tree: &Resource<S>, name: EntryName<'_>) -> Option<usize>
    ensures { result ≡ first_named name.entry (map (entry_view S.text) tree.now.body.items) }
{
    for (number, entry) in tree.body.iter().enumerate() {
        if is_named(name, entry) {
            return Some(number);
        }
    }
    None
}
