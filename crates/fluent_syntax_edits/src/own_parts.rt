//! What is new, with texts of its own.
ghost use Rattle.std.specs.Prelude.{◌≡◌, IfOk, string_bytes};
ghost use Rattle.fluent_syntax_edits.specs.Changes.{joined_part};
ghost use Rattle.fluent_syntax_grammar.specs.Joined.{joined_pattern};
ghost use Rattle.fluent_syntax_tree.specs.View.{entry_view, pattern_view};

use fluent_syntax_tree::ast::{Entry, Identifier, Pattern, Resource, Term};
use fluent_syntax_tree::slice::Slice;
use fluent_syntax_writer::joined::joined;
use std::alloc::{AllocError, Global};

/// The entry with texts of its own, and with its patterns joined.
pub(crate) fn own_entry<'s, S: Slice<'s>>(
    alloc: Global,
    entry: &Entry<S>,
) -> Result<Entry<String>, AllocError>
    ensures { IfOk result (λ own. entry_view string_bytes own ≡ joined_part (entry_view S.text entry.now)) }
{
    if let Entry::Junk { content } = entry {
        let content = String::from_str(alloc, content.as_str())?;
        return Ok(Entry::Junk { content });
    }
    let mut body = Vec::new(alloc);
    body.push(entry.try_clone(alloc)?)?;
    let mut tree = joined(alloc, &Resource { body })?;
    match tree.body.pop() {
        Some(own) => Ok(own),
        // every entry but junk is there
        None => Err(AllocError),
    }
}

/// The pattern with texts of its own, and joined.
pub(crate) fn own_pattern(
    alloc: Global,
    value: &Pattern<&str>,
) -> Result<Pattern<String>, AllocError>
    ensures { IfOk result (λ own.
        pattern_view string_bytes own ≡ joined_pattern (pattern_view (λ text. text.now) value.now)) }
{
    let holder = Entry::Term(Term {
        id: Identifier { name: "a" },
        value: value.try_clone(alloc)?,
        attributes: Vec::new(alloc),
        comment: None,
    });
    match own_entry(alloc, &holder)? {
        Entry::Term(own) => Ok(own.value),
        // the copy of a term is one
        _ => Err(AllocError),
    }
}
