//! Entries and resources.
ghost use Rattle.std.specs.Prelude.{◌≡◌, [], IsOk, IfOk, map, option_map, string_bytes};
ghost use Rattle.std.specs.Option.{option_to_list};
ghost use Rattle.fluent_syntax_tree.specs.View.{comment_view, pattern_view, attribute_view, message_view, term_view};
ghost use Rattle.fluent_syntax_tree.specs.View.{entry_view, resource_view};
ghost use Rattle.fluent_syntax_grammar.specs.Joined.{joined_pattern, joined_attribute, joined_message, joined_term};
ghost use Rattle.fluent_syntax_grammar.specs.Joined.{joined_entry, joined_body};

use crate::joined::patterns::pattern;
use crate::joined::texts::{comment, identifier};
use fluent_syntax_tree::ast::*;
use fluent_syntax_tree::capacity::list_for;
use fluent_syntax_tree::slice::Slice;
use fluent_syntax_tree::texts::{BySlice, ReadTexts};
use std::alloc::{AllocError, Global};

fn attribute<X, T: ReadTexts<X>>(
    alloc: Global,
    attribute: &Attribute<X>,
) -> Result<Attribute<String>, AllocError>
    ensures { IfOk result (λ copy. attribute_view string_bytes copy
        ≡ joined_attribute (attribute_view T.text attribute.now)) }
{
    Ok(Attribute {
        id: identifier::<X, T>(alloc, &attribute.id)?,
        value: pattern::<X, T>(alloc, &attribute.value)?,
    })
}

fn attributes<X, T: ReadTexts<X>>(
    alloc: Global,
    attributes: &Vec<Attribute<X>>,
) -> Result<Vec<Attribute<String>>, AllocError>
    ensures { IfOk result (λ copy. map (attribute_view string_bytes) copy.items
        ≡ map joined_attribute (map (attribute_view T.text) attributes.now.items)) }
{
    let mut copies = list_for(alloc, attributes);
    for item in attributes {
        copies.push(attribute::<X, T>(alloc, item)?)?;
    }
    Ok(copies)
}

fn value<X, T: ReadTexts<X>>(
    alloc: Global,
    value: &Option<Pattern<X>>,
) -> Result<Option<Pattern<String>>, AllocError>
    ensures { IfOk result (λ copy. option_map (pattern_view string_bytes) copy
        ≡ option_map joined_pattern (option_map (pattern_view T.text) value.now)) }
{
    match value {
        None => Ok(None),
        Some(value) => Ok(Some(pattern::<X, T>(alloc, value)?)),
    }
}

/// The comment of a message or a term, where it has one.
fn own_comment<X, T: ReadTexts<X>>(
    alloc: Global,
    own: &Option<Comment<X>>,
) -> Result<Option<Comment<String>>, AllocError>
    ensures { IfOk result (λ copy. option_map (comment_view string_bytes) copy
        ≡ option_map (comment_view T.text) own.now) }
{
    match own {
        None => Ok(None),
        Some(own) => Ok(Some(comment::<X, T>(alloc, own)?)),
    }
}

fn message<X, T: ReadTexts<X>>(
    alloc: Global,
    message: &Message<X>,
) -> Result<Message<String>, AllocError>
    ensures { IfOk result (λ copy. message_view string_bytes copy ≡ joined_message (message_view T.text message.now)) }
{
    Ok(Message {
        id: identifier::<X, T>(alloc, &message.id)?,
        value: value::<X, T>(alloc, &message.value)?,
        attributes: attributes::<X, T>(alloc, &message.attributes)?,
        comment: own_comment::<X, T>(alloc, &message.comment)?,
    })
}

fn term<X, T: ReadTexts<X>>(alloc: Global, term: &Term<X>) -> Result<Term<String>, AllocError>
    ensures { IfOk result (λ copy. term_view string_bytes copy ≡ joined_term (term_view T.text term.now)) }
{
    Ok(Term {
        id: identifier::<X, T>(alloc, &term.id)?,
        value: pattern::<X, T>(alloc, &term.value)?,
        attributes: attributes::<X, T>(alloc, &term.attributes)?,
        comment: own_comment::<X, T>(alloc, &term.comment)?,
    })
}

/// The joined entry, or None for junk.
fn entry<X, T: ReadTexts<X>>(
    alloc: Global,
    entry: &Entry<X>,
) -> Result<Option<Entry<String>>, AllocError>
    ensures { IfOk result (λ copy. map (entry_view string_bytes) (option_to_list copy)
        ≡ joined_entry (entry_view T.text entry.now)) }
{
    match entry {
        Entry::Message(inner) => Ok(Some(Entry::Message(message::<X, T>(alloc, inner)?))),
        Entry::Term(inner) => Ok(Some(Entry::Term(term::<X, T>(alloc, inner)?))),
        Entry::Comment(inner) => Ok(Some(Entry::Comment(comment::<X, T>(alloc, inner)?))),
        Entry::GroupComment(inner) => {
            Ok(Some(Entry::GroupComment(comment::<X, T>(alloc, inner)?)))
        }
        Entry::ResourceComment(inner) => {
            Ok(Some(Entry::ResourceComment(comment::<X, T>(alloc, inner)?)))
        }
        Entry::Junk { .. } => Ok(None),
    }
}

fn resource<X, T: ReadTexts<X>>(
    alloc: Global,
    resource: &Resource<X>,
) -> Result<Resource<String>, AllocError>
    ensures joined { IfOk result (λ copy. resource_view string_bytes copy
        ≡ joined_body (resource_view T.text resource.now)) }
    ensures empty { resource.now.body.items ≡ [] → IsOk result }
{
    let mut body = list_for(alloc, &resource.body);
    for item in &resource.body {
        match entry::<X, T>(alloc, item)? {
            Some(entry) => body.push(entry)?,
            None => {}
        }
    }
    Ok(Resource { body })
}

/// The joined tree, as texts of its own: the tree without its junk, and with each text of a pattern that is one LF and
/// directly follows a text which does not end in LF appended to that text.
///
/// - `joined`: so it is.
/// - `empty`: of a tree without entries it is always `Ok`.
///
/// `AllocError` where a growth was refused.
pub fn joined<'s, S: Slice<'s>>(
    alloc: Global,
    r: &Resource<S>,
) -> Result<Resource<String>, AllocError>
    ensures joined { IfOk result (λ tree. resource_view string_bytes tree ≡ joined_body (resource_view S.text r.now)) }
    ensures empty { r.now.body.items ≡ [] → IsOk result }
{
    resource::<S, BySlice<'s>>(alloc, r)
}
