//! Entries and resources.
ghost use Rattle.std.specs.Prelude.{◌≡◌, [], IsOk, IfOk, map, option_map};
ghost use Rattle.fluent_syntax_tree.specs.Every.{pattern_every, attribute_every, message_every, term_every};
ghost use Rattle.fluent_syntax_tree.specs.Every.{entry_every, body_every, option_every, list_every};
ghost use Rattle.fluent_syntax_tree.specs.View.{comment_view, pattern_view, attribute_view, message_view, term_view};
ghost use Rattle.fluent_syntax_tree.specs.View.{entry_view, resource_view};

use super::names::{comment, identifier};
use super::patterns::pattern;
use crate::ast::*;
use crate::capacity::list_for;
use crate::texts::CopyTexts;
use std::alloc::{AllocError, Global};

pub(crate) fn attribute<X, Y: Drop, C: CopyTexts<X, Y>>(
    by: &C,
    alloc: Global,
    attribute: &Attribute<X>,
) -> Result<Attribute<Y>, AllocError>
    requires each { attribute_every (C.can by.now) (attribute_view (λ x. x) attribute.now) }
    ensures { IfOk result (λ copy. attribute_view C.made copy ≡ attribute_view (C.source by.now) attribute.now) }
{
    Ok(Attribute {
        id: identifier(by, alloc, &attribute.id)?,
        value: pattern(by, alloc, &attribute.value)?,
    })
}

fn attributes<X, Y: Drop, C: CopyTexts<X, Y>>(
    by: &C,
    alloc: Global,
    attributes: &Vec<Attribute<X>>,
) -> Result<Vec<Attribute<Y>>, AllocError>
    requires each { list_every (attribute_every (C.can by.now)) (map (attribute_view (λ x. x)) attributes.now.items) }
    ensures { IfOk result (λ copy. map (attribute_view C.made) copy.items
        ≡ map (attribute_view (C.source by.now)) attributes.now.items) }
{
    let mut copies = list_for(alloc, attributes);
    for item in attributes {
        copies.push(attribute(by, alloc, item)?)?;
    }
    Ok(copies)
}

fn value<X, Y: Drop, C: CopyTexts<X, Y>>(
    by: &C,
    alloc: Global,
    value: &Option<Pattern<X>>,
) -> Result<Option<Pattern<Y>>, AllocError>
    requires { option_every (pattern_every (C.can by.now)) (option_map (pattern_view (λ x. x)) value.now) }
    ensures { IfOk result (λ copy. option_map (pattern_view C.made) copy
        ≡ option_map (pattern_view (C.source by.now)) value.now) }
{
    match value {
        None => Ok(None),
        Some(value) => Ok(Some(pattern(by, alloc, value)?)),
    }
}

/// The comment of a message or a term, where it has one.
fn own_comment<X, Y: Drop, C: CopyTexts<X, Y>>(
    by: &C,
    alloc: Global,
    own: &Option<Comment<X>>,
) -> Result<Option<Comment<Y>>, AllocError>
    requires { option_every (list_every (C.can by.now)) (option_map (comment_view (λ x. x)) own.now) }
    ensures { IfOk result (λ copy. option_map (comment_view C.made) copy
        ≡ option_map (comment_view (C.source by.now)) own.now) }
{
    match own {
        None => Ok(None),
        Some(own) => Ok(Some(comment(by, alloc, own)?)),
    }
}

pub(crate) fn message<X, Y: Drop, C: CopyTexts<X, Y>>(
    by: &C,
    alloc: Global,
    message: &Message<X>,
) -> Result<Message<Y>, AllocError>
    requires each { message_every (C.can by.now) (message_view (λ x. x) message.now) }
    ensures { IfOk result (λ copy. message_view C.made copy ≡ message_view (C.source by.now) message.now) }
{
    Ok(Message {
        id: identifier(by, alloc, &message.id)?,
        value: value(by, alloc, &message.value)?,
        attributes: attributes(by, alloc, &message.attributes)?,
        comment: own_comment(by, alloc, &message.comment)?,
    })
}

pub(crate) fn term<X, Y: Drop, C: CopyTexts<X, Y>>(
    by: &C,
    alloc: Global,
    term: &Term<X>,
) -> Result<Term<Y>, AllocError>
    requires each { term_every (C.can by.now) (term_view (λ x. x) term.now) }
    ensures { IfOk result (λ copy. term_view C.made copy ≡ term_view (C.source by.now) term.now) }
{
    Ok(Term {
        id: identifier(by, alloc, &term.id)?,
        value: pattern(by, alloc, &term.value)?,
        attributes: attributes(by, alloc, &term.attributes)?,
        comment: own_comment(by, alloc, &term.comment)?,
    })
}

pub fn entry<X, Y: Drop, C: CopyTexts<X, Y>>(
    by: &C,
    alloc: Global,
    entry: &Entry<X>,
) -> Result<Entry<Y>, AllocError>
    requires each { entry_every (C.can by.now) (entry_view (λ x. x) entry.now) }
    ensures { IfOk result (λ copy. entry_view C.made copy ≡ entry_view (C.source by.now) entry.now) }
{
    match entry {
        Entry::Message(inner) => Ok(Entry::Message(message(by, alloc, inner)?)),
        Entry::Term(inner) => Ok(Entry::Term(term(by, alloc, inner)?)),
        Entry::Comment(inner) => Ok(Entry::Comment(comment(by, alloc, inner)?)),
        Entry::GroupComment(inner) => Ok(Entry::GroupComment(comment(by, alloc, inner)?)),
        Entry::ResourceComment(inner) => Ok(Entry::ResourceComment(comment(by, alloc, inner)?)),
        Entry::Junk { content } => Ok(Entry::Junk {
            content: by.copy(alloc, content)?,
        }),
    }
}

pub fn resource<X, Y: Drop, C: CopyTexts<X, Y>>(
    by: &C,
    alloc: Global,
    resource: &Resource<X>,
) -> Result<Resource<Y>, AllocError>
    requires each { body_every (C.can by.now) (resource_view (λ x. x) resource.now) }
    ensures copy { IfOk result (λ copy. resource_view C.made copy ≡ resource_view (C.source by.now) resource.now) }
    ensures empty { resource.now.body.items ≡ [] → IsOk result }
{
    let mut body = list_for(alloc, &resource.body);
    for item in &resource.body {
        body.push(entry(by, alloc, item)?)?;
    }
    Ok(Resource { body })
}
