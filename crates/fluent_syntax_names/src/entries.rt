//! The mentions of entries.
ghost use Rattle.std.specs.Prelude.{◌≡◌, [], OnOk, IfOk, map, filter};
ghost use Rattle.std.specs.List.{filter_map};
ghost use Rattle.fluent_syntax_tree.specs.View.{entry_view, message_view, term_view, attribute_view};
ghost use Rattle.fluent_syntax_names.specs.Growing.{Adds};
ghost use Rattle.fluent_syntax_names.specs.Mentions.{attribute_mentions, attributes_mentions, message_mentions};
ghost use Rattle.fluent_syntax_names.specs.Mentions.{term_mentions, entry_mentions, defined, references, variables};
ghost use Rattle.fluent_syntax_names.specs.Mentions.{is_definition, is_reference, variable_of};

use crate::mention::Mention;
use crate::patterns::add_pattern;
use fluent_syntax_tree::ast::*;
use std::alloc::{AllocError, Global};

/// All that the entry says of names, in the order of the text.
///
/// Takes the memory of the list; `AllocError` where there is none. The time is that of a walk over the entry. The stack
/// is bounded by how deep the entry nests.
pub fn mentions<X: Copy>(alloc: Global, entry: &Entry<X>) -> Result<Vec<Mention<X>>, AllocError>
    ensures { IfOk result (λ list. list.items ≡ entry_mentions (entry_view (λ x. x) entry.now) []) }
{
    let mut list = Vec::new(alloc);
    add_entry(&mut list, entry)?;
    Ok(list)
}

/// What the entry defines, in the order of the text: a message or a term, and its attributes. Each is a
/// `Mention::Message`, `Term` or `Attribute`. Comments and junk define nothing.
///
/// Takes the memory of the mentions; `AllocError` where there is none.
pub fn defined<X: Copy>(alloc: Global, entry: &Entry<X>) -> Result<Vec<Mention<X>>, AllocError>
    ensures { IfOk result (λ list. list.items ≡ defined (entry_view (λ x. x) entry.now)) }
{
    let all = mentions(alloc, entry)?;
    all.iter()
        .copied()
        .filter(|mention| is_definition(mention))
        .collect(alloc)
}

/// What the patterns of the entry refer to, in the order of the text: messages, terms, attributes of these, and
/// functions. Each is a `Mention::MessageReference`, `TermReference` or `Function`.
///
/// Takes the memory of the mentions; `AllocError` where there is none.
pub fn references<X: Copy>(alloc: Global, entry: &Entry<X>) -> Result<Vec<Mention<X>>, AllocError>
    ensures { IfOk result (λ list. list.items ≡ references (entry_view (λ x. x) entry.now)) }
{
    let all = mentions(alloc, entry)?;
    all.iter()
        .copied()
        .filter(|mention| is_reference(mention))
        .collect(alloc)
}

/// The names of the variables that the patterns of the entry use, without their `$`, in the order of the text, each as
/// often as it is used.
///
/// Takes the memory of the mentions; `AllocError` where there is none.
pub fn variables<X: Copy>(alloc: Global, entry: &Entry<X>) -> Result<Vec<X>, AllocError>
    ensures { IfOk result (λ list. list.items ≡ variables (entry_view (λ x. x) entry.now)) }
{
    let all = mentions(alloc, entry)?;
    all.iter()
        .filter_map(|mention| variable_of(mention))
        .collect(alloc)
}

fn is_definition<X: Copy>(mention: &Mention<X>) -> bool
    ensures { result ≡ is_definition mention.now }
{
    matches!(
        mention,
        Mention::Message { .. } | Mention::Term { .. } | Mention::Attribute { .. }
    )
}

fn is_reference<X: Copy>(mention: &Mention<X>) -> bool
    ensures { result ≡ is_reference mention.now }
{
    matches!(
        mention,
        Mention::MessageReference { .. } | Mention::TermReference { .. } | Mention::Function { .. }
    )
}

fn variable_of<X: Copy>(mention: &Mention<X>) -> Option<X>
    ensures { result ≡ variable_of mention.now }
{
    match mention {
        Mention::Variable { name } => Some(*name),
        _ => None,
    }
}

/// Adds the mentions of the entry.
pub(crate) fn add_entry<X: Copy>(
    list: &mut Vec<Mention<X>>,
    entry: &Entry<X>,
) -> Result<(), AllocError>
    ensures { OnOk result (Adds list.old.items list.new.items (entry_mentions (entry_view (λ x. x) entry.now))) }
{
    match entry {
        Entry::Message(message) => add_message(list, message),
        Entry::Term(term) => add_term(list, term),
        Entry::Comment(_) | Entry::GroupComment(_) | Entry::ResourceComment(_) => Ok(()),
        Entry::Junk { content } => {
            list.push(Mention::Junk { content: *content })?;
            Ok(())
        }
    }
}

fn add_message<X: Copy>(list: &mut Vec<Mention<X>>, message: &Message<X>) -> Result<(), AllocError>
    ensures { OnOk result (Adds list.old.items list.new.items (message_mentions (message_view (λ x. x) message.now))) }
{
    list.push(Mention::Message {
        name: message.id.name,
        has_value: message.value.is_some(),
    })?;
    if let Some(value) = &message.value {
        add_pattern(list, value)?;
    }
    add_attributes(list, &message.attributes)
}

fn add_term<X: Copy>(list: &mut Vec<Mention<X>>, term: &Term<X>) -> Result<(), AllocError>
    ensures { OnOk result (Adds list.old.items list.new.items (term_mentions (term_view (λ x. x) term.now))) }
{
    list.push(Mention::Term { name: term.id.name })?;
    add_pattern(list, &term.value)?;
    add_attributes(list, &term.attributes)
}

fn add_attributes<X: Copy>(
    list: &mut Vec<Mention<X>>,
    attributes: &[Attribute<X>],
) -> Result<(), AllocError>
    ensures { OnOk result
        (Adds list.old.items list.new.items (attributes_mentions (map (attribute_view (λ x. x)) attributes.now))) }
{
    for attribute in attributes {
        add_attribute(list, attribute)?;
    }
    Ok(())
}

fn add_attribute<X: Copy>(
    list: &mut Vec<Mention<X>>,
    attribute: &Attribute<X>,
) -> Result<(), AllocError>
    ensures { OnOk result
        (Adds list.old.items list.new.items (attribute_mentions (attribute_view (λ x. x) attribute.now))) }
{
    list.push(Mention::Attribute {
        name: attribute.id.name,
    })?;
    add_pattern(list, &attribute.value)
}
