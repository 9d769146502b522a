//! Mentions further on in a text.
ghost use Rattle.std.specs.Prelude.{◌≡◌, IfOk};
ghost use Rattle.fluent_syntax_tree.specs.Tree.{option_texts};
ghost use Rattle.fluent_syntax_names.specs.Mentions.{mention_map, shifted_span};

use crate::mention::Mention;
use fluent_syntax_tree::spans::Span;
use std::alloc::AllocError;

/// The range so many bytes on. No text is so long that it has none.
fn shifted_span(base: usize, span: Span) -> Result<Span, AllocError>
    ensures { IfOk result (λ moved. moved ≡ shifted_span base span) }
{
    let (Some(start), Some(end)) = (base.checked_add(span.start), base.checked_add(span.end)) else {
        return Err(AllocError);
    };
    Ok(Span { start, end })
}

fn shifted_if_some(base: usize, span: Option<Span>) -> Result<Option<Span>, AllocError>
    ensures { IfOk result (λ moved. moved ≡ option_texts (shifted_span base) span) }
{
    match span {
        None => Ok(None),
        Some(span) => Ok(Some(shifted_span(base, span)?)),
    }
}

/// The mention with its ranges so many bytes on.
pub(crate) fn shifted_mention(
    base: usize,
    mention: &Mention<Span>,
) -> Result<Mention<Span>, AllocError>
    ensures { IfOk result (λ moved. moved ≡ mention_map (shifted_span base) mention.now) }
{
    Ok(match *mention {
        Mention::Message { name, has_value } => Mention::Message {
            name: shifted_span(base, name)?,
            has_value,
        },
        Mention::Term { name } => Mention::Term {
            name: shifted_span(base, name)?,
        },
        Mention::Attribute { name } => Mention::Attribute {
            name: shifted_span(base, name)?,
        },
        Mention::Junk { content } => Mention::Junk {
            content: shifted_span(base, content)?,
        },
        Mention::MessageReference { name, attribute } => Mention::MessageReference {
            name: shifted_span(base, name)?,
            attribute: shifted_if_some(base, attribute)?,
        },
        Mention::TermReference { name, attribute } => Mention::TermReference {
            name: shifted_span(base, name)?,
            attribute: shifted_if_some(base, attribute)?,
        },
        Mention::Variable { name } => Mention::Variable {
            name: shifted_span(base, name)?,
        },
        Mention::Function { name } => Mention::Function {
            name: shifted_span(base, name)?,
        },
        Mention::VariantKey { key, first } => Mention::VariantKey {
            key: shifted_span(base, key)?,
            first: shifted_span(base, first)?,
        },
    })
}
