//! Texts, and what holds nothing else: names, keys and comments.
ghost use Rattle.std.specs.Prelude.{◌≡◌, IfOk, map, option_map, string_bytes};
ghost use Rattle.fluent_syntax_tree.specs.View.{identifier_view, key_view, comment_view};

use fluent_syntax_tree::ast::{Comment, Identifier, VariantKey};
use fluent_syntax_tree::capacity::list_for;
use fluent_syntax_tree::texts::ReadTexts;
use std::alloc::{AllocError, Global};

/// The text, as one that owns its bytes.
pub fn string<X, T: ReadTexts<X>>(alloc: Global, text: &X) -> Result<String, AllocError>
    ensures { IfOk result (λ copy. string_bytes copy ≡ T.text text.now) }
{
    String::from_str(alloc, T::as_str(text))
}

pub fn identifier<X, T: ReadTexts<X>>(
    alloc: Global,
    id: &Identifier<X>,
) -> Result<Identifier<String>, AllocError>
    ensures { IfOk result (λ copy. identifier_view string_bytes copy ≡ identifier_view T.text id.now) }
{
    Ok(Identifier {
        name: string::<X, T>(alloc, &id.name)?,
    })
}

pub fn key<X, T: ReadTexts<X>>(
    alloc: Global,
    key: &VariantKey<X>,
) -> Result<VariantKey<String>, AllocError>
    ensures { IfOk result (λ copy. key_view string_bytes copy ≡ key_view T.text key.now) }
{
    match key {
        VariantKey::Identifier { name } => Ok(VariantKey::Identifier {
            name: string::<X, T>(alloc, name)?,
        }),
        VariantKey::NumberLiteral { value } => Ok(VariantKey::NumberLiteral {
            value: string::<X, T>(alloc, value)?,
        }),
    }
}

/// The name of a reference's attribute, where it has one.
pub fn attribute_name<X, T: ReadTexts<X>>(
    alloc: Global,
    id: &Option<Identifier<X>>,
) -> Result<Option<Identifier<String>>, AllocError>
    ensures { IfOk result (λ copy. option_map (identifier_view string_bytes) copy
        ≡ option_map (identifier_view T.text) id.now) }
{
    match id {
        None => Ok(None),
        Some(id) => Ok(Some(identifier::<X, T>(alloc, id)?)),
    }
}

pub fn comment<X, T: ReadTexts<X>>(
    alloc: Global,
    comment: &Comment<X>,
) -> Result<Comment<String>, AllocError>
    ensures { IfOk result (λ copy. comment_view string_bytes copy ≡ comment_view T.text comment.now) }
{
    let mut content = list_for(alloc, &comment.content);
    for line in &comment.content {
        content.push(string::<X, T>(alloc, line)?)?;
    }
    Ok(Comment { content })
}
