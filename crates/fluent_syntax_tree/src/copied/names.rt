//! Names, keys and comments.
ghost use Rattle.std.specs.Prelude.{◌≡◌, IfOk, map, option_map};
ghost use Rattle.fluent_syntax_tree.specs.Every.{key_every, option_every, list_every};
ghost use Rattle.fluent_syntax_tree.specs.View.{identifier_view, key_view, comment_view};

use crate::ast::{Comment, Identifier, VariantKey};
use crate::capacity::list_for;
use crate::texts::CopyTexts;
use std::alloc::{AllocError, Global};

pub(crate) fn identifier<X, Y: Drop, C: CopyTexts<X, Y>>(
    by: &C,
    alloc: Global,
    id: &Identifier<X>,
) -> Result<Identifier<Y>, AllocError>
    requires { C.can by.now id.now.name }
    ensures { IfOk result (λ copy. identifier_view C.made copy ≡ identifier_view (C.source by.now) id.now) }
{
    Ok(Identifier {
        name: by.copy(alloc, &id.name)?,
    })
}

pub(crate) fn key<X, Y: Drop, C: CopyTexts<X, Y>>(
    by: &C,
    alloc: Global,
    key: &VariantKey<X>,
) -> Result<VariantKey<Y>, AllocError>
    requires { key_every (C.can by.now) (key_view (λ x. x) key.now) }
    ensures { IfOk result (λ copy. key_view C.made copy ≡ key_view (C.source by.now) key.now) }
{
    match key {
        VariantKey::Identifier { name } => Ok(VariantKey::Identifier {
            name: by.copy(alloc, name)?,
        }),
        VariantKey::NumberLiteral { value } => Ok(VariantKey::NumberLiteral {
            value: by.copy(alloc, value)?,
        }),
    }
}

/// The name of a reference's attribute, where it has one.
pub(crate) fn attribute_name<X, Y: Drop, C: CopyTexts<X, Y>>(
    by: &C,
    alloc: Global,
    id: &Option<Identifier<X>>,
) -> Result<Option<Identifier<Y>>, AllocError>
    requires { option_every (C.can by.now) (option_map (identifier_view (λ x. x)) id.now) }
    ensures { IfOk result (λ copy. option_map (identifier_view C.made) copy
        ≡ option_map (identifier_view (C.source by.now)) id.now) }
{
    match id {
        None => Ok(None),
        Some(id) => Ok(Some(identifier(by, alloc, id)?)),
    }
}

pub(crate) fn comment<X, Y: Drop, C: CopyTexts<X, Y>>(
    by: &C,
    alloc: Global,
    comment: &Comment<X>,
) -> Result<Comment<Y>, AllocError>
    requires each { list_every (C.can by.now) (comment_view (λ x. x) comment.now) }
    ensures { IfOk result (λ copy. comment_view C.made copy ≡ comment_view (C.source by.now) comment.now) }
{
    let mut content = list_for(alloc, &comment.content);
    for line in &comment.content {
        content.push(by.copy(alloc, line)?)?;
    }
    Ok(Comment { content })
}
