//! What the readers are given that make texts.
ghost use Rattle.std.specs.Prelude.{◌≡◌, ◌<◌, ◌^◌, length, option_map, IfOk};
ghost use Rattle.fluent_syntax_tree.specs.Tree.{key_map, option_texts};
ghost use Rattle.fluent_syntax_tree.specs.View.{identifier_view, key_view};

use crate::source::Source;
use crate::texts::MakeTexts;
use fluent_syntax_tree::ast::{Identifier, VariantKey};
use fluent_syntax_tree::edition::Edition;
use fluent_syntax_tree::spans::Span;
use std::alloc::{AllocError, Global};

/// A text, the edition by which it is read, and the way in which its tree's texts are made.
#[derive(Drop)]
pub(crate) struct Reader<'s, 't, M> {
    pub(crate) source: Source<'s>,
    pub(crate) alloc: Global,
    pub(crate) edition: Edition,
    pub(crate) texts: &'t M,
    ghost small: { length source.bytes.now < 2 ^ 63 },
}

impl<'s, 't, M: MakeTexts> Reader<'s, 't, M> {
    pub(crate) fn text(&self, span: Span) -> Result<M::Text, AllocError>
        ensures { IfOk result (λ text. M.made text ≡ M.source self.now.texts.now span) }
    {
        self.texts.make(self.alloc, span)
    }

    /// The identifier that a name is.
    pub(crate) fn identifier(&self, name: Span) -> Result<Identifier<M::Text>, AllocError>
        ensures { IfOk result (λ id. M.made id.name ≡ M.source self.now.texts.now name) }
    {
        let name = self.text(name)?;
        Ok(Identifier { name })
    }

    /// The identifier that a name is, if there is one.
    pub(crate) fn attribute(
        &self,
        attribute: Option<Identifier<Span>>,
    ) -> Result<Option<Identifier<M::Text>>, AllocError>
        ensures { let f = M.source self.now.texts.now in IfOk result (λ id. option_map (identifier_view M.made) id
            ≡ option_texts f (option_map (identifier_view (λ s. s)) attribute)) }
    {
        match attribute {
            Some(id) => {
                let id = self.identifier(id.name)?;
                Ok(Some(id))
            }
            None => Ok(None),
        }
    }

    pub(crate) fn key(&self, key: VariantKey<Span>) -> Result<VariantKey<M::Text>, AllocError>
        ensures { let f = M.source self.now.texts.now in IfOk result (λ made. key_view M.made made
            ≡ key_map f (key_view (λ s. s) key)) }
    {
        match key {
            VariantKey::Identifier { name } => {
                let name = self.text(name)?;
                Ok(VariantKey::Identifier { name })
            }
            VariantKey::NumberLiteral { value } => {
                let value = self.text(value)?;
                Ok(VariantKey::NumberLiteral { value })
            }
        }
    }
}
