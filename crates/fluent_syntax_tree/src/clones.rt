//! Equal copies of trees, in place of `Clone`: a copy takes memory.
ghost use Rattle.std.specs.Prelude.{◌≡◌, IfOk};
ghost use Rattle.fluent_syntax_tree.specs.View.{resource_view, entry_view, message_view, term_view, pattern_view};
ghost use Rattle.fluent_syntax_tree.specs.View.{element_view, attribute_view, identifier_view, variant_view, key_view};
ghost use Rattle.fluent_syntax_tree.specs.View.{comment_view, arguments_view, named_view, inline_view, expression_view};

use crate::ast::*;
use crate::copied::{entries, names, patterns};
use crate::slice::Slice;
use crate::texts::BySlice;
use std::alloc::{AllocError, Global};

impl<S> Resource<S> {
    /// An equal copy, or `AllocError` where there is no memory for it.
    pub fn try_clone<'s>(&self, alloc: Global) -> Result<Resource<S>, AllocError>
    where
        S: Slice<'s>,
        ensures { IfOk result (λ copy. resource_view S.text copy ≡ resource_view S.text self.now) }
    {
        let by: BySlice<'s> = BySlice::new();
        entries::resource(&by, alloc, self)
    }
}

impl<S> Entry<S> {
    /// An equal copy, or `AllocError` where there is no memory for it.
    pub fn try_clone<'s>(&self, alloc: Global) -> Result<Entry<S>, AllocError>
    where
        S: Slice<'s>,
        ensures { IfOk result (λ copy. entry_view S.text copy ≡ entry_view S.text self.now) }
    {
        let by: BySlice<'s> = BySlice::new();
        entries::entry(&by, alloc, self)
    }
}

impl<S> Message<S> {
    /// An equal copy, or `AllocError` where there is no memory for it.
    pub fn try_clone<'s>(&self, alloc: Global) -> Result<Message<S>, AllocError>
    where
        S: Slice<'s>,
        ensures { IfOk result (λ copy. message_view S.text copy ≡ message_view S.text self.now) }
    {
        let by: BySlice<'s> = BySlice::new();
        entries::message(&by, alloc, self)
    }
}

impl<S> Term<S> {
    /// An equal copy, or `AllocError` where there is no memory for it.
    pub fn try_clone<'s>(&self, alloc: Global) -> Result<Term<S>, AllocError>
    where
        S: Slice<'s>,
        ensures { IfOk result (λ copy. term_view S.text copy ≡ term_view S.text self.now) }
    {
        let by: BySlice<'s> = BySlice::new();
        entries::term(&by, alloc, self)
    }
}

impl<S> Pattern<S> {
    /// An equal copy, or `AllocError` where there is no memory for it.
    pub fn try_clone<'s>(&self, alloc: Global) -> Result<Pattern<S>, AllocError>
    where
        S: Slice<'s>,
        ensures { IfOk result (λ copy. pattern_view S.text copy ≡ pattern_view S.text self.now) }
    {
        let by: BySlice<'s> = BySlice::new();
        patterns::pattern(&by, alloc, self)
    }
}

impl<S> PatternElement<S> {
    /// An equal copy, or `AllocError` where there is no memory for it.
    pub fn try_clone<'s>(&self, alloc: Global) -> Result<PatternElement<S>, AllocError>
    where
        S: Slice<'s>,
        ensures { IfOk result (λ copy. element_view S.text copy ≡ element_view S.text self.now) }
    {
        let by: BySlice<'s> = BySlice::new();
        patterns::element(&by, alloc, self)
    }
}

impl<S> Attribute<S> {
    /// An equal copy, or `AllocError` where there is no memory for it.
    pub fn try_clone<'s>(&self, alloc: Global) -> Result<Attribute<S>, AllocError>
    where
        S: Slice<'s>,
        ensures { IfOk result (λ copy. attribute_view S.text copy ≡ attribute_view S.text self.now) }
    {
        let by: BySlice<'s> = BySlice::new();
        entries::attribute(&by, alloc, self)
    }
}

impl<S> Identifier<S> {
    /// An equal copy, or `AllocError` where there is no memory for it.
    pub fn try_clone<'s>(&self, alloc: Global) -> Result<Identifier<S>, AllocError>
    where
        S: Slice<'s>,
        ensures { IfOk result (λ copy. identifier_view S.text copy ≡ identifier_view S.text self.now) }
    {
        let by: BySlice<'s> = BySlice::new();
        names::identifier(&by, alloc, self)
    }
}

impl<S> Variant<S> {
    /// An equal copy, or `AllocError` where there is no memory for it.
    pub fn try_clone<'s>(&self, alloc: Global) -> Result<Variant<S>, AllocError>
    where
        S: Slice<'s>,
        ensures { IfOk result (λ copy. variant_view S.text copy ≡ variant_view S.text self.now) }
    {
        let by: BySlice<'s> = BySlice::new();
        patterns::variant(&by, alloc, self)
    }
}

impl<S> VariantKey<S> {
    /// An equal copy, or `AllocError` where there is no memory for it.
    pub fn try_clone<'s>(&self, alloc: Global) -> Result<VariantKey<S>, AllocError>
    where
        S: Slice<'s>,
        ensures { IfOk result (λ copy. key_view S.text copy ≡ key_view S.text self.now) }
    {
        let by: BySlice<'s> = BySlice::new();
        names::key(&by, alloc, self)
    }
}

impl<S> Comment<S> {
    /// An equal copy, or `AllocError` where there is no memory for it.
    pub fn try_clone<'s>(&self, alloc: Global) -> Result<Comment<S>, AllocError>
    where
        S: Slice<'s>,
        ensures { IfOk result (λ copy. comment_view S.text copy ≡ comment_view S.text self.now) }
    {
        let by: BySlice<'s> = BySlice::new();
        names::comment(&by, alloc, self)
    }
}

impl<S> CallArguments<S> {
    /// An equal copy, or `AllocError` where there is no memory for it.
    pub fn try_clone<'s>(&self, alloc: Global) -> Result<CallArguments<S>, AllocError>
    where
        S: Slice<'s>,
        ensures { IfOk result (λ copy. arguments_view S.text copy ≡ arguments_view S.text self.now) }
    {
        let by: BySlice<'s> = BySlice::new();
        patterns::arguments(&by, alloc, self)
    }
}

impl<S> NamedArgument<S> {
    /// An equal copy, or `AllocError` where there is no memory for it.
    pub fn try_clone<'s>(&self, alloc: Global) -> Result<NamedArgument<S>, AllocError>
    where
        S: Slice<'s>,
        ensures { IfOk result (λ copy. named_view S.text copy ≡ named_view S.text self.now) }
    {
        let by: BySlice<'s> = BySlice::new();
        patterns::named_argument(&by, alloc, self)
    }
}

impl<S> InlineExpression<S> {
    /// An equal copy, or `AllocError` where there is no memory for it.
    pub fn try_clone<'s>(&self, alloc: Global) -> Result<InlineExpression<S>, AllocError>
    where
        S: Slice<'s>,
        ensures { IfOk result (λ copy. inline_view S.text copy ≡ inline_view S.text self.now) }
    {
        let by: BySlice<'s> = BySlice::new();
        patterns::inline(&by, alloc, self)
    }
}

impl<S> Expression<S> {
    /// An equal copy, or `AllocError` where there is no memory for it.
    pub fn try_clone<'s>(&self, alloc: Global) -> Result<Expression<S>, AllocError>
    where
        S: Slice<'s>,
        ensures { IfOk result (λ copy. expression_view S.text copy ≡ expression_view S.text self.now) }
    {
        let by: BySlice<'s> = BySlice::new();
        patterns::expression(&by, alloc, self)
    }
}
