//! Trees of texts from trees of spans.
ghost use Rattle.std.specs.Prelude.{◌≡◌, [], IsOk, IfOk};
ghost use Rattle.fluent_syntax_tree.specs.Entry.{body_map, entry_map};
ghost use Rattle.fluent_syntax_tree.specs.Every.{body_every, entry_every};
ghost use Rattle.fluent_syntax_tree.specs.Spans.{IsTextRange, bytes_at};
ghost use Rattle.fluent_syntax_tree.specs.View.{entry_view, resource_view};

use fluent_syntax_tree::ast::{Entry, Resource};
use fluent_syntax_tree::copied::entries;
use fluent_syntax_tree::slice::Slice;
use fluent_syntax_tree::spans::Span;
use fluent_syntax_tree::texts::CopyTexts;
use std::alloc::{AllocError, Global};
use std::marker::PhantomData;

/// The slice of a source at each span.
#[derive(Drop)]
struct Parts<'a, 's, S>(&'a S, PhantomData<&'s ()>);

impl<'a, 's, S: Slice<'s>> CopyTexts<Span, S> for Parts<'a, 's, S> {
    ghost can = { λ parts span. IsTextRange (S.text parts.0.now) span };

    ghost source = { λ parts span. bytes_at (S.text parts.0.now) span };

    ghost made = { λ text. S.text text };

    fn copy(&self, alloc: Global, span: &Span) -> Result<S, AllocError> {
        self.0.slice(alloc, span.start..span.end)
    }
}

/// The entry with the source's text at each span in its place, or `AllocError` where there is no memory for it. Each
/// span has to be an ordered range within the source, at character boundaries.
pub fn resolve_entry<'s, S: Slice<'s>>(
    alloc: Global,
    source: &S,
    entry: &Entry<Span>,
) -> Result<Entry<S>, AllocError>
    requires parts { entry_every (IsTextRange (S.text source.now)) (entry_view (λ s. s) entry.now) }
    ensures texts { IfOk result (λ made. entry_view S.text made
        ≡ entry_map (bytes_at (S.text source.now)) (entry_view (λ s. s) entry.now)) }
{
    let parts: Parts<'_, 's, S> = Parts(source, PhantomData);
    entries::entry(&parts, alloc, entry)
}

/// The tree with the source's text at each span in its place, or `AllocError` where there is no
/// memory for it. Each span has to be an ordered range within the source, at character boundaries.
pub fn resolve<'s, S: Slice<'s>>(
    alloc: Global,
    source: &S,
    tree: &Resource<Span>,
) -> Result<Resource<S>, AllocError>
    requires parts { body_every (IsTextRange (S.text source.now)) (resource_view (λ s. s) tree.now) }
    ensures texts { IfOk result (λ resource. resource_view S.text resource
        ≡ body_map (bytes_at (S.text source.now)) (resource_view (λ s. s) tree.now)) }
    ensures empty { tree.now.body.items ≡ [] → IsOk result }
{
    let parts: Parts<'_, 's, S> = Parts(source, PhantomData);
    entries::resource(&parts, alloc, tree)
}
