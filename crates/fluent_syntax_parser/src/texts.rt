//! How a reader makes the texts of the tree.
ghost use Rattle.std.specs.Prelude.{◌≡◌, ℕ, List, IfOk};
ghost use Rattle.fluent_syntax_tree.specs.Spans.{bytes_at};
ghost use Rattle.fluent_syntax_tree.specs.declared.spans.Span.{Span};

use fluent_syntax_tree::slice::Slice;
use fluent_syntax_tree::spans::Span;
use std::alloc::{AllocError, Global};
use std::marker::PhantomData;

/// A way to make a text of each span of a source. It names no lifetime, so that readers that nest can be generic in it.
pub trait MakeTexts {
    type Text: Drop;

    /// What a text represents.
    ghost Seen: { Type 0 };

    /// What the text of a span represents.
    ghost source: { Self → Span → Seen };

    ghost made: { Self.Text → Seen };

    /// The text of a span, or `AllocError` where there is no memory for it.
    fn make(&self, alloc: Global, span: Span) -> Result<Self::Text, AllocError>
        ensures { IfOk result (λ text. made text ≡ source self.now span) };
}

/// Each span as it is.
#[derive(Clone, Copy, Drop)]
pub struct AsSpans;

impl MakeTexts for AsSpans {
    type Text = Span;

    ghost Seen = { Span };

    ghost source = { λ _ s. s };

    ghost made = { λ s. s };

    fn make(&self, _alloc: Global, span: Span) -> Result<Span, AllocError> {
        Ok(span)
    }
}

/// The slice of a source at each span.
#[derive(Drop)]
pub struct Slices<'a, 's, S>(&'a S, PhantomData<&'s ()>);

impl<'a, 's, S: Slice<'s>> Slices<'a, 's, S> {
    pub fn new(source: &'a S) -> Self
        ensures { result.0.now ≡ source.now }
    {
        Slices(source, PhantomData)
    }
}

impl<'a, 's, S: Slice<'s>> MakeTexts for Slices<'a, 's, S> {
    type Text = S;

    ghost Seen = { List ℕ };

    ghost source = { λ slices span. bytes_at (S.text slices.0.now) span };

    ghost made = { λ text. S.text text };

    /// `AllocError` too where the span is no part of the source, so that no reader has to show that its spans are.
    fn make(&self, alloc: Global, span: Span) -> Result<S, AllocError> {
        let text = self.0.as_str();
        let is_part = span.start <= span.end
            && text.is_char_boundary(span.start)
            && text.is_char_boundary(span.end);
        if !is_part {
            return Err(AllocError);
        }
        self.0.slice(alloc, span.start..span.end)
    }
}
