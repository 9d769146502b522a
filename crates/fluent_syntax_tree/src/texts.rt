//! The texts of a tree, as recursions over trees take them.
//!
//! No recursion under a bound that names a lifetime is proved, as `Slice<'s>` does. So a recursion is over a way to
//! read or to copy texts, and the call that begins it names the way: `BySlice<'s>`, or one of its own.
ghost use Rattle.std.specs.Prelude.{◌≡◌, ℕ, List, IfOk};

use crate::slice::Slice;
use std::alloc::{AllocError, Global};
use std::marker::PhantomData;

/// A way to read a text of type `X`.
pub trait ReadTexts<X> {
    /// Its bytes.
    ghost text: { X → List ℕ };

    /// The text.
    fn as_str(value: &X) -> &str
        ensures { result.now ≡ text value.now };
}

/// A way to make a text of type `Y` of one of type `X`.
pub trait CopyTexts<X, Y> {
    /// The texts that it may be asked for.
    ghost can: { Self → X → Type 0 };

    /// The bytes that a text represents.
    ghost source: { Self → X → List ℕ };

    /// The bytes of a text that was made.
    ghost made: { Y → List ℕ };

    /// Answers the text that `text` represents, or `AllocError` where there is no memory for it.
    fn copy(&self, alloc: Global, text: &X) -> Result<Y, AllocError>
        requires { can self.now text.now }
        ensures { IfOk result (λ copy. made copy ≡ source self.now text.now) };
}

/// Each text as its type's `Slice<'s>` reads and copies it.
#[derive(Drop)]
pub struct BySlice<'s>(PhantomData<&'s ()>);

impl<'s> BySlice<'s> {
    pub fn new() -> BySlice<'s> {
        BySlice(PhantomData)
    }
}

impl<'s, S: Slice<'s>> ReadTexts<S> for BySlice<'s> {
    ghost text = { λ x. S.text x };

    fn as_str(value: &S) -> &str {
        value.as_str()
    }
}

impl<'s, S: Slice<'s>> CopyTexts<S, S> for BySlice<'s> {
    ghost can = { λ _ _. Unit {0} };

    ghost source = { λ _ x. S.text x };

    ghost made = { λ x. S.text x };

    fn copy(&self, alloc: Global, text: &S) -> Result<S, AllocError> {
        text.try_clone(alloc)
    }
}
