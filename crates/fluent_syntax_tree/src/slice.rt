//! Texts that a tree may hold.
ghost use Rattle.std.specs.Prelude.{◌≡◌, ℕ, ◌≤◌, ◌↔◌, List, length, string_bytes, slice_range, IsTrue, IsOk, IfOk};
ghost use Rattle.std.specs.Prelude.{slice_index, ◌<◌};
ghost use Rattle.std.specs.Str.{IsCharBoundary};
ghost use Rattle.fluent_syntax_tree.specs.Text.{trimmed, trimmed_len};
ghost use Rattle.std.specs.Bool.{Decides};
ghost use Rattle.std.specs.Cmp.Lexicographic.{bytes_decides};

use crate::trimming::trimmed_len;
use std::alloc::{AllocError, Global};
use std::ops::Range;

/// A text that a tree may hold. What it means is its text, and equality is equality of texts.
pub trait Slice<'s>: PartialEq + Drop {
    /// The bytes of the text.
    ghost text: { Self → List ℕ };

    /// The text.
    fn as_str(&self) -> &str
        ensures { result.now ≡ text self.now };

    /// The text of a range of bytes, which has to be in order and to end at character boundaries;
    /// `AllocError` where there is no memory for it.
    fn slice(&self, alloc: Global, range: Range<usize>) -> Result<Self, AllocError>
        requires ordered { range.start ≤ range.end }
        requires starts { IsCharBoundary (text self.now) range.start }
        requires ends { IsCharBoundary (text self.now) range.end }
        ensures part { IfOk result (λ part. text part ≡ slice_range (text self.now) range.start range.end) };

    /// Removes the longest ending of spaces, CRs and LFs. Takes no memory.
    fn trim(&mut self)
        ensures { text self.new ≡ trimmed (text self.old) };

    /// An equal text, or `AllocError` where there is no memory for it.
    fn try_clone(&self, alloc: Global) -> Result<Self, AllocError>
        ensures equal { IfOk result (λ copy. text copy ≡ text self.now) };

    ghost eq_by_text: { (x y : Self) → Decides (Self.eq x y) (text x ≡ text y) };
}

/// Where the text ends without its longest ending of spaces, CRs and LFs.
fn trimmed_end(text: &str) -> usize
    ensures end { result ≡ trimmed_len text.now }
    ensures boundary { IsCharBoundary text.now result }
{
    trimmed_len(text.as_bytes())
}

impl<'s> Slice<'s> for &'s str {
    ghost text = { λ x. x.now };

    ghost eq_by_text = { λ x y. bytes_decides _ _ };

    fn as_str(&self) -> &str {
        let text: &str = *self;
        text
    }

    fn slice(&self, _alloc: Global, range: Range<usize>) -> Result<&'s str, AllocError>
        requires ordered { range.start ≤ range.end }
        requires starts { IsCharBoundary self.now.now range.start }
        requires ends { IsCharBoundary self.now.now range.end }
        ensures part { IfOk result (λ part. part.now ≡ slice_range self.now.now range.start range.end) }
        ensures never_refused { IsOk result }
    {
        let text: &'s str = *self;
        Ok(&text[range.start..range.end])
    }

    fn trim(&mut self) {
        let text: &'s str = *self;
        *self = &text[..trimmed_end(text)];
    }

    fn try_clone(&self, _alloc: Global) -> Result<&'s str, AllocError>
        ensures equal { IfOk result (λ copy. copy.now ≡ self.now.now) }
        ensures never_refused { IsOk result }
    {
        Ok(*self)
    }
}

impl Slice<'_> for String {
    ghost text = { λ x. string_bytes x };

    ghost eq_by_text = { λ x y. bytes_decides (string_bytes x) (string_bytes y) };

    fn as_str(&self) -> &str {
        let text: &String = self;
        text.as_str()
    }

    fn slice(&self, alloc: Global, range: Range<usize>) -> Result<String, AllocError> {
        String::from_str(alloc, &String::as_str(self)[range.start..range.end])
    }

    fn trim(&mut self) {
        let end = trimmed_end(String::as_str(self));
        self.truncate(end);
    }

    fn try_clone(&self, alloc: Global) -> Result<String, AllocError> {
        String::from_str(alloc, String::as_str(self))
    }
}
