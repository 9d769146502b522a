//! Readers and writers that remember whether a call failed.

ghost use Rattle.std.specs.Prelude.{◌≡◌, ◌<◌, ◌≤◌, true, false, length, take, IfSome, IfNone, MatchOption};
ghost use Rattle.std.specs.Io.KnownBytes.{Appends, Consumes, IsAtEnd, Keeps};

use std::io::{Read, Write};

/// A reader or a writer, and whether one of its calls failed.
#[derive(Drop)]
pub struct Watched<T> {
    inner: T,
    failed: bool,
}

impl<T> Watched<T> {
    ghost use Rattle.ftl.specs.Watched.{inner_of, has_failed};

    /// One that has not failed.
    pub fn new(inner: T) -> Self
        ensures inner { inner_of result ≡ inner }
        ensures fresh { has_failed result ≡ false }
    {
        Watched {
            inner,
            failed: false,
        }
    }

    /// Whether a call failed: a read or a write answered None.
    pub fn failed(&self) -> bool
        ensures { result ≡ has_failed self.now }
    {
        let Watched { inner: _, failed } = self;
        *failed
    }

    /// The reader or writer itself.
    pub fn into_inner(self) -> T
        ensures { result ≡ inner_of self }
    {
        let Watched { inner, failed: _ } = self;
        inner
    }
}

impl<R: Read> Watched<R> {
    ghost use Rattle.ftl.specs.Watched.{inner_of, has_failed};

    /// One read: the number of bytes that it gave, which is 0 at the end of the input, or None
    /// where it failed.
    pub fn read(&mut self, buf: &mut [u8]) -> Option<usize>
        ensures within { IfSome result (λ n. n ≤ length buf.new) }
        ensures bytes { IfSome result (λ n.
            Consumes (R.remaining (inner_of self.old)) (R.remaining (inner_of self.new)) (take n buf.new)) }
        ensures end { IfSome result (λ n. n ≡ 0 → 0 < length buf.old → IsAtEnd (R.remaining (inner_of self.new))) }
        ensures none { IfNone result (Keeps (R.remaining (inner_of self.old)) (R.remaining (inner_of self.new))) }
        ensures failed { MatchOption result (has_failed self.new ≡ true)
            (λ _. has_failed self.new ≡ has_failed self.old) }
    {
        match self.inner.read(buf) {
            Ok(count) => Some(count),
            Err(_) => {
                self.failed = true;
                None
            }
        }
    }
}

impl<W: Write> Watched<W> {
    ghost use Rattle.ftl.specs.Watched.{inner_of, has_failed};

    /// One write: the number of bytes that it took, or None where it failed or took no byte of a
    /// piece that has one.
    pub fn write(&mut self, piece: &[u8]) -> Option<usize>
        ensures within { IfSome result (λ n. n ≤ length piece.now) }
        ensures progress { IfSome result (λ n. 0 < length piece.now → 0 < n) }
        ensures bytes { IfSome result (λ n.
            Appends (W.contents (inner_of self.old)) (W.contents (inner_of self.new)) (take n piece.now)) }
        ensures none { IfNone result (Keeps (W.contents (inner_of self.old)) (W.contents (inner_of self.new))) }
        ensures failed { MatchOption result (has_failed self.new ≡ true)
            (λ _. has_failed self.new ≡ has_failed self.old) }
    {
        match self.inner.write(piece) {
            Ok(count) if count > 0 || piece.is_empty() => Some(count),
            _ => {
                self.failed = true;
                None
            }
        }
    }
}
