//! Folders with files, as an editor's session sees them.
ghost use Rattle.std.specs.Prelude.{◌≡◌, ◌≤◌, ℕ, List, Option, None, IfOk, IfSome, length};

use crate::excluded::Excluded;
use crate::listing::Listing;
use std::alloc::{AllocError, Global};

/// Folders with files, which are listed and read within bounds.
///
/// Of real files no clause can say what they hold, since others write them: there `bytes_at` is `None`, and the clause
/// claims nothing of them. Over files in memory it says all.
pub trait Folders {
    /// The bytes of the file at a path, where they are known.
    ghost bytes_at: { Self → List ℕ → Option (List ℕ) } = { λ _ _. None };

    /// The files below the folder whose names end in `.ftl`, without what is excluded. No symlink is followed.
    /// `AllocError` where a growth was refused.
    fn files_below(
        &self,
        alloc: Global,
        folder: &str,
        excluded: &Excluded,
    ) -> Result<Listing, AllocError>;

    /// The bytes of the file at the path. None where it can't be read, or has more bytes than that. `AllocError` where
    /// a growth was refused.
    fn read(&self, alloc: Global, path: &str, limit: usize) -> Result<Option<Vec<u8>>, AllocError>
        ensures read { IfOk result (λ found. IfSome found (λ read.
            IfSome (bytes_at self.now path.now) (λ bytes. read.items ≡ bytes))) }
        ensures limit { IfOk result (λ found. IfSome found (λ read. length read.items ≤ limit)) };

    /// Whether there is something at the path, which may be no file that can be read.
    fn has(&self, path: &str) -> bool;
}
