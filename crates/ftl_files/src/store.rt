//! Files by path, as a run sees them.
ghost use Rattle.std.specs.Prelude.{◌≡◌, ◌⊎◌, ℕ, List, Option, None, IfErr, IfOk, IfSome, OnOk};
ghost use Rattle.std.specs.declared.io.Error.{Error};
ghost use Rattle.ftl_files.specs.Store.{AllUnchanged, Becomes, OthersUnchanged};

use std::io;

/// Files that are read and replaced as a whole.
///
/// Of real files no clause can say what they hold, since others write them too: there `bytes_at` is `None`, and the
/// clauses claim nothing. Over files in memory they say all.
pub trait Store {
    /// The bytes of the file at a path, where they are known.
    ghost bytes_at: { Self → List ℕ → Option (List ℕ) } = { λ _ _. None };

    /// Why a call may fail on a file of these bytes, where they are known. Who is generic over the store can show it
    /// of an error in no other way than by a call that failed.
    ghost fails: { Option (List ℕ) → Error → Type 0 } = { λ _ _. Unit {0} };

    /// The bytes of the file.
    fn read(&mut self, path: &str) -> io::Result<Vec<u8>>
        ensures read { IfOk result (λ read. IfSome (bytes_at self.old path.now) (λ bytes. read.items ≡ bytes)) }
        ensures failed { IfErr result (fails (bytes_at self.old path.now)) }
        ensures untouched { AllUnchanged (bytes_at self.old) (bytes_at self.new) };

    /// Puts the text in the place of the file's bytes. After a failure the old bytes are there, or the text is.
    fn replace(&mut self, path: &str, text: &[u8]) -> io::Result<()>
        ensures replaced { OnOk result (Becomes (bytes_at self.old path.now) (bytes_at self.new path.now) text.now) }
        ensures failed { IfErr result (fails (bytes_at self.old path.now)) }
        ensures whole { (bytes_at self.new path.now ≡ bytes_at self.old path.now)
            ⊎ Becomes (bytes_at self.old path.now) (bytes_at self.new path.now) text.now }
        ensures others { OthersUnchanged (bytes_at self.old) (bytes_at self.new) path.now };
}
