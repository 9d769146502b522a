//! What a file is replaced by: new files, syncs and renames, and a crash that may come at any moment.
ghost use Rattle.std.specs.Prelude.{◌≡◌, ◌++◌, ◌≤◌, [], ℕ, List, Option, None, Some, IfOk, IfSome, OnErr, OnOk};
ghost use Rattle.ftl_files.specs.Files.{Files, GoesOn, IsNamed, IsSynced, at_free_path, at_path, nowhere, renamed};
ghost use Rattle.ftl_files.specs.Store.{AllUnchanged};

use std::io;

/// A file system, as far as a file is replaced by it.
///
/// A crash keeps any part of what was not synced: what was written to a file counts once the file was synced, and a
/// name once its folder was. A rename is one step: after a crash the name leads to the one file or to the other.
pub trait FileSystem {
    /// A file that is being written.
    type File: Drop;

    /// What there is at each path, and what a crash may leave there, at this moment and since earlier ones.
    ghost files: { Self → Files };

    /// The path that a file was made at.
    ghost path_of: { Self.File → List ℕ };

    /// This moment is one of those since an earlier one.
    ghost counts_now: { (system : Self) (t : ℕ) (path : List ℕ) (left : Option (List ℕ)) → t ≤ (files system).moment
        → (files system).may_leave path left → (files system).left_since t path left };

    /// Since this moment there is no other.
    ghost only_now: { (system : Self) (path : List ℕ) (left : Option (List ℕ))
        → (files system).left_since (files system).moment path left → (files system).may_leave path left };

    /// The bytes of the file.
    fn read_file(&mut self, path: &str) -> io::Result<Vec<u8>>
        ensures read { IfOk result (λ read. IfSome ((files self.old).bytes_at path.now) (λ bytes. read.items ≡ bytes)) }
        ensures same { GoesOn (files self.old) (files self.new) nowhere };

    /// Makes an empty file where there is none, with the mode and the owner of a file like which it is to be. It
    /// refuses where that one is no regular file, may not be written, or has other names.
    fn create(&mut self, path: &str, like: &str) -> io::Result<Self::File>
        ensures path { IfOk result (λ file. path_of file ≡ path.now) }
        ensures free { OnOk result ((files self.old).bytes_at path.now ≡ None) }
        ensures made { OnOk result (IfSome ((files self.old).bytes_at like.now)
            (λ _. (files self.new).bytes_at path.now ≡ Some [])) }
        ensures changes { GoesOn (files self.old) (files self.new) (at_free_path (files self.old) path.now) }
        ensures failed { OnErr result (AllUnchanged (files self.old).bytes_at (files self.new).bytes_at) };

    /// Writes the bytes after those that the file has.
    fn write(&mut self, file: &mut Self::File, bytes: &[u8]) -> io::Result<()>
        ensures path { path_of file.new ≡ path_of file.old }
        ensures written { OnOk result (IfSome ((files self.old).bytes_at (path_of file.old))
            (λ had. (files self.new).bytes_at (path_of file.old) ≡ Some (had ++ bytes.now))) }
        ensures changes { GoesOn (files self.old) (files self.new) (at_path (path_of file.old)) };

    /// Brings the file's bytes to the disk: from then on a crash leaves them in it.
    fn sync(&mut self, file: &mut Self::File) -> io::Result<()>
        ensures path { path_of file.new ≡ path_of file.old }
        ensures synced { OnOk result (IsSynced (files self.new) (path_of file.old)) }
        ensures same { GoesOn (files self.old) (files self.new) nowhere };

    /// Gives the file at a path another path, in the place of what is there.
    fn rename(&mut self, from: &str, to: &str) -> io::Result<()>
        ensures came { OnOk result (IfSome ((files self.old).bytes_at from.now)
            (λ bytes. (files self.new).bytes_at to.now ≡ Some bytes)) }
        ensures hold { OnOk result ((left : List ℕ) → (files self.new).may_hold to.now left
            → (files self.old).may_hold from.now left) }
        ensures gone { OnOk result ((files self.new).bytes_at from.now ≡ None) }
        ensures changes { GoesOn (files self.old) (files self.new) (renamed (files self.old) from.now to.now) };

    /// Brings the name of the file at the path to the disk: from then on a crash leaves it there.
    fn sync_name(&mut self, path: &str) -> io::Result<()>
        ensures named { OnOk result (IsNamed (files self.new) path.now) }
        ensures same { GoesOn (files self.old) (files self.new) nowhere };

    /// Removes the file at the path.
    fn remove(&mut self, path: &str) -> io::Result<()>
        ensures gone { OnOk result ((files self.new).bytes_at path.now ≡ None) }
        ensures changes { GoesOn (files self.old) (files self.new) (at_path path.now) };
}
