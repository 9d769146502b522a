//! How a file's bytes are replaced, so that whenever a crash comes the old ones or the new ones are there, each whole.
ghost use Rattle.std.specs.Prelude.{◌≡◌, ◌⊎◌, ◌++◌, [], ℕ, List, None, Some, IfOk, IfSome, OnErr, OnOk, string_bytes};
ghost use Rattle.ftl_files.specs.Files.{GoesOn, IsDurable, IsSynced, at_free_paths, filled, replaced};
ghost use Rattle.ftl_files.specs.Store.{AllUnchanged, Becomes, OthersUnchanged};

use crate::file_system::FileSystem;
use std::alloc::Global;
use std::io::{self, ErrorKind};
use std::path::Path;

/// How many names are tried for the other file: one is left where a run is killed before the rename.
const NAME_ATTEMPTS: u8 = 100;

/// Puts the text in the place of the bytes of the file at a path.
///
/// The text is written to another file, with the mode and the owner of the old one, which then takes the old one's
/// name in one step. At any failure before that step the other file is removed, and the old bytes remain. At a failure
/// after it the text is there, and a crash may still bring the old bytes back.
pub fn replace_file<F: FileSystem>(
    alloc: Global,
    system: &mut F,
    path: &str,
    text: &[u8],
) -> io::Result<()>
    // whatever a read gives or a crash leaves, at any moment of the call
    ensures any_moment { GoesOn (F.files system.old) (F.files system.new)
        (replaced (F.files system.old) path.now text.now) }
    ensures replaced { OnOk result (Becomes ((F.files system.old).bytes_at path.now)
        ((F.files system.new).bytes_at path.now) text.now) }
    ensures others { OnOk result ((other : List ℕ)
        → ((F.files system.new).bytes_at other ≡ (F.files system.old).bytes_at other) ⊎ (other ≡ path.now)) }
    ensures durable { OnOk result (IfSome ((F.files system.old).bytes_at path.now)
        (λ _. IsDurable (F.files system.new) path.now)) }
{
    let (temporary, file) = create_temporary(alloc, system, path)?;
    match fill_and_rename(system, file, temporary.as_str(), path, text) {
        Ok(()) => system.sync_name(path),
        Err(error) => {
            // the first failure is the one to report
            let _ = system.remove(temporary.as_str());
            Err(error)
        }
    }
}

/// A new file in the folder of the path, and its own path before it.
fn create_temporary<F: FileSystem>(
    alloc: Global,
    system: &mut F,
    path: &str,
) -> io::Result<(String, F::File)>
    ensures any_moment { GoesOn (F.files system.old) (F.files system.new) (at_free_paths (F.files system.old)) }
    ensures path { IfOk result (λ made. F.path_of made.1 ≡ string_bytes made.0) }
    ensures free { IfOk result (λ made. (F.files system.old).bytes_at (string_bytes made.0) ≡ None) }
    ensures empty { IfOk result (λ made. IfSome ((F.files system.old).bytes_at path.now)
        (λ _. (F.files system.new).bytes_at (string_bytes made.0) ≡ Some [])) }
    ensures others { IfOk result (λ made. (other : List ℕ)
        → ((F.files system.new).bytes_at other ≡ (F.files system.old).bytes_at other) ⊎ (other ≡ string_bytes made.0)) }
{
    let folder = match Path::new(path).parent() {
        Some(folder) => folder.as_str(),
        None => "",
    };
    for number in 0..NAME_ATTEMPTS {
        let temporary = format!(in alloc; "{folder}/.ftl-new-{number}")?;
        match system.create(temporary.as_str(), path) {
            Ok(file) => return Ok((temporary, file)),
            Err(error) if error.kind() == ErrorKind::AlreadyExists => (),
            Err(error) => return Err(error),
        }
    }
    Err(io::Error::from(ErrorKind::AlreadyExists))
}

/// Writes the text to the other file, and gives it the name.
fn fill_and_rename<F: FileSystem>(
    system: &mut F,
    mut file: F::File,
    temporary: &str,
    path: &str,
    text: &[u8],
) -> io::Result<()>
    requires { F.path_of file ≡ temporary.now }
    ensures any_moment { GoesOn (F.files system.old) (F.files system.new)
        (filled (F.files system.old) temporary.now path.now text.now) }
    ensures came { OnOk result (IfSome ((F.files system.old).bytes_at temporary.now)
        (λ bytes. (F.files system.new).bytes_at path.now ≡ Some (bytes ++ text.now))) }
    ensures synced { OnOk result (IfSome ((F.files system.old).bytes_at temporary.now)
        (λ _. IsSynced (F.files system.new) path.now)) }
    ensures gone { OnOk result ((F.files system.new).bytes_at temporary.now ≡ None) }
{
    system.write(&mut file, text)?;
    // the bytes are on the disk before the name leads to them
    system.sync(&mut file)?;
    system.rename(temporary, path)
}
