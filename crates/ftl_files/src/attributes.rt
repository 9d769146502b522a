//! The mode and the owner of a file, which its replacement takes over.

use std::fs::{self, Metadata, OpenFile};
use std::io::{self, ErrorKind};
use std::os::unix::fs::MetadataExt;
use std::rt::Files;

/// What the system says of a file that may be replaced.
///
/// `InvalidInput`: it is no regular file, or has other names, which would keep the old bytes. `PermissionDenied`:
/// nobody may write it, which a rename would not ask.
pub(crate) fn replaceable_metadata<R: Files>(rt: &R, path: &str) -> io::Result<Metadata> {
    let file = fs::metadata(rt, path)?;
    if !file.is_file() {
        return Err(not_regular());
    }
    if file.nlink() > 1 {
        return Err(io::Error::new(ErrorKind::InvalidInput, "it has several hard links"));
    }
    if file.permissions().readonly() {
        return Err(io::Error::from(ErrorKind::PermissionDenied));
    }
    Ok(file)
}

/// Why what is no regular file is not replaced.
pub(crate) fn not_regular() -> io::Error {
    io::Error::new(ErrorKind::InvalidInput, "not a regular file")
}

/// Gives the new file at the path the mode and the owner of the old one.
///
/// `PermissionDenied`: it can't have them.
pub(crate) fn keep_attributes<R: Files>(
    rt: &R,
    file: &R::File,
    path: &str,
    old: &Metadata,
) -> io::Result<()> {
    if !has_owner(&file.metadata()?, old) {
        match rt.lchown(path, Some(old.uid()), Some(old.gid())) {
            Err(error) if error.kind() == ErrorKind::PermissionDenied => return Err(not_kept()),
            changed => changed?,
        }
    }
    file.set_permissions(old.permissions())?;
    let new = file.metadata()?;
    if has_owner(&new, old) && new.mode() == old.mode() {
        Ok(())
    } else {
        Err(not_kept())
    }
}

/// Why a file is not replaced whose replacement would be another's, or another group's.
fn not_kept() -> io::Error {
    io::Error::new(
        ErrorKind::PermissionDenied,
        "its mode, owner or group can't be kept",
    )
}

fn has_owner(file: &Metadata, old: &Metadata) -> bool {
    file.uid() == old.uid() && file.gid() == old.gid()
}
