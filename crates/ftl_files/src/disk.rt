//! The files of the system.
ghost use Rattle.std.specs.Prelude.{string_bytes};
ghost use Rattle.ftl_files.specs.Files.{unknown};

use crate::attributes::{keep_attributes, not_regular, replaceable_metadata};
use crate::excluded::Excluded;
use crate::file_system::FileSystem;
use crate::folders::Folders;
use crate::listing::{Listing, list_within_limits};
use crate::replacing::replace_file;
use crate::store::Store;
use std::alloc::{AllocError, Global};
use std::fs::{OpenFile, OpenOptions};
use std::io::{ErrorKind, Write};
use std::os::unix::fs::OpenOptionsExt;
use std::path::Path;
use std::rt::Files;
use std::{fs, io};

/// The files that a runtime reaches. What they hold is known to no clause.
#[derive(Drop)]
pub struct Disk<'r, R> {
    rt: &'r R,
    /// Whether a store reads no others than regular files.
    is_regular: bool,
}

impl<'r, R> Disk<'r, R> {
    /// The files that this runtime reaches.
    pub fn new(rt: &'r R) -> Self {
        Disk {
            rt,
            is_regular: false,
        }
    }

    /// The same, of which a store reads regular files alone: these can be replaced, and the read of another one, as of
    /// a FIFO, may never end.
    pub fn of_regular_files(rt: &'r R) -> Self {
        Disk {
            rt,
            is_regular: true,
        }
    }
}

/// A file that is being written, and the path that it was made at.
#[derive(Drop)]
pub struct DiskFile<F> {
    file: F,
    path: String,
}

impl<R: Files + AllocGlobal> FileSystem for Disk<'_, R> {
    type File = DiskFile<R::File>;

    ghost files = { λ _. unknown };

    ghost path_of = { λ file. string_bytes file.path };

    ghost counts_now = { λ system t path left le now. now };

    ghost only_now = { λ system path left since. since };

    fn read_file(&mut self, path: &str) -> io::Result<Vec<u8>> {
        fs::read(self.rt, path)
    }

    /// Nobody else reads the file before it has the mode of the old one. Where it can't be given the mode and the
    /// owner, it is removed.
    fn create(&mut self, path: &str, like: &str) -> io::Result<DiskFile<R::File>> {
        let old = replaceable_metadata(self.rt, like)?;
        let name = String::from_str(self.rt.alloc(), path)?;
        let file = OpenOptions::new()
            .write(true)
            .create_new(true)
            .mode(0o600)
            .open(self.rt, path)?;
        match keep_attributes(self.rt, &file, path, &old) {
            Ok(()) => Ok(DiskFile { file, path: name }),
            Err(error) => {
                // the first failure is the one to report
                let _ = fs::remove_file(self.rt, path);
                Err(error)
            }
        }
    }

    fn write(&mut self, file: &mut DiskFile<R::File>, bytes: &[u8]) -> io::Result<()> {
        file.file.write_all(bytes)
    }

    fn sync(&mut self, file: &mut DiskFile<R::File>) -> io::Result<()> {
        file.file.sync_all()
    }

    fn rename(&mut self, from: &str, to: &str) -> io::Result<()> {
        fs::rename(self.rt, from, to)
    }

    /// Syncs the folder that the path is in. A system that syncs no folders is taken at its word.
    fn sync_name(&mut self, path: &str) -> io::Result<()> {
        let folder = match Path::new(path).parent() {
            Some(folder) => folder.as_str(),
            None => "/",
        };
        let folder = OpenOptions::new().read(true).open(self.rt, folder)?;
        match folder.sync_all() {
            Err(error) if error.kind() == ErrorKind::InvalidInput => Ok(()),
            synced => synced,
        }
    }

    fn remove(&mut self, path: &str) -> io::Result<()> {
        fs::remove_file(self.rt, path)
    }
}

impl<R: Files + AllocGlobal> Store for Disk<'_, R> {
    fn read(&mut self, path: &str) -> io::Result<Vec<u8>> {
        if self.is_regular && !fs::metadata(self.rt, path)?.is_file() {
            return Err(not_regular());
        }
        fs::read(self.rt, path)
    }

    /// Where the path is a symlink, it stays one: what it leads to is replaced.
    fn replace(&mut self, path: &str, text: &[u8]) -> io::Result<()> {
        let target = fs::canonicalize(self.rt, path)?.into_string();
        replace_file(self.rt.alloc(), self, target.as_str(), text)
    }
}

impl<R: Files + AllocGlobal + Clone + Drop> Folders for Disk<'_, R> {
    /// What comes after `FOLDERS_LIMIT` folders or `FILES_LIMIT` files is left out.
    fn files_below(
        &self,
        _alloc: Global,
        folder: &str,
        excluded: &Excluded,
    ) -> Result<Listing, AllocError> {
        let listing = list_within_limits(self.rt, folder, excluded)?;
        for (_, error) in &listing.faults {
            if error.kind() == ErrorKind::OutOfMemory {
                return Err(AllocError);
            }
        }
        Ok(listing)
    }

    /// A file that grows meanwhile is not read on beyond the limit.
    fn read(
        &self,
        _alloc: Global,
        path: &str,
        limit: usize,
    ) -> Result<Option<Vec<u8>>, AllocError> {
        match read_short(self.rt, path, limit) {
            Ok(bytes) if bytes.len() <= limit => Ok(Some(bytes)),
            Err(error) if error.kind() == ErrorKind::OutOfMemory => Err(AllocError),
            _ => Ok(None),
        }
    }

    fn has(&self, path: &str) -> bool {
        fs::symlink_metadata(self.rt, path).is_ok()
    }
}

/// The bytes of a file of at most so many bytes.
///
/// `InvalidInput`: it is no regular file, or has more.
fn read_short<R: Files + AllocGlobal>(rt: &R, path: &str, limit: usize) -> io::Result<Vec<u8>> {
    let metadata = fs::symlink_metadata(rt, path)?;
    if !metadata.is_file() || metadata.len() > limit as u64 {
        return Err(io::Error::from(ErrorKind::InvalidInput));
    }
    fs::read(rt, path)
}
