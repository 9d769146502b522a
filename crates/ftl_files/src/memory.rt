//! Files in memory. They show that the clauses of `FileSystem`, `Store` and `Folders` can be met, and serve tests.
ghost use Rattle.std.specs.Prelude.{◌≡◌, ◌≢◌, ◌∷◌, ℕ, [], List, None, Some, MatchOption, OnErr, OnOk, string_bytes};
ghost use Rattle.ftl_files.specs.Memory.{bytes_at, counts_now, fails, files_of, only_now};

use crate::excluded::Excluded;
use crate::file_system::FileSystem;
use crate::folders::Folders;
use crate::listing::Listing;
use crate::paths::is_below;
use crate::store::Store;
use std::alloc::{AllocError, Global};
use std::io::{self, ErrorKind};

/// What a call has left at a path: a file's bytes, or no file.
#[derive(Debug, Drop)]
pub struct Change {
    path: String,
    bytes: Option<Vec<u8>>,
}

/// Files in memory, as the changes that have led to them, the newest first.
#[derive(Debug, Drop)]
pub struct Memory {
    alloc: Global,
    changes: Vec<Change>,
}

/// A file that is being written, as the path that it was made at.
#[derive(Debug, Drop)]
pub struct MemoryFile {
    path: String,
}

impl Memory {
    /// No files.
    pub fn new(alloc: Global) -> Self
        ensures { result.changes.items ≡ [] }
    {
        Memory {
            alloc,
            changes: Vec::new(alloc),
        }
    }

    /// Puts a file of the bytes at the path, in the place of any that is there.
    pub fn put(&mut self, path: &str, bytes: &[u8]) -> Result<(), AllocError>
        ensures put { OnOk result (bytes_at self.new.changes.items path.now ≡ Some bytes.now) }
        ensures others { (other : List ℕ) → other ≢ path.now
            → bytes_at self.new.changes.items other ≡ bytes_at self.old.changes.items other }
    {
        let bytes = bytes.to_vec(self.alloc)?;
        self.change(path, Some(bytes))
    }

    /// The bytes of the file at the path.
    pub fn bytes_at(&self, path: &str) -> Option<&[u8]>
        ensures { MatchOption result (bytes_at self.now.changes.items path.now ≡ None)
            (λ bytes. bytes_at self.now.changes.items path.now ≡ Some bytes.now) }
    {
        latest(self.changes.as_slice(), path)
    }

    fn change(&mut self, path: &str, bytes: Option<Vec<u8>>) -> Result<(), AllocError>
        ensures alloc { self.new.alloc ≡ self.old.alloc }
        ensures changed { OnOk result ((change : _) × (string_bytes change.path ≡ path.now) × (change.bytes ≡ bytes)
            × (self.new.changes.items ≡ change ∷ self.old.changes.items)) }
        ensures failed { OnErr result (self.new.changes.items ≡ self.old.changes.items) }
    {
        let path = String::from_str(self.alloc, path)?;
        self.changes.insert(0, Change { path, bytes })?;
        Ok(())
    }
}

/// What the newest change of the path has left there.
fn latest<'a>(changes: &'a [Change], path: &str) -> Option<&'a [u8]>
    ensures { MatchOption result (bytes_at changes.now path.now ≡ None)
        (λ bytes. bytes_at changes.now path.now ≡ Some bytes.now) }
{
    for change in changes {
        if path == change.path.as_str() {
            return match &change.bytes {
                Some(bytes) => Some(bytes.as_slice()),
                None => None,
            };
        }
    }
    None
}

fn not_found() -> io::Error {
    io::Error::from(ErrorKind::NotFound)
}

impl FileSystem for Memory {
    type File = MemoryFile;

    ghost files = { λ memory. files_of memory.changes.items };

    ghost path_of = { λ file. string_bytes file.path };

    ghost counts_now = { λ memory t path left le now. counts_now memory.changes.items t path left le now };

    ghost only_now = { λ memory path left since. only_now memory.changes.items path left since };

    fn read_file(&mut self, path: &str) -> io::Result<Vec<u8>> {
        match latest(self.changes.as_slice(), path) {
            Some(bytes) => Ok(bytes.to_vec(self.alloc)?),
            None => Err(not_found()),
        }
    }

    fn create(&mut self, path: &str, like: &str) -> io::Result<MemoryFile> {
        if latest(self.changes.as_slice(), like).is_none() {
            return Err(not_found());
        }
        if latest(self.changes.as_slice(), path).is_some() {
            return Err(io::Error::from(ErrorKind::AlreadyExists));
        }
        let name = String::from_str(self.alloc, path)?;
        let none = Vec::new(self.alloc);
        self.change(path, Some(none))?;
        Ok(MemoryFile { path: name })
    }

    fn write(&mut self, file: &mut MemoryFile, bytes: &[u8]) -> io::Result<()> {
        let path = file.path.as_str();
        let mut all = match latest(self.changes.as_slice(), path) {
            Some(had) => had.to_vec(self.alloc)?,
            None => return Err(not_found()),
        };
        all.extend_from_slice(bytes)?;
        self.change(path, Some(all))?;
        Ok(())
    }

    fn sync(&mut self, _file: &mut MemoryFile) -> io::Result<()> {
        Ok(())
    }

    fn rename(&mut self, from: &str, to: &str) -> io::Result<()> {
        let bytes = match latest(self.changes.as_slice(), from) {
            Some(bytes) => bytes.to_vec(self.alloc)?,
            None => return Err(not_found()),
        };
        if from == to {
            return Err(io::Error::from(ErrorKind::InvalidInput));
        }
        self.change(to, Some(bytes))?;
        self.change(from, None)?;
        Ok(())
    }

    fn sync_name(&mut self, _path: &str) -> io::Result<()> {
        Ok(())
    }

    fn remove(&mut self, path: &str) -> io::Result<()> {
        self.change(path, None)?;
        Ok(())
    }
}

impl Store for Memory {
    ghost bytes_at = { λ memory. bytes_at memory.changes.items };

    ghost fails = { fails };

    fn read(&mut self, path: &str) -> io::Result<Vec<u8>> {
        match latest(self.changes.as_slice(), path) {
            Some(bytes) => Ok(bytes.to_vec(self.alloc)?),
            None => Err(not_found()),
        }
    }

    fn replace(&mut self, path: &str, text: &[u8]) -> io::Result<()> {
        if latest(self.changes.as_slice(), path).is_none() {
            return Err(not_found());
        }
        let text = text.to_vec(self.alloc)?;
        self.change(path, Some(text))?;
        Ok(())
    }
}

impl Folders for Memory {
    ghost bytes_at = { λ memory. bytes_at memory.changes.items };

    fn files_below(
        &self,
        alloc: Global,
        folder: &str,
        excluded: &Excluded,
    ) -> Result<Listing, AllocError> {
        let mut files = Vec::new(alloc);
        let mut passed_over = Vec::new(alloc);
        for change in &self.changes {
            let path = change.path.as_str();
            let is_there = latest(self.changes.as_slice(), path).is_some();
            if is_there && path.ends_with(".ftl") && is_below(folder, path) {
                let path = String::from_str(alloc, path)?;
                if excluded.hides(folder, path.as_str()) {
                    passed_over.push(path)?;
                } else {
                    files.push(path)?;
                }
            }
        }
        files.sort()?;
        files.dedup();
        Ok(Listing {
            files,
            faults: Vec::new(alloc),
            with_other_names: Vec::new(alloc),
            passed_over,
            is_cut: false,
        })
    }

    fn read(&self, alloc: Global, path: &str, limit: usize) -> Result<Option<Vec<u8>>, AllocError> {
        match latest(self.changes.as_slice(), path) {
            Some(bytes) if bytes.len() <= limit => Ok(Some(bytes.to_vec(alloc)?)),
            _ => Ok(None),
        }
    }

    fn has(&self, path: &str) -> bool {
        latest(self.changes.as_slice(), path).is_some()
    }
}
