//! Files in memory, as a runtime reaches them.

use std::alloc::{Allocator, Global};
use std::cell::{Cell, RefCell};
use std::fs::{Metadata, OpenFile, OpenOptions, Permissions};
use std::io::{self, ErrorKind, Read, Seek, SeekFrom, Write};
use std::path::PathBuf;
use std::rt::Files;

/// Which calls fail.
#[derive(Clone, Copy, Debug, PartialEq, Eq)]
pub(crate) enum Failing {
    /// None.
    Never,
    /// The one of this number.
    Once(usize),
    /// All from this number on, as after a crash.
    From(usize),
}

/// A file.
#[derive(Debug, Drop)]
struct Held {
    path: String,
    bytes: Vec<u8>,
}

/// The files, and how many calls came.
#[derive(Drop)]
pub(crate) struct State {
    alloc: Global,
    files: RefCell<Vec<Held>>,
    calls: Cell<usize>,
    failing: Failing,
}

/// The files, as a runtime.
#[derive(Clone, Copy)]
pub(crate) struct Shelf<'s> {
    state: &'s State,
}

/// An open file.
#[derive(Drop)]
pub(crate) struct Open<'s> {
    state: &'s State,
    path: String,
    place: usize,
}

/// The names of a folder.
#[derive(Drop)]
pub(crate) struct Names {
    names: Vec<u8>,
    place: usize,
}

impl State {
    /// No files.
    pub(crate) fn new(alloc: Global, failing: Failing) -> Self {
        State {
            alloc,
            files: RefCell::new(Vec::new(alloc)),
            calls: Cell::new(0),
            failing,
        }
    }

    /// How many calls came.
    pub(crate) fn calls(&self) -> usize {
        self.calls.get()
    }

    /// Adds a file, or gives it these bytes.
    pub(crate) fn put(&self, path: &str, bytes: &[u8]) -> io::Result<()> {
        let mut files = self.files.try_borrow_mut()?;
        let bytes = Vec::from_slice(self.alloc, bytes)?;
        for held in files.iter_mut() {
            if held.path.as_str() == path {
                held.bytes = bytes;
                return Ok(());
            }
        }
        let path = String::from_str(self.alloc, path)?;
        files.push(Held { path, bytes })?;
        Ok(())
    }

    /// The bytes of a file.
    pub(crate) fn get(&self, path: &str) -> io::Result<Vec<u8>> {
        let files = self.files.try_borrow()?;
        for held in files.iter() {
            if held.path.as_str() == path {
                return Ok(Vec::from_slice(self.alloc, held.bytes.as_slice())?);
            }
        }
        Err(io::Error::from(ErrorKind::NotFound))
    }

    /// How many files there are.
    pub(crate) fn count(&self) -> io::Result<usize> {
        Ok(self.files.try_borrow()?.len())
    }

    fn take(&self, path: &str) -> io::Result<Vec<u8>> {
        let bytes = self.get(path)?;
        let mut files = self.files.try_borrow_mut()?;
        files.retain(|held| held.path.as_str() != path);
        Ok(bytes)
    }

    fn has_folder(&self, path: &str) -> io::Result<bool> {
        let files = self.files.try_borrow()?;
        for held in files.iter() {
            if let Some(rest) = held.path.strip_prefix(path) {
                if rest.starts_with('/') {
                    return Ok(true);
                }
            }
        }
        Ok(false)
    }

    /// Counts a call, and fails where it is to fail.
    fn step(&self) -> io::Result<()> {
        let number = self.calls.get();
        self.calls.set(number.saturating_add(1));
        let fails = match self.failing {
            Failing::Never => false,
            Failing::Once(at) => number == at,
            Failing::From(at) => number >= at,
        };
        if fails {
            return Err(io::Error::from(ErrorKind::StorageFull));
        }
        Ok(())
    }
}

impl<'s> Shelf<'s> {
    /// The runtime that reaches these files.
    pub(crate) fn new(state: &'s State) -> Self {
        Shelf { state }
    }
}

impl Alloc for Shelf<'_> {
    type A = Global;

    fn alloc(&self) -> Global {
        self.state.alloc
    }
}

impl<'s> Files for Shelf<'s> {
    type File = Open<'s>;

    type Dir = Names;

    fn open_file(&self, how: &OpenOptions, path: &str) -> io::Result<Open<'s>> {
        how.check()?;
        self.state.step()?;
        let is_there = self.state.get(path).is_ok() || self.state.has_folder(path)?;
        if is_there && how.asks_create_new() {
            return Err(io::Error::from(ErrorKind::AlreadyExists));
        }
        if !is_there && !how.asks_create() && !how.asks_create_new() {
            return Err(io::Error::from(ErrorKind::NotFound));
        }
        if !is_there || how.asks_truncate() {
            self.state.put(path, b"")?;
        }
        Ok(Open {
            state: self.state,
            path: String::from_str(self.state.alloc, path)?,
            place: 0,
        })
    }

    fn open_dir(&self, path: &str) -> io::Result<Names> {
        self.state.step()?;
        let mut names = Vec::new(self.state.alloc);
        let files = self.state.files.try_borrow()?;
        for held in files.iter() {
            if let Some(name) = held.path.strip_prefix(path) {
                if !name.contains('/') {
                    names.extend_from_slice(name.as_bytes())?;
                    names.push(0)?;
                }
            }
        }
        Ok(Names { names, place: 0 })
    }

    fn metadata(&self, path: &str) -> io::Result<Metadata> {
        self.state.step()?;
        match self.state.get(path) {
            Ok(bytes) => Ok(Metadata::of_file(bytes.len() as u64)),
            Err(_) if self.state.has_folder(path)? => Ok(Metadata::of_dir()),
            Err(error) => Err(error),
        }
    }

    fn symlink_metadata(&self, path: &str) -> io::Result<Metadata> {
        self.metadata(path)
    }

    fn copy(&self, _from: &str, _to: &str) -> io::Result<u64> {
        Err(io::Error::from(ErrorKind::Unsupported))
    }

    fn rename(&self, from: &str, to: &str) -> io::Result<()> {
        self.state.step()?;
        let bytes = self.state.take(from)?;
        self.state.put(to, bytes.as_slice())
    }

    fn remove_file(&self, path: &str) -> io::Result<()> {
        self.state.step()?;
        self.state.take(path)?;
        Ok(())
    }

    fn create_dir(&self, _path: &str) -> io::Result<()> {
        Err(io::Error::from(ErrorKind::Unsupported))
    }

    fn remove_dir(&self, _path: &str) -> io::Result<()> {
        Err(io::Error::from(ErrorKind::Unsupported))
    }

    fn remove_dir_all<B: Allocator>(&self, _alloc: B, _path: &str) -> io::Result<()> {
        Err(io::Error::from(ErrorKind::Unsupported))
    }

    fn canonicalize<B: Allocator>(&self, alloc: B, path: &str) -> io::Result<PathBuf<B>> {
        self.state.step()?;
        Ok(PathBuf::from_str(alloc, path)?)
    }
}

impl Read for Open<'_> {
    fn read(&mut self, buf: &mut [u8]) -> io::Result<usize> {
        self.state.step()?;
        let bytes = self.state.get(self.path.as_str())?;
        let rest = bytes.get(self.place..).unwrap_or(&[]);
        let count = rest.len().min(buf.len()).min(3);
        buf[..count].copy_from_slice(&rest[..count]);
        self.place = self.place.saturating_add(count);
        Ok(count)
    }
}

impl Write for Open<'_> {
    fn write(&mut self, buf: &[u8]) -> io::Result<usize> {
        self.state.step()?;
        let count = buf.len().min(3);
        let mut bytes = self.state.get(self.path.as_str())?;
        bytes.extend_from_slice(&buf[..count])?;
        self.state.put(self.path.as_str(), bytes.as_slice())?;
        Ok(count)
    }

    fn flush(&mut self) -> io::Result<()> {
        Ok(())
    }
}

impl Seek for Open<'_> {
    fn seek(&mut self, _to: SeekFrom) -> io::Result<u64> {
        Err(io::Error::from(ErrorKind::Unsupported))
    }
}

impl OpenFile for Open<'_> {
    fn metadata(&self) -> io::Result<Metadata> {
        self.state.step()?;
        Ok(Metadata::of_file(0))
    }

    fn set_len(&self, _size: u64) -> io::Result<()> {
        Err(io::Error::from(ErrorKind::Unsupported))
    }

    fn sync_all(&self) -> io::Result<()> {
        self.state.step()
    }

    fn sync_data(&self) -> io::Result<()> {
        self.state.step()
    }

    fn set_permissions(&self, _perm: Permissions) -> io::Result<()> {
        self.state.step()
    }
}

impl Read for Names {
    fn read(&mut self, buf: &mut [u8]) -> io::Result<usize> {
        let rest = self.names.get(self.place..).unwrap_or(&[]);
        let count = rest.len().min(buf.len());
        buf[..count].copy_from_slice(&rest[..count]);
        self.place = self.place.saturating_add(count);
        Ok(count)
    }
}
