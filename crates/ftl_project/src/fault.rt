//! Why a file was not answered.
ghost use Rattle.std.specs.Prelude.{◌≡◌, ◌≤◌};
ghost use Rattle.ftl_project.specs.Faults.{HasStatus, status_of_call};
ghost use Rattle.ftl_project.specs.Summaries.{utf16_guess};

use crate::reporting::diagnostics::SourceLocation;
use ftl::JsonFault;
use std::alloc::AllocError;
use std::io::ErrorKind;
use std::{fmt, io};

/// Where bytes are no UTF-8 any more.
#[derive(Clone, Copy, Debug, PartialEq, Eq)]
pub struct InvalidText {
    /// The byte, counted from 0.
    pub place: usize,
    /// Its line and its column in bytes, both from 1.
    pub line: usize,
    pub column: usize,
    /// Whether the bytes begin with the byte order mark of UTF-16.
    pub is_utf16: bool,
}

impl InvalidText {
    /// That of bytes that are UTF-8 up to the place.
    pub fn at(bytes: &[u8], place: usize) -> Self
        ensures { result.place ≡ place }
    {
        let before = bytes.get(..place).unwrap_or(&[]);
        let line_ends = before.iter().filter(|byte| **byte == b'\n').count();
        let in_line = before
            .iter()
            .rev()
            .take_while(|byte| **byte != b'\n')
            .count();
        InvalidText {
            place,
            line: line_ends.saturating_add(1),
            column: in_line.saturating_add(1),
            is_utf16: matches!(bytes, [0xFF, 0xFE, ..] | [0xFE, 0xFF, ..]),
        }
    }

    /// What the bytes may be instead; empty where nothing says it.
    fn guess(&self) -> &'static str
        ensures { result.now ≡ utf16_guess self.now.is_utf16 }
    {
        if self.is_utf16 {
            "; it begins as UTF-16 does"
        } else {
            ""
        }
    }
}

/// Why a file was not answered.
#[derive(Debug, Drop)]
pub enum Fault {
    /// It could not be read.
    Read(io::Error),
    /// It is not UTF-8 from that place on.
    NotText(InvalidText),
    /// A growth was refused.
    Memory,
    /// It could not be written: its old bytes are there, or the new ones.
    Write(io::Error),
    /// It nests deeper than it may.
    TooDeep,
    /// It is not the JSON of a tree.
    Json(JsonFault),
}

impl Fault {
    /// The exit status: 3 where it was not read, 4 where memory was wanted, 5 where it was not written, and 6 where it
    /// nests too deep; of JSON that of its fault.
    pub fn status(&self) -> u8
        ensures least { 3 ≤ result }
        ensures greatest { result ≤ 6 }
        ensures status { HasStatus self.now result }
    {
        match self {
            Fault::Read(error) => status_of_call(error.kind(), 3),
            Fault::NotText(_) => 3,
            Fault::Memory => 4,
            Fault::Write(error) => status_of_call(error.kind(), 5),
            Fault::TooDeep => 6,
            Fault::Json(fault) => fault.status(),
        }
    }

    /// What tools call it.
    pub(crate) fn name(&self) -> &'static str {
        match self {
            Fault::Read(_) => "not-read",
            Fault::NotText(_) => "not-utf-8",
            Fault::Memory => "no-memory",
            Fault::Write(_) => "not-written",
            Fault::TooDeep => "too-deep",
            Fault::Json(_) => "not-json",
        }
    }

    /// Its place in the file, if that is known.
    pub(crate) fn location(&self) -> Option<SourceLocation> {
        match self {
            Fault::NotText(invalid) => Some(SourceLocation {
                line: invalid.line,
                column: invalid.column,
                start: invalid.place,
                end: invalid.place,
            }),
            _ => None,
        }
    }
}

/// The status of a call that failed: that of want of memory, or another.
fn status_of_call(kind: ErrorKind, other: u8) -> u8
    ensures { result ≡ status_of_call kind other }
{
    match kind {
        ErrorKind::OutOfMemory => 4,
        _ => other,
    }
}

impl From<AllocError> for Fault {
    ghost use Rattle.std.specs.Prelude.{◌≡◌};
    ghost use Rattle.ftl_project.specs.declared.fault.Fault.TheVariants.{Memory};

    ghost from_gives = { λ _ fault. fault ≡ Memory };

    fn from(_error: AllocError) -> Self {
        Fault::Memory
    }
}

impl fmt::Display for Fault {
    ghost use Rattle.ftl_project.specs.Summaries.{fault_text};

    ghost output = { fault_text };

    fn fmt<W: fmt::Write>(&self, f: &mut fmt::Formatter<W>) -> fmt::Result {
        match self {
            Fault::Read(error) => write!(f, "can't be read: {error}"),
            Fault::NotText(invalid) => {
                let (line, column) = (invalid.line, invalid.column);
                let (place, guess) = (invalid.place, invalid.guess());
                write!(
                    f,
                    "is not UTF-8 from byte {place} on, at {line}:{column}{guess}"
                )
            }
            Fault::Memory => f.write_str("no memory"),
            Fault::Write(error) => write!(f, "can't be written: {error}"),
            Fault::TooDeep => f.write_str("nests deeper than it may"),
            Fault::Json(fault) => write!(f, "{fault}"),
        }
    }
}
