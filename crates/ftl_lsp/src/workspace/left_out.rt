//! Which files are left out where names are looked for, and why.
ghost use Rattle.std.specs.Prelude.{◌≡◌, IfOk, string_bytes};
ghost use Rattle.ftl_lsp.specs.LeftOut.{left_out_sentence, reason_text};

use ftl_files::{FILE_LIMIT, Folders};
use std::alloc::{AllocError, Global};

/// Why a file is left out.
#[derive(Clone, Copy, PartialEq, Eq)]
pub enum LeftOutReason {
    NotUtf8,
    /// It has more than `FILE_LIMIT` bytes, or can't be read.
    NotRead,
    /// It nests deeper than `NESTING_LIMIT`.
    TooDeep,
    /// With it the files of its folder would have more than `BYTES_LIMIT` bytes.
    TooMuch,
}

impl LeftOutReason {
    /// That the file of the name is left out, and why. `AllocError` where a growth was refused.
    pub fn sentence(self, alloc: Global, name: &str) -> Result<String, AllocError>
        ensures { IfOk result (λ sentence. string_bytes sentence ≡ left_out_sentence name.now self) }
    {
        let reason = self.text();
        format!(in alloc; "{name} {reason}, so undefined names of its language are not reported")
    }

    /// What is said of such a file.
    fn text(self) -> &'static str
        ensures { result.now ≡ reason_text self }
    {
        match self {
            LeftOutReason::NotUtf8 => "is not UTF-8",
            LeftOutReason::NotRead => "has more than 1048576 bytes or can't be read",
            LeftOutReason::TooDeep => "nests too deep",
            LeftOutReason::TooMuch => "is one of too many: its folder has more than 33554432 bytes",
        }
    }
}

/// A file that is left out.
#[derive(Drop)]
pub struct LeftOutFile {
    pub path: String,
    pub reason: LeftOutReason,
}

impl LeftOutFile {
    /// The file at the path, which was not read. `AllocError` where a growth was refused.
    pub fn unread<F: Folders>(
        alloc: Global,
        files: &F,
        path: String,
    ) -> Result<LeftOutFile, AllocError> {
        let reason = match files.read(alloc, path.as_str(), FILE_LIMIT)? {
            None => LeftOutReason::NotRead,
            Some(bytes) => match String::from_utf8(bytes) {
                Err(_) => LeftOutReason::NotUtf8,
                Ok(_) => LeftOutReason::TooMuch,
            },
        };
        Ok(LeftOutFile { path, reason })
    }
}
