//! What of a workspace is read at most.

/// The most files.
pub const FILES_LIMIT: usize = 10_000;

/// The most bytes of a file: 1 MiB.
pub const FILE_LIMIT: usize = 1_048_576;

/// The most bytes of all files: 32 MiB.
pub const BYTES_LIMIT: usize = 33_554_432;

/// The most folders that are looked into below one.
pub const FOLDERS_LIMIT: usize = 10_000;
