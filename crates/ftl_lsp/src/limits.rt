//! What a client may send at most.

/// The most bytes of a header with its empty line.
pub const HEADER_LIMIT: usize = 4_096;

/// The most bytes of a body: 64 MiB.
pub const BODY_LIMIT: usize = 67_108_864;

/// How deeply the placeables and argument lists of a document may nest.
pub const NESTING_LIMIT: usize = 500;

/// The most diagnostics that are published of a document, but for one that counts the others.
pub const DIAGNOSTICS_LIMIT: usize = 1_000;

/// The most bytes of a document whose findings are reported. They are sought anew after each change.
pub const FINDINGS_LIMIT: usize = 250_000;
