//! Frames of the protocol: a header of fields, an empty line, and a body.
ghost use Rattle.std.specs.Prelude.{◌≡◌, ◌≤◌, ℕ, length};
ghost use Rattle.ftl_lsp.specs.Frames.{IsFraming};

use crate::limits::{BODY_LIMIT, HEADER_LIMIT};
use crate::sessions::breaks::header_end;
use crate::sessions::header_fields::content_length;

/// Why no frame can be read.
#[derive(Clone, Copy, PartialEq, Eq)]
pub enum FrameFault {
    /// The header has more than `HEADER_LIMIT` bytes with its empty line.
    LongHeader,
    /// The header names no length of a body that can be read.
    NoLength,
    /// The body has more than `BODY_LIMIT` bytes.
    LongBody,
}

/// What bytes begin with.
#[derive(Clone, Copy, PartialEq, Eq)]
pub enum Framing {
    /// A frame, whose body lies from `start` up to `end`, where the frame ends.
    Frame { start: usize, end: usize },
    /// Too few bytes to say.
    Partial,
    /// No frame.
    Refused(FrameFault),
}

/// What the bytes begin with: a frame where its header is sound and all of its body is there. More bytes after them
/// change nothing unless the answer is `Partial`.
pub fn first_frame(bytes: &[u8]) -> Framing
    ensures { IsFraming bytes.now result }
{
    let Some(header) = header_end(bytes) else {
        return if bytes.len() < HEADER_LIMIT {
            Framing::Partial
        } else {
            Framing::Refused(FrameFault::LongHeader)
        };
    };
    let (fields, _) = bytes.split_at(header);
    match content_length(fields) {
        None => Framing::Refused(FrameFault::NoLength),
        Some(length) if length > BODY_LIMIT => Framing::Refused(FrameFault::LongBody),
        Some(length) if length > bytes.len() - (header + 4) => Framing::Partial,
        Some(length) => Framing::Frame {
            start: header + 4,
            end: header + 4 + length,
        },
    }
}
