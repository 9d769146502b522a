//! Line ends of a header, which are CRLF, and the empty line at its end.
ghost use Rattle.std.specs.Prelude.{◌↔◌, ◌<◌, length, IsTrue, MatchOption};
ghost use Rattle.ftl_lsp.specs.HeaderEnds.{IsCrlfAt, HeaderOf, IsLineEnd, NoHeader};

use crate::limits::HEADER_LIMIT;

/// Whether there is a CRLF at the place.
fn is_break(bytes: &[u8], at: usize) -> bool
    requires { at < length bytes.now }
    ensures { IsTrue result ↔ IsCrlfAt bytes.now at }
{
    bytes[at] == b'\r' && at + 1 < bytes.len() && bytes[at + 1] == b'\n'
}

/// Where the first line ends: at the first CRLF, or at the end.
pub fn line_end(bytes: &[u8]) -> usize
    ensures { IsLineEnd bytes.now result }
{
    for at in 0..bytes.len() {
        if is_break(bytes, at) {
            return at;
        }
    }
    bytes.len()
}

/// Where the header ends that the bytes begin with: before the first CRLF that another follows. None where there is
/// none within the limit of a header.
pub fn header_end(bytes: &[u8]) -> Option<usize>
    ensures { MatchOption result (NoHeader bytes.now) (HeaderOf bytes.now) }
{
    for at in 0..bytes.len().min(HEADER_LIMIT).saturating_sub(3) {
        if is_break(bytes, at) && is_break(bytes, at + 2) {
            return Some(at);
        }
    }
    None
}
