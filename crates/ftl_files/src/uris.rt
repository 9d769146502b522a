//! URIs of files, and the paths that they name.
ghost use Rattle.std.specs.Prelude.{◌≡◌, ◌++◌, IfOk, MatchOption, None, Some, string_bytes};
ghost use Rattle.ftl_files.specs.Uris.{escaped_path, IsPathIn, NamesPath, uri_of};

use percent_encoding::{AsciiSet, NON_ALPHANUMERIC, ascii_set, percent_decode, percent_encode};
use std::alloc::{AllocError, Global};

/// What is escaped of a path: all but letters, digits, `/`, `-`, `.`, `_` and `~`.
pub const ESCAPED: AsciiSet = ascii_set!(
    NON_ALPHANUMERIC
        .remove(b'/')
        .remove(b'-')
        .remove(b'.')
        .remove(b'_')
        .remove(b'~')
);

/// The path that the URI names, with its escapes read. None where it is no URI of a file of this machine, or names no
/// UTF-8. `AllocError` where a growth was refused.
pub fn path_of_uri(alloc: Global, uri: &str) -> Result<Option<String>, AllocError>
    ensures { IfOk result (IsPathIn (escaped_path uri.now)) }
{
    let Some(escaped) = escaped_path(uri.as_bytes()) else {
        return Ok(None);
    };
    let mut bytes = Vec::new(alloc);
    percent_decode(escaped).append_to(&mut bytes)?;
    match String::from_utf8(bytes) {
        Ok(path) => Ok(Some(path)),
        Err(_) => Ok(None),
    }
}

/// What comes after `file://`, if that is the path of a file of this machine.
fn escaped_path(uri: &[u8]) -> Option<&[u8]>
    ensures { MatchOption result (escaped_path uri.now ≡ None) (λ e. escaped_path uri.now ≡ Some e.now) }
{
    if uri.starts_with(b"file:///") {
        Some(&uri[7..])
    } else {
        None
    }
}

/// The URI of the file at the path. `AllocError` where a growth was refused.
pub fn uri_of_path(alloc: Global, path: &str) -> Result<String, AllocError>
    ensures uri { IfOk result (λ uri. string_bytes uri ≡ uri_of path.now) }
    ensures names { IfOk result (λ uri. NamesPath (string_bytes uri) path.now) }
{
    let mut uri = String::from_str(alloc, "file://")?;
    percent_encode(path.as_bytes(), ESCAPED).append_to(&mut uri)?;
    Ok(uri)
}
