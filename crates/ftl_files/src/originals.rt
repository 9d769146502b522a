//! The file of the reference language that another one is to be a translation of.
ghost use Rattle.std.specs.Prelude.{◌≡◌, ◌≢◌, ◌++◌, ℕ, List, IfOk, IfSome, None, Ok, codes, string_bytes};
ghost use Rattle.ftl_files.specs.Originals.{IsOriginal};

use crate::paths::relative_path;
use std::alloc::{AllocError, Global};

/// The path of the original of the file at the path. The reference language has its files in `own`, a folder or a file
/// of the folder `above`, and the other languages have theirs next to it: of `en` in `/app` the original of
/// `/app/de/menu.ftl` is `/app/en/menu.ftl`. None where the path is elsewhere, or is the reference's.
///
/// `AllocError` where a growth was refused.
pub fn original_of(
    alloc: Global,
    above: &str,
    own: &str,
    path: &str,
) -> Result<Option<String>, AllocError>
    ensures some { IfOk result (λ found. IfSome found (λ original.
        IsOriginal above.now own.now path.now (string_bytes original))) }
    ensures none { result ≡ Ok None → (original : List ℕ) → IsOriginal above.now own.now path.now original → ⊥ }
{
    let Some(relative) = relative_path(above, path) else {
        return Ok(None);
    };
    let Some((language, rest)) = relative.split_once('/') else {
        return lone_original(alloc, above, own, relative);
    };
    if language == own {
        return Ok(None);
    }
    let reference = path_below(alloc, above, own)?;
    let original = path_below(alloc, reference.as_str(), rest)?;
    Ok(Some(original))
}

/// The reference itself, which is the original of a file next to it, by that file's name. None where they are the same.
fn lone_original(
    alloc: Global,
    above: &str,
    own: &str,
    name: &str,
) -> Result<Option<String>, AllocError>
    ensures some { IfOk result (λ found. IfSome found (λ original.
        (name.now ≢ own.now) × (string_bytes original ≡ above.now ++ codes "/" ++ own.now))) }
    ensures none { result ≡ Ok None → name.now ≡ own.now }
{
    if name == own {
        return Ok(None);
    }
    let original = path_below(alloc, above, own)?;
    Ok(Some(original))
}

/// The path of what has the name in the folder.
fn path_below(alloc: Global, folder: &str, name: &str) -> Result<String, AllocError>
    ensures { IfOk result (λ path. string_bytes path ≡ folder.now ++ codes "/" ++ name.now) }
{
    format!(in alloc; "{folder}/{name}")
}
