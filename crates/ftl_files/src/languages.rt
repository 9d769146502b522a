//! Which language a file is of, where each language has a folder next to that of the reference.
ghost use Rattle.std.specs.Prelude.{◌≡◌, ℕ, List, IfSome, None};
ghost use Rattle.ftl_files.specs.Languages.{IsLanguage};

use crate::paths::{absolute_path, relative_path};
use std::alloc::{AllocError, Global};

/// The folder in which each language has its own, by the reference of a project: in the folder `/app` that of
/// `locales/en` is `/app/locales`. None where the reference is a file.
///
/// `AllocError` where a growth was refused.
pub fn folder_of_languages(
    alloc: Global,
    folder: &str,
    reference: &str,
) -> Result<Option<String>, AllocError> {
    if reference.ends_with(".ftl") {
        return Ok(None);
    }
    let mut languages = absolute_path(alloc, folder, reference)?;
    let end = languages.rfind('/').unwrap_or(0);
    languages.truncate(end);
    Ok(Some(languages))
}

/// The folder of the language that the file at the path is of, where each has its own in `languages`: in
/// `/app/locales` that of `/app/locales/de/menu.ftl` is `/app/locales/de`. None where it is in no folder there.
pub fn language_of<'p>(languages: &str, path: &'p str) -> Option<&'p str>
    ensures some { IfSome result (λ language. IsLanguage languages.now path.now language.now) }
    ensures none { result ≡ None → (language : List ℕ) → IsLanguage languages.now path.now language → ⊥ }
{
    let (_, rest) = relative_path(languages, path)?.split_once('/')?;
    path.strip_suffix(rest)?.strip_suffix('/')
}
