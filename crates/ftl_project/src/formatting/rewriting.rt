//! A file is replaced by its normal form.
ghost use Rattle.std.specs.Prelude.{◌≡◌, IfErr, IfOk, string_bytes};
ghost use Rattle.ftl_files.specs.Store.{AllUnchanged};
ghost use Rattle.ftl_project.specs.Faults.{IsRead, IsUnread};
ghost use Rattle.ftl_project.specs.Rewriting.{Rewrites};

use crate::fault::{Fault, InvalidText};
use crate::formatting::replacement::{FormatOptions, Replacement, replacement_for};
use ftl_files::Store;
use std::alloc::Global;

/// Puts the file's normal form in its place, if it has no syntax error and the normal form reads back. After a fault
/// the old bytes are there, or the normal form is.
pub fn rewrite<S: Store>(
    alloc: Global,
    store: &mut S,
    path: &str,
    options: FormatOptions,
) -> Result<Replacement, Fault>
    ensures { Rewrites S.fails options path.now (S.bytes_at store.old) (S.bytes_at store.new) result }
{
    let text = read_text(store, path)?;
    let replacement = replacement_for(alloc, text, options)?;
    if let Replacement::Text(formatted) = &replacement {
        if let Err(error) = store.replace(path, formatted.as_bytes()) {
            return Err(Fault::Write(error));
        }
    }
    Ok(replacement)
}

/// The text of the file.
pub(crate) fn read_text<S: Store>(store: &mut S, path: &str) -> Result<String, Fault>
    ensures text { IfOk result (λ text. IsRead (S.bytes_at store.old path.now) (string_bytes text)) }
    ensures fault { IfErr result (IsUnread S.fails (S.bytes_at store.old path.now)) }
    ensures untouched { AllUnchanged (S.bytes_at store.old) (S.bytes_at store.new) }
{
    let bytes = match store.read(path) {
        Ok(bytes) => bytes,
        Err(error) => return Err(Fault::Read(error)),
    };
    match String::from_utf8(bytes) {
        Ok(text) => Ok(text),
        Err(error) => {
            let place = error.utf8_error().valid_up_to();
            Err(Fault::NotText(InvalidText::at(error.as_bytes(), place)))
        }
    }
}
