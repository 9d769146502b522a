//! What is reported of what one of two files is missing, and what of it can be added.
ghost use Rattle.std.specs.Prelude.{◌≡◌};
ghost use Rattle.ftl_files.specs.Missing.{is_part_reported};

use crate::comment_rules::{CommentRules, is_part_left_out};
use crate::ignore_rules::{IgnoreRule, is_ignored};
use crate::kinds::ReportedKind;
use fluent_syntax_names::{MissingPart, Part, Side, missing_parts, shown_name};
use std::alloc::{AllocError, Global};

/// Whether a part that the file of this side has and the other one lacks is reported: neither the rules nor a comment
/// leave it out.
pub fn is_part_reported(
    ignored: &[IgnoreRule],
    side: Side,
    own: &CommentRules<'_, '_>,
    other: &CommentRules<'_, '_>,
    missing: &MissingPart,
) -> bool
    ensures { result ≡ is_part_reported ignored.now side own.now.name_index.now other.now.name_index.now missing.now }
{
    match side.difference(missing.part) {
        Some(difference) => {
            let kind = ReportedKind::Difference(difference);
            let name = shown_name(own.name_index.text, missing.name);
            !is_ignored(ignored, kind, name)
                && !is_part_left_out(side, own, other, missing, kind, name)
        }
        None => true,
    }
}

/// The messages, terms and attributes that the reference has and its translation is reported to lack, in the order of
/// the reference: of entries that the translation has as junk none.
///
/// `AllocError`: a growth was refused.
pub fn addable_parts(
    alloc: Global,
    reference: &CommentRules<'_, '_>,
    translation: &CommentRules<'_, '_>,
    ignored: &[IgnoreRule],
) -> Result<Vec<MissingPart>, AllocError> {
    let mut parts = Vec::new(alloc);
    for missing in &missing_parts(alloc, reference.name_index, translation.name_index)? {
        let is_addable = match missing.part {
            Part::Entry => missing.in_other.is_none(),
            Part::Attribute => true,
            _ => false,
        };
        let side = Side::Reference;
        if is_addable && is_part_reported(ignored, side, reference, translation, missing) {
            parts.push(*missing)?;
        }
    }
    Ok(parts)
}

/// The names of these parts of the text, each once, in the order of their bytes: a term's with its `-`, an attribute's
/// as `menu.label`.
///
/// `AllocError`: a growth was refused.
pub fn added_names(
    alloc: Global,
    text: &str,
    parts: &[MissingPart],
) -> Result<Vec<String>, AllocError> {
    let mut names = Vec::new(alloc);
    for MissingPart {
        part,
        name,
        entry,
        ..
    } in parts {
        let name = shown_name(text, *name);
        names.push(match part {
            Part::Attribute => format!(in alloc; "{}.{name}", shown_name(text, *entry))?,
            _ => String::from_str(alloc, name)?,
        })?;
    }
    names.sort()?;
    names.dedup();
    Ok(names)
}
