//! What is reported of a part that one of two files lacks, and whether it is an error.
ghost use Rattle.std.specs.Prelude.{◌≡◌, IfOk};
ghost use Rattle.ftl_project.specs.Comparing.{is_file_error, is_file_warning};
ghost use Rattle.ftl_project.specs.Differences.{counts_as_error, counts_as_warning, is_error_kind};
ghost use Rattle.ftl_project.specs.Differences.{is_error_severity, is_reported, reported_parts};

use fluent_syntax_names::{MissingPart, Part, Severity, Side};
use ftl_files::{CommentRules, IgnoreRule, Levels, ReportedKind, is_ignored, is_part_reported};
use std::alloc::{AllocError, Global};

/// Whether a part that the file of this side has and the other one lacks is reported as an error.
pub(crate) fn counts_as_error(levels: Levels<'_>, side: Side, part: Part) -> bool
    ensures { result ≡ counts_as_error levels.entry side part }
{
    match side.difference(part) {
        Some(difference) => is_error_kind(levels, ReportedKind::Difference(difference)),
        None => false,
    }
}

/// Whether it is reported as a warning.
pub(crate) fn counts_as_warning(levels: Levels<'_>, side: Side, part: Part) -> bool
    ensures { result ≡ counts_as_warning levels.entry side part }
{
    match side.difference(part) {
        Some(difference) => !is_error_kind(levels, ReportedKind::Difference(difference)),
        None => false,
    }
}

/// Those of the parts that are reported, which the file of this side has.
pub(crate) fn reported_parts(
    alloc: Global,
    ignored: &[IgnoreRule],
    side: Side,
    own: &CommentRules<'_, '_>,
    other: &CommentRules<'_, '_>,
    missing_parts: &[MissingPart],
) -> Result<Vec<MissingPart>, AllocError>
    ensures { IfOk result (λ parts. parts.items ≡ reported_parts ignored.now side own.now.name_index.now
        other.now.name_index.now missing_parts.now) }
{
    missing_parts
        .iter()
        .copied()
        .filter(|missing| is_part_reported(ignored, side, own, other, missing))
        .collect(alloc)
}

/// Whether no rule leaves out what is of the kind and has the name.
pub(crate) fn is_reported(ignored: &[IgnoreRule], kind: ReportedKind, name: &str) -> bool
    ensures { result ≡ is_reported ignored.now kind name.now }
{
    !is_ignored(ignored, kind, name)
}

/// Whether what this kind says of a file as a whole is reported as an error.
pub(crate) fn is_file_error(ignored: &[IgnoreRule], levels: Levels<'_>, kind: ReportedKind) -> bool
    ensures { result ≡ is_file_error ignored.now levels.entry kind }
{
    is_reported(ignored, kind, "") && is_error_kind(levels, kind)
}

/// Whether it is reported as a warning.
pub(crate) fn is_file_warning(
    ignored: &[IgnoreRule],
    levels: Levels<'_>,
    kind: ReportedKind,
) -> bool
    ensures { result ≡ is_file_warning ignored.now levels.entry kind }
{
    is_reported(ignored, kind, "") && !is_error_kind(levels, kind)
}

/// Whether what is of the kind is an error.
pub(crate) fn is_error_kind(levels: Levels<'_>, kind: ReportedKind) -> bool
    ensures { result ≡ is_error_kind levels.entry kind }
{
    is_error_severity(levels.severity(kind))
}

/// Whether it is an error.
fn is_error_severity(severity: Severity) -> bool
    ensures { result ≡ is_error_severity severity }
{
    match severity {
        Severity::Error => true,
        Severity::Warning => false,
    }
}
