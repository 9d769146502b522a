//! How grave what is reported is, as a project says it.
ghost use Rattle.std.specs.Prelude.{◌≡◌, is_some};
ghost use Rattle.ftl_files.specs.Levels.{has_kind, have_common_kind, severity_of};

use crate::kinds::ReportedKind;
use fluent_syntax_names::Severity;

/// Kinds that are more or less grave than by default.
#[derive(Clone, Copy, Debug)]
pub struct Levels<'a> {
    /// Those that are warnings.
    pub warned: &'a [ReportedKind],
    /// Those that are errors.
    pub denied: &'a [ReportedKind],
}

impl Levels<'_> {
    /// How grave what is of the kind is.
    pub fn severity(&self, kind: ReportedKind) -> Severity
        ensures { result ≡ severity_of self.now kind }
    {
        if has_kind(self.warned, kind) {
            Severity::Warning
        } else if has_kind(self.denied, kind) {
            Severity::Error
        } else {
            kind.severity()
        }
    }
}

/// Whether the kind is one of these.
fn has_kind(kinds: &[ReportedKind], kind: ReportedKind) -> bool
    ensures { result ≡ has_kind kinds.now kind }
{
    kinds.iter().any(|other| other.name() == kind.name())
}

/// A kind that is one of these and of those. `None` where there is none.
pub(crate) fn common_kind(warned: &[ReportedKind], denied: &[ReportedKind]) -> Option<ReportedKind>
    ensures { is_some result ≡ have_common_kind warned.now denied.now }
{
    for kind in warned {
        if has_kind(denied, *kind) {
            return Some(*kind);
        }
    }
    None
}
