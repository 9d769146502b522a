//! What is not reported: kinds, and names of them.
ghost use Rattle.std.specs.Prelude.{◌≡◌, ◌≢◌, IfOk, IfSome, None, Ok, string_bytes};
ghost use Rattle.ftl_files.specs.IgnoreRules.{covers, is_ignored, rule_text};
ghost use Rattle.ftl_files.specs.Kinds.{reported_name};
ghost use Rattle.ftl_files.specs.declared.ignore_rules.IgnoreRule.{IgnoreRule};
ghost use Rattle.ftl_files.specs.declared.kinds.ReportedKind.{ReportedKind};

use crate::kinds::{ReportedKind, reported_kind_of_name};
use crate::patterns::name_matches;
use std::alloc::{AllocError, Global};

/// What is not reported: a kind, or of a kind what has a name.
#[derive(Clone, Debug, PartialEq, Eq, Drop)]
pub struct IgnoreRule {
    pub kind: ReportedKind,
    /// The name, in which a `*` means any characters; empty where every name is meant.
    pub name: String,
}

impl IgnoreRule {
    /// Whether it leaves out what is of the kind and has the name.
    fn covers(&self, kind: ReportedKind, name: &str) -> bool
        ensures { result ≡ covers kind name.now self.now }
    {
        self.kind.name() == kind.name()
            && (self.name.is_empty() || name_matches(self.name.as_str(), name))
    }
}

/// Whether one of the rules leaves out what is of the kind and has the name, as the form of lines shows it; the name
/// is empty where none is shown.
pub fn is_ignored(rules: &[IgnoreRule], kind: ReportedKind, name: &str) -> bool
    ensures { result ≡ is_ignored rules.now kind name.now }
{
    rules.iter().any(|rule| rule.covers(kind, name))
}

/// The rule that the text says, which is a kind, as `undefined-term`, or a kind and a name, as
/// `undefined-term:-newtab-*`. `None` where there is no such kind, or no name after the `:`.
///
/// `AllocError`: a growth was refused.
pub fn ignore_rule_of_text(alloc: Global, text: &str) -> Result<Option<IgnoreRule>, AllocError>
    ensures rule { IfOk result (λ found. IfSome found (λ rule. rule_text rule ≡ text.now)) }
    ensures none { result ≡ Ok None → (rule : IgnoreRule) → rule_text rule ≢ text.now }
{
    match text.split_once(':') {
        Some((_, "")) => Ok(None),
        Some((kind, name)) => rule_of(alloc, kind, name),
        None => rule_of(alloc, text, ""),
    }
}

/// The rule of the kind that is called so, and of the name. `None` where there is no such kind.
fn rule_of(alloc: Global, kind: &str, name: &str) -> Result<Option<IgnoreRule>, AllocError>
    ensures rule { IfOk result (λ found. IfSome found (λ rule.
        (reported_name rule.kind ≡ kind.now) × (string_bytes rule.name ≡ name.now))) }
    ensures none { result ≡ Ok None → (kind' : ReportedKind) → reported_name kind' ≢ kind.now }
{
    match reported_kind_of_name(kind) {
        Some(kind) => Ok(Some(IgnoreRule {
            kind,
            name: String::from_str(alloc, name)?,
        })),
        None => Ok(None),
    }
}
