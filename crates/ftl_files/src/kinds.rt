//! Kinds of what is reported of names, by their names.
ghost use Rattle.std.specs.Prelude.{◌≡◌, ◌≢◌, IfSome, None};
ghost use Rattle.fluent_syntax_names.specs.Differences.{difference_name};
ghost use Rattle.fluent_syntax_names.specs.Severities.{name_of};
ghost use Rattle.fluent_syntax_names.specs.declared.differences.Difference.{Difference};
ghost use Rattle.fluent_syntax_names.specs.declared.finding.Kind.{Kind};
ghost use Rattle.ftl_files.specs.Kinds.{reported_name, reported_severity};
ghost use Rattle.ftl_files.specs.declared.kinds.ReportedKind.{ReportedKind};

use fluent_syntax_names::{Difference, Kind, Severity};

/// The names of what `lint` reports.
pub const FINDING_NAMES: [&str; 9] = [
    "defined-twice",
    "attribute-twice",
    "variant-twice",
    "undefined-message",
    "undefined-term",
    "undefined-attribute",
    "undefined-value",
    "cyclic-reference",
    "plural-category",
];

/// The names of what `compare` reports.
pub const DIFFERENCE_NAMES: [&str; 12] = [
    "missing-file",
    "obsolete-file",
    "missing",
    "missing-value",
    "missing-attribute",
    "missing-reference",
    "obsolete",
    "obsolete-value",
    "obsolete-attribute",
    "obsolete-reference",
    "unknown-variable",
    "unknown-function",
];

/// A kind of what is reported of names.
#[derive(Clone, Copy, Debug, PartialEq, Eq)]
pub enum ReportedKind {
    /// What `lint` reports.
    Finding(Kind),
    /// What `compare` reports of two files.
    Difference(Difference),
    /// What `compare` reports of a file that the translation alone doesn't have.
    MissingFile,
    /// What `compare` reports of a file that the translation alone has.
    ObsoleteFile,
}

impl ReportedKind {
    /// Its name, as a command line has it.
    pub fn name(self) -> &'static str
        ensures { result.now ≡ reported_name self }
    {
        match self {
            ReportedKind::Finding(kind) => kind.name(),
            ReportedKind::Difference(difference) => difference.name(),
            ReportedKind::MissingFile => "missing-file",
            ReportedKind::ObsoleteFile => "obsolete-file",
        }
    }

    /// How grave it is, where no project says otherwise.
    pub fn severity(self) -> Severity
        ensures { result ≡ reported_severity self }
    {
        match self {
            ReportedKind::Finding(kind) => kind.severity(),
            ReportedKind::Difference(difference) => difference.severity(),
            ReportedKind::MissingFile => Severity::Error,
            ReportedKind::ObsoleteFile => Severity::Warning,
        }
    }
}

/// The kind that has the name, as `lint` or `compare` reports it. `None` where none has it.
pub fn reported_kind_of_name(name: &str) -> Option<ReportedKind>
    ensures named { IfSome result (λ kind. reported_name kind ≡ name.now) }
    ensures none { result ≡ None → (kind : ReportedKind) → reported_name kind ≢ name.now }
{
    match name {
        "missing-file" => return Some(ReportedKind::MissingFile),
        "obsolete-file" => return Some(ReportedKind::ObsoleteFile),
        _ => (),
    }
    match kind_of_name(name) {
        Some(kind) => Some(ReportedKind::Finding(kind)),
        None => match difference_of_name(name) {
            Some(difference) => Some(ReportedKind::Difference(difference)),
            None => None,
        },
    }
}

/// The kind of finding that has the name, as `lint` reports it. `None` where none has it.
pub fn kind_of_name(name: &str) -> Option<Kind>
    ensures named { IfSome result (λ kind. name_of kind ≡ name.now) }
    ensures none { result ≡ None → (kind : Kind) → name_of kind ≢ name.now }
{
    match name {
        "defined-twice" => Some(Kind::DefinedTwice),
        "attribute-twice" => Some(Kind::AttributeTwice),
        "variant-twice" => Some(Kind::VariantTwice),
        "undefined-message" => Some(Kind::UndefinedMessage),
        "undefined-term" => Some(Kind::UndefinedTerm),
        "undefined-attribute" => Some(Kind::UndefinedAttribute),
        "undefined-value" => Some(Kind::UndefinedValue),
        "cyclic-reference" => Some(Kind::CyclicReference),
        "plural-category" => Some(Kind::PluralCategory),
        _ => None,
    }
}

/// The difference that has the name, as `compare` reports it. `None` where none has it.
fn difference_of_name(name: &str) -> Option<Difference>
    ensures named { IfSome result (λ difference. difference_name difference ≡ name.now) }
    ensures none { result ≡ None → (difference : Difference) → difference_name difference ≢ name.now }
{
    match name {
        "missing" => Some(Difference::Missing),
        "missing-value" => Some(Difference::MissingValue),
        "missing-attribute" => Some(Difference::MissingAttribute),
        "missing-reference" => Some(Difference::MissingReference),
        "obsolete" => Some(Difference::Obsolete),
        "obsolete-value" => Some(Difference::ObsoleteValue),
        "obsolete-attribute" => Some(Difference::ObsoleteAttribute),
        "obsolete-reference" => Some(Difference::ObsoleteReference),
        "unknown-variable" => Some(Difference::UnknownVariable),
        "unknown-function" => Some(Difference::UnknownFunction),
        _ => None,
    }
}
