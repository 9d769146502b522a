//! Kinds of findings: their numbers, how grave they are, and their names.
ghost use Rattle.std.specs.Prelude.{◌≡◌, IfNone, IfSome};
ghost use Rattle.fluent_syntax_c.specs.FindingKinds.{IsNoFindingKind, between_number, finding_kind_name};
ghost use Rattle.fluent_syntax_c.specs.FindingKinds.{finding_kind_number};
ghost use Rattle.fluent_syntax_c.specs.FindingKinds.{finding_kind_severity, severity_number, within_number};

use fluent_syntax_names::{Difference, Kind, Severity};

/// What is found: `enum ftl_finding_kind` of `include/fluent.h`.
#[derive(Clone, Copy)]
pub enum FindingKind {
    /// In the texts of one language.
    Within(Kind),
    /// Between a reference and another text.
    Between(Difference),
}

impl FindingKind {
    pub(crate) fn number(self) -> u32
        ensures { result ≡ finding_kind_number self }
    {
        match self {
            FindingKind::Within(kind) => within_number(kind),
            FindingKind::Between(difference) => between_number(difference),
        }
    }

    /// The number of how grave a finding of the kind is.
    pub(crate) fn severity_number(self) -> u32
        ensures { result ≡ severity_number (finding_kind_severity self) }
    {
        let severity = match self {
            FindingKind::Within(kind) => kind.severity(),
            FindingKind::Between(difference) => difference.severity(),
        };
        severity_number(severity)
    }

    /// Its name, as a command line has it.
    pub(crate) fn name(self) -> &'static str
        ensures { result.now ≡ finding_kind_name self }
    {
        match self {
            FindingKind::Within(kind) => kind.name(),
            FindingKind::Between(difference) => difference.name(),
        }
    }
}

fn between_number(difference: Difference) -> u32
    ensures { result ≡ between_number difference }
{
    match difference {
        Difference::Missing => 101,
        Difference::MissingValue => 102,
        Difference::MissingAttribute => 103,
        Difference::MissingReference => 104,
        Difference::Obsolete => 105,
        Difference::ObsoleteValue => 106,
        Difference::ObsoleteAttribute => 107,
        Difference::UnknownVariable => 108,
        Difference::ObsoleteReference => 109,
        Difference::UnknownFunction => 110,
    }
}

fn within_number(kind: Kind) -> u32
    ensures { result ≡ within_number kind }
{
    match kind {
        Kind::DefinedTwice => 1,
        Kind::AttributeTwice => 2,
        Kind::UndefinedMessage => 3,
        Kind::UndefinedTerm => 4,
        Kind::UndefinedAttribute => 5,
        Kind::UndefinedValue => 6,
        Kind::CyclicReference => 7,
        Kind::VariantTwice => 8,
        Kind::PluralCategory => 9,
    }
}

/// The number of how grave a finding is: `enum ftl_severity` of `include/fluent.h`.
fn severity_number(severity: Severity) -> u32
    ensures { result ≡ severity_number severity }
{
    match severity {
        Severity::Error => 1,
        Severity::Warning => 2,
    }
}

/// The kind of the number.
pub(crate) fn finding_kind_at(number: u32) -> Option<FindingKind>
    ensures some { IfSome result (λ kind. finding_kind_number kind ≡ number) }
    ensures none { IfNone result (IsNoFindingKind number) }
{
    match number {
        1 => Some(FindingKind::Within(Kind::DefinedTwice)),
        2 => Some(FindingKind::Within(Kind::AttributeTwice)),
        3 => Some(FindingKind::Within(Kind::UndefinedMessage)),
        4 => Some(FindingKind::Within(Kind::UndefinedTerm)),
        5 => Some(FindingKind::Within(Kind::UndefinedAttribute)),
        6 => Some(FindingKind::Within(Kind::UndefinedValue)),
        7 => Some(FindingKind::Within(Kind::CyclicReference)),
        8 => Some(FindingKind::Within(Kind::VariantTwice)),
        9 => Some(FindingKind::Within(Kind::PluralCategory)),
        101 => Some(FindingKind::Between(Difference::Missing)),
        102 => Some(FindingKind::Between(Difference::MissingValue)),
        103 => Some(FindingKind::Between(Difference::MissingAttribute)),
        104 => Some(FindingKind::Between(Difference::MissingReference)),
        105 => Some(FindingKind::Between(Difference::Obsolete)),
        106 => Some(FindingKind::Between(Difference::ObsoleteValue)),
        107 => Some(FindingKind::Between(Difference::ObsoleteAttribute)),
        108 => Some(FindingKind::Between(Difference::UnknownVariable)),
        109 => Some(FindingKind::Between(Difference::ObsoleteReference)),
        110 => Some(FindingKind::Between(Difference::UnknownFunction)),
        _ => None,
    }
}
