//! What is reported where one of two files lacks what the other has.
ghost use Rattle.std.specs.Prelude.{◌≡◌};
ghost use Rattle.fluent_syntax_names.specs.Differences.{difference_name, difference_severity, side_difference};

use crate::finding::Severity;
use crate::missing_part::Part;

/// One of two files that are compared.
#[derive(Clone, Copy, Debug, PartialEq, Eq)]
pub enum Side {
    /// That of the reference language.
    Reference,
    /// The one that is to be its translation.
    Other,
}

/// What is reported of a part that one of the files lacks.
#[derive(Clone, Copy, Debug, PartialEq, Eq)]
pub enum Difference {
    Missing,
    MissingValue,
    MissingAttribute,
    MissingReference,
    Obsolete,
    ObsoleteValue,
    ObsoleteAttribute,
    ObsoleteReference,
    UnknownVariable,
    UnknownFunction,
}

impl Side {
    /// What is reported of a part that this file has and the other one lacks. A translation may leave out a
    /// variable or a function.
    pub fn difference(self, part: Part) -> Option<Difference>
        ensures { result ≡ side_difference self part }
    {
        match (self, part) {
            (Side::Reference, Part::Entry) => Some(Difference::Missing),
            (Side::Reference, Part::Value) => Some(Difference::MissingValue),
            (Side::Reference, Part::Attribute) => Some(Difference::MissingAttribute),
            (Side::Reference, Part::Reference) => Some(Difference::MissingReference),
            (Side::Reference, Part::Variable | Part::Function) => None,
            (Side::Other, Part::Entry) => Some(Difference::Obsolete),
            (Side::Other, Part::Value) => Some(Difference::ObsoleteValue),
            (Side::Other, Part::Attribute) => Some(Difference::ObsoleteAttribute),
            (Side::Other, Part::Reference) => Some(Difference::ObsoleteReference),
            (Side::Other, Part::Variable) => Some(Difference::UnknownVariable),
            (Side::Other, Part::Function) => Some(Difference::UnknownFunction),
        }
    }
}

impl Difference {
    /// Its name, as a command line has it.
    pub fn name(self) -> &'static str
        ensures { result.now ≡ difference_name self }
    {
        match self {
            Difference::Missing => "missing",
            Difference::MissingValue => "missing-value",
            Difference::MissingAttribute => "missing-attribute",
            Difference::MissingReference => "missing-reference",
            Difference::Obsolete => "obsolete",
            Difference::ObsoleteValue => "obsolete-value",
            Difference::ObsoleteAttribute => "obsolete-attribute",
            Difference::ObsoleteReference => "obsolete-reference",
            Difference::UnknownVariable => "unknown-variable",
            Difference::UnknownFunction => "unknown-function",
        }
    }

    /// How grave it is.
    pub fn severity(self) -> Severity
        ensures { result ≡ difference_severity self }
    {
        match self {
            Difference::Missing | Difference::MissingValue => Severity::Error,
            Difference::MissingAttribute | Difference::UnknownVariable => Severity::Error,
            Difference::MissingReference | Difference::Obsolete => Severity::Warning,
            Difference::ObsoleteValue | Difference::ObsoleteAttribute => Severity::Warning,
            Difference::ObsoleteReference | Difference::UnknownFunction => Severity::Warning,
        }
    }
}
