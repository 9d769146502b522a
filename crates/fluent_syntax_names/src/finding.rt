//! What is found.
ghost use Rattle.std.specs.Prelude.{◌≡◌};
ghost use Rattle.fluent_syntax_names.specs.Severities.{severity_of, name_of, is_local};

use fluent_syntax_tree::spans::Span;

/// A mistake in a set of files.
#[derive(Clone, Copy, Debug, PartialEq, Eq)]
pub struct Finding {
    pub kind: Kind,
    /// The number of the file that has it, from 0.
    pub file: usize,
    /// The name or the key there, as it is in the text; `None` where the file has no place for what it lacks.
    pub place: Option<Span>,
    /// The other place that it speaks of: of a name or a key that is given twice the first one.
    pub other: Option<Place>,
}

/// A name or a key in a file.
#[derive(Clone, Copy, Debug, PartialEq, Eq)]
pub struct Place {
    /// The number of the file, from 0.
    pub file: usize,
    pub span: Span,
}

/// Which mistake it is.
#[derive(Clone, Copy, Debug, PartialEq, Eq)]
pub enum Kind {
    /// The file has defined a message or term of this name before.
    DefinedTwice,
    /// The entry has an attribute of this name before.
    AttributeTwice,
    /// The select has a variant with this key before.
    VariantTwice,
    /// No file defines the message that is referred to.
    UndefinedMessage,
    /// No file defines the term that is referred to.
    UndefinedTerm,
    /// A file defines the message or term, and none the attribute of it that is referred to.
    UndefinedAttribute,
    /// A file defines the message that is referred to, and none with a value.
    UndefinedValue,
    /// What is referred to reaches the pattern that refers to it.
    CyclicReference,
    /// The language never chooses the variant with this key, by its plural categories.
    PluralCategory,
}

/// How grave a finding is.
#[derive(Clone, Copy, Debug, PartialEq, Eq)]
pub enum Severity {
    /// Users see it.
    Error,
    /// It may be meant so.
    Warning,
}

impl Kind {
    /// How grave a finding of this kind is.
    pub fn severity(self) -> Severity
        ensures { result ≡ severity_of self }
    {
        match self {
            Kind::DefinedTwice | Kind::AttributeTwice => Severity::Error,
            Kind::UndefinedMessage | Kind::UndefinedTerm => Severity::Error,
            Kind::UndefinedAttribute | Kind::UndefinedValue => Severity::Error,
            Kind::CyclicReference => Severity::Error,
            Kind::VariantTwice | Kind::PluralCategory => Severity::Warning,
        }
    }

    /// Its name, as a command line has it.
    pub fn name(self) -> &'static str
        ensures { result.now ≡ name_of self }
    {
        match self {
            Kind::DefinedTwice => "defined-twice",
            Kind::AttributeTwice => "attribute-twice",
            Kind::VariantTwice => "variant-twice",
            Kind::UndefinedMessage => "undefined-message",
            Kind::UndefinedTerm => "undefined-term",
            Kind::UndefinedAttribute => "undefined-attribute",
            Kind::UndefinedValue => "undefined-value",
            Kind::CyclicReference => "cyclic-reference",
            Kind::PluralCategory => "plural-category",
        }
    }

    /// Whether a finding of this kind in a file is one whatever there is in other files. What no file defines may be
    /// defined in one more.
    pub fn is_local(self) -> bool
        ensures { result ≡ is_local self }
    {
        match self {
            Kind::DefinedTwice | Kind::AttributeTwice | Kind::VariantTwice => true,
            Kind::CyclicReference | Kind::PluralCategory => true,
            Kind::UndefinedMessage | Kind::UndefinedTerm => false,
            Kind::UndefinedAttribute | Kind::UndefinedValue => false,
        }
    }
}
