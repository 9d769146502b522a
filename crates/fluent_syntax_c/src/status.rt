//! How a call ends.
ghost use Rattle.std.specs.Prelude.{◌≡◌};
ghost use Rattle.fluent_syntax_c.specs.Status.{edit_refusal_number, status_number, refusal_number};

use crate::rules::rule_number;
use fluent_syntax::laws::Rule;

/// How a call ended: `enum ftl_status` of `include/fluent.h`.
#[derive(Clone, Copy)]
pub enum Status {
    /// All was given, and there is no syntax error.
    Clean,
    /// All was given, and there are syntax errors.
    SyntaxErrors,
    /// There is more to give than there is room for, and nothing was given but how much it is.
    TooSmall,
    /// Nothing was given.
    Refused(Refusal),
    /// Nothing was given, since the edit that was asked for is not made.
    NotEdited(EditRefusal),
}

/// Why nothing is given.
#[derive(Clone, Copy)]
pub enum Refusal {
    /// A number is of no command or no edition.
    Argument,
    /// The input is not UTF-8.
    Input,
    /// A growth was refused.
    Memory,
    /// The input nests more deeply than was allowed.
    Depth,
    /// The input is no JSON, or JSON that spells no tree.
    Tree,
}

/// Why an edit is not made.
#[derive(Clone, Copy)]
pub enum EditRefusal {
    /// The text has no such entry.
    NotFound,
    /// What is new is not exactly one entry, or one value.
    NotOneEntry,
    /// The new text would be read otherwise than as the text with the edit made.
    ReadsOtherwise,
    /// The entry has no value, or no such attribute.
    NoValue,
    /// What is new has syntax errors.
    PartHasErrors,
    /// Of several edits, two change the same stretch, or they are not in the order of the text.
    Overlap,
    /// The new text would be read otherwise, and what is new breaks this rule of canonical trees first.
    NotCanonical(Rule),
}

impl Status {
    /// The number that the caller gets.
    pub fn number(self) -> u32
        ensures { result ≡ status_number self }
    {
        match self {
            Status::Clean => 0,
            Status::SyntaxErrors => 1,
            Status::TooSmall => 5,
            Status::Refused(refusal) => refusal.number(),
            Status::NotEdited(refusal) => refusal.number(),
        }
    }
}

impl Refusal {
    fn number(self) -> u32
        ensures { result ≡ refusal_number self }
    {
        match self {
            Refusal::Argument => 2,
            Refusal::Input => 3,
            Refusal::Memory => 4,
            Refusal::Depth => 6,
            Refusal::Tree => 7,
        }
    }
}

impl EditRefusal {
    fn number(self) -> u32
        ensures { result ≡ edit_refusal_number self }
    {
        match self {
            EditRefusal::NotFound => 8,
            EditRefusal::NotOneEntry => 9,
            EditRefusal::ReadsOtherwise => 10,
            EditRefusal::NoValue => 11,
            EditRefusal::PartHasErrors => 12,
            EditRefusal::Overlap => 13,
            EditRefusal::NotCanonical(rule) => rule_number(rule),
        }
    }
}
