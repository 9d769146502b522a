//! Which pattern refers to which.
ghost use Rattle.std.specs.Prelude.{◌≡◌};
ghost use Rattle.fluent_syntax_names.specs.Cycles.{no_pattern, pattern_after, referenced_pattern};

use crate::definitions::{NAMELESS, message_name, term_name};
use crate::mention::Mention;
use crate::qualified_names::{EntryName, PatternName};
use fluent_syntax_tree::spans::Span;

/// Before any pattern.
pub(crate) const NO_PATTERN: PatternName = PatternName {
    entry: NAMELESS,
    attribute: None,
};

/// The value of an entry.
fn value_of(entry: EntryName) -> PatternName
    ensures { result ≡ record { entry = entry; attribute = None } }
{
    PatternName {
        entry,
        attribute: None,
    }
}

/// Which pattern follows the mention.
pub(crate) fn pattern_after(pattern: PatternName, mention: &Mention<Span>) -> PatternName
    ensures { result ≡ pattern_after pattern mention.now }
{
    match mention {
        Mention::Message { name, .. } => value_of(message_name(*name)),
        Mention::Term { name } => value_of(term_name(*name)),
        Mention::Attribute { name } => PatternName {
            entry: pattern.entry,
            attribute: Some(*name),
        },
        _ => pattern,
    }
}

/// The pattern that the mention refers to, if it refers to one.
pub(crate) fn referenced_pattern(mention: &Mention<Span>) -> Option<PatternName>
    ensures { result ≡ referenced_pattern mention.now }
{
    match mention {
        Mention::MessageReference { name, attribute } => Some(PatternName {
            entry: message_name(*name),
            attribute: *attribute,
        }),
        Mention::TermReference { name, attribute } => Some(PatternName {
            entry: term_name(*name),
            attribute: *attribute,
        }),
        _ => None,
    }
}
