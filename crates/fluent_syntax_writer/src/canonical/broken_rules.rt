//! Which entry of a tree is the first that is not canonical, and which rule it breaks.
ghost use Rattle.std.specs.Prelude.{◌≡◌, is_none, map};
ghost use Rattle.fluent_syntax_tree.specs.View.{entry_view};
ghost use Rattle.fluent_syntax_grammar.specs.Canonical.{canonical_rules};
ghost use Rattle.fluent_syntax_grammar.specs.Readable.{readable_rules};
ghost use Rattle.fluent_syntax_grammar.specs.Rules.{entry_obeys, body_obeys};
ghost use Rattle.fluent_syntax_writer.specs.Uncanonical.{broken_rule, first_uncanonical};

use crate::canonical::rules::{READABLE_RULES, RULES, Rule};
use crate::canonical::walk::{RuleCheck, entry_breaks};
use fluent_syntax_tree::ast::Entry;
use fluent_syntax_tree::texts::ReadTexts;

/// An entry of a tree, and the rule by which it is not canonical.
#[derive(Clone, Copy, Debug, Drop, Eq, PartialEq)]
pub struct Uncanonical {
    /// The number of the entry in the tree's body, from 0.
    pub entry: usize,
    /// The first rule that the entry breaks.
    pub rule: Rule,
}

pub fn first_uncanonical<X, T: ReadTexts<X>>(
    check: RuleCheck,
    entries: &[Entry<X>],
) -> Option<Uncanonical>
    ensures { result ≡ first_uncanonical check.edition (map (entry_view T.text) entries.now) }
{
    for (index, entry) in entries.iter().enumerate() {
        if let Some(rule) = broken_rule::<X, T>(check, entry) {
            return Some(Uncanonical { entry: index, rule });
        }
    }
    None
}

/// The first rule that the entry breaks.
pub fn broken_rule<X, T: ReadTexts<X>>(check: RuleCheck, entry: &Entry<X>) -> Option<Rule>
    ensures exact { result ≡ broken_rule check.edition (entry_view T.text entry.now) }
    ensures none { is_none result ≡ entry_obeys (canonical_rules check.edition) (entry_view T.text entry.now) }
{
    entry_breaks::<X, T>(check, entry).first_of(&RULES)
}

/// Whether each entry is readable.
pub fn are_readable<X, T: ReadTexts<X>>(check: RuleCheck, entries: &[Entry<X>]) -> bool
    ensures { result ≡ body_obeys (readable_rules check.edition) (map (entry_view T.text) entries.now) }
{
    for entry in entries {
        if !is_readable::<X, T>(check, entry) {
            return false;
        }
    }
    true
}

fn is_readable<X, T: ReadTexts<X>>(check: RuleCheck, entry: &Entry<X>) -> bool
    ensures { result ≡ entry_obeys (readable_rules check.edition) (entry_view T.text entry.now) }
{
    let broken = entry_breaks::<X, T>(check, entry);
    broken.first_of(&RULES[..READABLE_RULES]).is_none()
}
