//! Sets of broken rules.
ghost use Rattle.std.specs.Prelude.{◌≡◌, ◌&&◌, not, true};
ghost use Rattle.std.specs.List.{find};
ghost use Rattle.fluent_syntax_writer.specs.RuleSets.{keeps, HoldsBroken};
ghost use Rattle.fluent_syntax_writer.specs.SingleRule.{asks};

use crate::canonical::rules::Rule;

/// The rules that a part of a tree breaks.
#[derive(Clone, Copy)]
pub struct RuleSet {
    /// A bit for each rule, at its number.
    bits: u32,
}

impl RuleSet {
    pub fn none() -> RuleSet
        ensures { HoldsBroken result (λ rule. true) }
    {
        RuleSet { bits: 0 }
    }

    /// The rule, unless it is kept.
    pub fn unless(kept: bool, rule: Rule) -> RuleSet
        ensures { HoldsBroken result (λ other. asks rule other kept) }
    {
        if kept {
            RuleSet::none()
        } else {
            RuleSet {
                bits: 1 << (rule as u32),
            }
        }
    }

    pub fn union(self, other: RuleSet) -> RuleSet
        ensures { HoldsBroken result (λ rule. keeps self rule && keeps other rule) }
    {
        RuleSet {
            bits: self.bits | other.bits,
        }
    }

    fn contains(self, rule: Rule) -> bool
        ensures { result ≡ not (keeps self rule) }
    {
        (self.bits >> (rule as u32)) & 1 != 0
    }

    /// The first of the rules that is in the set.
    pub fn first_of(self, rules: &[Rule]) -> Option<Rule>
        ensures { result ≡ find (λ rule. not (keeps self rule)) rules.now }
    {
        for rule in rules {
            if self.contains(*rule) {
                return Some(*rule);
            }
        }
        None
    }
}
