//! Numbers of the rules of canonical trees.
ghost use Rattle.std.specs.Prelude.{◌≡◌};
ghost use Rattle.fluent_syntax_c.specs.Rules.{rule_number};

use fluent_syntax::laws::Rule;

/// The number of a rule, as a status: `enum ftl_rule` of `include/fluent.h`.
pub(crate) fn rule_number(rule: Rule) -> u32
    ensures { result ≡ rule_number rule }
{
    match rule {
        Rule::Junk => 101,
        Rule::EmptyMessage => 102,
        Rule::LfInComment => 103,
        Rule::EmptyPattern => 104,
        Rule::EmptyText => 105,
        Rule::BraceInText => 106,
        Rule::CrBeforeLf => 107,
        Rule::LfWithinText => 108,
        Rule::TextAfterText => 109,
        Rule::BlankFirstText => 110,
        Rule::LeadingSpace => 111,
        Rule::BlankEnd => 112,
        Rule::LineOfSpaces => 113,
        Rule::MarkedLine => 114,
        Rule::ForbiddenSelector => 115,
        Rule::SecondDefault => 116,
        Rule::TermAttribute => 117,
        Rule::ForbiddenCallee => 118,
        Rule::ForbiddenArgument => 119,
        Rule::RepeatedArgument => 120,
        Rule::MisspelledString => 121,
        Rule::MisspelledNumber => 122,
        Rule::MisspelledName => 123,
        Rule::EmptyComment => 124,
        Rule::BlankCommentLine => 125,
        Rule::HiddenMark => 126,
        Rule::CommonIndent => 127,
        Rule::SpacesOnBlankLine => 128,
        Rule::NoDefault => 129,
    }
}
