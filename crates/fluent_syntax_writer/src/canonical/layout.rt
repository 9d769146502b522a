//! The rules that a pattern breaks by its texts and lines.
#![tactic(auto, using(fluent_syntax_tree::proofs::Views::views))]

ghost use Rattle.std.specs.Prelude.{◌≡◌, ◌&&◌, map};
ghost use Rattle.fluent_syntax_tree.specs.Tree.{elements_of};
ghost use Rattle.fluent_syntax_tree.specs.View.{element_view, pattern_view};
ghost use Rattle.fluent_syntax_grammar.specs.Readable.{opening};
ghost use Rattle.fluent_syntax_writer.specs.Places.{position_of, element_keeps};
ghost use Rattle.fluent_syntax_writer.specs.RuleSets.{HoldsBroken};
ghost use Rattle.fluent_syntax_writer.specs.SingleRule.{pattern_keeps, has_element, texts_keep, text_keeps};
ghost use Rattle.fluent_syntax_writer.specs.SingleRule.{spelling_keeps, place_keeps, may_begin, is_tight};
ghost use Rattle.fluent_syntax_writer.specs.SingleRule.{may_begin_line};

use crate::canonical::elements::{ElementPosition, indents, may_precede, position_past};
use crate::canonical::flush::lines_break;
use crate::canonical::patterns::is_multiline;
use crate::canonical::plain::is_plain_pattern;
use crate::canonical::rule_set::RuleSet;
use crate::canonical::rules::Rule;
use crate::canonical::texts::*;
use fluent_syntax_grammar::texts::without_last_lf;
use fluent_syntax_tree::ast::{Pattern, PatternElement};
use fluent_syntax_tree::edition::Edition;
use fluent_syntax_tree::texts::ReadTexts;

/// Of the pattern itself, not of the expressions that it holds.
pub fn layout_breaks<X, T: ReadTexts<X>>(edition: Edition, pattern: &Pattern<X>) -> RuleSet
    ensures { HoldsBroken result (λ rule. pattern_keeps edition rule (pattern_view T.text pattern.now)) }
{
    if is_plain_pattern::<X, T>(pattern) {
        return RuleSet::none();
    }
    let multiline = is_multiline::<X, T>(pattern);
    RuleSet::unless(has_element::<X, T>(&pattern.elements), Rule::EmptyPattern)
        .union(texts_break::<X, T>(edition, multiline, &pattern.elements))
        .union(lines_break::<X, T>(edition, multiline, pattern))
}

fn has_element<X, T: ReadTexts<X>>(elements: &[PatternElement<X>]) -> bool
    ensures { result ≡ has_element (elements_of (map (element_view T.text) elements.now)) }
{
    !elements.is_empty()
}

fn texts_break<X, T: ReadTexts<X>>(
    edition: Edition,
    multiline: bool,
    elements: &[PatternElement<X>],
) -> RuleSet
    ensures { HoldsBroken result (λ rule. texts_keep edition rule multiline opening
        (elements_of (map (element_view T.text) elements.now))) }
{
    let mut broken = RuleSet::none();
    let mut position = ElementPosition::Opening;
    for (index, element) in elements.iter().enumerate() {
        let rest = &elements[index + 1..];
        broken = broken.union(element_breaks::<X, T>(edition, multiline, position, element, rest));
        position = position_past::<X, T>(element);
    }
    broken
}

/// `rest` are the elements after it.
fn element_breaks<X, T: ReadTexts<X>>(
    edition: Edition,
    multiline: bool,
    position: ElementPosition,
    element: &PatternElement<X>,
    rest: &[PatternElement<X>],
) -> RuleSet
    ensures { HoldsBroken result (λ rule. element_keeps edition rule multiline (position_of position)
        (element_view T.text element.now) (elements_of (map (element_view T.text) rest.now))) }
{
    match element {
        PatternElement::TextElement { value } => {
            text_breaks::<X, T>(edition, multiline, position, T::as_str(value), rest)
        }
        PatternElement::Placeable { .. } => RuleSet::none(),
    }
}

fn text_breaks<X, T: ReadTexts<X>>(
    edition: Edition,
    multiline: bool,
    position: ElementPosition,
    text: &str,
    rest: &[PatternElement<X>],
) -> RuleSet
    ensures { HoldsBroken result (λ rule. text_keeps edition rule multiline (position_of position) text.now
        (elements_of (map (element_view T.text) rest.now))) }
{
    spelling_breaks(text)
        .union(place_breaks::<X, T>(edition, multiline, position, text, rest))
        .union(RuleSet::unless(may_precede::<X, T>(text, rest), Rule::BlankEnd))
}

/// Of the text wherever it is. Most texts pass all these tests at once.
fn spelling_breaks(text: &str) -> RuleSet
    ensures { HoldsBroken result (λ rule. spelling_keeps rule text.now) }
{
    if is_text(text) {
        return RuleSet::none();
    }
    let bytes = text.as_bytes();
    RuleSet::unless(!bytes.is_empty(), Rule::EmptyText)
        .union(RuleSet::unless(!has_brace(bytes), Rule::BraceInText))
        .union(RuleSet::unless(!has_crlf(bytes), Rule::CrBeforeLf))
        .union(RuleSet::unless(!has_lf(without_last_lf(bytes)), Rule::LfWithinText))
}

/// Of the text by where it is.
fn place_breaks<X, T: ReadTexts<X>>(
    edition: Edition,
    multiline: bool,
    position: ElementPosition,
    text: &str,
    rest: &[PatternElement<X>],
) -> RuleSet
    ensures { HoldsBroken result (λ rule. place_keeps edition rule multiline (position_of position) text.now
        (elements_of (map (element_view T.text) rest.now))) }
{
    match position {
        ElementPosition::Opening => {
            let may_begin = may_begin::<X, T>(edition, multiline, text, rest);
            RuleSet::unless(may_begin, Rule::BlankFirstText).union(RuleSet::unless(
                is_tight(multiline, text),
                Rule::LeadingSpace,
            ))
        }
        ElementPosition::AfterLine => {
            let may_begin = may_begin_line::<X, T>(edition, text, rest);
            RuleSet::unless(may_begin, Rule::LineOfSpaces).union(RuleSet::unless(
                !begins_line_with_mark(text),
                Rule::MarkedLine,
            ))
        }
        ElementPosition::WithinLine => RuleSet::unless(false, Rule::TextAfterText),
        ElementPosition::AfterPlaceable => RuleSet::none(),
    }
}

/// Whether the text may be first: it is nonblank, or in a multiline pattern indents a placeable.
fn may_begin<X, T: ReadTexts<X>>(
    edition: Edition,
    multiline: bool,
    text: &str,
    rest: &[PatternElement<X>],
) -> bool
    ensures { result ≡ may_begin edition multiline text.now (elements_of (map (element_view T.text) rest.now)) }
{
    is_nonblank(text) || multiline && indents::<X, T>(edition, text, rest)
}

fn is_tight(multiline: bool, text: &str) -> bool
    ensures { result ≡ is_tight multiline text.now }
{
    multiline || !begins_with_space(text)
}

/// Whether the text may begin a later line: it is not spaces alone, or indents a placeable.
fn may_begin_line<X, T: ReadTexts<X>>(
    edition: Edition,
    text: &str,
    rest: &[PatternElement<X>],
) -> bool
    ensures { result ≡ may_begin_line edition text.now (elements_of (map (element_view T.text) rest.now)) }
{
    !is_spaces(text) || indents::<X, T>(edition, text, rest)
}
