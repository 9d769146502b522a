//! The lines of a multiline pattern.
#![tactic(auto, using(fluent_syntax_tree::proofs::Views::views))]

ghost use Rattle.std.specs.Prelude.{◌≡◌, map, option_to_list};
ghost use Rattle.fluent_syntax_tree.specs.Tree.{text_element, elements_of};
ghost use Rattle.fluent_syntax_tree.specs.View.{element_view, pattern_view};
ghost use Rattle.fluent_syntax_grammar.specs.Canonical.{hides_mark, text_indents, placeable_indents, line_indents};
ghost use Rattle.fluent_syntax_grammar.specs.Canonical.{are_lone, first_position};
ghost use Rattle.fluent_syntax_grammar.specs.Layout.{least};
ghost use Rattle.fluent_syntax_grammar.specs.PatternTexts.{is_lone_lf};
ghost use Rattle.fluent_syntax_writer.specs.Places.{position_of, indents_at, element_indents, element_hides_mark};
ghost use Rattle.fluent_syntax_writer.specs.Places.{is_lone};
ghost use Rattle.fluent_syntax_writer.specs.Places.{is_lone_lf_at_line_start, least_of_two};
ghost use Rattle.fluent_syntax_writer.specs.RuleSets.{HoldsBroken};
ghost use Rattle.fluent_syntax_writer.specs.SingleRule.{lines_keep, flush_keeps};

use crate::canonical::elements::{ElementPosition, is_line_start, position_past};
use crate::canonical::patterns::{has_leading_mark, is_multiline};
use crate::canonical::rule_set::RuleSet;
use crate::canonical::rules::Rule;
use crate::canonical::texts::*;
use fluent_syntax_grammar::texts::is_lone_lf;
use fluent_syntax_tree::ast::{Pattern, PatternElement};
use fluent_syntax_tree::edition::Edition;
use fluent_syntax_tree::texts::ReadTexts;

/// Of the lines of the pattern, which is multiline or not.
pub fn lines_break<X, T: ReadTexts<X>>(
    edition: Edition,
    multiline: bool,
    pattern: &Pattern<X>,
) -> RuleSet
    ensures { HoldsBroken result (λ rule. lines_keep edition rule multiline (pattern_view T.text pattern.now)) }
{
    if !multiline {
        return RuleSet::none();
    }
    let position = first_position::<X, T>(pattern);
    RuleSet::unless(!hides_mark::<X, T>(pattern), Rule::HiddenMark).union(flush_breaks::<X, T>(
        edition,
        position,
        &pattern.elements,
    ))
}

/// Where the first element of a multiline pattern is: at the beginning of a line, unless it would be read as
/// something else there.
fn first_position<X, T: ReadTexts<X>>(pattern: &Pattern<X>) -> ElementPosition
    ensures { position_of result ≡ first_position (pattern_view T.text pattern.now) }
{
    if is_multiline::<X, T>(pattern) && !has_leading_mark::<X, T>(pattern) {
        ElementPosition::Opening
    } else {
        ElementPosition::AfterPlaceable
    }
}

/// Whether the first element is a text that begins with spaces and then `.`, `[` or `*`.
fn hides_mark<X, T: ReadTexts<X>>(pattern: &Pattern<X>) -> bool
    ensures { result ≡ hides_mark (pattern_view T.text pattern.now) }
{
    match pattern.elements.first() {
        Some(element) => element_hides_mark::<X, T>(element),
        None => false,
    }
}

fn element_hides_mark<X, T: ReadTexts<X>>(element: &PatternElement<X>) -> bool
    ensures { result ≡ element_hides_mark (element_view T.text element.now) }
{
    match element {
        PatternElement::TextElement { value } => text_hides_mark(T::as_str(value)),
        PatternElement::Placeable { .. } => false,
    }
}

fn text_hides_mark(text: &str) -> bool
    ensures { result ≡ element_hides_mark (text_element text.now) }
{
    begins_with_space(text) && begins_line_with_mark(text)
}

/// The least number of the lines is to be 0. Where no line has a number, each text that begins a line is to be one LF.
fn flush_breaks<X, T: ReadTexts<X>>(
    edition: Edition,
    position: ElementPosition,
    elements: &[PatternElement<X>],
) -> RuleSet
    ensures { HoldsBroken result (λ rule. flush_keeps rule
        (least (line_indents edition (position_of position) (elements_of (map (element_view T.text) elements.now))))
        (position_of position) (elements_of (map (element_view T.text) elements.now))) }
{
    match least_number::<X, T>(edition, position, elements) {
        Some(number) => RuleSet::unless(number == 0, Rule::CommonIndent),
        None => RuleSet::unless(
            are_lone::<X, T>(position, elements),
            Rule::SpacesOnBlankLine,
        ),
    }
}

/// The least number of the lines that begin at these elements, if a line has one.
fn least_number<X, T: ReadTexts<X>>(
    edition: Edition,
    first: ElementPosition,
    elements: &[PatternElement<X>],
) -> Option<usize>
    ensures { result ≡ least
        (line_indents edition (position_of first) (elements_of (map (element_view T.text) elements.now))) }
{
    let mut position = first;
    let mut least = None;
    for element in elements {
        least = least_of_two(least, line_number::<X, T>(edition, position, element));
        position = position_past::<X, T>(element);
    }
    least
}

fn least_of_two(a: Option<usize>, b: Option<usize>) -> Option<usize>
    ensures { result ≡ least_of_two a b }
{
    match (a, b) {
        (None, b) => b,
        (Some(a), None) => Some(a),
        (Some(a), Some(b)) => Some(a.min(b)),
    }
}

/// The number of the line that begins at the element, if one begins there and has a number.
fn line_number<X, T: ReadTexts<X>>(
    edition: Edition,
    position: ElementPosition,
    element: &PatternElement<X>,
) -> Option<usize>
    ensures { option_to_list result ≡ indents_at edition (position_of position) (element_view T.text element.now) }
{
    if is_line_start(position) {
        element_number::<X, T>(edition, element)
    } else {
        None
    }
}

fn element_number<X, T: ReadTexts<X>>(
    edition: Edition,
    element: &PatternElement<X>,
) -> Option<usize>
    ensures { option_to_list result ≡ element_indents edition (element_view T.text element.now) }
{
    match element {
        PatternElement::TextElement { value } => text_number(edition, T::as_str(value)),
        PatternElement::Placeable { .. } => placeable_number(edition),
    }
}

/// The spaces that begin the text, if it is nonblank; in edition two also those of spaces alone.
fn text_number(edition: Edition, text: &str) -> Option<usize>
    ensures { option_to_list result ≡ text_indents edition text.now }
{
    if is_nonblank(text) {
        return Some(leading_spaces(text.as_bytes()));
    }
    match edition {
        Edition::Two if is_spaces(text) => Some(text.len()),
        _ => None,
    }
}

fn placeable_number(edition: Edition) -> Option<usize>
    ensures { option_to_list result ≡ placeable_indents edition }
{
    match edition {
        Edition::One => None,
        Edition::Two => Some(0),
    }
}

/// Whether each text that begins a line is one LF.
fn are_lone<X, T: ReadTexts<X>>(first: ElementPosition, elements: &[PatternElement<X>]) -> bool
    ensures { result ≡ are_lone (position_of first) (elements_of (map (element_view T.text) elements.now)) }
{
    let mut position = first;
    for element in elements {
        if !is_lone_lf_at_line_start::<X, T>(position, element) {
            return false;
        }
        position = position_past::<X, T>(element);
    }
    true
}

/// Whether the element begins no line, is no text, or is one LF.
fn is_lone_lf_at_line_start<X, T: ReadTexts<X>>(
    position: ElementPosition,
    element: &PatternElement<X>,
) -> bool
    ensures { result ≡ is_lone_lf_at_line_start (position_of position) (element_view T.text element.now) }
{
    !is_line_start(position) || is_lone::<X, T>(element)
}

/// Whether the element is no text, or one LF.
fn is_lone<X, T: ReadTexts<X>>(element: &PatternElement<X>) -> bool
    ensures { result ≡ is_lone (element_view T.text element.now) }
{
    match element {
        PatternElement::TextElement { value } => is_lone_lf(T::as_str(value)),
        PatternElement::Placeable { .. } => true,
    }
}
