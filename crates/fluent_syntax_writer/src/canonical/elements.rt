//! The elements of a pattern, by where they are.
#![tactic(auto, using(fluent_syntax_tree::proofs::Views::views))]

ghost use Rattle.std.specs.Prelude.{◌≡◌, map};
ghost use Rattle.fluent_syntax_tree.specs.Tree.{elements_of};
ghost use Rattle.fluent_syntax_tree.specs.View.{element_view};
ghost use Rattle.fluent_syntax_grammar.specs.Readable.{is_line_start, position_after, begins_with_placeable, indents};
ghost use Rattle.fluent_syntax_grammar.specs.Readable.{may_precede};
ghost use Rattle.fluent_syntax_writer.specs.Places.{position_of, position_past, is_placeable};

use crate::canonical::texts::{ends_plainly, is_spaces};
use fluent_syntax_grammar::texts::ends_in_lf;
use fluent_syntax_tree::ast::PatternElement;
use fluent_syntax_tree::edition::Edition;
use fluent_syntax_tree::texts::ReadTexts;

/// Where an element is.
#[derive(Clone, Copy)]
pub enum ElementPosition {
    /// First in its pattern.
    Opening,
    /// After a text that ends in LF.
    AfterLine,
    /// After another text.
    WithinLine,
    AfterPlaceable,
}

pub fn is_line_start(position: ElementPosition) -> bool
    ensures { result ≡ is_line_start (position_of position) }
{
    matches!(
        position,
        ElementPosition::Opening | ElementPosition::AfterLine
    )
}

/// Where the element is that follows a text.
fn position_after(text: &str) -> ElementPosition
    ensures { position_of result ≡ position_after text.now }
{
    if ends_in_lf(text) {
        ElementPosition::AfterLine
    } else {
        ElementPosition::WithinLine
    }
}

/// Where the element is that follows this one.
pub fn position_past<X, T: ReadTexts<X>>(element: &PatternElement<X>) -> ElementPosition
    ensures { position_of result ≡ position_past (element_view T.text element.now) }
{
    match element {
        PatternElement::TextElement { value } => position_after(T::as_str(value)),
        PatternElement::Placeable { .. } => ElementPosition::AfterPlaceable,
    }
}

/// Whether the text is the indent of a placeable: in edition two, spaces that a placeable directly follows.
pub fn indents<X, T: ReadTexts<X>>(edition: Edition, text: &str, rest: &[PatternElement<X>]) -> bool
    ensures { result ≡ indents edition text.now (elements_of (map (element_view T.text) rest.now)) }
{
    match edition {
        Edition::One => false,
        Edition::Two => is_spaces(text) && begins_with_placeable::<X, T>(rest),
    }
}

fn begins_with_placeable<X, T: ReadTexts<X>>(elements: &[PatternElement<X>]) -> bool
    ensures { result ≡ begins_with_placeable (elements_of (map (element_view T.text) elements.now)) }
{
    match elements.first() {
        Some(element) => is_placeable::<X, T>(element),
        None => false,
    }
}

fn is_placeable<X, T: ReadTexts<X>>(element: &PatternElement<X>) -> bool
    ensures { result ≡ is_placeable (element_view T.text element.now) }
{
    match element {
        PatternElement::TextElement { .. } => false,
        PatternElement::Placeable { .. } => true,
    }
}

/// Whether the text may have `rest` after it: a last text ends plainly.
pub fn may_precede<X, T: ReadTexts<X>>(text: &str, rest: &[PatternElement<X>]) -> bool
    ensures { result ≡ may_precede text.now (elements_of (map (element_view T.text) rest.now)) }
{
    !rest.is_empty() || ends_plainly(text)
}
