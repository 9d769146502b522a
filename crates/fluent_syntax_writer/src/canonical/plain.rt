//! The usual pattern: one text on one line.
#![tactic(auto, using(fluent_syntax_tree::proofs::Views::views))]

ghost use Rattle.std.specs.Prelude.{◌≡◌};
ghost use Rattle.fluent_syntax_tree.specs.Tree.{no_elements, elements};
ghost use Rattle.fluent_syntax_tree.specs.View.{element_view, pattern_view};
ghost use Rattle.fluent_syntax_writer.specs.Texts.{is_plain_pattern, is_plain_text};

use crate::canonical::texts::{begins_with_space, ends_plainly, is_text};
use fluent_syntax_tree::ast::{Pattern, PatternElement};
use fluent_syntax_tree::texts::ReadTexts;

/// Whether the pattern is one text on one line, without a space at either end. Such a pattern obeys all rules of
/// patterns, in each edition.
pub fn is_plain_pattern<X, T: ReadTexts<X>>(pattern: &Pattern<X>) -> bool
    ensures { result ≡ is_plain_pattern (pattern_view T.text pattern.now) }
{
    match pattern.elements.as_slice() {
        [element] => is_plain_element::<X, T>(element),
        _ => false,
    }
}

fn is_plain_element<X, T: ReadTexts<X>>(element: &PatternElement<X>) -> bool
    ensures { result ≡ is_plain_pattern (elements (element_view T.text element.now) no_elements) }
{
    match element {
        PatternElement::TextElement { value } => is_plain_text(T::as_str(value)),
        PatternElement::Placeable { .. } => false,
    }
}

fn is_plain_text(text: &str) -> bool
    ensures { result ≡ is_plain_text text.now }
{
    is_text(text) && !begins_with_space(text) && ends_plainly(text)
}
