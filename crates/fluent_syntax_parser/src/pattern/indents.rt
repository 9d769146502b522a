//! The common indent of a pattern's lines.
ghost use Rattle.std.specs.Prelude.{◌≡◌, map};
ghost use Rattle.std.specs.List.{flat_map};
ghost use Rattle.fluent_syntax_grammar.specs.Layout.{least, counted};
ghost use Rattle.fluent_syntax_parser.specs.Elements.{flat_parts};
ghost use Rattle.fluent_syntax_parser.specs.Lines.{line_view};

use crate::pattern::line::{Line, Piece};
use crate::texts::MakeTexts;
use fluent_syntax_tree::edition::Edition;

/// The leading spaces that a line counts with, if it counts.
fn counted_spaces<M: MakeTexts>(edition: Edition, line: &Line<M::Text>) -> Option<usize>
    ensures { flat_parts result ≡ counted edition (line_view M.made line.now) }
{
    match line.pieces.first() {
        None => None,
        Some(Piece::Run { .. }) => Some(line.spaces),
        Some(Piece::Placed { .. }) => {
            if edition == Edition::Two || line.spaces == 0 {
                Some(line.spaces)
            } else {
                None
            }
        }
    }
}

/// The least number of leading spaces of the lines that count.
pub(crate) fn common_indent<M: MakeTexts>(
    edition: Edition,
    lines: &[Line<M::Text>],
) -> Option<usize>
    ensures { result ≡ least (flat_map (counted edition) (map (line_view M.made) lines.now)) }
{
    let mut common = None;
    let mut first = lines.len();
    while first > 0 {
        first -= 1;
        if let Some(spaces) = counted_spaces::<M>(edition, &lines[first]) {
            common = Some(match common {
                None => spaces,
                Some(least) => spaces.min(least),
            });
        }
    }
    common
}
