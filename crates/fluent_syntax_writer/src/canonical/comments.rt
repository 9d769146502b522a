//! Comments.
ghost use Rattle.std.specs.Prelude.{◌≡◌, map, not};
ghost use Rattle.std.specs.List.{list_all};
ghost use Rattle.fluent_syntax_grammar.specs.Canonical.{is_plain_line};
ghost use Rattle.fluent_syntax_grammar.specs.Readable.{are_lines};
ghost use Rattle.fluent_syntax_grammar.specs.Written.{has_lf};

use crate::canonical::texts::{has_lf, is_nonblank_line};
use fluent_syntax_tree::texts::ReadTexts;

/// Whether no line holds an LF.
pub fn are_lines<X, T: ReadTexts<X>>(content: &[X]) -> bool
    ensures { result ≡ are_lines (map T.text content.now) }
{
    content.iter().all(|line| is_line(T::as_str(line)))
}

fn is_line(line: &str) -> bool
    ensures { result ≡ not (has_lf line.now) }
{
    !has_lf(line.as_bytes())
}

pub fn are_plain_lines<X, T: ReadTexts<X>>(content: &[X]) -> bool
    ensures { result ≡ list_all is_plain_line (map T.text content.now) }
{
    content.iter().all(|line| is_plain_line(T::as_str(line)))
}

/// Whether the line is empty, or holds a byte other than space, CR and LF.
fn is_plain_line(line: &str) -> bool
    ensures { result ≡ is_plain_line line.now }
{
    line.is_empty() || is_nonblank_line(line)
}
