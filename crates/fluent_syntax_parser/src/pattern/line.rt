//! A line of a pattern.
ghost use Rattle.std.specs.Prelude.{◌+◌, ◌<◌, ◌^◌};
ghost use Rattle.fluent_syntax_parser.specs.Endings.{EndsWithin};

use fluent_syntax_tree::ast::Expression;
use fluent_syntax_tree::spans::Span;

/// A run of text, or a placeable.
#[derive(Drop)]
pub(crate) enum Piece<T> {
    Run { from: usize, to: usize },
    Placed { expression: Box<Expression<T>> },
}

/// How a line ends: LF or CRLF, which begins at the place, or the text's end.
#[derive(Clone, Copy, Debug)]
pub(crate) enum Ending {
    Lf(usize),
    Crlf(usize),
    TextEnd,
}

/// What is left of the line on which a pattern opens, after its last placeable: a run, which may be empty, and the
/// line's ending.
#[derive(Clone, Copy, Debug)]
pub(crate) struct OpeningEnd {
    pub(crate) run: Span,
    pub(crate) ending: Ending,
    ghost ends: { EndsWithin ending },
}

/// A line of a pattern: its leading spaces, what follows them, and its ending.
#[derive(Drop)]
pub(crate) struct Line<T> {
    pub(crate) start: usize,
    pub(crate) spaces: usize,
    pub(crate) pieces: Vec<Piece<T>>,
    pub(crate) ending: Ending,
    ghost fits: { start + spaces < 2 ^ 64 },
    ghost ends: { EndsWithin ending },
}
