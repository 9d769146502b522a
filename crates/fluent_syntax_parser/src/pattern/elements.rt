//! The items that the lines of a pattern spell.
ghost use Rattle.std.specs.Prelude.{◌≡◌, ◌+◌, ◌<◌, ◌^◌, ◌++◌, [], map, OnOk};
ghost use Rattle.std.specs.List.{flat_map};
ghost use Rattle.fluent_syntax_parser.specs.Elements.{blank_line_items, flushed, indent_of, item_shape, kept_place};
ghost use Rattle.fluent_syntax_parser.specs.Elements.{leading};
ghost use Rattle.fluent_syntax_parser.specs.Elements.{pending_run, rest_items};
ghost use Rattle.fluent_syntax_grammar.specs.Elements.{line_items, with_ending};
ghost use Rattle.fluent_syntax_parser.specs.Endings.{EndsWithin};
ghost use Rattle.fluent_syntax_parser.specs.Lines.{ending_view, line_shape, piece_shape};

use crate::pattern::line::{Ending, Line, OpeningEnd, Piece};
use fluent_syntax_tree::edition::Edition;
use std::alloc::AllocError;

/// Adds the run that waits, if one does.
fn add_pending_run<T: Drop>(
    pending: Option<(usize, usize)>,
    items: &mut Vec<Piece<T>>,
) -> Result<(), AllocError>
    ensures { OnOk result (map item_shape items.new.items ≡ flushed (map item_shape items.old.items) pending) }
{
    match pending {
        Some((from, to)) => items.push(Piece::Run { from, to })?,
        None => {}
    }
    Ok(())
}

/// Adds the last run of a line, where one waits, and the line's ending: an LF belongs to the text before it.
fn add_ending<T: Drop>(
    pending: Option<(usize, usize)>,
    ending: Ending,
    items: &mut Vec<Piece<T>>,
) -> Result<(), AllocError>
    requires { EndsWithin ending }
    ensures { OnOk result (map item_shape items.new.items
        ≡ map item_shape items.old.items ++ with_ending (pending_run pending []) (ending_view ending)) }
{
    match (pending, ending) {
        (Some((from, _)), Ending::Lf(place)) => items.push(Piece::Run {
            from,
            to: place + 1,
        })?,
        (None, Ending::Lf(place)) => items.push(Piece::Run {
            from: place,
            to: place + 1,
        })?,
        (Some((from, to)), Ending::Crlf(place)) => {
            items.push(Piece::Run { from, to })?;
            items.push(Piece::Run {
                from: place + 1,
                to: place + 2,
            })?;
        }
        (None, Ending::Crlf(place)) => items.push(Piece::Run {
            from: place + 1,
            to: place + 2,
        })?,
        (Some((from, to)), Ending::TextEnd) => items.push(Piece::Run { from, to })?,
        (None, Ending::TextEnd) => {}
    }
    Ok(())
}

/// Adds the pieces of a line and its ending. A run that begins the line begins at `led`, if that is given.
fn add_pieces<T: Drop>(
    led: Option<usize>,
    pieces: Vec<Piece<T>>,
    ending: Ending,
    items: &mut Vec<Piece<T>>,
) -> Result<(), AllocError>
    requires { EndsWithin ending }
    ensures { let found = leading led (map piece_shape pieces.items) in
        OnOk result (map item_shape items.new.items
        ≡ map item_shape items.old.items ++ with_ending found (ending_view ending)) }
{
    let mut led = led;
    let mut pending = None;
    for piece in pieces {
        add_pending_run(pending, items)?;
        pending = match piece {
            Piece::Run { from, to } => Some((led.unwrap_or(from), to)),
            Piece::Placed { expression } => {
                items.push(Piece::Placed { expression })?;
                None
            }
        };
        led = None;
    }
    add_ending(pending, ending, items)
}

/// Where the leading spaces of a line beyond the common indent begin.
fn common_indent_end(common: Option<usize>, start: usize, spaces: usize) -> usize
    requires { start + spaces < 2 ^ 64 }
    ensures { result ≡ kept_place common start spaces }
{
    match common {
        None => start + spaces,
        Some(common) => start + spaces.min(common),
    }
}

/// The leading spaces of a line beyond the common indent, where they are a text of their own.
fn indent_of<T: Drop>(
    edition: Edition,
    kept: usize,
    first: usize,
    pieces: &[Piece<T>],
) -> Option<(usize, usize)>
    ensures { result ≡ indent_of edition kept first (map piece_shape pieces.now) }
{
    match pieces.first() {
        None => None,
        Some(Piece::Run { .. }) => None,
        Some(Piece::Placed { .. }) => match edition {
            Edition::One => None,
            Edition::Two => {
                if kept < first {
                    Some((kept, first))
                } else {
                    None
                }
            }
        },
    }
}

/// Adds a line that holds nothing, whose leading spaces count from `kept` on.
fn add_bare_line<T: Drop>(
    kept: usize,
    ending: Ending,
    items: &mut Vec<Piece<T>>,
) -> Result<(), AllocError>
    requires { EndsWithin ending }
    ensures { OnOk result (map item_shape items.new.items
        ≡ map item_shape items.old.items ++ blank_line_items kept (ending_view ending)) }
{
    match ending {
        Ending::Lf(place) => items.push(Piece::Run {
            from: kept,
            to: place + 1,
        })?,
        Ending::Crlf(place) => items.push(Piece::Run {
            from: place + 1,
            to: place + 2,
        })?,
        Ending::TextEnd => {}
    }
    Ok(())
}

/// Adds a line that is not the opening line.
fn add_line<T: Drop>(
    edition: Edition,
    common: Option<usize>,
    line: Line<T>,
    items: &mut Vec<Piece<T>>,
) -> Result<(), AllocError>
    requires spaces { line.start + line.spaces < 2 ^ 64 }
    requires ending { EndsWithin line.ending }
    ensures { OnOk result (map item_shape items.new.items
        ≡ map item_shape items.old.items ++ line_items edition common (line_shape line)) }
{
    let Line {
        start,
        spaces,
        pieces,
        ending,
    } = line;
    let kept = common_indent_end(common, start, spaces);
    if pieces.is_empty() {
        return add_bare_line(kept, ending, items);
    }
    let indent = indent_of(edition, kept, start + spaces, &pieces);
    add_pending_run(indent, items)?;
    add_pieces(Some(kept), pieces, ending, items)
}

/// Adds the run that is left of the line on which a pattern opens, and that line's ending.
pub(crate) fn add_opening_end<T: Drop>(
    opening: OpeningEnd,
    items: &mut Vec<Piece<T>>,
) -> Result<(), AllocError>
    ensures { OnOk result (map item_shape items.new.items ≡ map item_shape items.old.items ++ rest_items opening) }
{
    let OpeningEnd { run, ending } = opening;
    if run.start < run.end {
        add_ending(Some((run.start, run.end)), ending, items)
    } else {
        add_ending(None, ending, items)
    }
}

/// Adds the items of the other lines, under a common indent.
#[inline(never)]
pub(crate) fn add_lines<T: Drop>(
    edition: Edition,
    common: Option<usize>,
    lines: Vec<Line<T>>,
    items: &mut Vec<Piece<T>>,
) -> Result<(), AllocError>
    ensures { OnOk result (map item_shape items.new.items ≡ map item_shape items.old.items
        ++ flat_map (line_items edition common) (map line_shape lines.items)) }
{
    for line in lines {
        add_line(edition, common, line, items)?;
    }
    Ok(())
}
