//! The line of a place, and a caret below it.
ghost use Rattle.std.specs.Prelude.{◌≡◌, ◌++◌, OnOk, string_bytes};
ghost use Rattle.std.specs.Str.{IsCharBoundary};
ghost use Rattle.ftl_project.specs.Excerpt.{AddsExcerpt, below_front, excerpt, shown_back, shown_front};

use crate::reporting::line::{back, front};
use crate::reporting::terminal_text::{WINDOW, push_below, push_shown, window_start};
use std::alloc::AllocError;

/// So many bytes on either side of a place are enough for what is shown of its line: `WINDOW` characters, one more, and
/// a CR.
const NEAR: usize = 4 * (WINDOW + 2);

/// Adds two lines: the text's line that has the place, and the caret below the character of that place.
///
/// The place is a byte of the text, counted from 0. One after the line's last character has its caret there. Of a line
/// that is longer, the 100 characters before the place and the 100 from there on are shown, with `…` for the others. A
/// tab stays a tab, and is in the caret's line too. Any other control character is shown as U+FFFD, and a
/// character that looks like a space, or like nothing, by its number, as `<U+00A0>`. No line end but the two that are
/// added is written. The caret is `^`, or what a terminal shows as one, and is added as it is.
///
/// `AllocError`: a growth was refused; what was added until then stays.
pub fn push_excerpt(
    out: &mut String,
    text: &str,
    place: usize,
    caret: &str,
) -> Result<(), AllocError>
    ensures { OnOk result (AddsExcerpt caret.now text.now place (string_bytes out.old) (string_bytes out.new)) }
{
    push_cut_line(out, text, text.floor_char_boundary(place), caret)
}

/// The same of a place where a character begins. Only what is near the place is read: lines may be long.
fn push_cut_line(out: &mut String, text: &str, cut: usize, caret: &str) -> Result<(), AllocError>
    requires { IsCharBoundary text.now cut }
    ensures { OnOk result (string_bytes out.new ≡ string_bytes out.old ++ excerpt caret.now text.now cut) }
{
    let start = text.floor_char_boundary(cut.saturating_sub(NEAR));
    let end = text.floor_char_boundary(cut.saturating_add(NEAR));
    push_line(out, &text[start..end], cut - start, caret)
}

/// The same, where all of the line is read.
fn push_line(out: &mut String, text: &str, cut: usize, caret: &str) -> Result<(), AllocError>
    requires { IsCharBoundary text.now cut }
    ensures { OnOk result (string_bytes out.new ≡ string_bytes out.old ++ excerpt caret.now text.now cut) }
{
    let front = front(text, cut);
    push_before_place(out, front)?;
    push_from_place(out, back(text, cut))?;
    out.push('\n')?;
    push_below_front(out, front)?;
    out.push_str(caret)?;
    out.push('\n')
}

/// Adds what is shown before the place.
fn push_before_place(out: &mut String, front: &str) -> Result<(), AllocError>
    ensures { OnOk result (string_bytes out.new ≡ string_bytes out.old ++ shown_front front.now) }
{
    let start = window_start(front);
    if start > 0 {
        out.push('…')?;
    }
    push_shown(out, front, start)
}

/// Adds what is shown from the place on.
fn push_from_place(out: &mut String, back: &str) -> Result<(), AllocError>
    ensures { OnOk result (string_bytes out.new ≡ string_bytes out.old ++ shown_back back.now) }
{
    push_shown(out, back, 0)?;
    if back.chars().count() > WINDOW {
        out.push('…')?;
    }
    Ok(())
}

/// Adds what is below what is shown before the place.
fn push_below_front(out: &mut String, front: &str) -> Result<(), AllocError>
    ensures { OnOk result (string_bytes out.new ≡ string_bytes out.old ++ below_front front.now) }
{
    let start = window_start(front);
    if start > 0 {
        out.push(' ')?;
    }
    push_below(out, front, start)
}
