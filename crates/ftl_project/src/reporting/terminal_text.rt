//! How a text is shown in a terminal, and what is below it.
ghost use Rattle.std.specs.Prelude.{◌≡◌, ◌++◌, ◌≤◌, OnOk, chars, length, replicate, string_bytes};
ghost use Rattle.ftl_project.specs.Excerpt.{below, below_char, is_hidden, shown, shown_char, shown_text, window};
ghost use Rattle.ftl_project.specs.Excerpt.{shown_number, window_start};

use ftl::is_unseen;
use std::alloc::AllocError;
use std::fmt::Write;
use unicode_width::UnicodeWidthChar;

/// How many characters are shown of what is before a place, and of what is from there on.
pub(crate) const WINDOW: usize = 100;

/// Which character is the first that is shown of what is before a place, counted from 0.
pub(crate) fn window_start(front: &str) -> usize
    ensures { result ≡ window_start front.now }
{
    front.chars().count().saturating_sub(WINDOW)
}

/// Adds the window of the text from its character of that number on, with U+FFFD for what a terminal would obey.
pub(crate) fn push_shown(out: &mut String, text: &str, start: usize) -> Result<(), AllocError>
    ensures { OnOk result (string_bytes out.new ≡ string_bytes out.old ++ shown start text.now) }
{
    for c in text.chars().skip(start).take(WINDOW) {
        push_shown_char(out, c)?;
    }
    Ok(())
}

/// Adds the whole text, with U+FFFD for each control character but the tab, line ends among them: a name of a file may
/// have any.
///
/// `AllocError`: a growth was refused; what was added until then stays.
pub fn push_shown_text(out: &mut String, text: &str) -> Result<(), AllocError>
    ensures { OnOk result (string_bytes out.new ≡ string_bytes out.old ++ shown_text text.now) }
{
    for c in text.chars() {
        push_shown_char(out, c)?;
    }
    Ok(())
}

fn push_shown_char(out: &mut String, c: char) -> Result<(), AllocError>
    ensures { OnOk result (string_bytes out.new ≡ string_bytes out.old ++ shown_char c) }
{
    match c {
        '\t' => out.push('\t'),
        c if is_hidden(c) => out.push('\u{FFFD}'),
        c if is_unseen(c) => push_number(out, c),
        c => out.push(c),
    }
}

/// Adds the number of a character that can't be seen, as `<U+00A0>`.
fn push_number(out: &mut String, c: char) -> Result<(), AllocError>
    ensures { OnOk result (string_bytes out.new ≡ string_bytes out.old ++ shown_number c) }
{
    let zeros = if c == '\u{A0}' { "00" } else { "" };
    write!(out, "<U+{zeros}{:X}>", c as u32)
}

/// Adds the text, with an escape for each control character: `\n` for a line end.
pub(crate) fn push_escaped(out: &mut String, text: &str) -> Result<(), AllocError> {
    for c in text.chars() {
        match c {
            '\n' => out.push_str("\\n")?,
            '\r' => out.push_str("\\r")?,
            '\t' => out.push_str("\\t")?,
            c if is_hidden(c) => write!(out, "\\u{{{:x}}}", c as u32)?,
            c => out.push(c)?,
        }
    }
    Ok(())
}

/// Adds what is below that window: tabs below tabs, and spaces for the columns that the others take.
pub(crate) fn push_below(out: &mut String, text: &str, start: usize) -> Result<(), AllocError>
    ensures { OnOk result (string_bytes out.new ≡ string_bytes out.old ++ below start text.now) }
{
    for c in text.chars().skip(start).take(WINDOW) {
        push_below_char(out, c)?;
    }
    Ok(())
}

fn push_below_char(out: &mut String, c: char) -> Result<(), AllocError>
    ensures { OnOk result (string_bytes out.new ≡ string_bytes out.old ++ below_char c) }
{
    match c {
        '\t' => out.push('\t'),
        c if is_hidden(c) => out.push(' '),
        c if is_unseen(c) => push_spaces(out, 8),
        c => push_spaces(out, c.width().unwrap_or(0)),
    }
}

fn push_spaces(out: &mut String, count: usize) -> Result<(), AllocError>
    ensures { OnOk result (string_bytes out.new ≡ string_bytes out.old ++ replicate count 32) }
{
    for _ in 0..count {
        out.push(' ')?;
    }
    Ok(())
}

/// Whether a terminal would obey the character: a control character, but the tab, which is shown as it is.
fn is_hidden(c: char) -> bool
    ensures { result ≡ is_hidden c }
{
    c < ' ' || c > '~' && c < '\u{A0}'
}
