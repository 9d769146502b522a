//! The lines in which two texts differ.

use std::alloc::{AllocError, Global};
use std::fmt::Write;

/// How many lines that are the same are shown around those that differ.
const CONTEXT_LINES: usize = 3;

/// How many lines further on, in both texts together, one is looked for that both have.
const LOOKAHEAD_LINES: usize = 64;

/// A line of the texts, without its line end.
#[derive(Clone, Copy)]
enum Line<'t> {
    Kept(&'t str),
    Removed(&'t str),
    Added(&'t str),
}

impl Line<'_> {
    fn is_kept(self) -> bool {
        matches!(self, Line::Kept(_))
    }
}

/// How many lines of each text come before a place.
#[derive(Clone, Copy)]
struct LineNumbers {
    old: usize,
    new: usize,
}

impl LineNumbers {
    /// Those after the lines.
    fn beyond(self, lines: &[Line<'_>]) -> LineNumbers {
        let added = lines
            .iter()
            .filter(|line| matches!(line, Line::Added(_)))
            .count();
        let removed = lines
            .iter()
            .filter(|line| matches!(line, Line::Removed(_)))
            .count();
        LineNumbers {
            old: self.old.saturating_add(lines.len().saturating_sub(added)),
            new: self.new.saturating_add(lines.len().saturating_sub(removed)),
        }
    }
}

/// What differs between a file's text and the one that is to come in its place, in the form of a unified diff. Where
/// the texts have no line in common for long, what is shown is not the least.
pub(crate) fn line_diff(
    alloc: Global,
    path: &str,
    old: &str,
    new: &str,
) -> Result<String, AllocError> {
    let mut out = String::new(alloc);
    for mark in ["--- ", "+++ "] {
        out.push_str(mark)?;
        push_file_name(&mut out, path)?;
        out.push('\n')?;
    }
    let old: Vec<&str> = old.split_inclusive('\n').collect(alloc)?;
    let new: Vec<&str> = new.split_inclusive('\n').collect(alloc)?;
    push_hunks(&mut out, &lines_of(alloc, &old, &new)?)?;
    Ok(out)
}

/// Adds the path as `patch` and `git apply` read it: in quotes where it has a quote, a backslash or a control
/// character, and with a tab after it where it has a space. Git takes no path that begins with a `./`.
fn push_file_name(out: &mut String, path: &str) -> Result<(), AllocError> {
    let path = path.trim_start_matches("./");
    if !path.chars().any(is_escaped) {
        out.push_str(path)?;
        return if path.contains(' ') {
            out.push('\t')
        } else {
            Ok(())
        };
    }
    out.push('"')?;
    for c in path.chars() {
        match c {
            '\n' => out.push_str("\\n")?,
            '\r' => out.push_str("\\r")?,
            '\t' => out.push_str("\\t")?,
            '"' | '\\' => write!(out, "\\{c}")?,
            c if is_escaped(c) => {
                let number = c as u32;
                write!(out, "\\{}{}{}", number / 64, number / 8 % 8, number % 8)?
            }
            c => out.push(c)?,
        }
    }
    out.push('"')
}

fn is_escaped(c: char) -> bool {
    c < ' ' || c == '\u{7F}' || c == '"' || c == '\\'
}

/// The lines of both texts in one order.
fn lines_of<'t>(
    alloc: Global,
    old: &[&'t str],
    new: &[&'t str],
) -> Result<Vec<Line<'t>>, AllocError> {
    let mut lines = Vec::new(alloc);
    let mut at = LineNumbers { old: 0, new: 0 };
    for _ in 0..old.len().saturating_add(new.len()) {
        let (_, old_rest) = old.split_at(at.old.min(old.len()));
        let (_, new_rest) = new.split_at(at.new.min(new.len()));
        let (gone, come) = next_common(old_rest, new_rest);
        for line in old_rest.iter().take(gone) {
            lines.push(Line::Removed(*line))?;
        }
        for line in new_rest.iter().take(come) {
            lines.push(Line::Added(*line))?;
        }
        let Some(line) = old_rest.get(gone) else {
            break;
        };
        lines.push(Line::Kept(*line))?;
        at = LineNumbers {
            old: at.old.saturating_add(gone).saturating_add(1),
            new: at.new.saturating_add(come).saturating_add(1),
        };
    }
    Ok(lines)
}

/// How many lines of each come before the next one that both have, or before their ends.
fn next_common(old: &[&str], new: &[&str]) -> (usize, usize) {
    for both in 0..LOOKAHEAD_LINES {
        for gone in 0..both.saturating_add(1) {
            let come = both.saturating_sub(gone);
            if let (Some(line), Some(other)) = (old.get(gone), new.get(come)) {
                if line == other {
                    return (gone, come);
                }
            }
        }
    }
    (old.len(), new.len())
}

/// Adds each stretch of lines that differ, with those around it.
fn push_hunks(out: &mut String, lines: &[Line<'_>]) -> Result<(), AllocError> {
    let mut start = 0;
    let mut before = LineNumbers { old: 0, new: 0 };
    for _ in 0..lines.len() {
        let (_, rest) = lines.split_at(start.min(lines.len()));
        let Some(first) = rest.iter().position(|line| !line.is_kept()) else {
            break;
        };
        let (passed, from) = rest.split_at(first.saturating_sub(CONTEXT_LINES).min(rest.len()));
        let (hunk, beyond) = from.split_at(hunk_length(from).min(from.len()));
        before = before.beyond(passed);
        push_hunk(out, before, hunk)?;
        before = before.beyond(hunk);
        start = lines.len().saturating_sub(beyond.len());
    }
    Ok(())
}

/// How many lines belong to what differs first: up to where more are the same than are shown around two stretches.
fn hunk_length(lines: &[Line<'_>]) -> usize {
    let mut length = 0;
    for (index, line) in lines.iter().enumerate() {
        if !line.is_kept() {
            length = index.saturating_add(1);
        } else if length != 0 && index.saturating_sub(length) >= CONTEXT_LINES.saturating_mul(2) {
            break;
        }
    }
    length.saturating_add(CONTEXT_LINES)
}

fn push_hunk(out: &mut String, before: LineNumbers, hunk: &[Line<'_>]) -> Result<(), AllocError> {
    let beyond = before.beyond(hunk);
    out.push_str("@@ -")?;
    push_range(out, before.old, beyond.old)?;
    out.push_str(" +")?;
    push_range(out, before.new, beyond.new)?;
    out.push_str(" @@\n")?;
    for line in hunk {
        let (mark, text) = match line {
            Line::Kept(text) => (' ', *text),
            Line::Removed(text) => ('-', *text),
            Line::Added(text) => ('+', *text),
        };
        out.push(mark)?;
        push_line(out, text)?;
    }
    Ok(())
}

/// Adds the number of the first line and how many there are; of none the number of the line before.
fn push_range(out: &mut String, before: usize, beyond: usize) -> Result<(), AllocError> {
    let count = beyond.saturating_sub(before);
    let first = if count == 0 {
        before
    } else {
        before.saturating_add(1)
    };
    write!(out, "{first},{count}")
}

/// Adds the line, with what says that a text ends without a line end.
fn push_line(out: &mut String, text: &str) -> Result<(), AllocError> {
    out.push_str(text)?;
    if text.ends_with('\n') {
        Ok(())
    } else {
        out.push_str("\n\\ No newline at end of file\n")
    }
}
