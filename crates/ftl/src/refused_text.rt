//! A stretch of a text that was refused, and mistakes that can be seen in it.

use crate::look_alikes::{is_blank_look_alike, is_look_alike};
use fluent_syntax::parser::ErrorKind;

/// What a line begins with that a merge left.
const MERGE_MARKS: [&str; 4] = ["<<<<<<<", "|||||||", "=======", ">>>>>>>"];
/// How a comment begins in other languages.
const COMMENT_MARKS: [&str; 4] = ["//", ";", "/*", "<!--"];
/// How many lines of what was refused are looked at, and how many bytes of a line before a place: a mistake is not far
/// from its error, and what was refused may be long.
const LINES: usize = 100;

const BYTES: usize = 1_000;
/// What no line of text begins with.
const LINE_MARKS: [char; 6] = ['}', '[', '*', '.', '#', ' '];

/// A stretch of the text that was refused, and the place where reading failed.
#[derive(Clone, Copy)]
pub(crate) struct RefusedText<'t> {
    pub(crate) text: &'t str,
    pub(crate) start: usize,
    pub(crate) end: usize,
    pub(crate) place: usize,
}

/// A character that looks like another, or like nothing.
#[derive(Clone, Copy)]
pub(crate) struct LookAlike {
    pub(crate) place: usize,
    pub(crate) character: char,
    /// Whether only blanks come before it on its line.
    pub(crate) begins_line: bool,
}

/// A mistake that a line is.
#[derive(Clone, Copy)]
pub(crate) struct LineMistake {
    pub(crate) start: usize,
    pub(crate) end: usize,
    pub(crate) message: &'static str,
}

impl<'t> RefusedText<'t> {
    /// What was refused.
    pub(crate) fn junk(&self) -> &'t str {
        self.text.get(self.start..self.end).unwrap_or("")
    }

    /// Whether a line begins at the place, and is like an attribute's.
    pub(crate) fn has_attribute_line(&self) -> bool {
        let line = self.text.get(self.place..self.end).unwrap_or("");
        self.line_before_place().is_empty() && line.trim_start_matches(' ').starts_with('.')
    }

    /// What comes before the place on its line, as far as it was refused.
    fn line_before_place(&self) -> &'t str {
        let first = self
            .text
            .floor_char_boundary(self.place.saturating_sub(BYTES));
        let before = self
            .text
            .get(first.max(self.start)..self.place)
            .unwrap_or("");
        match before.rfind('\n') {
            Some(at) => before.get(at.saturating_add(1)..).unwrap_or(""),
            None => before,
        }
    }

    /// A character that looks like another, at the place or in the blanks that begin a line.
    pub(crate) fn look_alike(&self, kind: &ErrorKind) -> Option<LookAlike> {
        match self.look_alike_at_place(kind) {
            Some(found) => Some(found),
            None => self.look_alike_in_blanks(),
        }
    }

    /// A character that looks like another, at the place, right before it, or in a string or for a brace on the line.
    pub(crate) fn look_alike_at_place(&self, kind: &ErrorKind) -> Option<LookAlike> {
        if let ErrorKind::UnbalancedClosingBrace = kind {
            return self.look_alike_on_line();
        }
        if let Some(at) = self.character_at(self.place) {
            if is_look_alike(at.character) {
                return Some(at);
            }
        }
        let before = self.text.floor_char_boundary(self.place.saturating_sub(1));
        if let Some(before) = self.character_at(before) {
            if is_blank_look_alike(before.character) {
                return Some(before);
            }
        }
        self.look_alike_on_line()
    }

    /// The character at a place.
    fn character_at(&self, place: usize) -> Option<LookAlike> {
        let character = self.text.get(place..)?.chars().next()?;
        let before = RefusedText { place, ..*self }.line_before_place();
        Some(LookAlike {
            place,
            character,
            begins_line: before.chars().all(|c| c == ' ' || is_blank_look_alike(c)),
        })
    }

    /// The last quotation mark within a string on the line before the place, or the last fullwidth brace.
    fn look_alike_on_line(&self) -> Option<LookAlike> {
        let mut found = None;
        let (mut in_string, mut last) = (false, ' ');
        let line = self.line_before_place();
        let mut place = self.place.saturating_sub(line.len());
        for character in line.chars() {
            let is_quote = character >= '\u{2018}' && character <= '\u{201F}';
            if character == '"' && last != '\\' {
                in_string = !in_string;
            } else if in_string && is_quote || character == '\u{FF5B}' {
                found = Some(LookAlike {
                    place,
                    character,
                    begins_line: false,
                });
            }
            last = if last == '\\' { ' ' } else { character };
            place = place.saturating_add(character.len_utf8());
        }
        found
    }

    /// A character that looks like a space, or like nothing, with which a line begins; or which comes before what
    /// begins a line of the grammar.
    fn look_alike_in_blanks(&self) -> Option<LookAlike> {
        let mut start = self.start;
        for line in self.junk().split('\n').take(LINES) {
            if let Some(found) = blank_look_alike(line, start) {
                return Some(found);
            }
            start = start.saturating_add(line.len()).saturating_add(1);
        }
        None
    }

    /// A mistake that a line is: the first that holds.
    pub(crate) fn line_mistake(&self, kind: &ErrorKind) -> Option<LineMistake> {
        if let Some(found) = self.incomplete_select(kind) {
            return Some(found);
        }
        if let Some(found) = self.argument_with_equals(kind) {
            return Some(found);
        }
        if let Some(found) = self.indented_entry() {
            return Some(found);
        }
        if let Some(found) = self.foreign_mark() {
            return Some(found);
        }
        self.line_that_goes_on()
    }

    /// The `=` at the place, if it follows the name of an argument and not that of an entry.
    fn argument_with_equals(&self, kind: &ErrorKind) -> Option<LineMistake> {
        let is_equals = self.text.get(self.place..)?.starts_with('=');
        let before = self.line_before_place();
        let is_entry = after_name(before).is_empty();
        let is_named = before.trim_end().ends_with(is_name_character);
        if !matches!(kind, ErrorKind::ExpectedInlineExpression)
            || !is_equals
            || is_entry
            || !is_named
        {
            return None;
        }
        Some(LineMistake {
            start: self.place,
            end: self.place.saturating_add(1),
            message: "the name of an argument is followed by `:`",
        })
    }

    /// The spaces at the place, if an entry follows them.
    fn indented_entry(&self) -> Option<LineMistake> {
        let line = self.text.get(self.place..self.end)?;
        let entry = line.trim_start_matches(' ');
        let spaces = line.len().saturating_sub(entry.len());
        let rest = after_name(entry);
        let is_entry = rest.len() < entry.len() && rest.starts_with('=');
        if spaces == 0 || !is_entry || !self.line_before_place().is_empty() {
            return None;
        }
        Some(LineMistake {
            start: self.place,
            end: self.place.saturating_add(spaces),
            message: "a message begins at the start of its line: remove the spaces",
        })
    }

    /// Whether an `=` comes before the place.
    pub(crate) fn follows_equals(&self) -> bool {
        let before = self.text.get(..self.place).unwrap_or("");
        before.trim_end().ends_with('=')
    }

    /// What comes before a variant at the place, or on the line that begins there, and is not yet a select: it has no
    /// `{`, or no `->`.
    fn incomplete_select(&self, kind: &ErrorKind) -> Option<LineMistake> {
        let line = self.text.get(self.place..self.end)?.trim_start_matches(' ');
        if !line.starts_with('[') && !line.starts_with("*[") {
            return None;
        }
        let before = self.text.get(..self.place)?.trim_end();
        let has_arrow = before.ends_with("->");
        let message = match kind {
            ErrorKind::ExpectedCharRange { .. } if has_arrow && self.place == self.start => {
                "no `{` before this select"
            }
            ErrorKind::ExpectedToken('}') | ErrorKind::TermAttributeAsPlaceable => {
                "no `->` between this selector and its variants"
            }
            _ => return None,
        };
        let end = before.len();
        let start = if has_arrow {
            end.saturating_sub(2)
        } else {
            before.floor_char_boundary(end.saturating_sub(1))
        };
        Some(LineMistake {
            start,
            end,
            message,
        })
    }

    /// The first line that is a mark of a merge, or a comment of another language.
    fn foreign_mark(&self) -> Option<LineMistake> {
        let mut start = self.start;
        for line in self.junk().split('\n').take(LINES) {
            if let Some(message) = mark_message(line) {
                let end = start.saturating_add(line.len());
                return Some(LineMistake {
                    start,
                    end,
                    message,
                });
            }
            start = start.saturating_add(line.len()).saturating_add(1);
        }
        None
    }

    /// The first line, where it has no `=` and may go on with a text that ends above it.
    fn line_that_goes_on(&self) -> Option<LineMistake> {
        let first = self
            .text
            .floor_char_boundary(self.start.saturating_add(BYTES));
        let line = self
            .text
            .get(self.start..first.min(self.end))?
            .split('\n')
            .next()?;
        let above = self.text.get(..self.start)?.strip_suffix('\n')?;
        let above = match above.rfind('\n') {
            Some(at) => above.get(at.saturating_add(1)..)?,
            None => above,
        };
        let after_name = after_name(line.trim_end());
        let is_entry = after_name.is_empty() || after_name.starts_with(':');
        let goes_on = !is_entry && !line.contains('=') && !line.starts_with(LINE_MARKS);
        if !goes_on || above.trim_end().is_empty() || above.starts_with('#') {
            return None;
        }
        Some(LineMistake {
            start: self.start,
            end: self.start.saturating_add(line.len()),
            message: "indent the line if it goes on with the text above",
        })
    }
}

/// What follows the name of a message or a term, and blanks, with which the text begins.
fn after_name(text: &str) -> &str {
    let name = text.strip_prefix('-').unwrap_or(text);
    name.trim_start_matches(is_name_character)
        .trim_start_matches(' ')
}

fn is_name_character(c: char) -> bool {
    c.is_ascii_alphanumeric() || c == '-' || c == '_'
}

/// A character that looks like a space, or like nothing, in the blanks that begin a line.
fn blank_look_alike(line: &str, start: usize) -> Option<LookAlike> {
    let rest = line.trim_start_matches(' ');
    let character = rest.chars().next()?;
    if !is_blank_look_alike(character) {
        return None;
    }
    let spaces = line.len().saturating_sub(rest.len());
    let after = rest.trim_start_matches(is_blank_look_alike);
    if spaces != 0 && !after.starts_with(['.', '[', '*', '}']) {
        return None;
    }
    Some(LookAlike {
        place: start.saturating_add(spaces),
        character,
        begins_line: true,
    })
}

/// What to do about a line that begins with a mark of another language.
fn mark_message(line: &str) -> Option<&'static str> {
    if MERGE_MARKS.iter().any(|mark| line.starts_with(*mark)) {
        return Some(
            "a merge left this mark: keep what is right of both sides, and remove the marks",
        );
    }
    if COMMENT_MARKS.iter().any(|mark| line.starts_with(*mark)) {
        return Some("a comment begins with `#` and a space");
    }
    None
}
