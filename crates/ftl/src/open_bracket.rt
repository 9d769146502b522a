//! The brace, the parenthesis or the bracket that an error found open.

use fluent_syntax::parser::{ErrorKind, ParserError};

/// A brace, a parenthesis or a bracket that is not closed.
#[derive(Clone, Copy, Debug)]
pub struct OpenBracket {
    /// Its byte of the text, counted from 0.
    pub place: usize,
    /// What it is called.
    pub name: &'static str,
}

/// The bracket that was opened last from the start on, before the place of the error, and is not closed there, if its
/// closing one is to be there. Brackets in strings count too: it is shown with the error, and no clause rests on it.
pub(crate) fn open_bracket(text: &str, start: usize, error: &ParserError) -> Option<OpenBracket> {
    let before = text.get(start..error.pos.start)?;
    let (at, name) = match &error.kind {
        ErrorKind::ExpectedToken('}') => (open_brace(before)?, "brace"),
        ErrorKind::ExpectedToken(')') => (open_parenthesis(before)?, "parenthesis"),
        ErrorKind::ExpectedToken(']') => (before.rfind('[')?, "bracket"),
        ErrorKind::ExpectedInlineExpression if begins_no_argument(text, error.pos.start) => {
            (open_parenthesis(before)?, "parenthesis")
        }
        _ => return None,
    };
    let place = start.saturating_add(at);
    Some(OpenBracket { place, name })
}

/// Whether the text ends at the place, or a placeable does, or what was read as a reference is the name of an entry.
fn begins_no_argument(text: &str, place: usize) -> bool {
    matches!(text.as_bytes().get(place), None | Some(b'}' | b'='))
}

fn open_brace(before: &str) -> Option<usize> {
    let mut closed = 0usize;
    for (at, byte) in before.bytes().enumerate().rev() {
        match byte {
            b'}' => closed = closed.saturating_add(1),
            b'{' if closed == 0 => return Some(at),
            b'{' => closed = closed.saturating_sub(1),
            _ => (),
        }
    }
    None
}

/// None where a brace was opened after the parenthesis.
fn open_parenthesis(before: &str) -> Option<usize> {
    let brace = open_brace(before).unwrap_or(0);
    let inside = before.get(brace..)?;
    let mut closed = 0usize;
    for (at, byte) in inside.bytes().enumerate().rev() {
        match byte {
            b')' => closed = closed.saturating_add(1),
            b'(' if closed == 0 => return Some(brace.saturating_add(at)),
            b'(' => closed = closed.saturating_sub(1),
            _ => (),
        }
    }
    None
}
