//! The byte of a place that the protocol names.
ghost use Rattle.std.specs.Prelude.{◌≡◌, ◌-◌, ◌^◌, ◌<◌, length, IfNone, IfSome};
ghost use Rattle.ftl_lsp.specs.Offsets.{BeginsLine, is_break, is_reached, IsByteOf, stops_at};
ghost use Rattle.ftl_lsp.specs.Positions.{line_at};

use crate::documents::positions::{Position, is_line_end, next_position, units};

/// Whether a line's text ends before the byte: an LF or a CR.
fn is_break(byte: u8) -> bool
    ensures { result ≡ is_break byte }
{
    byte == b'\n' || byte == b'\r'
}

/// Whether the column is reached before the byte, after so many UTF-16 units of the line: the line's text ends there,
/// or what begins with the byte reaches beyond the column.
fn stops_at(byte: u8, character: usize, column: usize) -> bool
    requires { character < 2 ^ 64 - 2 }
    ensures { result ≡ stops_at byte character column }
{
    is_break(byte) || character + units(byte) > column
}

/// Whether the place is reached before the byte, which has the place `here`.
fn is_reached(byte: u8, here: Position, position: Position) -> bool
    requires { here.character < 2 ^ 64 - 2 }
    ensures { result ≡ is_reached byte here position }
{
    here.line == position.line && stops_at(byte, here.character, position.character)
}

/// Where the line of the number begins. None where the text has fewer lines.
fn line_start(bytes: &[u8], number: usize) -> Option<usize>
    requires { length bytes.now < 2 ^ 63 }
    ensures begins { IfSome result (λ at. BeginsLine bytes.now number at) }
    ensures fewer { IfNone result (line_at bytes.now (length bytes.now) < number) }
{
    let mut line = 0;
    let mut at = 0;
    while line < number {
        if at == bytes.len() {
            return None;
        }
        if is_line_end(bytes, at) {
            line += 1;
        }
        at += 1;
    }
    Some(at)
}

/// The byte of a place of the text. Where the line has fewer UTF-16 units, the line's end, and where the text has fewer
/// lines, the text's end. Within a character that has two units, the character's first byte.
pub fn byte_of(text: &str, position: Position) -> usize
    ensures { IsByteOf text.now position result }
{
    let bytes = text.as_bytes();
    let Some(start) = line_start(bytes, position.line) else {
        return bytes.len();
    };
    let mut here = Position {
        line: position.line,
        character: 0,
    };
    for at in start..bytes.len() {
        if is_reached(bytes[at], here, position) {
            return at;
        }
        here = next_position(bytes, at, here);
    }
    bytes.len()
}
