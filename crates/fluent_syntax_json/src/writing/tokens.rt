//! Strings, booleans and commas of JSON text.
ghost use Rattle.std.specs.Prelude.{◌≡◌, ◌<◌, ◌∷◌, [], ◌/◌, ◌%◌, false};
ghost use Rattle.std.specs.Char.{digit_char};
ghost use Rattle.json.specs.Print.{escape_byte, escape, quoted};
ghost use Rattle.json.specs.Run.{is_plain};
ghost use Rattle.serde_json.specs.Data.{boolean};
ghost use Rattle.serde_json.specs.Written.{comma_if};
ghost use Rattle.fluent_syntax_grammar.specs.Writing.{Appends};
ghost use Rattle.fluent_syntax_json.specs.Writing.{WritesData};

use super::escapes::{hexadecimal_digit, short_escape, split_at_escape};
use fluent_syntax_grammar::sink::TextSink;
use fluent_syntax_grammar::text_writer::TextWriter;
use fluent_syntax_tree::texts::ReadTexts;

/// Writes a comma before an item that is not the first.
#[inline(always)]
pub fn write_comma<T, W: TextSink>(writer: &mut TextWriter<'_, T, W>, later: bool)
    ensures written { Appends W.text W.room writer.old writer.new (comma_if later) }
{
    if later {
        writer.write_piece(",");
    }
}

pub fn write_bool<T, W: TextSink>(writer: &mut TextWriter<'_, T, W>, value: bool)
    ensures written { WritesData W.text W.room writer.old writer.new (boolean value) }
{
    if value {
        writer.write_piece("true");
    } else {
        writer.write_piece("false");
    }
}

/// Writes the text as a JSON string.
pub fn write_text<X, T: ReadTexts<X>, W: TextSink>(writer: &mut TextWriter<'_, T, W>, text: &X)
    ensures written { Appends W.text W.room writer.old writer.new (quoted (T.text text.now)) }
{
    writer.write_piece("\"");
    write_escaped(writer, T::as_str(text));
    writer.write_piece("\"");
}

fn write_escaped<T, W: TextSink>(writer: &mut TextWriter<'_, T, W>, text: &str)
    ensures written { Appends W.text W.room writer.old writer.new (escape text.now) }
{
    let mut rest = text;
    while let Some((plain, byte, after)) = split_at_escape(rest) {
        writer.write_piece(plain);
        write_escape(writer, byte);
        rest = after;
    }
    writer.write_piece(rest);
}

fn write_escape<T, W: TextSink>(writer: &mut TextWriter<'_, T, W>, byte: u8)
    requires { is_plain byte ≡ false }
    ensures written { Appends W.text W.room writer.old writer.new (escape_byte byte) }
{
    match short_escape(byte) {
        Some(escape) => writer.write_piece(escape),
        None => write_control(writer, byte),
    }
}

/// Writes the escape of a control character by its number.
fn write_control<T, W: TextSink>(writer: &mut TextWriter<'_, T, W>, byte: u8)
    requires { byte < 32 }
    ensures written { Appends W.text W.room writer.old writer.new
        (92 ∷ 117 ∷ 48 ∷ 48 ∷ digit_char (byte / 16) ∷ digit_char (byte % 16) ∷ []) }
{
    writer.write_piece("\\u00");
    writer.write_piece(hexadecimal_digit(byte / 16));
    writer.write_piece(hexadecimal_digit(byte % 16));
}
