//! Names, keys and the lines of comments.
ghost use Rattle.std.specs.Prelude.{map, option_map, false};
ghost use Rattle.serde_json.specs.Data.{string};
ghost use Rattle.serde_json.specs.View.{items_of};
ghost use Rattle.serde_json.specs.Written.{items_text};
ghost use Rattle.fluent_syntax_tree.specs.View.{identifier_view, key_view, comment_view};
ghost use Rattle.fluent_syntax_json.specs.Form.{name_form, or_null, key_form};
ghost use Rattle.fluent_syntax_json.specs.Writing.{WritesData};
ghost use Rattle.fluent_syntax_grammar.specs.Writing.{Appends};

use super::tokens::{write_comma, write_text};
use fluent_syntax_grammar::sink::TextSink;
use fluent_syntax_grammar::text_writer::TextWriter;
use fluent_syntax_tree::ast::{Comment, Identifier, VariantKey};
use fluent_syntax_tree::texts::ReadTexts;

pub fn write_name<X, T: ReadTexts<X>, W: TextSink>(
    writer: &mut TextWriter<'_, T, W>,
    id: &Identifier<X>,
)
    ensures written { WritesData W.text W.room writer.old writer.new (name_form (identifier_view T.text id.now)) }
{
    writer.write_piece("{\"name\":");
    write_text(writer, &id.name);
    writer.write_piece("}");
}

pub fn write_attribute_name<X, T: ReadTexts<X>, W: TextSink>(
    writer: &mut TextWriter<'_, T, W>,
    attribute: &Option<Identifier<X>>,
)
    ensures written { WritesData W.text W.room writer.old writer.new
        (or_null name_form (option_map (identifier_view T.text) attribute.now)) }
{
    match attribute {
        None => writer.write_piece("null"),
        Some(id) => write_name(writer, id),
    }
}

pub fn write_key<X, T: ReadTexts<X>, W: TextSink>(
    writer: &mut TextWriter<'_, T, W>,
    key: &VariantKey<X>,
)
    ensures written { WritesData W.text W.room writer.old writer.new (key_form (key_view T.text key.now)) }
{
    match key {
        VariantKey::Identifier { name } => {
            writer.write_piece("{\"name\":");
            write_text(writer, name);
            writer.write_piece(",\"type\":\"Identifier\"}");
        }
        VariantKey::NumberLiteral { value } => {
            writer.write_piece("{\"type\":\"NumberLiteral\",\"value\":");
            write_text(writer, value);
            writer.write_piece("}");
        }
    }
}

/// Writes the lines of a comment, and the bracket that closes their list.
pub fn write_lines<X, T: ReadTexts<X>, W: TextSink>(
    writer: &mut TextWriter<'_, T, W>,
    comment: &Comment<X>,
)
    ensures written { Appends W.text W.room writer.old writer.new
        (items_text false (items_of (map string (comment_view T.text comment.now)))) }
{
    let mut later = false;
    for line in &comment.content {
        write_comma(writer, later);
        write_text(writer, line);
        later = true;
    }
    writer.write_piece("]");
}
