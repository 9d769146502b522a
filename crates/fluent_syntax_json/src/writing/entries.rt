//! Entries and resources.
ghost use Rattle.std.specs.Prelude.{◌≡◌, OnOk, OnErr, map, option_map, false};
ghost use Rattle.serde_json.specs.View.{items_of};
ghost use Rattle.serde_json.specs.Written.{compact_text, items_text};
ghost use Rattle.fluent_syntax_tree.specs.View.{comment_view, pattern_view, attribute_view, message_view, term_view};
ghost use Rattle.fluent_syntax_tree.specs.View.{entry_view, resource_view};
ghost use Rattle.fluent_syntax_grammar.specs.Sink.{Takes, TakesBeginning};
ghost use Rattle.fluent_syntax_json.specs.Form.{or_null, comment_form, pattern_form, attribute_form};
ghost use Rattle.fluent_syntax_json.specs.Form.{message_form, term_form, entry_form, body_form};
ghost use Rattle.fluent_syntax_json.specs.Writing.{WritesData, entries_text, next_text};
ghost use Rattle.fluent_syntax_grammar.specs.Writing.{Appends};

use super::names::{write_lines, write_name};
use super::patterns::write_pattern;
use super::tokens::{write_comma, write_text};
use fluent_syntax_grammar::sink::{SinkError, TextSink};
use fluent_syntax_grammar::text_writer::TextWriter;
use fluent_syntax_tree::ast::*;
use fluent_syntax_tree::slice::Slice;
use fluent_syntax_tree::texts::{BySlice, ReadTexts};

/// What comes before the first entry.
pub const OPENING: &str = "{\"body\":[";

/// What comes after the last entry.
pub const CLOSING: &str = "]}";

/// Writes the text that `serde_json` writes of the tree's JSON form to the sink. Takes no memory of its own, since no
/// value is made.
///
/// # Errors
///
/// `SinkError` at the first piece that the sink refuses; it has taken a beginning of the text.
pub fn write_to<'s, S: Slice<'s>, W: TextSink>(
    w: &mut W,
    tree: &Resource<S>,
) -> Result<(), SinkError>
    ensures taken { OnOk result (Takes W.text W.room w.old w.new
        (compact_text (body_form (resource_view S.text tree.now)))) }
    ensures refused { OnErr result (TakesBeginning W.text W.room w.old w.new
        (compact_text (body_form (resource_view S.text tree.now)))) }
{
    write_body::<S, BySlice<'s>, W>(w, &tree.body)
}

/// Writes the entries, and asks at the end whether the sink took them all.
fn write_body<X, T: ReadTexts<X>, W: TextSink>(
    w: &mut W,
    entries: &[Entry<X>],
) -> Result<(), SinkError>
    ensures taken { OnOk result (Takes W.text W.room w.old w.new
        (compact_text (body_form (map (entry_view T.text) entries.now)))) }
    ensures refused { OnErr result (TakesBeginning W.text W.room w.old w.new
        (compact_text (body_form (map (entry_view T.text) entries.now)))) }
{
    let mut writer: TextWriter<'_, T, W> = TextWriter::new(w);
    write_resource(&mut writer, entries);
    if writer.has_refused() {
        Err(SinkError)
    } else {
        Ok(())
    }
}

fn write_resource<X, T: ReadTexts<X>, W: TextSink>(
    writer: &mut TextWriter<'_, T, W>,
    entries: &[Entry<X>],
)
    ensures same_sink { writer.new.sink.ghost_name ≡ writer.old.sink.ghost_name }
    ensures written { WritesData W.text W.room writer.old writer.new (body_form (map (entry_view T.text) entries.now)) }
{
    writer.write_piece(OPENING);
    write_entries(writer, entries);
    writer.write_piece(CLOSING);
}

fn write_entries<X, T: ReadTexts<X>, W: TextSink>(
    writer: &mut TextWriter<'_, T, W>,
    entries: &[Entry<X>],
)
    ensures written { Appends W.text W.room writer.old writer.new
        (entries_text false (map (entry_view T.text) entries.now)) }
{
    let mut later = false;
    for entry in entries {
        write_next(writer, entry, later);
        later = true;
    }
}

/// Writes the entry, after a comma where one was written before it.
pub fn write_next<X, T: ReadTexts<X>, W: TextSink>(
    writer: &mut TextWriter<'_, T, W>,
    entry: &Entry<X>,
    later: bool,
)
    ensures written { Appends W.text W.room writer.old writer.new (next_text later (entry_view T.text entry.now)) }
{
    write_comma(writer, later);
    write_entry(writer, entry);
}

fn write_entry<X, T: ReadTexts<X>, W: TextSink>(writer: &mut TextWriter<'_, T, W>, entry: &Entry<X>)
    ensures written { WritesData W.text W.room writer.old writer.new (entry_form (entry_view T.text entry.now)) }
{
    match entry {
        Entry::Message(message) => write_message(writer, message),
        Entry::Term(term) => write_term(writer, term),
        Entry::Comment(comment) => {
            writer.write_piece("{\"content\":[");
            write_lines(writer, comment);
            writer.write_piece(",\"type\":\"Comment\"}");
        }
        Entry::GroupComment(comment) => {
            writer.write_piece("{\"content\":[");
            write_lines(writer, comment);
            writer.write_piece(",\"type\":\"GroupComment\"}");
        }
        Entry::ResourceComment(comment) => {
            writer.write_piece("{\"content\":[");
            write_lines(writer, comment);
            writer.write_piece(",\"type\":\"ResourceComment\"}");
        }
        Entry::Junk { content } => {
            writer.write_piece("{\"content\":");
            write_text(writer, content);
            writer.write_piece(",\"type\":\"Junk\"}");
        }
    }
}

fn write_message<X, T: ReadTexts<X>, W: TextSink>(
    writer: &mut TextWriter<'_, T, W>,
    message: &Message<X>,
)
    ensures written { WritesData W.text W.room writer.old writer.new (message_form (message_view T.text message.now)) }
{
    writer.write_piece("{\"attributes\":[");
    write_attributes(writer, &message.attributes);
    writer.write_piece(",\"comment\":");
    write_attached(writer, &message.comment);
    writer.write_piece(",\"id\":");
    write_name(writer, &message.id);
    writer.write_piece(",\"type\":\"Message\",\"value\":");
    write_value(writer, &message.value);
    writer.write_piece("}");
}

fn write_term<X, T: ReadTexts<X>, W: TextSink>(writer: &mut TextWriter<'_, T, W>, term: &Term<X>)
    ensures written { WritesData W.text W.room writer.old writer.new (term_form (term_view T.text term.now)) }
{
    writer.write_piece("{\"attributes\":[");
    write_attributes(writer, &term.attributes);
    writer.write_piece(",\"comment\":");
    write_attached(writer, &term.comment);
    writer.write_piece(",\"id\":");
    write_name(writer, &term.id);
    writer.write_piece(",\"type\":\"Term\",\"value\":");
    write_pattern(writer, &term.value);
    writer.write_piece("}");
}

fn write_value<X, T: ReadTexts<X>, W: TextSink>(
    writer: &mut TextWriter<'_, T, W>,
    value: &Option<Pattern<X>>,
)
    ensures written { WritesData W.text W.room writer.old writer.new
        (or_null pattern_form (option_map (pattern_view T.text) value.now)) }
{
    match value {
        None => writer.write_piece("null"),
        Some(value) => write_pattern(writer, value),
    }
}

/// Writes the attributes, and the bracket that closes their list.
fn write_attributes<X, T: ReadTexts<X>, W: TextSink>(
    writer: &mut TextWriter<'_, T, W>,
    attributes: &[Attribute<X>],
)
    ensures written { Appends W.text W.room writer.old writer.new
        (items_text false (items_of (map attribute_form (map (attribute_view T.text) attributes.now)))) }
{
    let mut later = false;
    for attribute in attributes {
        write_comma(writer, later);
        write_attribute(writer, attribute);
        later = true;
    }
    writer.write_piece("]");
}

fn write_attribute<X, T: ReadTexts<X>, W: TextSink>(
    writer: &mut TextWriter<'_, T, W>,
    attribute: &Attribute<X>,
)
    ensures written { WritesData W.text W.room writer.old writer.new
        (attribute_form (attribute_view T.text attribute.now)) }
{
    writer.write_piece("{\"id\":");
    write_name(writer, &attribute.id);
    writer.write_piece(",\"value\":");
    write_pattern(writer, &attribute.value);
    writer.write_piece("}");
}

/// Writes the comment of a message or a term.
fn write_attached<X, T: ReadTexts<X>, W: TextSink>(
    writer: &mut TextWriter<'_, T, W>,
    comment: &Option<Comment<X>>,
)
    ensures written { WritesData W.text W.room writer.old writer.new
        (or_null comment_form (option_map (comment_view T.text) comment.now)) }
{
    match comment {
        None => writer.write_piece("null"),
        Some(comment) => {
            writer.write_piece("{\"content\":[");
            write_lines(writer, comment);
            writer.write_piece("}");
        }
    }
}
