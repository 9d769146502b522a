//! Entries written one by one.
ghost use Rattle.std.specs.Prelude.{◌≡◌, [], ◌∷◌, ◌++◌, true, OnOk, OnErr};
ghost use Rattle.serde_json.specs.Written.{compact_text};
ghost use Rattle.fluent_syntax_tree.specs.Entry.{BodyTree};
ghost use Rattle.fluent_syntax_tree.specs.View.{entry_view};
ghost use Rattle.fluent_syntax_grammar.specs.Sink.{Takes, TakesBeginning};
ghost use Rattle.fluent_syntax_json.specs.BodyWriting.{HasWritten};
ghost use Rattle.fluent_syntax_json.specs.Form.{body_form};
ghost use Rattle.fluent_syntax_json.specs.Object.{Text};

use super::entries::{CLOSING, OPENING, write_next};
use fluent_syntax_grammar::sink::{SinkError, TextSink};
use fluent_syntax_grammar::text_writer::TextWriter;
use fluent_syntax_tree::ast::Entry;
use fluent_syntax_tree::slice::Slice;
use fluent_syntax_tree::texts::{BySlice, ReadTexts};

/// Writes entries to its sink as they come, as `write_to` writes the tree of them. It keeps none of them.
#[derive(Drop)]
pub struct BodyWriter<W> {
    sink: W,
    /// Whether an entry came.
    later: bool,
    /// Whether the sink has refused a piece. It is handed no further one.
    refused: bool,
}

impl<W: TextSink> BodyWriter<W> {
    /// A writer to the sink, which is handed the brackets that open the text. No entry came yet.
    pub fn new(sink: W) -> Self
        ensures wrote_none { HasWritten W.text W.room sink [] result }
    {
        let mut sink = sink;
        let refused = sink.write_str(OPENING).is_err();
        BodyWriter {
            sink,
            later: false,
            refused,
        }
    }

    /// Writes the entry after those that came before, unless the sink has refused a piece. It takes no memory of its
    /// own.
    pub fn write_entry<'s, S: Slice<'s>>(&mut self, entry: &Entry<S>)
        ensures written { (start : _) (body : BodyTree Text) → HasWritten W.text W.room start body self.old
            → HasWritten W.text W.room start (body ++ entry_view S.text entry.now ∷ []) self.new }
        ensures silent { self.old.refused ≡ true → self.new.sink ≡ self.old.sink }
    {
        self.write_by::<S, BySlice<'s>>(entry);
    }

    /// Writes the entry, whose texts `T` reads.
    fn write_by<X, T: ReadTexts<X>>(&mut self, entry: &Entry<X>)
        ensures written { (start : _) (body : BodyTree Text) → HasWritten W.text W.room start body self.old
            → HasWritten W.text W.room start (body ++ entry_view T.text entry.now ∷ []) self.new }
        ensures silent { self.old.refused ≡ true → self.new.sink ≡ self.old.sink }
    {
        if self.refused {
            return;
        }
        let mut writer: TextWriter<'_, T, W> = TextWriter::new(&mut self.sink);
        write_next(&mut writer, entry, self.later);
        self.later = true;
        self.refused = writer.has_refused();
    }

    /// Whether the sink has refused a piece.
    pub fn has_refused(&self) -> bool
        ensures { result ≡ self.now.refused }
    {
        self.refused
    }

    /// The sink, which has taken the text of the entries that came, with the brackets that close it; or with
    /// `SinkError` a beginning of it, and then it refused the piece that came next.
    pub fn finish(self) -> (W, Result<(), SinkError>)
        ensures taken { (start : _) (body : BodyTree Text) → HasWritten W.text W.room start body self
            → OnOk result.1 (Takes W.text W.room start result.0 (compact_text (body_form body))) }
        ensures refused { (start : _) (body : BodyTree Text) → HasWritten W.text W.room start body self
            → OnErr result.1 (TakesBeginning W.text W.room start result.0 (compact_text (body_form body))) }
    {
        let BodyWriter { sink, refused, .. } = self;
        let mut sink = sink;
        if refused {
            return (sink, Err(SinkError));
        }
        let closed = sink.write_str(CLOSING);
        (sink, closed)
    }
}
