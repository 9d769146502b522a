//! Entries written one by one.
ghost use Rattle.std.specs.Prelude.{◌≡◌, [], ◌∷◌, ◌++◌, true, OnOk, OnErr};
ghost use Rattle.fluent_syntax_tree.specs.Entry.{BodyTree};
ghost use Rattle.fluent_syntax_tree.specs.View.{entry_view};
ghost use Rattle.fluent_syntax_grammar.specs.Written.{Text, written};
ghost use Rattle.fluent_syntax_writer.specs.EntryWriting.{HasWritten};
ghost use Rattle.fluent_syntax_grammar.specs.Sink.{Takes, TakesBeginning};

use super::Options;
use super::entries::serialize_next;
use fluent_syntax_grammar::sink::{SinkError, TextSink};
use fluent_syntax_grammar::text_writer::TextWriter;
use fluent_syntax_tree::ast::Entry;
use fluent_syntax_tree::slice::Slice;
use fluent_syntax_tree::texts::{BySlice, ReadTexts};

/// Writes entries to its sink as they come, as `serialize_to` writes the tree of them. It keeps none of them.
#[derive(Drop)]
pub struct EntryWriter<W> {
    sink: W,
    options: Options,
    /// The last byte written here, whatever the sink held before.
    last: Option<u8>,
    /// Whether an entry came, and the last one is not junk.
    follows: bool,
    /// Whether the sink has refused a piece. It is handed no further one.
    refused: bool,
}

impl<W: TextSink> EntryWriter<W> {
    /// A writer to the sink, to which no entry came yet.
    pub fn new(sink: W, options: Options) -> Self
        ensures options { result.options ≡ options }
        ensures wrote_none { HasWritten W.text W.room sink [] result }
    {
        EntryWriter {
            sink,
            options,
            last: None,
            follows: false,
            refused: false,
        }
    }

    /// Writes the entry after those that came before, unless the sink has refused a piece. It takes no memory of its
    /// own.
    pub fn write_entry<'s, S: Slice<'s>>(&mut self, entry: &Entry<S>)
        ensures options { self.new.options ≡ self.old.options }
        ensures written { (start : _) (body : BodyTree Text) → HasWritten W.text W.room start body self.old
            → HasWritten W.text W.room start (body ++ entry_view S.text entry.now ∷ []) self.new }
        ensures silent { self.old.refused ≡ true → self.new.sink ≡ self.old.sink }
    {
        self.write_by::<S, BySlice<'s>>(entry);
    }

    /// Writes the entry, whose texts `T` reads.
    fn write_by<X, T: ReadTexts<X>>(&mut self, entry: &Entry<X>)
        ensures options { self.new.options ≡ self.old.options }
        ensures written { (start : _) (body : BodyTree Text) → HasWritten W.text W.room start body self.old
            → HasWritten W.text W.room start (body ++ entry_view T.text entry.now ∷ []) self.new }
        ensures silent { self.old.refused ≡ true → self.new.sink ≡ self.old.sink }
    {
        let mut writer: TextWriter<'_, T, W> = TextWriter::from_parts(
            &mut self.sink,
            self.last,
            self.refused,
        );
        self.follows = serialize_next(&mut writer, entry, self.options.with_junk, self.follows);
        self.last = writer.last;
        self.refused = writer.has_refused();
    }

    /// Whether the sink has refused a piece.
    pub fn has_refused(&self) -> bool
        ensures { result ≡ self.now.refused }
    {
        self.refused
    }

    /// The sink, which has taken the text of the entries that came; or with `SinkError` a beginning of it, and then it
    /// refused the piece that came next.
    pub fn finish(self) -> (W, Result<(), SinkError>)
        ensures taken { (start : _) (body : BodyTree Text) → HasWritten W.text W.room start body self
            → OnOk result.1 (Takes W.text W.room start result.0 (written self.options.with_junk body)) }
        ensures refused { (start : _) (body : BodyTree Text) → HasWritten W.text W.room start body self
            → OnErr result.1 (TakesBeginning W.text W.room start result.0 (written self.options.with_junk body)) }
    {
        let EntryWriter { sink, refused, .. } = self;
        if refused {
            (sink, Err(SinkError))
        } else {
            (sink, Ok(()))
        }
    }
}
