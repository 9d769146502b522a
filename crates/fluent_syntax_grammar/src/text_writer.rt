//! Pieces of text, handed to a sink until it refuses one.
ghost use Rattle.std.specs.Prelude.{◌≡◌, None, false};
ghost use Rattle.fluent_syntax_grammar.specs.Written.{last_of};
ghost use Rattle.fluent_syntax_grammar.specs.Writing.{Appends};

use crate::sink::{SinkError, TextSink};
use std::marker::PhantomData;

/// The last byte once the piece follows what ended in the byte before.
#[inline(always)]
fn last_byte(before: Option<u8>, piece: &str) -> Option<u8>
    ensures { result ≡ last_of before piece.now }
{
    piece.as_bytes().last().copied().or(before)
}

/// Writes to the sink the texts that `T` reads. What the sink has accepted is the text so far, or a beginning of it
/// once it has refused.
#[derive(Drop)]
pub struct TextWriter<'w, T, W> {
    sink: &'w mut W,
    /// The last byte written here, whatever the sink held before.
    pub last: Option<u8>,
    /// Whether the sink has refused a piece. It is handed no further one.
    refused: bool,
    texts: PhantomData<T>,
}

impl<'w, T, W: TextSink> TextWriter<'w, T, W> {
    pub fn new(sink: &'w mut W) -> Self
        ensures same_sink { result.sink.ghost_name ≡ sink.entry.ghost_name }
        ensures sink { result.sink.now ≡ sink.old }
        ensures nothing_yet { result.last ≡ None }
        ensures not_refused { result.refused ≡ false }
    {
        TextWriter {
            sink,
            last: None,
            refused: false,
            texts: PhantomData,
        }
    }

    /// A writer that goes on after another to the same sink, where that one left off.
    pub fn from_parts(sink: &'w mut W, last: Option<u8>, refused: bool) -> Self
        ensures same_sink { result.sink.ghost_name ≡ sink.entry.ghost_name }
        ensures sink { result.sink.now ≡ sink.old }
        ensures last { result.last ≡ last }
        ensures refused { result.refused ≡ refused }
    {
        TextWriter {
            sink,
            last,
            refused,
            texts: PhantomData,
        }
    }

    /// Whether the sink has refused a piece.
    pub fn has_refused(&self) -> bool
        ensures { result ≡ self.now.refused }
    {
        self.refused
    }

    /// Hands the piece to the sink, unless it has refused one.
    #[inline(always)]
    pub fn write_piece(&mut self, piece: &str)
        ensures written { Appends W.text W.room self.old self.new piece.now }
    {
        if self.refused {
            return;
        }
        match self.sink.write_str(piece) {
            Ok(()) => self.last = last_byte(self.last, piece),
            Err(SinkError) => self.refused = true,
        }
    }
}
