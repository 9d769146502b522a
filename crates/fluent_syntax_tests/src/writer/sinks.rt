//! Sinks that refuse a piece: they hold a beginning of the text.
ghost use Rattle.std.specs.Prelude.{◌≡◌, ◌+◌, ◌≤◌, string_bytes, string_capacity, string_len};

use crate::alike::assert_holds;
use crate::made::{Text, lent_tree};
use fluent_syntax::ast::Entry;
use fluent_syntax::serializer::{EntryWriter, Options, serialize_to, serialize_with_options};
use fluent_syntax::unicode::{SinkError, TextSink, unescape_unicode, unescape_unicode_to_string};
use std::alloc::{AllocError, Global};
use std::test::Fail;

/// A text that has each node of the tree, with junk; one whose lines end in CRLF; and one of blank lines.
pub(crate) const TEXTS: [Text; 3] = [
    "# c\nkey = a { -t(\"p\", n: 1) }\n    .b = { F($x) }\n-t = { $x ->\n    [one] u\n   *[2] { { m } }\n }\n\
     \n## g\n\n### r\nbro ken\n",
    "key = a\r\n    b{ \"\\u0041\" }\r\n",
    "\n  \n",
];

/// A sink that refuses one piece, and takes those before and after it. Empty pieces don't count.
#[derive(Drop)]
pub(crate) struct Refusing {
    text: String,
    /// How many pieces are to come before the one that it refuses.
    before: usize,
    has_refused: bool,
}

impl Refusing {
    pub(crate) fn new(alloc: Global, before: usize) -> Refusing {
        Refusing {
            text: String::new(alloc),
            before,
            has_refused: false,
        }
    }

    fn refuses(&mut self) -> bool
        ensures { self.new.text ≡ self.old.text }
    {
        if self.has_refused {
            return false;
        }
        if self.before == 0 {
            self.has_refused = true;
            return true;
        }
        self.before -= 1;
        false
    }

    /// Whether what was answered fits, and it holds the whole text, or a beginning of it where it has refused a piece.
    pub(crate) fn holds_its_part(&self, whole: &str, written: Result<(), SinkError>) -> bool {
        if self.has_refused {
            written == Err(SinkError)
                && whole.starts_with(self.text.as_str())
                && self.text.len() < whole.len()
        } else {
            written == Ok(()) && self.text.as_str() == whole
        }
    }
}

impl TextSink for Refusing {
    ghost text = { λ s. string_bytes s.text };

    ghost room = { λ _. 0 };

    fn write_str(&mut self, s: &str) -> Result<(), SinkError> {
        if s.is_empty() {
            return Ok(());
        }
        if self.refuses() {
            return Err(SinkError);
        }
        self.text.write_str(s)
    }

    fn write_char(&mut self, c: char) -> Result<(), SinkError> {
        let mut bytes = [0; 4];
        self.write_str(c.encode_utf8(&mut bytes))
    }
}

/// A sink of a few bytes, which is sure to take what fits.
#[derive(Drop)]
pub(crate) struct Small {
    text: String,
    room: usize,
    ghost fits: { string_len text + room ≤ string_capacity text },
}

impl Small {
    pub(crate) fn new(alloc: Global, room: usize) -> Result<Small, AllocError> {
        let text = String::with_capacity(alloc, room)?;
        Ok(Small { text, room })
    }
}

impl TextSink for Small {
    ghost text = { λ s. string_bytes s.text };

    ghost room = { λ s. s.room };

    fn write_str(&mut self, s: &str) -> Result<(), SinkError> {
        if s.len() > self.room {
            return Err(SinkError);
        }
        match self.text.push_str(s) {
            Ok(()) => {
                self.room -= s.len();
                Ok(())
            }
            Err(_) => Err(SinkError),
        }
    }

    fn write_char(&mut self, c: char) -> Result<(), SinkError> {
        let mut bytes = [0; 4];
        self.write_str(c.encode_utf8(&mut bytes))
    }
}

impl Small {
    /// Whether what was answered fits, and it holds the whole text just where that had the room, else a beginning.
    pub(crate) fn holds_its_part(
        &self,
        whole: &str,
        room: usize,
        written: Result<(), SinkError>,
    ) -> bool {
        let fits = whole.len() <= room;
        written.is_ok() == fits
            && whole.starts_with(self.text.as_str())
            && (self.text.as_str() == whole) == fits
    }
}

/// Writes a text to sinks that refuse its first piece, its second and so on.
pub(crate) fn assert_each_piece_refused<F: Fn(Refusing) -> (Refusing, Result<(), SinkError>)>(
    alloc: Global,
    whole: &str,
    write: F,
) -> Result<(), Fail>
    requires { F.IsAlwaysCallable write }
{
    let mut has_refused = false;
    for before in 0..=whole.len() {
        let (sink, answer) = write(Refusing::new(alloc, before));
        assert_holds(alloc, whole, sink.holds_its_part(whole, answer))?;
        has_refused |= sink.has_refused;
    }
    assert_holds(alloc, whole, has_refused != whole.is_empty())
}

/// The sink to which the entries were written, whether it was seen to refuse one of them, and the answer.
fn written<W: TextSink>(sink: W, entries: &[Entry<Text>]) -> (W, bool, Result<(), SinkError>) {
    let mut writer = EntryWriter::new(sink, Options { with_junk: true });
    for entry in entries {
        writer.write_entry(entry);
    }
    let has_refused = writer.has_refused();
    let (sink, answer) = writer.finish();
    (sink, has_refused, answer)
}

fn assert_tree_refused(alloc: Global, text: Text) -> Result<(), Fail> {
    let tree = lent_tree(alloc, text)?;
    let options = Options { with_junk: true };
    let whole = serialize_with_options(alloc, &tree, options)?;
    assert_each_piece_refused(alloc, whole.as_str(), |mut sink| {
        let answer = serialize_to(&mut sink, &tree, options);
        (sink, answer)
    })?;
    assert_each_piece_refused(alloc, whole.as_str(), |sink| {
        let (sink, _, answer) = written(sink, &tree.body);
        (sink, answer)
    })
}

#[test]
fn trees(rt: HostRuntime) -> Result<(), Fail> {
    for text in &TEXTS {
        assert_tree_refused(rt.alloc(), *text)?;
    }
    Ok(())
}

fn assert_escapes_refused(alloc: Global, text: &str) -> Result<(), Fail> {
    let whole = unescape_unicode_to_string(alloc, text)?.into_owned(alloc)?;
    assert_each_piece_refused(alloc, whole.as_str(), |mut sink| {
        let answer = unescape_unicode(&mut sink, text);
        (sink, answer)
    })
}

#[test]
fn escapes(rt: HostRuntime) -> Result<(), Fail> {
    assert_escapes_refused(rt.alloc(), "")?;
    assert_escapes_refused(rt.alloc(), "Foo \\u5bd2 Bar\\q")
}

fn assert_within(alloc: Global, room: usize) -> Result<(), Fail> {
    let mut sink = Small::new(alloc, room)?;
    let answer = unescape_unicode(&mut sink, "ab\\u00e9");
    assert_holds(alloc, "escapes", sink.holds_its_part("abé", room, answer))?;
    let tree = lent_tree(alloc, "# a\nb=c")?;
    let (sink, has_refused, answer) = written(Small::new(alloc, room)?, &tree.body);
    let is_refusal_reported = has_refused == answer.is_err();
    let holds = sink.holds_its_part("# a\nb = c\n", room, answer);
    assert_holds(alloc, "entries", is_refusal_reported && holds)
}

/// What has the room is taken.
#[test]
fn sinks_of_a_few_bytes(rt: HostRuntime) -> Result<(), Fail> {
    for room in 0..12 {
        assert_within(rt.alloc(), room)?;
    }
    Ok(())
}
