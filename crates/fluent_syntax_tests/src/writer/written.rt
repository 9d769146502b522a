//! Texts, and the texts that their trees are written as: whole, to a sink, and entry by entry.

use crate::alike::assert_same_text;
use crate::made::{Made, Text, comment, lent_tree, message_with_value};
use fluent_syntax::ast::{Entry, Resource};
use fluent_syntax::serializer::{
    EntryWriter, Options, serialize, serialize_to, serialize_with_options,
};
use fluent_syntax::unicode::SinkError;
use std::alloc::Global;
use std::test::Fail;

/// A text with junk, and what the tree of it is written as, without junk and with it.
const JUNK: &[(Text, &str, &str)] = table! {
    "\nkey1 = Value 1\n\ng@Rb@ge = #2y ds\n\nkey2 = Value 2\n\n",
        "key1 = Value 1\nkey2 = Value 2\n",
        "key1 = Value 1\ng@Rb@ge = #2y ds\n\nkey2 = Value 2\n";
    "x\n# a\n", "# a\n\n", "x\n# a\n\n";
    "k = v\nx\n# a\n", "k = v\n# a\n\n", "k = v\nx\n# a\n\n";
};

/// What the entries are written as, one by one.
fn written_one_by_one(
    alloc: Global,
    entries: &[Entry<Text>],
    options: Options,
) -> Result<String, Fail> {
    let mut writer = EntryWriter::new(String::new(alloc), options);
    for entry in entries {
        writer.write_entry(entry);
    }
    match writer.finish() {
        (text, Ok(())) => Ok(text),
        (_, Err(SinkError)) => Err(Fail::new("no memory")),
    }
}

fn assert_written(
    alloc: Global,
    shows: &str,
    tree: &Resource<Text>,
    with_junk: bool,
    expected: &str,
) -> Result<(), Fail> {
    let options = Options { with_junk };
    let whole = serialize_with_options(alloc, tree, options)?;
    assert_same_text(alloc, shows, whole.as_str(), expected)?;
    let text = written_one_by_one(alloc, &tree.body, options)?;
    assert_same_text(alloc, shows, text.as_str(), expected)
}

#[test]
fn trees_of_texts(rt: HostRuntime) -> Result<(), Fail> {
    let alloc = rt.alloc();
    for (text, without_junk, with_junk) in JUNK {
        let tree = lent_tree(alloc, *text)?;
        let written = serialize(alloc, &tree)?;
        assert_same_text(alloc, *text, written.as_str(), *without_junk)?;
        assert_written(alloc, *text, &tree, false, *without_junk)?;
        assert_written(alloc, *text, &tree, true, *with_junk)?;
    }
    Ok(())
}

/// Junk, a comment without lines, and a message.
fn entries_after(alloc: Global, content: Text) -> Made<Resource<Text>> {
    let mut body: Vec<Entry<Text>> = Vec::new(alloc);
    body.push(Entry::Junk { content })?;
    body.push(Entry::Comment(comment(alloc, &[])?))?;
    body.push(message_with_value(alloc, "k", &["v"])?)?;
    Ok(Resource { body })
}

/// A comment without lines is a line end, before which a CR is doubled.
#[test]
fn a_line_end_after_a_cr(rt: HostRuntime) -> Result<(), Fail> {
    let tree = entries_after(rt.alloc(), "a\r")?;
    assert_written(rt.alloc(), "with junk", &tree, true, "a\r\r\nk = v\n")?;
    assert_written(rt.alloc(), "without", &tree, false, "\nk = v\n")
}

/// What a sink holds that has held the text, once the tree is written to it.
fn written_after(alloc: Global, held: &str, tree: &Resource<Text>) -> Result<String, Fail> {
    let mut sink = String::from_str(alloc, held)?;
    match serialize_to(&mut sink, tree, Options::default()) {
        Ok(()) => Ok(sink),
        Err(SinkError) => Err("refused".into()),
    }
}

/// What a sink holds already changes nothing.
#[test]
fn after_what_a_sink_holds(rt: HostRuntime) -> Result<(), Fail> {
    let alloc = rt.alloc();
    let sink = written_after(alloc, "\r", &lent_tree(alloc, "#")?)?;
    assert_same_text(alloc, "a comment", sink.as_str(), "\r\n")?;
    let sink = written_after(alloc, "x", &lent_tree(alloc, "x\nk = v\n")?)?;
    assert_same_text(alloc, "a message", sink.as_str(), "xk = v\n")
}
