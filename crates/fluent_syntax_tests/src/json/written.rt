//! JSON text that is written without a value: whole, entry by entry, and to sinks that refuse a piece of it.

use crate::alike::{assert_holds, assert_same_text};
use crate::made::{Made, Text, lent_tree, owned_tree};
use crate::writer::sinks::{Small, TEXTS, assert_each_piece_refused};
use fluent_syntax::ast::{Entry, Resource};
use fluent_syntax::parser::Slice;
use fluent_syntax::unicode::{SinkError, TextSink};
use fluent_syntax_json::{BodyWriter, write_to};
use std::alloc::{AllocError, Global};
use std::test::Fail;

/// The JSON text of a tree.
pub(crate) fn json_text<'s, S: Slice<'s>>(alloc: Global, tree: &Resource<S>) -> Made<String> {
    let mut text = String::new(alloc);
    match write_to(&mut text, tree) {
        Ok(()) => Ok(text),
        Err(_) => Err(AllocError),
    }
}

/// The sink to which the entries were written, whether it was seen to refuse one of them, and the answer.
fn written<'s, S: Slice<'s>, W: TextSink>(
    sink: W,
    entries: &[Entry<S>],
) -> (W, bool, Result<(), SinkError>) {
    let mut writer = BodyWriter::new(sink);
    for entry in entries {
        writer.write_entry(entry);
    }
    let has_refused = writer.has_refused();
    let (sink, answer) = writer.finish();
    (sink, has_refused, answer)
}

/// Fails where the JSON text of the tree is another.
fn assert_written<'s, S: Slice<'s>>(
    alloc: Global,
    shows: &str,
    tree: &Resource<S>,
    expected: &str,
) -> Result<(), Fail> {
    assert_same_text(alloc, shows, json_text(alloc, tree)?.as_str(), expected)?;
    let (text, has_refused, answer) = written(String::new(alloc), &tree.body);
    assert_holds(alloc, shows, !has_refused && answer.is_ok())?;
    assert_same_text(alloc, shows, text.as_str(), expected)
}

/// The keys of an object are in order.
#[test]
fn texts_of_forms(rt: HostRuntime) -> Result<(), Fail> {
    let alloc = rt.alloc();
    let form = r#"{"body":[{"content":["a"],"type":"Comment"},{"content":"\"\n","type":"Junk"}]}"#;
    assert_written(alloc, "lent", &lent_tree(alloc, "# a\n\"\n")?, form)?;
    assert_written(alloc, "owned", &owned_tree(alloc, "# a\n\"\n")?, form)
}

fn assert_tree_refused(alloc: Global, text: Text) -> Result<(), Fail> {
    let tree = lent_tree(alloc, text)?;
    let whole = json_text(alloc, &tree)?;
    assert_each_piece_refused(alloc, whole.as_str(), |mut sink| {
        let answer = write_to(&mut sink, &tree);
        (sink, answer)
    })?;
    assert_each_piece_refused(alloc, whole.as_str(), |sink| {
        let (sink, _, answer) = written(sink, &tree.body);
        (sink, answer)
    })
}

#[test]
fn trees_to_sinks_that_refuse(rt: HostRuntime) -> Result<(), Fail> {
    for text in &TEXTS {
        assert_tree_refused(rt.alloc(), *text)?;
    }
    Ok(())
}

/// The JSON text of the tree of `"`; its last two bytes are written when the writer is finished.
const QUOTE: &str = "{\"body\":[{\"content\":\"\\\"\",\"type\":\"Junk\"}]}";

fn assert_within(alloc: Global, room: usize) -> Result<(), Fail> {
    let tree = lent_tree(alloc, "\"")?;
    let mut sink = Small::new(alloc, room)?;
    let answer = write_to(&mut sink, &tree);
    assert_holds(alloc, "a tree", sink.holds_its_part(QUOTE, room, answer))?;
    let (sink, has_refused, answer) = written(Small::new(alloc, room)?, &tree.body);
    let is_refusal_reported = has_refused == (room < QUOTE.len() - 2);
    assert_holds(
        alloc,
        "entries",
        is_refusal_reported && sink.holds_its_part(QUOTE, room, answer),
    )
}

/// What has the room is taken.
#[test]
fn trees_to_sinks_of_a_few_bytes(rt: HostRuntime) -> Result<(), Fail> {
    for room in 0..=QUOTE.len() {
        assert_within(rt.alloc(), room)?;
    }
    Ok(())
}
