//! The calls that read ranges: of whole texts, and of the parts of an entry.

use crate::alike::assert_same_text;
use fluent_syntax::ast::{Entry, PatternElement, Resource};
use fluent_syntax::parser::{Edition, ParserError};
use fluent_syntax::spans::{
    Span, attribute_refusal, entry_ranges, parse_runtime_spans, parse_runtime_spans_edition,
    parse_spans, parse_spans_edition,
};
use std::alloc::{AllocError, Global};
use std::fmt::Write;
use std::test::Fail;

/// A comment, and a placeable beyond the common indent.
const TEXT: &str = "# c\nkey =\n    a\n      {x}\n";

fn push_span(out: &mut String, span: Span) -> Result<(), AllocError> {
    let Span { start, end } = span;
    write!(out, "{start}..{end} ")
}

/// The ranges of the first entry, which is a message: of its name, of the texts of its value, and of its comment.
fn ranges_of(alloc: Global, tree: &Resource<Span>) -> Result<String, Fail> {
    let Some(Entry::Message(message)) = tree.body.first() else {
        return Err("no message".into());
    };
    let mut out = String::new(alloc);
    push_span(&mut out, message.id.name)?;
    let value = message.value.as_ref().ok_or("no value")?;
    for element in &value.elements {
        if let PatternElement::TextElement { value } = element {
            push_span(&mut out, *value)?;
        }
    }
    if let Some(comment) = &message.comment {
        out.push_str("#")?;
        push_span(&mut out, *comment.content.first().ok_or("no line")?)?;
    }
    Ok(out)
}

#[test]
fn spans(rt: HostRuntime) -> Result<(), Fail> {
    let alloc = rt.alloc();
    let whole = parse_spans(alloc, TEXT).ok().ok_or("errors")?;
    let got = ranges_of(alloc, &whole)?;
    assert_same_text(alloc, "edition one", got.as_str(), "4..7 14..16 #2..3 ")?;
    let runtime = parse_runtime_spans(alloc, TEXT).ok().ok_or("errors")?;
    let got = ranges_of(alloc, &runtime)?;
    assert_same_text(alloc, "without comments", got.as_str(), "4..7 14..16 ")?;
    let whole = parse_spans_edition(alloc, TEXT, Edition::Two);
    let got = ranges_of(alloc, &whole.ok().ok_or("errors")?)?;
    let expected = "4..7 14..16 20..22 #2..3 ";
    assert_same_text(alloc, "edition two", got.as_str(), expected)?;
    let runtime = parse_runtime_spans_edition(alloc, TEXT, Edition::Two);
    let got = ranges_of(alloc, &runtime.ok().ok_or("errors")?)?;
    assert_same_text(alloc, "both", got.as_str(), "4..7 14..16 20..22 ")
}

#[test]
fn ranges_of_an_entry(rt: HostRuntime) -> Result<(), Fail> {
    let alloc = rt.alloc();
    let ranges = entry_ranges(alloc, "-a = b\n .c = d\n", Edition::One, 9, 0);
    let ranges = ranges.ok().ok_or("a halt")?.ok_or("no entry")?;
    let mut out = String::new(alloc);
    push_span(&mut out, ranges.name)?;
    push_span(&mut out, ranges.value.ok_or("no value")?)?;
    let attribute = *ranges.attributes.first().ok_or("no attribute")?;
    push_span(&mut out, attribute.span)?;
    push_span(&mut out, attribute.name)?;
    push_span(&mut out, attribute.value)?;
    let expected = "1..2 4..7 7..15 9..10 12..15 ";
    assert_same_text(alloc, "a term", out.as_str(), expected)
}

/// The kind and the place of the attribute's refusal, or nothing where one is read.
fn refusal_at(alloc: Global, text: &str, start: usize) -> Result<String, Fail> {
    if start > text.len() {
        return Err("a place beyond the text".into());
    }
    let refusal = attribute_refusal(alloc, text, Edition::One, 9, start);
    let mut out = String::new(alloc);
    if let Some(error) = refusal.ok().ok_or("a halt")? {
        let ParserError { pos, kind, .. } = error;
        write!(out, "{} {}..{}", kind.name(), pos.start, pos.end)?;
    }
    Ok(out)
}

#[test]
fn attributes_that_are_refused(rt: HostRuntime) -> Result<(), Fail> {
    let alloc = rt.alloc();
    let text = "a =\n .b = { $c\n .d = e\n .f";
    let got = refusal_at(alloc, text, 4)?;
    assert_same_text(alloc, "an open brace", got.as_str(), "ExpectedToken 16..17")?;
    let got = refusal_at(alloc, text, 15)?;
    assert_same_text(alloc, "one that is read", got.as_str(), "")?;
    let got = refusal_at(alloc, text, 23)?;
    assert_same_text(
        alloc,
        "the text's end",
        got.as_str(),
        "ExpectedToken 26..27",
    )
}
