//! What entries define, refer to and use.

use crate::alike::assert_same_text;
use fluent_syntax::spans::{Span, parse_spans};
use fluent_syntax_names::{Mention, defined, mentions, references, variables};
use std::alloc::Global;
use std::test::Fail;

const TEXT: &str =
    "a = { b } { $c }\n    .t = { -d.e ->\n       [x] { F($g, k: \"v\") }\n       *[1] { b.u }\n    }\n";

fn push_name(out: &mut String, before: &str, span: Span) -> Result<(), Fail> {
    out.push_str(before)?;
    out.push_str(TEXT.get(span.start..span.end).ok_or("no name")?)?;
    out.push('\n')?;
    Ok(())
}

fn push_reference(
    out: &mut String,
    before: &str,
    name: Span,
    attribute: Option<Span>,
) -> Result<(), Fail> {
    push_name(out, before, name)?;
    match attribute {
        Some(attribute) => push_name(out, "  .", attribute),
        None => Ok(()),
    }
}

fn push_mention(out: &mut String, mention: &Mention<Span>) -> Result<(), Fail> {
    match mention {
        Mention::Message {
            name,
            has_value: true,
        } => push_name(out, "message ", *name),
        Mention::Message { name, .. } => push_name(out, "message without value ", *name),
        Mention::Term { name } => push_name(out, "term ", *name),
        Mention::Attribute { name } => push_name(out, "attribute ", *name),
        Mention::Junk { content } => push_name(out, "junk ", *content),
        Mention::MessageReference { name, attribute } => {
            push_reference(out, "to message ", *name, *attribute)
        }
        Mention::TermReference { name, attribute } => {
            push_reference(out, "to term ", *name, *attribute)
        }
        Mention::Variable { name } => push_name(out, "variable ", *name),
        Mention::Function { name } => push_name(out, "function ", *name),
        Mention::VariantKey { key, first } => {
            push_name(out, "variant ", *key)?;
            push_name(out, "  of ", *first)
        }
    }
}

fn mentions_text(alloc: Global, mentions: &[Mention<Span>]) -> Result<String, Fail> {
    let mut out = String::new(alloc);
    for mention in mentions {
        push_mention(&mut out, mention)?;
    }
    Ok(out)
}

#[test]
fn an_entry(rt: HostRuntime) -> Result<(), Fail> {
    let alloc = rt.alloc();
    let tree = parse_spans(alloc, TEXT).ok().ok_or("errors")?;
    let entry = tree.body.first().ok_or("no entry")?;
    let found = mentions_text(alloc, &mentions(alloc, entry)?)?;
    let all =
        "message a\nto message b\nvariable c\nattribute t\nto term d\n  .e\nvariant x\n  of x\nfunction F\n\
         variable g\nvariant 1\n  of x\nto message b\n  .u\n";
    assert_same_text(alloc, "all", found.as_str(), all)?;
    let found = mentions_text(alloc, &defined(alloc, entry)?)?;
    assert_same_text(alloc, "defined", found.as_str(), "message a\nattribute t\n")?;
    let found = mentions_text(alloc, &references(alloc, entry)?)?;
    assert_same_text(
        alloc,
        "references",
        found.as_str(),
        "to message b\nto term d\n  .e\nfunction F\nto message b\n  .u\n",
    )?;
    let mut names = String::new(alloc);
    for name in &variables(alloc, entry)? {
        push_name(&mut names, "", *name)?;
    }
    assert_same_text(alloc, "variables", names.as_str(), "c\ng\n")
}
