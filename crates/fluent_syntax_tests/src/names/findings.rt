//! What is found in sets of files.

use crate::alike::{assert_holds, assert_same, assert_same_text};
use fluent_syntax::parser::recovered;
use fluent_syntax::spans::{Span, parse_spans};
use fluent_syntax_names::{Finding, Kind, NameIndex, Severity, findings, name_index_of};
use std::alloc::Global;
use std::test::Fail;

/// The name index of a text, whose errors are left.
pub(crate) fn name_index<'a>(alloc: Global, text: &'a str) -> Result<NameIndex<'a>, Fail> {
    let (tree, _) = recovered(alloc, parse_spans(alloc, text))?;
    Ok(name_index_of(alloc, text, &tree.body)?)
}

pub(crate) fn push_finding(
    out: &mut String,
    files: &[NameIndex<'_>],
    finding: &Finding,
) -> Result<(), Fail> {
    let alloc = *out.allocator();
    let kind = finding.kind.name();
    let file = finding.file;
    let text = files.get(file).ok_or("no such file")?.text;
    let Span { start, end } = finding.place.ok_or("no place")?;
    let name = text.get(start..end).ok_or("no name")?;
    let line = match finding.other {
        None => format!(in alloc; "{kind} {file} {name} {start}\n")?,
        Some(other) => {
            let first = other.span.start;
            format!(in alloc; "{kind} {file} {name} {start} {first}\n")?
        }
    };
    out.push_str(line.as_str())?;
    Ok(())
}

#[test]
fn sets_of_files(rt: HostRuntime) -> Result<(), Fail> {
    let alloc = rt.alloc();
    let mut files = Vec::new(alloc);
    for text in ["a = { b } { c }\nb = { a }\n", "d = D\nd = D\n"] {
        files.push(name_index(alloc, text)?)?;
    }
    let mut out = String::new(alloc);
    for finding in &findings(alloc, &files)? {
        push_finding(&mut out, &files, finding)?;
    }
    let expected =
        "cyclic-reference 0 b 6\nundefined-message 0 c 12\ncyclic-reference 0 a 22\ndefined-twice 1 d 6 0\n";
    assert_same_text(alloc, "two files", out.as_str(), expected)
}

/// A kind, and what is said of it where the name is `a` and the first one is on line 3.
const SAID: &[(Kind, &str)] = table! {
    Kind::DefinedTwice, "`a` is defined twice, first on line 3";
    Kind::AttributeTwice, "the entry has the attribute `a` twice, first on line 3";
    Kind::VariantTwice, "the select has the variant `a` twice, first on line 3";
};

#[test]
fn sentences_and_severities(rt: HostRuntime) -> Result<(), Fail> {
    let alloc = rt.alloc();
    for (kind, expected) in SAID {
        let said = kind.sentence(alloc, "a", Some(3))?;
        assert_same_text(alloc, kind.name(), said.as_str(), *expected)?;
        let severity = if *kind == Kind::VariantTwice {
            Severity::Warning
        } else {
            Severity::Error
        };
        assert_same(alloc, kind.name(), &kind.severity(), &severity)?;
        assert_holds(alloc, kind.name(), kind.is_local())?;
    }
    Ok(())
}
