//! What is found in a file by itself or among others, and name indexes that are made entry by entry.

use crate::alike::{assert_holds, assert_same_text};
use crate::names::findings::{name_index, push_finding};
use fluent_syntax::parser::recovered;
use fluent_syntax::spans::parse_spans;
use fluent_syntax_names::{DefinedNames, NameIndex, findings_with_externals, local_findings};
use std::alloc::Global;
use std::test::Fail;

/// What is shown, a file, and what is found in it by itself, as in `findings`.
const ROWS: &[(&str, &str, &str)] = table! {
    "nothing", "", "";
    "no mistake", "a = { b }\nb = B\n", "";
    "a message twice", "a = A\na = B\n", "defined-twice 0 a 6 0\n";
    "an attribute twice", "a = A\n    .t = B\n    .t = C\n", "attribute-twice 0 t 22 11\n";
    "a variant twice", "a = { $n ->\n [x] X\n [x] Y\n *[y] Z\n }\n", "variant-twice 0 x 21 14\n";
    "two messages", "a = { b }\nb = { a }\n", "cyclic-reference 0 b 6\ncyclic-reference 0 a 16\n";
    "what another file may define", "a = { b } { -c } { a.t }\n", "";
    "a value that another file may give", "a = { b }\nb =\n    .t = T\n", "";
    "a circle next to what another file may define",
        "a = { b } { c }\nb = { a }\n", "cyclic-reference 0 b 6\ncyclic-reference 0 a 22\n";
    "in the order of the text",
        "a = { x }\n    .t = { y }\n    .t = T\na = { a }\n",
        "attribute-twice 0 t 30 15\ndefined-twice 0 a 36 0\ncyclic-reference 0 a 42\n";
};

#[test]
fn files_by_themselves(rt: HostRuntime) -> Result<(), Fail> {
    let alloc = rt.alloc();
    for (shows, text, expected) in ROWS {
        let files = [name_index(alloc, *text)?];
        let mut out = String::new(alloc);
        for finding in &local_findings(alloc, &files[0])? {
            push_finding(&mut out, &files, finding)?;
        }
        assert_same_text(alloc, *shows, out.as_str(), *expected)?;
    }
    Ok(())
}

/// What is shown, a file, two others, and what is found in the file among them.
const AMONG_OTHERS: &[(&str, &str, [&str; 2], &str)] = table! {
    "its own", "a = { b }\nb = B\n", ["", ""], "";
    "the first one's", "a = { b } { b.t }\n", ["b = B\n    .t = T\n", ""], "";
    "the second one's", "a = { -b }\n", ["b = B\n", "-b = B\n"], "";
    "nobody's",
        "a = { b } { -c }\n", ["c = C\n", "-b = B\n"], "undefined-message 0 b 6\nundefined-term 0 c 13\n";
    "an attribute of nobody",
        "a = { b.u }\n    .u = U\n", ["b = B\n", "b =\n    .t = T\n"], "undefined-attribute 0 u 8\n";
    "a value of nobody", "a = { b }\n", ["b =\n    .t = T\n", ""], "undefined-value 0 b 6\n";
    "what others define twice", "b = B\n", ["b = B\n", "b = B\nb = B\n"], "";
    "what the file has by itself",
        "a = { a }\na = { b }\n", ["b = { a }\n", ""], "cyclic-reference 0 a 6\ndefined-twice 0 a 10 0\n";
};

/// The names that a text defines.
fn names_of(alloc: Global, text: &str) -> Result<DefinedNames, Fail> {
    let file = name_index(alloc, text)?;
    let mut names = DefinedNames::new(alloc);
    names.add(alloc, file.text, &file.mentions)?;
    Ok(names)
}

#[test]
fn files_among_others(rt: HostRuntime) -> Result<(), Fail> {
    let alloc = rt.alloc();
    for (shows, text, others, expected) in AMONG_OTHERS {
        let files = [name_index(alloc, *text)?];
        let (first, second) = (names_of(alloc, others[0])?, names_of(alloc, others[1])?);
        let mut out = String::new(alloc);
        for finding in &findings_with_externals(alloc, &files, &[&first, &second])? {
            push_finding(&mut out, &files, finding)?;
        }
        assert_same_text(alloc, *shows, out.as_str(), *expected)?;
    }
    Ok(())
}

/// The name index of two texts as one, of which each is read by itself.
fn name_index_in_two<'t>(alloc: Global, whole: &'t str, at: usize) -> Result<NameIndex<'t>, Fail> {
    let mut joined = NameIndex::new(alloc, whole);
    let first = whole.get(..at).ok_or("no such place")?;
    let second = whole.get(at..).ok_or("no such place")?;
    for (base, text) in &[(0, first), (at, second)] {
        let (tree, _) = recovered(alloc, parse_spans(alloc, *text))?;
        for entry in &tree.body {
            joined.add(alloc, *base, entry)?;
        }
    }
    Ok(joined)
}

#[test]
fn name_indexes_entry_by_entry(rt: HostRuntime) -> Result<(), Fail> {
    let alloc = rt.alloc();
    let text = "a = { $x } { b.t }\n    .t = T\nb = { F(-c.u) }\n\nb B\n-c = { a }\n";
    let whole = name_index(alloc, text)?;
    for at in &[0, 30, 46, 47, text.len()] {
        let joined = name_index_in_two(alloc, text, *at)?;
        assert_holds(alloc, "the text", joined.text == whole.text)?;
        assert_holds(alloc, "the mentions", joined.mentions == whole.mentions)?;
    }
    Ok(())
}
