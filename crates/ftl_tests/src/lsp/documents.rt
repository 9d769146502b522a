//! Open documents and closed files: their tokens and names, and texts that nest too deep.

use fluent_syntax_tests::alike::{assert_holds, assert_same_text};
use ftl_files::BlankLines;
use ftl_lsp::{
    ClosedFile, Document, NameKind, Occurrence, encoded_tokens, formatted_text, semantic_tokens_of,
    tokens_of,
};
use std::alloc::Global;
use std::test::Fail;

fn document_of(alloc: Global, text: &str) -> Result<Document, Fail> {
    Ok(Document::new(alloc, String::from_str(alloc, text)?)?)
}

const TEXT: &str = "# 😀\n#\n-c = { \"\" }\n";

/// Five numbers for each token.
const NUMBERS: [usize; 15] = [0, 2, 2, 8, 0, 2, 0, 2, 1, 1, 0, 7, 2, 5, 0];

#[test]
fn numbers_of_tokens(rt: HostRuntime) -> Result<(), Fail> {
    let alloc = rt.alloc();
    let tokens = tokens_of(alloc, document_of(alloc, TEXT)?.body())?;
    let highlights = semantic_tokens_of(alloc, TEXT, &tokens)?;
    let numbers = encoded_tokens(alloc, &highlights)?;
    assert_holds(alloc, TEXT, numbers.as_slice() == NUMBERS.as_slice())
}

/// A message of so many placeables in one another.
fn nested_text(alloc: Global, depth: usize) -> Result<String, Fail> {
    let braces = "{".repeat(alloc, depth)?;
    let ends = "}".repeat(alloc, depth)?;
    Ok(format!(in alloc; "a = {braces}b{ends}")?)
}

#[test]
fn a_text_that_nests_too_deeply(rt: HostRuntime) -> Result<(), Fail> {
    let alloc = rt.alloc();
    let shallow = nested_text(alloc, 500)?;
    let is_written = formatted_text(alloc, shallow.as_str(), BlankLines::Normal)?.is_some();
    assert_holds(alloc, "500 in one another", is_written)?;
    let deep = nested_text(alloc, 501)?;
    let document = document_of(alloc, deep.as_str())?;
    let is_refused = document.is_too_deep() && document.body().is_empty();
    assert_holds(alloc, "501 in one another", is_refused)?;
    let is_left = formatted_text(alloc, deep.as_str(), BlankLines::Normal)?.is_none();
    assert_holds(alloc, "501 are not formatted", is_left)
}

/// Names of a text, by what they are and where they are.
const NAMES: [(NameKind, usize, usize); 6] = [
    (NameKind::Message, 0, 1),
    (NameKind::Message, 6, 7),
    (NameKind::Message, 8, 9),
    (NameKind::Variable, 15, 16),
    (NameKind::Message, 24, 25),
    (NameKind::Function, 30, 31),
];

/// Whether these are the names.
fn are_names(found: &[Occurrence], expected: &[(NameKind, usize, usize)]) -> bool {
    found.len() == expected.len()
        && found.iter().zip(expected).all(|(name, row)| {
            name.kind == row.0 && name.span().start == row.1 && name.span().end == row.2
        })
}

#[test]
fn names_of_a_closed_file(rt: HostRuntime) -> Result<(), Fail> {
    let alloc = rt.alloc();
    let text = String::from_str(alloc, "a = { b.c } { $d }\n    .e = { F() }\n")?;
    match ClosedFile::new(alloc, "/w/a b.ftl", text)? {
        Some(file) => {
            assert_same_text(alloc, "its URI", file.uri.as_str(), "file:///w/a%20b.ftl")?;
            assert_holds(alloc, "its names", are_names(&file.occurrences, &NAMES))
        }
        None => assert_holds(alloc, "it can be read", false),
    }
}
