//! Trees compared, and one tree read in each way.

use crate::alike::{assert_holds, assert_same, assert_same_text};
use crate::json::written::json_text;
use crate::made::owned_tree_without_errors;
use fluent_syntax::ast::*;
use fluent_syntax::laws::{same_answers, same_texts};
use fluent_syntax::parser::{Edition, is_flat, parse, recovered};
use fluent_syntax::spans::{
    Comments, Entries, Options, Slices, parse_spans, resolve, resolve_entry,
};
use std::alloc::Global;
use std::test::Fail;

/// A text that has each node of the tree.
const TEXT: &str =
    "# c\nkey = a { -t(\"p\", n: 1) }\n    .b = { F($x) }\n-t = { $x ->\n    [one] u\n   *[2] { { m } }\n }\n\n## g\n";

/// A text with junk.
const JUNK: &str = "key = a\nb\n";

/// Whether a tree equals its copy, and no tree without entries.
fn equals_only_its_copy(alloc: Global) -> Result<bool, Fail> {
    let tree = owned_tree_without_errors(alloc, TEXT)?;
    let copy = tree.try_clone(alloc)?;
    let other = Resource {
        body: Vec::new(alloc),
    };
    Ok(same_texts(&tree, &copy) && !same_texts(&tree, &other))
}

#[test]
fn equal_texts(rt: HostRuntime) -> Result<(), Fail> {
    let alloc = rt.alloc();
    assert_holds(alloc, "equal texts", equals_only_its_copy(alloc)?)?;
    let empty: CallArguments<String> = CallArguments::empty(alloc);
    let has_none = empty.positional.is_empty() && empty.named.is_empty();
    assert_holds(alloc, "no arguments", has_none)
}

fn assert_one_answer(alloc: Global, text: &'static str) -> Result<(), Fail> {
    let lent = parse(alloc, text);
    let owned = parse(alloc, String::from_str(alloc, text)?);
    same_answers(text, Edition::One, &lent, &owned);
    let (lent, lent_errors) = recovered(alloc, lent)?;
    let (owned, owned_errors) = recovered(alloc, owned)?;
    assert_holds(alloc, text, lent_errors == owned_errors)?;
    let (lent, owned) = (json_text(alloc, &lent)?, json_text(alloc, &owned)?);
    assert_same_text(alloc, text, owned.as_str(), lent.as_str())
}

#[test]
fn one_answer_over_both_types_of_texts(rt: HostRuntime) -> Result<(), Fail> {
    assert_one_answer(rt.alloc(), TEXT)?;
    assert_one_answer(rt.alloc(), JUNK)
}

const OPTIONS: Options = Options {
    edition: Edition::One,
    comments: Comments::Kept,
    nesting: 3,
};

/// The tree of the text's spans, with the text's bytes put back.
fn put_back(alloc: Global, text: &'static str) -> Result<Resource<&'static str>, Fail> {
    let (spans, _) = recovered(alloc, parse_spans(alloc, text))?;
    Ok(resolve(alloc, &text, &spans)?)
}

/// The tree of the entries that are read one by one, each with its texts put in.
fn put_back_one_by_one(alloc: Global, text: &'static str) -> Result<Resource<&'static str>, Fail> {
    let mut entries = Entries::new(text, OPTIONS);
    let mut body = Vec::new(alloc);
    for _ in 0..=text.len() {
        match entries.next_entry(alloc) {
            Ok(Some((entry, _error))) => body.push(resolve_entry(alloc, &text, &entry)?)?,
            Ok(None) => return Ok(Resource { body }),
            Err(_) => return Err("an entry was not read".into()),
        }
    }
    Err("no end of the entries".into())
}

/// The tree of the entries that are read one by one with their texts.
fn gathered(alloc: Global, text: &'static str) -> Result<Resource<&'static str>, Fail> {
    let slices: Slices<'_, '_, &'static str> = Slices::new(&text);
    let mut entries = Entries::new(text, OPTIONS);
    let mut body = Vec::new(alloc);
    for _ in 0..=text.len() {
        match entries.next_entry_with(alloc, &slices) {
            Ok(Some((entry, _error))) => body.push(entry)?,
            Ok(None) => return Ok(Resource { body }),
            Err(_) => return Err("an entry was not read".into()),
        }
    }
    Err("no end of the entries".into())
}

#[test]
fn one_tree_by_each_way(rt: HostRuntime) -> Result<(), Fail> {
    let alloc = rt.alloc();
    for text in [TEXT, JUNK] {
        let (tree, _) = recovered(alloc, parse(alloc, text))?;
        assert_same(alloc, text, &put_back(alloc, text)?, &tree)?;
        assert_same(alloc, text, &put_back_one_by_one(alloc, text)?, &tree)?;
        assert_same(alloc, text, &gathered(alloc, text)?, &tree)?;
    }
    Ok(())
}

const FLAT: [&str; 3] = ["", "a\r\nb", "key = a\nb = c"];

const NOT_FLAT: [&str; 9] = [
    "a = {",
    "  ",
    "\r\n",
    "a\n#",
    "key = { $x }",
    "key =\n a",
    "a\n.b",
    "a\n-b",
    "a = }",
];

#[test]
fn flat_texts(rt: HostRuntime) -> Result<(), Fail> {
    for text in &FLAT {
        assert_holds(rt.alloc(), *text, is_flat(*text))?;
    }
    for text in &NOT_FLAT {
        assert_holds(rt.alloc(), *text, !is_flat(*text))?;
    }
    Ok(())
}
