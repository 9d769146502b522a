//! What a text gets of a reference.

use crate::alike::assert_same_text;
use fluent_syntax::parser::Edition;
use fluent_syntax_edits::{additions, edit_all};
use std::alloc::Global;
use std::test::Fail;

/// A reference, a text, names, and the text with what has these names.
type Row = (
    &'static str,
    &'static str,
    &'static [&'static str],
    &'static str,
);

const REFERENCE: &str = "a = A\n    .x = X\n    .y = Y\n    .z = Z\nb = B\n";

const ROWS: [Row; 10] = [
    (
        REFERENCE,
        "a = Eins\n    .y = Zwei\n",
        &["a.x", "a.z"],
        "a = Eins\n    .x = X\n    .y = Zwei\n    .z = Z\n",
    ),
    // its entry alone is written in its normal form
    (
        REFERENCE,
        "# c\na   =   Eins\n\n\nb   =   Drei\n",
        &["a.z"],
        "# c\na = Eins\n    .z = Z\n\n\nb   =   Drei\n",
    ),
    // what the text has, what the reference hasn't, and of entries that one of them hasn't
    (
        REFERENCE,
        "a   =   Eins\n    .y = Zwei\n-a = Drei\n",
        &["-a.x", "a.w", "a.y", "b.x", "c.x"],
        "a   =   Eins\n    .y = Zwei\n-a = Drei\n",
    ),
    // with entries, which come before
    (
        "a = A\nb = B\n    .x = X\nc = C\nd = D\n    .y = Y\n",
        "b = Zwei\nd = Vier\n",
        &["a", "b.x", "c", "d.y"],
        "a = A\nb = Zwei\n    .x = X\nc = C\nd = Vier\n    .y = Y\n",
    ),
    // of a term
    (
        "a = A\n    .x = X\n-a = T\n    .x = Y\n",
        "a = Eins\n-a = Zwei\n",
        &["-a.x"],
        "a = Eins\n-a = Zwei\n    .x = Y\n",
    ),
    // the first entry of a name, of each that the reference has
    (
        "a = A\n    .x = X\nb = B\na =\n    .x = Y\n    .y = Y\n",
        "a = Eins\na = Zwei\n",
        &["a.x", "a.y"],
        "a = Eins\n    .x = X\n    .y = Y\na = Zwei\n",
    ),
    // the first attribute of a name
    (
        "a = A\n    .x = X\n    .x = Y\n",
        "a = Eins\n",
        &["a.x"],
        "a = Eins\n    .x = X\n",
    ),
    // several lines
    (
        "a = A\n    .x =\n        X\n        Y\n",
        "a =\n    Eins\n      Zwei\n",
        &["a.x"],
        "a =\n    Eins\n      Zwei\n    .x =\n        X\n        Y\n",
    ),
    // an entry with all of its own, after the comments
    (
        REFERENCE,
        "### c\n\nb = Drei\n",
        &["a"],
        "### c\n\na = A\n    .x = X\n    .y = Y\n    .z = Z\nb = Drei\n",
    ),
    ("## c\n\na = A\nb = B\n", "", &["a"], "## c\n\na = A\n"),
];

fn assert_added(alloc: Global, row: Row) -> Result<(), Fail> {
    let (reference, text, names, expected) = row;
    let mut owned = Vec::new(alloc);
    for name in names {
        owned.push(String::from_str(alloc, *name)?)?;
    }
    let edits = additions(alloc, reference, text, Edition::One, &owned)?;
    match edit_all(alloc, text, Edition::One, &edits) {
        Ok(made) => assert_same_text(alloc, text, made.as_str(), expected),
        Err(fault) => Err(format!(in alloc; "{expected:?}: {fault:?}")?.into()),
    }
}

#[test]
fn adds(rt: HostRuntime) -> Result<(), Fail> {
    for row in ROWS {
        assert_added(rt.alloc(), row)?;
    }
    Ok(())
}
